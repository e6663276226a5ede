//! The bytes of symbols.

ghost use Rattle.std.specs.Prelude.{◌≡◌, ◌++◌, ◌∷◌, [], map, IfOk, OnOk};
ghost use Rattle.smk_lex.specs.Spelling as spelling;
ghost use Rattle.smk_parse_print.specs.Rows.{byte_of, lexeme_of};
ghost use Rattle.smk_parse_print.specs.Writing as spec;

use smk_base::{Bytes, OutOfMemory};
use smk_parse_expr::Sign;
use std::alloc::Global;

/// A symbol that is lent to be written.
#[derive(Clone, Copy)]
pub enum Lent<'a> {
    Name(&'a str),
    Number(u64),
    Text(&'a str),
    Sign(Sign),
}

/// Writes a byte as it stands in a text between double quotes.
fn escape(out: &mut Vec<u8>, b: u8) -> Result<(), OutOfMemory>
    ensures { OnOk result (out.new.items ≡ out.old.items ++ spelling.escape b) }
{
    match b {
        b'"' => out.extend_from_slice(b"\\\"")?,
        b'\\' => out.extend_from_slice(b"\\\\")?,
        b'\n' => out.extend_from_slice(b"\\n")?,
        b'\r' => out.extend_from_slice(b"\\r")?,
        _ => out.push(b)?,
    }
    Ok(())
}

/// Writes the text between double quotes.
fn text(out: &mut Vec<u8>, value: &[u8]) -> Result<(), OutOfMemory>
    ensures { OnOk result (out.new.items ≡ out.old.items ++ spelling.quoted value.now) }
{
    out.push(b'"')?;
    for b in value {
        escape(out, *b)?;
    }
    out.push(b'"')?;
    Ok(())
}

/// The text as a workflow file has it: between double quotes, and with a backslash before each quote and backslash and in
/// place of each line end. `OutOfMemory` where there is no memory for it.
pub fn spell_text(alloc: Global, value: &str) -> Result<Bytes, OutOfMemory>
    ensures { IfOk result (λ bytes. bytes ≡ spelling.quoted value.now) }
{
    let mut out = Vec::new(alloc);
    text(&mut out, value.as_bytes())?;
    Bytes::of(alloc, out.as_slice())
}

fn byte_of(sign: Sign) -> u8
    ensures { result ≡ byte_of sign }
{
    match sign {
        Sign::Colon => b':',
        Sign::Comma => b',',
        Sign::Equals => b'=',
        Sign::Open => b'(',
        Sign::Close => b')',
        Sign::OpenSquare => b'[',
        Sign::CloseSquare => b']',
        Sign::Point => b'.',
        Sign::Plus => b'+',
        Sign::Greater => b'>',
    }
}

/// Writes the symbol.
pub fn symbol(alloc: Global, out: &mut Vec<u8>, lent: Lent) -> Result<(), OutOfMemory>
    ensures { OnOk result (out.new.items ≡ out.old.items ++ (lexeme_of (spec.symbol_of lent.entry)).bytes) }
{
    match lent {
        Lent::Name(word) => Ok(out.extend_from_slice(word.as_bytes())?),
        Lent::Number(n) => Ok(out.extend_from_slice(format!(in alloc; "{n}")?.as_bytes())?),
        Lent::Text(value) => text(out, value.as_bytes()),
        Lent::Sign(sign) => Ok(out.push(byte_of(sign))?),
    }
}

/// Writes the symbols, with a blank before each.
pub fn symbols(alloc: Global, out: &mut Vec<u8>, lent: &[Lent]) -> Result<(), OutOfMemory>
    ensures { OnOk result (out.new.items ≡ out.old.items ++ spec.spaced (map spec.symbol_of lent.now)) }
{
    for one in lent {
        out.push(b' ')?;
        symbol(alloc, out, *one)?;
    }
    Ok(())
}

/// Writes a sign with a blank before it, if it is to be written.
pub fn sign_if(wanted: bool, out: &mut Vec<u8>, sign: Sign) -> Result<(), OutOfMemory>
    ensures { OnOk result (out.new.items ≡ out.old.items ++ spec.spaced (spec.if_so wanted sign)) }
{
    if wanted {
        out.extend_from_slice(&[b' ', byte_of(sign)])?;
    }
    Ok(())
}
