//! Tokens as symbols.

ghost use Rattle.std.specs.Prelude.{◌≡◌, IfOk, All, slice_index};
ghost use Rattle.smk_lex.specs.Tokens.{IsToken, spelling as spelling_of};
ghost use Rattle.smk_parse_expr.specs.Grammar.{HasLetters};
ghost use Rattle.smk_parse_expr.specs.Tokens as spec;

use crate::symbol::{Sign, Symbol};
use smk_base::{List, OutOfMemory, Text};
use smk_lex::{Token, TokenKind, number_of, text_value};
use std::alloc::Global;

fn sign_of(b: u8) -> Sign
    ensures { result ≡ spec.sign_of b }
{
    match b {
        b':' => Sign::Colon,
        b',' => Sign::Comma,
        b'=' => Sign::Equals,
        b'(' => Sign::Open,
        b')' => Sign::Close,
        b'[' => Sign::OpenSquare,
        b']' => Sign::CloseSquare,
        b'.' => Sign::Point,
        b'+' => Sign::Plus,
        _ => Sign::Greater,
    }
}

/// The slice of the source that the token is.
fn spelling<'a>(source: &'a str, token: &Token) -> &'a str
    requires { IsToken source.now token.now }
    ensures { result.now ≡ spelling_of source.now token.now }
{
    let (start, end) = (token.start as usize, token.end as usize);
    if start <= end {
        &source[start..end]
    } else {
        ""
    }
}

fn first(word: &str) -> u8
    ensures { result ≡ slice_index word.now 0 }
{
    match word.as_bytes() {
        [b, ..] => *b,
        [] => 0,
    }
}

/// The symbol of the token.
fn symbol(alloc: Global, source: &str, token: &Token) -> Result<Symbol, OutOfMemory>
    requires { IsToken source.now token.now }
    ensures { IfOk result (λ symbol. symbol ≡ spec.symbol_of source.now token.now) }
{
    let word = spelling(source, token);
    let at = token.start;
    match token.kind {
        TokenKind::Name => Ok(Symbol::Name(at, Text::of(alloc, word)?)),
        TokenKind::Number => Ok(Symbol::Number(at, number_of(word.as_bytes()).unwrap_or(0))),
        TokenKind::Spelling => Ok(Symbol::Text(at, Text::of(alloc, word)?)),
        TokenKind::Text => Ok(Symbol::Text(at, text_value(alloc, word)?)),
        TokenKind::Sign => Ok(Symbol::Sign(at, sign_of(first(word)))),
        TokenKind::Newline => Ok(Symbol::Newline(at)),
        TokenKind::Indent => Ok(Symbol::Indent(at)),
        TokenKind::Dedent => Ok(Symbol::Dedent(at)),
    }
}

/// The symbols of the tokens of this source, one for each, in order. `OutOfMemory` where there is no memory for them.
pub fn symbols(alloc: Global, source: &str, tokens: &[Token]) -> Result<List<Symbol>, OutOfMemory>
    requires { All (IsToken source.now) tokens.now }
    ensures exact { IfOk result (λ found. found ≡ spec.symbols_of source.now tokens.now) }
    ensures letters { IfOk result HasLetters }
{
    let mut found = List::new(alloc);
    for token in tokens {
        found.push(symbol(alloc, source, token)?)?;
    }
    Ok(found)
}
