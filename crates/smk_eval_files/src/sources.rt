//! The syntax of a source.

ghost use Rattle.std.specs.Prelude.{◌≡◌, ◌≤◌, drop, length, false, Ok, IfOk};
ghost use Rattle.std.specs.List.{prefix_len};
ghost use Rattle.smk_lex.specs.Layout.{lexed};
ghost use Rattle.smk_parse.specs.Files as grammar;
ghost use Rattle.smk_eval_files.specs.Reading.{Answers, is_device, device_failed, is_word_byte, front_word, word_at, of_lex, of_parse, parsed_in, syntax_in};

use smk_base::{List, OutOfMemory, PathText, Text};
use smk_flaws::{FileFault, FileFlaw};
use smk_lex::{LexFault, Token, lex};
use smk_parse::{Lines, ParseFault, parse};
use smk_parse_tree::Syntax;
use std::alloc::Global;
use std::str;

fn is_word_byte(b: u8) -> bool
    ensures { result ≡ is_word_byte b }
{
    b.is_ascii_alphanumeric() || b == b'_'
}

// How many bytes the word at the front has.
fn word_len(z: &[u8]) -> usize
    ensures value { result ≡ prefix_len is_word_byte z.now }
    ensures within { result ≤ length z.now }
{
    let mut len = 0;
    while len < z.len() && is_word_byte(z[len]) {
        len += 1;
    }
    len
}

// The word at the front.
fn front_word(alloc: Global, z: &[u8]) -> Result<Text, OutOfMemory>
    ensures { IfOk result (λ word. word ≡ front_word z.now) }
{
    match str::from_utf8(&z[..word_len(z)]) {
        Ok(word) => Text::of(alloc, word),
        Err(_) => unreachable!(),
    }
}

// The bytes from the place on.
fn from_place(source: &[u8], place: u64) -> &[u8]
    ensures { result.now ≡ drop place source.now }
{
    if place < source.len() as u64 {
        &source[place as usize..]
    } else {
        &[]
    }
}

// The word at the place.
fn word_at(alloc: Global, source: &[u8], place: u64) -> Result<Text, OutOfMemory>
    ensures { IfOk result (λ word. word ≡ word_at source.now place) }
{
    front_word(alloc, from_place(source, place))
}

// The fault of the file that has this one.
fn of_lex(
    alloc: Global,
    file: &PathText,
    source: &[u8],
    fault: LexFault,
) -> Result<FileFault, OutOfMemory>
    ensures is { IfOk result (λ f. f ≡ of_lex file.now source.now fault) }
    ensures no_device { IfOk result (λ f. is_device f ≡ false) }
{
    let lines = Lines::new(alloc, source)?;
    Ok(match fault {
        LexFault::BadIndent(place) => FileFault::Flawed(FileFlaw::BadIndent {
            file: Text::of(alloc, file.as_str())?,
            line: lines.number(place),
        }),
        LexFault::OpenText(place) => FileFault::Flawed(FileFlaw::OpenText {
            file: Text::of(alloc, file.as_str())?,
            line: lines.number(place),
        }),
        LexFault::BadByte(place) => FileFault::Flawed(FileFlaw::BadByte {
            file: Text::of(alloc, file.as_str())?,
            line: lines.number(place),
        }),
        LexFault::OutOfMemory => FileFault::OutOfMemory,
    })
}

// The fault of the file that has this one.
fn of_parse(
    alloc: Global,
    file: &PathText,
    source: &[u8],
    fault: ParseFault,
) -> Result<FileFault, OutOfMemory>
    ensures is { IfOk result (λ f. f ≡ of_parse file.now source.now fault) }
    ensures no_device { IfOk result (λ f. is_device f ≡ false) }
{
    let lines = Lines::new(alloc, source)?;
    Ok(match fault {
        ParseFault::Unexpected(place) => FileFault::Flawed(FileFlaw::Unexpected {
            file: Text::of(alloc, file.as_str())?,
            line: lines.number(place),
        }),
        ParseFault::Unsupported(place) => FileFault::Flawed(FileFlaw::Unsupported {
            file: Text::of(alloc, file.as_str())?,
            line: lines.number(place),
            word: word_at(alloc, source, place)?,
        }),
        ParseFault::Doubled(place) => FileFault::Flawed(FileFlaw::Doubled {
            file: Text::of(alloc, file.as_str())?,
            line: lines.number(place),
            word: word_at(alloc, source, place)?,
        }),
        ParseFault::OutOfMemory => FileFault::OutOfMemory,
    })
}

// The syntax of the source with these tokens.
#[tactic(auto, using(crate::proofs::Faults::parse_fault))]
fn parsed(
    alloc: Global,
    file: &PathText,
    source: &[u8],
    tokens: &List<Token>,
) -> Result<Syntax, FileFault>
    requires { lexed source.now ≡ Ok tokens.now }
    ensures is { Answers (parsed_in file.now source.now (grammar.parsed source.now tokens.now)) result }
    ensures no_device { device_failed result ≡ false }
{
    match parse(alloc, source, tokens) {
        Ok(syntax) => Ok(syntax),
        Err(fault) => Err(of_parse(alloc, file, source, fault)?),
    }
}

/// The syntax of the source, which stands in this file. Otherwise the fault that stands first, with its line; or `OutOfMemory`.
#[tactic(auto, using(crate::proofs::Faults::lex_fault))]
pub(crate) fn syntax_in(alloc: Global, file: &PathText, source: &[u8]) -> Result<Syntax, FileFault>
    ensures is { Answers (syntax_in file.now source.now) result }
    ensures no_device { device_failed result ≡ false }
{
    match lex(alloc, source) {
        Ok(tokens) => parsed(alloc, file, source, &tokens),
        Err(fault) => Err(of_lex(alloc, file, source, fault)?),
    }
}
