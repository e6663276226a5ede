//! The pieces of a pattern.

ghost use Rattle.std.specs.Prelude.{◌≡◌, ◌<◌, ◌≤◌, ◌∷◌, ◌++◌, [], IfOk, OnOk, IsUtf8, length, map, slice_index, true, false};
ghost use Rattle.smk_template.specs.Templates.{is_brace};
ghost use Rattle.smk_eval_values.specs.Letters as spec;

use smk_base::{List, OutOfMemory, Text};
use smk_template::first_brace;
use std::alloc::Global;

/// A piece of a pattern.
#[derive(Drop)]
pub(crate) enum Piece {
    /// A text that stands for itself.
    Plain(Text),
    /// A name that a value takes the place of.
    Name(Text),
}

fn begins_name(byte: u8) -> bool
    ensures { result ≡ spec.begins_name byte }
{
    (b'A'..=b'Z').contains(&byte) || (b'a'..=b'z').contains(&byte) || byte == b'_'
}

fn is_name_byte(byte: u8) -> bool
    ensures { result ≡ spec.is_name_byte byte }
{
    begins_name(byte) || (b'0'..=b'9').contains(&byte)
}

// How many bytes of a name the text begins with.
fn name_len(text: &[u8]) -> usize
    ensures value { result ≡ spec.name_len text.now }
    ensures within { result ≤ length text.now }
{
    for (i, byte) in text.iter().enumerate() {
        if !is_name_byte(*byte) {
            return i;
        }
    }
    text.len()
}

// The byte at this place, or 0 after the end.
fn byte(text: &[u8], at: usize) -> u8
    ensures { result ≡ slice_index text.now at }
{
    match text.get(at) {
        Some(byte) => *byte,
        None => 0,
    }
}

// How many bytes of a name stand after the brace, where a brace closes it; otherwise 0.
fn closed_len(brace: u8, after: &[u8]) -> usize
    ensures value { result ≡ spec.closed_len brace after.now }
    ensures within { 0 < result → result < length after.now }
    ensures closed { 0 < result → slice_index after.now result ≡ 125 }
{
    let len = name_len(after);
    if brace == b'{' && begins_name(byte(after, 0)) && byte(after, len) == b'}' {
        len
    } else {
        0
    }
}

// Whether the same brace follows the brace.
fn is_doubled(brace: u8, after: &[u8]) -> bool
    requires { is_brace brace ≡ true }
    ensures value { result ≡ spec.is_doubled brace after.now }
    ensures within { result ≡ true → 0 < length after.now }
    ensures ascii { result ≡ true → slice_index after.now 0 < 128 }
{
    match after {
        [] => false,
        [first, ..] => *first == brace,
    }
}

// Adds a text that stands for itself.
#[tactic(auto, using(crate::proofs::Read::letters_push))]
fn push_text(pieces: &mut List<Piece>, alloc: Global, text: &str) -> Result<(), OutOfMemory>
    ensures { OnOk result (spec.letters_of pieces.new ≡ spec.letters_of pieces.old ++ map spec.plain text.now) }
{
    pieces.push(Piece::Plain(Text::of(alloc, text)?))
}

// Adds a name.
#[tactic(auto, using(crate::proofs::Read::letters_push))]
fn push_name(pieces: &mut List<Piece>, alloc: Global, name: &str) -> Result<(), OutOfMemory>
    ensures { OnOk result (spec.letters_of pieces.new ≡ spec.letters_of pieces.old ++ spec.name name.now ∷ []) }
{
    pieces.push(Piece::Name(Text::of(alloc, name)?))
}

// Adds what begins with the brace in front, and answers what follows it.
fn push_symbol<'t>(
    pieces: &mut List<Piece>,
    alloc: Global,
    text: &'t str,
) -> Result<&'t str, OutOfMemory>
    requires some { 0 < length text.now }
    requires brace { is_brace (slice_index text.now 0) ≡ true }
    ensures read { IfOk result (λ rest. spec.letters_of pieces.new ++ spec.letters rest.now ≡ spec.letters_of pieces.old ++ spec.letters text.now) }
    ensures shorter { IfOk result (λ rest. length rest.now < length text.now) }
    ensures utf8 { IfOk result (λ rest. IsUtf8 rest.now) }
{
    let brace = byte(text.as_bytes(), 0);
    let after = &text[1..];
    let len = closed_len(brace, after.as_bytes());
    if len > 0 {
        push_name(pieces, alloc, &after[..len])?;
        return Ok(&after[len + 1..]);
    }
    push_text(pieces, alloc, &text[..1])?;
    if is_doubled(brace, after.as_bytes()) {
        return Ok(&after[1..]);
    }
    Ok(after)
}

/// The pieces of a pattern. `OutOfMemory` where there is no memory for them.
pub(crate) fn read(alloc: Global, pattern: &str) -> Result<List<Piece>, OutOfMemory>
    ensures { IfOk result (λ pieces. spec.letters_of pieces ≡ spec.letters pattern.now) }
{
    let mut pieces = List::new(alloc);
    let mut rest = pattern;
    'reading: loop {
        let plain = first_brace(rest.as_bytes());
        push_text(&mut pieces, alloc, &rest[..plain])?;
        if plain >= rest.len() {
            return Ok(pieces);
        }
        rest = push_symbol(&mut pieces, alloc, &rest[plain..])?;
    }
}
