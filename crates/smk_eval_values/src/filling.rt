//! Patterns with values for their names.

ghost use Rattle.std.specs.Prelude.{◌≡◌, ◌++◌, IfOk, OnOk, string_bytes, option_map};
ghost use Rattle.smk_eval_values.specs.Letters as spec;

use crate::reading::Piece;
use smk_base::{OutOfMemory, Pair, Text};
use std::alloc::{AllocError, Global};

// The value of the name.
fn value_of<'b>(bound: &'b [Pair], name: &str) -> Option<&'b str>
    ensures { option_map (λ v. v.now) result ≡ spec.value bound.now name.now }
{
    match bound {
        [] => None,
        [pair, later @ ..] => {
            if pair.name.as_str() == name {
                Some(pair.value.as_str())
            } else {
                value_of(later, name)
            }
        }
    }
}

// Writes the name as it stands in a pattern.
fn push_braced(text: &mut String, name: &str) -> Result<(), AllocError>
    ensures { OnOk result (string_bytes text.new ≡ string_bytes text.old ++ spec.braced name.now) }
{
    text.push_str("{")?;
    text.push_str(name)?;
    text.push_str("}")
}

// Writes the value of the name, or the name as it stands in a pattern.
fn push_value(text: &mut String, name: &str, bound: &[Pair]) -> Result<(), AllocError>
    ensures { OnOk result (string_bytes text.new ≡ string_bytes text.old ++ spec.letter_text bound.now (spec.name name.now)) }
{
    match value_of(bound, name) {
        Some(value) => text.push_str(value),
        None => push_braced(text, name),
    }
}

// Writes a text that stands for itself.
fn push_plain(text: &mut String, plain: &str) -> Result<(), AllocError>
    ensures { OnOk result (string_bytes text.new ≡ string_bytes text.old ++ plain.now) }
{
    text.push_str(plain)
}

// Writes what the piece stands for.
#[tactic(auto, using(crate::proofs::Fill::filled_name))]
fn push_piece(text: &mut String, piece: &Piece, bound: &[Pair]) -> Result<(), AllocError>
    ensures { OnOk result (string_bytes text.new ≡ string_bytes text.old ++ spec.filled bound.now (spec.piece_letters piece.now)) }
{
    match piece {
        Piece::Plain(plain) => push_plain(text, plain.as_str()),
        Piece::Name(name) => push_value(text, name.as_str(), bound),
    }
}

/// The text of a pattern with these values for its names; a name without a value stays as it is written. `OutOfMemory` where there is
/// no memory for it.
pub(crate) fn fill(alloc: Global, pieces: &[Piece], bound: &[Pair]) -> Result<Text, OutOfMemory>
    ensures { IfOk result (λ text. text ≡ spec.filled bound.now (spec.letters_of pieces.now)) }
{
    let mut text = String::new(alloc);
    for piece in pieces {
        push_piece(&mut text, piece, bound)?;
    }
    Text::of(alloc, text.as_str())
}
