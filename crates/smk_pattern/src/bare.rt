//! Texts of patterns without what stands in their wildcards besides names.

ghost use Rattle.std.specs.Prelude.{◌≡◌, ◌∷◌, ◌++◌, [], IfOk, OnOk, string_bytes};
ghost use Rattle.std.specs.List.{flat_map};
ghost use Rattle.smk_pattern.specs.Bare.{bare_piece, without_limits};
ghost use Rattle.smk_pattern.specs.Splitting.{written_of, all_written};

use crate::splitting::{Written, split};
use smk_base::{OutOfMemory, Text};
use std::alloc::{AllocError, Global};

// Writes the name in braces.
fn push_braced(text: &mut String, name: &str) -> Result<(), AllocError>
    ensures { OnOk result (string_bytes text.new ≡ string_bytes text.old ++ 123 ∷ (name.now ++ 125 ∷ [])) }
{
    text.push_str("{")?;
    text.push_str(name)?;
    text.push_str("}")
}

// Writes the piece without constraint and blanks.
fn push_piece(text: &mut String, piece: &Written) -> Result<(), AllocError>
    ensures { OnOk result (string_bytes text.new ≡ string_bytes text.old ++ bare_piece (written_of piece.now)) }
{
    match piece {
        Written::Plain(plain) => text.push_str(plain),
        Written::Hole(name, _) => push_braced(text, name),
    }
}

// The pieces, each without constraint and blanks.
fn joined(alloc: Global, pieces: &[Written]) -> Result<Text, OutOfMemory>
    ensures { IfOk result (λ text. text ≡ flat_map bare_piece (all_written pieces.now)) }
{
    let mut text = String::new(alloc);
    for piece in pieces {
        push_piece(&mut text, piece)?;
    }
    Text::of(alloc, text.as_str())
}

/// The text with each wildcard as its name in braces, without its constraint and without blanks. A text whose braces aren't balanced
/// stays as it is. `OutOfMemory` where there is no memory for it.
pub fn without_limits(alloc: Global, text: &str) -> Result<Text, OutOfMemory>
    ensures { IfOk result (λ bare. bare ≡ without_limits text.now) }
{
    match split(alloc, text)? {
        Some(written) => joined(alloc, &written),
        None => Text::of(alloc, text),
    }
}
