//! Patterns with values for their names.

ghost use Rattle.std.specs.Prelude.{◌≡◌, IfOk, OnOk, List, ℕ, Some, None, option_map};
ghost use Rattle.smk_pattern.specs.Reading.{value};
ghost use Rattle.smk_pattern.specs.Filling.{values_of, first_unknown};
ghost use Rattle.smk_pattern.specs.Fitting.{filled, part_text};
ghost use Rattle.smk_pattern.specs.Pieces.{part_of, parts_of, wildcards_of};
ghost use Rattle.smk_pattern.specs.Searching.{now_of};

use crate::by_name::{text_at, values_by_name};
use crate::pattern::{Binding, FillFault, Pattern, Piece, Wildcard};
use smk_base::{OutOfMemory, Pair, Text};
use std::alloc::{AllocFailed, Global};

impl From<OutOfMemory> for FillFault {
    ghost use Rattle.std.specs.Prelude.{◌≡◌};
    ghost use Rattle.smk_pattern.specs.declared.pattern.FillFault.{FillFault};

    ghost from_gives = { λ _ fault. fault ≡ FillFault.OutOfMemory };

    fn from(_: OutOfMemory) -> FillFault {
        FillFault::OutOfMemory
    }
}

impl<T: Drop> From<AllocFailed<T>> for FillFault {
    ghost use Rattle.std.specs.Prelude.{◌≡◌};
    ghost use Rattle.smk_pattern.specs.declared.pattern.FillFault.{FillFault};

    ghost from_gives = { λ _ fault. fault ≡ FillFault.OutOfMemory };

    fn from(_: AllocFailed<T>) -> FillFault {
        FillFault::OutOfMemory
    }
}

// The value of each wildcard.
fn values_in<'b>(
    alloc: Global,
    wildcards: &[Wildcard],
    binding: &'b [Pair],
) -> Result<Vec<&'b str>, FillFault>
    ensures ok { IfOk result (λ values. now_of values.items ≡ values_of binding.now (wildcards_of wildcards.now)) }
    ensures known { OnOk result (first_unknown binding.now (wildcards_of wildcards.now) ≡ None) }
    ensures unknown { (name : List ℕ) → result ≡ Err (FillFault.UnknownWildcard name)
        → first_unknown binding.now (wildcards_of wildcards.now) ≡ Some name }
{
    let by_name = values_by_name(alloc, binding)?;
    let mut values = Vec::new(alloc);
    for wildcard in wildcards {
        match text_at(&by_name, wildcard.name.as_str()) {
            Some(value) => values.push(value)?,
            None => {
                return Err(FillFault::UnknownWildcard(wildcard.name.copy(alloc)?));
            }
        }
    }
    Ok(values)
}

// What the piece stands for. A wildcard's number is the place of its value.
fn text_of<'a>(piece: &'a Piece, values: &[&'a str]) -> &'a str
    ensures { result.now ≡ part_text (now_of values.now) (part_of piece.now) }
{
    match piece {
        Piece::Literal(text) => text.as_str(),
        Piece::Wild(number) => match values.get(*number) {
            Some(value) => value,
            None => "",
        },
    }
}

// The pieces in a row, each wildcard with its value.
fn join<'a>(alloc: Global, pieces: &'a [Piece], values: &[&'a str]) -> Result<Text, OutOfMemory>
    ensures { IfOk result (λ text. text ≡ filled (parts_of pieces.now) (now_of values.now)) }
{
    let mut text = String::new(alloc);
    for piece in pieces {
        text.push_str(text_of(piece, values))?;
    }
    Text::of(alloc, text.as_str())
}

/// The text of the pattern with the value of each of its names. `UnknownWildcard` exactly where a name has no value: it is the first
/// such name, in the order in which they first stand. `OutOfMemory` where there is no memory for the text or the name.
pub fn fill(alloc: Global, pattern: &Pattern, binding: &Binding) -> Result<Text, FillFault>
    ensures ok { IfOk result (λ text. text ≡ filled pattern.now.parts (values_of binding.now pattern.now.wildcards)) }
    ensures known { OnOk result (first_unknown binding.now pattern.now.wildcards ≡ None) }
    ensures unknown { (name : List ℕ) → result ≡ Err (FillFault.UnknownWildcard name)
        → first_unknown binding.now pattern.now.wildcards ≡ Some name }
{
    let values = values_in(alloc, pattern.wildcards.as_slice(), binding.as_slice())?;
    Ok(join(alloc, pattern.pieces.as_slice(), &values)?)
}
