//! The values of names, paired.

ghost use Rattle.std.specs.Prelude.{◌≡◌, ◌++◌, IfOk, OnOk, slice_index_or, []};
ghost use Rattle.smk_eval_values.specs.Letters as spec;
ghost use Rattle.smk_eval_values.specs.Expanding.{rows, has_each, is_even, row, paired};

use crate::choices::Choices;
use crate::filling::fill;
use crate::names::stands;
use crate::reading::Piece;
use smk_base::{List, OutOfMemory, Pair, Text};
use std::alloc::Global;

/// How many values the first name has that stands in the pattern; 0 where none does.
#[tactic(auto, using(crate::proofs::Pairs::rows_more, crate::proofs::Pairs::rows_end))]
pub(crate) fn rows(pieces: &[Piece], choices: &[Choices]) -> usize
    ensures { result ≡ rows (spec.letters_of pieces.now) choices.now }
{
    for choice in choices {
        if stands(pieces, choice.name.as_str()) {
            return choice.values.len();
        }
    }
    0
}

/// Whether each name that stands in the pattern has this many values.
#[tactic(auto, using(crate::proofs::Pairs::even_more, crate::proofs::Pairs::even_end))]
fn has_each(pieces: &[Piece], choices: &[Choices], count: usize) -> bool
    ensures { result ≡ has_each count (spec.letters_of pieces.now) choices.now }
{
    for choice in choices {
        if stands(pieces, choice.name.as_str()) && choice.values.len() != count {
            return false;
        }
    }
    true
}

/// Whether all names that stand in the pattern have the same number of values.
pub(crate) fn is_even(pieces: &[Piece], choices: &[Choices]) -> bool
    ensures { result ≡ is_even (spec.letters_of pieces.now) choices.now }
{
    has_each(pieces, choices, rows(pieces, choices))
}

// The value at this place.
fn value_at(alloc: Global, values: &[Text], place: usize) -> Result<Text, OutOfMemory>
    ensures { IfOk result (λ value. value ≡ slice_index_or values.now place []) }
{
    match values.get(place) {
        Some(value) => value.copy(alloc),
        None => Text::of(alloc, ""),
    }
}

// Each name with its value at this place.
fn row(alloc: Global, choices: &[Choices], place: usize) -> Result<List<Pair>, OutOfMemory>
    ensures { IfOk result (λ bound. bound ≡ row place choices.now) }
{
    let mut bound = List::new(alloc);
    for choice in choices {
        bound.push(Pair {
            name: choice.name.copy(alloc)?,
            value: value_at(alloc, choice.values.as_slice(), place)?,
        })?;
    }
    Ok(bound)
}

/// Adds the texts of the pattern, with the values at each place in turn. `OutOfMemory` where there is no memory for them.
pub(crate) fn pair(
    texts: &mut List<Text>,
    alloc: Global,
    pieces: &[Piece],
    choices: &[Choices],
) -> Result<(), OutOfMemory>
    ensures { OnOk result (texts.new ≡ texts.old ++ paired (spec.letters_of pieces.now) choices.now) }
{
    let count = rows(pieces, choices);
    for place in 0..count {
        let bound = row(alloc, choices, place)?;
        texts.push(fill(alloc, pieces, bound.as_slice())?)?;
    }
    Ok(())
}
