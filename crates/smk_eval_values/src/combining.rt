//! All combinations of the values of names.

ghost use Rattle.std.specs.Prelude.{◌≡◌, ◌≤◌, ◌*◌, ◌∷◌, ◌++◌, [], IfOk, OnOk};
ghost use Rattle.smk_eval_values.specs.Letters as spec;
ghost use Rattle.smk_eval_values.specs.Expanding.{combined};
ghost use Rattle.smk_eval_values.specs.Counting.{count_of, limited};

use crate::choices::Choices;
use crate::filling::fill;
use crate::names::stands;
use crate::reading::Piece;
use smk_base::{Copied, List, OutOfMemory, Pair, Text};
use std::alloc::Global;

/// How many results one `expand` may have.
pub(crate) const LIMIT: u64 = 100_000;

// The product of the two, or 100,001 where it is larger than 100,000.
fn product(len: usize, count: u64) -> u64
    requires { count ≤ 100_001 }
    ensures value { result ≡ limited (len * count) }
    ensures within { result ≤ 100_001 }
{
    if count == 0 {
        return 0;
    }
    if len as u64 > LIMIT {
        return LIMIT + 1;
    }
    let product = len as u64 * count;
    if product > LIMIT { LIMIT + 1 } else { product }
}

/// How many combinations there are, or 100,001 where there are more than 100,000.
pub(crate) fn count(pieces: &[Piece], choices: &[Choices]) -> u64
    ensures value { result ≡ limited (count_of (spec.letters_of pieces.now) choices.now) }
    ensures within { result ≤ 100_001 }
{
    match choices {
        [] => 1,
        [first, later @ ..] => {
            if stands(pieces, first.name.as_str()) {
                product(first.values.len(), count(pieces, later))
            } else {
                count(pieces, later)
            }
        }
    }
}

// What is bound, and the value under the name. What is bound is copied, pair by pair. Each name of the pattern has a value when this is
// called, so that a text follows from each copy: a text of n names costs at most n copies of at most n pairs.
fn with_value(
    alloc: Global,
    bound: &List<Pair>,
    name: &Text,
    value: &Text,
) -> Result<List<Pair>, OutOfMemory>
    ensures { IfOk result (λ longer. longer ≡ bound.now ++ record { name = name.now; value = value.now } ∷ []) }
{
    let mut longer = bound.copied(alloc)?;
    longer.push(Pair {
        name: name.copy(alloc)?,
        value: value.copy(alloc)?,
    })?;
    Ok(longer)
}

/// Adds the texts of the pattern, with each value of each name that stands in it, the last name fastest; `bound` is what the names
/// before these stand for. `OutOfMemory` where there is no memory for them.
pub(crate) fn combine(
    texts: &mut List<Text>,
    alloc: Global,
    pieces: &[Piece],
    bound: &List<Pair>,
    choices: &[Choices],
) -> Result<(), OutOfMemory>
    ensures { OnOk result (texts.new ≡ texts.old ++ combined (spec.letters_of pieces.now) bound.now choices.now) }
{
    match choices {
        [] => texts.push(fill(alloc, pieces, bound.as_slice())?),
        [first, later @ ..] => {
            let first_stands = stands(pieces, first.name.as_str());
            if first_stands {
                let values = first.values.as_slice();
                for value in values {
                    let longer = with_value(alloc, bound, &first.name, value)?;
                    combine(texts, alloc, pieces, &longer, later)?;
                }
                return Ok(());
            }
            combine(texts, alloc, pieces, bound, later)
        }
    }
}
