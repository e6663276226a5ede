//! `expand`.

ghost use Rattle.std.specs.Prelude.{◌≡◌, ◌≢◌, ◌≤◌, ◌++◌, [], IfOk, IfErr, OnOk, Ok, Err, length, option_map};
ghost use Rattle.smk_eval_values.specs.declared.expanding.ExpandFault.{ExpandFault};
ghost use Rattle.smk_eval_values.specs.Letters.{letters, letters_of};
ghost use Rattle.smk_eval_values.specs.Expanding as spec;
ghost use Rattle.smk_eval_values.specs.Counting.{limited};

use crate::choices::Choices;
use crate::combining::{LIMIT, combine, count};
use crate::names::unknown;
use crate::pairing::{is_even, pair, rows};
use crate::reading::{Piece, read};
use smk_base::{List, OutOfMemory, Text};
use std::alloc::Global;

/// Why `expand` gives no texts.
#[derive(Drop)]
pub enum ExpandFault {
    /// This name in a pattern has no values, and isn't to stay as it is.
    UnknownName(Text),
    /// The names in a pattern have different counts of values, and are to be paired.
    UnequalZip,
    /// There are more than 100,000 results.
    TooMany,
    /// There is no memory for the results.
    OutOfMemory,
}

impl From<OutOfMemory> for ExpandFault {
    ghost use Rattle.std.specs.Prelude.{◌≡◌};
    ghost use Rattle.smk_eval_values.specs.declared.expanding.ExpandFault.{ExpandFault};

    ghost from_gives = { λ _ fault. fault ≡ ExpandFault.OutOfMemory };

    fn from(_: OutOfMemory) -> ExpandFault {
        ExpandFault::OutOfMemory
    }
}

// How many texts the pattern gives, or 100,001 where these are more than 100,000.
#[tactic(auto, using(crate::proofs::Counts::length_texts))]
fn count_texts(pieces: &[Piece], choices: &[Choices], zip: bool) -> u64
    ensures { result ≡ limited (length (spec.texts zip choices.now (letters_of pieces.now))) }
{
    if zip {
        limited(rows(pieces, choices))
    } else {
        count(pieces, choices)
    }
}

// The count, or 100,001 where it is larger than 100,000.
fn limited(count: usize) -> u64
    ensures { result ≡ limited count }
{
    let count = count as u64;
    if count > LIMIT { LIMIT + 1 } else { count }
}

// The name for which the pattern is refused.
fn refused<'p>(pieces: &'p [Piece], choices: &[Choices], allow_missing: bool) -> Option<&'p str>
    ensures { option_map (λ n. n.now) result ≡ spec.refused allow_missing choices.now (letters_of pieces.now) }
{
    if allow_missing {
        None
    } else {
        unknown(pieces, choices)
    }
}

// The fault that tells this name.
fn unknown_name(alloc: Global, name: &str) -> ExpandFault
    ensures { result ≢ ExpandFault.OutOfMemory → result ≡ ExpandFault.UnknownName name.now }
{
    match Text::of(alloc, name) {
        Ok(name) => ExpandFault::UnknownName(name),
        Err(_) => ExpandFault::OutOfMemory,
    }
}

// Passes where the texts of the pattern can be added to those that are made.
fn check(
    alloc: Global,
    made: &List<Text>,
    pieces: &[Piece],
    choices: &[Choices],
    zip: bool,
    allow_missing: bool,
) -> Result<(), ExpandFault>
    requires { length made.now ≤ 100_000 }
    ensures ok { OnOk result (spec.expanded_one zip allow_missing choices.now made.now (letters_of pieces.now) ≡ Ok (made.now ++ spec.texts zip choices.now (letters_of pieces.now))) }
    ensures room { OnOk result (length (made.now ++ spec.texts zip choices.now (letters_of pieces.now)) ≤ 100_000) }
    ensures fault { IfErr result (λ f. f ≢ ExpandFault.OutOfMemory
        → spec.expanded_one zip allow_missing choices.now made.now (letters_of pieces.now) ≡ Err f) }
{
    if let Some(name) = refused(pieces, choices, allow_missing) {
        return Err(unknown_name(alloc, name));
    }
    if zip && !is_even(pieces, choices) {
        return Err(ExpandFault::UnequalZip);
    }
    let room = LIMIT - made.len() as u64;
    if count_texts(pieces, choices, zip) > room {
        return Err(ExpandFault::TooMany);
    }
    Ok(())
}

// Adds the texts of the pattern. Where there are none, since a name has no values, the values of the others aren't gone through.
#[tactic(auto, using(crate::proofs::Counts::nothing_more))]
fn add_texts(
    texts: &mut List<Text>,
    alloc: Global,
    pieces: &[Piece],
    choices: &[Choices],
    zip: bool,
) -> Result<(), OutOfMemory>
    ensures { OnOk result (texts.new ≡ texts.old ++ spec.texts zip choices.now (letters_of pieces.now)) }
{
    if count_texts(pieces, choices, zip) == 0 {
        return Ok(());
    }
    if zip {
        pair(texts, alloc, pieces, choices)
    } else {
        combine(texts, alloc, pieces, &List::new(alloc), choices)
    }
}

// Adds the texts of one pattern.
fn expand_one(
    made: &mut List<Text>,
    alloc: Global,
    pattern: &str,
    choices: &[Choices],
    zip: bool,
    allow_missing: bool,
) -> Result<(), ExpandFault>
    requires { length made.old ≤ 100_000 }
    ensures ok { OnOk result (spec.expanded_one zip allow_missing choices.now made.old (letters pattern.now) ≡ Ok made.new) }
    ensures room { OnOk result (length made.new ≤ 100_000) }
    ensures fault { IfErr result (λ f. f ≢ ExpandFault.OutOfMemory
        → spec.expanded_one zip allow_missing choices.now made.old (letters pattern.now) ≡ Err f) }
{
    let pieces = read(alloc, pattern)?;
    check(alloc, made, pieces.as_slice(), choices, zip, allow_missing)?;
    add_texts(made, alloc, pieces.as_slice(), choices, zip)?;
    Ok(())
}

/// The texts of the patterns, in order, with the values of the names that stand in each: all combinations, the last name fastest; with
/// `zip` the values at each place together, and none where no name stands in the pattern. In a pattern `{NAME}` is a name, `{{` and
/// `}}` are one brace, and every other brace stands for itself; with `allow_missing` a name without values stays as it is.
///
/// The first fault in the order of the patterns is told: `UnknownName` with the first name of the pattern that has no values, where
/// `allow_missing` is false; then `UnequalZip` where the names of the pattern have different counts of values, with `zip`; then `TooMany` where the
/// texts so far are more than 100,000, and none of the pattern is made then. `OutOfMemory` where there is no memory for the texts.
pub fn expand(
    alloc: Global,
    patterns: &[Text],
    choices: &[Choices],
    zip: bool,
    allow_missing: bool,
) -> Result<List<Text>, ExpandFault>
    ensures ok { IfOk result (λ texts. spec.expanded zip allow_missing choices.now [] patterns.now ≡ Ok texts) }
    ensures fault { IfErr result (λ f. f ≢ ExpandFault.OutOfMemory → spec.expanded zip allow_missing choices.now [] patterns.now ≡ Err f) }
{
    let mut made = List::new(alloc);
    for pattern in patterns {
        expand_one(
            &mut made,
            alloc,
            pattern.as_str(),
            choices,
            zip,
            allow_missing,
        )?;
    }
    Ok(made)
}
