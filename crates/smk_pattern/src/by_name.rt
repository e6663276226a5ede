//! Names of wildcards, and texts by name: each look-up takes a time that grows with the logarithm of their number, so that a text of
//! many wildcards is read, and a pattern of many filled, in little more than the time that is linear in it.

ghost use Rattle.std.specs.Prelude.{◌≡◌, [], ◌∷◌, IfOk, OnOk, MatchOption, List, ℕ, Some, true, false, bytes_eq, is_some, option_map, if◌then◌else◌};
ghost use Rattle.std.specs.List.{list_all};
ghost use Rattle.smk_pattern.specs.Grammar.{Piece, given_limit, inline_limits};
ghost use Rattle.smk_pattern.specs.Reading.{place_of, names_in, value};
ghost use Rattle.smk_pattern.specs.Written.{is_single, with_name};
ghost use Rattle.smk_pattern.specs.Splitting.{written_of, all_written};
ghost use Rattle.smk_pattern.specs.ByName.{place_at, text_at, AreNames, or_text, AreInline, AddsInline};

use crate::splitting::Written;
use smk_base::{OutOfMemory, Pair};
use std::alloc::Global;
use std::collections::BTreeMap;

/// The names of wildcards, each where it first stands, and the place of each.
#[derive(Drop)]
pub(crate) struct Names<'t> {
    pub(crate) list: Vec<&'t str>,
    pub(crate) places: BTreeMap<&'t str, usize>,
}

// Where the name stands.
fn place_at<'t>(places: &BTreeMap<&'t str, usize>, name: &str) -> Option<usize>
    ensures { result ≡ place_at places.now name.now }
{
    match places.get(name) {
        Some(place) => Some(*place),
        None => None,
    }
}

fn has_place<'t>(places: &BTreeMap<&'t str, usize>, name: &str) -> bool
    ensures { result ≡ is_some (place_at places.now name.now) }
{
    place_at(places, name).is_some()
}

// Adds the name, which isn't there.
fn push_name<'t>(names: &mut Names<'t>, name: &'t str) -> Result<(), OutOfMemory>
    ensures { OnOk result ((known : List (List ℕ)) → AreNames names.old known → is_some (place_at names.old.places name.now) ≡ false
        → AreNames names.new (with_name (Piece.hole name.now None) known)) }
{
    names.places.insert(name, names.list.len())?;
    names.list.push(name)?;
    Ok(())
}

// Adds the name of the piece, where it has one that isn't there.
fn add_name<'t>(names: &mut Names<'t>, piece: &Written<'t>) -> Result<(), OutOfMemory>
    ensures { OnOk result ((known : List (List ℕ)) → AreNames names.old known → AreNames names.new (with_name (written_of piece.now) known)) }
{
    let Written::Hole(name, _) = piece else {
        return Ok(());
    };
    if has_place(&names.places, name) {
        return Ok(());
    }
    push_name(names, name)
}

/// The names, each where it first stands.
pub(crate) fn names_in<'t>(alloc: Global, written: &[Written<'t>]) -> Result<Names<'t>, OutOfMemory>
    ensures { IfOk result (λ names. AreNames names (names_in (all_written written.now))) }
{
    let mut names = Names {
        list: Vec::new(alloc),
        places: BTreeMap::new(alloc),
    };
    for piece in written {
        add_name(&mut names, piece)?;
    }
    Ok(names)
}

/// How many names stand before this one.
pub(crate) fn place_of(name: &str, names: &Names<'_>) -> usize
    ensures { (known : List (List ℕ)) → AreNames names.now known → result ≡ place_of name.now known }
{
    match place_at(&names.places, name) {
        Some(place) => place,
        None => names.list.len(),
    }
}

/// The text that is kept under the name.
pub(crate) fn text_at<'t>(texts: &BTreeMap<&'t str, &'t str>, name: &str) -> Option<&'t str>
    ensures { option_map (λ t. t.now) result ≡ text_at texts.now name.now }
{
    match texts.get(name) {
        Some(text) => Some(*text),
        None => None,
    }
}

fn has_text<'t>(texts: &BTreeMap<&'t str, &'t str>, name: &str) -> bool
    ensures { result ≡ is_some (text_at texts.now name.now) }
{
    text_at(texts, name).is_some()
}

// Keeps the text under the name.
fn keep_text<'t>(
    texts: &mut BTreeMap<&'t str, &'t str>,
    name: &'t str,
    text: &'t str,
) -> Result<(), OutOfMemory>
    ensures { OnOk result ((q : List ℕ) → text_at texts.new q ≡ (if bytes_eq name.now q then Some text.now else text_at texts.old q)) }
{
    texts.insert(name, text)?;
    Ok(())
}

// The constraint that stands in the piece, with its name.
fn inline_limit<'t>(piece: &Written<'t>) -> Option<(&'t str, &'t str)>
    ensures { MatchOption result ((q : List ℕ) → inline_limits q (written_of piece.now ∷ []) ≡ [])
        (λ p. written_of piece.now ≡ Piece.hole p.0.now (Some p.1.now)) }
{
    match piece {
        Written::Hole(name, Some(limit)) => Some((*name, *limit)),
        _ => None,
    }
}

// Keeps the constraint that stands in the piece under its name. Answers whether the name had none.
fn add_inline<'t>(
    texts: &mut BTreeMap<&'t str, &'t str>,
    piece: &Written<'t>,
) -> Result<bool, OutOfMemory>
    ensures { IfOk result (λ single. (ps : List Piece) → AreInline texts.old ps → AddsInline single texts.new ps (written_of piece.now)) }
{
    let Some((name, limit)) = inline_limit(piece) else {
        return Ok(true);
    };
    if has_text(texts, name) {
        return Ok(false);
    }
    keep_text(texts, name, limit)?;
    Ok(true)
}

/// The constraint that stands at each name, or `None` where a name has two.
pub(crate) fn inline_limits<'t>(
    alloc: Global,
    written: &[Written<'t>],
) -> Result<Option<BTreeMap<&'t str, &'t str>>, OutOfMemory>
    ensures { IfOk result (λ found. MatchOption found
        (list_all (is_single (all_written written.now)) (names_in (all_written written.now)) ≡ false)
        (λ texts. AreInline texts (all_written written.now))) }
{
    let mut texts = BTreeMap::new(alloc);
    for piece in written {
        if !add_inline(&mut texts, piece)? {
            return Ok(None);
        }
    }
    Ok(Some(texts))
}

// Keeps the value of the pair under its name, where the name is one of these and nothing is kept under it.
fn add_given<'t>(
    texts: &mut BTreeMap<&'t str, &'t str>,
    names: &Names<'_>,
    pair: &'t Pair,
) -> Result<(), OutOfMemory>
    ensures { OnOk result ((q : List ℕ) → is_some (place_at names.now.places q) ≡ true
        → text_at texts.new q ≡ or_text (text_at texts.old q) (given_limit q (pair.now ∷ []))) }
{
    let name = pair.name.as_str();
    if !has_place(&names.places, name) {
        return Ok(());
    }
    if has_text(texts, name) {
        return Ok(());
    }
    keep_text(texts, name, pair.value.as_str())?;
    Ok(())
}

/// The constraints of these names: those that stand in the pieces, and for the other names those that are given.
pub(crate) fn all_limits<'t>(
    inline: BTreeMap<&'t str, &'t str>,
    names: &Names<'_>,
    given: &'t [Pair],
) -> Result<BTreeMap<&'t str, &'t str>, OutOfMemory>
    ensures { IfOk result (λ texts. (q : List ℕ) → is_some (place_at names.now.places q) ≡ true
        → text_at texts q ≡ or_text (text_at inline.entry q) (given_limit q given.now)) }
{
    let mut texts = inline;
    for pair in given {
        add_given(&mut texts, names, pair)?;
    }
    Ok(texts)
}

// Keeps the value of the pair under its name, where nothing is kept under it.
fn add_value<'t>(texts: &mut BTreeMap<&'t str, &'t str>, pair: &'t Pair) -> Result<(), OutOfMemory>
    ensures { OnOk result ((q : List ℕ) → text_at texts.new q ≡ or_text (text_at texts.old q) (given_limit q (pair.now ∷ []))) }
{
    let name = pair.name.as_str();
    if has_text(texts, name) {
        return Ok(());
    }
    keep_text(texts, name, pair.value.as_str())?;
    Ok(())
}

/// The value of each name.
pub(crate) fn values_by_name(
    alloc: Global,
    binding: &[Pair],
) -> Result<BTreeMap<&str, &str>, OutOfMemory>
    ensures { IfOk result (λ texts. (q : List ℕ) → text_at texts q ≡ value binding.now q) }
{
    let mut texts = BTreeMap::new(alloc);
    for pair in binding {
        add_value(&mut texts, pair)?;
    }
    Ok(texts)
}
