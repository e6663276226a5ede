//! The values with which a pattern gives a path.

ghost use Rattle.std.specs.Prelude.{◌≡◌, ◌≤◌, ◌↔◌, ◌++◌, [], false, IfOk, IfSome, IsTrue, IsUtf8, MatchOption, List, ℕ, length, map, option_map};
ghost use Rattle.smk_pattern.specs.Shapes.{IsNumbered};
ghost use Rattle.smk_pattern.specs.Fitting.{Fits, Suits, AllSuit, bound_pairs, filled, part_text};
ghost use Rattle.smk_pattern.specs.Binding.{IsBindingOf};
ghost use Rattle.smk_pattern.specs.Bound.{bound};
ghost use Rattle.smk_pattern.specs.Searching.{now_of};
ghost use Rattle.smk_pattern.specs.Pieces.{part_of, parts_of, wildcard_of, wildcards_of, limits_of, pattern_of};

use crate::pattern::{Binding, Pattern, Piece, Wildcard};
use crate::search::{after_prefix, pieces_behind, search};
use crate::table::Vain;
use crate::tester::Tester;
use smk_base::{List, OutOfMemory, Pair, PathText, Text};
use std::alloc::Global;

// What tests the values of each wildcard.
fn testers<'r>(
    alloc: Global,
    wildcards: &'r [Wildcard],
) -> Result<Vec<Option<Tester<'r>>>, OutOfMemory>
    ensures { IfOk result (λ ts. ts.items ≡ map (λ w. w.limit) (wildcards_of wildcards.now)) }
{
    let mut made = Vec::new(alloc);
    for wildcard in wildcards {
        let tester = match &wildcard.limit {
            None => None,
            Some(limit) => Some(Tester::new(alloc, limit)?),
        };
        made.push(tester)?;
    }
    Ok(made)
}

// Each wildcard with its value.
fn pairs(alloc: Global, wildcards: &[Wildcard], values: &[&str]) -> Result<Binding, OutOfMemory>
    requires { length wildcards.now ≡ length values.now }
    ensures { IfOk result (λ made. made ≡ bound_pairs (wildcards_of wildcards.now) (now_of values.now)) }
{
    let mut made = List::new(alloc);
    for index in 0..wildcards.len() {
        made.push(Pair {
            name: wildcards[index].name.copy(alloc)?,
            value: Text::of(alloc, values[index])?,
        })?;
    }
    Ok(made)
}

// What comes before the suffix.
fn before_suffix<'p>(text: &'p str, suffix: &str) -> Option<&'p str>
    ensures { MatchOption result ((before : List ℕ) → text.now ≡ before ++ suffix.now → ⊥)
        (λ before. text.now ≡ before.now ++ suffix.now) }
{
    text.strip_suffix(suffix)
}

// Whether the path starts as the pieces do, where they start with a text.
fn may_start(pieces: &[Piece], path: &str) -> bool
    ensures { result ≡ false → (values : List (List ℕ)) → filled (parts_of pieces.now) values ≡ path.now → ⊥ }
{
    match pieces.split_first() {
        Some((Piece::Literal(front), _)) => after_prefix(path, front.as_str()).is_some(),
        _ => true,
    }
}

// Whether the path ends as the pieces do, where they end with a text.
fn may_end(pieces: &[Piece], path: &str) -> bool
    ensures { result ≡ false → (values : List (List ℕ)) → filled (parts_of pieces.now) values ≡ path.now → ⊥ }
{
    match pieces.split_last() {
        Some((Piece::Literal(end), _)) => before_suffix(path, end.as_str()).is_some(),
        _ => true,
    }
}

// The least length of a value for the wildcard.
fn least_value(wildcard: &Wildcard) -> usize
    ensures { (value : List ℕ) → Suits (wildcard_of wildcard.now).limit value → result ≤ length value }
{
    match wildcard.limit {
        None => 1,
        Some(_) => 0,
    }
}

// The least length of what the piece stands for.
fn least_part(piece: &Piece, wildcards: &[Wildcard]) -> usize
    ensures { (values : List (List ℕ)) → AllSuit (limits_of wildcards.now) values → result ≤ length (part_text values (part_of piece.now)) }
{
    match piece {
        Piece::Literal(text) => text.as_str().len(),
        Piece::Wild(number) => match wildcards.get(*number) {
            Some(wildcard) => least_value(wildcard),
            None => 0,
        },
    }
}

// The least length of a path that the pieces give.
fn least_length(pieces: &[Piece], wildcards: &[Wildcard]) -> usize
    ensures { (values : List (List ℕ)) → AllSuit (limits_of wildcards.now) values → result ≤ length (filled (parts_of pieces.now) values) }
{
    let mut least: usize = 0;
    for piece in pieces {
        least = least.saturating_add(least_part(piece, wildcards));
    }
    least
}

// Whether the path can fit by its front, its end and its length.
fn may_fit(pieces: &[Piece], wildcards: &[Wildcard], path: &str) -> bool
    ensures { result ≡ false → (values : List (List ℕ)) → Fits (pattern_of pieces.now wildcards.now) path.now values → ⊥ }
{
    may_start(pieces, path)
        && may_end(pieces, path)
        && least_length(pieces, wildcards) <= path.len()
}

// What follows the piece, without what stands for a wildcard.
fn after_piece<'p>(piece: &Piece, path: &'p str) -> Option<&'p str>
    ensures cases { MatchOption result ((after : List ℕ) → path.now ≡ part_text [] (part_of piece.now) ++ after → ⊥)
        (λ after. path.now ≡ part_text [] (part_of piece.now) ++ after.now) }
    ensures utf8 { IfSome result (λ after. IsUtf8 after.now) }
{
    match piece {
        Piece::Literal(text) => after_prefix(path, text.as_str()),
        Piece::Wild(_) => Some(path),
    }
}

// Whether the pieces are the path, without what stands for wildcards.
fn are_text(pieces: &[Piece], path: &str) -> bool
    ensures { IsTrue result ↔ (filled (parts_of pieces.now) [] ≡ path.now) }
{
    let mut rest = path;
    for piece in pieces {
        match after_piece(piece, rest) {
            Some(after) => rest = after,
            None => return false,
        }
    }
    rest.is_empty()
}

// The binding of the path by a pattern without wildcards, which compares texts alone.
fn fits_text(alloc: Global, pieces: &[Piece], path: &str) -> Option<Binding>
    ensures { MatchOption result ((values : List (List ℕ)) → Fits (pattern_of pieces.now []) path.now values → ⊥)
        (λ b. IsBindingOf (pattern_of pieces.now []) path.now b) }
{
    if are_text(pieces, path) {
        Some(List::new(alloc))
    } else {
        None
    }
}

// The binding of the path, searched for.
fn fits_search(
    alloc: Global,
    pieces: &[Piece],
    wildcards: &[Wildcard],
    path: &str,
) -> Result<Option<Binding>, OutOfMemory>
    requires { IsNumbered (parts_of pieces.now) 0 (length wildcards.now) }
    ensures { IfOk result (λ found. MatchOption found
        ((values : List (List ℕ)) → Fits (pattern_of pieces.now wildcards.now) path.now values → ⊥)
        (λ b. IsBindingOf (pattern_of pieces.now wildcards.now) path.now b)) }
{
    let behind = pieces_behind(alloc, pieces, wildcards.len())?;
    let mut testers = testers(alloc, wildcards)?;
    let mut values = Vec::new(alloc);
    let mut vain = Vain::new(alloc, pieces.len());
    if !search(
        alloc,
        &mut vain,
        pieces,
        &behind,
        &mut testers,
        path,
        &mut values,
    )? {
        return Ok(None);
    }
    Ok(Some(pairs(alloc, wildcards, &values)?))
}

/// The values with which the pattern gives the path, the first of them as long as can be, then the second, and so on. `None` exactly
/// where no values do. `OutOfMemory` where there is no memory for the search.
///
/// A pattern without wildcards is compared with the path; otherwise the path's front, end and length are tried before constraints are.
pub fn fits(
    alloc: Global,
    pattern: &Pattern,
    path: &PathText,
) -> Result<Option<Binding>, OutOfMemory>
    ensures fits { IfOk result (λ found. MatchOption found
        ((values : List (List ℕ)) → Fits pattern.now path.now values → ⊥)
        (λ b. IsBindingOf pattern.now path.now b)) }
    ensures bound { IfOk result (λ found. found ≡ option_map (bound_pairs pattern.now.wildcards) (bound pattern.now path.now)) }
{
    let pieces = pattern.pieces.as_slice();
    let wildcards = pattern.wildcards.as_slice();
    let path = path.as_str();
    if wildcards.is_empty() {
        return Ok(fits_text(alloc, pieces, path));
    }
    if !may_fit(pieces, wildcards, path) {
        return Ok(None);
    }
    fits_search(alloc, pieces, wildcards, path)
}
