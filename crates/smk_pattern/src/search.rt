//! The search for the values of the wildcards.

ghost use Rattle.std.specs.Prelude.{◌≡◌, ◌<◌, ◌≤◌, ◌∷◌, ◌++◌, true, false, IfOk, IfSome, IsUtf8, length, MatchOption, List, ℕ, vec_len};
ghost use Rattle.smk_pattern.specs.Shapes.Part.{wild};
ghost use Rattle.smk_pattern.specs.Pieces.{part_of, parts_of};
ghost use Rattle.smk_pattern.specs.Searching.{Searched, Ends, Longest, IsKnown, AreBehind, IsPlace, with_place, now_of, stands_in};
ghost use Rattle.smk_pattern.specs.Outcomes.{Stepped, Carries, IsStopped, Walked, IsBlocked};
ghost use Rattle.smk_pattern.specs.Tables.{is_vain, Serves, ServesBehind, KeepsAll, Stands, Keeps};

use crate::pattern::Piece;
use crate::table::Vain;
use crate::tester::{Tester, suits};
use smk_base::OutOfMemory;
use std::alloc::Global;

/// What follows the prefix.
pub(crate) fn after_prefix<'p>(text: &'p str, prefix: &str) -> Option<&'p str>
    ensures cases { MatchOption result ((after : List ℕ) → text.now ≡ prefix.now ++ after → ⊥)
        (λ after. text.now ≡ prefix.now ++ after.now) }
    ensures utf8 { IfSome result (λ after. IsUtf8 after.now) }
{
    text.strip_prefix(prefix)
}

// Notes that so many pieces stand behind a place of the piece.
fn note_place(behind: &mut Vec<usize>, piece: &Piece, count: usize)
    ensures { behind.new.items ≡ with_place (part_of piece.now) count behind.old.items }
{
    if let Piece::Wild(number) = piece {
        if *number < behind.len() {
            behind[*number] = count;
        }
    }
}

// How many pieces stand behind the last place of each wildcard.
pub(crate) fn pieces_behind(
    alloc: Global,
    pieces: &[Piece],
    count: usize,
) -> Result<Vec<usize>, OutOfMemory>
    ensures { IfOk result (λ behind. AreBehind behind.items (parts_of pieces.now)) }
{
    let mut behind = Vec::new(alloc);
    for _ in 0..count {
        behind.push(0)?;
    }
    let mut ahead = pieces;
    'places: while let Some((piece, later)) = ahead.split_first() {
        note_place(&mut behind, piece, later.len());
        ahead = later;
    }
    Ok(behind)
}

// Whether the wildcard may stand in the pieces that follow one of its places.
fn may_stand(number: usize, later: &[Piece], behind: &[usize]) -> bool
    requires { AreBehind behind.now (parts_of later.now) }
    ensures { result ≡ false → stands_in number (parts_of later.now) ≡ false }
{
    match behind.get(number) {
        Some(count) => *count < later.len(),
        None => true,
    }
}

// The text of the piece, where it is known.
fn known_text<'p>(piece: &'p Piece, values: &[&'p str]) -> Option<&'p str>
    ensures { MatchOption result ((n : ℕ) × (part_of piece.now ≡ wild n) × (length values.now ≤ n))
        (λ known. IsKnown (part_of piece.now) (now_of values.now) known.now) }
{
    match piece {
        Piece::Literal(known) => Some(known.as_str()),
        Piece::Wild(number) => match values.get(*number) {
            Some(known) => Some(known),
            None => None,
        },
    }
}

/// What a step over a piece has come to.
#[derive(Drop)]
pub(crate) enum Outcome<'p> {
    /// Values are found, or there are none.
    Ended(bool),
    /// This text is left for the pieces that follow.
    On(&'p str),
    /// The same, with a value of a wildcard that may stand again.
    Again(&'p str),
}

/// What steps over several pieces have come to.
#[derive(Drop)]
pub(crate) enum Stop<'w, 'p> {
    /// Values are found, or there are none.
    Ended(bool),
    /// This text is left for these pieces, in which the last wildcard that got a value may stand again.
    Again(&'w [Piece], &'p str),
}

/// Finds values for the wildcards that have none, with which the pieces give the text, the first of them longest. The values are
/// pushed, if there are any. What was tried in vain isn't tried again.
///
/// It calls itself only behind a value of at least one byte, so as many times as the text has bytes at most.
#[cycle(search)]
pub(crate) fn search<'p>(
    alloc: Global,
    vain: &mut Vain,
    pieces: &[Piece],
    behind: &[usize],
    testers: &mut [Option<Tester<'_>>],
    text: &'p str,
    values: &mut Vec<&'p str>,
) -> Result<bool, OutOfMemory>
    requires place { IsPlace (parts_of pieces.now) testers.old behind.now (now_of values.old.items) text.now }
    requires serves { Serves (now_of values.old.items) (parts_of pieces.now) testers.old text.now vain.old }
    ensures found { IfOk result (λ found. Searched found (parts_of pieces.now) testers.old
        (now_of values.old.items) text.now (now_of values.new.items)) }
    ensures same { testers.new ≡ testers.old }
    ensures keeps { IfOk result (λ found. found ≡ false
        → KeepsAll (now_of values.old.items) (parts_of pieces.now) testers.old text.now vain.old vain.new) }
{
    let known = values.len();
    let found = find(alloc, vain, pieces, behind, testers, text, values)?;
    if !found {
        values.truncate(known);
    }
    Ok(found)
}

// The same, but that values may be left where none are found.
#[cycle(search)]
fn find<'p>(
    alloc: Global,
    vain: &mut Vain,
    pieces: &[Piece],
    behind: &[usize],
    testers: &mut [Option<Tester<'_>>],
    text: &'p str,
    values: &mut Vec<&'p str>,
) -> Result<bool, OutOfMemory>
    requires place { IsPlace (parts_of pieces.now) testers.old behind.now (now_of values.old.items) text.now }
    requires serves { Serves (now_of values.old.items) (parts_of pieces.now) testers.old text.now vain.old }
    ensures found { IfOk result (λ found. Ends found (parts_of pieces.now) testers.old
        (now_of values.old.items) text.now (now_of values.new.items)) }
    ensures same { testers.new ≡ testers.old }
    ensures keeps { IfOk result (λ found. found ≡ false
        → KeepsAll (now_of values.old.items) (parts_of pieces.now) testers.old text.now vain.old vain.new) }
{
    match walk(alloc, vain, pieces, behind, testers, text, values)? {
        Stop::Ended(found) => Ok(found),
        Stop::Again(later, after) => anew(alloc, later, behind, testers, after, values),
    }
}

// The same with tables of its own. Where a wildcard that has got its value stands again, what is vain with this value needn't be
// with another, so there is a new table behind its first place.
#[cycle(search)]
fn anew<'p>(
    alloc: Global,
    pieces: &[Piece],
    behind: &[usize],
    testers: &mut [Option<Tester<'_>>],
    text: &'p str,
    values: &mut Vec<&'p str>,
) -> Result<bool, OutOfMemory>
    requires place { IsPlace (parts_of pieces.now) testers.old behind.now (now_of values.old.items) text.now }
    ensures found { IfOk result (λ found. Ends found (parts_of pieces.now) testers.old
        (now_of values.old.items) text.now (now_of values.new.items)) }
    ensures same { testers.new ≡ testers.old }
{
    let mut ahead = pieces;
    let mut rest = text;
    'tables: loop {
        let mut fresh = Vain::new(alloc, ahead.len());
        match walk(alloc, &mut fresh, ahead, behind, testers, rest, values)? {
            Stop::Ended(found) => return Ok(found),
            Stop::Again(later, after) => {
                ahead = later;
                rest = after;
            }
        }
    }
}

// Goes over the pieces as long as the table serves. A place is noted as vain when it is come to: where values are found from it,
// the table isn't used again.
#[cycle(search)]
fn walk<'w, 'p>(
    alloc: Global,
    vain: &mut Vain,
    pieces: &'w [Piece],
    behind: &[usize],
    testers: &mut [Option<Tester<'_>>],
    text: &'p str,
    values: &mut Vec<&'p str>,
) -> Result<Stop<'w, 'p>, OutOfMemory>
    requires place { IsPlace (parts_of pieces.now) testers.old behind.now (now_of values.old.items) text.now }
    requires serves { Serves (now_of values.old.items) (parts_of pieces.now) testers.old text.now vain.old }
    ensures walked { IfOk result (λ w. Walked w (parts_of pieces.now) testers.old behind.now
        (now_of values.old.items) text.now (now_of values.new.items)) }
    ensures same { testers.new ≡ testers.old }
    ensures keeps { IfOk result (λ w. IsBlocked w testers.old (now_of values.new.items)
        → KeepsAll (now_of values.old.items) (parts_of pieces.now) testers.old text.now vain.old vain.new) }
{
    let mut ahead = pieces;
    let mut rest = text;
    'pieces: while let Some((piece, later)) = ahead.split_first() {
        if vain.has(ahead.len(), rest.len()) {
            return Ok(Stop::Ended(false));
        }
        vain.note(alloc, ahead.len(), rest.len())?;
        match step(alloc, vain, piece, later, behind, testers, rest, values)? {
            Outcome::Ended(found) => return Ok(Stop::Ended(found)),
            Outcome::Again(after) => return Ok(Stop::Again(later, after)),
            Outcome::On(after) => {
                rest = after;
                ahead = later;
            }
        }
    }
    Ok(Stop::Ended(rest.is_empty()))
}

// Goes over the first piece.
#[cycle(search)]
fn step<'p>(
    alloc: Global,
    vain: &mut Vain,
    piece: &Piece,
    later: &[Piece],
    behind: &[usize],
    testers: &mut [Option<Tester<'_>>],
    text: &'p str,
    values: &mut Vec<&'p str>,
) -> Result<Outcome<'p>, OutOfMemory>
    requires place { IsPlace (part_of piece.now ∷ parts_of later.now) testers.old behind.now (now_of values.old.items) text.now }
    requires serves { ServesBehind (now_of values.old.items) (part_of piece.now) (parts_of later.now) testers.old text.now vain.old }
    ensures stepped { IfOk result (λ s. Stepped s (part_of piece.now) (parts_of later.now) testers.old behind.now
        (now_of values.old.items) text.now (now_of values.new.items)) }
    ensures same { testers.new ≡ testers.old }
    ensures keeps { IfOk result (λ s. IsStopped s (parts_of later.now) testers.old (now_of values.new.items)
        → KeepsAll (now_of values.old.items) (part_of piece.now ∷ parts_of later.now) testers.old text.now vain.old vain.new) }
    ensures carries { IfOk result (λ s. Carries s (part_of piece.now) (parts_of later.now) testers.old
        (now_of values.old.items) text.now (now_of values.new.items) vain.new) }
{
    let Some(known) = known_text(piece, values) else {
        return open(alloc, vain, later, behind, testers, text, values);
    };
    match after_prefix(text, known) {
        Some(after) => Ok(Outcome::On(after)),
        None => Ok(Outcome::Ended(false)),
    }
}

// Goes over a wildcard without a value. Its longest values are tried; the empty one is the last of all, so it is kept where it may
// be one.
#[cycle(search)]
fn open<'p>(
    alloc: Global,
    vain: &mut Vain,
    later: &[Piece],
    behind: &[usize],
    testers: &mut [Option<Tester<'_>>],
    text: &'p str,
    values: &mut Vec<&'p str>,
) -> Result<Outcome<'p>, OutOfMemory>
    requires room { vec_len values.old < length testers.old }
    requires place { IsPlace (wild (vec_len values.old) ∷ parts_of later.now) testers.old behind.now (now_of values.old.items) text.now }
    requires serves { ServesBehind (now_of values.old.items) (wild (vec_len values.old)) (parts_of later.now) testers.old text.now vain.old }
    ensures stepped { IfOk result (λ s. Stepped s (wild (vec_len values.old)) (parts_of later.now) testers.old behind.now
        (now_of values.old.items) text.now (now_of values.new.items)) }
    ensures same { testers.new ≡ testers.old }
    ensures keeps { IfOk result (λ s. IsStopped s (parts_of later.now) testers.old (now_of values.new.items)
        → KeepsAll (now_of values.old.items) (wild (vec_len values.old) ∷ parts_of later.now) testers.old text.now vain.old vain.new) }
    ensures carries { IfOk result (λ s. Carries s (wild (vec_len values.old)) (parts_of later.now) testers.old
        (now_of values.old.items) text.now (now_of values.new.items) vain.new) }
{
    let number = values.len();
    let again = may_stand(number, later, behind);
    if longest(alloc, again, vain, later, behind, testers, text, values)? {
        return Ok(Outcome::Ended(true));
    }
    if !suits(&mut testers[number], "") {
        return Ok(Outcome::Ended(false));
    }
    values.push("")?;
    if again {
        Ok(Outcome::Again(text))
    } else {
        Ok(Outcome::On(text))
    }
}

// Whether so many pieces were tried in vain on the last so many bytes, by the table that is used behind the wildcard.
fn was_tried(again: bool, vain: &Vain, pieces: usize, bytes: usize) -> bool
    ensures { result ≡ true → (again ≡ false) × (is_vain vain.now pieces bytes ≡ true) }
{
    !again && vain.has(pieces, bytes)
}

// Finds the longest value of a wildcard that isn't empty, with values for what follows.
#[cycle(search)]
fn longest<'p>(
    alloc: Global,
    again: bool,
    vain: &mut Vain,
    later: &[Piece],
    behind: &[usize],
    testers: &mut [Option<Tester<'_>>],
    text: &'p str,
    values: &mut Vec<&'p str>,
) -> Result<bool, OutOfMemory>
    requires room { vec_len values.old < length testers.old }
    requires again { again ≡ false → stands_in (vec_len values.old) (parts_of later.now) ≡ false }
    requires place { IsPlace (wild (vec_len values.old) ∷ parts_of later.now) testers.old behind.now (now_of values.old.items) text.now }
    requires serves { ServesBehind (now_of values.old.items) (wild (vec_len values.old)) (parts_of later.now) testers.old text.now vain.old }
    ensures found { IfOk result (λ found. Longest found (wild (vec_len values.old) ∷ parts_of later.now)
        testers.old (now_of values.old.items) text.now (now_of values.new.items)) }
    ensures same { testers.new ≡ testers.old }
    ensures keeps { IfOk result (λ found. found ≡ false
        → KeepsAll (now_of values.old.items) (wild (vec_len values.old) ∷ parts_of later.now) testers.old text.now vain.old vain.new) }
{
    let number = values.len();
    for dropped in 0..text.len() {
        if was_tried(again, vain, later.len(), dropped) {
            continue;
        }
        let cut = text.len() - dropped;
        if text.is_char_boundary(cut) {
            let (value, after) = text.split_at(cut);
            if suits(&mut testers[number], value) {
                values.push(value)?;
                if with_value(alloc, again, vain, later, behind, testers, after, values)? {
                    return Ok(true);
                }
                values.pop();
            }
        }
    }
    Ok(false)
}

// The search behind the first place of a wildcard.
#[cycle(search)]
fn with_value<'p>(
    alloc: Global,
    again: bool,
    vain: &mut Vain,
    later: &[Piece],
    behind: &[usize],
    testers: &mut [Option<Tester<'_>>],
    text: &'p str,
    values: &mut Vec<&'p str>,
) -> Result<bool, OutOfMemory>
    requires place { IsPlace (parts_of later.now) testers.old behind.now (now_of values.old.items) text.now }
    requires serves { again ≡ false → Serves (now_of values.old.items) (parts_of later.now) testers.old text.now vain.old }
    ensures found { IfOk result (λ found. Searched found (parts_of later.now) testers.old
        (now_of values.old.items) text.now (now_of values.new.items)) }
    ensures same { testers.new ≡ testers.old }
    ensures keeps { IfOk result (λ found. found ≡ false
        → (given : List (List ℕ)) → (again ≡ false → Stands given (now_of values.old.items) (parts_of later.now))
        → Keeps given (parts_of later.now) testers.old text.now vain.old vain.new) }
{
    if again {
        let mut fresh = Vain::new(alloc, later.len());
        search(alloc, &mut fresh, later, behind, testers, text, values)
    } else {
        search(alloc, vain, later, behind, testers, text, values)
    }
}
