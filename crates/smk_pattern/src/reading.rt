//! Texts read as patterns.

ghost use Rattle.std.specs.Prelude.{◌≡◌, ◌<◌, ◌≤◌, ◌==◌, ◌&&◌, ◌||◌, [], ◌∷◌, IfOk, OnOk, IsUtf8, List, ℕ, Some, None, true, false, map, option_map, length, nat_le};
ghost use Rattle.std.specs.List.{list_all, list_any};
ghost use Rattle.std.specs.Int.{is_in_range};
ghost use Rattle.smk_base.specs.Path.{is_path};
ghost use Rattle.smk_pattern.specs.Shapes.{Shape, AreTexts};
ghost use Rattle.smk_pattern.specs.Shapes.Part.{text};
ghost use Rattle.smk_pattern.specs.Grammar.{is_letter, is_name, is_balanced, inline_limits, given_limit, limit_for, IsPattern};
ghost use Rattle.smk_pattern.specs.Reading.{place_of, part_in, names_in, is_hole, has_wildcards, pieces, shape_of};
ghost use Rattle.smk_pattern.specs.Written.{is_named, is_single, is_written, wildcard_by, AreAllLimits, IsFirstBad, AreLimits, IsBadLimit};
ghost use Rattle.smk_pattern.specs.ByName.{text_at, AreNames};
ghost use Rattle.smk_pattern.specs.Splitting.{written_of, all_written};
ghost use Rattle.smk_pattern.specs.Pieces.{part_of, parts_of, wildcard_of, wildcards_of};
ghost use Rattle.smk_pattern.specs.Searching.{now_of};
ghost use Rattle.smk_pattern.specs.Limits.{IsLimit};

use crate::by_name::{Names, all_limits, inline_limits, names_in, place_of, text_at};
use crate::limit::{Limit, LimitFault};
use crate::limits::Limits;
use crate::pattern::{Pattern, PatternFault, Piece, Wildcard};
use crate::splitting::{Written, split};
use smk_base::{List, OutOfMemory, Pair, PathFault, PathText, Text};
use std::alloc::{AllocFailed, Global};
use std::collections::BTreeMap;
use std::rc::Rc;

impl From<OutOfMemory> for PatternFault {
    ghost use Rattle.std.specs.Prelude.{◌≡◌};
    ghost use Rattle.smk_pattern.specs.declared.pattern.PatternFault.{PatternFault};

    ghost from_gives = { λ _ fault. fault ≡ PatternFault.OutOfMemory };

    fn from(_: OutOfMemory) -> PatternFault {
        PatternFault::OutOfMemory
    }
}

impl<T: Drop> From<AllocFailed<T>> for PatternFault {
    ghost use Rattle.std.specs.Prelude.{◌≡◌};
    ghost use Rattle.smk_pattern.specs.declared.pattern.PatternFault.{PatternFault};

    ghost from_gives = { λ _ fault. fault ≡ PatternFault.OutOfMemory };

    fn from(_: AllocFailed<T>) -> PatternFault {
        PatternFault::OutOfMemory
    }
}

// Whether the byte may begin a name.
fn is_letter(byte: u8) -> bool
    ensures { result ≡ is_letter byte }
{
    (b'A'..=b'Z').contains(&byte) || (b'a'..=b'z').contains(&byte) || byte == b'_'
}

// Whether the byte may stand in a name.
fn is_name_byte(byte: u8) -> bool
    ensures { result ≡ (is_letter byte || is_in_range 0x30 0x39 byte) }
{
    is_letter(byte) || (b'0'..=b'9').contains(&byte)
}

// Whether each byte may stand in a name.
fn are_name_bytes(bytes: &[u8]) -> bool
    ensures { result ≡ list_all (λ c. is_letter c || is_in_range 0x30 0x39 c) bytes.now }
{
    for byte in bytes {
        if !is_name_byte(*byte) {
            return false;
        }
    }
    true
}

// Whether the text can be a name.
fn is_name(text: &str) -> bool
    ensures { result ≡ is_name text.now }
{
    match text.as_bytes() {
        [] => false,
        [first, later @ ..] => is_letter(*first) && are_name_bytes(later),
    }
}

// Whether each wildcard has a name.
fn are_named(written: &[Written<'_>]) -> bool
    ensures { result ≡ list_all is_named (all_written written.now) }
{
    for piece in written {
        if let Written::Hole(name, _) = piece {
            if !is_name(name) {
                return false;
            }
        }
    }
    true
}

// Whether there is a wildcard.
fn has_hole(written: &[Written<'_>]) -> bool
    ensures { result ≡ list_any is_hole (all_written written.now) }
{
    for piece in written {
        if let Written::Hole(_, _) = piece {
            return true;
        }
    }
    false
}

// Whether the text is a path.
fn is_path(alloc: Global, text: &str) -> Result<bool, OutOfMemory>
    ensures { IfOk result (λ path. path ≡ is_path text.now) }
{
    match PathText::read(alloc, text) {
        Ok(_) => Ok(true),
        Err(PathFault::BadPath) => Ok(false),
        Err(PathFault::OutOfMemory) => Err(OutOfMemory),
    }
}

// The text as a piece.
fn literal(alloc: Global, word: &str) -> Result<Piece, OutOfMemory>
    ensures piece { IfOk result (λ made. part_of made ≡ text word.now) }
    ensures utf8 { OnOk result (IsUtf8 word.now) }
{
    Ok(Piece::Literal(Text::of(alloc, word)?))
}

// The piece, its wildcard by number.
fn numbered(alloc: Global, piece: &Written<'_>, names: &Names<'_>) -> Result<Piece, OutOfMemory>
    ensures piece { IfOk result (λ made. (known : List (List ℕ)) → AreNames names.now known → part_of made ≡ part_in known (written_of piece.now)) }
    ensures texts { IfOk result (λ made. AreTexts (part_of made ∷ [])) }
{
    match piece {
        Written::Plain(text) => literal(alloc, text),
        Written::Hole(name, _) => Ok(Piece::Wild(place_of(name, names))),
    }
}

// The pieces, their wildcards by number.
fn all_numbered(
    alloc: Global,
    written: &[Written<'_>],
    names: &Names<'_>,
) -> Result<List<Piece>, OutOfMemory>
    ensures pieces { IfOk result (λ made. (known : List (List ℕ)) → AreNames names.now known → parts_of made ≡ map (part_in known) (all_written written.now)) }
    ensures texts { IfOk result (λ made. AreTexts (parts_of made)) }
{
    let mut made = List::new(alloc);
    for piece in written {
        made.push(numbered(alloc, piece, names)?)?;
    }
    Ok(made)
}

// What is made of the constraint of the name.
fn compiled(
    alloc: Global,
    name: &str,
    limit: Option<&str>,
    shared: &mut Limits,
) -> Result<Option<Rc<Limit>>, PatternFault>
    ensures text { IfOk result (λ made. option_map (λ l. l.value) made ≡ option_map (λ l. l.now) limit.entry) }
    ensures read { OnOk result ((text : List ℕ) → option_map (λ l. l.now) limit.entry ≡ Some text → IsLimit text) }
    ensures bad_pattern { result ≡ Err PatternFault.BadPattern → ⊥ }
    ensures bad { (bad : List ℕ) → result ≡ Err (PatternFault.BadConstraint bad)
        → (bad ≡ name.now) × ((text : List ℕ) × (option_map (λ l. l.now) limit.entry ≡ Some text) × ¬ IsLimit text) }
{
    let Some(text) = limit else {
        return Ok(None);
    };
    match shared.get(alloc, text) {
        Ok(limit) => Ok(Some(limit)),
        Err(LimitFault::NoRegex) => Err(PatternFault::BadConstraint(Text::of(alloc, name)?)),
        Err(LimitFault::OutOfMemory) => Err(PatternFault::OutOfMemory),
    }
}

// The wildcards with their constraints.
fn wildcards_in<'t>(
    alloc: Global,
    names: &[&str],
    limits: &BTreeMap<&'t str, &'t str>,
    shared: &mut Limits,
) -> Result<List<Wildcard>, PatternFault>
    ensures made { IfOk result (λ made. wildcards_of made ≡ map (wildcard_by (text_at limits.now)) (now_of names.now)) }
    ensures read { OnOk result (AreAllLimits (text_at limits.now) (now_of names.now)) }
    ensures bad_pattern { result ≡ Err PatternFault.BadPattern → ⊥ }
    ensures bad { (bad : List ℕ) → result ≡ Err (PatternFault.BadConstraint bad)
        → IsFirstBad (text_at limits.now) (now_of names.now) bad }
{
    let mut made = List::new(alloc);
    for name in names {
        let limit = compiled(alloc, name, text_at(limits, name), shared)?;
        made.push(Wildcard {
            name: Text::of(alloc, name)?,
            limit,
        })?;
    }
    Ok(made)
}

// Whether the text that is split so is written as a pattern.
fn is_good(alloc: Global, text: &str, written: &[Written<'_>]) -> Result<bool, OutOfMemory>
    requires balanced { is_balanced 0 text.now ≡ true }
    requires pieces { all_written written.now ≡ pieces text.now }
    requires single { list_all (is_single (all_written written.now)) (names_in (all_written written.now)) ≡ true }
    requires some { 1 ≤ length written.now }
    ensures { IfOk result (λ good. good ≡ is_written text.now) }
{
    if !are_named(written) {
        return Ok(false);
    }
    if has_hole(written) {
        return Ok(true);
    }
    is_path(alloc, text)
}

// The pattern that the text is written as.
fn read_written(
    alloc: Global,
    text: &str,
    limits: &[Pair],
    shared: &mut Limits,
) -> Result<Pattern, PatternFault>
    ensures written { OnOk result (is_written text.now ≡ true) }
    ensures shape { IfOk result (λ p. p ≡ shape_of limits.now text.now) }
    ensures read { OnOk result (AreLimits limits.now (pieces text.now) (names_in (pieces text.now))) }
    ensures bad_pattern { result ≡ Err PatternFault.BadPattern → is_written text.now ≡ false }
    ensures bad_constraint { (name : List ℕ) → result ≡ Err (PatternFault.BadConstraint name)
        → (is_written text.now ≡ true) × IsBadLimit limits.now (pieces text.now) (names_in (pieces text.now)) name }
{
    let Some(written) = split(alloc, text)? else {
        return Err(PatternFault::BadPattern);
    };
    if written.is_empty() {
        return Err(PatternFault::BadPattern);
    }
    let Some(inline) = inline_limits(alloc, &written)? else {
        return Err(PatternFault::BadPattern);
    };
    if !is_good(alloc, text, &written)? {
        return Err(PatternFault::BadPattern);
    }
    let names = names_in(alloc, &written)?;
    let constraints = all_limits(inline, &names, limits)?;
    Ok(Pattern {
        pieces: all_numbered(alloc, &written, &names)?,
        wildcards: wildcards_in(alloc, &names.list, &constraints, shared)?,
    })
}

impl Pattern {
    /// Reads the text as a pattern, with these constraints for its names: one that stands in the text wins, and one whose name doesn't
    /// stand in it isn't looked at.
    ///
    /// `BadPattern` where the text isn't written as a pattern. `BadConstraint` with the first name, in the order in which they first
    /// stand, in whose constraint `regex` reads no pattern or finds one that nests too deep. `OutOfMemory` where there is no memory,
    /// also for what `regex` makes of a constraint.
    // (Seven clauses: each answer is told both by the text's letters, which a reader can compute, and by the relation that means a pattern.)
    pub fn read(alloc: Global, text: &str, limits: &List<Pair>) -> Result<Pattern, PatternFault>
        ensures written { OnOk result (is_written text.now ≡ true) }
        ensures shape { IfOk result (λ p. p ≡ shape_of limits.now text.now) }
        ensures read { OnOk result (AreLimits limits.now (pieces text.now) (names_in (pieces text.now))) }
        ensures pattern { IfOk result (IsPattern limits.now text.now is_path) }
        ensures bad_pattern { result ≡ Err PatternFault.BadPattern → is_written text.now ≡ false }
        ensures no_pattern { result ≡ Err PatternFault.BadPattern → (p : Shape) → IsPattern limits.now text.now is_path p → ⊥ }
        ensures bad_constraint { (name : List ℕ) → result ≡ Err (PatternFault.BadConstraint name)
            → (is_written text.now ≡ true) × IsBadLimit limits.now (pieces text.now) (names_in (pieces text.now)) name }
    {
        let mut shared = Limits::new(alloc);
        Pattern::read_sharing(alloc, text, limits, &mut shared)
    }

    /// The same, with constraints that are shared by all patterns that are read with the same `shared`: each is compiled once.
    // (Seven clauses, as for `read`.)
    pub fn read_sharing(
        alloc: Global,
        text: &str,
        limits: &List<Pair>,
        shared: &mut Limits,
    ) -> Result<Pattern, PatternFault>
        ensures written { OnOk result (is_written text.now ≡ true) }
        ensures shape { IfOk result (λ p. p ≡ shape_of limits.now text.now) }
        ensures read { OnOk result (AreLimits limits.now (pieces text.now) (names_in (pieces text.now))) }
        ensures pattern { IfOk result (IsPattern limits.now text.now is_path) }
        ensures bad_pattern { result ≡ Err PatternFault.BadPattern → is_written text.now ≡ false }
        ensures no_pattern { result ≡ Err PatternFault.BadPattern → (p : Shape) → IsPattern limits.now text.now is_path p → ⊥ }
        ensures bad_constraint { (name : List ℕ) → result ≡ Err (PatternFault.BadConstraint name)
            → (is_written text.now ≡ true) × IsBadLimit limits.now (pieces text.now) (names_in (pieces text.now)) name }
    {
        read_written(alloc, text, limits.as_slice(), shared)
    }
}
