//! Expressions.

ghost use Rattle.std.specs.Prelude.{◌≡◌, ◌∷◌, [], IfOk, codes};
ghost use Rattle.smk_parse_expr.specs.Symbols.{Reads};
ghost use Rattle.smk_parse_expr.specs.Exprs as spec;

use crate::cursor::Cursor;
use crate::so_far::SoFar;
use crate::symbol::{Keyword, ParseFault, Sign, Symbol, goes_on, sees, word_of};
use smk_base::{Boxed, List, Text};
use smk_parse_tree::{ExpandForm, Expr, ItemForm, OutputPick};
use std::alloc::Global;

/// How many brackets may stand within each other.
pub const MAX_DEPTH: usize = 64;

fn texts(alloc: Global, cursor: &mut Cursor<'_>, first: &Text) -> Result<Text, ParseFault>
    ensures { Reads (spec.texts first.now cursor.old) result cursor.new }
{
    let mut found = String::from_str(alloc, first.as_str())?;
    'texts: while let [Symbol::Text(_, more), ..] = cursor.ahead() {
        found.push_str(more.as_str())?;
        cursor.take();
    }
    Ok(Text::of(alloc, found.as_str())?)
}

/// A text alone. The fault of `Cursor::refuse` where something else comes next.
#[tactic(auto, unfolding(crate::specs::Exprs::text))]
pub fn text(alloc: Global, cursor: &mut Cursor<'_>) -> Result<Text, ParseFault>
    ensures { Reads (spec.text cursor.old) result cursor.new }
{
    match cursor.ahead() {
        [Symbol::Text(_, found), ..] => {
            cursor.take();
            Ok(found.copy(alloc)?)
        }
        _ => Err(cursor.refuse()),
    }
}

fn keys(alloc: Global, cursor: &mut Cursor<'_>) -> Result<List<Text>, ParseFault>
    ensures { Reads (spec.keys cursor.old) result cursor.new }
{
    let mut found = List::new(alloc);
    for _turn in 0..cursor.left() {
        if !cursor.eat(Sign::OpenSquare) {
            return Ok(found);
        }
        let key = text(alloc, cursor)?;
        cursor.expect(Sign::CloseSquare)?;
        found.push(key)?;
    }
    Err(cursor.refuse())
}

#[tactic(auto, unfolding(crate::specs::Exprs::plain))]
fn plain(alloc: Global, cursor: &mut Cursor<'_>, at: u64, word: &Text) -> Result<Expr, ParseFault>
    ensures { Reads (spec.plain at word.now cursor.old) result cursor.new }
{
    if goes_on(cursor.ahead()) {
        return Err(ParseFault::Unsupported(at));
    }
    Ok(Expr::Name(word.copy(alloc)?))
}

/// A name. The fault of `Cursor::refuse` where something else comes next.
#[tactic(auto, unfolding(crate::specs::Exprs::name))]
pub fn name(alloc: Global, cursor: &mut Cursor<'_>) -> Result<Text, ParseFault>
    ensures { Reads (spec.name cursor.old) result cursor.new }
{
    match cursor.ahead() {
        [Symbol::Name(_, found), ..] => {
            cursor.take();
            Ok(found.copy(alloc)?)
        }
        _ => Err(cursor.refuse()),
    }
}

/// A number. The fault of `Cursor::refuse` where something else comes next.
#[tactic(auto, unfolding(crate::specs::Exprs::number))]
pub fn number(cursor: &mut Cursor<'_>) -> Result<u64, ParseFault>
    ensures { Reads (spec.number cursor.old) result cursor.new }
{
    match cursor.ahead() {
        [Symbol::Number(_, found), ..] => {
            cursor.take();
            Ok(*found)
        }
        _ => Err(cursor.refuse()),
    }
}

#[tactic(auto, unfolding(crate::specs::Exprs::spelled))]
fn spelled(cursor: &mut Cursor<'_>, word: &str) -> Result<(), ParseFault>
    ensures { Reads (spec.spelled word.now cursor.old) result cursor.new }
{
    match cursor.ahead() {
        [Symbol::Name(_, found), ..] => {
            if found.as_str() == word {
                cursor.take();
                Ok(())
            } else {
                Err(cursor.refuse())
            }
        }
        _ => Err(cursor.refuse()),
    }
}

#[tactic(auto, unfolding(crate::specs::Exprs::by_name))]
fn by_name(alloc: Global, cursor: &mut Cursor<'_>) -> Result<OutputPick, ParseFault>
    ensures { Reads (spec.by_name cursor.old) result cursor.new }
{
    Ok(OutputPick::Named(name(alloc, cursor)?))
}

#[tactic(auto, unfolding(crate::specs::Exprs::by_place))]
fn by_place(cursor: &mut Cursor<'_>) -> Result<OutputPick, ParseFault>
    ensures { Reads (spec.by_place cursor.old) result cursor.new }
{
    let place = number(cursor)?;
    cursor.expect(Sign::CloseSquare)?;
    Ok(OutputPick::At(place))
}

#[tactic(auto, unfolding(crate::specs::Exprs::picked))]
fn picked(alloc: Global, cursor: &mut Cursor<'_>) -> Result<OutputPick, ParseFault>
    ensures { Reads (spec.picked cursor.old) result cursor.new }
{
    if cursor.sees(Sign::Point) {
        cursor.take();
        by_name(alloc, cursor)
    } else if cursor.sees(Sign::OpenSquare) {
        cursor.take();
        by_place(cursor)
    } else {
        Ok(OutputPick::All)
    }
}

#[tactic(auto, unfolding(crate::specs::Exprs::outputs))]
fn outputs(alloc: Global, cursor: &mut Cursor<'_>) -> Result<Expr, ParseFault>
    ensures { Reads (spec.outputs cursor.old) result cursor.new }
{
    cursor.expect(Sign::Point)?;
    let rule = name(alloc, cursor)?;
    cursor.expect(Sign::Point)?;
    spelled(cursor, "output")?;
    let pick = picked(alloc, cursor)?;
    Ok(Expr::Outputs(rule, pick))
}

#[tactic(auto, unfolding(crate::specs::Exprs::gathered))]
fn gathered(alloc: Global, cursor: &mut Cursor<'_>) -> Result<Expr, ParseFault>
    ensures { Reads (spec.gathered cursor.old) result cursor.new }
{
    cursor.expect(Sign::Open)?;
    let checkpoint = name(alloc, cursor)?;
    cursor.expect(Sign::Comma)?;
    let listed = text(alloc, cursor)?;
    cursor.expect(Sign::Comma)?;
    let wanted = text(alloc, cursor)?;
    cursor.expect(Sign::Close)?;
    Ok(Expr::FromCheckpoint(checkpoint, listed, wanted))
}

fn summed(mut terms: List<Expr>) -> Expr
    ensures { result ≡ spec.summed terms }
{
    if terms.len() == 1
        && let Some(only) = terms.pop()
    {
        return only;
    }
    Expr::Sum(terms)
}

fn is_zip(rest: &[Symbol]) -> bool
    ensures { result ≡ spec.is_zip rest.now }
{
    match rest {
        [Symbol::Name(_, word), rest @ ..] => word.as_str() == "zip" && !sees(rest, Sign::Equals),
        _ => false,
    }
}

fn takes_zip(cursor: &mut Cursor<'_>) -> bool
    ensures { spec.zip cursor.old ≡ Ok (result, cursor.new) }
{
    match cursor.ahead() {
        [Symbol::Sign(_, Sign::Comma), rest @ ..] if is_zip(rest) => {
            cursor.take();
            cursor.take();
            true
        }
        _ => false,
    }
}

/// The expression at the cursor, the longest that can be read, with up to 64 brackets within each other. `Unsupported` at a word
/// of Python that this language does not have, `Doubled` at a name that an `expand` has twice, else `Unexpected` at the first
/// symbol with which no expression goes on. `OutOfMemory` where there is no memory for it.
pub fn expr(alloc: Global, cursor: &mut Cursor<'_>) -> Result<Expr, ParseFault>
    ensures { Reads (spec.expr MAX_DEPTH cursor.old) result cursor.new }
{
    nested(alloc, cursor, MAX_DEPTH)
}

/// `depth` is how many brackets may still open.
#[cycle(expr)]
#[tactic(auto, using(crate::proofs::Depth::expr_level), unfolding(crate::specs::Exprs::level))]
pub fn nested(alloc: Global, cursor: &mut Cursor<'_>, depth: usize) -> Result<Expr, ParseFault>
    ensures { Reads (spec.expr depth cursor.old) result cursor.new }
{
    let first = term(alloc, cursor, depth)?;
    let found = terms(alloc, cursor, depth, first)?;
    Ok(summed(found))
}

#[cycle(expr)]
fn terms(
    alloc: Global,
    cursor: &mut Cursor<'_>,
    depth: usize,
    first: Expr,
) -> Result<List<Expr>, ParseFault>
    ensures { Reads (spec.terms (spec.inner_of depth) first cursor.old) result cursor.new }
{
    let turns = cursor.left();
    let mut found = List::new(alloc);
    found.push(first)?;
    for _turn in 0..turns {
        if !cursor.eat(Sign::Plus) {
            return Ok(found);
        }
        let next = term(alloc, cursor, depth)?;
        found.push(next)?;
    }
    Err(cursor.refuse())
}

#[cycle(expr)]
#[tactic(auto, unfolding(crate::specs::Exprs::term))]
fn term(alloc: Global, cursor: &mut Cursor<'_>, depth: usize) -> Result<Expr, ParseFault>
    ensures { Reads (spec.term (spec.inner_of depth) cursor.old) result cursor.new }
{
    match cursor.ahead() {
        [Symbol::Text(_, first), ..] => {
            cursor.take();
            Ok(Expr::Word(texts(alloc, cursor, first)?))
        }
        [Symbol::Number(_, n), ..] => {
            cursor.take();
            Ok(Expr::Number(*n))
        }
        [Symbol::Name(at, word), ..] => {
            cursor.take();
            named(alloc, cursor, depth, *at, word)
        }
        [Symbol::Sign(_, Sign::Open), ..] => within(alloc, cursor, depth),
        [Symbol::Sign(_, Sign::OpenSquare), ..] => many(alloc, cursor, depth),
        _ => Err(cursor.refuse()),
    }
}

#[cycle(expr)]
#[tactic(auto, unfolding(crate::specs::Exprs::named))]
fn named(
    alloc: Global,
    cursor: &mut Cursor<'_>,
    depth: usize,
    at: u64,
    word: &Text,
) -> Result<Expr, ParseFault>
    ensures { Reads (spec.named (spec.inner_of depth) at word.now cursor.old) result cursor.new }
{
    match word_of(word) {
        Keyword::True => Ok(Expr::Truth(true)),
        Keyword::False => Ok(Expr::Truth(false)),
        Keyword::Python => Err(ParseFault::Unsupported(at)),
        Keyword::Config if cursor.sees(Sign::OpenSquare) => Ok(Expr::Config(keys(alloc, cursor)?)),
        Keyword::Rules if cursor.sees(Sign::Point) => outputs(alloc, cursor),
        Keyword::Flag if cursor.sees(Sign::Open) => flagged(alloc, cursor, depth, word),
        Keyword::Expand if cursor.sees(Sign::Open) => expand(alloc, cursor, depth),
        Keyword::FromCheckpoint if cursor.sees(Sign::Open) => gathered(alloc, cursor),
        _ => plain(alloc, cursor, at, word),
    }
}

#[cycle(expr)]
#[tactic(auto, using(crate::proofs::Depth::inner_none, crate::proofs::Depth::inner_some), unfolding(crate::specs::Exprs::closed))]
fn within(alloc: Global, cursor: &mut Cursor<'_>, depth: usize) -> Result<Expr, ParseFault>
    ensures { Reads (spec.opened (spec.inner_of depth) spec.closed cursor.old) result cursor.new }
{
    if depth == 0 {
        return Err(cursor.refuse());
    }
    cursor.take();
    let inner = nested(alloc, cursor, depth - 1)?;
    cursor.expect(Sign::Close)?;
    Ok(inner)
}

#[cycle(expr)]
#[tactic(auto, unfolding(crate::specs::Exprs::flagged))]
fn flagged(
    alloc: Global,
    cursor: &mut Cursor<'_>,
    depth: usize,
    word: &Text,
) -> Result<Expr, ParseFault>
    ensures { Reads (spec.flagged (spec.inner_of depth) word.now cursor.old) result cursor.new }
{
    let inner = within(alloc, cursor, depth)?;
    let word = word.copy(alloc)?;
    Ok(Expr::Flagged(word, Boxed::new(alloc, inner)?))
}

#[cycle(expr)]
#[tactic(auto, using(crate::proofs::Depth::inner_none, crate::proofs::Depth::inner_some), unfolding(crate::specs::Exprs::many))]
fn many(alloc: Global, cursor: &mut Cursor<'_>, depth: usize) -> Result<Expr, ParseFault>
    ensures { Reads (spec.many (spec.inner_of depth) cursor.old) result cursor.new }
{
    if depth == 0 {
        return Err(cursor.refuse());
    }
    cursor.take();
    Ok(Expr::Many(listed(alloc, cursor, depth - 1)?))
}

/// Expressions with commas between, up to the bracket.
#[cycle(expr)]
fn listed(alloc: Global, cursor: &mut Cursor<'_>, depth: usize) -> Result<List<Expr>, ParseFault>
    ensures { Reads (spec.listed (spec.expr depth) cursor.old) result cursor.new }
{
    let mut found = List::new(alloc);
    for _turn in 0..cursor.left() {
        if cursor.eat(Sign::CloseSquare) {
            return Ok(found);
        }
        let next = nested(alloc, cursor, depth)?;
        found.push(next)?;
        if !cursor.eat(Sign::Comma) {
            cursor.expect(Sign::CloseSquare)?;
            return Ok(found);
        }
    }
    Err(cursor.refuse())
}

#[cycle(expr)]
#[tactic(auto, using(crate::proofs::Depth::inner_none, crate::proofs::Depth::inner_some), unfolding(crate::specs::Exprs::expanded))]
fn expand(alloc: Global, cursor: &mut Cursor<'_>, depth: usize) -> Result<Expr, ParseFault>
    ensures { Reads (spec.opened (spec.inner_of depth) spec.expanded cursor.old) result cursor.new }
{
    if depth == 0 {
        return Err(cursor.refuse());
    }
    cursor.take();
    let pattern = nested(alloc, cursor, depth - 1)?;
    let zip = takes_zip(cursor);
    let named = arguments(alloc, cursor, depth - 1)?;
    Ok(Expr::Expand(ExpandForm {
        pattern: Boxed::new(alloc, pattern)?,
        zip,
        named,
    }))
}

/// Values under names, a comma before each and maybe behind, up to the bracket.
#[cycle(expr)]
fn arguments(
    alloc: Global,
    cursor: &mut Cursor<'_>,
    depth: usize,
) -> Result<List<ItemForm>, ParseFault>
    ensures { Reads (spec.arguments (spec.expr depth) cursor.old) result cursor.new }
{
    let mut found = SoFar::new(alloc);
    for _turn in 0..cursor.left() {
        let more = cursor.eat(Sign::Comma);
        if cursor.eat(Sign::Close) {
            return Ok(found.into_items());
        }
        if !more {
            return Err(cursor.refuse());
        }
        let next = argument(alloc, cursor, depth, &found)?;
        found = found.with(alloc, next)?;
    }
    Err(cursor.refuse())
}

/// A value under a name that those found before don't have.
#[cycle(expr)]
#[tactic(auto, unfolding(crate::specs::Exprs::argument, crate::specs::Exprs::valued))]
pub fn argument(
    alloc: Global,
    cursor: &mut Cursor<'_>,
    depth: usize,
    found: &SoFar,
) -> Result<ItemForm, ParseFault>
    ensures { Reads (spec.argument (spec.expr depth) found.now cursor.old) result cursor.new }
{
    match cursor.ahead() {
        [Symbol::Name(at, name), rest @ ..] => {
            if !sees(rest, Sign::Equals) {
                return Err(cursor.refuse());
            }
            if found.has_name(name.as_str()) {
                return Err(ParseFault::Doubled(*at));
            }
            cursor.take();
            cursor.take();
            let value = nested(alloc, cursor, depth)?;
            Ok(ItemForm {
                name: name.copy(alloc)?,
                value,
            })
        }
        _ => Err(cursor.refuse()),
    }
}
