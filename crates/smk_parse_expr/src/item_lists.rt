//! The items of a directive or a statement.

ghost use Rattle.std.specs.Prelude.{◌≡◌, ◌++◌, ◌∷◌, [], Ok};
ghost use Rattle.smk_parse_expr.specs.Symbols.{Reads};
ghost use Rattle.smk_parse_expr.specs.Items as spec;

use crate::cursor::Cursor;
use crate::exprs::{MAX_DEPTH, argument, expr};
use crate::so_far::SoFar;
use crate::symbol::{ParseFault, Sign, Symbol, sees};
use smk_base::{List, Text};
use smk_parse_tree::ItemForm;
use std::alloc::Global;

#[tactic(auto, unfolding(crate::specs::Exprs::valued))]
fn positional(alloc: Global, cursor: &mut Cursor<'_>, found: &SoFar) -> Result<ItemForm, ParseFault>
    ensures { Reads (spec.positional found.now cursor.old) result cursor.new }
{
    if found.has_named() {
        return Err(cursor.refuse());
    }
    let value = expr(alloc, cursor)?;
    Ok(ItemForm {
        name: Text::of(alloc, "")?,
        value,
    })
}

/// One more item after those that were read.
#[tactic(auto, unfolding(crate::specs::Items::item))]
fn item(alloc: Global, cursor: &mut Cursor<'_>, found: &SoFar) -> Result<ItemForm, ParseFault>
    ensures { Reads (spec.item found.now cursor.old) result cursor.new }
{
    match cursor.ahead() {
        [Symbol::Name(_, _), rest @ ..] if sees(rest, Sign::Equals) => {
            argument(alloc, cursor, MAX_DEPTH, found)
        }
        _ => positional(alloc, cursor, found),
    }
}

/// Takes a comma, and whether anything stands after it.
fn another(cursor: &mut Cursor<'_>) -> bool
    ensures { spec.another cursor.old ≡ Ok (result, cursor.new) }
{
    cursor.eat(Sign::Comma) && !cursor.at_end()
}

/// The items at the cursor, one at least, with commas between and maybe behind, up to the symbol that ends them, which is left.
/// The symbols of layout between the lines have to be left out before. `Doubled` at a name that an item has before, else the
/// faults of `expr`: `Unexpected` at an item without a name behind one that has one. `OutOfMemory` where there is no memory
/// for them.
pub fn items(alloc: Global, cursor: &mut Cursor<'_>) -> Result<List<ItemForm>, ParseFault>
    ensures { Reads (spec.items cursor.old) result cursor.new }
{
    let mut found = SoFar::new(alloc);
    for _turn in 0..cursor.left() {
        let next = item(alloc, cursor, &found)?;
        found = found.with(alloc, next)?;
        if !another(cursor) {
            cursor.end()?;
            return Ok(found.into_items());
        }
    }
    Err(cursor.refuse())
}
