//! The items that were read so far.

ghost use Rattle.std.specs.Prelude.{◌≡◌, [], ◌∷◌, ◌++◌, length, not, ◌||◌, ◌==◌, IfOk};
ghost use Rattle.smk_parse_expr.specs.Exprs.{has_name as has_name_of};
ghost use Rattle.smk_parse_expr.specs.Items.{has_named as has_named_of};

use smk_base::{List, OutOfMemory};
use smk_parse_tree::ItemForm;
use std::alloc::Global;
use std::collections::BTreeSet;
use std::marker::Model;

/// Items in order, which tell quickly whether one has a name. Contracts see the list of them.
#[derive(Drop)]
pub struct SoFar {
    items: List<ItemForm>,
    names: BTreeSet<String>,
    named: bool,
}

impl Model for SoFar {
    ghost use Rattle.std.specs.Prelude.{List as Listed};
    ghost use Rattle.smk_parse_tree.specs.declared.syntax.ItemForm.{ItemForm as Item};
    ghost use Rattle.smk_parse_expr.specs.SoFar.{Tells};
    ghost use Rattle.smk_parse_tree.specs.contracts.syntax.ItemForm as row;
    ghost use Rattle.std.specs.Coded.{coded_list};

    ghost Value = { Listed Item };

    ghost coded = { coded_list row.the_row.coded };

    ghost view = { λ f. f.items };

    ghost invariant = { λ f. Tells f.items f.names f.named };
}

/// Whether this is a name, or one was there before.
fn is_named(before: bool, name: &str) -> bool
    ensures { result ≡ (before || not (length name.now == 0)) }
{
    before || !name.is_empty()
}

impl SoFar {
    /// No items.
    pub fn new(alloc: Global) -> SoFar
        ensures { result ≡ [] }
    {
        SoFar {
            items: List::new(alloc),
            names: BTreeSet::new(alloc),
            named: false,
        }
    }

    /// Whether an item has this name.
    pub fn has_name(&self, name: &str) -> bool
        ensures { result ≡ has_name_of self.now name.now }
    {
        self.names.contains(name)
    }

    /// Whether an item has a name.
    pub fn has_named(&self) -> bool
        ensures { result ≡ has_named_of self.now }
    {
        self.named
    }

    /// These and one more behind them. `OutOfMemory` where there is no memory for it; all are dropped then.
    pub fn with(self, alloc: Global, item: ItemForm) -> Result<SoFar, OutOfMemory>
        ensures { IfOk result (λ found. found ≡ self ++ item ∷ []) }
    {
        let SoFar {
            mut items,
            mut names,
            named,
        } = self;
        let name = String::from_str(alloc, item.name.as_str())?;
        let named = is_named(named, item.name.as_str());
        names.insert(name)?;
        items.push(item)?;
        Ok(SoFar {
            items,
            names,
            named,
        })
    }

    /// The list of them.
    pub fn into_items(self) -> List<ItemForm>
        ensures { result ≡ self }
    {
        let SoFar { items, .. } = self;
        items
    }
}
