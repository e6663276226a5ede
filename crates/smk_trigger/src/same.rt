//! When two recipes, or two records, say the same.

ghost use Rattle.std.specs.Prelude.{◌≡◌, Bool, bytes_eq};
ghost use Rattle.std.specs.List.{list_all};
ghost use Rattle.std.specs.Cmp.Lexicographic.{pointwise};
ghost use Rattle.smk_record.specs.Records.{same_pair, same_stamp, same_flag};
ghost use Rattle.smk_world.specs.Trees.{is_folder_kind};
ghost use Rattle.smk_trigger.specs.Reasons.{same_values, same_item, same_out, same_out_item, same_code, same_params, same_inputs, same_recipe, same_job};

use smk_base::{Pair, PathText, Text};
use smk_record::{Record, Stamp};
use smk_world::{Item, Kind, Out, OutItem, Recipe, Values};

/// A value that may say the same as another one.
pub(crate) trait Same {
    ghost alike: { Self → Self → Bool };

    /// Whether the two say the same.
    fn same(&self, other: &Self) -> bool
        ensures { result ≡ alike self.now other.now };
}

// Whether the two are equally long, and each element says the same as the one in its place.
fn are_same<T: Same>(these: &[T], others: &[T]) -> bool
    ensures { result ≡ pointwise T.alike these.now others.now }
{
    let mut rest = others;
    for this in these {
        let Some((other, more)) = rest.split_first() else {
            return false;
        };
        if !this.same(other) {
            return false;
        }
        rest = more;
    }
    rest.is_empty()
}

impl Same for Text {
    ghost alike = { bytes_eq };

    fn same(&self, other: &Text) -> bool {
        self.as_str() == other.as_str()
    }
}

impl Same for PathText {
    ghost alike = { bytes_eq };

    fn same(&self, other: &PathText) -> bool {
        self.as_str() == other.as_str()
    }
}

impl Same for Pair {
    ghost alike = { same_pair };

    fn same(&self, other: &Pair) -> bool {
        self.name.same(&other.name) && self.value.same(&other.value)
    }
}

impl Same for Values {
    ghost alike = { same_values };

    fn same(&self, other: &Values) -> bool {
        self.name.same(&other.name) && are_same(self.values.as_slice(), other.values.as_slice())
    }
}

impl Same for Item {
    ghost alike = { same_item };

    fn same(&self, other: &Item) -> bool {
        self.name.same(&other.name) && are_same(self.paths.as_slice(), other.paths.as_slice())
    }
}

// Whether both are files, or both are folders.
fn is_same_kind(kind: Kind, other: Kind) -> bool
    ensures { result ≡ same_flag (is_folder_kind kind) (is_folder_kind other) }
{
    match (kind, other) {
        (Kind::Plain, Kind::Plain) => true,
        (Kind::Plain, Kind::Folder) => false,
        (Kind::Folder, Kind::Plain) => false,
        (Kind::Folder, Kind::Folder) => true,
    }
}

impl Same for Out {
    ghost alike = { same_out };

    fn same(&self, other: &Out) -> bool {
        self.path.same(&other.path) && is_same_kind(self.kind, other.kind)
    }
}

impl Same for OutItem {
    ghost alike = { same_out_item };

    fn same(&self, other: &OutItem) -> bool {
        self.name.same(&other.name) && are_same(self.outs.as_slice(), other.outs.as_slice())
    }
}

impl Same for Stamp {
    ghost alike = { same_stamp };

    fn same(&self, other: &Stamp) -> bool {
        smk_record::same_stamp(self, other)
    }
}

/// Whether the commands and outputs are the same.
pub(crate) fn is_same_code(recipe: &Recipe, other: &Recipe) -> bool
    ensures { result ≡ same_code recipe.now other.now }
{
    recipe.template.same(&other.template)
        && are_same(recipe.outputs.as_slice(), other.outputs.as_slice())
}

/// Whether the wildcards and params are the same.
pub(crate) fn is_same_params(recipe: &Recipe, other: &Recipe) -> bool
    ensures { result ≡ same_params recipe.now other.now }
{
    are_same(recipe.wildcards.as_slice(), other.wildcards.as_slice())
        && are_same(recipe.params.as_slice(), other.params.as_slice())
}

/// Whether the inputs are the same, with their order and names.
pub(crate) fn is_same_inputs(recipe: &Recipe, other: &Recipe) -> bool
    ensures { result ≡ same_inputs recipe.now other.now }
{
    are_same(recipe.inputs.as_slice(), other.inputs.as_slice())
}

fn is_same_recipe(recipe: &Recipe, other: &Recipe) -> bool
    ensures { result ≡ same_recipe recipe.now other.now }
{
    is_same_code(recipe, other) && is_same_params(recipe, other) && is_same_inputs(recipe, other)
}

/// Whether the records differ in path and members alone.
pub(crate) fn is_same_job(earlier: &Record, other: &Record) -> bool
    ensures { result ≡ same_job earlier.now other.now }
{
    earlier.made() == other.made()
        && is_same_recipe(earlier.recipe(), other.recipe())
        && are_same(earlier.stamps().as_slice(), other.stamps().as_slice())
        && earlier.format() == other.format()
}
