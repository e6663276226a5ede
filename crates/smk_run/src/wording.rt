//! Texts of a recipe, which are UTF-8.

ghost use Rattle.std.specs.Prelude.{◌≡◌, ◌∷◌, [], map, true};
ghost use Rattle.std.specs.List.{flat_map, list_all};
ghost use Rattle.smk_world.specs.World.{in_paths, out_paths};
ghost use Rattle.smk_world.specs.Trees.{is_path_text, is_text};
ghost use Rattle.smk_record.specs.Spelling.{texts};

use crate::stamps::{see_outputs, see_paths};
use smk_base::{Pair, Text};
use smk_world::{Item, OutItem, Recipe, Values};

// Goes over the texts.
fn see_words(words: &[Text])
    ensures { list_all is_text words.now ≡ true }
{
    for word in words {
        // The call tells that the text is UTF-8.
        let _text = word.as_str();
    }
}

// Goes over the names and values of the pairs.
fn see_pairs(pairs: &[Pair])
    ensures { list_all is_text (flat_map (λ pair. pair.name ∷ pair.value ∷ []) pairs.now) ≡ true }
{
    for pair in pairs {
        // The calls tell that the texts are UTF-8.
        let _name = pair.name.as_str();
        let _value = pair.value.as_str();
    }
}

// Goes over the names and values of the parameters.
fn see_params(params: &[Values])
    ensures { list_all is_text (flat_map (λ param. param.name ∷ param.values) params.now) ≡ true }
{
    for param in params {
        // The call tells that the text is UTF-8.
        let _name = param.name.as_str();
        see_words(param.values.as_slice());
    }
}

// Goes over the names of the inputs.
fn see_input_names(inputs: &[Item])
    ensures { list_all is_text (map (λ item. item.name) inputs.now) ≡ true }
{
    for item in inputs {
        // The call tells that the text is UTF-8.
        let _name = item.name.as_str();
    }
}

// Goes over the names of the outputs.
fn see_output_names(outputs: &[OutItem])
    ensures { list_all is_text (map (λ item. item.name) outputs.now) ≡ true }
{
    for item in outputs {
        // The call tells that the text is UTF-8.
        let _name = item.name.as_str();
    }
}

/// Goes over the texts of the recipe, which tells that they are UTF-8.
pub(crate) fn see_texts(recipe: &Recipe)
    ensures { list_all is_text (texts recipe.now) ≡ true }
{
    // The call tells that the text is UTF-8.
    let _template = recipe.template.as_str();
    see_pairs(recipe.wildcards.as_slice());
    see_params(recipe.params.as_slice());
    see_input_names(recipe.inputs.as_slice());
    see_output_names(recipe.outputs.as_slice());
}

// Goes over the paths of the inputs.
fn see_inputs(inputs: &[Item])
    ensures { list_all is_path_text (flat_map (λ item. item.paths) inputs.now) ≡ true }
{
    for item in inputs {
        see_paths(item.paths.as_slice());
    }
}

/// Goes over the texts of the recipe, which tells that they are UTF-8, and those of its inputs and outputs paths.
pub fn see_recipe(recipe: &Recipe)
    ensures inputs { list_all is_path_text (in_paths recipe.now) ≡ true }
    ensures outputs { list_all is_path_text (out_paths recipe.now) ≡ true }
    ensures texts { list_all is_text (texts recipe.now) ≡ true }
{
    see_inputs(recipe.inputs.as_slice());
    see_outputs(recipe.outputs.as_slice());
    see_texts(recipe);
}
