//! Whether plans of a workflow may grow as they are carried out.

ghost use Rattle.std.specs.Prelude.{◌≡◌};
ghost use Rattle.std.specs.List.{list_any};
ghost use Rattle.smk_flow.specs.Flows as flows;
ghost use Rattle.smk_flow.specs.Numbers.{parts_of};
ghost use Rattle.smk_cli_calls.specs.OneByOne as one;

use smk_flow::{Flag, FlaggedText, InPart, OutPart, Rule, RulePart, Workflow};

fn is_directory(flag: Flag) -> bool
    ensures { result ≡ flows.is_directory flag }
{
    match flag {
        Flag::Temp | Flag::Protected => false,
        Flag::Folder => true,
    }
}

fn is_folder(out: &FlaggedText) -> bool
    ensures { result ≡ one.is_folder out.now }
{
    for flag in out.flags.as_slice() {
        if is_directory(*flag) {
            return true;
        }
    }
    false
}

fn item_has_folders(item: &OutPart) -> bool
    ensures { result ≡ one.item_has_folders item.now }
{
    for out in item.outs.as_slice() {
        if is_folder(out) {
            return true;
        }
    }
    false
}

fn some_has_folders(items: &[OutPart]) -> bool
    ensures { result ≡ list_any one.item_has_folders items.now }
{
    for item in items {
        if item_has_folders(item) {
            return true;
        }
    }
    false
}

fn some_is_gathering(items: &[InPart]) -> bool
    ensures { result ≡ list_any one.is_gathering items.now }
{
    for item in items {
        if item.gather.is_some() {
            return true;
        }
    }
    false
}

fn may_grow(part: &RulePart) -> bool
    ensures { result ≡ one.may_grow part.now }
{
    part.checkpoint
        || (some_has_folders(part.outputs.as_slice()) || some_is_gathering(part.inputs.as_slice()))
}

fn some_may_grow(rules: &[Rule]) -> bool
    ensures { result ≡ one.grows (parts_of rules.now) }
{
    for rule in rules {
        if may_grow(&rule.part) {
            return true;
        }
    }
    false
}

/// Whether some rule of the workflow is a checkpoint, makes a directory, or gathers.
pub(crate) fn grows(flow: &Workflow) -> bool
    ensures { result ≡ one.grows flow.now.rules }
{
    some_may_grow(flow.rules().as_slice())
}
