//! Whether outputs of a workflow are temporary or protected, or its rules have priorities.

ghost use Rattle.std.specs.Prelude.{◌≡◌};
ghost use Rattle.smk_flow.specs.Numbers.{parts_of};
ghost use Rattle.smk_cli_calls.specs.OneByOne as one;

use smk_flow::{Flag, FlaggedText, OutPart, Rule, RulePart, Workflow};

fn is_mark(flag: Flag) -> bool
    ensures { result ≡ one.is_mark flag }
{
    match flag {
        Flag::Temp | Flag::Protected => true,
        Flag::Folder => false,
    }
}

fn is_marked(out: &FlaggedText) -> bool
    ensures { result ≡ one.is_marked out.now }
{
    for flag in out.flags.as_slice() {
        if is_mark(*flag) {
            return true;
        }
    }
    false
}

fn item_has_marks(item: &OutPart) -> bool
    ensures { result ≡ one.item_has_marks item.now }
{
    for out in item.outs.as_slice() {
        if is_marked(out) {
            return true;
        }
    }
    false
}

fn part_has_marks(part: &RulePart) -> bool
    ensures { result ≡ one.part_has_marks part.now }
{
    for item in part.outputs.as_slice() {
        if item_has_marks(item) {
            return true;
        }
    }
    false
}

fn some_has_marks(rules: &[Rule]) -> bool
    ensures { result ≡ one.has_marks (parts_of rules.now) }
{
    for rule in rules {
        if part_has_marks(&rule.part) {
            return true;
        }
    }
    false
}

/// Whether some output of the workflow is temporary or protected.
pub(crate) fn has_marks(flow: &Workflow) -> bool
    ensures { result ≡ one.has_marks flow.now.rules }
{
    some_has_marks(flow.rules().as_slice())
}

fn is_preferred(part: &RulePart) -> bool
    ensures { result ≡ one.is_preferred part.now }
{
    part.priority != 0
}

fn some_is_preferred(rules: &[Rule]) -> bool
    ensures { result ≡ one.has_priorities (parts_of rules.now) }
{
    for rule in rules {
        if is_preferred(&rule.part) {
            return true;
        }
    }
    false
}

/// Whether some rule of the workflow has a priority.
pub(crate) fn has_priorities(flow: &Workflow) -> bool
    ensures { result ≡ one.has_priorities flow.now.rules }
{
    some_is_preferred(flow.rules().as_slice())
}
