//! The rules of jobs.

ghost use Rattle.std.specs.Prelude.{◌≡◌, option_map, slice_get};

use smk_choose::Making;
use smk_flow::{RulePart, Workflow};

/// The rule with this number, where there is one.
pub(crate) fn part_at<'f>(flow: &'f Workflow, making: &Making) -> Option<&'f RulePart>
    ensures { option_map (λ r. r.now) result ≡ slice_get flow.now.rules making.now.rule }
{
    match flow.rules().as_slice().get(making.rule as usize) {
        Some(rule) => Some(&rule.part),
        None => None,
    }
}
