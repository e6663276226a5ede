//! The rules of jobs.

ghost use Rattle.std.specs.Prelude.{◌≡◌, option_map, slice_get};

use smk_flow::{RulePart, Workflow};

/// The rule with this number, where there is one.
pub(crate) fn part_at<'f>(flow: &'f Workflow, rule: u32) -> Option<&'f RulePart>
    ensures { option_map (λ r. r.now) result ≡ slice_get flow.now.rules rule }
{
    match flow.rules().as_slice().get(rule as usize) {
        Some(rule) => Some(&rule.part),
        None => None,
    }
}
