//! The texts of a rule, lent.

ghost use Rattle.std.specs.Prelude.{◌≡◌, ◌++◌, map, IfOk, OnOk};
ghost use Rattle.smk_pattern.specs.Searching.{now_of};
ghost use Rattle.smk_flow.specs.declared.rule.FlaggedText.{FlaggedText};
ghost use Rattle.smk_flow.specs.Flows.{outs};
ghost use Rattle.smk_flow.specs.Lent.{all_lent};
ghost use Rattle.smk_flow.specs.Checks.{out_texts};

use crate::rule::{FlaggedText, RulePart};
use smk_base::{OutOfMemory, Text};
use std::alloc::Global;

/// Adds these texts behind those that were found. `OutOfMemory` where there is no memory for them.
pub fn add_texts<'p>(found: &mut Vec<&'p str>, texts: &'p [Text]) -> Result<(), OutOfMemory>
    ensures { OnOk result (now_of found.new.items ≡ now_of found.old.items ++ texts.now) }
{
    for text in texts {
        found.push(text.as_str())?;
    }
    Ok(())
}

// Adds the texts of these outputs.
fn add_outs<'p>(found: &mut Vec<&'p str>, outs: &'p [FlaggedText]) -> Result<(), OutOfMemory>
    ensures { OnOk result (now_of found.new.items ≡ now_of found.old.items ++ map (λ (o : FlaggedText). o.text) outs.now) }
{
    for out in outs {
        found.push(out.text.as_str())?;
    }
    Ok(())
}

/// The texts of the rule's outputs, in order. `OutOfMemory` where there is no memory for them.
pub fn out_texts(alloc: Global, part: &RulePart) -> Result<Vec<&str>, OutOfMemory>
    ensures { IfOk result (λ texts. now_of texts.items ≡ out_texts part.now) }
{
    let mut found = Vec::new(alloc);
    for item in part.outputs.as_slice() {
        add_outs(&mut found, item.outs.as_slice())?;
    }
    Ok(found)
}

// Adds these outputs.
fn lend_outs<'p>(
    found: &mut Vec<&'p FlaggedText>,
    outs: &'p [FlaggedText],
) -> Result<(), OutOfMemory>
    ensures { OnOk result (all_lent found.new.items ≡ all_lent found.old.items ++ outs.now) }
{
    for out in outs {
        found.push(out)?;
    }
    Ok(())
}

/// The rule's outputs, in order. `OutOfMemory` where there is no memory for them.
pub fn outs(alloc: Global, part: &RulePart) -> Result<Vec<&FlaggedText>, OutOfMemory>
    ensures { IfOk result (λ found. all_lent found.items ≡ outs part.now) }
{
    let mut found = Vec::new(alloc);
    for item in part.outputs.as_slice() {
        lend_outs(&mut found, item.outs.as_slice())?;
    }
    Ok(found)
}
