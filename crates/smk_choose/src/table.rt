//! Choices for many paths at once.

ghost use Rattle.std.specs.Prelude.{◌≡◌, ◌<◌, ◌≤◌, ℕ, length, map, Some, bytes_eq, IfOk, OnOk, option_map, if◌then◌else◌};
ghost use Rattle.std.specs.BTreeMap.{get_by_text};
ghost use Rattle.smk_world.specs.Trees.{Path};
ghost use Rattle.smk_flow.specs.PatternsOf.{rule_of};
ghost use Rattle.smk_choose.specs.declared.choice.Chosen.{Chosen};
ghost use Rattle.smk_choose.specs.Heights.{node_at};
ghost use Rattle.smk_choose.specs.Reach.{path_at};
ghost use Rattle.smk_choose.specs.Decided.{is_deep_enough, chosen_by};
ghost use Rattle.smk_choose.specs.Index.{AreReadings};
ghost use Rattle.smk_choose.specs.Told.{told_by, choice_of, CoversAll};

use crate::decide::chosen;
use crate::reach::{Reach, deepen, depths, start};
use crate::{Chosen, Readings, Sources};
use smk_base::{List, OutOfMemory, PathText};
use smk_flow::Workflow;
use std::alloc::Global;
use std::collections::BTreeMap;

/// The choices for some paths and for what their candidates want, 200 levels deep.
#[derive(Drop)]
pub struct Choices {
    chosen: BTreeMap<String, Chosen>,
}

// Keeps the choice for the path.
fn put(
    alloc: Global,
    kept: &mut BTreeMap<String, Chosen>,
    path: &PathText,
    choice: Chosen,
) -> Result<(), OutOfMemory>
    ensures { OnOk result ((q : Path) → get_by_text kept.new q ≡ (if bytes_eq path.now q then Some choice else get_by_text kept.old q)) }
{
    let key = String::from_str(alloc, path.as_str())?;
    kept.insert(key, choice)?;
    Ok(())
}

// The choices for the first paths, by what may make them and by the depths at which paths are available.
fn first_choices(
    alloc: Global,
    flow: &Workflow,
    reach: &Reach,
    heights: &[Option<u64>],
    end: usize,
) -> Result<BTreeMap<String, Chosen>, OutOfMemory>
    requires paths { end ≤ length reach.now.paths.items }
    requires nodes { end ≤ length reach.now.nodes.items }
    ensures { IfOk result (λ kept. (right : Path → Chosen)
        → ((n : ℕ) → n < end → chosen_by flow.now (map rule_of flow.now.rules) reach.now.paths.items (is_deep_enough heights.now) (node_at reach.now.nodes.items n)
        ≡ right (path_at reach.now.paths.items n))
        → (n : ℕ) → n < end → get_by_text kept (path_at reach.now.paths.items n) ≡ Some (right (path_at reach.now.paths.items n))) }
{
    let rules = flow.rules().as_slice();
    let mut kept = BTreeMap::new(alloc);
    for number in 0..end {
        let choice = chosen(
            alloc,
            flow,
            rules,
            &reach.paths,
            heights,
            &reach.nodes[number],
        )?;
        put(alloc, &mut kept, &reach.paths[number], choice)?;
    }
    Ok(kept)
}

impl Choices {
    /// The choices for these paths and for the paths that their candidates want, and so on: those that are wanted 200 levels deep are
    /// covered too. What was read of the rules is given. `OutOfMemory` where there is no memory for the table.
    pub fn of(
        alloc: Global,
        flow: &Workflow,
        readings: &Readings,
        sources: &Sources,
        paths: &List<PathText>,
    ) -> Result<Choices, OutOfMemory>
        requires { AreReadings flow.now readings.now }
        ensures { IfOk result (λ made. CoversAll flow.now (told_by sources.now) made 201 paths.now) }
    {
        let mut reach = start(alloc, paths.as_slice())?;
        let end = deepen(alloc, flow, readings, sources, &mut reach, 200)?;
        let heights = depths(alloc, &reach)?;
        let chosen = first_choices(alloc, flow, &reach, &heights, end)?;
        Ok(Choices { chosen })
    }

    /// The choice for the path, lent, where the table has it.
    pub fn choice(&self, path: &PathText) -> Option<&Chosen>
        ensures { option_map (λ c. c.now) result ≡ choice_of self.now path.now }
    {
        self.chosen.get(path.as_str())
    }
}
