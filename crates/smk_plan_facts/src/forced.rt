//! Which jobs are forced.

ghost use Rattle.std.specs.Prelude.{◌≡◌, ◌||◌, IfOk, OnOk};
ghost use Rattle.std.specs.List.{list_any};
ghost use Rattle.std.specs.BTreeSet.{contains_text};
ghost use Rattle.smk_base.specs.Path.{is_under};
ghost use Rattle.smk_world.specs.Trees.{Path, is_folder_kind};
ghost use Rattle.smk_plan.specs.States.{by_force};
ghost use Rattle.smk_plan_facts.specs.Telling.{aims, aims_at, forced_in, is_aimed, Tells};

use smk_base::{List, OutOfMemory, PathText};
use smk_chain::sets::{put, set_of};
use smk_choose::folders_above;
use smk_flow::Job;
use smk_pick::{Force, Settings};
use smk_plan::name_of;
use smk_world::{Kind, Out, OutItem};
use std::alloc::Global;
use std::collections::BTreeSet;

/// What forces jobs.
#[derive(Drop)]
pub(crate) struct Forcing {
    force: Force,
    /// The first outputs of the jobs that ran.
    ran: BTreeSet<String>,
    targets: BTreeSet<String>,
    /// The folders above the targets.
    above: BTreeSet<String>,
}

// Whether it is a directory.
fn is_folder(kind: Kind) -> bool
    ensures { result ≡ is_folder_kind kind }
{
    match kind {
        Kind::Plain => false,
        Kind::Folder => true,
    }
}

// Adds the folders above the path.
fn add_above(alloc: Global, set: &mut BTreeSet<String>, path: &PathText) -> Result<(), OutOfMemory>
    ensures { OnOk result ((q : Path) → contains_text set.new q ≡ (is_under path.now q || contains_text set.old q)) }
{
    let folders = folders_above(alloc, path)?;
    for folder in &folders {
        put(alloc, set, folder)?;
    }
    Ok(())
}

// The folders above the paths.
fn all_above(alloc: Global, paths: &List<PathText>) -> Result<BTreeSet<String>, OutOfMemory>
    ensures { IfOk result (λ set. (q : Path) → contains_text set q ≡ list_any (λ t. is_under t q) paths.now) }
{
    let mut set = BTreeSet::new(alloc);
    for path in paths.as_slice() {
        add_above(alloc, &mut set, path)?;
    }
    Ok(set)
}

impl Forcing {
    /// What forces jobs by these settings, where the jobs with these first outputs have begun.
    pub(crate) fn of(
        alloc: Global,
        settings: &Settings,
        ran: &List<PathText>,
    ) -> Result<Forcing, OutOfMemory>
        ensures { IfOk result (Tells settings.now ran.now) }
    {
        let force = settings.force;
        let ran = set_of(alloc, ran.as_slice())?;
        let targets = set_of(alloc, settings.targets.as_slice())?;
        let above = all_above(alloc, &settings.targets)?;
        Ok(Forcing {
            force,
            ran,
            targets,
            above,
        })
    }

    // Whether a target is the output, or a member of it.
    fn is_aimed(&self, out: &Out) -> bool
        ensures { result ≡ is_aimed self.now out.now }
    {
        self.targets.contains(out.path.as_str())
            || (is_folder(out.kind) && self.above.contains(out.path.as_str()))
    }

    // Whether a target is one of these outputs, or a member of one.
    fn aims(&self, outs: &[Out]) -> bool
        ensures { result ≡ aims self.now outs.now }
    {
        for out in outs {
            if self.is_aimed(out) {
                return true;
            }
        }
        false
    }

    // Whether a target is an output of these items, or a member of one.
    fn makes_target(&self, outputs: &[OutItem]) -> bool
        ensures { result ≡ list_any (aims_at self.now) outputs.now }
    {
        for item in outputs {
            if self.aims(item.outs.as_slice()) {
                return true;
            }
        }
        false
    }

    // Whether force is on the job, be it that it ran.
    fn is_meant(&self, job: &Job) -> bool
        ensures { result ≡ by_force self.now.force (list_any (aims_at self.now) job.now.recipe.outputs) }
    {
        match self.force {
            Force::No => false,
            Force::Targets => self.makes_target(job.recipe.outputs.as_slice()),
            Force::All => true,
        }
    }

    /// Whether the job is forced.
    pub(crate) fn is_forced(&self, job: &Job) -> bool
        ensures { result ≡ forced_in self.now job.now }
    {
        !self.ran.contains(name_of(job)) && self.is_meant(job)
    }
}
