//! Which job makes each output.

ghost use Rattle.std.specs.Prelude.{◌≡◌, [], None, Some, bytes_eq, if◌then◌else◌, IfOk, OnOk};
ghost use Rattle.std.specs.BTreeMap.{get_by_text};
ghost use Rattle.std.specs.BTreeSet.{contains_text};
ghost use Rattle.smk_world.specs.Trees.{Path, among};
ghost use Rattle.smk_plan_facts.specs.Facts.{told_sources};
ghost use Rattle.smk_plan_live.specs.Sites.{site_outs, site_in};

use crate::outs::outs_in;
use smk_base::{OutOfMemory, PathText};
use smk_chain::Jobs;
use smk_flow::Job;
use smk_plan_facts::sources_of;
use smk_world::Out;
use std::alloc::Global;
use std::collections::{BTreeMap, BTreeSet};

/// Where an output stands: the number of its job, and its place among that job's outputs.
#[derive(Clone, Copy)]
pub struct Site {
    pub job: usize,
    pub place: usize,
}

// Keeps the site of the path.
fn put(
    alloc: Global,
    sites: &mut BTreeMap<String, Site>,
    path: &PathText,
    site: Site,
) -> Result<(), OutOfMemory>
    ensures put { OnOk result ((q : Path) → get_by_text sites.new q ≡ (if bytes_eq path.now q then Some site else get_by_text sites.old q)) }
    ensures named { OnOk result (get_by_text sites.new [] ≡ get_by_text sites.old []) }
{
    let key = String::from_str(alloc, path.as_str())?;
    sites.insert(key, site)?;
    Ok(())
}

// Keeps the sites of the outputs of the job of the number.
fn put_outs(
    alloc: Global,
    sites: &mut BTreeMap<String, Site>,
    job: usize,
    outs: &[Out],
) -> Result<(), OutOfMemory>
    ensures put { OnOk result ((q : Path) → get_by_text sites.new q ≡ site_outs job 0 outs.now (get_by_text sites.old q) q) }
    ensures named { OnOk result (get_by_text sites.new [] ≡ get_by_text sites.old []) }
{
    let mut place = outs.len();
    'outs: while place > 0 {
        place -= 1;
        put(alloc, sites, &outs[place].path, Site { job, place })?;
    }
    Ok(())
}

// The site of each output of the jobs; of two for one path the first one counts. No output is the empty text.
fn sites_of(alloc: Global, jobs: &[Job]) -> Result<BTreeMap<String, Site>, OutOfMemory>
    ensures sited { IfOk result (λ sites. (q : Path) → get_by_text sites q ≡ site_in 0 jobs.now q) }
    ensures named { IfOk result (λ sites. get_by_text sites [] ≡ None) }
{
    let mut sites = BTreeMap::new(alloc);
    let mut number = jobs.len();
    'jobs: while number > 0 {
        number -= 1;
        let outs = outs_in(alloc, jobs[number].recipe.outputs.as_slice())?;
        put_outs(alloc, &mut sites, number, outs.as_slice())?;
    }
    Ok(sites)
}

/// Where each output of some jobs stands, and which paths none of them makes.
#[derive(Drop)]
pub(crate) struct Sited {
    pub(crate) sites: BTreeMap<String, Site>,
    pub(crate) sources: BTreeSet<String>,
}

/// What is told of the jobs: where each output stands, and which paths no job makes.
pub(crate) fn sited_of(alloc: Global, jobs: &Jobs) -> Result<Sited, OutOfMemory>
    ensures sited { IfOk result (λ sited. (q : Path) → get_by_text sited.sites q ≡ site_in 0 jobs.now.jobs q) }
    ensures named { IfOk result (λ sited. get_by_text sited.sites [] ≡ None) }
    ensures sources { IfOk result (λ sited. (q : Path) → contains_text sited.sources q ≡ among (told_sources jobs.now.makers) q) }
{
    let sites = sites_of(alloc, jobs.jobs.as_slice())?;
    let sources = sources_of(alloc, jobs.makers.as_slice())?;
    Ok(Sited { sites, sources })
}
