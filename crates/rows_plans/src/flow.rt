//! The jobs that make `m/I.txt` of `s/I.txt`, and the one that makes `total.txt` of all of these.

use smk_base::{List, OutOfMemory, PathText, Text, one};
use smk_chain::{Jobs, Maker};
use smk_flow::Job;
use smk_pick::{Force, Settings};
use smk_world::{Item, Kind, Out, OutItem, Recipe};
use smk_world_mem::{MemWork, Setup};
use std::alloc::Global;

/// The path of this text.
pub fn path_of(alloc: Global, text: &str) -> Result<PathText, OutOfMemory> {
    match PathText::read(alloc, text) {
        Ok(path) => Ok(path),
        Err(_) => Err(OutOfMemory),
    }
}

// The path of the number in the folder.
fn numbered(alloc: Global, folder: &str, number: u32) -> Result<PathText, OutOfMemory> {
    let text = format!(in alloc; "{folder}/{number}.txt")?;
    path_of(alloc, text.as_str())
}

// A job of this command, with these inputs, this output and these temporary outputs.
fn job_of(
    alloc: Global,
    template: &str,
    inputs: List<PathText>,
    output: PathText,
    temps: List<PathText>,
) -> Result<Job, OutOfMemory> {
    let input = Item {
        name: Text::of(alloc, "")?,
        paths: inputs,
    };
    let out = OutItem {
        name: Text::of(alloc, "")?,
        outs: one(
            alloc,
            Out {
                path: output,
                kind: Kind::Plain,
            },
        )?,
    };
    let recipe = Recipe {
        template: Text::of(alloc, template)?,
        wildcards: List::new(alloc),
        params: List::new(alloc),
        inputs: one(alloc, input)?,
        outputs: one(alloc, out)?,
    };
    Ok(Job {
        rule: 0,
        recipe,
        gathers: List::new(alloc),
        logs: List::new(alloc),
        threads: 1,
        amounts: List::new(alloc),
        words: List::new(alloc),
        priority: 0,
        temps,
        guards: List::new(alloc),
    })
}

// The command of the job of a number.
fn template_of(number: u32) -> &'static str {
    if number == 1 { "first" } else { "other" }
}

// The path, where what the jobs make is temporary; and else none.
fn temps_of(
    alloc: Global,
    path: &PathText,
    temporary: bool,
) -> Result<List<PathText>, OutOfMemory> {
    if temporary {
        return one(alloc, path.copy(alloc)?);
    }
    Ok(List::new(alloc))
}

// The job of the number.
fn part(alloc: Global, number: u32, temporary: bool) -> Result<Job, OutOfMemory> {
    let input = numbered(alloc, "s", number)?;
    let output = numbered(alloc, "m", number)?;
    let temps = temps_of(alloc, &output, temporary)?;
    job_of(
        alloc,
        template_of(number),
        one(alloc, input)?,
        output,
        temps,
    )
}

// The job that reads what the others make.
fn total(alloc: Global, count: u32) -> Result<Job, OutOfMemory> {
    let mut inputs = List::new(alloc);
    for number in 0..count {
        inputs.push(numbered(alloc, "m", number.saturating_add(1))?)?;
    }
    let output = path_of(alloc, "total.txt")?;
    job_of(alloc, "total", inputs, output, List::new(alloc))
}

// The jobs in plan order.
fn all_jobs(alloc: Global, count: u32, temporary: bool) -> Result<List<Job>, OutOfMemory> {
    let mut jobs = List::new(alloc);
    for number in 0..count {
        jobs.push(part(alloc, number.saturating_add(1), temporary)?)?;
    }
    jobs.push(total(alloc, count)?)?;
    Ok(jobs)
}

// Which job makes each path.
fn makers(alloc: Global, count: u32) -> Result<List<Maker>, OutOfMemory> {
    let mut makers = List::new(alloc);
    for number in 0..count {
        makers.push(Maker {
            path: numbered(alloc, "s", number.saturating_add(1))?,
            job: None,
        })?;
        makers.push(Maker {
            path: numbered(alloc, "m", number.saturating_add(1))?,
            job: Some(number),
        })?;
    }
    makers.push(Maker {
        path: path_of(alloc, "total.txt")?,
        job: Some(count),
    })?;
    Ok(makers)
}

// The numbers of the jobs before each job.
fn befores(alloc: Global, count: u32) -> Result<List<List<u32>>, OutOfMemory> {
    let mut befores = List::new(alloc);
    let mut all = List::new(alloc);
    for number in 0..count {
        befores.push(List::new(alloc))?;
        all.push(number)?;
    }
    befores.push(all)?;
    Ok(befores)
}

/// So many jobs, and the one that reads what they make, which is temporary or not.
pub fn jobs_of(alloc: Global, count: u32, temporary: bool) -> Result<Jobs, OutOfMemory> {
    Ok(Jobs {
        jobs: all_jobs(alloc, count, temporary)?,
        befores: befores(alloc, count)?,
        makers: makers(alloc, count)?,
        lists: List::new(alloc),
    })
}

/// A run that makes `total.txt`.
pub fn settings_of(alloc: Global) -> Result<Settings, OutOfMemory> {
    Ok(Settings {
        targets: one(alloc, path_of(alloc, "total.txt")?)?,
        cores: 1,
        bounds: List::new(alloc),
        keep_going: false,
        rerun_incomplete: false,
        force: Force::No,
    })
}

/// The workspace with the sources of so many jobs.
pub fn workspace(alloc: Global, count: u32) -> Result<MemWork, OutOfMemory> {
    let mut work = MemWork::new(
        alloc,
        Setup {
            failing: List::new(alloc),
            stop_after: None,
            order: List::new(alloc),
            killed: List::new(alloc),
        },
    );
    for number in 0..count {
        let path = numbered(alloc, "s", number.saturating_add(1))?;
        work.place(&path, b"x\n", 1)?;
    }
    Ok(work)
}
