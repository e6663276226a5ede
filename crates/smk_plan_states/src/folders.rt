//! The directory outputs of jobs.

ghost use Rattle.std.specs.Prelude.{◌≡◌, ◌++◌, map, option_map, IfOk, OnOk};
ghost use Rattle.std.specs.List.{flat_map};
ghost use Rattle.smk_world.specs.Trees.{outs_of};
ghost use Rattle.smk_plan_states.specs.Ways.{placed_one, placed, folders_placed, first_over, folder_in};

use smk_base::{List, OutOfMemory, PathText};
use smk_flow::Job;
use smk_world::{Kind, Out, OutItem};
use std::alloc::Global;

/// A directory output, and its place among the outputs of its job.
#[derive(Drop)]
pub(crate) struct Folder {
    pub(crate) place: usize,
    pub(crate) path: PathText,
}

fn push_outs<'j>(found: &mut List<&'j Out>, outs: &'j [Out]) -> Result<(), OutOfMemory>
    ensures { OnOk result (map (λ out. out.now) found.new ≡ map (λ out. out.now) found.old ++ outs.now) }
{
    for out in outs {
        found.push(out)?;
    }
    Ok(())
}

// The outputs of the items, in order.
fn outs_in<'j>(alloc: Global, items: &'j [OutItem]) -> Result<List<&'j Out>, OutOfMemory>
    ensures { IfOk result (λ outs. map (λ out. out.now) outs ≡ flat_map (λ item. item.outs) items.now) }
{
    let mut outs = List::new(alloc);
    for item in items {
        push_outs(&mut outs, item.outs.as_slice())?;
    }
    Ok(outs)
}

// Adds the output, where it is a directory.
fn push_folder(
    alloc: Global,
    found: &mut List<Folder>,
    place: usize,
    out: &Out,
) -> Result<(), OutOfMemory>
    ensures { OnOk result (found.new ≡ found.old ++ placed_one place out.now) }
{
    match out.kind {
        Kind::Plain => Ok(()),
        Kind::Folder => {
            found.push(Folder {
                place,
                path: out.path.copy(alloc)?,
            })?;
            Ok(())
        }
    }
}

fn folders_in(alloc: Global, outs: &[&Out]) -> Result<List<Folder>, OutOfMemory>
    ensures { IfOk result (λ folders. folders ≡ placed 0 (map (λ out. out.now) outs.now)) }
{
    let mut found = List::new(alloc);
    for (place, out) in outs.iter().enumerate() {
        push_folder(alloc, &mut found, place, out)?;
    }
    Ok(found)
}

fn folders_of(alloc: Global, job: &Job) -> Result<List<Folder>, OutOfMemory>
    ensures { IfOk result (λ folders. folders ≡ folders_placed job.now) }
{
    let outs = outs_in(alloc, job.recipe.outputs.as_slice())?;
    let folders = folders_in(alloc, outs.as_slice())?;
    Ok(folders)
}

/// The directory outputs of each job.
pub(crate) fn all_folders(alloc: Global, jobs: &[Job]) -> Result<List<List<Folder>>, OutOfMemory>
    ensures { IfOk result (λ folders. folders ≡ map folders_placed jobs.now) }
{
    let mut found = List::new(alloc);
    for job in jobs {
        found.push(folders_of(alloc, job)?)?;
    }
    Ok(found)
}

fn first_over<'f>(folders: &'f [Folder], path: &PathText) -> Option<&'f Folder>
    ensures { option_map (λ folder. folder.now) result ≡ first_over path.now folders.now }
{
    for folder in folders {
        if path.is_under(&folder.path) {
            return Some(folder);
        }
    }
    None
}

/// The first directory output of the job with this number that has the path under it.
pub(crate) fn folder_in<'f>(
    folders: &'f [List<Folder>],
    number: Option<u32>,
    path: &PathText,
) -> Option<&'f Folder>
    ensures { option_map (λ folder. folder.now) result ≡ folder_in folders.now number path.now }
{
    let Some(number) = number else {
        return None;
    };
    match folders.get(number as usize) {
        Some(own) => first_over(own.as_slice(), path),
        None => None,
    }
}
