//! Firm changes from outside, which are no calls of the device: files that are put, trees that are taken away.
ghost use Rattle.std.specs.Prelude.{◌≡◌, ◌++◌, ◌∷◌, [], ℕ, List as Items, None, Some, false, OnOk, OnErr, if◌then◌else◌, bytes_eq};
ghost use Rattle.smk_base.specs.Path.{is_under, is_at_or_under};
ghost use Rattle.smk_world.specs.declared.event.Node.TheVariants.{Regular};
ghost use Rattle.smk_world_nodes.specs.Nodes.{node_at, or_folder, is_listed};
ghost use Rattle.smk_world_nodes.specs.declared.step.Step.TheVariants.{Put, Gone};

use crate::{Nodes, Step, make_folders};
use smk_base::{Bytes, List, OutOfMemory, PathText, Place};
use smk_world::Node;
use std::alloc::Global;

/// A file that may be written.
pub fn new_file(bytes: Bytes, time: u64) -> Node
    ensures { result ≡ Regular bytes time false }
{
    Node::Regular {
        bytes,
        time,
        read_only: false,
    }
}

// Adds the step.
fn put_with(
    alloc: Global,
    nodes: &mut Nodes,
    steps: &mut List<Step>,
    p: &PathText,
    step: Step,
    node: Node,
) -> Result<(), OutOfMemory>
    ensures nodes { OnOk result ((q : Items ℕ) → node_at nodes.new q ≡ (if bytes_eq q p.now then Some node else node_at nodes.old q)) }
    ensures steps { OnOk result (steps.new ≡ steps.old ++ step ∷ []) }
    ensures lost { OnErr result (steps.new ≡ steps.old) }
    ensures kept { OnErr result ((q : Items ℕ) → node_at nodes.new q ≡ node_at nodes.old q) }
{
    steps.push(step)?;
    match nodes.set(alloc, p.as_str(), node) {
        Ok(()) => Ok(()),
        Err(fault) => {
            let _ = steps.pop();
            Err(fault)
        }
    }
}

// Puts the file and the folders above it, and lists the folders that were made.
fn put_under_folders(
    alloc: Global,
    nodes: &mut Nodes,
    steps: &mut List<Step>,
    p: &PathText,
    bytes: &[u8],
    time: u64,
    made: &mut Vec<String>,
) -> Result<(), OutOfMemory>
    ensures nodes { OnOk result ((q : Items ℕ) → node_at nodes.new q ≡ (if bytes_eq q p.now then Some (Regular bytes.now time false) else (if is_under p.now q then or_folder (node_at nodes.old q) else node_at nodes.old q))) }
    ensures steps { OnOk result (steps.new ≡ steps.old ++ Put p.now (Regular bytes.now time false) ∷ []) }
    ensures lost { OnErr result (steps.new ≡ steps.old) }
    ensures back { OnErr result ((q : Items ℕ) → (if is_listed q made.new.items then None else node_at nodes.new q) ≡ (if is_listed q made.old.items then None else node_at nodes.old q)) }
{
    let place = Place::user(alloc, p)?;
    let node = new_file(Bytes::of(alloc, bytes)?, time);
    let copy = new_file(Bytes::of(alloc, bytes)?, time);
    make_folders(alloc, nodes, &place, made)?;
    put_with(alloc, nodes, steps, p, Step::Put(place, copy), node)
}

/// Puts a firm file under firm folders. Want of memory leaves everything as it was.
pub fn put_firmly(
    alloc: Global,
    nodes: &mut Nodes,
    steps: &mut List<Step>,
    p: &PathText,
    bytes: &[u8],
    time: u64,
) -> Result<(), OutOfMemory>
    ensures nodes { OnOk result ((q : Items ℕ) → node_at nodes.new q ≡ (if bytes_eq q p.now then Some (Regular bytes.now time false) else (if is_under p.now q then or_folder (node_at nodes.old q) else node_at nodes.old q))) }
    ensures steps { OnOk result (steps.new ≡ steps.old ++ Put p.now (Regular bytes.now time false) ∷ []) }
    ensures lost { OnErr result (steps.new ≡ steps.old) }
    ensures kept { OnErr result ((q : Items ℕ) → node_at nodes.new q ≡ node_at nodes.old q) }
{
    let mut made = Vec::new(alloc);
    match put_under_folders(alloc, nodes, steps, p, bytes, time, &mut made) {
        Ok(()) => Ok(()),
        Err(fault) => {
            nodes.drop_all(made.as_slice());
            Err(fault)
        }
    }
}

/// Removes firmly what stands at the path and under it.
pub fn take_firmly(
    alloc: Global,
    nodes: &mut Nodes,
    steps: &mut List<Step>,
    p: &PathText,
) -> Result<(), OutOfMemory>
    ensures nodes { OnOk result ((q : Items ℕ) → node_at nodes.new q ≡ (if is_at_or_under q p.now then None else node_at nodes.old q)) }
    ensures steps { OnOk result (steps.new ≡ steps.old ++ Gone p.now ∷ []) }
    ensures lost { OnErr result (steps.new ≡ steps.old) }
    ensures kept { OnErr result ((q : Items ℕ) → node_at nodes.new q ≡ node_at nodes.old q) }
{
    let gone = Step::Gone(Place::user(alloc, p)?);
    let under = nodes.listed_under(alloc, p.as_str())?;
    steps.push(gone)?;
    nodes.drop_all(under.as_slice());
    nodes.drop_one(p.as_str());
    Ok(())
}
