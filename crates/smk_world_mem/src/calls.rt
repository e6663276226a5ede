//! What each call adds to the log, and to the nodes that read.
ghost use Rattle.std.specs.Prelude.{◌≡◌, ◌++◌, ◌∷◌, [], true, false, IsErr, IfOk, OnOk, OnErr, ℕ, List as Items, None, Some, if◌then◌else◌, bytes_eq};
ghost use Rattle.smk_world.specs.declared.event.Node.TheVariants.{Regular};
ghost use Rattle.smk_base.specs.Path.{is_under, is_at_or_under};
ghost use Rattle.smk_world_nodes.specs.Nodes.{node_at, or_folder};
ghost use Rattle.smk_world.specs.declared.event.Call.{Call as CallValue};
ghost use Rattle.smk_world.specs.declared.event.Call.TheVariants.{Looked, ReadFile, ReadFolder, MadeParents, Written, Created, Removed, Settled, Protected};
ghost use Rattle.smk_world.specs.declared.event.Change.{Change as ChangeValue};
ghost use Rattle.std.specs.Option.{option_map};
ghost use Rattle.smk_world.specs.World.{protected};
ghost use Rattle.smk_world.specs.Calls.{found_of};
ghost use Rattle.smk_world.specs.Folders.{AreInFolders};
ghost use Rattle.smk_world_mem.specs.Adds.{Adds};
ghost use Rattle.smk_world_nodes.specs.declared.step.Step.TheVariants.{Happened};

use crate::answers::stat_answer;
use smk_base::{Bytes, List, OutOfMemory, Place};
use smk_world::{Call, Change, Event, Failed, Found, Listing, Node, Stat, WorkFault};
use smk_world_nodes::{Nodes, Step, listing_of, make_folders, new_file};
use std::alloc::Global;

// Ok, unless the call fails.
fn answer_unless(fails: bool) -> Result<(), Failed>
    ensures { IsErr result → fails ≡ true }
{
    if fails { Err(Failed) } else { Ok(()) }
}

pub fn add(steps: &mut List<Step>, call: Call, left: List<Change>) -> Result<(), OutOfMemory>
    ensures ok { OnOk result (steps.new ≡ steps.old ++ Happened (record { call = call; left = left }) ∷ []) }
    ensures lost { OnErr result (steps.new ≡ steps.old) }
{
    steps.push(Step::Happened(Event { call, left }))
}

// The same, if all nodes stand in folders now. Else the world can't be told on, as for want of memory.
pub fn add_standing(
    nodes: &Nodes,
    steps: &mut List<Step>,
    call: Call,
    left: List<Change>,
) -> Result<(), OutOfMemory>
    ensures ok { OnOk result (steps.new ≡ steps.old ++ Happened (record { call = call; left = left }) ∷ []) }
    ensures stand { OnOk result (AreInFolders (node_at nodes.now)) }
    ensures lost { OnErr result (steps.new ≡ steps.old) }
{
    if !nodes.are_in_folders() {
        return Err(OutOfMemory);
    }
    add(steps, call, left)
}

pub fn look(
    alloc: Global,
    nodes: &Nodes,
    steps: &mut List<Step>,
    p: &Place,
    fails: bool,
) -> Result<Result<Stat, Failed>, OutOfMemory>
    ensures adds { IfOk result (λ answer. Adds (Looked p.now answer) nodes.now nodes.now steps.old steps.new) }
    ensures err { IfOk result (λ answer. IsErr answer → fails ≡ true) }
    ensures lost { OnErr result (steps.new ≡ steps.old) }
{
    let answer = stat_answer(nodes, p, fails);
    add(
        steps,
        Call::Looked(p.copy(alloc)?, answer),
        List::new(alloc),
    )?;
    Ok(answer)
}

pub fn remove(
    alloc: Global,
    nodes: &mut Nodes,
    steps: &mut List<Step>,
    p: &Place,
    fails: bool,
) -> Result<Result<(), Failed>, OutOfMemory>
    ensures adds { IfOk result (λ answer. Adds (Removed p.now answer) nodes.old nodes.new steps.old steps.new) }
    ensures err { IfOk result (λ answer. IsErr answer → fails ≡ true) }
    ensures stand { OnOk result (AreInFolders (node_at nodes.new)) }
    ensures lost { OnErr result (steps.new ≡ steps.old) }
{
    let answer = answer_unless(fails);
    nodes.remove_tree(alloc, p.as_str())?;
    add_standing(
        nodes,
        steps,
        Call::Removed(p.copy(alloc)?, answer),
        List::new(alloc),
    )?;
    Ok(answer)
}

fn copy_all(alloc: Global, places: &List<Place>) -> Result<List<Place>, OutOfMemory>
    ensures { IfOk result (λ copy. copy ≡ places.now) }
{
    let mut copy = List::new(alloc);
    for place in places.as_slice() {
        copy.push(place.copy(alloc)?)?;
    }
    Ok(copy)
}

pub fn settle(
    alloc: Global,
    nodes: &Nodes,
    steps: &mut List<Step>,
    places: &List<Place>,
    fails: bool,
) -> Result<Result<(), Failed>, OutOfMemory>
    ensures adds { IfOk result (λ answer. Adds (Settled places.now answer) nodes.now nodes.now steps.old steps.new) }
    ensures err { IfOk result (λ answer. IsErr answer → fails ≡ true) }
    ensures lost { OnErr result (steps.new ≡ steps.old) }
{
    let answer = answer_unless(fails);
    add(
        steps,
        Call::Settled(copy_all(alloc, places)?, answer),
        List::new(alloc),
    )?;
    Ok(answer)
}

// Puts the node at the place, and lists it as the one that is left.
pub fn put(
    alloc: Global,
    nodes: &mut Nodes,
    p: &Place,
    bytes: &[u8],
    time: u64,
) -> Result<List<Change>, OutOfMemory>
    ensures left { IfOk result (λ left. left ≡ record { place = p.now; node = Regular bytes.now time false } ∷ []) }
    ensures nodes { OnOk result ((q : Items ℕ) → node_at nodes.new q ≡ (if bytes_eq q p.now then Some (Regular bytes.now time false) else node_at nodes.old q)) }
{
    let mut left = List::new(alloc);
    left.push(Change {
        place: p.copy(alloc)?,
        node: new_file(Bytes::of(alloc, bytes)?, time),
    })?;
    nodes.set(alloc, p.as_str(), new_file(Bytes::of(alloc, bytes)?, time))?;
    Ok(left)
}

pub fn write(
    alloc: Global,
    nodes: &mut Nodes,
    steps: &mut List<Step>,
    p: &Place,
    bytes: &[u8],
    time: u64,
    fails: bool,
) -> Result<Result<(), Failed>, OutOfMemory>
    ensures adds { IfOk result (λ answer. Adds (Written p.now bytes.now answer) nodes.old nodes.new steps.old steps.new) }
    ensures err { IfOk result (λ answer. IsErr answer → fails ≡ true) }
    ensures stand { OnOk result (AreInFolders (node_at nodes.new)) }
    ensures lost { OnErr result (steps.new ≡ steps.old) }
{
    if fails {
        nodes.drop_one(p.as_str());
        add_standing(
            nodes,
            steps,
            Call::Written(p.copy(alloc)?, Bytes::of(alloc, bytes)?, Err(Failed)),
            List::new(alloc),
        )?;
        return Ok(Err(Failed));
    }
    let left = put(alloc, nodes, p, bytes, time)?;
    add_standing(
        nodes,
        steps,
        Call::Written(p.copy(alloc)?, Bytes::of(alloc, bytes)?, Ok(())),
        left,
    )?;
    Ok(Ok(()))
}

pub fn create(
    alloc: Global,
    nodes: &mut Nodes,
    steps: &mut List<Step>,
    p: &Place,
    time: u64,
    fails: bool,
) -> Result<Result<bool, Failed>, OutOfMemory>
    ensures adds { IfOk result (λ answer. Adds (Created p.now answer) nodes.old nodes.new steps.old steps.new) }
    ensures err { IfOk result (λ answer. IsErr answer → fails ≡ true) }
    ensures stand { OnOk result (AreInFolders (node_at nodes.new)) }
    ensures lost { OnErr result (steps.new ≡ steps.old) }
{
    if fails {
        add_standing(
            nodes,
            steps,
            Call::Created(p.copy(alloc)?, Err(Failed)),
            List::new(alloc),
        )?;
        return Ok(Err(Failed));
    }
    if nodes.get(p.as_str()).is_some() {
        add_standing(
            nodes,
            steps,
            Call::Created(p.copy(alloc)?, Ok(false)),
            List::new(alloc),
        )?;
        return Ok(Ok(false));
    }
    let left = put(alloc, nodes, p, &[], time)?;
    add_standing(nodes, steps, Call::Created(p.copy(alloc)?, Ok(true)), left)?;
    Ok(Ok(true))
}

fn held_unless(alloc: Global, nodes: &Nodes, p: &Place, limit: u64) -> Result<Found, OutOfMemory>
    ensures { IfOk result (λ found. found ≡ found_of limit (node_at nodes.now p.now)) }
{
    match nodes.get(p.as_str()) {
        Some(Node::Regular { bytes, .. }) => {
            let len = bytes.as_slice().len() as u64;
            if len <= limit {
                Ok(Found::Held(bytes.copy(alloc)?))
            } else {
                Ok(Found::TooBig(len))
            }
        }
        _ => Ok(Found::Nothing),
    }
}

pub fn read(
    alloc: Global,
    nodes: &Nodes,
    steps: &mut List<Step>,
    p: &Place,
    limit: u64,
    fails: bool,
) -> Result<Result<Found, WorkFault>, OutOfMemory>
    ensures adds { IfOk result (λ answer. Adds (ReadFile p.now limit answer) nodes.now nodes.now steps.old steps.new) }
    ensures err { IfOk result (λ answer. IsErr answer → fails ≡ true) }
    ensures lost { OnErr result (steps.new ≡ steps.old) }
{
    if fails {
        add(
            steps,
            Call::ReadFile(p.copy(alloc)?, limit, Err(WorkFault::Failed)),
            List::new(alloc),
        )?;
        return Ok(Err(WorkFault::Failed));
    }
    let found = held_unless(alloc, nodes, p, limit)?;
    add(
        steps,
        Call::ReadFile(
            p.copy(alloc)?,
            limit,
            Ok(held_unless(alloc, nodes, p, limit)?),
        ),
        List::new(alloc),
    )?;
    Ok(Ok(found))
}

// The node at the place, read-only.
fn protected_copy(alloc: Global, nodes: &Nodes, p: &Place) -> Result<Option<Node>, OutOfMemory>
    ensures { IfOk result (λ node. node ≡ option_map protected (node_at nodes.now p.now)) }
{
    Ok(match nodes.get(p.as_str()) {
        Some(Node::Regular { bytes, time, .. }) => Some(Node::Regular {
            bytes: bytes.copy(alloc)?,
            time: *time,
            read_only: true,
        }),
        Some(Node::Directory) => Some(Node::Directory),
        None => None,
    })
}

fn protect_node(alloc: Global, nodes: &mut Nodes, p: &Place) -> Result<(), OutOfMemory>
    ensures { OnOk result ((q : Items ℕ) → node_at nodes.new q ≡ (if bytes_eq q p.now then option_map protected (node_at nodes.old p.now) else node_at nodes.old q)) }
{
    match protected_copy(alloc, nodes, p)? {
        Some(node) => nodes.set(alloc, p.as_str(), node),
        None => {
            nodes.drop_one(p.as_str());
            Ok(())
        }
    }
}

pub fn protect(
    alloc: Global,
    nodes: &mut Nodes,
    steps: &mut List<Step>,
    p: &Place,
    fails: bool,
) -> Result<Result<(), Failed>, OutOfMemory>
    ensures adds { IfOk result (λ answer. Adds (Protected p.now answer) nodes.old nodes.new steps.old steps.new) }
    ensures err { IfOk result (λ answer. IsErr answer → fails ≡ true) }
    ensures stand { OnOk result (AreInFolders (node_at nodes.new)) }
    ensures lost { OnErr result (steps.new ≡ steps.old) }
{
    if fails {
        nodes.drop_one(p.as_str());
        add_standing(
            nodes,
            steps,
            Call::Protected(p.copy(alloc)?, Err(Failed)),
            List::new(alloc),
        )?;
        return Ok(Err(Failed));
    }
    protect_node(alloc, nodes, p)?;
    add_standing(
        nodes,
        steps,
        Call::Protected(p.copy(alloc)?, Ok(())),
        List::new(alloc),
    )?;
    Ok(Ok(()))
}

pub fn list(
    alloc: Global,
    nodes: &Nodes,
    steps: &mut List<Step>,
    p: &Place,
    fails: bool,
) -> Result<Result<Listing, WorkFault>, OutOfMemory>
    ensures adds { IfOk result (λ answer. Adds (ReadFolder p.now answer) nodes.now nodes.now steps.old steps.new) }
    ensures err { IfOk result (λ answer. IsErr answer → fails ≡ true) }
    ensures lost { OnErr result (steps.new ≡ steps.old) }
{
    if fails {
        add(
            steps,
            Call::ReadFolder(p.copy(alloc)?, Err(WorkFault::Failed)),
            List::new(alloc),
        )?;
        return Ok(Err(WorkFault::Failed));
    }
    let found = listing_of(alloc, nodes, p)?;
    add(
        steps,
        Call::ReadFolder(p.copy(alloc)?, Ok(listing_of(alloc, nodes, p)?)),
        List::new(alloc),
    )?;
    Ok(Ok(found))
}

pub fn make_parents(
    alloc: Global,
    nodes: &mut Nodes,
    steps: &mut List<Step>,
    p: &Place,
    fails: bool,
) -> Result<Result<(), Failed>, OutOfMemory>
    ensures adds { IfOk result (λ answer. Adds (MadeParents p.now answer) nodes.old nodes.new steps.old steps.new) }
    ensures err { IfOk result (λ answer. IsErr answer → fails ≡ true) }
    ensures stand { OnOk result (AreInFolders (node_at nodes.new)) }
    ensures lost { OnErr result (steps.new ≡ steps.old) }
{
    if fails {
        add_standing(
            nodes,
            steps,
            Call::MadeParents(p.copy(alloc)?, Err(Failed)),
            List::new(alloc),
        )?;
        return Ok(Err(Failed));
    }
    let mut made = Vec::new(alloc);
    make_folders(alloc, nodes, p, &mut made)?;
    add_standing(
        nodes,
        steps,
        Call::MadeParents(p.copy(alloc)?, Ok(())),
        List::new(alloc),
    )?;
    Ok(Ok(()))
}
