//! What the start and the end of children add.
ghost use Rattle.std.specs.Prelude.{◌≡◌, ◌++◌, ◌∷◌, [], true, false, None, ℕ, List as Items, IsErr, IfOk, OnOk, OnErr, if◌then◌else◌, ◌≢◌, is_some};
ghost use Rattle.smk_world.specs.declared.event.Call.TheVariants.{Started, Waited};
ghost use Rattle.smk_world.specs.World.{children_after, is_within, standing, in_paths, owned_paths, child_numbered};
ghost use Rattle.smk_world.specs.Folders.{AreInFolders};
ghost use Rattle.smk_world_nodes.specs.Nodes.{node_at};
ghost use Rattle.smk_world_nodes.specs.Steps.{AllApart};
ghost use Rattle.smk_world_nodes.specs.declared.step.Step.TheVariants.{Happened};
ghost use Rattle.smk_world_mem.specs.Act.{bytes_of, joined_at, first_time, files_at, logs_of, left_of, left_by, or_then, EndsAs};
ghost use Rattle.smk_world_mem.specs.Adds.{AddsIf};

use crate::calls::{add, add_standing};
use crate::command::{
    Command, command_of, filled_of, has_log, status_of, text_of, time_with, written_of,
};
use crate::lines::push_folders;
use smk_base::{Bytes, Copied, List, OutOfMemory, PathText, Place, Text};
use smk_world::{Call, Change, Child, Ended, Failed, Node, Recipe};
use smk_world_crash::{copy_node, find, others, outputs};
use smk_world_nodes::{Nodes, Step, new_file};
use std::alloc::Global;

pub fn start(
    alloc: Global,
    steps: &mut List<Step>,
    children: &mut List<Child>,
    next: u64,
    recipe: &Recipe,
    logs: &List<PathText>,
    command: &str,
    fails: bool,
) -> Result<Result<u64, Failed>, OutOfMemory>
    ensures steps { IfOk result (λ answer. steps.new ≡ steps.old ++ Happened (record { call = Started recipe.now logs.now command.now answer; left = [] }) ∷ []) }
    ensures children { IfOk result (λ answer. children.new ≡ children_after (Started recipe.now logs.now command.now answer) children.old) }
    ensures number { IfOk result (λ answer. IfOk answer (λ n. n ≡ next)) }
    ensures went { IfOk result (λ answer. IfOk answer (λ _. fails ≡ false)) }
    ensures err { IfOk result (λ answer. IsErr answer → fails ≡ true) }
    ensures lost { OnErr result (steps.new ≡ steps.old) }
{
    if fails {
        add(
            steps,
            Call::Started(
                recipe.copied(alloc)?,
                logs.copied(alloc)?,
                Text::of(alloc, command)?,
                Err(Failed),
            ),
            List::new(alloc),
        )?;
        return Ok(Err(Failed));
    }
    children.push(Child {
        number: next,
        recipe: recipe.copied(alloc)?,
        logs: logs.copied(alloc)?,
    })?;
    add(
        steps,
        Call::Started(
            recipe.copied(alloc)?,
            logs.copied(alloc)?,
            Text::of(alloc, command)?,
            Ok(next),
        ),
        List::new(alloc),
    )?;
    Ok(Ok(next))
}

fn push_paths(
    alloc: Global,
    paths: &mut List<PathText>,
    more: &List<PathText>,
) -> Result<(), OutOfMemory>
    ensures { OnOk result (paths.new ≡ paths.old ++ more.now) }
{
    for path in more.as_slice() {
        paths.push(path.copied(alloc)?)?;
    }
    Ok(())
}

// The paths of the inputs.
fn inputs(alloc: Global, recipe: &Recipe) -> Result<List<PathText>, OutOfMemory>
    ensures { IfOk result (λ paths. paths ≡ in_paths recipe.now) }
{
    let mut paths = List::new(alloc);
    for item in recipe.inputs.as_slice() {
        push_paths(alloc, &mut paths, &item.paths)?;
    }
    Ok(paths)
}

fn bytes_there<'a>(nodes: &'a Nodes, path: &str) -> &'a [u8]
    ensures { result.now ≡ bytes_of (node_at nodes.now path.now) }
{
    match nodes.get(path) {
        Some(Node::Regular { bytes, .. }) => bytes.as_slice(),
        _ => &[],
    }
}

// The bytes of the files there, joined.
fn joined(alloc: Global, nodes: &Nodes, paths: &[PathText]) -> Result<Vec<u8>, OutOfMemory>
    ensures { IfOk result (λ bytes. bytes.items ≡ joined_at nodes.now paths.now) }
{
    let mut bytes = Vec::new(alloc);
    for path in paths {
        bytes.extend_from_slice(bytes_there(nodes, path.as_str()))?;
    }
    Ok(bytes)
}

// The time of the first of the files there.
fn first_time(nodes: &Nodes, paths: &[PathText]) -> Option<u64>
    ensures { result ≡ first_time nodes.now paths.now }
{
    match paths {
        [first, ..] => match nodes.get(first.as_str()) {
            Some(Node::Regular { time, .. }) => Some(*time),
            _ => None,
        },
        [] => None,
    }
}

// Lists the file at each of the paths.
fn list_each(
    alloc: Global,
    left: &mut List<Change>,
    paths: &[PathText],
    bytes: &[u8],
    time: u64,
) -> Result<(), OutOfMemory>
    ensures { OnOk result (left.new ≡ left.old ++ files_at paths.now bytes.now time) }
{
    for path in paths {
        left.push(Change {
            place: Place::user(alloc, path)?,
            node: new_file(Bytes::of(alloc, bytes)?, time),
        })?;
    }
    Ok(())
}

// The logs that the command makes.
fn logs_of<'a>(template: &str, logs: &'a [PathText]) -> &'a [PathText]
    ensures { result.now ≡ logs_of template.now logs.now }
{
    if has_log(template.as_bytes()) {
        logs
    } else {
        &[]
    }
}

// What the command leaves, of these bytes.
fn left_of(
    alloc: Global,
    command: Command,
    child: &Child,
    bytes: Vec<u8>,
    time: u64,
    now: u64,
) -> Result<List<Change>, OutOfMemory>
    ensures { IfOk result (λ left. left ≡ left_of command child.now.recipe child.now.logs bytes.items time now) }
{
    let outs = outputs(alloc, &child.recipe)?;
    let logs = logs_of(child.recipe.template.as_str(), child.logs.as_slice());
    let folders = filled_of(command, outs.as_slice());
    let files = written_of(command, outs.as_slice());
    let mut left = List::new(alloc);
    push_folders(alloc, &mut left, folders, bytes.as_slice(), now)?;
    let text = text_of(alloc, command, &child.recipe.params, bytes)?;
    list_each(alloc, &mut left, files, text.as_slice(), time)?;
    list_each(alloc, &mut left, logs, &[], now)?;
    Ok(left)
}

// Puts the node there, unless something is there.
fn put_missing(alloc: Global, nodes: &mut Nodes, change: &Change) -> Result<(), OutOfMemory>
    ensures { OnOk result ((q : Items ℕ) → node_at nodes.new q ≡ or_then (node_at nodes.old q) (standing (change.now ∷ []) q)) }
{
    if nodes.get(change.place.as_str()).is_none() {
        nodes.set(
            alloc,
            change.place.as_str(),
            copy_node(alloc, &change.node)?,
        )?;
    }
    Ok(())
}

// Puts each of them, unless something is there.
fn put_each(alloc: Global, nodes: &mut Nodes, left: &[Change]) -> Result<(), OutOfMemory>
    ensures { OnOk result ((q : Items ℕ) → node_at nodes.new q ≡ or_then (node_at nodes.old q) (standing left.now q)) }
{
    let mut rest = left;
    while let [change, more @ ..] = rest {
        put_missing(alloc, nodes, change)?;
        rest = more;
    }
    Ok(())
}

// Removes what the child owns.
fn remove_owned(alloc: Global, nodes: &mut Nodes, child: &Child) -> Result<(), OutOfMemory>
    ensures { OnOk result ((q : Items ℕ) → node_at nodes.new q ≡ (if is_within q (owned_paths child.now.recipe child.now.logs) then None else node_at nodes.old q)) }
{
    let outs = outputs(alloc, &child.recipe)?;
    nodes.remove_trees(alloc, outs.as_slice())?;
    nodes.remove_trees(alloc, child.logs.as_slice())?;
    Ok(())
}

// What the end of the child leaves.
fn end(
    alloc: Global,
    nodes: &mut Nodes,
    child: &Child,
    now: u64,
    killed: bool,
) -> Result<List<Change>, OutOfMemory>
    ensures left { IfOk result (λ left. left ≡ left_by killed child.now.recipe child.now.logs nodes.old now) }
    ensures nodes { IfOk result (λ left. (q : Items ℕ) → node_at nodes.new q ≡ (if is_within q (owned_paths child.now.recipe child.now.logs) then standing left q else node_at nodes.old q)) }
{
    let ins = inputs(alloc, &child.recipe)?;
    let command = command_of(child.recipe.template.as_str(), killed);
    let bytes = joined(alloc, nodes, ins.as_slice())?;
    let time = time_with(command, first_time(nodes, ins.as_slice()), now);
    let left = left_of(alloc, command, child, bytes, time, now)?;
    remove_owned(alloc, nodes, child)?;
    put_each(alloc, nodes, left.as_slice())?;
    Ok(left)
}

/// The child that ends next: the first in this order that runs, or else the one that was started first.
pub fn next_to_end(order: &List<u64>, children: &[Child]) -> u64
    ensures { children.now ≢ [] → is_some (child_numbered result children.now) ≡ true }
{
    for number in order.as_slice() {
        if find(children, *number).is_some() {
            return *number;
        }
    }
    match children {
        [first, ..] => first.number,
        [] => 0,
    }
}

// (Eight clauses: the answer is told by what ended and by what fails, each of which one call of the device asks alone.)
pub fn wait(
    alloc: Global,
    nodes: &mut Nodes,
    steps: &mut List<Step>,
    children: &mut List<Child>,
    number: u64,
    killed: bool,
    time: u64,
    fails: bool,
) -> Result<Result<Ended, Failed>, OutOfMemory>
    ensures adds { IfOk result (λ answer. AddsIf (λ w. (w.children ≡ children.old) × AllApart children.old) (Waited answer) nodes.old nodes.new steps.old steps.new) }
    ensures children { IfOk result (λ answer. children.new ≡ children_after (Waited answer) children.old) }
    ensures err { IfOk result (λ answer. IsErr answer → is_some (child_numbered number children.old) ≡ true → fails ≡ true) }
    ensures ends { IfOk result (λ answer. IfOk answer (λ ended. EndsAs killed ended (child_numbered ended.number children.old))) }
    ensures number { IfOk result (λ answer. IfOk answer (λ ended. ended.number ≡ number)) }
    ensures went { IfOk result (λ answer. IfOk answer (λ _. fails ≡ false)) }
    ensures stand { OnOk result (AreInFolders (node_at nodes.old) → AreInFolders (node_at nodes.new)) }
    ensures lost { OnErr result (steps.new ≡ steps.old) }
{
    match find(children.as_slice(), number) {
        Some(child) if !fails => {
            let left = end(alloc, nodes, child, time, killed)?;
            let ended = Ended {
                number,
                status: status_of(command_of(child.recipe.template.as_str(), killed)),
            };
            let rest = others(alloc, children, number)?;
            add_standing(nodes, steps, Call::Waited(Ok(ended)), left)?;
            *children = rest;
            Ok(Ok(ended))
        }
        _ => {
            add(steps, Call::Waited(Err(Failed)), List::new(alloc))?;
            Ok(Err(Failed))
        }
    }
}
