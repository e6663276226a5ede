//! What a crash leaves of a workspace, by a choice.
ghost use Rattle.std.specs.Prelude.{◌≡◌, ◌++◌, ℕ, List as Items, None, Some, true, codes, IfOk, OnOk, IfSome, if◌then◌else◌, bytes_eq};
ghost use Rattle.smk_world.specs.declared.event.Node.TheVariants.{Directory};
ghost use Rattle.smk_world.specs.World.{is_named, firmly, reading};
ghost use Rattle.smk_world_nodes.specs.Nodes.{node_at, is_folder_there};
ghost use Rattle.smk_world_crash.specs.Crash.{lesser, least_of, least, spoilt, first_node, or_back, mixed, left_at, left_by, state_by, put_there, puts, own_folders, own_steps, OnlyAt, LeadTo};

use crate::choice::Choice;
use crate::moves::state_of;
use crate::reaches::{all_reached, names_of, owned_by_all};
use crate::states::{copy_maybe, copy_node};
use smk_base::{Bytes, List, OutOfMemory, PathText, Place, Text};
use smk_world::{Besides, Child, Node, NodeState};
use smk_world_nodes::{Nodes, Step, new_file};
use std::alloc::Global;

// The one that is nearer to nothing.
fn lesser<'n>(n: &'n Option<Node>, m: &'n Option<Node>) -> &'n Option<Node>
    ensures { result.now ≡ lesser n.now m.now }
{
    match (n, m) {
        (None, _) => n,
        (Some(_), None) => m,
        (Some(Node::Regular { read_only, .. }), Some(_)) => { if *read_only { m } else { n } }
        (Some(Node::Directory), Some(_)) => n,
    }
}

fn least_of<'n>(now: &'n Option<Node>, others: &'n [Option<Node>]) -> &'n Option<Node>
    ensures { result.now ≡ least_of now.now others.now }
{
    let mut least = now;
    let mut rest = others;
    while let [other, more @ ..] = rest {
        least = lesser(least, other);
        rest = more;
    }
    least
}

fn least(alloc: Global, state: &NodeState) -> Result<Option<Node>, OutOfMemory>
    ensures { IfOk result (λ node. node ≡ least state.now) }
{
    match state {
        NodeState::Owned => Ok(None),
        NodeState::Known(_, Besides::Anything) => Ok(None),
        NodeState::Known(now, Besides::OneOf(others)) => {
            copy_maybe(alloc, least_of(now, others.as_slice()))
        }
    }
}

fn spoilt(alloc: Global, node: &Option<Node>) -> Result<Option<Node>, OutOfMemory>
    ensures { IfOk result (λ other. other ≡ spoilt node.now) }
{
    match node {
        None => Ok(None),
        Some(Node::Directory) => Ok(Some(Node::Directory)),
        Some(
            Node::Regular {
                time,
                read_only,
                ..
            },
        ) => Ok(Some(Node::Regular {
            bytes: Bytes::of(alloc, b"X")?,
            time: *time,
            read_only: *read_only,
        })),
    }
}

fn first_node(alloc: Global, nodes: &[Option<Node>]) -> Result<Option<Node>, OutOfMemory>
    ensures { IfOk result (λ node. node ≡ first_node nodes.now) }
{
    let mut rest = nodes;
    while let [node, more @ ..] = rest {
        if let Some(node) = node {
            return Ok(Some(copy_node(alloc, node)?));
        }
        rest = more;
    }
    Ok(None)
}

fn or_back(
    alloc: Global,
    now: &Option<Node>,
    others: &[Option<Node>],
) -> Result<Option<Node>, OutOfMemory>
    ensures { IfOk result (λ node. node ≡ or_back now.now others.now) }
{
    match now {
        Some(node) => Ok(Some(copy_node(alloc, node)?)),
        None => first_node(alloc, others),
    }
}

fn mixed(alloc: Global, writes: bool, state: &NodeState) -> Result<Option<Node>, OutOfMemory>
    ensures { IfOk result (λ node. node ≡ mixed writes state.now) }
{
    match state {
        NodeState::Owned => {
            if writes {
                Ok(Some(new_file(Bytes::of(alloc, b"X")?, 0)))
            } else {
                Ok(None)
            }
        }
        NodeState::Known(now, Besides::Anything) => spoilt(alloc, now),
        NodeState::Known(now, Besides::OneOf(others)) => or_back(alloc, now, others.as_slice()),
    }
}

fn as_it_reads(alloc: Global, state: &NodeState) -> Result<Option<Node>, OutOfMemory>
    ensures { IfOk result (λ node. node ≡ reading state.now) }
{
    match state {
        NodeState::Owned => Ok(None),
        NodeState::Known(now, _) => copy_maybe(alloc, now),
    }
}

// What a crash leaves at a place of this state.
fn left_at(
    alloc: Global,
    choice: Choice,
    writes: bool,
    state: &NodeState,
) -> Result<Option<Node>, OutOfMemory>
    ensures { IfOk result (λ node. node ≡ left_at choice writes state.now) }
{
    match choice {
        Choice::Least => least(alloc, state),
        Choice::Reading => as_it_reads(alloc, state),
        Choice::Mixed => mixed(alloc, writes, state),
    }
}

// Whether the text is one of the places.
fn is_place(places: &[Place], text: &str) -> bool
    ensures { result ≡ is_named text.now places.now }
{
    let mut rest = places;
    while let [place, more @ ..] = rest {
        if text == place.as_str() {
            return true;
        }
        rest = more;
    }
    false
}

// Has the node there, or nothing.
fn set_maybe(
    alloc: Global,
    nodes: &mut Nodes,
    text: &str,
    node: Option<Node>,
) -> Result<(), OutOfMemory>
    ensures { OnOk result ((q : Items ℕ) → node_at nodes.new q ≡ (if bytes_eq q text.now then node else node_at nodes.old q)) }
{
    match node {
        Some(node) => nodes.set(alloc, text, node),
        None => {
            nodes.drop_one(text);
            Ok(())
        }
    }
}

// What a crash leaves at the place, which is among those that children own, or isn't.
fn left_of(
    alloc: Global,
    choice: Choice,
    owned: &[Place],
    steps: &[Step],
    reaches: &[List<Place>],
    text: &str,
) -> Result<Option<Node>, OutOfMemory>
    ensures { IfOk result (λ node. node ≡ left_at choice (is_named text.now owned.now) (state_by text.now (firmly None) steps.now reaches.now)) }
{
    let state = state_of(alloc, steps, reaches, text.as_bytes())?;
    left_at(alloc, choice, is_place(owned, text), &state)
}

// What a crash leaves at these places.
fn image(
    alloc: Global,
    choice: Choice,
    owned: &[Place],
    steps: &[Step],
    reaches: &[List<Place>],
    names: &[Text],
) -> Result<Nodes, OutOfMemory>
    ensures { IfOk result (λ nodes. (q : Items ℕ) → node_at nodes q
        ≡ (if is_named q names.now then left_at choice (is_named q owned.now) (state_by q (firmly None) steps.now reaches.now) else None)) }
{
    let mut nodes = Nodes::new(alloc);
    for name in names {
        let node = left_of(alloc, choice, owned, steps, reaches, name.as_str())?;
        set_maybe(alloc, &mut nodes, name.as_str(), node)?;
    }
    Ok(nodes)
}

// The place, if that is its text.
fn place_if(place: Place, text: &str) -> Option<Place>
    ensures { IfSome result (λ place. place ≡ text.now) }
{
    if place.as_str() == text {
        Some(place)
    } else {
        None
    }
}

// The place of this name in a folder of the engine's own, where the text says so.
fn place_in(
    alloc: Global,
    folder: Place,
    front: &str,
    text: &str,
) -> Result<Option<Place>, OutOfMemory>
    ensures { IfOk result (λ place. IfSome place (λ place. place ≡ text.now)) }
{
    match text.strip_prefix(front) {
        Some(name) => Ok(place_if(folder.within(alloc, name)?, text)),
        None => Ok(place_if(folder, text)),
    }
}

// The first of the places, or what comes after it.
fn engine_place(alloc: Global, text: &str) -> Result<Option<Place>, OutOfMemory>
    ensures { IfOk result (λ place. IfSome place (λ place. place ≡ text.now)) }
{
    let records = place_in(
        alloc,
        Place::records(alloc)?,
        ".snakemake/smk/records/",
        text,
    )?;
    if records.is_some() {
        return Ok(records);
    }
    let marks = place_in(alloc, Place::marks(alloc)?, ".snakemake/smk/marks/", text)?;
    if marks.is_some() {
        return Ok(marks);
    }
    let notes = place_in(alloc, Place::notes(alloc)?, ".snakemake/smk/logs/", text)?;
    if notes.is_some() {
        return Ok(notes);
    }
    Ok(place_if(Place::lock(alloc)?, text))
}

// The place with this text, where it is a user's path or one of the engine's places.
fn place_of(alloc: Global, text: &str) -> Result<Option<Place>, OutOfMemory>
    ensures { IfOk result (λ place. IfSome place (λ place. place ≡ text.now)) }
{
    match PathText::read(alloc, text) {
        Ok(path) => Ok(Some(Place::user(alloc, &path)?)),
        Err(_) => engine_place(alloc, text),
    }
}

fn is_folder(nodes: &Nodes, text: &str) -> bool
    ensures { result ≡ is_folder_there (node_at nodes.now text.now) }
{
    matches!(nodes.get(text), Some(Node::Directory))
}

fn is_own_folder(text: &str) -> bool
    ensures { result ≡ is_named text.now own_folders }
{
    text == ".snakemake" || text == ".snakemake/smk"
}

// The steps that make the two folders over the lock, where they are to be made.
fn own_steps(alloc: Global, own: bool) -> Result<List<Step>, OutOfMemory>
    ensures { IfOk result (λ steps. steps ≡ own_steps own) }
{
    let mut steps = List::new(alloc);
    if own {
        let file = new_file(Bytes::of(alloc, &[])?, 0);
        steps.push(Step::Put(Place::lock(alloc)?, file))?;
        steps.push(Step::Gone(Place::lock(alloc)?))?;
    }
    Ok(steps)
}

// Puts what the nodes have at the place; false where the place has no step.
fn put_one(
    alloc: Global,
    own: bool,
    nodes: &Nodes,
    text: &str,
    steps: &mut List<Step>,
) -> Result<bool, OutOfMemory>
    ensures { IfOk result (λ done. done ≡ true → steps.new ≡ steps.old ++ put_there own text.now (node_at nodes.now text.now)) }
{
    let Some(node) = nodes.get(text) else {
        return Ok(true);
    };
    if own && is_own_folder(text) {
        return Ok(true);
    }
    match place_of(alloc, text)? {
        Some(place) => {
            steps.push(Step::Put(place, copy_node(alloc, node)?))?;
            Ok(true)
        }
        None => Ok(false),
    }
}

// Puts what the nodes have at each of the places; false where one of them has no step.
fn put_all(
    alloc: Global,
    own: bool,
    nodes: &Nodes,
    names: &[Text],
    steps: &mut List<Step>,
) -> Result<bool, OutOfMemory>
    ensures { IfOk result (λ done. done ≡ true → steps.new ≡ steps.old ++ puts own nodes.now names.now) }
{
    let mut rest = names;
    while let [name, more @ ..] = rest {
        if !put_one(alloc, own, nodes, name.as_str(), steps)? {
            return Ok(false);
        }
        rest = more;
    }
    Ok(true)
}

/// What a crash leaves.
#[derive(Drop)]
pub struct Remains {
    pub nodes: Nodes,
    /// The steps that lead to these nodes.
    pub steps: List<Step>,
    /// Whether they do.
    pub whole: bool,
}

// Whether both folders over the lock are there.
#[tactic(auto, using(crate::proofs::Gathered::folder_there))]
fn has_own(nodes: &Nodes) -> bool
    ensures own { result ≡ true → node_at nodes.now (codes ".snakemake") ≡ Some Directory }
    ensures engine { result ≡ true → node_at nodes.now (codes ".snakemake/smk") ≡ Some Directory }
{
    is_folder(nodes, ".snakemake") && is_folder(nodes, ".snakemake/smk")
}

// Steps that lead to the nodes, all of which stand at these places; they don't where the nodes stand in no folders.
fn led_to(alloc: Global, nodes: Nodes, names: &[Text]) -> Result<Remains, OutOfMemory>
    ensures nodes { IfOk result (λ left. left.nodes ≡ nodes) }
    ensures steps { IfOk result (λ left. left.whole ≡ true → OnlyAt names.now nodes → LeadTo left.steps nodes) }
{
    if !nodes.are_in_folders() {
        return Ok(Remains {
            nodes,
            steps: List::new(alloc),
            whole: false,
        });
    }
    let own = has_own(&nodes);
    let mut steps = own_steps(alloc, own)?;
    let whole = put_all(alloc, own, &nodes, names, &mut steps)?;
    Ok(Remains {
        nodes,
        steps,
        whole,
    })
}

// What a crash leaves at these places, and steps that lead to it.
fn remains_at(
    alloc: Global,
    choice: Choice,
    owned: &[Place],
    steps: &[Step],
    reaches: &[List<Place>],
    names: &[Text],
) -> Result<Remains, OutOfMemory>
    ensures nodes { IfOk result (λ left. (q : Items ℕ) → node_at left.nodes q
        ≡ (if is_named q names.now then left_at choice (is_named q owned.now) (state_by q (firmly None) steps.now reaches.now) else None)) }
    ensures steps { IfOk result (λ left. left.whole ≡ true → LeadTo left.steps left.nodes) }
{
    let nodes = image(alloc, choice, owned, steps, reaches, names)?;
    let remains = led_to(alloc, nodes, names)?;
    Ok(remains)
}

/// What a crash leaves after the steps, after which these children run.
pub fn left(
    alloc: Global,
    choice: Choice,
    children: &[Child],
    steps: &[Step],
) -> Result<Remains, OutOfMemory>
    ensures nodes { IfOk result (λ left. (q : Items ℕ) → node_at left.nodes q ≡ left_by choice children.now steps.now q) }
    ensures steps { IfOk result (λ left. left.whole ≡ true → LeadTo left.steps left.nodes) }
{
    let owned = owned_by_all(alloc, children)?;
    let names = names_of(alloc, owned.as_slice(), steps)?;
    let reaches = all_reached(alloc, steps)?;
    let remains = remains_at(
        alloc,
        choice,
        owned.as_slice(),
        steps,
        reaches.as_slice(),
        names.as_slice(),
    )?;
    Ok(remains)
}
