//! The states of places: what reads there, and what else a crash may leave.
ghost use Rattle.std.specs.Prelude.{◌≡◌, ◌++◌, ◌∷◌, [], None, Some, IfOk, OnOk, map, if◌then◌else◌};
ghost use Rattle.std.specs.Option.{option_map};
ghost use Rattle.smk_world.specs.World.{loose, going, firm, with_folder, with_flag, protected, reads_nothing, reads_folder, or_also, or_was, or_gone, or_protected};
ghost use Rattle.smk_world_nodes.specs.Steps.{now_there};

use smk_base::{List, OutOfMemory};
use smk_world::{Besides, Node, NodeState};
use std::alloc::Global;

/// A copy of the node.
pub fn copy_node(alloc: Global, node: &Node) -> Result<Node, OutOfMemory>
    ensures { IfOk result (λ copy. copy ≡ node.now) }
{
    match node {
        Node::Regular {
            bytes,
            time,
            read_only,
        } => Ok(Node::Regular {
            bytes: bytes.copy(alloc)?,
            time: *time,
            read_only: *read_only,
        }),
        Node::Directory => Ok(Node::Directory),
    }
}

/// A copy of the node, where there is one.
pub fn copy_maybe(alloc: Global, node: &Option<Node>) -> Result<Option<Node>, OutOfMemory>
    ensures { IfOk result (λ copy. copy ≡ node.now) }
{
    match node {
        Some(node) => Ok(Some(copy_node(alloc, node)?)),
        None => Ok(None),
    }
}

// Adds copies of the nodes.
fn push_all(
    alloc: Global,
    all: &mut List<Option<Node>>,
    more: &List<Option<Node>>,
) -> Result<(), OutOfMemory>
    ensures { OnOk result (all.new ≡ all.old ++ more.now) }
{
    for node in more.as_slice() {
        all.push(copy_maybe(alloc, node)?)?;
    }
    Ok(())
}

fn guarded(node: Node) -> Node
    ensures { result ≡ protected node }
{
    match node {
        Node::Regular { bytes, time, .. } => Node::Regular {
            bytes,
            time,
            read_only: true,
        },
        Node::Directory => Node::Directory,
    }
}

fn guarded_maybe(node: Option<Node>) -> Option<Node>
    ensures { result ≡ option_map protected node }
{
    match node {
        Some(node) => Some(guarded(node)),
        None => None,
    }
}

// Adds copies of the nodes with the flag on.
fn push_guarded(
    alloc: Global,
    all: &mut List<Option<Node>>,
    more: &List<Option<Node>>,
) -> Result<(), OutOfMemory>
    ensures { OnOk result (all.new ≡ all.old ++ map (option_map protected) more.now) }
{
    for node in more.as_slice() {
        all.push(guarded_maybe(copy_maybe(alloc, node)?))?;
    }
    Ok(())
}

// That node too, or nothing.
fn or_also(alloc: Global, node: Option<Node>, besides: Besides) -> Result<Besides, OutOfMemory>
    ensures { IfOk result (λ more. more ≡ or_also (node ∷ []) besides) }
{
    match besides {
        Besides::Anything => Ok(Besides::Anything),
        Besides::OneOf(nodes) => {
            let mut all = List::new(alloc);
            all.push(node)?;
            push_all(alloc, &mut all, &nodes)?;
            Ok(Besides::OneOf(all))
        }
    }
}

fn or_was(alloc: Global, node: Option<Node>, besides: Besides) -> Result<Besides, OutOfMemory>
    ensures { IfOk result (λ more. more ≡ or_was node besides) }
{
    match node {
        Some(node) => or_also(alloc, Some(node), besides),
        None => Ok(besides),
    }
}

fn or_gone(alloc: Global, node: &Option<Node>, besides: Besides) -> Result<Besides, OutOfMemory>
    ensures { IfOk result (λ more. more ≡ or_gone node.now besides) }
{
    match node {
        Some(_) => or_also(alloc, None, besides),
        None => Ok(besides),
    }
}

fn or_guarded(alloc: Global, besides: Besides) -> Result<Besides, OutOfMemory>
    ensures { IfOk result (λ more. more ≡ or_protected besides) }
{
    match besides {
        Besides::Anything => Ok(Besides::Anything),
        Besides::OneOf(nodes) => {
            let mut all = List::new(alloc);
            push_all(alloc, &mut all, &nodes)?;
            push_guarded(alloc, &mut all, &nodes)?;
            Ok(Besides::OneOf(all))
        }
    }
}

/// The node reads now, and a crash may leave anything.
pub fn loosened(node: Option<Node>, state: NodeState) -> NodeState
    ensures { result ≡ loose node state }
{
    match state {
        NodeState::Owned => NodeState::Owned,
        NodeState::Known(_, _) => NodeState::Known(node, Besides::Anything),
    }
}

/// The node reads now; what was there may come back, or be gone.
pub fn leaving(
    alloc: Global,
    node: Option<Node>,
    state: NodeState,
) -> Result<NodeState, OutOfMemory>
    ensures { IfOk result (λ later. later ≡ going node state) }
{
    match state {
        NodeState::Owned => Ok(NodeState::Owned),
        NodeState::Known(now, besides) => {
            let less = or_gone(alloc, &node, besides)?;
            let more = or_was(alloc, now, less)?;
            Ok(NodeState::Known(node, more))
        }
    }
}

/// What reads there is firm.
pub fn settled_there(alloc: Global, state: NodeState) -> NodeState
    ensures { result ≡ firm state }
{
    match state {
        NodeState::Owned => NodeState::Owned,
        NodeState::Known(now, _) => NodeState::Known(now, Besides::OneOf(List::new(alloc))),
    }
}

/// A folder is made there, unless something reads.
pub fn foldered(alloc: Global, state: NodeState) -> Result<NodeState, OutOfMemory>
    ensures { IfOk result (λ later. later ≡ with_folder state) }
{
    match state {
        NodeState::Owned => Ok(NodeState::Owned),
        NodeState::Known(now, besides) => match now {
            Some(node) => Ok(NodeState::Known(Some(node), besides)),
            None => {
                let more = or_also(alloc, None, besides)?;
                Ok(NodeState::Known(Some(Node::Directory), more))
            }
        },
    }
}

/// The flag of what reads there is on, and a crash may leave it off.
pub fn flagged(alloc: Global, state: NodeState) -> Result<NodeState, OutOfMemory>
    ensures { IfOk result (λ later. later ≡ with_flag state) }
{
    match state {
        NodeState::Owned => Ok(NodeState::Owned),
        NodeState::Known(now, besides) => {
            let more = or_guarded(alloc, besides)?;
            let old = copy_maybe(alloc, &now)?;
            let all = or_also(alloc, old, more)?;
            Ok(NodeState::Known(guarded_maybe(now), all))
        }
    }
}

/// The node stands there firmly, or nothing does.
pub fn placed(alloc: Global, node: Option<Node>, state: NodeState) -> NodeState
    ensures { result ≡ now_there node state }
{
    match state {
        NodeState::Owned => NodeState::Owned,
        NodeState::Known(_, _) => NodeState::Known(node, Besides::OneOf(List::new(alloc))),
    }
}

/// Whether nothing reads there for sure.
pub fn has_nothing(state: &NodeState) -> bool
    ensures { result ≡ reads_nothing state.now }
{
    matches!(state, NodeState::Known(None, _))
}

/// Whether a folder reads there.
pub fn has_folder(state: &NodeState) -> bool
    ensures { result ≡ reads_folder state.now }
{
    matches!(state, NodeState::Known(Some(Node::Directory), _))
}
