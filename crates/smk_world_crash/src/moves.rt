//! The state of a place, step by step.
ghost use Rattle.std.specs.Prelude.{◌≡◌, IfOk, None, Some, is_some, if◌then◌else◌, bytes_eq};
ghost use Rattle.smk_base.specs.Path.{is_under, is_at_or_under};
ghost use Rattle.smk_world.specs.World.{standing, is_within, is_above, loose, going, firm, firmly, with_folder, with_flag, settled};
ghost use Rattle.smk_world.specs.declared.event.NodeState.TheVariants.{Owned, Known};
ghost use Rattle.smk_world.specs.declared.event.Besides.TheVariants.{Anything};
ghost use Rattle.smk_world_nodes.specs.Steps.{now_there};
ghost use Rattle.smk_world_crash.specs.Crash.{moved_by, moved, state_by};

use crate::states::{
    copy_node, flagged, foldered, has_folder, has_nothing, leaving, loosened, placed, settled_there,
};
use smk_base::{List, OutOfMemory, Place};
use smk_world::{Besides, Call, Change, Event, Node, NodeState};
use smk_world_nodes::Step;
use std::alloc::Global;

// Whether the folder is one of the proper folders above the text.
fn lies_under(text: &[u8], folder: &[u8]) -> bool
    ensures { result ≡ is_under text.now folder.now }
{
    let mut rest = text;
    let mut front = folder;
    while let [f, more @ ..] = front {
        match rest {
            [b, after @ ..] if *b == *f => {
                rest = after;
                front = more;
            }
            _ => return false,
        }
    }
    matches!(rest, [b'/', ..])
}

// Whether the place is the folder, or lies under it.
fn lies_within(text: &[u8], folder: &[u8]) -> bool
    ensures { result ≡ is_at_or_under text.now folder.now }
{
    text == folder || lies_under(text, folder)
}

// Whether the place is one of these, or lies under one.
fn is_within_any(text: &[u8], places: &[Place]) -> bool
    ensures { result ≡ is_within text.now places.now }
{
    let mut rest = places;
    while let [place, more @ ..] = rest {
        if lies_within(text, place.as_str().as_bytes()) {
            return true;
        }
        rest = more;
    }
    false
}

// Whether the place is a folder above one of these.
fn is_above_any(text: &[u8], places: &[Place]) -> bool
    ensures { result ≡ is_above text.now places.now }
{
    let mut rest = places;
    while let [place, more @ ..] = rest {
        if lies_under(place.as_str().as_bytes(), text) {
            return true;
        }
        rest = more;
    }
    false
}

// What the list has at the place.
fn node_left(alloc: Global, left: &[Change], text: &[u8]) -> Result<Option<Node>, OutOfMemory>
    ensures { IfOk result (λ node. node ≡ standing left.now text.now) }
{
    let mut rest = left;
    while let [change, more @ ..] = rest {
        if change.place.as_str().as_bytes() == text {
            return Ok(Some(copy_node(alloc, &change.node)?));
        }
        rest = more;
    }
    Ok(None)
}

// What is left is loose, where the call is of this place.
fn loose_if(
    alloc: Global,
    here: bool,
    left: &List<Change>,
    text: &[u8],
    state: NodeState,
) -> Result<NodeState, OutOfMemory>
    ensures { IfOk result (λ later. later ≡ (if here then loose (standing left.now text.now) state else state)) }
{
    if here {
        Ok(loosened(node_left(alloc, left.as_slice(), text)?, state))
    } else {
        Ok(state)
    }
}

// What stood there goes, where the call is of this place.
fn going_if(
    alloc: Global,
    here: bool,
    left: &List<Change>,
    text: &[u8],
    state: NodeState,
) -> Result<NodeState, OutOfMemory>
    ensures { IfOk result (λ later. later ≡ (if here then going (standing left.now text.now) state else state)) }
{
    if here {
        let node = node_left(alloc, left.as_slice(), text)?;
        leaving(alloc, node, state)
    } else {
        Ok(state)
    }
}

fn folder_if(alloc: Global, here: bool, state: NodeState) -> Result<NodeState, OutOfMemory>
    ensures { IfOk result (λ later. later ≡ (if here then with_folder state else state)) }
{
    if here {
        foldered(alloc, state)
    } else {
        Ok(state)
    }
}

fn flag_if(alloc: Global, here: bool, state: NodeState) -> Result<NodeState, OutOfMemory>
    ensures { IfOk result (λ later. later ≡ (if here then with_flag state else state)) }
{
    if here {
        flagged(alloc, state)
    } else {
        Ok(state)
    }
}

fn settled_by(alloc: Global, places: &[Place], text: &[u8], state: NodeState) -> NodeState
    ensures { result ≡ settled places.now text.now state }
{
    if is_within_any(text, places) || (is_above_any(text, places) && has_folder(&state)) {
        settled_there(alloc, state)
    } else {
        state
    }
}

fn owned_if(here: bool, state: NodeState) -> NodeState
    ensures { result ≡ (if here then Owned else state) }
{
    if here { NodeState::Owned } else { state }
}

// What a child leaves, where it owned the place.
fn given_back_if(
    alloc: Global,
    here: bool,
    left: &List<Change>,
    text: &[u8],
    state: NodeState,
) -> Result<NodeState, OutOfMemory>
    ensures { IfOk result (λ later. later ≡ (if here then Known (standing left.now text.now) Anything else state)) }
{
    if here {
        Ok(NodeState::Known(node_left(alloc, left.as_slice(), text)?, Besides::Anything))
    } else {
        Ok(state)
    }
}

// The state after a call that protects the place, or fails to.
fn protected_by(
    alloc: Global,
    here: bool,
    fails: bool,
    left: &List<Change>,
    text: &[u8],
    state: NodeState,
) -> Result<NodeState, OutOfMemory>
    ensures { IfOk result (λ later. later ≡ (if fails then (if here then going (standing left.now text.now) (with_flag state) else state) else (if here then with_flag state else state))) }
{
    let with = flag_if(alloc, here, state)?;
    going_if(alloc, here && fails, left, text, with)
}

// Whether the list has a node at the place.
fn is_left(alloc: Global, left: &List<Change>, text: &[u8]) -> Result<bool, OutOfMemory>
    ensures { IfOk result (λ there. there ≡ is_some (standing left.now text.now)) }
{
    Ok(node_left(alloc, left.as_slice(), text)?.is_some())
}

// The state of the place after the call, which reaches these places.
fn after_call(
    alloc: Global,
    event: &Event,
    reached: &[Place],
    text: &[u8],
    state: NodeState,
) -> Result<NodeState, OutOfMemory>
    ensures { IfOk result (λ later. later ≡ moved_by event.now.call event.now.left reached.now text.now state) }
{
    let left = &event.left;
    match &event.call {
        Call::Looked(_, _) => Ok(state),
        Call::ReadFile(_, _, _) => Ok(state),
        Call::ReadFolder(_, _) => Ok(state),
        Call::Written(p, _, _) => {
            loose_if(alloc, text == p.as_str().as_bytes(), left, text, state)
        }
        Call::Created(p, Ok(made)) => loose_if(
            alloc,
            *made && text == p.as_str().as_bytes(),
            left,
            text,
            state,
        ),
        Call::Created(p, Err(_)) => {
            let here = has_nothing(&state) && text == p.as_str().as_bytes();
            loose_if(alloc, here, left, text, state)
        }
        Call::Removed(p, _) => going_if(
            alloc,
            lies_within(text, p.as_str().as_bytes()),
            left,
            text,
            state,
        ),
        Call::MadeParents(p, Ok(_)) => {
            folder_if(alloc, lies_under(p.as_str().as_bytes(), text), state)
        }
        Call::MadeParents(p, Err(_)) => {
            let there = is_left(alloc, left, text)?;
            folder_if(
                alloc,
                there && lies_under(p.as_str().as_bytes(), text),
                state,
            )
        }
        Call::Settled(places, Ok(_)) => Ok(settled_by(alloc, places.as_slice(), text, state)),
        Call::Settled(_, Err(_)) => Ok(state),
        Call::Protected(p, Ok(_)) => {
            protected_by(
                alloc,
                text == p.as_str().as_bytes(),
                false,
                left,
                text,
                state,
            )
        }
        Call::Protected(p, Err(_)) => {
            protected_by(
                alloc,
                text == p.as_str().as_bytes(),
                true,
                left,
                text,
                state,
            )
        }
        Call::Started(_, _, _, Ok(_)) => Ok(owned_if(is_within_any(text, reached), state)),
        Call::Started(_, _, _, Err(_)) => Ok(state),
        Call::Waited(Ok(_)) => {
            given_back_if(alloc, is_within_any(text, reached), left, text, state)
        }
        Call::Waited(Err(_)) => Ok(state),
    }
}

// The state of the place after a file or folder was put there firmly, or under it.
fn after_put(
    alloc: Global,
    p: &Place,
    node: &Node,
    text: &[u8],
    state: NodeState,
) -> Result<NodeState, OutOfMemory>
    ensures { IfOk result (λ later. later ≡ (if bytes_eq text.now p.now then now_there (Some node.now) state else (if is_under p.now text.now then firm (with_folder state) else state))) }
{
    if text == p.as_str().as_bytes() {
        let copy = copy_node(alloc, node)?;
        return Ok(placed(alloc, Some(copy), state));
    }
    if lies_under(p.as_str().as_bytes(), text) {
        let more = foldered(alloc, state)?;
        return Ok(settled_there(alloc, more));
    }
    Ok(state)
}

// The state of the place after the step, which reaches these places.
fn after_step(
    alloc: Global,
    step: &Step,
    reached: &[Place],
    text: &[u8],
    state: NodeState,
) -> Result<NodeState, OutOfMemory>
    ensures { IfOk result (λ later. later ≡ moved step.now reached.now text.now state) }
{
    match step {
        Step::Happened(event) => after_call(alloc, event, reached, text, state),
        Step::Put(p, node) => after_put(alloc, p, node, text, state),
        Step::Gone(p) => {
            if lies_within(text, p.as_str().as_bytes()) {
                Ok(placed(alloc, None, state))
            } else {
                Ok(state)
            }
        }
    }
}

/// The state of the place, which has held nothing, after the steps, which reach these places.
pub fn state_of(
    alloc: Global,
    steps: &[Step],
    reached: &[List<Place>],
    text: &[u8],
) -> Result<NodeState, OutOfMemory>
    ensures { IfOk result (λ state. state ≡ state_by text.now (firmly None) steps.now reached.now) }
{
    let mut state = NodeState::Known(None, Besides::OneOf(List::new(alloc)));
    let mut rest = steps;
    let mut reaches = reached;
    while let [step, more @ ..] = rest {
        let [here, later @ ..] = reaches else {
            return Ok(state);
        };
        state = after_step(alloc, step, here.as_slice(), text, state)?;
        rest = more;
        reaches = later;
    }
    Ok(state)
}
