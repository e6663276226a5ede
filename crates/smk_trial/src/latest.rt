//! The latest time that a file has had.

ghost use Rattle.std.specs.Prelude.{◌≡◌};
ghost use Rattle.smk_trial.specs.Editing as spec;

use smk_world::{Change, Event, Node};
use smk_world_nodes::Step;

// The time of a file, or 0.
fn time_of(node: &Node) -> u64
    ensures { result ≡ spec.time_of node.now }
{
    match node {
        Node::Regular { time, .. } => *time,
        Node::Directory => 0,
    }
}

// The latest time of these files, or 0.
fn latest_of(left: &[Change]) -> u64
    ensures { result ≡ spec.latest_of left.now }
{
    let mut latest = 0u64;
    for change in left {
        latest = latest.max(time_of(&change.node));
    }
    latest
}

// The latest time of the files that the event left, or 0.
fn latest_left(event: &Event) -> u64
    ensures { result ≡ spec.latest_of event.now.left }
{
    latest_of(event.left.as_slice())
}

// The latest time of the files that the step put or left, or 0.
fn latest_at(step: &Step) -> u64
    ensures { result ≡ spec.latest_at step.now }
{
    match step {
        Step::Happened(event) => latest_left(event),
        Step::Put(_, node) => time_of(node),
        Step::Gone(_) => 0,
    }
}

/// The latest time of the files that the steps put or left, or 0 where there are none.
pub fn latest_in(steps: &[Step]) -> u64
    ensures { result ≡ spec.latest_in steps.now }
{
    let mut latest = 0u64;
    for step in steps {
        latest = latest.max(latest_at(step));
    }
    latest
}
