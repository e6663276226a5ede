//! What the calls answer, and what they add to the log.
ghost use Rattle.std.specs.Prelude.{◌≡◌, ◌+◌, ◌<◌, ◌≤◌, ◌⊎◌, true, false, IsErr, IfOk, if◌then◌else◌};
ghost use Rattle.smk_world.specs.Calls.{stat_of, Rose};
ghost use Rattle.smk_world_nodes.specs.Nodes.{node_at};
ghost use Rattle.smk_world_mem.specs.Setup.{fails_at};

use smk_base::{List, Place};
use smk_world::{Failed, Node, Stat};
use smk_world_nodes::Nodes;

/// One more where the call fails.
pub fn bumped(faults: u64, fails: bool) -> u64
    ensures later { faults ≤ result }
    ensures bound { result ≤ faults + (if fails then 1 else 0) }
    ensures rose { fails ≡ true → Rose faults result }
    ensures same { fails ≡ false → result ≡ faults }
{
    if fails {
        faults.saturating_add(1)
    } else {
        faults
    }
}

/// Whether the call of this number fails.
pub fn is_failing(number: u64, failing: &List<u64>, stop_after: Option<u64>) -> bool
    ensures { result ≡ fails_at failing.now stop_after number }
{
    let stopped = match stop_after {
        Some(last) => last < number,
        None => false,
    };
    stopped || failing.as_slice().contains(&number)
}

pub fn stat_answer(nodes: &Nodes, p: &Place, fails: bool) -> Result<Stat, Failed>
    ensures value { IfOk result (λ s. s ≡ stat_of (node_at nodes.now p.now)) }
    ensures err { IsErr result → fails ≡ true }
{
    if fails {
        return Err(Failed);
    }
    Ok(match nodes.get(p.as_str()) {
        None => Stat::Nothing,
        Some(Node::Directory) => Stat::Folder,
        Some(
            Node::Regular {
                time,
                read_only,
                ..
            },
        ) => Stat::File {
            time: *time,
            read_only: *read_only,
        },
    })
}
