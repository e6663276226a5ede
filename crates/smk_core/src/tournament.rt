//! Numbers in places of their own, the least of which is at hand.

ghost use Rattle.std.specs.Prelude.{◌≡◌, ◌+◌, ◌<◌, length, drop, replicate, slice_set, IfOk};
ghost use Rattle.smk_core.specs.declared.place.TheConstants.{NONE as none};
ghost use Rattle.smk_core.specs.Lines.{least, IsTree};

use crate::place::NONE;
use smk_base::OutOfMemory;
use std::alloc::Global;
use std::marker::Model;

/// Numbers in places, each of which has one or none. Contracts see the list of them.
#[derive(Drop)]
pub(crate) struct Tournament {
    places: usize,
    // From `places` on the numbers; below them, from 1 on, at each index the lesser of the nodes at its double and behind that.
    nodes: Vec<u32>,
}

impl Model for Tournament {
    ghost use Rattle.std.specs.Prelude.{ℕ, List, drop};
    ghost use Rattle.smk_core.specs.Lines.{IsTree};

    ghost Value = { List ℕ };

    ghost view = { λ t. drop t.places t.nodes.items };

    ghost invariant = { λ t. IsTree t.places t.nodes.items };
}

// Puts the number into the place, and the lesser of two into each node above it.
fn put(nodes: &mut Vec<u32>, places: usize, at: usize, number: u32)
    requires inside { at < places }
    requires tree { IsTree places nodes.old.items }
    ensures tree { IsTree places nodes.new.items }
    ensures leaves { drop places nodes.new.items ≡ slice_set (drop places nodes.old.items) at number }
{
    let mut node = places + at;
    nodes[node] = number;
    while node > 1 {
        node /= 2;
        nodes[node] = nodes[2 * node].min(nodes[2 * node + 1]);
    }
}

impl Tournament {
    /// So many places, none of which has a number. `OutOfMemory` where there is no memory for them.
    pub(crate) fn new(alloc: Global, places: usize) -> Result<Tournament, OutOfMemory>
        ensures { IfOk result (λ tournament. tournament ≡ replicate places none) }
    {
        let Some(count) = places.checked_mul(2) else {
            return Err(OutOfMemory);
        };
        let nodes = vec![in alloc; NONE; count]?;
        Ok(Tournament { places, nodes })
    }

    /// Puts the number into the place.
    pub(crate) fn set(&mut self, at: usize, number: u32)
        requires { at < length self.old }
        ensures { self.new ≡ slice_set self.old at number }
    {
        put(&mut self.nodes, self.places, at, number);
    }

    /// The least of the numbers.
    pub(crate) fn least(&self) -> u32
        ensures { result ≡ least self.now }
    {
        if self.places == 0 {
            NONE
        } else {
            self.nodes[1]
        }
    }
}
