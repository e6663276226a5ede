//! Which jobs are started now.

ghost use Rattle.std.specs.Prelude.{◌≡◌, ◌++◌, ◌∷◌, [], ℕ, List as Items, IfOk, OnOk, option_map, slice_get};
ghost use Rattle.std.specs.List.Sorted.{IsPermutation, IsSortedBy};
ghost use Rattle.smk_base.specs.declared.tree.Amount.{Amount as Bound};
ghost use Rattle.smk_pick.specs.declared.room.Ask.{Ask as Asked};
ghost use Rattle.smk_pick.specs.Shares.{Holds};
ghost use Rattle.smk_pick.specs.Picks.{Rank, ranks_from, comes_first, starts, Starts};

use crate::{Ask, Room};
use smk_base::{List, OutOfMemory};
use std::alloc::Global;

// The jobs by their priority, turned round, and their number: those with lower ranks are considered first.
fn ranks_of(alloc: Global, asks: &[Ask]) -> Result<Vec<(u64, u32)>, OutOfMemory>
    ensures { IfOk result (λ ranks. ranks.items ≡ ranks_from 0 asks.now) }
{
    let mut ranks = Vec::new(alloc);
    for (i, ask) in asks.iter().enumerate() {
        let Ok(number) = u32::try_from(i) else {
            return Err(OutOfMemory);
        };
        ranks.push((u64::MAX - ask.priority, number))?;
    }
    Ok(ranks)
}

// The ranks in order.
fn sorted(alloc: Global, asks: &[Ask]) -> Result<Vec<(u64, u32)>, OutOfMemory>
    ensures each { IfOk result (λ ranks. IsPermutation (ranks_from 0 asks.now) ranks.items) }
    ensures order { IfOk result (λ ranks. IsSortedBy comes_first ranks.items) }
{
    let mut ranks = ranks_of(alloc, asks)?;
    ranks.sort()?;
    Ok(ranks)
}

// What the job with this number asks for.
fn ask_at(asks: &[Ask], number: u32) -> Option<&Ask>
    ensures { option_map (λ a. a.now) result ≡ slice_get asks.now number }
{
    asks.get(number as usize)
}

// Starts the job where it fits.
fn start(left: &mut Room, picked: &mut List<u32>, ask: &Ask, number: u32) -> Result<(), OutOfMemory>
    ensures { OnOk result ((cores : ℕ) → (bounds : Items Bound) → Starts cores bounds left.old left.new picked.old picked.new ask.now number) }
{
    if !left.fits(ask) {
        return Ok(());
    }
    picked.push(number)?;
    left.take(ask);
    Ok(())
}

// Starts the jobs of these ranks that fit, one after another.
fn start_all(
    alloc: Global,
    left: &mut Room,
    asks: &[Ask],
    ranks: &[(u64, u32)],
) -> Result<List<u32>, OutOfMemory>
    ensures { IfOk result (λ picked. (cores : ℕ) → (bounds : Items Bound) → (taken : Items Asked) → Holds cores bounds left.old taken
        → picked ≡ starts cores bounds asks.now taken ranks.now) }
{
    let mut picked = List::new(alloc);
    for rank in ranks {
        let Some(ask) = ask_at(asks, rank.1) else {
            continue;
        };
        start(left, &mut picked, ask, rank.1)?;
    }
    Ok(picked)
}

/// The jobs that are started in the room, by their numbers from 0, in the order in which they are started: they are considered by
/// priority, greater first, and then in their order, and each that fits is started.
pub fn pick(alloc: Global, asks: &List<Ask>, room: &Room) -> Result<List<u32>, OutOfMemory>
    ensures { IfOk result (λ picked. (ranks : Items Rank) × IsPermutation (ranks_from 0 asks.now) ranks × IsSortedBy comes_first ranks
        × ((cores : ℕ) → (bounds : Items Bound) → (taken : Items Asked) → Holds cores bounds room.now taken → picked ≡ starts cores bounds asks.now taken ranks)) }
{
    let ranks = sorted(alloc, asks.as_slice())?;
    let mut left = room.copy(alloc)?;
    let picked = start_all(alloc, &mut left, asks.as_slice(), ranks.as_slice())?;
    Ok(picked)
}
