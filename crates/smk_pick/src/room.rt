//! The room for running jobs.

ghost use Rattle.std.specs.Prelude.{◌≡◌, ◌≤◌, ◌+◌, ◌-◌, ◌^◌, ◌++◌, [], ◌∷◌, ℕ, List as Items, map, nat_le, true, IfOk, OnOk, MatchOption};
ghost use Rattle.std.specs.List.{list_all};
ghost use Rattle.smk_base.specs.declared.tree.Amount.{Amount as Bound};
ghost use Rattle.smk_pick.specs.declared.room.Ask.{Ask as Asked};
ghost use Rattle.smk_pick.specs.Rooms.{amount, threads_in, are_within};
ghost use Rattle.smk_pick.specs.Shares.{has_room, has_used, raised, lowered, share_of, fits_in, is_used_in, Holds};

use smk_base::{Amount, Copied, List, OutOfMemory, Text};
use std::alloc::Global;

/// What a job asks for.
#[derive(Drop)]
pub struct Ask {
    pub threads: u64,
    pub amounts: List<Amount>,
    pub priority: u64,
}

/// A bounded resource, and how much of it is in use.
#[derive(Drop)]
pub(crate) struct Share {
    bound: Amount,
    used: u64,
}

/// Cores and bounded resources, and how much of each is in use. There are few bounds, so they are gone over one by one.
#[derive(Drop)]
pub struct Room {
    cores: u64,
    threads: u64,
    shares: Vec<Share>,
}

// How much of the resource one amount is.
fn count_if(each: &Amount, name: &Text) -> u64
    ensures { result ≡ amount (each.now ∷ []) name.now }
{
    if each.name.as_str() == name.as_str() {
        each.count
    } else {
        0
    }
}

/// How much of the resource the amounts are. None where no number of 64 bits tells it.
pub fn amount_of(amounts: &[Amount], name: &Text) -> Option<u64>
    ensures { MatchOption result (2 ^ 64 ≤ amount amounts.now name.now) (λ n. n ≡ amount amounts.now name.now) }
{
    let mut sum = 0u64;
    for each in amounts {
        match sum.checked_add(count_if(each, name)) {
            Some(more) => sum = more,
            None => return None,
        }
    }
    Some(sum)
}

// Whether as much as is asked for is left of the resource.
fn has_room(share: &Share, asked: &[Amount]) -> bool
    ensures { result ≡ has_room asked.now share.now }
{
    let (used, bound) = (share.used, share.bound.count);
    match amount_of(asked, &share.bound.name) {
        None => false,
        Some(more) => match used.checked_add(more) {
            None => false,
            Some(sum) => sum <= bound,
        },
    }
}

// Whether as much as is asked for is left of each resource.
fn have_room(shares: &[Share], asked: &[Amount]) -> bool
    ensures { result ≡ list_all (has_room asked.now) shares.now }
{
    for share in shares {
        if !has_room(share, asked) {
            return false;
        }
    }
    true
}

// As much as is asked for of the resource is in use too.
fn raise(share: &mut Share, asked: &[Amount])
    requires { has_room asked.now share.old ≡ true }
    ensures { share.new ≡ raised asked.now share.old }
{
    let _bound = share.bound.count;
    if let Some(more) = amount_of(asked, &share.bound.name) {
        share.used += more;
    }
}

// As much as is asked for of each resource is in use too.
fn raise_all(shares: &mut Vec<Share>, asked: &[Amount])
    requires { list_all (has_room asked.now) shares.old.items ≡ true }
    ensures { shares.new.items ≡ map (raised asked.now) shares.old.items }
{
    for i in 0..shares.len() {
        raise(&mut shares[i], asked);
    }
}

// As much as was asked for of the resource is free again.
fn lower(share: &mut Share, asked: &[Amount])
    requires { has_used asked.now share.old ≡ true }
    ensures { share.new ≡ lowered asked.now share.old }
{
    let _used = share.used;
    if let Some(less) = amount_of(asked, &share.bound.name) {
        share.used -= less;
    }
}

// As much as was asked for of each resource is free again.
fn lower_all(shares: &mut Vec<Share>, asked: &[Amount])
    requires { list_all (has_used asked.now) shares.old.items ≡ true }
    ensures { shares.new.items ≡ map (lowered asked.now) shares.old.items }
{
    for i in 0..shares.len() {
        lower(&mut shares[i], asked);
    }
}

// The bounded resources, nothing of them in use.
fn shares_of(alloc: Global, bounds: &[Amount]) -> Result<Vec<Share>, OutOfMemory>
    ensures { IfOk result (λ shares. shares.items ≡ map (share_of []) bounds.now) }
{
    let mut shares = Vec::new(alloc);
    for bound in bounds {
        let bound = bound.copied(alloc)?;
        shares.push(Share { bound, used: 0 })?;
    }
    Ok(shares)
}

// Copies of the shares.
fn copies(alloc: Global, shares: &[Share]) -> Result<Vec<Share>, OutOfMemory>
    ensures { IfOk result (λ made. made.items ≡ shares.now) }
{
    let mut made = Vec::new(alloc);
    for share in shares {
        let bound = share.bound.copied(alloc)?;
        made.push(Share {
            bound,
            used: share.used,
        })?;
    }
    Ok(made)
}

impl Room {
    /// A copy, in which the same jobs are.
    pub(crate) fn copy(&self, alloc: Global) -> Result<Room, OutOfMemory>
        ensures { IfOk result (λ room. (cores : ℕ) → (bounds : Items Bound) → (asks : Items Asked) → Holds cores bounds self.now asks → Holds cores bounds room asks) }
    {
        let shares = copies(alloc, self.shares.as_slice())?;
        Ok(Room {
            cores: self.cores,
            threads: self.threads,
            shares,
        })
    }

    /// The room with these cores and bounds. Nothing is in use.
    pub fn new(alloc: Global, cores: u64, bounds: &List<Amount>) -> Result<Room, OutOfMemory>
        ensures { IfOk result (λ room. Holds cores bounds.now room []) }
    {
        let shares = shares_of(alloc, bounds.as_slice())?;
        Ok(Room {
            cores,
            threads: 0,
            shares,
        })
    }

    // Whether what the job asks for is left.
    fn has_left(&self, ask: &Ask) -> bool
        ensures { result ≡ fits_in self.now ask.now }
    {
        let threads = ask.threads.min(self.cores);
        match self.threads.checked_add(threads) {
            None => false,
            Some(sum) => sum <= self.cores
                && have_room(self.shares.as_slice(), ask.amounts.as_slice()),
        }
    }

    /// Whether the job fits beside those that are in: their threads sum to at most the cores, and their amounts of each bounded
    /// resource to at most its bound.
    pub fn fits(&self, ask: &Ask) -> bool
        ensures value { result ≡ fits_in self.now ask.now }
        ensures within { (cores : ℕ) → (bounds : Items Bound) → (asks : Items Asked) → Holds cores bounds self.now asks
            → result ≡ are_within cores bounds (asks ++ ask.now ∷ []) }
    {
        self.has_left(ask)
    }

    /// The job, which fits, is in.
    pub fn take(&mut self, ask: &Ask)
        requires { fits_in self.old ask.now ≡ true }
        ensures { (cores : ℕ) → (bounds : Items Bound) → (asks : Items Asked) → Holds cores bounds self.old asks
            → Holds cores bounds self.new (asks ++ ask.now ∷ []) }
    {
        self.threads += ask.threads.min(self.cores);
        raise_all(&mut self.shares, ask.amounts.as_slice());
    }

    /// The job, which was in, is in no more.
    pub fn give(&mut self, ask: &Ask)
        requires { is_used_in self.old ask.now ≡ true }
        ensures { (cores : ℕ) → (bounds : Items Bound) → (before : Items Asked) → (after : Items Asked)
            → Holds cores bounds self.old (before ++ ask.now ∷ after) → Holds cores bounds self.new (before ++ after) }
    {
        self.threads -= ask.threads.min(self.cores);
        lower_all(&mut self.shares, ask.amounts.as_slice());
    }
}
