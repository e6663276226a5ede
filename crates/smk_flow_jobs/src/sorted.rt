//! Bindings by name.

ghost use Rattle.std.specs.Prelude.{◌≡◌, ◌≤◌, ◌++◌, length, map, IfOk, OnOk};
ghost use Rattle.smk_pattern.specs.Reading.{is_below, put, by_name};
ghost use Rattle.smk_flow.specs.Lent.{pairs_lent, place_among};

use smk_base::{Copied, List, OutOfMemory, Pair};
use std::alloc::Global;

// Whether the first stands before the second in byte order.
fn is_below(a: &[u8], b: &[u8]) -> bool
    ensures { result ≡ is_below a.now b.now }
{
    let mut a = a;
    let mut b = b;
    while let [x, front @ ..] = a {
        match b {
            [] => return false,
            [y, back @ ..] => {
                if *x != *y {
                    return *x < *y;
                }
                a = front;
                b = back;
            }
        }
    }
    match b {
        [] => false,
        [_, ..] => true,
    }
}

// How many of these stand before the pair: all up to the first with a greater name.
fn place_among(pair: &Pair, sorted: &[&Pair]) -> usize
    ensures place { result ≡ place_among pair.now (pairs_lent sorted.now) }
    ensures within { result ≤ length sorted.now }
{
    for (at, other) in sorted.iter().enumerate() {
        if is_below(
            pair.name.as_str().as_bytes(),
            other.name.as_str().as_bytes(),
        ) {
            return at;
        }
    }
    sorted.len()
}

// Puts the pair where it belongs among these.
fn put<'p>(sorted: &mut Vec<&'p Pair>, pair: &'p Pair) -> Result<(), OutOfMemory>
    ensures { OnOk result (pairs_lent sorted.new.items ≡ put pair.now (pairs_lent sorted.old.items)) }
{
    let place = place_among(pair, sorted);
    sorted.insert(place, pair)?;
    Ok(())
}

// The pairs by name. A rule has few wildcards, so each pair is put where it belongs among the others.
fn sorted(alloc: Global, pairs: &[Pair]) -> Result<Vec<&Pair>, OutOfMemory>
    ensures { IfOk result (λ sorted. pairs_lent sorted.items ≡ by_name pairs.now) }
{
    let mut sorted = Vec::new(alloc);
    let mut at = pairs.len();
    'pairs: while at > 0 {
        at -= 1;
        put(&mut sorted, &pairs[at])?;
    }
    Ok(sorted)
}

// Copies of these pairs.
fn copies(alloc: Global, pairs: &[&Pair]) -> Result<List<Pair>, OutOfMemory>
    ensures { IfOk result (λ made. made ≡ pairs_lent pairs.now) }
{
    let mut made = List::new(alloc);
    for pair in pairs {
        made.push(pair.copied(alloc)?)?;
    }
    Ok(made)
}

// Copies of the pairs, by name.
pub(crate) fn by_name(alloc: Global, pairs: &[Pair]) -> Result<List<Pair>, OutOfMemory>
    ensures { IfOk result (λ made. made ≡ by_name pairs.now) }
{
    let sorted = sorted(alloc, pairs)?;
    copies(alloc, &sorted)
}
