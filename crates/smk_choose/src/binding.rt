//! Bindings by name.

ghost use Rattle.std.specs.Prelude.{◌≡◌, ◌≤◌, IfOk, length};
ghost use Rattle.std.specs.List.{insert};
ghost use Rattle.smk_base.specs.declared.tree.Pair.{Pair};
ghost use Rattle.smk_pattern.specs.Reading.{is_below, put, by_name};

use smk_base::{List, OutOfMemory, Pair};
use smk_pattern::Binding;
use std::alloc::Global;

// Whether the first comes before the second in byte order.
fn is_below(a: &[u8], b: &[u8]) -> bool
    ensures { result ≡ is_below a.now b.now }
{
    let mut left = a;
    let mut right = b;
    while let [x, more @ ..] = left {
        match right {
            [] => return false,
            [y, rest @ ..] => {
                if *x != *y {
                    return *x < *y;
                }
                left = more;
                right = rest;
            }
        }
    }
    !right.is_empty()
}

// Where the pair comes among these, which are few.
fn place(pair: &Pair, pairs: &[Pair]) -> usize
    ensures within { result ≤ length pairs.now }
    ensures is { insert pairs.now result pair.now ≡ put pair.now pairs.now }
{
    let mut at = 0;
    for other in pairs {
        if is_below(
            pair.name.as_str().as_bytes(),
            other.name.as_str().as_bytes(),
        ) {
            return at;
        }
        at += 1;
    }
    at
}

/// The pairs by name, equal names in the order in which they stand. `OutOfMemory` where there is no memory for the list.
pub fn by_name(alloc: Global, binding: Binding) -> Result<Binding, OutOfMemory>
    ensures { IfOk result (λ made. made ≡ by_name binding) }
{
    let mut left = binding;
    let mut pairs = Vec::new(alloc);
    'pairs: while let Some(pair) = left.pop() {
        let at = place(&pair, &pairs);
        pairs.insert(at, pair)?;
    }
    let mut made = List::new(alloc);
    for pair in pairs {
        made.push(pair)?;
    }
    Ok(made)
}
