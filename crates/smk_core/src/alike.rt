//! Asks that are alike.

ghost use Rattle.std.specs.Prelude.{◌≡◌, true, IfOk};

use smk_base::{Amount, Copied, OutOfMemory};
use smk_pick::Ask;
use std::alloc::Global;

/// A copy, which is the equal value. `OutOfMemory` where there is no memory for it.
pub(crate) fn copy(alloc: Global, ask: &Ask) -> Result<Ask, OutOfMemory>
    ensures { IfOk result (λ made. made ≡ ask.now) }
{
    Ok(Ask {
        threads: ask.threads,
        amounts: ask.amounts.copied(alloc)?,
        priority: ask.priority,
    })
}

// Whether the two are of as much of the same.
fn is_same_amount(one: &Amount, other: &Amount) -> bool
    ensures { result ≡ true → one.now ≡ other.now }
{
    one.count == other.count && one.name.as_str() == other.name.as_str()
}

// Whether these amounts are the others, in the same order.
fn are_same_amounts(these: &[Amount], others: &[Amount]) -> bool
    ensures { result ≡ true → these.now ≡ others.now }
{
    let mut rest = others;
    for this in these {
        let Some((other, more)) = rest.split_first() else {
            return false;
        };
        if !is_same_amount(this, other) {
            return false;
        }
        rest = more;
    }
    rest.is_empty()
}

/// Whether the two ask for the same, with the amounts in the same order.
pub(crate) fn is_same(one: &Ask, other: &Ask) -> bool
    ensures { result ≡ true → one.now ≡ other.now }
{
    one.threads == other.threads
        && one.priority == other.priority
        && are_same_amounts(one.amounts.as_slice(), other.amounts.as_slice())
}

/// The ask as a text, by which asks that are alike are found. `OutOfMemory` where there is no memory for it.
pub(crate) fn spelled(alloc: Global, ask: &Ask) -> Result<String, OutOfMemory> {
    let mut text = format!(in alloc; "{} {}", ask.threads, ask.priority)?;
    for amount in ask.amounts.as_slice() {
        let count = format!(in alloc; " {} ", amount.count)?;
        text.push_str(count.as_str())?;
        text.push_str(amount.name.as_str())?;
    }
    Ok(text)
}
