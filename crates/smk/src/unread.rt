//! What of the command line isn't read.

ghost use Rattle.std.specs.Prelude.{◌≡◌, ◌<◌, ◌≤◌, ◌+◌, IfOk, false, length, map, take, string_bytes};
ghost use Rattle.smk_words_reading.specs.Asks.{AreUnread};

use smk_base::OutOfMemory;
use smk_words_reading::{WordsFault, read_words};
use std::alloc::Global;

// For each option that takes a value one that it reads.
const VALUES: [&str; 3] = ["1", "a=1", "1:1"];

// Whether the words ask something, or lack only the number of cores.
fn are_read(alloc: Global, words: &[String]) -> Result<bool, OutOfMemory>
    ensures { IfOk result (λ are. are ≡ false → AreUnread (map string_bytes words.now)) }
{
    match read_words(alloc, words) {
        Ok(_) => Ok(true),
        Err(WordsFault::NoCores) => Ok(true),
        Err(WordsFault::BadWords) => Ok(false),
        Err(WordsFault::OutOfMemory) => Err(OutOfMemory),
    }
}

// Whether the words are read with this one behind them.
fn are_read_with(alloc: Global, words: &[String], value: &str) -> Result<bool, OutOfMemory> {
    let mut longer = Vec::new(alloc);
    for word in words {
        longer.push(String::from_str(alloc, word.as_str())?)?;
    }
    longer.push(String::from_str(alloc, value)?)?;
    are_read(alloc, longer.as_slice())
}

// Whether the words are read with some value behind them.
fn are_read_with_value(alloc: Global, words: &[String]) -> Result<bool, OutOfMemory> {
    for value in VALUES {
        if are_read_with(alloc, words, value)? {
            return Ok(true);
        }
    }
    Ok(false)
}

// Whether the words are read, or are with a value behind them.
fn can_go_on(alloc: Global, words: &[String]) -> Result<bool, OutOfMemory>
    ensures { IfOk result (λ can. can ≡ false → AreUnread (map string_bytes words.now)) }
{
    let are = are_read(alloc, words)?;
    if are {
        Ok(true)
    } else {
        are_read_with_value(alloc, words)
    }
}

/// The place of the first word with which the words can't go on: neither those up to it nor they with a value behind are read. The number of words, where all
/// can go on; if they aren't read then, the last one is an option that lacks its value. `OutOfMemory` where a growth finds no memory.
///
/// It is found by halving, since words that can't go on can't with others behind them.
pub(crate) fn first_unread(alloc: Global, words: &[String]) -> Result<usize, OutOfMemory>
    ensures within { IfOk result (λ place. place ≤ length words.now) }
    ensures unread { IfOk result (λ place. place < length words.now → AreUnread (map string_bytes (take (place + 1) words.now))) }
{
    if words.is_empty() {
        return Ok(0);
    }
    let can = can_go_on(alloc, words)?;
    if can {
        return Ok(words.len());
    }
    let mut good = 0;
    let mut bad = words.len();
    while bad - good > 1 {
        let middle = good + (bad - good) / 2;
        let can = can_go_on(alloc, &words[..middle])?;
        if can {
            good = middle;
        } else {
            bad = middle;
        }
    }
    Ok(bad - 1)
}
