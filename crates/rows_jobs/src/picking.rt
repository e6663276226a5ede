//! Which jobs are started in the room.

use rows_lines::{Trouble, push_case};
use smk_base::{List, OutOfMemory};
use smk_pick::{Ask, Room, pick};
use std::alloc::{AllocError, Global};

// A job with so many threads and this priority.
fn ask(alloc: Global, threads: u64, priority: u64) -> Ask {
    Ask {
        threads,
        amounts: List::new(alloc),
        priority,
    }
}

// The jobs with these threads and priorities.
fn asks_of(alloc: Global, wanted: &[(u64, u64)]) -> Result<List<Ask>, OutOfMemory> {
    let mut asks = List::new(alloc);
    for (threads, priority) in wanted {
        asks.push(ask(alloc, *threads, *priority))?;
    }
    Ok(asks)
}

// The numbers of those that are started on so many cores.
fn picked(alloc: Global, cores: u64, wanted: &[(u64, u64)]) -> Result<List<u32>, OutOfMemory> {
    let room = Room::new(alloc, cores, &List::new(alloc))?;
    let asks = asks_of(alloc, wanted)?;
    pick(alloc, &asks, &room)
}

// Adds the numbers.
fn push_numbers(text: &mut String, numbers: &[u32]) -> Result<(), AllocError> {
    for number in numbers {
        write!(text, " {number}")?;
    }
    Ok(())
}

// What is told of the jobs that are started.
fn told(alloc: Global) -> Result<String, Trouble> {
    let picked = picked(alloc, 3, &[(2, 0), (2, 5), (1, 0), (9, 0)])?;
    let mut text = String::from_str(alloc, "started")?;
    push_numbers(&mut text, picked.as_slice())?;
    Ok(text)
}

/// Adds the line.
pub fn push_rows(alloc: Global, text: &mut String) -> Result<(), AllocError> {
    push_case(
        text,
        "the greater priority first, and what fits",
        &told(alloc),
    )
}
