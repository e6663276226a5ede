//! Trials of the program with workflows that are generated.

ghost use Rattle.std.specs.Prelude.{◌≤◌};

use rows_lines::{Trouble, push_case};
use smk_base::List;
use smk_trial::tell_trial;
use smk_world_mem::MemSink;
use std::alloc::{AllocError, Global};
use std::str;
use std::thread::Threads;

// What was put, but for the last line end.
fn text_of(alloc: Global, out: &MemSink) -> Result<String, Trouble> {
    let text = str::from_utf8(out.bytes()).unwrap_or("?");
    Ok(String::from_str(alloc, text.trim_end())?)
}

// What the trial of this seed and this size tells.
fn told<Rt: Threads + Sync>(rt: &Rt, alloc: Global, seed: u64, size: u64) -> Result<String, Trouble>
    requires seeds { seed ≤ 4294967295 }
    requires least { 1 ≤ size }
    requires most { size ≤ 2000 }
{
    let mut out = MemSink::new(alloc, List::new(alloc));
    match tell_trial(rt, alloc, seed, size, &mut out) {
        Ok(()) => text_of(alloc, &out),
        Err(_) => Err(Trouble::OutOfMemory),
    }
}

// Whether two trials tell the same.
fn told_twice<Rt: Threads + Sync>(rt: &Rt, alloc: Global) -> Result<String, Trouble> {
    let first = told(rt, alloc, 7, 3)?;
    let second = told(rt, alloc, 7, 3)?;
    let word = if first.as_str() == second.as_str() {
        "the same"
    } else {
        "something else"
    };
    Ok(String::from_str(alloc, word)?)
}

/// Adds the lines of all trials.
pub fn push_rows<Rt: Threads + Sync>(
    rt: &Rt,
    alloc: Global,
    text: &mut String,
) -> Result<(), AllocError> {
    push_case(text, "7:3", &told(rt, alloc, 7, 3))?;
    push_case(text, "7:3 twice", &told_twice(rt, alloc))?;
    push_case(text, "5:1", &told(rt, alloc, 5, 1))?;
    push_case(text, "4294967295:20", &told(rt, alloc, 4294967295, 20))?;
    Ok(())
}
