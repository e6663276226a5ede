//! Runs the whole call over workspaces in memory, and prints how each ends: its status, what is left of the job, its report, and the line of its fault. Then it stops
//! runs after each of their calls, lets a crash follow and goes on, and lets each call fail, and prints how many of these ended wrong. At the end come trials of
//! generated workflows, and what takes away the lock and what is known of paths.
#![tactic(auto)]

mod again;
mod commands;
mod failing;
mod failures;
mod generating;
mod keyed;
mod keys;
mod later;
mod left;
mod row;
mod runs;
mod stopping;
mod stops;
mod trial;
mod workspace;

use std::alloc::{AllocError, Global};
use std::io;
use std::thread::Threads;

/// The lines of all cases.
fn rows<Rt: Threads + Sync>(rt: &Rt, alloc: Global) -> Result<String, AllocError> {
    let mut text = String::new(alloc);
    runs::push_rows(rt, alloc, &mut text)?;
    failing::push_rows(rt, alloc, &mut text)?;
    later::push_rows(rt, alloc, &mut text)?;
    commands::push_rows(rt, alloc, &mut text)?;
    stopping::push_rows(rt, alloc, &mut text)?;
    generating::push_rows(rt, alloc, &mut text)?;
    keys::push_rows(alloc, &mut text)?;
    Ok(text)
}

fn main(rt: HostRuntime) -> io::Result<()> {
    let text = rows(&rt, rt.alloc())?;
    rt.print(text)
}
