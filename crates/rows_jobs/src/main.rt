//! Prints what the parts of a run answer, a line for each case: the closing of jobs in a workspace in memory, and the listing of what they made; what records are
//! read as, which jobs are judged to need running, and which of those that are ready are started; and the devices, at the end the real working folder with its
//! children and the real streams.
#![tactic(auto)]

mod children;
mod closing;
mod crashes;
mod cutting;
mod digests;
mod forgetting;
mod jobs;
mod judging;
mod listing;
mod picking;
mod placing;
mod reading;
mod records;
mod seen;
mod setups;
mod streams;

use rows_lines::push_title;
use std::alloc::{AllocError, Global};
use std::io;
use std::process::Processes;
use std::rt::Files as FileSystem;
use std::thread::Threads;
use std::time::Clock;

// The lines of jobs that are closed, and of what they made.
fn push_jobs(alloc: Global, text: &mut String) -> Result<(), AllocError> {
    closing::push_rows(alloc, text)?;
    cutting::push_rows(alloc, text)?;
    forgetting::push_rows(alloc, text)?;
    listing::push_rows(alloc, text)
}

// The lines of records, of jobs that are judged by them, and of jobs that are started.
fn push_records<Rt: Threads + Sync>(
    rt: &Rt,
    alloc: Global,
    text: &mut String,
) -> Result<(), AllocError> {
    reading::push_rows(alloc, text)?;
    records::push_rows(alloc, text)?;
    push_title(text, "jobs")?;
    picking::push_rows(alloc, text)?;
    judging::push_rows(rt, alloc, text)
}

// The lines of the devices in memory and of crashes, of the places of a job, of digests, and of children that run at the same time.
fn push_devices<R: FileSystem + Processes + Clock + Threads + Sync>(
    rt: &R,
    alloc: Global,
    text: &mut String,
) -> Result<(), AllocError> {
    setups::push_rows(alloc, text)?;
    crashes::push_rows(alloc, text)?;
    placing::push_rows(alloc, text)?;
    digests::push_rows(rt, alloc, text)?;
    children::push_rows(rt, alloc, text)
}

/// The lines.
fn rows<R: FileSystem + Processes + Clock + Threads + Sync>(
    rt: &R,
    alloc: Global,
) -> Result<String, AllocError> {
    let mut text = String::new(alloc);
    push_jobs(alloc, &mut text)?;
    push_records(rt, alloc, &mut text)?;
    push_devices(rt, alloc, &mut text)?;
    Ok(text)
}

fn main(rt: HostRuntime) -> io::Result<()> {
    let alloc = rt.alloc();
    rt.print(rows(&rt, alloc)?)?;
    rt.print(streams::rows(alloc, rt.stdout(), rt.stderr())?)
}
