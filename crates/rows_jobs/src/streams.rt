//! The standard streams as sinks.

use rows_lines::{Trouble, push_case};
use smk_world::Sink;
use smk_world_real::RealSink;
use std::alloc::{AllocError, Global};
use std::io::{Stderr, Stdout};

// Writes to both streams; how many calls failed.
fn faults(output: &mut RealSink<'_>, errors: &mut RealSink<'_>) -> Result<u64, Trouble> {
    output.put(b"to standard output\n")?;
    output.flush()?;
    errors.put(b"to standard error \xff\n")?;
    errors.flush()?;
    Ok(Sink::faults(output).saturating_add(Sink::faults(errors)))
}

// What is told of the streams.
fn told(alloc: Global, output: Stdout, errors: Stderr) -> Result<String, Trouble> {
    let mut output = RealSink::output(output, None);
    let mut errors = RealSink::errors(errors, None);
    let faults = faults(&mut output, &mut errors)?;
    Ok(format!(in alloc; "{faults} calls failed")?)
}

/// Writes a line to each stream; the line that tells how that went.
pub fn rows(alloc: Global, output: Stdout, errors: Stderr) -> Result<String, AllocError> {
    let mut text = String::new(alloc);
    push_case(
        &mut text,
        "bytes to both streams",
        &told(alloc, output, errors),
    )?;
    Ok(text)
}
