//! The places of a job.

use rows_lines::{Trouble, push_case};
use smk_base::{PathText, Place, one};
use smk_store::JobPlaces;
use std::alloc::{AllocError, Global};

// The places of a job with the output `a/b` and a log.
fn places(alloc: Global) -> Result<JobPlaces, Trouble> {
    let outputs = one(alloc, PathText::read(alloc, "a/b")?)?;
    let logs = one(alloc, PathText::read(alloc, "log")?)?;
    Ok(JobPlaces::of(alloc, &outputs, &logs)?)
}

// Adds the places.
fn push_places(text: &mut String, places: &[Place]) -> Result<(), AllocError> {
    for place in places {
        write!(text, " {}", place.as_str())?;
    }
    Ok(())
}

// What is told of the places.
fn told(alloc: Global) -> Result<String, Trouble> {
    let places = places(alloc)?;
    let mut text = String::new(alloc);
    write!(text, "{} to mark, records at", places.marking.len())?;
    push_places(&mut text, places.records.as_slice())?;
    Ok(text)
}

/// Adds the line.
pub fn push_rows(alloc: Global, text: &mut String) -> Result<(), AllocError> {
    push_case(text, "a job with an output and a log", &told(alloc))
}
