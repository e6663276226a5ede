//! How many jobs of a run are done, on a line of the terminal that is overwritten and cleared.

use std::alloc::{AllocError, Global};
use std::cell::Cell;
use std::io::Stderr;

// Clears the terminal's line from where the next text goes.
const CLEAR: &[u8] = b"\x1b[K";

/// A line at the terminal of standard error that tells how many jobs are done. It stands while jobs run, each text of the sinks
/// that know it comes in its place, and what jobs write comes over it.
#[derive(Drop)]
pub struct Progress {
    errors: Stderr,
    alloc: Global,
    // How many jobs the run has, where that is known.
    all: Option<u64>,
    running: Cell<u64>,
    done: Cell<u64>,
    stands: Cell<bool>,
}

impl Progress {
    /// The line of a run that has so many jobs, where that is known. It doesn't stand yet. Standard error is to be a terminal.
    pub fn new(alloc: Global, errors: Stderr, all: Option<u64>) -> Progress {
        Progress {
            errors,
            alloc,
            all,
            running: Cell::new(0),
            done: Cell::new(0),
            stands: Cell::new(false),
        }
    }

    /// Clears the line, where it stands.
    pub fn clear(&self) {
        if self.stands.get() {
            let _ = self.errors.write_all(CLEAR);
            self.stands.set(false);
        }
    }

    /// Takes note of the lines of a report, and puts the line, where a job runs.
    pub(crate) fn tell(&self, report: &[u8]) {
        for line in report.split(|byte| *byte == b'\n') {
            self.note(line);
        }
        if self.running.get() > 0 {
            self.put();
        }
    }

    fn note(&self, line: &[u8]) {
        if line.starts_with(b"start ") {
            self.running.set(self.running.get().saturating_add(1));
        } else if line.starts_with(b"done ") {
            self.running.set(self.running.get().saturating_sub(1));
            self.done.set(self.done.get().saturating_add(1));
        } else if line.starts_with(b"failed ") {
            self.running.set(self.running.get().saturating_sub(1));
        }
    }

    // Without memory for the text there is none.
    fn put(&self) {
        if let Ok(text) = self.text() {
            let _ = self.errors.write_all(text.as_bytes());
            self.stands.set(true);
        }
    }

    // The next text goes to the front of the line.
    fn text(&self) -> Result<String, AllocError> {
        let done = self.done.get();
        match self.all {
            Some(all) if done <= all => format!(in self.alloc; "{done} of {all}\r"),
            _ => format!(in self.alloc; "{done} done\r"),
        }
    }
}
