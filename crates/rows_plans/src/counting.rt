//! A judge that counts how often it is asked.

use smk_base::{List, OutOfMemory};
use smk_trigger::{JobFacts, Judge, Reason, reasons};
use std::alloc::Global;
use std::sync::atomic::{AtomicU64, Ordering};

/// How often it was asked, and how often about the job that was closed and the one that reads all.
#[derive(Drop)]
pub struct Counting {
    pub asked: AtomicU64,
    pub first: AtomicU64,
    pub total: AtomicU64,
}

impl Counting {
    /// It wasn't asked.
    pub fn new() -> Counting {
        Counting {
            asked: AtomicU64::new(0),
            first: AtomicU64::new(0),
            total: AtomicU64::new(0),
        }
    }
}

impl Judge for Counting {
    fn judge(&self, alloc: Global, facts: &JobFacts) -> Result<List<Reason>, OutOfMemory> {
        self.asked.fetch_add(1, Ordering::SeqCst);
        match facts.recipe.template.as_str() {
            "first" => self.first.fetch_add(1, Ordering::SeqCst),
            "total" => self.total.fetch_add(1, Ordering::SeqCst),
            _ => 0,
        };
        reasons(alloc, facts)
    }
}
