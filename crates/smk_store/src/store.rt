ghost use Rattle.std.specs.Prelude.{◌≡◌, true, map, option_map};
ghost use Rattle.std.specs.Cmp.Lexicographic.{slice_cmp};
ghost use Rattle.std.specs.Ordering.{nat_cmp};
ghost use Rattle.smk_record.specs.Records.{are_rising};
ghost use Rattle.smk_store.specs.Stores.{AreKept, known, entry_of, is_covered_in};

use smk_base::{List, PathText};
use smk_record::Record;
use std::cmp::Ordering;
use std::marker::Model;

/// The record of a path, where a file stands in its place.
#[derive(Drop)]
pub enum Kept {
    Absent,
    Unreadable,
    Held(Record),
}

/// What is known of a path.
#[derive(Drop)]
pub struct Entry {
    pub kept: Kept,
    pub marked: bool,
    pub noted: bool,
}

/// The paths of which something is known, in byte order, with what it is. Contracts see each path with its entry.
#[derive(Drop)]
pub struct Store {
    paths: List<PathText>,
    entries: List<Entry>,
}

impl Model for Store {
    ghost use Rattle.std.specs.Prelude.{List as Items};
    ghost use Rattle.smk_store.specs.Stores.{Known, known, AreKept};

    ghost Value = { Items Known };

    ghost view = { λ s. known s.paths s.entries };

    ghost invariant = { λ s. AreKept s.paths s.entries };
}

// How the path and these bytes are ordered.
fn order(path: &PathText, bytes: &[u8]) -> Ordering
    ensures { result ≡ slice_cmp nat_cmp path.now bytes.now }
{
    path.as_str().as_bytes().cmp(bytes)
}

impl Store {
    // The store of these paths, which rise, each with its entry.
    pub(crate) fn of(paths: List<PathText>, entries: List<Entry>) -> Store
        requires { AreKept paths entries }
        ensures { result ≡ known paths entries }
    {
        Store { paths, entries }
    }

    /// The paths of which something is known, in byte order.
    pub fn paths(&self) -> &List<PathText>
        ensures value { result.now ≡ map (λ k. k.path) self.now }
        ensures rising { are_rising result.now ≡ true }
    {
        &self.paths
    }

    // What is known of each of them, in their order.
    pub(crate) fn entries(&self) -> &List<Entry>
        ensures { result.now ≡ map (λ k. k.entry) self.now }
    {
        &self.entries
    }

    // What is known of the path with these bytes.
    fn at(&self, bytes: &[u8]) -> Option<&Entry>
        ensures { option_map (λ e. e.now) result ≡ entry_of self.now bytes.now }
    {
        match self
            .paths
            .as_slice()
            .binary_search_by(|path| order(path, bytes))
        {
            Ok(i) => Some(&self.entries.as_slice()[i]),
            Err(_) => None,
        }
    }

    /// What is known of the path. None where nothing is.
    pub fn entry(&self, p: &PathText) -> Option<&Entry>
        ensures { option_map (λ e. e.now) result ≡ entry_of self.now p.now }
    {
        self.at(p.as_str().as_bytes())
    }

    /// Whether something is known of the path or of a folder above it. The time grows with the path alone, but for a factor that is
    /// the logarithm of the number of paths.
    pub fn covered(&self, p: &PathText) -> bool
        ensures { result ≡ is_covered_in self.now p.now }
    {
        let bytes = p.as_str().as_bytes();
        for (i, b) in bytes.iter().enumerate() {
            if *b == b'/' && self.at(&bytes[..i]).is_some() {
                return true;
            }
        }
        self.at(bytes).is_some()
    }
}
