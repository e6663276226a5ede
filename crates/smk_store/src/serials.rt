//! The serial that the next job draws.

ghost use Rattle.std.specs.Prelude.{◌≡◌, max};
ghost use Rattle.std.specs.List.{fold, flat_map};
ghost use Rattle.smk_record.specs.Records.{serial_in};
ghost use Rattle.smk_store.specs.Serials.{after_serial, next_serial, unmarked_serials};

use crate::{Entry, Kept, Store};
use smk_record::Stamp;

// The greater of the number and the serial that the stamp names, if it names one.
fn raised_by_stamp(greatest: u64, stamp: &Stamp) -> u64
    ensures { result ≡ fold max greatest (serial_in stamp.now) }
{
    match stamp {
        Stamp::Time(_) => greatest,
        Stamp::Sum(..) => greatest,
        Stamp::Made(serial) => greatest.max(*serial),
    }
}

// The greatest of the number and the serials that the stamps name.
fn raised_by_stamps(greatest: u64, stamps: &[Stamp]) -> u64
    ensures { result ≡ fold max greatest (flat_map serial_in stamps.now) }
{
    let mut raised = greatest;
    for stamp in stamps {
        raised = raised_by_stamp(raised, stamp);
    }
    raised
}

// The greatest of the number and the serials that count at the path.
fn raised_by_entry(greatest: u64, entry: &Entry) -> u64
    ensures { result ≡ fold max greatest (unmarked_serials entry.now) }
{
    if entry.marked {
        return greatest;
    }
    match &entry.kept {
        Kept::Absent => greatest,
        Kept::Unreadable => greatest,
        Kept::Held(record) => {
            raised_by_stamps(greatest.max(record.made()), record.stamps().as_slice())
        }
    }
}

// The greatest serial that counts, or 0.
fn greatest_in(entries: &[Entry]) -> u64
    ensures { result ≡ fold max 0 (flat_map unmarked_serials entries.now) }
{
    let mut greatest = 0;
    for entry in entries {
        greatest = raised_by_entry(greatest, entry);
    }
    greatest
}

// One more. None where that has more than 64 bits.
fn serial_after(greatest: u64) -> Option<u64>
    ensures { result ≡ after_serial greatest }
{
    if greatest < u64::MAX {
        Some(greatest + 1)
    } else {
        None
    }
}

impl Store {
    /// One more than the greatest serial that the readable records of paths without a mark name: their own and those of their inputs;
    /// 1 where there is no such record. None exactly where that greatest serial is the greatest `u64`.
    pub fn next_serial(&self) -> Option<u64>
        ensures { result ≡ next_serial self.now }
    {
        serial_after(greatest_in(self.entries().as_slice()))
    }
}
