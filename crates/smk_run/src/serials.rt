//! The serials of jobs, and of what they make.

ghost use Rattle.std.specs.Prelude.{◌≡◌, ◌<◌, Some, IfOk, OnOk, bytes_eq, if◌then◌else◌};
ghost use Rattle.std.specs.BTreeMap.{get_by_text};
ghost use Rattle.std.specs.Option.{option_and_then};
ghost use Rattle.smk_world.specs.Trees.{Path};
ghost use Rattle.smk_run.specs.Stamps.{number_at};
ghost use Rattle.smk_plan.specs.Duties.{maker_in};
ghost use Rattle.smk_run.specs.Duties.{serial_at, serial_by, drawn_with, serials_from, serial_in};

use smk_base::{List, OutOfMemory, PathText};
use smk_chain::Maker;
use smk_plan::Duty;
use std::alloc::Global;
use std::collections::BTreeMap;

// The serial that is drawn after so many others.
fn drawn_after(first: Option<u64>, drawn: u64) -> Option<u64>
    ensures { result ≡ serial_at first drawn }
{
    match first {
        Some(first) => first.checked_add(drawn),
        None => None,
    }
}

// The serial of a job with this duty, before which so many others draw one.
fn serial_of(first: Option<u64>, drawn: u64, duty: Duty) -> Option<u64>
    ensures { result ≡ serial_by (serial_at first drawn) duty }
{
    match duty {
        Duty::Rest(made) => Some(made),
        Duty::Restore(made) => Some(made),
        Duty::Run => drawn_after(first, drawn),
    }
}

// How many jobs draw a serial, with one that has this duty.
fn drawn_with(drawn: u64, duty: Duty) -> u64
    requires { drawn < 18446744073709551615 }
    ensures { result ≡ drawn_with drawn duty }
{
    match duty {
        Duty::Rest(_) => drawn,
        Duty::Restore(_) => drawn,
        Duty::Run => drawn + 1,
    }
}

/// The serials of all jobs, where this one is drawn first.
pub(crate) fn serials_of(
    alloc: Global,
    first: Option<u64>,
    duties: &[Duty],
) -> Result<List<Option<u64>>, OutOfMemory>
    ensures { IfOk result (λ serials. serials ≡ serials_from first 0 duties.now) }
{
    let mut serials = List::new(alloc);
    let mut drawn = 0;
    for duty in duties {
        serials.push(serial_of(first, drawn, *duty))?;
        drawn = drawn_with(drawn, *duty);
    }
    Ok(serials)
}

/// The serial of the job of this number.
pub(crate) fn serial_in(serials: &[Option<u64>], number: usize) -> Option<u64>
    ensures { result ≡ serial_in serials.now number }
{
    match serials.get(number) {
        Some(serial) => *serial,
        None => None,
    }
}

// The serial of the job that makes the path.
fn serial_by_maker(serials: &[Option<u64>], maker: &Maker) -> Option<u64>
    ensures { result ≡ option_and_then (serial_in serials.now) maker.now.job }
{
    match maker.job {
        Some(number) => serial_in(serials, number as usize),
        None => None,
    }
}

// Notes the serial of the path.
fn put(
    alloc: Global,
    made: &mut BTreeMap<String, Option<u64>>,
    path: &PathText,
    serial: Option<u64>,
) -> Result<(), OutOfMemory>
    ensures { OnOk result ((q : Path) → get_by_text made.new q ≡ (if bytes_eq path.now q then Some serial else get_by_text made.old q)) }
{
    let key = String::from_str(alloc, path.as_str())?;
    made.insert(key, serial)?;
    Ok(())
}

/// The serials of the products, by their paths, where the jobs have these serials.
pub(crate) fn made_by(
    alloc: Global,
    makers: &[Maker],
    serials: &[Option<u64>],
) -> Result<BTreeMap<String, Option<u64>>, OutOfMemory>
    ensures { IfOk result (λ made. (q : Path) → number_at made q ≡ option_and_then (serial_in serials.now) (maker_in makers.now q)) }
{
    let mut made = BTreeMap::new(alloc);
    let mut rest = makers;
    'makers: while let Some((last, before)) = rest.split_last() {
        put(alloc, &mut made, &last.path, serial_by_maker(serials, last))?;
        rest = before;
    }
    Ok(made)
}
