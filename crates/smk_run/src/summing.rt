//! The stamps of a job's inputs, with the digests of its sources.

ghost use Rattle.std.specs.Prelude.{◌≡◌, ◌++◌, length, IfOk, IfErr, OnOk, true};
ghost use Rattle.std.specs.List.{list_all};
ghost use Rattle.smk_world.specs.Devices.{HasActed};
ghost use Rattle.smk_world.specs.Trees.{Each};
ghost use Rattle.smk_record.specs.Records.{is_earlier};
ghost use Rattle.smk_record.specs.Spelling.{is_sum};
ghost use Rattle.smk_run.specs.Stamps.{IsBelow, is_of_look, is_small, number_at};
ghost use Rattle.smk_run.specs.Digesting.{HasInputs, is_byte, is_whole_sum, source_in, sources_among, sum_for, sums_after, summed, sum_stop, with_sum};
ghost use Rattle.smk_run.specs.Reports.{is_device};

use crate::Stop;
use crate::stamps::{serial_at, stamps_of};
use smk_base::{Copied, List, OutOfMemory, PathText, Sum};
use smk_digest::{SumFault, sums};
use smk_record::Stamp;
use smk_world::Files;
use std::alloc::Global;
use std::collections::BTreeMap;
use std::thread::Threads;

// Adds the path, where it is a source.
fn push_source(
    alloc: Global,
    serials: &BTreeMap<String, Option<u64>>,
    found: &mut List<PathText>,
    path: &PathText,
) -> Result<(), OutOfMemory>
    ensures { OnOk result (found.new ≡ found.old ++ source_in (number_at serials.now path.now) path.now) }
{
    match serial_at(serials, path) {
        Some(_) => Ok(()),
        None => found.push(path.copy(alloc)?),
    }
}

// The sources among these paths, in order.
fn sources_among(
    alloc: Global,
    serials: &BTreeMap<String, Option<u64>>,
    paths: &[PathText],
) -> Result<List<PathText>, OutOfMemory>
    ensures { IfOk result (λ found. found ≡ sources_among (number_at serials.now) paths.now) }
{
    let mut found = List::new(alloc);
    for path in paths {
        push_source(alloc, serials, &mut found, path)?;
    }
    Ok(found)
}

// Goes over the bytes.
fn see_bytes(bytes: &[u8])
    ensures { list_all is_byte bytes.now ≡ true }
{
    for byte in bytes {
        // The byte is below 256.
        let _byte = *byte;
    }
}

/// Goes over the digest, which tells that it has 32 bytes.
pub fn see_digest(sum: &Sum)
    ensures { is_sum sum.now.0 ≡ true }
{
    see_bytes(sum.0.as_slice());
}

// Goes over the digest, where there is one.
fn see_sum(sum: &Option<Sum>)
    ensures { is_whole_sum sum.now ≡ true }
{
    match sum {
        Some(sum) => see_digest(sum),
        None => {}
    }
}

/// Goes over the digests, which tells that each of them has 32 bytes.
pub fn see_sums(sums: &[Option<Sum>])
    ensures { list_all is_whole_sum sums.now ≡ true }
{
    for sum in sums {
        see_sum(sum);
    }
}

// The digest of an input with this serial, where digests are left of it and of the sources behind it.
fn sum_for(serial: Option<u64>, sums: &[Option<Sum>]) -> Option<Sum>
    ensures { result ≡ sum_for serial sums.now }
{
    match serial {
        Some(_) => None,
        None => match sums.split_first() {
            Some((sum, _)) => *sum,
            None => None,
        },
    }
}

// The digests of the sources behind it.
fn sums_after(serial: Option<u64>, sums: &[Option<Sum>]) -> &[Option<Sum>]
    ensures { result.now ≡ sums_after serial sums.now }
{
    match serial {
        Some(_) => sums,
        None => match sums.split_first() {
            Some((_, later)) => later,
            None => sums,
        },
    }
}

/// The stamp with the digest, where one was taken.
pub fn with_sum(sum: Option<Sum>, stamp: Stamp) -> Stamp
    ensures { result ≡ with_sum sum stamp }
{
    match sum {
        None => stamp,
        Some(sum) => match stamp {
            Stamp::Time(time) => Stamp::Sum(time, sum),
            Stamp::Sum(time, found) => Stamp::Sum(time, found),
            Stamp::Made(serial) => Stamp::Made(serial),
        },
    }
}

// The stamps with the digests, of which there is one for each source, in order.
fn summed(
    alloc: Global,
    serials: &BTreeMap<String, Option<u64>>,
    paths: &[PathText],
    seen: &[Stamp],
    sums: &[Option<Sum>],
) -> Result<List<Stamp>, OutOfMemory>
    requires each { length seen.now ≡ length paths.now }
    ensures { IfOk result (λ stamps. stamps ≡ summed (number_at serials.now) paths.now seen.now sums.now) }
{
    let mut stamps = List::new(alloc);
    let mut left = sums;
    for (number, path) in paths.iter().enumerate() {
        let serial = serial_at(serials, path);
        stamps.push(with_sum(sum_for(serial, left), seen[number]))?;
        left = sums_after(serial, left);
    }
    Ok(stamps)
}

// The same fault.
fn stop_of(fault: SumFault) -> Stop
    ensures { result ≡ sum_stop fault }
{
    match fault {
        SumFault::Device => Stop::Device,
        SumFault::OutOfMemory => Stop::OutOfMemory,
    }
}

/// The stamps of the inputs at these paths, in order, where products have these serials, which are below the serial `made`: all sources are
/// looked at, and then read for their digests.
pub(crate) fn inputs_of<W: Files, Rt: Threads + Sync>(
    rt: &Rt,
    alloc: Global,
    serials: &BTreeMap<String, Option<u64>>,
    made: u64,
    paths: &[PathText],
    work: &mut W,
) -> Result<List<Stamp>, Stop>
    requires below { Each (λ p. IsBelow made (number_at serials.now p)) paths.now }
    ensures acted { HasActed W.act (HasInputs (number_at serials.now) paths.now result) (W.device work.old) (W.device work.new) (is_device result) }
    ensures each { IfOk result (λ stamps. length stamps ≡ length paths.now) }
    ensures earlier { IfOk result (λ stamps. list_all (is_earlier made) stamps ≡ true) }
    ensures small { IfOk result (λ stamps. list_all is_small stamps ≡ true) }
    ensures kind { IfErr result (λ stop. is_of_look stop ≡ true) }
{
    let seen = match stamps_of(alloc, serials, made, paths, work) {
        Ok(seen) => seen,
        Err(stop) => return Err(stop),
    };
    let Ok(sources) = sources_among(alloc, serials, paths) else {
        return Err(Stop::OutOfMemory);
    };
    let found = match sums(rt, alloc, work, &sources) {
        Ok(found) => found,
        Err(fault) => return Err(stop_of(fault)),
    };
    see_sums(found.as_slice());
    match summed(alloc, serials, paths, seen.as_slice(), found.as_slice()) {
        Ok(stamps) => Ok(stamps),
        Err(OutOfMemory) => Err(Stop::OutOfMemory),
    }
}
