//! Commands that go on though their run was cut off.
//!
//! Each command has in its environment which folder it works in. Before a lock that another run left is removed, the system's list of processes is asked
//! for one that has this too. Where there is no such list, and of processes of other users, nothing is seen.

use crate::fault::{Fault, at};
use crate::files::{join, names_in, read_within};
use smk_world::Found;
use std::alloc::Global;
use std::fs::File;
use std::io::Error;
use std::os::unix::fs::MetadataExt;
use std::rt::Files;
use std::time::{Clock, Duration};
use std::{fs, thread};

/// The variable in the environment of each command.
pub const FOLDER: &str = "SMK_FOLDER";

const PROCESSES: &str = "/proc";

const LONGEST_ENVIRONMENT: u64 = 16_777_216;

// For how many seconds it is looked again, and after how many milliseconds: a command that was killed just now needs a moment to end.
const PATIENCE: u64 = 3;

const PAUSE: u64 = 50;

const MOST_LOOKS: u32 = 60;

/// What the system tells the working folder apart by from all others: the value of the variable.
pub fn folder_word<R: Files>(system: &R, alloc: Global) -> Result<String, Fault> {
    let folder = fs::metadata(system, ".")?;
    let (device, number) = (folder.dev(), folder.ino());
    Ok(format!(in alloc; "{device}:{number}")?)
}

fn is_number(name: &str) -> bool {
    name.bytes().all(|byte| byte.is_ascii_digit())
}

// Whether the file has the entry among those that end with a byte 0. An environment that isn't read has none.
fn holds_entry<R: Files>(
    system: &R,
    alloc: Global,
    path: &str,
    entry: &str,
) -> Result<bool, Fault> {
    let Ok(mut file) = File::open(system, path) else {
        return Ok(false);
    };
    match read_within(&mut file, alloc, LONGEST_ENVIRONMENT, &mut [0u8; 16384]) {
        Ok(Found::Held(bytes)) => Ok(
            bytes
                .as_slice()
                .split(|byte| *byte == 0)
                .any(|own| own == entry.as_bytes()),
        ),
        Ok(_) => Ok(false),
        Err(Fault::Device(..)) => Ok(false),
        Err(Fault::OutOfMemory) => Err(Fault::OutOfMemory),
    }
}

// The folder of a process that has the entry in its environment, if one is seen.
fn first_with<R: Files>(system: &R, alloc: Global, entry: &str) -> Result<Option<String>, Fault> {
    let found = match names_in(system, alloc, PROCESSES) {
        Ok(found) => found,
        Err(Fault::Device(..)) => return Ok(None),
        Err(Fault::OutOfMemory) => return Err(Fault::OutOfMemory),
    };
    for name in &found.names {
        if is_number(name.as_str()) {
            let process = join(alloc, PROCESSES, name.as_str())?;
            let environment = join(alloc, process.as_str(), "environ")?;
            if holds_entry(system, alloc, environment.as_str(), entry)? {
                return Ok(Some(process));
            }
        }
    }
    Ok(None)
}

// The seconds since 1970; 0 without a clock.
fn now<C: Clock>(system: &C) -> u64 {
    system.since_1970().map_or(0, |time| time.as_secs())
}

/// Fails where a command of this folder goes on: with the folder of its process, which tells its number. One that ends within two seconds is waited for.
pub fn fail_while_one_goes_on<R: Files + Clock>(system: &R, alloc: Global) -> Result<(), Fault> {
    let word = folder_word(system, alloc)?;
    let word = word.as_str();
    let entry = format!(in alloc; "{FOLDER}={word}")?;
    let end = now(system).saturating_add(PATIENCE);
    for _ in 0..MOST_LOOKS {
        if end <= now(system) {
            break;
        }
        if first_with(system, alloc, entry.as_str())?.is_none() {
            return Ok(());
        }
        thread::sleep(system, Duration::from_millis(PAUSE));
    }
    match first_with(system, alloc, entry.as_str())? {
        None => Ok(()),
        Some(process) => {
            let busy = Error::other("it is a command of the run that was cut off");
            at(alloc, process.as_str(), Err(Fault::from(busy)))
        }
    }
}
