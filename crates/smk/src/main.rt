//! The command `smk`: it makes the real devices, and ends with the status of the call on them.
#![tactic(auto)]

mod calling;
mod help;
mod missing;
mod second;
mod serving;
mod unread;

use help::HELP;
use second::SEE_HELP;
use serving::serve;
use smk_base::OutOfMemory;
use smk_trial::{Fault, asked_generating, serve_generating, tell_fault};
use smk_world_real::RealSink;
use std::alloc::{AllocError, Global};
use std::io::{ErrorKind, IsTerminal};
use std::process::ExitCode;
use std::rt::Env;
use std::{env, io};

const VERSION: &str = "smk 0.1.0\n";

const BAD_WORDS: u8 = 2;

const OUT_OF_MEMORY: u8 = 5;

const OUTPUT: u8 = 6;

fn main(rt: HostRuntime) -> ExitCode {
    let alloc = rt.alloc();
    let words = match words_of(&rt, alloc) {
        Ok(words) => words,
        Err(error) if error.kind() == ErrorKind::OutOfMemory => {
            let _ = rt.eprintln("smk: out of memory");
            return ExitCode::from(OUT_OF_MEMORY);
        }
        Err(_) => {
            let _ = rt.eprintln("smk: words not read");
            if rt.stderr().is_terminal() {
                let _ = rt.eprint(SEE_HELP);
            }
            return ExitCode::from(BAD_WORDS);
        }
    };
    if let [word] = words.as_slice() {
        match word.as_str() {
            "--help" => return told(&rt, HELP),
            "--version" => return told(&rt, VERSION),
            _ => {}
        }
    }
    match asked_generating(alloc, words.as_slice()) {
        Ok(Some(asked)) => {
            let mut output = RealSink::output(rt.stdout(), None);
            let mut errors = RealSink::errors(rt.stderr(), None);
            let status = serve_generating(&rt, alloc, asked, &mut output, &mut errors);
            ExitCode::from(status)
        }
        Ok(None) => {
            let (output, errors) = (rt.stdout(), rt.stderr());
            ExitCode::from(serve(&rt, alloc, words.as_slice(), output, errors))
        }
        Err(OutOfMemory) => {
            let mut errors = RealSink::errors(rt.stderr(), None);
            ExitCode::from(tell_fault(alloc, &Fault::OutOfMemory, &mut errors))
        }
    }
}

// The words after the program's name.
fn words_of<R: Env + AllocGlobal>(rt: &R, alloc: Global) -> io::Result<Vec<String>> {
    let mut words = Vec::new(alloc);
    for word in env::args(rt)?.skip(1) {
        words.push(word)?;
    }
    Ok(words)
}

fn told(rt: &impl Print, text: &str) -> ExitCode {
    match rt.print(text) {
        Ok(()) => ExitCode::SUCCESS,
        Err(_) => ExitCode::from(OUTPUT),
    }
}
