//! What the commands of the workspace in memory do: a call with each of them, and what stands then at the outputs and the log of its job.

use crate::trial::{Trial, call_on, set_up_killing};
use rows_lines::{Trouble, push_case};
use smk_base::{PathText, Place};
use smk_world::{Files, Stat};
use std::alloc::{AllocError, Global};
use std::str;
use std::thread::Threads;

// A rule with this command, which makes what is listed.
fn workflow_of(alloc: Global, outputs: &str, command: &str) -> Result<String, AllocError> {
    Ok(format!(in alloc;
        "rule it:\n    input: \"in.txt\"\n    output: {outputs}\n    params: text=[\"a\", \"b c\"]\n    log: \"l\"\n    shell: \"{command}\"\n"
    )?)
}

// Adds what the file holds, and its time.
fn push_file(
    text: &mut String,
    trial: &Trial,
    path: &PathText,
    time: u64,
) -> Result<(), AllocError> {
    let bytes = trial.work.bytes_at(path).unwrap_or(&[]);
    let held = str::from_utf8(bytes).unwrap_or("?");
    write!(text, ", {} holds {held:?} since {time}", path.as_str())
}

// Adds what stands at the path.
fn push_place(
    alloc: Global,
    text: &mut String,
    trial: &mut Trial,
    path: &str,
) -> Result<(), Trouble> {
    let path = PathText::read(alloc, path)?;
    match trial.work.stat(&Place::user(alloc, &path)?)? {
        Stat::File { time, .. } => push_file(text, trial, &path, time)?,
        Stat::Folder => write!(text, ", {} is a folder", path.as_str())?,
        Stat::Nothing => {}
    }
    Ok(())
}

// How a call with the command on this input ends in this workspace.
fn told_in<Rt: Threads + Sync>(
    rt: &Rt,
    alloc: Global,
    outputs: &str,
    command: &str,
    input: &str,
    trial: &mut Trial,
) -> Result<String, Trouble> {
    let workflow = workflow_of(alloc, outputs, command)?;
    let status = call_on(rt, alloc, workflow.as_str(), input, "out", trial)?;
    let mut text = format!(in alloc; "status {status}")?;
    for path in ["out", "out/1.txt", "out/2.txt", "out/3.txt", "b", "l"] {
        push_place(alloc, &mut text, trial, path)?;
    }
    Ok(text)
}

// How a call with the command on this input ends, where the child with this number is killed.
fn told<Rt: Threads + Sync>(
    rt: &Rt,
    alloc: Global,
    outputs: &str,
    command: &str,
    input: &str,
    killed: Option<u64>,
) -> Result<String, Trouble> {
    let mut trial = set_up_killing(alloc, killed)?;
    told_in(rt, alloc, outputs, command, input, &mut trial)
}

/// Adds the lines of each command.
pub fn push_rows<Rt: Threads + Sync>(
    rt: &Rt,
    alloc: Global,
    text: &mut String,
) -> Result<(), AllocError> {
    for (name, outputs, command, input, killed) in [
        ("cat", "\"out\"", "cat {input} > {output}", "hello\n", None),
        (
            "cat with a log",
            "\"out\"",
            "cat {input} > {output} 2> {log}",
            "hello\n",
            None,
        ),
        (
            "cp -p",
            "\"out\"",
            "cp -p {input} {output}",
            "hello\n",
            None,
        ),
        (
            "tee",
            "\"out\", \"b\"",
            "cat {input} | tee {output} > /dev/null",
            "hello\n",
            None,
        ),
        (
            "echo",
            "\"out\"",
            "echo {params.text} > {output}",
            "hello\n",
            None,
        ),
        (
            "lines",
            "directory(\"out\")",
            "lines {input} {output}",
            "one\n\nlast",
            None,
        ),
        (
            "lines of one line, with a log",
            "directory(\"out\")",
            "lines {input} {output} 2> {log}",
            "hello\n",
            None,
        ),
        (
            "lines of nothing",
            "directory(\"out\")",
            "lines {input} {output}",
            "",
            None,
        ),
        (
            "lines into a file",
            "\"out\"",
            "lines {input} {output}",
            "hello\n",
            None,
        ),
        (
            "half with a log",
            "\"out\"",
            "half {input} > {output} 2> {log}",
            "hello\n",
            None,
        ),
        (
            "fail with a log",
            "\"out\"",
            "fail {input} 2> {log}",
            "hello\n",
            None,
        ),
        (
            "another command",
            "\"out\"",
            "sort {input} > {output}",
            "hello\n",
            None,
        ),
        (
            "lines with another word",
            "directory(\"out\")",
            "lines {input} > {output}",
            "hello\n",
            None,
        ),
        (
            "cat that is killed",
            "\"out\"",
            "cat {input} > {output}",
            "hello\n",
            Some(1),
        ),
        (
            "lines that are killed",
            "directory(\"out\")",
            "lines {input} {output}",
            "hello\n",
            Some(1),
        ),
    ] {
        push_case(
            text,
            name,
            &told(rt, alloc, outputs, command, input, killed),
        )?;
    }
    Ok(())
}
