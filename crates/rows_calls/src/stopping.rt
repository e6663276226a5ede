//! Runs that are stopped after each of their calls, or of which a call fails: how many ended wrong.

use crate::failures::failed_everywhere;
use crate::row::{Change, Row};
use crate::stops::{Calls, Count, calls_of, stopped_everywhere};
use rows_lines::{Trouble, push_case};
use std::alloc::{AllocError, Global};
use std::thread::Threads;

const COPY: &str =
    "rule copy:\n    input: \"in.txt\"\n    output: \"out.txt\"\n    log: \"log/out.txt\"\n    shell: \"cat {input} > {output} 2> {log}\"\n";

const THREADS: &str =
    "rule two:\n    input: \"{x}.i\"\n    output: \"{x}.o\"\n    threads: 2\n    shell: \"cat {input} > {output}\"\n";

const CHECKPOINT: &str =
    "checkpoint clustering:\n    input: \"samples/{sample}.txt\"\n    output: clusters=directory(\"clustering/{sample}\")\n    shell: \"lines {input} {output}\"\nrule intermediate:\n    input: \"clustering/{sample}/{i}.txt\"\n    output: \"post/{sample}/{i}.txt\"\n    shell: \"cat {input} > {output}\"\nrule aggregate:\n    input: from_checkpoint(clustering, \"{i}.txt\", \"post/{sample}/{i}.txt\")\n    output: \"aggregated/{sample}.txt\"\n    shell: \"cat {input} > {output}\"\n";

const TEMPORARY: &str =
    "rule t:\n    input: \"s\"\n    output: temp(\"t\")\n    shell: \"cat {input} > {output}\"\nrule u:\n    input: \"t\"\n    output: \"u\"\n    shell: \"cat {input} > {output}\"\nrule v:\n    input: \"t\"\n    output: \"v\"\n    shell: \"cat {input} > {output}\"\n";

// The same, but for the command of one rule.
const TEMPORARY_LATER: &str =
    "rule t:\n    input: \"s\"\n    output: temp(\"t\")\n    shell: \"cat {input} > {output}\"\nrule u:\n    input: \"t\"\n    output: \"u\"\n    shell: \"cat {input} > {output}\"\nrule v:\n    input: \"t\"\n    output: \"v\"\n    shell: \"cp -p {input} {output}\"\n";

// Adds how many were tried, and how many ended wrong.
fn push_count(text: &mut String, word: &str, count: Count) -> Result<(), AllocError> {
    write!(text, ", {} {word}, {} wrong", count.tried, count.wrong)?;
    if count.first != 0 {
        write!(text, " (first at call {})", count.first)?;
    }
    Ok(())
}

// What is told of the run with so many calls.
fn told_of<Rt: Threads + Sync>(
    rt: &Rt,
    alloc: Global,
    row: &Row,
    calls: Calls,
) -> Result<String, Trouble> {
    let own = calls.all.saturating_sub(calls.before);
    let stops = stopped_everywhere(rt, alloc, row, calls)?;
    let failures = failed_everywhere(rt, alloc, row, calls)?;
    let mut text = format!(in alloc; "{own} calls")?;
    push_count(&mut text, "stops", stops)?;
    push_count(&mut text, "failures", failures)?;
    Ok(text)
}

// What is told of the run.
fn told<Rt: Threads + Sync>(rt: &Rt, alloc: Global, row: &Row) -> Result<String, Trouble> {
    match calls_of(rt, alloc, row)? {
        Some(calls) => told_of(rt, alloc, row, calls),
        None => Ok(String::from_str(alloc, "the targets aren't made")?),
    }
}

/// Adds the line of each run.
pub fn push_rows<Rt: Threads + Sync>(
    rt: &Rt,
    alloc: Global,
    text: &mut String,
) -> Result<(), AllocError> {
    for (name, row) in [
        (
            "stops in a copy",
            Row {
                workflow: COPY,
                files: &[("in.txt", "hello\n")],
                change: Change::Nothing,
                words: &["--cores", "1", "out.txt"],
                wanted: &[("out.txt", "hello\n")],
            },
        ),
        (
            "stops in a copy after an edit",
            Row {
                workflow: COPY,
                files: &[("in.txt", "hello\n")],
                change: Change::File("in.txt", "bye\n"),
                words: &["--cores", "1", "out.txt"],
                wanted: &[("out.txt", "bye\n")],
            },
        ),
        (
            "stops in three jobs side by side",
            Row {
                workflow: THREADS,
                files: &[("a.i", "a\n"), ("b.i", "b\n"), ("c.i", "c\n")],
                change: Change::Nothing,
                words: &["--cores", "6", "a.o", "b.o", "c.o"],
                wanted: &[("a.o", "a\n"), ("b.o", "b\n"), ("c.o", "c\n")],
            },
        ),
        (
            "stops in a checkpoint",
            Row {
                workflow: CHECKPOINT,
                files: &[("samples/a.txt", "x\ny\n")],
                change: Change::Nothing,
                words: &["--cores", "1", "aggregated/a.txt"],
                wanted: &[("aggregated/a.txt", "x\ny\n")],
            },
        ),
        (
            "stops in a temporary output",
            Row {
                workflow: TEMPORARY,
                files: &[("s", "s\n")],
                change: Change::Nothing,
                words: &["--cores", "1", "u", "v"],
                wanted: &[("u", "s\n"), ("v", "s\n")],
            },
        ),
        (
            "stops in a temporary output that is restored",
            Row {
                workflow: TEMPORARY,
                files: &[("s", "s\n")],
                change: Change::Workflow(TEMPORARY_LATER),
                words: &["--cores", "1", "u", "v"],
                wanted: &[("u", "s\n"), ("v", "s\n")],
            },
        ),
    ] {
        push_case(text, name, &told(rt, alloc, &row))?;
    }
    Ok(())
}
