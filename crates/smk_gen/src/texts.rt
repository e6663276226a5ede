//! The text of the workflow, and those of the sources with their paths.

ghost use Rattle.std.specs.Prelude.{◌≡◌, ◌≤◌, IfOk, OnOk, ◌++◌, string_bytes};
ghost use Rattle.smk_gen.specs.Files as spec;

use smk_base::{Bytes, OutOfMemory, PathText};
use std::alloc::{AllocError, Global};

// The end of the list of the samples, and what stands behind it.
const RULES: &str = " ]
rule all :
    input : \"total.txt\"
rule one :
    input : \"s/{i}.txt\"
    output : \"m/{i}.txt\"
    shell : \"cat {input} > {output}\"
rule total :
    input : expand ( \"m/{i}.txt\" , i = IDS )
    output : \"total.txt\"
    shell : \"cat {input} > {output}\"
";

// Adds a sample to the list of them.
fn push_sample(text: &mut String, number: u64) -> Result<(), AllocError>
    ensures { OnOk result (string_bytes text.new ≡ string_bytes text.old ++ spec.sample_text number) }
{
    write!(text, " \"{number}\" ,")
}

// The list of the samples, but for its end.
fn sample_list(alloc: Global, size: u64) -> Result<String, AllocError>
    requires { size ≤ 2000 }
    ensures { IfOk result (λ text. string_bytes text ≡ spec.list_text size) }
{
    let mut text = String::from_str(alloc, "IDS = [")?;
    for before in 0..size {
        push_sample(&mut text, before + 1)?;
    }
    Ok(text)
}

/// The text of the workflow of so many samples. `OutOfMemory` where there is no memory for it.
pub fn snakefile(alloc: Global, size: u64) -> Result<Bytes, OutOfMemory>
    requires { size ≤ 2000 }
    ensures { IfOk result (λ snakefile. snakefile ≡ spec.snakefile_text size) }
{
    let mut text = sample_list(alloc, size)?;
    text.push_str(RULES)?;
    Bytes::of(alloc, text.as_bytes())
}

/// What the source of this number holds. `AllocError` where there is no memory for it.
pub fn source_text(alloc: Global, seed: u64, number: u64) -> Result<String, AllocError>
    requires seeds { seed ≤ 4294967295 }
    requires numbers { number ≤ 2000 }
    ensures { IfOk result (λ text. string_bytes text ≡ spec.source_text seed number) }
{
    let value = (seed * 31 + number * 17) % 1000;
    format!(in alloc; "{value}\n")
}

/// Where the source of this number stands. `OutOfMemory` where there is no memory for its path.
pub fn source_path(alloc: Global, number: u64) -> Result<PathText, OutOfMemory>
    ensures { IfOk result (λ path. path ≡ spec.source_path number) }
{
    let text = format!(in alloc; "s/{number}.txt")?;
    path_of(alloc, text.as_str())
}

// The path that the word spells; a word that spells none can't be kept either.
pub fn path_of(alloc: Global, word: &str) -> Result<PathText, OutOfMemory>
    ensures { IfOk result (λ path. path ≡ word.now) }
{
    match PathText::read(alloc, word) {
        Ok(path) => Ok(path),
        Err(_) => Err(OutOfMemory),
    }
}
