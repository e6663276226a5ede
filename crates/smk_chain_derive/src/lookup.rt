//! Paths in a set, looked up by what they overlap.

ghost use Rattle.std.specs.Prelude.{◌≡◌, ◌++◌, ℕ, List as Items, ◌<◌, length, take, slice_index, IfOk, bytes_eq, string_bytes, false, true};
ghost use Rattle.std.specs.BTreeSet.{contains_text};
ghost use Rattle.smk_base.specs.Path.{is_under, overlaps};
ghost use Rattle.smk_world.specs.Trees.{Path};

use smk_base::{OutOfMemory, PathText};
use std::alloc::{AllocError, Global};
use std::collections::BTreeSet;

// Whether the text has a slash there, and the set what stands before it.
fn has_front(set: &BTreeSet<String>, text: &str, i: usize) -> bool
    requires { i < length text.now }
    ensures { result ≡ false → slice_index text.now i ≡ 47 → contains_text set.now (take i text.now) ≡ false }
{
    text.as_bytes()[i] == b'/' && set.contains(&text[..i])
}

// Whether the set has a folder above the path.
fn has_above(set: &BTreeSet<String>, path: &PathText) -> bool
    ensures { result ≡ false → (q : Path) → is_under path.now q ≡ true → contains_text set.now q ≡ false }
{
    let text = path.as_str();
    for i in 0..text.len() {
        if has_front(set, text, i) {
            return true;
        }
    }
    false
}

fn with_end(alloc: Global, path: &PathText, end: &str) -> Result<String, AllocError>
    ensures { IfOk result (λ text. string_bytes text ≡ path.now ++ end.now) }
{
    let mut text = String::from_str(alloc, path.as_str())?;
    text.push_str(end)?;
    Ok(text)
}

// Whether the set has a path under this one: those stand together, from `p/` to before `p0`.
fn has_under(alloc: Global, set: &BTreeSet<String>, path: &PathText) -> Result<bool, OutOfMemory>
    ensures { IfOk result (λ found. found ≡ false → (q : Path) → is_under q path.now ≡ true → contains_text set.now q ≡ false) }
{
    let low = with_end(alloc, path, "/")?;
    let high = with_end(alloc, path, "0")?;
    match set.range(low..high).next() {
        Some(_) => Ok(true),
        None => Ok(false),
    }
}

/// Whether the set has another path that overlaps this one.
pub(crate) fn has_other(
    alloc: Global,
    set: &BTreeSet<String>,
    path: &PathText,
) -> Result<bool, OutOfMemory>
    ensures { IfOk result (λ found. found ≡ false → (q : Path) → overlaps path.now q ≡ true → bytes_eq path.now q ≡ false → contains_text set.now q ≡ false) }
{
    if has_under(alloc, set, path)? {
        return Ok(true);
    }
    Ok(has_above(set, path))
}
