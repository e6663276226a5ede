//! Names of wildcards, compared.

ghost use Rattle.std.specs.Prelude.{◌≡◌, ◌++◌, IfOk, OnOk};
ghost use Rattle.std.specs.List.{list_all};
ghost use Rattle.smk_pattern.specs.Searching.{now_of};
ghost use Rattle.smk_flow.specs.Checks.{has, are_same, are_all_same, unknown_in};

use smk_base::OutOfMemory;
use smk_flow::names::{names_of, wildcards_of};
use std::alloc::Global;

// Whether the name is one of these.
pub(crate) fn has(names: &[&str], name: &str) -> bool
    ensures { result ≡ has (now_of names.now) name.now }
{
    for other in names {
        if name == *other {
            return true;
        }
    }
    false
}

// Whether each of the others is one of the names.
fn has_all(names: &[&str], others: &[&str]) -> bool
    ensures { result ≡ list_all (has (now_of names.now)) (now_of others.now) }
{
    for other in others {
        if !has(names, other) {
            return false;
        }
    }
    true
}

// Whether they are the same names. They are few, so each is looked for among all.
fn are_same(a: &[&str], b: &[&str]) -> bool
    ensures { result ≡ are_same (now_of a.now) (now_of b.now) }
{
    has_all(b, a) && has_all(a, b)
}

// Whether the texts all have the same names.
pub(crate) fn are_all_same(alloc: Global, texts: &[&str]) -> Result<bool, OutOfMemory>
    ensures { IfOk result (λ same. same ≡ are_all_same (now_of texts.now)) }
{
    let first = wildcards_of(alloc, texts)?;
    for text in texts {
        let names = names_of(alloc, text)?;
        if !are_same(&first, &names) {
            return Ok(false);
        }
    }
    Ok(true)
}

// Adds those of these names that aren't known.
pub(crate) fn add_unknown<'p>(
    found: &mut Vec<&'p str>,
    known: &[&str],
    names: &[&'p str],
) -> Result<(), OutOfMemory>
    ensures { OnOk result (now_of found.new.items ≡ now_of found.old.items ++ unknown_in (now_of known.now) (now_of names.now)) }
{
    for name in names {
        if !has(known, name) {
            found.push(name)?;
        }
    }
    Ok(())
}

// Adds these names.
pub(crate) fn add_names<'p>(found: &mut Vec<&'p str>, names: &[&'p str]) -> Result<(), OutOfMemory>
    ensures { OnOk result (now_of found.new.items ≡ now_of found.old.items ++ now_of names.now) }
{
    for name in names {
        found.push(name)?;
    }
    Ok(())
}
