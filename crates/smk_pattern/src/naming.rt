//! The names that stand in a text.

ghost use Rattle.std.specs.Prelude.{◌≡◌, [], IfOk, true, if◌then◌else◌};
ghost use Rattle.std.specs.List.{list_all};
ghost use Rattle.smk_pattern.specs.Grammar.{is_balanced};
ghost use Rattle.smk_pattern.specs.Reading.{names_in, pieces};
ghost use Rattle.smk_pattern.specs.Searching.{now_of};
ghost use Rattle.smk_pattern.specs.Splitting.{all_written};
ghost use Rattle.smk_pattern.specs.Written.{is_bare};

use crate::by_name::names_in;
use crate::splitting::{Written, split};
use smk_base::OutOfMemory;
use std::alloc::Global;

/// The names of the wildcards in a text, each where it first stands; none of a text whose braces aren't balanced. `OutOfMemory` where
/// there is no memory for the list.
pub fn wildcard_names<'t>(alloc: Global, text: &'t str) -> Result<Vec<&'t str>, OutOfMemory>
    ensures { IfOk result (λ names. now_of names.items ≡ (if is_balanced 0 text.now then names_in (pieces text.now) else [])) }
{
    match split(alloc, text)? {
        Some(written) => Ok(names_in(alloc, &written)?.list),
        None => Ok(Vec::new(alloc)),
    }
}

fn are_bare(written: &[Written]) -> bool
    ensures { result ≡ list_all is_bare (all_written written.now) }
{
    for piece in written {
        if let Written::Hole(_, Some(_)) = piece {
            return false;
        }
    }
    true
}

/// Whether no wildcard in a text has a constraint there. Of a text whose braces aren't balanced nothing is said. `OutOfMemory` where
/// there is no memory to look at it.
pub fn has_no_constraint(alloc: Global, text: &str) -> Result<bool, OutOfMemory>
    ensures { IfOk result (λ bare. is_balanced 0 text.now ≡ true → bare ≡ list_all is_bare (pieces text.now)) }
{
    match split(alloc, text)? {
        Some(written) => Ok(are_bare(&written)),
        None => Ok(true),
    }
}
