//! Copies of what was seen of paths.

ghost use Rattle.std.specs.Prelude.{◌≡◌, option_map, IfOk};

use smk_base::{Copied, List, OutOfMemory};
use smk_plan::Sight;
use smk_plan_facts::members_again;
use smk_record::Member;
use std::alloc::Global;

// A copy of the members, where there are some.
fn members_if_any(
    alloc: Global,
    members: &Option<List<Member>>,
) -> Result<Option<List<Member>>, OutOfMemory>
    ensures { IfOk result (λ copy. copy ≡ members.now) }
{
    match members {
        None => Ok(None),
        Some(members) => {
            let copy = members_again(alloc, members.as_slice())?;
            Ok(Some(copy))
        }
    }
}

/// A copy of the sight.
pub(crate) fn sight_again(alloc: Global, sight: &Sight) -> Result<Sight, OutOfMemory>
    ensures { IfOk result (λ copy. copy ≡ sight.now) }
{
    Ok(Sight {
        path: sight.path.copied(alloc)?,
        stat: sight.stat,
        members: members_if_any(alloc, &sight.members)?,
        guarded: sight.guarded,
        sum: sight.sum,
    })
}

/// A copy of the sight, where there is one.
pub(crate) fn sight_if_any(
    alloc: Global,
    sight: Option<&Sight>,
) -> Result<Option<Sight>, OutOfMemory>
    ensures { IfOk result (λ copy. copy ≡ option_map (λ s. s.now) sight.entry) }
{
    match sight {
        None => Ok(None),
        Some(sight) => {
            let copy = sight_again(alloc, sight)?;
            Ok(Some(copy))
        }
    }
}
