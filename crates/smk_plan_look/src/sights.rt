//! One path: what stands there.

ghost use Rattle.std.specs.Prelude.{◌≡◌, true, IfOk};
ghost use Rattle.smk_world.specs.World.{reading, reads_folder};
ghost use Rattle.smk_world.specs.Calls.{stat_of, device_failed};
ghost use Rattle.smk_world.specs.Devices.{HasLooked, WhereTold};
ghost use Rattle.smk_world.specs.Trees.{is_path_text};
ghost use Rattle.smk_store.specs.Unowned.{IsUnownedUnder};
ghost use Rattle.smk_plan_look.specs.Seeing.{IsListedAs, IsSightOf, is_folder_stat, members_in};

use crate::guards::{has_guard, is_read_only};
use smk_base::{List, PathText, Place};
use smk_plan::Sight;
use smk_record::Member;
use smk_store_members::{Listed, members_of};
use smk_world::{Files, Stat, WorkFault};
use std::alloc::Global;

// Whether a folder is there.
fn is_folder(stat: Stat) -> bool
    ensures { result ≡ is_folder_stat stat }
{
    match stat {
        Stat::Nothing => false,
        Stat::File { .. } => false,
        Stat::Folder => true,
    }
}

// The members, where there are any that a record may have.
fn members_in(listed: Listed) -> Option<List<Member>>
    ensures { result ≡ members_in listed }
{
    match listed {
        Listed::Members(members) => Some(members),
        Listed::BadMember => None,
    }
}

// All that is under the folder, where a record may have it.
fn members_at<W: Files>(
    alloc: Global,
    work: &mut W,
    path: &PathText,
) -> Result<Option<List<Member>>, WorkFault>
    ensures looked { HasLooked W.act (W.device work.old) (W.device work.new) (device_failed result) }
    ensures told { IfOk result (λ members. WhereTold (W.device work.old) (λ w. IsUnownedUnder w.nodes path.now → reads_folder (w.nodes path.now) ≡ true → IsListedAs w.nodes path.now members)) }
{
    let listed = members_of(alloc, work, path)?;
    Ok(members_in(listed))
}

// What is seen of a folder.
fn folder_at<W: Files>(
    alloc: Global,
    work: &mut W,
    path: PathText,
    place: &Place,
    stat: Stat,
) -> Result<Sight, WorkFault>
    requires at { place.now ≡ path }
    ensures looked { HasLooked W.act (W.device work.old) (W.device work.new) (device_failed result) }
    ensures path { IfOk result (λ s. s.path ≡ path) }
    ensures told { IfOk result (λ s. WhereTold (W.device work.old) (λ w. IsUnownedUnder w.nodes path → is_path_text path ≡ true → reads_folder (w.nodes path) ≡ true
        → stat ≡ stat_of (reading (w.nodes path)) → IsSightOf w.nodes path s)) }
{
    let members = members_at(alloc, work, &path)?;
    let guarded = has_guard(alloc, work, place)?;
    Ok(Sight {
        path,
        stat,
        members,
        guarded,
        sum: None,
    })
}

/// What is seen of the path, without a digest: what stands there; of a folder all that is under it, where a record may have it; and whether a read-only file stands
/// there or under it. Nothing is changed.
///
/// `WorkFault::Failed` where a call of the device failed, `WorkFault::OutOfMemory` where there is no memory for what is found.
pub fn sight_at<W: Files>(alloc: Global, work: &mut W, path: PathText) -> Result<Sight, WorkFault>
    ensures looked { HasLooked W.act (W.device work.old) (W.device work.new) (device_failed result) }
    ensures path { IfOk result (λ s. s.path ≡ path) }
    ensures told { IfOk result (λ s. WhereTold (W.device work.old) (λ w. IsUnownedUnder w.nodes path → is_path_text path ≡ true → IsSightOf w.nodes path s)) }
{
    let place = Place::user(alloc, &path)?;
    let stat = work.stat(&place)?;
    if is_folder(stat) {
        let sight = folder_at(alloc, work, path, &place, stat)?;
        return Ok(sight);
    }
    Ok(Sight {
        path,
        stat,
        members: None,
        guarded: is_read_only(stat),
        sum: None,
    })
}
