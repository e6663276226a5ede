//! The contents that are digested.

ghost use Rattle.std.specs.Prelude.{◌≡◌, ◌≢◌, IfOk};
ghost use Rattle.smk_world.specs.declared.event.NodeState.TheVariants.{Owned};
ghost use Rattle.smk_world.specs.World.{reading};
ghost use Rattle.smk_world.specs.Calls.{device_failed};
ghost use Rattle.smk_world.specs.Devices.{HasLooked, WhereTold};
ghost use Rattle.smk_digest.specs.Digests.{AreContents, content_in, held};

use smk_base::{Bytes, List, PathText, Place};
use smk_world::{Files, Found, WorkFault};
use std::alloc::Global;

// A file of more bytes isn't digested.
const SUM_LIMIT: u64 = 1_048_576;

// The bytes that were read, if any.
fn held(found: Found) -> Option<Bytes>
    ensures { result ≡ held found }
{
    match found {
        Found::Nothing => None,
        Found::TooBig(_) => None,
        Found::Held(bytes) => Some(bytes),
    }
}

// The bytes of the file at the path, where one is there that isn't too big.
fn content_at<W: Files>(
    alloc: Global,
    work: &mut W,
    path: &PathText,
) -> Result<Option<Bytes>, WorkFault>
    ensures looked { HasLooked W.act (W.device work.old) (W.device work.new) (device_failed result) }
    ensures told { IfOk result (λ content. WhereTold (W.device work.old) (λ w. w.nodes path.now ≢ Owned → content ≡ content_in (reading (w.nodes path.now)))) }
{
    let place = Place::user(alloc, path)?;
    let found = work.read(alloc, &place, SUM_LIMIT)?;
    Ok(held(found))
}

/// The bytes of the file at each path, in order, where one is there that isn't too big.
pub(crate) fn contents_at<W: Files>(
    alloc: Global,
    work: &mut W,
    paths: &[PathText],
) -> Result<List<Option<Bytes>>, WorkFault>
    ensures looked { HasLooked W.act (W.device work.old) (W.device work.new) (device_failed result) }
    ensures told { IfOk result (λ contents. WhereTold (W.device work.old) (λ w. AreContents w paths.now contents)) }
{
    let mut contents = List::new(alloc);
    for path in paths {
        let content = content_at(alloc, work, path)?;
        contents.push(content)?;
    }
    Ok(contents)
}
