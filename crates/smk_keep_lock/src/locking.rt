//! Taking the lock, and releasing it.

ghost use Rattle.std.specs.Prelude.{◌≡◌, [], ◌∷◌, IfOk, is_err};
ghost use Rattle.smk_base.specs.Place.{lock_place};
ghost use Rattle.smk_world.specs.Devices.{HasActed};
ghost use Rattle.smk_keep_lock.specs.Locking.{HasTaken, HasReleased};

use smk_base::{List, OutOfMemory, Place};
use smk_store::{lock, unlock};
use smk_world::{Failed, Files};
use std::alloc::Global;
use std::marker::Model;

/// The lock of the working folder. Who has it at hand can take and release it without want of memory.
#[derive(Drop)]
pub struct Lock {
    places: List<Place>,
}

impl Model for Lock {
    ghost use Rattle.std.specs.Prelude.{◌≡◌, ℕ, List, [], ◌∷◌};
    ghost use Rattle.smk_base.specs.Place.{lock_place};

    ghost Value = { List (List ℕ) };

    ghost view = { λ l. l.places };

    ghost invariant = { λ l. l.places ≡ lock_place ∷ [] };
}

impl Lock {
    /// The lock, which is neither taken nor released by this. `OutOfMemory` where there is no memory for its place.
    pub fn new(alloc: Global) -> Result<Lock, OutOfMemory>
        ensures { IfOk result (λ made. made ≡ lock_place ∷ []) }
    {
        let mut places = List::new(alloc);
        places.push(Place::lock(alloc)?)?;
        Ok(Lock { places })
    }

    /// Takes the lock, firmly: true. False exactly where something stood at its place; then nothing is changed. No child may run.
    ///
    /// `Failed`: one of the calls failed, and none came after it. The lock may stand then.
    pub fn take<W: Files>(&self, work: &mut W) -> Result<bool, Failed>
        requires none_runs { (W.device work.old).running ≡ [] }
        ensures { HasActed W.act (HasTaken result) (W.device work.old) (W.device work.new) (is_err result) }
    {
        lock(work, &self.places)
    }

    /// Removes the lock for good, whoever took it. No child may run.
    ///
    /// `Failed`: one of the calls failed, and none came after it. The lock may stand then.
    pub fn release<W: Files>(&self, work: &mut W) -> Result<(), Failed>
        requires none_runs { (W.device work.old).running ≡ [] }
        ensures { HasActed W.act (HasReleased result) (W.device work.old) (W.device work.new) (is_err result) }
    {
        unlock(work, &self.places)
    }
}
