//! What is known and was seen of the outputs of a job.

ghost use Rattle.std.specs.Prelude.{◌≡◌, ◌<◌, length, slice_index_or};
ghost use Rattle.smk_plan_live.specs.Carried.{filled};

use crate::base::Base;
use crate::slots::Slots;
use smk_plan::Sight;
use smk_store::Entry;

/// What is known and was seen of the outputs of a job, in their order.
#[derive(Drop)]
pub(crate) struct Rows {
    pub(crate) entries: Slots<Option<Entry>>,
    pub(crate) sights: Slots<Option<Sight>>,
}

impl Base {
    /// These are what is known and was seen of the outputs of the job of the number. It gives what was told before.
    pub(crate) fn fill(
        &mut self,
        number: usize,
        row: Option<Slots<Option<Entry>>>,
        sights: Option<Slots<Option<Sight>>>,
    ) -> (Option<Slots<Option<Entry>>>, Option<Slots<Option<Sight>>>)
        requires row { number < length self.old.entries }
        requires sights { number < length self.old.sights }
        ensures now { self.new ≡ filled number row sights self.old }
        ensures row { result.0 ≡ slice_index_or self.old.entries number result.0 }
        ensures sights { result.1 ≡ slice_index_or self.old.sights number result.1 }
    {
        let before = self.entries.swap(number, row);
        let saw = self.sights.swap(number, sights);
        (before, saw)
    }
}
