//! What a derivation goes by.

ghost use Rattle.std.specs.Prelude.{IfOk};
ghost use Rattle.smk_flow.specs.Flows.{Flow};
ghost use Rattle.smk_choose.specs.Index.{AreReadings};
ghost use Rattle.smk_choose_wants.specs.Guides.{IsGuide};

use crate::Places;
use smk_base::OutOfMemory;
use smk_chain::Listings;
use smk_choose::Readings;
use std::alloc::Global;

/// What was read of the rules, and where the listings stand: all that is made before a path is looked at.
#[derive(Drop)]
pub struct Guide<'r> {
    pub readings: &'r Readings,
    pub places: Places,
}

impl<'r> Guide<'r> {
    /// The guide by what was read of the rules of a workflow, and by these listings. `OutOfMemory` where there is no memory for it.
    pub fn of(
        alloc: Global,
        readings: &'r Readings,
        lists: &Listings,
    ) -> Result<Guide<'r>, OutOfMemory>
        ensures { (flow : Flow) → AreReadings flow readings.now → IfOk result (IsGuide flow lists.now) }
    {
        let places = Places::of(alloc, lists)?;
        Ok(Guide { readings, places })
    }
}
