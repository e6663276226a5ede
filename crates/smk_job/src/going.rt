ghost use Rattle.std.specs.Prelude.{◌≡◌};

use smk_base::{Bytes, List, PathText};
use smk_record::Stamp;
use smk_store::JobPlaces;
use smk_world::{Out, Recipe};
use std::marker::Model;

/// All that it takes to begin a job and to close it.
#[derive(Drop)]
pub(crate) struct Ready {
    pub(crate) recipe: Recipe,
    pub(crate) logs: List<PathText>,
    /// The stamps of the inputs, in order.
    pub(crate) stamps: List<Stamp>,
    /// The serial.
    pub(crate) made: u64,
    /// The outputs in order.
    pub(crate) outs: List<Out>,
    pub(crate) places: JobPlaces,
    /// The bytes of the records without members, outputs in order.
    pub(crate) records: List<Bytes>,
}

/// A job whose command runs, or has ended, with all that it takes to close it. Contracts see its recipe and logs, the stamps and the
/// serial of its records, and the number of its child.
#[derive(Drop)]
pub struct Going {
    pub(crate) ready: Ready,
    pub(crate) number: u64,
}

impl Model for Going {
    ghost use Rattle.smk_job.specs.Jobs.{Underway, underway, IsReady};

    ghost Value = { Underway };

    ghost view = { λ g. underway g.ready.recipe g.ready.logs g.ready.stamps g.ready.made g.number };

    ghost invariant = { λ g. IsReady g.ready.recipe g.ready.logs g.ready.stamps g.ready.made g.ready.outs g.ready.places g.ready.records };
}

impl Going {
    /// The number of the job's child, as its start answered it.
    pub fn number(&self) -> u64
        ensures { result ≡ self.now.number }
    {
        self.number
    }
}
