//! What is kept of jobs as flags: what of theirs is whole, what may be refused of them, whether they have reasons of their own, and which makers name them.

use crate::slots::Slots;
use smk_base::List;
use smk_plan_states::Own;
use smk_plan_table::Suspect;

/// What is whole of the jobs, what may be refused of them, and which have reasons of their own, now; and which makers name them.
#[derive(Drop)]
pub struct Flags {
    /// For each job, for each of its outputs in order: whether it is whole.
    pub(crate) outputs: Slots<List<bool>>,
    /// For each maker: whether its path is whole.
    pub(crate) makers: Slots<bool>,
    /// For each job what may be refused of it.
    pub(crate) suspects: Slots<Suspect>,
    /// For each job whether it has reasons of its own, so far as that is known: of a job above which one is Dirty it need not be.
    pub(crate) own: Slots<Own>,
    /// For each job whether it is forced.
    pub(crate) forced: Slots<bool>,
    /// For each job the numbers of the makers that name it, rising.
    pub(crate) made: Slots<List<usize>>,
}
