//! What a kept plan stands on: the jobs, how far each has come, and what is known and was seen of paths.

use crate::Phase;
use crate::sites::Site;
use crate::slots::Slots;
use smk_base::{List, PathText};
use smk_chain::Jobs;
use smk_plan::{Seen, Sight};
use smk_store::{Entry, Store};
use smk_trigger::State;
use std::collections::{BTreeMap, BTreeSet};

/// The jobs, how far each of them has come, and what is known and was seen of paths.
#[derive(Drop)]
pub struct Base {
    pub(crate) jobs: Jobs,
    /// What is known of paths, but for the outputs of jobs with a row of their own.
    pub(crate) store: Store,
    /// What was seen at paths as the plan began, but for the outputs of jobs with a row of their own.
    pub(crate) seen: Seen,
    /// What was seen since, as new jobs came.
    pub(crate) later: BTreeMap<String, Sight>,
    /// The paths at which it was seen.
    pub(crate) came: List<PathText>,
    /// For a job what is known of its outputs, in their order, where that came later than the store.
    pub(crate) entries: Slots<Option<Slots<Option<Entry>>>>,
    /// For a job what was seen at its outputs, in their order, where that came later than the rest.
    pub(crate) sights: Slots<Option<Slots<Option<Sight>>>>,
    /// Where each output stands.
    pub(crate) sites: BTreeMap<String, Site>,
    /// The paths that no job makes.
    pub(crate) sources: BTreeSet<String>,
    pub(crate) phases: Slots<Phase>,
    /// The state that each job had when it began, if its child runs.
    pub(crate) began: Slots<Option<State>>,
}
