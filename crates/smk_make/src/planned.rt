use smk_base::List;
use smk_chain::Jobs;
use smk_store::Store;
use smk_trigger::State;

/// A plan that is to be made: its jobs, the state of each, and the store by which it was made.
#[derive(Clone, Copy)]
pub struct Planned<'p> {
    pub jobs: &'p Jobs,
    pub states: &'p List<State>,
    pub store: &'p Store,
}
