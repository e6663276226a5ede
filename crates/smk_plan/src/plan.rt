use smk_base::List;
use smk_chain::Listings;
use smk_trigger::State;

/// A state for each job, whether each target is current, and the listings that have become known.
#[derive(Drop)]
pub struct Plan {
    pub states: List<State>,
    pub current: List<bool>,
    pub known: Listings,
}
