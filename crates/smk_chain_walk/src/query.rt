//! What chains and walks are asked about.

use smk_chain::Listings;
use smk_choose::Sources;
use smk_choose_wants::Guide;
use smk_flow::Workflow;

/// What is the same at each path of a chain or a walk: the workflow, what is known of sources, the listings, and what was made of these before.
#[derive(Drop)]
pub(crate) struct Query<'q> {
    pub(crate) flow: &'q Workflow,
    pub(crate) sources: &'q Sources,
    pub(crate) lists: &'q Listings,
    pub(crate) guide: &'q Guide<'q>,
}
