//! What changed the world of a workspace, in order: its world is where these steps lead.
use smk_base::Place;
use smk_world::{Event, Node};

/// What changed the world.
#[derive(Drop)]
pub enum Step {
    /// A call.
    Happened(Event),
    /// A node was put there, firmly, and folders above it.
    Put(Place, Node),
    /// What stood at and under the place is gone, firmly.
    Gone(Place),
}
