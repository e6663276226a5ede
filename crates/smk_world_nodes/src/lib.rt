//! What a workspace in memory holds: the nodes that read now, their listings, and the steps that led to its world.
#![tactic(auto)]

mod firm;
mod folders;
mod listing;
mod nodes;
mod rooted;
mod step;

pub use firm::{new_file, put_firmly, take_firmly};
pub use folders::make_folders;
pub use listing::listing_of;
pub use nodes::Nodes;
pub use step::Step;
