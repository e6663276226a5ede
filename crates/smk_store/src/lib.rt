//! Records, marks and notes that stand in the working folder.
#![tactic(auto)]

mod fault;
mod forgetting;
mod loading;
mod names;
mod places;
mod serials;
mod sources;
mod steadying;
mod steps;
mod store;

pub use fault::StoreFault;
pub use forgetting::forget;
pub use loading::load;
pub use places::JobPlaces;
pub use steadying::steady;
pub use steps::{drop_records, lock, mark, put_records, unlock, unmark};
pub use store::{Entry, Kept, Store};
