//! What a run would do: the jobs that targets call for and their states, as the folder stands; and laws on the links between these jobs.
#![tactic(auto)]

ghost use Rattle.smk_plan_preview.specs.Links.{LinkedAreMade, LinkedTellSources};

mod chaining;
mod faults;
mod finding;
mod listing;
mod previewing;
mod rounds;

pub use faults::{of_chain, of_look, of_plan, of_sight};
pub use finding::{derived, looked, sighted, stored};
pub use listing::add_listings;
pub use previewing::{Previewed, preview};

/// Laws of links, which give what `facts` and `wholes` ask of the jobs that are derived for some targets. The makers tell of each source among their inputs. And a
/// path that is told to be made by the job of a number is an output of that job, or a member of one.
pub fn links_tell()
    ensures sources { LinkedTellSources }
    ensures made { LinkedAreMade }
{}
