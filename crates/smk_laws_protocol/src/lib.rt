//! The protocol of a run, and the law that it keeps every crash image sound.
#![tactic(auto)]
