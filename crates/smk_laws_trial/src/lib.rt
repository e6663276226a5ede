//! The law of a trial of the program: what its second run starts.
#![tactic(auto)]

ghost use Rattle.smk_laws_trial.specs.Second.{SecondRunStartsNothing};

/// The second run of a trial starts nothing, if no two different texts of its files have the same SHA-256.
pub fn second_runs_start_nothing()
    ensures { SecondRunStartsNothing }
{}
