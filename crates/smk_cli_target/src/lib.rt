//! The call of the program as it is to be: what it promises.
#![tactic(auto)]

ghost use Rattle.smk_cli_target.specs.Files.{NoFaultyWorkflow, OneFirstFault, OneWorkflow};
ghost use Rattle.smk_cli_target.specs.Headline.{CameIsGood, CameIsHistory, ClausesAreMet, Headline};
ghost use Rattle.smk_cli_target.specs.Refusing.{MeetsOne};
ghost use Rattle.smk_cli_target.specs.Thrift.{NextRunStartsNone};

mod call;
mod ending;

pub use ending::Outcome;
pub use smk_words_reading::{Asked, RunWords};

/// The files of a folder are one workflow, with what the words set, and then nothing is wrong with them; or what is wrong with them first is
/// one fault.
pub fn workflow_is_one()
    ensures one { OneWorkflow }
    ensures faultless { NoFaultyWorkflow }
    ensures fault { OneFirstFault }
{}

/// A call meets one first refusal: so the contract never demands two faults.
pub fn refusal_is_one()
    ensures { MeetsOne }
{}

/// A program that meets the contract has the headline. Its clauses speak of one log, where the folder and the bytes of `out` are told.
/// Folders that come by its calls, by edits, removals and crashes are those of a history, and each is a good entry for the next call.
/// So after any of these a run reports current only what a clean run from the sources would give, starts no job on an output of an
/// unfinished one, and makes what a clean run gives, unless a named refusal stands.
pub fn contract_is_enough()
    ensures met { ClausesAreMet }
    ensures history { CameIsHistory }
    ensures good { CameIsGood }
    ensures headline { Headline }
{}

/// Nothing is done twice: after a run that meets the contract and ended with status 0, a call with the same words that meets it starts no
/// child, however it ends, where the files still say the same and nothing has changed between. For by the first run's plan every job is
/// Clean, so none begins, and while none begins the call changes nothing but its lock and folders above places of the plan.
pub fn next_run_starts_none()
    ensures { NextRunStartsNone }
{}
