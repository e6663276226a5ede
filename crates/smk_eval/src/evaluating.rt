//! Statements in order, and the workflow that they say.

ghost use Rattle.std.specs.Prelude.{◌≡◌, ◌≢◌, [], false, IfOk, IfErr};
ghost use Rattle.smk_config.specs.Settings.{members};
ghost use Rattle.smk_flow.specs.Checks.{IsWorkflow, IsFault};
ghost use Rattle.smk_flow.specs.declared.fault.FlowFault.{FlowFault};
ghost use Rattle.smk_eval_files.specs.Placing.{entries};
ghost use Rattle.smk_flaws.specs.declared.fault.EvalFault.{EvalFault};
ghost use Rattle.smk_flaws.specs.Faults.{of_flow};
ghost use Rattle.smk_eval.specs.Statements as spec;
ghost use Rattle.smk_eval.specs.Faults.{device_failed};
ghost use Rattle.smk_eval.specs.Loading as loading;
ghost use Rattle.smk_eval.specs.Seen.{state_of, Leads, Says, SaysAll};

use crate::commands::all_wait;
use crate::faults::told;
use crate::scope::Known;
use crate::state::{Said, State};
use smk_base::{List, PathText, Text};
use smk_config::Config;
use smk_eval_files::{Placed, ReadFile, text_of};
use smk_eval_rules::{global_limits, rule_part};
use smk_eval_values::value_of;
use smk_flaws::{EvalFault, LoadFault};
use smk_flow::Workflow;
use smk_flow_build::build;
use smk_parse_tree::{Expr, Form, ItemForm, RuleForm};
use std::alloc::Global;

// `NAME = ..`
#[tactic(auto, using(crate::proofs::Told::made_fault))]
fn assigned<'p>(
    alloc: Global,
    config: &Config,
    state: State<'p>,
    file: &PathText,
    line: u64,
    name: &'p Text,
    value: &Expr,
) -> Result<State<'p>, EvalFault>
    ensures { Leads result (spec.made file.now line [] (spec.assigned (members config.now) (state_of state.entry) name.now value.now) (spec.with_constant name.now (state_of state.entry))) }
{
    let known = Known {
        state: &state,
        config,
    };
    match value_of(alloc, value, &known, name) {
        Ok(value) => Ok(state.with_constant(name.as_str(), value)?),
        Err(fault) => Err(told(alloc, file, line, "", fault)?),
    }
}

// A rule or a checkpoint.
#[tactic(auto, using(crate::proofs::Told::made_fault))]
fn ruled<'p>(
    alloc: Global,
    config: &Config,
    state: State<'p>,
    file: &PathText,
    line: u64,
    form: &'p RuleForm,
) -> Result<State<'p>, EvalFault>
    ensures { Leads result (spec.made file.now line form.now.name (spec.ruled (members config.now) (state_of state.entry) file.now line form.now) (spec.with_rule (state_of state.entry))) }
{
    let known = Known {
        state: &state,
        config,
    };
    match rule_part(alloc, form, file, line, &List::new(alloc), &known) {
        Ok(part) => Ok(state.with_rule(alloc, part)?),
        Err(fault) => Err(told(alloc, file, line, form.name.as_str(), fault)?),
    }
}

// `wildcard_constraints:`
#[tactic(auto, using(crate::proofs::Told::made_fault))]
fn limited<'p>(
    alloc: Global,
    config: &Config,
    state: State<'p>,
    file: &PathText,
    line: u64,
    items: &[ItemForm],
) -> Result<State<'p>, EvalFault>
    ensures { Leads result (spec.made file.now line [] (spec.limited (members config.now) (state_of state.entry) items.now) (spec.with_limits (state_of state.entry))) }
{
    let known = Known {
        state: &state,
        config,
    };
    match global_limits(alloc, items, &known) {
        Ok(more) => Ok(state.with_limits(alloc, more)?),
        Err(fault) => Err(told(alloc, file, line, "", fault)?),
    }
}

// What the statements lead to with one of this form more.
fn stated<'p>(
    alloc: Global,
    config: &Config,
    state: State<'p>,
    file: &PathText,
    line: u64,
    form: &'p Form,
) -> Result<State<'p>, EvalFault>
    ensures { Leads result (spec.stated (members config.now) (state_of state.entry) file.now line form.now) }
{
    match form {
        Form::Assign(name, value) => assigned(alloc, config, state, file, line, name, value),
        Form::Rule(form) => ruled(alloc, config, state, file, line, form),
        Form::Order(names) => Ok(state.with_order(alloc, file, line, names)?),
        Form::LocalRules(_) | Form::ConfigFile(_) | Form::Include(_) | Form::Container(_) => Ok(
            state,
        ),
        Form::Limits(items) => limited(alloc, config, state, file, line, items.as_slice()),
    }
}

// What the statements lead to, in order.
fn all_stated<'p>(
    alloc: Global,
    config: &Config,
    text: &[Placed<'p>],
) -> Result<State<'p>, EvalFault>
    ensures { Leads result (spec.all_stated (members config.now) spec.begun (entries text.now)) }
{
    let mut state = State::new(alloc);
    for placed in text {
        state = stated(
            alloc,
            config,
            state,
            placed.file,
            placed.statement.line,
            &placed.statement.form,
        )?;
    }
    Ok(state)
}

// The path of the file to begin with.
fn main_file(files: &[ReadFile]) -> &str
    ensures { result.now ≡ spec.main_file files.now }
{
    match files {
        [] => "",
        [first, ..] => first.file.as_str(),
    }
}

// The rules and the clauses that the files say.
fn said(alloc: Global, files: &[ReadFile], config: &Config) -> Result<Said, EvalFault>
    ensures { Says result (spec.evaluated (members config.now) files.now) }
{
    let text = text_of(alloc, files)?;
    match all_stated(alloc, config, &text) {
        Ok(state) => Ok(state.said(alloc, main_file(files))?),
        Err(fault) => Err(fault),
    }
}

// The same, where the shell waits for all commands.
#[tactic(auto, using(crate::proofs::Waited::statement_wrong, crate::proofs::Waited::command_wrong, crate::proofs::Waited::commands_right, crate::proofs::Giving::calm_eval))]
fn waited(alloc: Global, files: &[ReadFile], config: &Config) -> Result<Said, LoadFault>
    ensures is { SaysAll result (loading.said_in (members config.now) files.now) }
    ensures no_device { device_failed result ≡ false }
{
    match said(alloc, files, config) {
        Err(fault) => Err(LoadFault::from(fault)),
        Ok(said) => match all_wait(alloc, said.rules.as_slice()) {
            Err(fault) => Err(fault),
            Ok(()) => Ok(said),
        },
    }
}

// The workflow of these rules and clauses.
#[tactic(auto, using(crate::proofs::Told::known_fault))]
fn checked(alloc: Global, said: Said) -> Result<Workflow, EvalFault>
    ensures ok { IfOk result (λ flow. (flow ≡ record { rules = said.rules; orders = said.orders }) × IsWorkflow said.rules said.orders) }
    ensures fault { IfErr result (λ f. f ≢ EvalFault.OutOfMemory → (g : FlowFault) × IsFault said.rules said.orders g × (f ≡ of_flow g)) }
{
    Ok(build(alloc, said.rules, said.orders)?)
}

/// The workflow that the files say, with this configuration. The first file is the one to begin with; after it come the files of its
/// includes, each with its own after it, in order. Without a word the first rule with `default_target: True` is made, wherever it stands;
/// where there is none, the first rule that stands in the first file itself, and else the first of all.
///
/// The fault is the first of a statement, in their order, those of an included file in its place; then `Unsupported` of the first rule
/// whose command has `&>` or `|&`; then the first thing that is wrong with the rules and the clauses. `OutOfMemory` where there is no
/// memory for the workflow; never `Device`.
#[tactic(auto, using(crate::proofs::Giving::gives_ok, crate::proofs::Giving::gives_checks, crate::proofs::Giving::calm_eval))]
pub fn evaluate(
    alloc: Global,
    files: &List<ReadFile>,
    config: &Config,
) -> Result<Workflow, LoadFault>
    ensures is { loading.Gives (loading.said_in (members config.now) files.now) result }
    ensures no_device { device_failed result ≡ false }
{
    match waited(alloc, files.as_slice(), config) {
        Err(fault) => Err(fault),
        Ok(said) => match checked(alloc, said) {
            Ok(flow) => Ok(flow),
            Err(fault) => Err(LoadFault::from(fault)),
        },
    }
}
