//! Faults of statements.

ghost use Rattle.std.specs.Prelude.{◌≡◌, [], IfOk};
ghost use Rattle.smk_eval.specs.Statements.{told};

use smk_base::{OutOfMemory, PathText, Text};
use smk_eval_values::ValueFault;
use smk_flaws::{EvalFault, SaidFlaw};
use std::alloc::Global;

/// The fault of a statement, which stands in this file and line, and in this rule where it is one.
pub(crate) fn told(
    alloc: Global,
    file: &PathText,
    line: u64,
    rule: &str,
    fault: ValueFault,
) -> Result<EvalFault, OutOfMemory>
    ensures { IfOk result (λ f. f ≡ told file.now line rule.now fault) }
{
    match fault {
        ValueFault::OutOfMemory => Ok(EvalFault::OutOfMemory),
        fault => Ok(EvalFault::Flawed(SaidFlaw::Value {
            file: Text::of(alloc, file.as_str())?,
            line,
            rule: Text::of(alloc, rule)?,
            fault,
        })),
    }
}
