//! The faults of commands.

ghost use Rattle.std.specs.Prelude.{◌≡◌, ◌⊎◌};
ghost use Rattle.smk_format.specs.Refused.{IsFormatFault, IsFieldFault};
ghost use Rattle.smk_report.specs.declared.fault.Fault.TheVariants as fault;

use crate::FormatFault;
use smk_base::{OutOfMemory, Text};
use smk_report::Fault;
use std::alloc::Global;

// The fault of a field without a value, in the command of this rule.
fn unknown_field(alloc: Global, rule: &str, word: Text) -> Fault
    ensures { (result ≡ fault.UnknownField rule.now word) ⊎ (result ≡ fault.OutOfMemory) }
{
    match Text::of(alloc, rule) {
        Ok(rule) => Fault::UnknownField { rule, word },
        Err(OutOfMemory) => Fault::OutOfMemory,
    }
}

/// The fault of a command or a record with so many bytes, of this rule. `OutOfMemory` where there is no memory for the rule's name.
pub fn too_long(alloc: Global, rule: &str, bytes: u64) -> Fault
    ensures { (result ≡ fault.TooLong rule.now bytes) ⊎ (result ≡ fault.OutOfMemory) }
{
    match Text::of(alloc, rule) {
        Ok(rule) => Fault::TooLong { rule, bytes },
        Err(OutOfMemory) => Fault::OutOfMemory,
    }
}

/// The fault of a command of this rule.
pub(crate) fn format_fault(alloc: Global, rule: &str, fault: FormatFault) -> Fault
    ensures { IsFormatFault rule.now fault result }
{
    match fault {
        FormatFault::UnknownField(word) => unknown_field(alloc, rule, word),
        FormatFault::TooLong(bytes) => too_long(alloc, rule, bytes),
        FormatFault::OutOfMemory => Fault::OutOfMemory,
    }
}

/// What is told of a command of this rule whose fields alone matter.
pub(crate) fn field_fault(alloc: Global, rule: &str, fault: FormatFault) -> Result<(), Fault>
    ensures { IsFieldFault rule.now fault result }
{
    match fault {
        FormatFault::UnknownField(word) => Err(unknown_field(alloc, rule, word)),
        FormatFault::TooLong(_) => Ok(()),
        FormatFault::OutOfMemory => Err(Fault::OutOfMemory),
    }
}
