//! Why an expression has no value.

ghost use Rattle.std.specs.Prelude.{◌≡◌};
ghost use Rattle.smk_eval_values.specs.Values.{of_expand};

use crate::ExpandFault;
use smk_base::{OutOfMemory, Text};
use std::alloc::{AllocError, AllocFailed};

/// Why an expression has no value.
#[derive(Drop)]
pub enum ValueFault {
    /// A value of a kind that doesn't stand there. The word is that of the flag, the sign, the call or the directive.
    BadFlag(Text),
    /// This name has no value, is no rule above, or is no output of the rule; a place at which a rule has no output is told as it is
    /// spelled.
    UnknownName(Text),
    /// The configuration has nothing under these keys, joined by `.`.
    NoKey(Text),
    /// What the configuration has under these keys, joined by `.`, is no value.
    BadConfig(Text),
    /// The names in a pattern of `expand` have different counts of values, and are to be paired.
    UnequalZip,
    /// `expand` gives more than 100,000 results.
    TooMany,
    /// There is no memory for the value.
    OutOfMemory,
}

impl From<OutOfMemory> for ValueFault {
    ghost use Rattle.std.specs.Prelude.{◌≡◌};
    ghost use Rattle.smk_eval_values.specs.declared.fault.ValueFault.{ValueFault};

    ghost from_gives = { λ _ fault. fault ≡ ValueFault.OutOfMemory };

    fn from(_: OutOfMemory) -> ValueFault {
        ValueFault::OutOfMemory
    }
}

impl From<AllocError> for ValueFault {
    ghost use Rattle.std.specs.Prelude.{◌≡◌};
    ghost use Rattle.smk_eval_values.specs.declared.fault.ValueFault.{ValueFault};

    ghost from_gives = { λ _ fault. fault ≡ ValueFault.OutOfMemory };

    fn from(_: AllocError) -> ValueFault {
        ValueFault::OutOfMemory
    }
}

impl<T: Drop> From<AllocFailed<T>> for ValueFault {
    ghost use Rattle.std.specs.Prelude.{◌≡◌};
    ghost use Rattle.smk_eval_values.specs.declared.fault.ValueFault.{ValueFault};

    ghost from_gives = { λ _ fault. fault ≡ ValueFault.OutOfMemory };

    fn from(_: AllocFailed<T>) -> ValueFault {
        ValueFault::OutOfMemory
    }
}

/// The fault of an expression whose `expand` has this one.
pub(crate) fn of_expand(fault: ExpandFault) -> ValueFault
    ensures { result ≡ of_expand fault }
{
    match fault {
        ExpandFault::UnknownName(name) => ValueFault::UnknownName(name),
        ExpandFault::UnequalZip => ValueFault::UnequalZip,
        ExpandFault::TooMany => ValueFault::TooMany,
        ExpandFault::OutOfMemory => ValueFault::OutOfMemory,
    }
}
