//! Reasons that copies share.

ghost use Rattle.std.specs.Prelude.{◌≡◌, IfOk};

use crate::reason::Reason;
use smk_base::{List, OutOfMemory};
use std::alloc::Global;
use std::marker::Model;
use std::sync::Arc;

/// Reasons of a job, which their copies share. Contracts see the list of them.
#[derive(Drop)]
pub struct Reasons {
    shared: Arc<List<Reason>>,
}

impl Model for Reasons {
    ghost use Rattle.std.specs.Prelude.{List};
    ghost use Rattle.smk_trigger.specs.declared.reason.Reason.{Reason};

    ghost Value = { List Reason };

    ghost view = { λ r. r.shared.value };
}

impl Reasons {
    /// These reasons, to be shared. `OutOfMemory` where there is no memory for that; they are dropped then.
    pub fn of(alloc: Global, reasons: List<Reason>) -> Result<Reasons, OutOfMemory>
        ensures { IfOk result (λ shared. shared ≡ reasons) }
    {
        Ok(Reasons {
            shared: Arc::new(alloc, reasons)?,
        })
    }

    /// The reasons in order, lent.
    pub fn as_slice(&self) -> &[Reason]
        ensures { result.now ≡ self.now }
    {
        self.shared.as_slice()
    }

    /// The same reasons, with no memory of their own. `OutOfMemory` where there are too many copies to be counted.
    pub fn copy(&self) -> Result<Reasons, OutOfMemory>
        ensures { IfOk result (λ copy. copy ≡ self.now) }
    {
        Ok(Reasons {
            shared: self.shared.clone()?,
        })
    }
}
