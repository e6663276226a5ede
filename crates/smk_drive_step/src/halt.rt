//! Why a run begins no more jobs.

ghost use Rattle.std.specs.Prelude.{◌≡◌, None, false, is_none};
ghost use Rattle.smk_drive_step.specs.Crews.{halted_by, is_device, or_later};

use smk_report::Fault;

/// The first fault that came, if any: no job begins after it. After one of the device children are waited for, and nothing else is done.
#[derive(Drop)]
pub struct Halt {
    pub(crate) fault: Option<Fault>,
    pub(crate) only_waits: bool,
}

// Whether it is a fault of the device.
fn is_device(fault: &Fault) -> bool
    ensures { result ≡ is_device fault.now }
{
    matches!(fault, Fault::Device)
}

// The first of two faults.
fn or_later(first: Option<Fault>, later: Fault) -> Fault
    ensures { result ≡ or_later first later }
{
    match first {
        Some(fault) => fault,
        None => later,
    }
}

impl Halt {
    /// No fault came.
    pub fn none() -> Halt
        ensures { (result.fault ≡ None) × (result.only_waits ≡ false) }
    {
        Halt {
            fault: None,
            only_waits: false,
        }
    }

    /// Whether no fault came.
    pub fn is_none(&self) -> bool
        ensures { result ≡ is_none self.now.fault }
    {
        self.fault.is_none()
    }

    /// Whether children are waited for, and nothing else is done.
    pub fn only_waits(&self) -> bool
        ensures { result ≡ self.now.only_waits }
    {
        self.only_waits
    }

    /// This fault came, too.
    pub fn set(&mut self, fault: Fault)
        ensures { self.new ≡ halted_by fault self.old }
    {
        self.only_waits |= is_device(&fault);
        let first = self.fault.take();
        self.fault = Some(or_later(first, fault));
    }

    /// The first fault.
    pub fn into_fault(self) -> Option<Fault>
        ensures { result ≡ self.fault }
    {
        self.fault
    }
}
