//! The lines of a run.

ghost use Rattle.std.specs.Prelude.{◌≡◌, ◌&&◌, IfErr, is_ok, true, false};
ghost use Rattle.smk_report.specs.declared.fault.Fault.TheVariants as fault;
ghost use Rattle.smk_run.specs.Reports.{HasReported};
ghost use Rattle.smk_run.specs.Runs.{is_output};
ghost use Rattle.smk_drive_step.specs.Telling.{IsPutIf};

use smk_base::Text;
use smk_report::Fault;
use smk_run::write_out;
use smk_world::{Failed, Sink};

/// Whether lines still go to the sink: after one that couldn't be put, none does.
#[derive(Drop)]
pub struct Lines {
    pub(crate) goes_on: bool,
}

impl Lines {
    /// Lines go to the sink.
    pub fn new() -> Lines
        ensures { result.goes_on ≡ true }
    {
        Lines { goes_on: true }
    }

    /// Puts the line, where lines still go to the sink. `Output` where the sink fails: a front of the line was put then, and no line is any more.
    pub fn put<O: Sink>(&mut self, out: &mut O, line: &Text) -> Result<(), Fault>
        ensures told { HasReported (IsPutIf self.old.goes_on (is_ok result) line.now) (O.sunk out.old) (O.sunk out.new) (is_output result) }
        ensures goes_on { self.new.goes_on ≡ (self.old.goes_on && is_ok result) }
        ensures fault { IfErr result (λ f. f ≡ fault.Output) }
    {
        if !self.goes_on {
            return Ok(());
        }
        match write_out(out, line.as_str()) {
            Ok(()) => Ok(()),
            Err(Failed) => {
                self.goes_on = false;
                Err(Fault::Output)
            }
        }
    }

    /// No line goes to the sink any more, since one is missing.
    pub fn end(&mut self)
        ensures { self.new.goes_on ≡ false }
    {
        self.goes_on = false;
    }
}
