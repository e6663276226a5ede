//! The call that does what the words ask.

ghost use Rattle.std.specs.Prelude.{◌≡◌, ◌⊎◌, ℕ, List as Items, Option, [], Some, Err, IfOk, IfErr, map, string_bytes, true, false};
ghost use Rattle.smk_world.specs.Devices.{WhereTold, HasLooked};
ghost use Rattle.smk_record.specs.Spelling.{ReadsRecords};
ghost use Rattle.smk_record.specs.declared.record.Record.{Record as RecordValue};
ghost use Rattle.smk_report.specs.declared.fault.Fault.{Fault as FaultValue};
ghost use Rattle.smk_report.specs.Faults as report;
ghost use Rattle.smk_words_reading.specs.declared.asked.Asked.{Asked as Request};
ghost use Rattle.smk_words_reading.specs.Asks.{IsAsked};
ghost use Rattle.smk_cli_entry.specs.Faults.{device_failed};
ghost use Rattle.smk_cli_calls.specs.Ends.{EndsAs, EndsWith, fault_of};
ghost use Rattle.smk_cli_calls.specs.Serving.{HasListed};
ghost use Rattle.smk_cli_calls.specs.Words as spec;
ghost use Rattle.smk_cli_calls.specs.Words.{RefusesWords};
ghost use Rattle.smk_cli_calls.specs.Lines.{IsOutcome, HasToldFault};
ghost use Rattle.smk_cli_calls.specs.Whole.{IsRefusal, IsToServe, HasRun, Serves, HasServed};
ghost use Rattle.smk_cli_calls.specs.Keys.{Keeps, HasKept};

use crate::keys::{serve_forget, serve_unlock};
use crate::outcome::Outcome;
use crate::running::make_asked;
use crate::serving::list_plan;
use smk_base::OutOfMemory;
use smk_cli_entry::ask;
use smk_report::{Fault, fault_line};
use smk_run::write_out;
use smk_words_reading::{Asked, RunWords, WordsFault, read_words};
use smk_world::{Crew, Files, Sink};
use std::alloc::Global;
use std::thread::Threads;

// Makes what the words ask for.
fn serve_run<W: Crew, O: Sink, Rt: Threads + Sync>(
    rt: &Rt,
    alloc: Global,
    words: &RunWords,
    work: &mut W,
    out: &mut O,
) -> Result<(), Fault>
    requires none_runs { (W.device work.old).running ≡ [] }
    ensures ended { EndsAs result (W.device work.old) (W.device work.new) (O.sunk out.old) (O.sunk out.new) }
    ensures ran { WhereTold (W.device work.old) (λ w. (read : Items ℕ → Option RecordValue) → ReadsRecords read
        → HasRun W.act read words.now w result (W.device work.old) (W.device work.new) (O.sunk out.old) (O.sunk out.new)) }
{
    match ask(alloc, work, words) {
        Err(fault) => Err(fault),
        Ok(asked) => make_asked(rt, alloc, &asked, words, work, out),
    }
}

// Lists what a run of them would do.
fn serve_listing<W: Files, O: Sink, Rt: Threads + Sync>(
    rt: &Rt,
    alloc: Global,
    words: &RunWords,
    work: &mut W,
    out: &mut O,
) -> Result<(), Fault>
    requires none_runs { (W.device work.old).running ≡ [] }
    ensures ended { EndsAs result (W.device work.old) (W.device work.new) (O.sunk out.old) (O.sunk out.new) }
    ensures looked { HasLooked W.act (W.device work.old) (W.device work.new) (device_failed result) }
    ensures listed { WhereTold (W.device work.old) (λ w. (read : Items ℕ → Option RecordValue) → ReadsRecords read
        → HasListed (IsRefusal read words.now w w) (IsToServe read words.now w w) (O.sunk out.old) (O.sunk out.new) result) }
{
    match ask(alloc, work, words) {
        Err(fault) => Err(fault),
        Ok(asked) => list_plan(rt, alloc, &asked, words, work, out),
    }
}

// Does what is asked, where it is built.
fn serve_request<W: Crew, O: Sink, Rt: Threads + Sync>(
    rt: &Rt,
    alloc: Global,
    request: &Asked,
    work: &mut W,
    out: &mut O,
) -> Result<(), Fault>
    requires none_runs { (W.device work.old).running ≡ [] }
    ensures ended { EndsWith (fault_of result) (W.device work.old) (W.device work.new) (O.sunk out.old) (O.sunk out.new) }
    ensures serves { spec.is_to_make request.now ≡ true → WhereTold (W.device work.old) (λ w. (read : Items ℕ → Option RecordValue) → ReadsRecords read
        → Serves W.act read w result (W.device work.old) (W.device work.new) (O.sunk out.old) (O.sunk out.new) request.now) }
    ensures keeps { spec.is_built request.now ≡ true → spec.is_to_make request.now ≡ false → WhereTold (W.device work.old) (λ w.
        Keeps W.act result (W.device work.old) (W.device work.new) (O.sunk out.old) (O.sunk out.new) w request.now) }
{
    match request {
        Asked::Run(words) => serve_run(rt, alloc, words, work, out),
        Asked::Preview(words) => serve_listing(rt, alloc, words, work, out),
        Asked::Unlock => serve_unlock(alloc, work, out),
        Asked::Forget { paths, nolock } => serve_forget(alloc, paths, *nolock, work, out),
        Asked::Generate { .. } => Err(Fault::BadWords),
    }
}

// Whether it is built: a run, a listing, or a command on what is kept.
fn is_built(request: &Asked) -> bool
    ensures { result ≡ spec.is_built request.now }
{
    match request {
        Asked::Run(_) | Asked::Preview(_) | Asked::Unlock | Asked::Forget { .. } => true,
        Asked::Generate { .. } => false,
    }
}

// What is asked, where it is built.
fn built(request: Asked) -> Result<Asked, Fault>
    ensures ok { IfOk result (λ asked. (asked ≡ request) × (spec.is_built asked ≡ true)) }
    ensures bad { IfErr result (λ f. (f ≡ Fault.BadWords) × (spec.is_built request ≡ false)) }
{
    if is_built(&request) {
        Ok(request)
    } else {
        Err(Fault::BadWords)
    }
}

// What the words ask, where it is built.
fn requested(alloc: Global, words: &[String]) -> Result<Asked, Fault>
    ensures ok { IfOk result (λ asked. IsAsked (map string_bytes words.now) asked × (spec.is_built asked ≡ true)) }
    ensures refused { IfErr result (λ f. (f ≡ Fault.OutOfMemory) ⊎ RefusesWords (map string_bytes words.now) f) }
{
    match read_words(alloc, words) {
        Ok(request) => built(request),
        Err(WordsFault::BadWords) => Err(Fault::BadWords),
        Err(WordsFault::NoCores) => Err(Fault::NoCores),
        Err(WordsFault::OutOfMemory) => Err(Fault::OutOfMemory),
    }
}

// Does what the words ask for.
fn serve<W: Crew, O: Sink, Rt: Threads + Sync>(
    rt: &Rt,
    alloc: Global,
    words: &[String],
    work: &mut W,
    out: &mut O,
) -> Result<(), Fault>
    requires none_runs { (W.device work.old).running ≡ [] }
    ensures ended { EndsWith (fault_of result) (W.device work.old) (W.device work.new) (O.sunk out.old) (O.sunk out.new) }
    ensures unread { (f : FaultValue) → RefusesWords (map string_bytes words.now) f
        → ((result ≡ Err f) ⊎ (result ≡ Err Fault.OutOfMemory)) × (work.new ≡ work.old) × (out.new ≡ out.old) }
    ensures serves { (request : Request) → IsAsked (map string_bytes words.now) request → spec.is_built request ≡ true → spec.is_to_make request ≡ true
        → WhereTold (W.device work.old) (λ w. (read : Items ℕ → Option RecordValue) → ReadsRecords read
        → Serves W.act read w result (W.device work.old) (W.device work.new) (O.sunk out.old) (O.sunk out.new) request) }
    ensures keeps { (request : Request) → IsAsked (map string_bytes words.now) request → spec.is_built request ≡ true → spec.is_to_make request ≡ false
        → WhereTold (W.device work.old) (λ w. Keeps W.act result (W.device work.old) (W.device work.new) (O.sunk out.old) (O.sunk out.new) w request) }
{
    match requested(alloc, words) {
        Err(fault) => Err(fault),
        Ok(request) => serve_request(rt, alloc, &request, work, out),
    }
}

// Puts the line of a fault. A sink that fails loses the line alone; without memory for the line, that is the fault.
fn tell<O: Sink>(alloc: Global, answer: Result<(), Fault>, err: &mut O) -> Outcome
    ensures status { result.status ≡ report.status_of result.fault }
    ensures fault { IsOutcome (fault_of answer) result.fault }
    ensures line { HasToldFault result.fault (O.sunk err.old) (O.sunk err.new) }
{
    match answer {
        Ok(()) => Outcome::of(None),
        Err(fault) => match fault_line(alloc, &fault) {
            Ok(line) => {
                let _ = write_out(err, line.as_str());
                Outcome::of(Some(fault))
            }
            Err(OutOfMemory) => Outcome::of(Some(Fault::OutOfMemory)),
        },
    }
}

/// Does what the words ask by a workflow of the working folder. For a run: takes the lock, unless the words heed none; makes the targets, by running the jobs
/// that its plan has to be run or restored, and reports them and the targets to `out`; and releases the lock, unless the device failed. The jobs are run one
/// after another where the words ask for one core, the first job that fails ends the run and none is forced; else they are begun side by side, by a plan that is
/// kept. For a listing: tells the jobs of the plan to `out`, and changes nothing. Or removes the lock, or what
/// is kept of paths, and tells so. The line of a fault goes to `err`.
///
/// The status is 0 where all is done, 1 where a job failed, 2 where the words are refused, 3 where the workflow, a target, the plan or a job is refused, or
/// the lock stands, 4 where
/// the device failed, 5 where memory is wanting, 6 where `out` failed.
pub fn smk<W: Crew, O: Sink, Rt: Threads + Sync>(
    rt: &Rt,
    alloc: Global,
    words: &[String],
    work: &mut W,
    out: &mut O,
    err: &mut O,
) -> Outcome
    requires none_runs { (W.device work.old).running ≡ [] }

    ensures status { result.status ≡ report.status_of result.fault }

    // where the words are refused that is told, and nothing is done
    ensures unread { (f : FaultValue) → RefusesWords (map string_bytes words.now) f
        → ((result.fault ≡ Some f) ⊎ (result.fault ≡ Some Fault.OutOfMemory)) × (work.new ≡ work.old) × (out.new ≡ out.old) }

    // a run or a listing is served: it is refused, and nothing is done; or what its plan has to be run is run, in order, or it is driven, under the lock, unless
    // none is heeded; or the plan is listed
    ensures serves { (request : Request) → IsAsked (map string_bytes words.now) request → spec.is_built request ≡ true → spec.is_to_make request ≡ true
        → WhereTold (W.device work.old) (λ w. (read : Items ℕ → Option RecordValue) → ReadsRecords read
        → HasServed W.act read request w result.fault (W.device work.old) (W.device work.new) (O.sunk out.old) (O.sunk out.new)) }

    // of what is kept the lock goes, and nothing else; or what is known of paths, of each in its turn
    ensures keeps { (request : Request) → IsAsked (map string_bytes words.now) request → spec.is_built request ≡ true → spec.is_to_make request ≡ false
        → WhereTold (W.device work.old) (λ w. HasKept W.act request w result.fault (W.device work.old) (W.device work.new) (O.sunk out.old) (O.sunk out.new)) }

    // a fault of the device or of the sink comes only from one of its own in this call; and unless a call of the device failed, no child runs at the end, and what is told stays
    // told
    ensures ended { EndsWith result.fault (W.device work.old) (W.device work.new) (O.sunk out.old) (O.sunk out.new) }

    // the fault's line
    ensures line { HasToldFault result.fault (O.sunk err.old) (O.sunk err.new) }
{
    let answer = serve(rt, alloc, words, work, out);
    tell(alloc, answer, err)
}
