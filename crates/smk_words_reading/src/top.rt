//! What words ask.

ghost use Rattle.std.specs.Prelude.{◌≡◌, IfOk, IsErrOf, map, string_bytes};
ghost use Rattle.smk_words_reading.specs.declared.spelling.Expected.TheVariants as expected;
ghost use Rattle.smk_words_reading.specs.Asking as spec;
ghost use Rattle.smk_words_reading.specs.Reading.{spelled};
ghost use Rattle.smk_words_reading.specs.Asks.{IsAsked, LacksCores, AreUnread, OneAsked, NoneAskedWithoutCores};
ghost use Rattle.smk_words_reading.specs.Laws.{EachIsTold, JoinedLettersAsk};

use crate::asked::{Asked, WordsFault};
use crate::asking::{Meaning, meaning_of};
use crate::spelling::parts_of;
use smk_base::OutOfMemory;
use std::alloc::Global;

// What the words mean.
fn meaning_in(alloc: Global, words: &[String]) -> Result<Meaning, OutOfMemory>
    ensures { IfOk result (λ meaning. meaning ≡ spec.meaning_of (spelled expected.Word (map string_bytes words.now))) }
{
    match parts_of(alloc, words)? {
        Some(parts) => meaning_of(alloc, parts.as_slice()),
        None => Ok(Meaning::Nothing),
    }
}

/// What the words ask: a run, a listing, that the lock goes, that what is kept of paths goes, or what is generated.
///
/// `BadWords` exactly where no reading of the words asks anything, nor lacks only the number of cores; `NoCores` exactly where they ask
/// for a run in all but the number of cores; `OutOfMemory` where a growth finds no memory.
pub fn read_words(alloc: Global, words: &[String]) -> Result<Asked, WordsFault>
    ensures ok { IfOk result (λ asked. IsAsked (map string_bytes words.now) asked) }
    ensures bad { IsErrOf result WordsFault.BadWords → AreUnread (map string_bytes words.now) }
    ensures no_cores { IsErrOf result WordsFault.NoCores → LacksCores (map string_bytes words.now) }
{
    match meaning_in(alloc, words) {
        Ok(Meaning::Ask(asked)) => Ok(asked),
        Ok(Meaning::WithoutCores) => Err(WordsFault::NoCores),
        Ok(Meaning::Nothing) => Err(WordsFault::BadWords),
        Err(OutOfMemory) => Err(WordsFault::OutOfMemory),
    }
}

/// Words ask one thing, those that lack a number of cores ask nothing, and all others are unread. So `-nk out.txt` is a listing.
pub fn words_ask_one_thing()
    ensures one { OneAsked }
    ensures apart { NoneAskedWithoutCores }
    ensures each { EachIsTold }
    ensures example { JoinedLettersAsk }
{}
