//! Which jobs have all that they need at hand.

ghost use Rattle.std.specs.Prelude.{◌≡◌};
ghost use Rattle.std.specs.List.{list_any, slice_get};
ghost use Rattle.std.specs.Option.{option_and_then};
ghost use Rattle.smk_plan_states.specs.declared.lines.Gathered.{Gathered as GatheredValue};
ghost use Rattle.smk_plan_states.specs.declared.lines.Input.{Input as InputValue};
ghost use Rattle.smk_drive_pick.specs.Told.{is_away, is_lacking, is_missing, lacks_some};

use crate::numbers::flag_at;
use smk_plan_states::{Gathered, Input, Line, Origin, Rank};

/// What is told of the paths of makers, by their numbers.
#[derive(Clone, Copy)]
pub(crate) struct Hands<'l> {
    /// What makes each of them.
    pub(crate) origins: &'l [Origin],
    /// Which of them are whole.
    pub(crate) wholes: &'l [bool],
    /// The ranks of the jobs.
    pub(crate) ranks: &'l [Rank],
}

// The rank of the job of the number.
fn rank_at(ranks: &[Rank], number: Option<u32>) -> Option<Rank>
    ensures { result ≡ option_and_then (slice_get ranks.now) number }
{
    match number {
        Some(number) => ranks.get(number as usize).copied(),
        None => None,
    }
}

// Whether the job of the number isn't Clean, or what it makes isn't whole; a source is neither.
fn is_lacking(ranks: &[Rank], job: Option<u32>, whole: bool) -> bool
    ensures { result ≡ is_lacking ranks.now job whole }
{
    match rank_at(ranks, job) {
        None => false,
        Some(Rank::Clean) => !whole,
        Some(Rank::Open) => true,
        Some(Rank::Dirty) => true,
        Some(Rank::Restore) => true,
    }
}

impl Hands<'_> {
    // Whether the path of the maker of this number isn't at hand.
    fn is_away(&self, number: usize) -> bool
        ensures { result ≡ is_away self.now.ranks.now self.now.origins.now self.now.wholes.now number }
    {
        match self.origins.get(number) {
            None => false,
            Some(origin) => is_lacking(self.ranks, origin.job, flag_at(self.wholes, number)),
        }
    }

    // The same of a path, by its link.
    fn is_missing(&self, link: Option<usize>) -> bool
        ensures { result ≡ is_missing self.now.ranks.now self.now.origins.now self.now.wholes.now link }
    {
        match link {
            None => false,
            Some(number) => self.is_away(number),
        }
    }

    // Whether one of the inputs isn't at hand.
    fn lacks_input(&self, inputs: &[Input]) -> bool
        ensures { result ≡ list_any (λ (i : InputValue). is_missing self.now.ranks.now self.now.origins.now self.now.wholes.now i.link) inputs.now }
    {
        for input in inputs {
            if self.is_missing(input.link) {
                return true;
            }
        }
        false
    }

    // Whether one of the directories that are gathered from isn't at hand.
    fn lacks_folder(&self, gathers: &[Gathered]) -> bool
        ensures { result ≡ list_any (λ (g : GatheredValue). is_missing self.now.ranks.now self.now.origins.now self.now.wholes.now g.link) gathers.now }
    {
        for gathered in gathers {
            if self.is_missing(gathered.link) {
                return true;
            }
        }
        false
    }

    /// Whether an input of the job, or a directory that it gathers from, isn't at hand.
    pub(crate) fn lacks_some(&self, line: &Line) -> bool
        ensures { result ≡ lacks_some (is_missing self.now.ranks.now self.now.origins.now self.now.wholes.now) line.now }
    {
        self.lacks_input(line.inputs.as_slice()) || self.lacks_folder(line.gathers.as_slice())
    }
}
