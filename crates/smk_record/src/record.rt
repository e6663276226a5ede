ghost use Rattle.std.specs.Prelude.{◌≡◌, ◌↔◌, true, Some, IfSome, IsSome, IsTrue};
ghost use Rattle.smk_record.specs.Records.{is_valid, same_stamp, agrees};

use crate::valid::is_valid;
use smk_base::{List, PathText, Sum};
use smk_world::Recipe;

/// What an input was as a job began.
#[derive(Clone, Copy, PartialEq, Eq)]
pub enum Stamp {
    /// A source, with its time.
    Time(u64),
    /// A source, with its time and the SHA-256 of its bytes.
    Sum(u64, Sum),
    /// A product, with the serial of its record.
    Made(u64),
}

/// Whether the two are equal.
pub fn same_stamp(a: &Stamp, b: &Stamp) -> bool
    ensures { result ≡ same_stamp a.now b.now }
{
    match (a, b) {
        (Stamp::Time(time), Stamp::Time(other)) => time == other,
        (Stamp::Sum(time, sum), Stamp::Sum(other, another)) => time == other && sum.is(another),
        (Stamp::Made(serial), Stamp::Made(other)) => serial == other,
        _ => false,
    }
}

/// Whether what was recorded is still so: both are of a source, and have the same time or the same SHA-256; or both are of a product,
/// and have the same serial.
pub fn agrees(recorded: &Stamp, now: &Stamp) -> bool
    ensures { result ≡ agrees recorded.now (Some now.now) }
{
    match (recorded, now) {
        (Stamp::Time(then), Stamp::Time(time)) => then == time,
        (Stamp::Time(then), Stamp::Sum(time, _)) => then == time,
        (Stamp::Sum(then, _), Stamp::Time(time)) => then == time,
        (Stamp::Sum(then, sum), Stamp::Sum(time, other)) => then == time || sum.is(other),
        (Stamp::Made(serial), Stamp::Made(other)) => serial == other,
        _ => false,
    }
}

/// What stands at this name under a directory output.
#[derive(Drop)]
pub struct Member {
    pub folder: bool,
    pub name: PathText,
}

/// How an output was made: by the job with this serial and recipe, from inputs with these stamps; of a directory all that is
/// under it. It remembers the format in which it is written.
#[derive(Drop)]
pub struct Record {
    pub(crate) format: u8,
    pub(crate) path: PathText,
    pub(crate) made: u64,
    pub(crate) recipe: Recipe,
    pub(crate) stamps: List<Stamp>,
    pub(crate) members: List<Member>,
}

impl Record {
    ghost use Rattle.smk_record.specs.Records.{record_of};

    /// The record of these parts, in format 2. None exactly where they are no valid record: they are dropped then.
    pub fn new(
        path: PathText,
        made: u64,
        recipe: Recipe,
        stamps: List<Stamp>,
        members: List<Member>,
    ) -> Option<Record>
        ensures valid { IsSome result ↔ (is_valid (record_of path made recipe stamps members) ≡ true) }
        ensures value { IfSome result (λ kept. kept ≡ record_of path made recipe stamps members) }
    {
        Record::of(2, path, made, recipe, stamps, members)
    }

    /// The record of these parts, in this format: a copy keeps its format. None exactly where they are no valid record: they are
    /// dropped then.
    pub fn of(
        format: u8,
        path: PathText,
        made: u64,
        recipe: Recipe,
        stamps: List<Stamp>,
        members: List<Member>,
    ) -> Option<Record>
        ensures valid { IsSome result
            ↔ (is_valid (record { format = format; path = path; made = made; recipe = recipe; stamps = stamps; members = members }) ≡ true) }
        ensures value { IfSome result
            (λ kept. kept ≡ record { format = format; path = path; made = made; recipe = recipe; stamps = stamps; members = members }) }
    {
        let kept = Record {
            format,
            path,
            made,
            recipe,
            stamps,
            members,
        };
        if kept.is_valid() { Some(kept) } else { None }
    }

    /// Whether the record is valid.
    pub(crate) fn is_valid(&self) -> bool
        ensures { result ≡ is_valid self.now }
    {
        is_valid(
            self.format,
            &self.path,
            self.made,
            &self.recipe,
            self.stamps.as_slice(),
            self.members.as_slice(),
        )
    }

    /// In which format it is written: 1, in which no stamp has a SHA-256, or 2.
    pub fn format(&self) -> u8
        ensures { result ≡ self.now.format }
    {
        self.format
    }

    /// The output that the record is of.
    pub fn path(&self) -> &PathText
        ensures { result.now ≡ self.now.path }
    {
        &self.path
    }

    /// The serial of the job that made it.
    pub fn made(&self) -> u64
        ensures { result ≡ self.now.made }
    {
        self.made
    }

    /// The recipe of that job.
    pub fn recipe(&self) -> &Recipe
        ensures { result.now ≡ self.now.recipe }
    {
        &self.recipe
    }

    /// What its inputs were, in order.
    pub fn stamps(&self) -> &List<Stamp>
        ensures { result.now ≡ self.now.stamps }
    {
        &self.stamps
    }

    /// What was under a directory output.
    pub fn members(&self) -> &List<Member>
        ensures { result.now ≡ self.now.members }
    {
        &self.members
    }
}
