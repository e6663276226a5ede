ghost use Rattle.std.specs.Prelude.{◌≡◌, map, option_map};
ghost use Rattle.smk_plan.specs.Sights.{AreRising, sight_at};

use smk_base::{List, PathText, Sum};
use smk_record::Member;
use smk_world::Stat;
use std::marker::Model;

/// What stands at a path.
#[derive(Drop)]
pub struct Sight {
    pub path: PathText,
    pub stat: Stat,
    /// Of a folder all that is under it, in byte order; nothing elsewhere, and where a record can't tell it.
    pub members: Option<List<Member>>,
    /// A read-only file stands at the path or under it.
    pub guarded: bool,
    /// The SHA-256 of the file, where it was taken.
    pub sum: Option<Sum>,
}

/// What stands at each output and each source of some jobs, by rising paths. Contracts see the list of sights.
#[derive(Drop)]
pub struct Seen {
    sights: List<Sight>,
}

impl Model for Seen {
    ghost use Rattle.std.specs.Prelude.{List as Items};
    ghost use Rattle.smk_plan.specs.declared.seen.Sight.{Sight as SightValue};
    ghost use Rattle.smk_plan.specs.Sights.{AreRising};

    ghost Value = { Items SightValue };

    ghost view = { λ s. s.sights };

    ghost invariant = { λ s. AreRising s.sights };
}

impl Seen {
    /// These sights, whose paths rise.
    pub fn of(sights: List<Sight>) -> Seen
        requires rising { AreRising sights }
        ensures { result ≡ sights }
    {
        Seen { sights }
    }

    /// The sights, by rising paths.
    pub fn into_sights(self) -> List<Sight>
        ensures value { result ≡ self }
        ensures rising { AreRising result }
    {
        self.sights
    }

    /// What was seen at the path. None where nothing was looked at there. The time grows with the logarithm of the number of sights.
    pub fn sight(&self, path: &PathText) -> Option<&Sight>
        ensures { option_map (λ s. s.now) result ≡ sight_at self.now path.now }
    {
        let bytes = path.as_str().as_bytes();
        match self
            .sights
            .as_slice()
            .binary_search_by(|sight| sight.path.as_str().as_bytes().cmp(bytes))
        {
            Ok(i) => Some(&self.sights.as_slice()[i]),
            Err(_) => None,
        }
    }
}
