ghost use Rattle.std.specs.Prelude.{◌≡◌, ◌++◌, map, IfOk, OnOk};
ghost use Rattle.smk_base.specs.Place.{record_place, mark_place, note_place};
ghost use Rattle.smk_store.specs.Steps.{places_of};

use smk_base::{List, OutOfMemory, PathText, Place};
use std::alloc::Global;

/// The places of a job's outputs, of their marks and records, and of the notes of its logs, in order; and the lists of them that are
/// settled together.
#[derive(Drop)]
pub struct JobPlaces {
    pub outputs: List<Place>,
    pub marks: List<Place>,
    pub records: List<Place>,
    pub notes: List<Place>,
    /// The marks, then the notes.
    pub marking: List<Place>,
    /// The outputs, then the records.
    pub dropping: List<Place>,
}

// Adds the places of the outputs themselves.
fn push_outputs(
    alloc: Global,
    places: &mut List<Place>,
    paths: &[PathText],
) -> Result<(), OutOfMemory>
    ensures { OnOk result (places.new ≡ places.old ++ paths.now) }
{
    for path in paths {
        places.push(Place::user(alloc, path)?)?;
    }
    Ok(())
}

// Adds the places of their marks.
fn push_marks(
    alloc: Global,
    places: &mut List<Place>,
    paths: &[PathText],
) -> Result<(), OutOfMemory>
    ensures { OnOk result (places.new ≡ places.old ++ map mark_place paths.now) }
{
    for path in paths {
        places.push(Place::mark_of(alloc, path)?)?;
    }
    Ok(())
}

// Adds the places of their records.
fn push_records(
    alloc: Global,
    places: &mut List<Place>,
    paths: &[PathText],
) -> Result<(), OutOfMemory>
    ensures { OnOk result (places.new ≡ places.old ++ map record_place paths.now) }
{
    for path in paths {
        places.push(Place::record_of(alloc, path)?)?;
    }
    Ok(())
}

// Adds the places of the logs' notes.
fn push_notes(
    alloc: Global,
    places: &mut List<Place>,
    paths: &[PathText],
) -> Result<(), OutOfMemory>
    ensures { OnOk result (places.new ≡ places.old ++ map note_place paths.now) }
{
    for path in paths {
        places.push(Place::note_of(alloc, path)?)?;
    }
    Ok(())
}

impl JobPlaces {
    /// The places of a job with these outputs and logs. `OutOfMemory` where there is no memory for them.
    pub fn of(
        alloc: Global,
        outputs: &List<PathText>,
        logs: &List<PathText>,
    ) -> Result<JobPlaces, OutOfMemory>
        ensures { IfOk result (λ places. places ≡ places_of outputs.now logs.now) }
    {
        let (outputs, logs) = (outputs.as_slice(), logs.as_slice());
        let mut places = JobPlaces {
            outputs: List::new(alloc),
            marks: List::new(alloc),
            records: List::new(alloc),
            notes: List::new(alloc),
            marking: List::new(alloc),
            dropping: List::new(alloc),
        };
        push_outputs(alloc, &mut places.outputs, outputs)?;
        push_marks(alloc, &mut places.marks, outputs)?;
        push_records(alloc, &mut places.records, outputs)?;
        push_notes(alloc, &mut places.notes, logs)?;
        push_marks(alloc, &mut places.marking, outputs)?;
        push_notes(alloc, &mut places.marking, logs)?;
        push_outputs(alloc, &mut places.dropping, outputs)?;
        push_records(alloc, &mut places.dropping, outputs)?;
        Ok(places)
    }
}
