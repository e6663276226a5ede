use smk_base::List;
use smk_plan::Duty;

/// What a run is to do: a duty for each job, and the serial that is drawn first. None where there is no serial left.
#[derive(Drop)]
pub struct Agenda {
    pub duties: List<Duty>,
    pub first: Option<u64>,
}
