use smk_report::Fault;

/// How a call ended. There is no fault exactly with status 0.
#[derive(Drop)]
pub struct Outcome {
    pub status: u8,
    pub fault: Option<Fault>,
}
