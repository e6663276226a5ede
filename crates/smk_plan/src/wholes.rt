use smk_base::List;

/// Which outputs of some jobs are whole, and what is whole of the paths that these jobs and their targets want.
#[derive(Drop)]
pub struct Wholes {
    /// For each job, for each of its outputs in order: whether it is whole.
    pub outputs: List<List<bool>>,
    /// For each maker: whether its path is whole, as an output of the job that makes it or as a file of its directory. False for a source.
    pub makers: List<bool>,
}
