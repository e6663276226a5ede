use smk_base::{List, PathText};
use smk_flow::Job;

/// The files of a directory, by their places in it, in byte order.
#[derive(Drop)]
pub struct Known {
    pub folder: PathText,
    pub files: List<PathText>,
}

/// What is known of directories.
pub type Listings = List<Known>;

/// The job that makes a path; none for a source.
#[derive(Drop)]
pub struct Maker {
    pub path: PathText,
    pub job: Option<u32>,
}

/// Jobs in plan order, each after those that it needs, by their places from 0; and the listings with which they were derived.
#[derive(Drop)]
pub struct Jobs {
    pub jobs: List<Job>,
    pub befores: List<List<u32>>,
    pub makers: List<Maker>,
    pub lists: Listings,
}
