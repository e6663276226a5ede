//! Digests of contents.

ghost use Rattle.std.specs.Prelude.{◌≡◌, map, option_map, IfOk};
ghost use Rattle.smk_store.specs.Trust.{sum_of};

use rayon::prelude::*;
use sha2::{Digest, Sha256};
use smk_base::{Bytes, List, OutOfMemory, Sum};
use std::alloc::{AllocError, Global};
use std::thread::Threads;

// The SHA-256 of the content.
fn digest(content: &Bytes) -> Sum
    ensures { result ≡ sum_of content.now }
{
    Sum(Sha256::digest(content.as_slice()))
}

// The SHA-256 of the content, where there is one.
fn digest_if(content: &Option<Bytes>) -> Option<Sum>
    ensures { result ≡ option_map sum_of content.now }
{
    match content {
        Some(content) => Some(digest(content)),
        None => None,
    }
}

// The SHA-256 of each content, in order.
fn digests<Rt: Threads + Sync>(
    rt: &Rt,
    alloc: Global,
    contents: &[Bytes],
) -> Result<Vec<Sum>, AllocError>
    ensures { IfOk result (λ found. found.items ≡ map sum_of contents.now) }
{
    contents
        .par_iter()
        .map(
            |content: &Bytes| -> Sum
                ensures { result ≡ sum_of content.now }
            { digest(content) },
        )
        .collect(rt, alloc)
}

// The SHA-256 of each content that there is, in order.
fn digests_where<Rt: Threads + Sync>(
    rt: &Rt,
    alloc: Global,
    contents: &[Option<Bytes>],
) -> Result<Vec<Option<Sum>>, AllocError>
    ensures { IfOk result (λ found. found.items ≡ map (option_map sum_of) contents.now) }
{
    contents
        .par_iter()
        .map(
            |content: &Option<Bytes>| -> Option<Sum>
                ensures { result ≡ option_map sum_of content.now }
            { digest_if(content) },
        )
        .collect(rt, alloc)
}

// The same elements as a list.
fn listed<T: Drop>(alloc: Global, elements: Vec<T>) -> Result<List<T>, OutOfMemory>
    ensures { IfOk result (λ list. list ≡ elements.items) }
{
    let mut list = List::new(alloc);
    for element in elements {
        list.push(element)?;
    }
    Ok(list)
}

/// The SHA-256 of each content that there is, in order, by several threads.
pub(crate) fn digest_each<Rt: Threads + Sync>(
    rt: &Rt,
    alloc: Global,
    contents: &List<Option<Bytes>>,
) -> Result<List<Option<Sum>>, OutOfMemory>
    ensures { IfOk result (λ found. found ≡ map (option_map sum_of) contents.now) }
{
    listed(alloc, digests_where(rt, alloc, contents.as_slice())?)
}

/// The SHA-256 of each of the contents, in order: what one thread would answer. Several threads are asked. `OutOfMemory` where there is
/// no memory for the answer.
pub fn digest_all<Rt: Threads + Sync>(
    rt: &Rt,
    alloc: Global,
    contents: &List<Bytes>,
) -> Result<List<Sum>, OutOfMemory>
    ensures { IfOk result (λ found. found ≡ map sum_of contents.now) }
{
    listed(alloc, digests(rt, alloc, contents.as_slice())?)
}
