//! The least depth at which each path is available.

ghost use Rattle.std.specs.Prelude.{◌≡◌, ◌<◌, ◌+◌, ◌||◌, ◌&&◌, ◌==◌, ℕ, suc, true, false, length, IfOk};
ghost use Rattle.std.specs.List.{list_all};
ghost use Rattle.smk_choose.specs.Heights.{is_within, height_at, want_in, next, reached, IsSound, IsComplete};

use crate::nodes::{Node, Want, Way};
use smk_base::OutOfMemory;
use std::alloc::Global;

// The height of a path, where it has one.
fn height_at(heights: &[Option<u64>], path: usize) -> Option<u64>
    ensures { result ≡ height_at heights.now path }
{
    match heights.get(path) {
        Some(height) => *height,
        None => None,
    }
}

// The height of what is wanted, where it has one.
pub(crate) fn want_height(heights: &[Option<u64>], want: &Want) -> Option<u64>
    ensures { (n : ℕ) → is_within n result ≡ want_in (λ q. is_within n (height_at heights.now q)) want.now }
{
    match want {
        Want::Path(path) => height_at(heights, *path),
        Want::NoPath(_) => None,
    }
}

// The greatest height of what the way wants, where all of it has one.
pub(crate) fn way_height(heights: &[Option<u64>], way: &Way) -> Option<u64>
    ensures { (n : ℕ) → is_within n result ≡ list_all (want_in (λ q. is_within n (height_at heights.now q))) way.now.wants }
{
    let mut most = 0;
    for want in way.wants.as_slice() {
        match want_height(heights, want) {
            Some(height) => most = greater(most, height),
            None => return None,
        }
    }
    Some(most)
}

fn greater(a: u64, b: u64) -> u64
    ensures { (n : ℕ) → is_within n (Some result) ≡ (is_within n (Some a) && is_within n (Some b)) }
{
    if a < b { b } else { a }
}

// The lower one of two heights, where there is one.
fn lower(a: Option<u64>, b: Option<u64>) -> Option<u64>
    ensures { (n : ℕ) → is_within n result ≡ (is_within n a || is_within n b) }
{
    match (a, b) {
        (Some(x), Some(y)) => Some(if x < y { x } else { y }),
        (Some(x), None) => Some(x),
        (None, y) => y,
    }
}

// One more, where there is a height.
fn one_more(height: Option<u64>) -> Option<u64>
    ensures zero { is_within 0 result ≡ false }
    ensures more { (n : ℕ) → n < 200 → is_within (suc n) result ≡ is_within n height }
{
    match height {
        Some(height) => Some(height.saturating_add(1)),
        None => None,
    }
}

// The height of a path by the heights of what the ways to make it want.
fn next_height(heights: &[Option<u64>], node: &Node) -> Option<u64>
    ensures zero { is_within 0 result ≡ node.now.source }
    ensures more { (n : ℕ) → n < 200 → is_within (suc n) result ≡ next (λ q. is_within n (height_at heights.now q)) node.now }
{
    if node.source {
        return Some(0);
    }
    let mut least = None;
    for way in node.ways.as_slice() {
        least = lower(least, one_more(way_height(heights, way)));
    }
    least
}

// Whether the first height is lower.
fn is_lower(a: Option<u64>, b: Option<u64>) -> bool
    ensures lower { result ≡ true → (n : ℕ) → is_within n a ≡ (is_within n b || is_within n a) }
    ensures other { result ≡ false → (n : ℕ) → is_within n b ≡ (is_within n b || is_within n a) }
{
    match (a, b) {
        (Some(x), Some(y)) => x < y,
        (Some(_), None) => true,
        (None, _) => false,
    }
}

// Lowers the height of a path, where the new one is lower. Answers whether it is.
fn lower_at(heights: &mut [Option<u64>], path: usize, height: Option<u64>) -> bool
    requires { path < length heights.old }
    ensures lowered { (n q : ℕ) → is_within n (height_at heights.new q) ≡ (is_within n (height_at heights.old q) || (q == path && is_within n height)) }
    ensures same { result ≡ false → heights.new ≡ heights.old }
{
    if is_lower(height, heights[path]) {
        heights[path] = height;
        return true;
    }
    false
}

// Lowers the height of each path by those of the others, the last path first. Answers whether one became lower.
fn sweep(nodes: &[Node], heights: &mut [Option<u64>]) -> bool
    requires { length heights.old ≡ length nodes.now }
    ensures sound { IsSound nodes.now heights.old → IsSound nodes.now heights.new }
    ensures complete { (m : ℕ) → IsComplete nodes.now m heights.old → IsComplete nodes.now (suc m) heights.new }
    ensures same { result ≡ false → heights.new ≡ heights.old }
{
    let mut changed = false;
    let mut path = nodes.len();
    while path > 0 {
        path -= 1;
        let height = next_height(heights, &nodes[path]);
        changed |= lower_at(heights, path, height);
    }
    changed
}

/// The least depth at which each path is available, up to 200.
pub(crate) fn least_heights(alloc: Global, nodes: &[Node]) -> Result<Vec<Option<u64>>, OutOfMemory>
    ensures { IfOk result (λ made. (n q : ℕ) → n < 201 → is_within n (height_at made.items q) ≡ reached nodes.now n q) }
{
    let mut heights = Vec::new(alloc);
    for _node in nodes {
        heights.push(None)?;
    }
    for _round in 0..201u32 {
        if !sweep(nodes, &mut heights) {
            return Ok(heights);
        }
    }
    Ok(heights)
}
