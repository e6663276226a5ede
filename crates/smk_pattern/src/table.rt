//! What was tried in vain.

ghost use Rattle.std.specs.Prelude.{◌≡◌, ◌⊎◌, ℕ, get_or, true, false};
ghost use Rattle.smk_pattern.specs.Tables.{is_vain, is_signed};

use smk_base::OutOfMemory;
use std::alloc::Global;

/// The ends of a pattern that were tried in vain on ends of a path: for each count of pieces, from a greatest one down, a row with a
/// sign for each count of bytes. Rows grow as they are needed, so a table takes as many as pieces are gone over with it.
#[derive(Drop)]
pub(crate) struct Vain {
    from: usize,
    rows: Vec<Vec<bool>>,
}

impl Vain {
    /// A table for at most so many pieces, in which nothing is noted, which takes no memory.
    pub(crate) fn new(alloc: Global, from: usize) -> Vain
        ensures { (parts bytes : ℕ) → is_vain result parts bytes ≡ false }
    {
        Vain {
            from,
            rows: Vec::new(alloc),
        }
    }

    /// Whether so many pieces were tried in vain on the last so many bytes.
    pub(crate) fn has(&self, pieces: usize, bytes: usize) -> bool
        ensures { result ≡ is_vain self.now pieces bytes }
    {
        pieces <= self.from && is_signed(&self.rows, self.from - pieces, bytes)
    }

    /// Notes that so many pieces were tried in vain on the last so many bytes, where the table is for so many.
    pub(crate) fn note(
        &mut self,
        alloc: Global,
        pieces: usize,
        bytes: usize,
    ) -> Result<(), OutOfMemory>
        ensures { (parts left : ℕ) → is_vain self.new parts left ≡ true
            → (is_vain self.old parts left ≡ true) ⊎ ((parts ≡ pieces) × (left ≡ bytes)) }
    {
        if pieces > self.from {
            return Ok(());
        }
        sign_row(alloc, &mut self.rows, self.from - pieces, bytes)
    }
}

// Whether the row is signed for so many bytes.
fn is_signed(rows: &[Vec<bool>], row: usize, bytes: usize) -> bool
    ensures { result ≡ is_signed rows.now row bytes }
{
    match rows.get(row) {
        Some(row) => match row.get(bytes) {
            Some(noted) => *noted,
            None => false,
        },
        None => false,
    }
}

// Signs this row for so many bytes.
fn sign_row(
    alloc: Global,
    rows: &mut Vec<Vec<bool>>,
    row: usize,
    bytes: usize,
) -> Result<(), OutOfMemory>
    ensures { (other left : ℕ) → is_signed rows.new.items other left ≡ true
        → (is_signed rows.old.items other left ≡ true) ⊎ ((other ≡ row) × (left ≡ bytes)) }
{
    for _ in rows.len()..row.saturating_add(1) {
        rows.push(Vec::new(alloc))?;
    }
    if row < rows.len() {
        let signs = &mut rows[row];
        sign(signs, bytes)?;
    }
    Ok(())
}

// Signs the row for so many bytes.
fn sign(row: &mut Vec<bool>, bytes: usize) -> Result<(), OutOfMemory>
    ensures { (left : ℕ) → get_or row.new.items left false ≡ true
        → (get_or row.old.items left false ≡ true) ⊎ (left ≡ bytes) }
{
    for _ in row.len()..bytes.saturating_add(1) {
        row.push(false)?;
    }
    if bytes < row.len() {
        row[bytes] = true;
    }
    Ok(())
}
