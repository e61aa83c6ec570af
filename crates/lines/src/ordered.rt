//! The row that covers an address.

ghost use Rattle.std.specs.Prelude.{◌≡◌, ◌<◌, IfOk, IsTrue, MatchOption, OnOk};
ghost use Rattle.std.specs.List.{All};
ghost use Rattle.std.specs.List.Sorted.{IsNonDecreasingBy};
ghost use Rattle.lines.specs.Covering.{IsNearest, Rise, Rises, covering, rows_of};
ghost use Rattle.lines.specs.declared.rows.Sequence.{Sequence};

use crate::rows::{Row, Sequence};
use std::alloc::{AllocError, Global};

/// Sequences in the order in which they begin, and their rows, whose addresses do not fall.
#[derive(Drop)]
pub(crate) struct Ordered {
    rows: Vec<Row>,
    sequences: Vec<Sequence>,
    ghost beginning: { IsNonDecreasingBy (λ (s : Sequence). s.start) sequences.items },
    ghost rising: { All (Rises rows.items) sequences.items },
}

// Whether the addresses of rows do not fall.
fn rise(rows: &[Row]) -> bool
    ensures { IsTrue result → Rise rows.now }
{
    let mut last = 0;
    for row in rows {
        if row.address < last {
            return false;
        }
        last = row.address;
    }
    true
}

// The rows of a sequence.
fn rows_of(rows: &[Row], sequence: Sequence) -> &[Row]
    ensures { result.now ≡ rows_of rows.now sequence }
{
    if sequence.first <= sequence.after && sequence.after <= rows.len() {
        return &rows[sequence.first..sequence.after];
    }
    &[]
}

// Of rows whose addresses do not fall, the one that covers an address.
fn covering(rows: &[Row], address: u64) -> Option<Row>
    requires { Rise rows.now }
    ensures { result ≡ covering address rows.now }
{
    let after = rows.partition_point(|row| row.address <= address);
    if after == 0 {
        return None;
    }
    if after == rows.len() {
        return None;
    }
    Some(rows[after - 1])
}

// Of sequences in the order in which they begin, the one in which an address is looked for. A linker leaves the
// sequences of what it discards at address 0: of those that begin at one address, the first in the file counts.
fn nearest(sequences: &[Sequence], address: u64) -> Option<Sequence>
    requires { IsNonDecreasingBy (λ (s : Sequence). s.start) sequences.now }
    ensures { MatchOption result (All (λ (s : Sequence). address < s.start) sequences.now)
        (IsNearest sequences.now address) }
{
    let after = sequences.partition_point(|sequence| sequence.start <= address);
    if after == 0 {
        return None;
    }
    let start = sequences[after - 1].start;
    let first = sequences.partition_point(|sequence| sequence.start < start);
    Some(sequences[first])
}

// Adds a sequence, if the addresses of its rows do not fall.
fn add_rising(
    rows: &[Row],
    sequence: Sequence,
    rising: &mut Vec<Sequence>,
) -> Result<(), AllocError>
    requires { All (Rises rows.now) rising.old.items }
    ensures { OnOk result (All (Rises rows.now) rising.new.items) }
{
    if rise(rows_of(rows, sequence)) {
        rising.push(sequence)?;
        return Ok(());
    }
    Ok(())
}

// The sequences whose rows' addresses do not fall.
fn rising(alloc: Global, rows: &[Row], sequences: &[Sequence]) -> Result<Vec<Sequence>, AllocError>
    ensures { IfOk result (λ rising. All (Rises rows.now) rising.items) }
{
    let mut rising = Vec::new(alloc);
    for sequence in sequences {
        add_rising(rows, *sequence, &mut rising)?;
    }
    Ok(rising)
}

impl Ordered {
    /// The sequences, except those whose rows' addresses fall.
    pub(crate) fn of(
        alloc: Global,
        rows: Vec<Row>,
        sequences: &[Sequence],
    ) -> Result<Ordered, AllocError> {
        let mut sequences = rising(alloc, &rows, sequences)?;
        sequences.sort_by_key(|sequence| sequence.start)?;
        Ok(Ordered { rows, sequences })
    }

    /// The sequence in which an address is looked for.
    pub(crate) fn sequence(&self, address: u64) -> Option<Sequence>
        ensures { MatchOption result (All (λ (s : Sequence). address < s.start) self.now.sequences.items)
            (IsNearest self.now.sequences.items address) }
    {
        nearest(&self.sequences, address)
    }

    /// The row of a sequence that covers an address.
    pub(crate) fn row(&self, sequence: Sequence, address: u64) -> Option<Row>
        requires { IsNearest self.now.sequences.items address sequence }
        ensures { result ≡ covering address (rows_of self.now.rows.items sequence) }
    {
        covering(rows_of(&self.rows, sequence), address)
    }
}
