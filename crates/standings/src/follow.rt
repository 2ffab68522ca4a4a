//! Rows that become those of others.

ghost use Rattle.std.specs.Prelude.{◌≡◌, ◌-◌, ◌<◌, ◌≤◌, ℕ, true, length, IfOk, OnErr, OnOk};
ghost use Rattle.standings.specs.Follow.{AreCopies, has_length};
ghost use Rattle.standings.specs.Rows.{row_below};
ghost use Rattle.standings.specs.Spans.{Stays, span_of};

use crate::row::Row;
use crate::span::Span;
use std::alloc::{AllocError, Global};
use std::mem::swap;

/// Rows become those of others, from which only these may differ. Memory is asked for where a row has fewer characters
/// than the other, before any changes; where it is refused, they are as before.
pub(crate) fn follow_rows(
    alloc: Global,
    rows: &mut [Row],
    others: &[Row],
    span: Span,
) -> Result<(), AllocError>
    ensures followed { Stays span rows.old others.now → OnOk result (rows.new ≡ others.now) }
    ensures refused { OnErr result (rows.new ≡ rows.old) }
{
    let to = span.to.min(rows.len()).min(others.len());
    let mut copies = Vec::new(alloc);
    if !have_length(rows, others, span.from, to) {
        copies = copies_of(alloc, rows, others, span.from, to)?;
    }
    take_copies(rows, others, span.from, to, copies.as_mut_slice());
    Ok(())
}

/// Whether each row from one up to and without another has at least as many characters as the other.
fn have_length(rows: &[Row], others: &[Row], from: usize, to: usize) -> bool
    requires within { to ≤ length rows.now }
    requires others { to ≤ length others.now }
    ensures { result ≡ true → (k : ℕ) → from ≤ k → k < to
        → has_length (row_below rows.now k) (row_below others.now k) ≡ true }
{
    for above in from..to {
        if !rows[above].has_length(&others[above]) {
            return false;
        }
    }
    true
}

/// For each row from one up to and without another a copy of the other, if the row has fewer characters, and else a row
/// without a character.
fn copies_of(
    alloc: Global,
    rows: &[Row],
    others: &[Row],
    from: usize,
    to: usize,
) -> Result<Vec<Row>, AllocError>
    requires within { to ≤ length rows.now }
    requires others { to ≤ length others.now }
    ensures { IfOk result (λ copies. AreCopies from to rows.now others.now copies.items) }
{
    let mut copies = Vec::new(alloc);
    for above in from..to {
        let copy = if rows[above].has_length(&others[above]) {
            Row::with_room(alloc, 0, false)?
        } else {
            others[above].copied(alloc)?
        };
        copies.push(copy)?;
    }
    Ok(copies)
}

/// The rows from one up to and without another become those of others, by these copies where they have fewer characters.
fn take_copies(rows: &mut [Row], others: &[Row], from: usize, to: usize, copies: &mut [Row])
    requires within { to ≤ length rows.old }
    requires others { to ≤ length others.now }
    requires copies { AreCopies from to rows.old others.now copies.old }
    ensures { Stays (span_of from to) rows.old others.now → rows.new ≡ others.now }
{
    for above in from..to {
        let row = &mut rows[above];
        if row.has_length(&others[above]) {
            row.overwrite(&others[above]);
        } else {
            swap(row, &mut copies[above - from]);
        }
    }
}
