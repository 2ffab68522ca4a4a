//! Sheets that are kept for later, without the blank tails of their rows.

ghost use Rattle.std.specs.Prelude.{◌≡◌, ℕ, ◌-◌, ◌<◌, ◌≤◌, IfOk, length};
ghost use Rattle.sheet.specs.Grid.{all_touched, row_at};
ghost use Rattle.sheet.specs.Held.{row_in};
ghost use Rattle.sheet.specs.Packed.{unpacked};
ghost use Rattle.sheet.specs.Table.{table};

use super::{Sheet, forget_lines};
use crate::slot::Slot;
use std::alloc::{AllocError, Global};
use std::marker::Model;

/// A sheet of which each row is kept up to its last cell that isn't blank in the default colours. Contracts see the
/// sheet, of which no line's origin is known.
#[derive(Debug, Drop)]
pub struct PackedSheet {
    columns: u16,
    rows: Vec<Slot>,
}

impl Model for PackedSheet {
    ghost use Rattle.sheet.specs.Grid.{Grid};
    ghost use Rattle.sheet.specs.Packed.{IsPacked, packed_grid};

    ghost Value = { Grid };

    ghost view = { λ p. packed_grid p.columns p.rows.items };

    ghost invariant = { λ p. IsPacked p.columns p.rows.items };
}

impl Sheet {
    /// The sheet to be kept for later: 16 bytes a cell up to the last one of a row that isn't blank, and 32 a row.
    pub fn pack(&self, alloc: Global) -> Result<PackedSheet, AllocError>
        ensures { IfOk result (λ packed. packed ≡ all_touched self.now) }
    {
        let lines = self.lines();
        let mut rows = Vec::with_capacity(alloc, lines as usize)?;
        for line in 0..lines {
            rows.push(Slot::keep(alloc, self.row(line + 1))?)?;
        }
        Ok(PackedSheet {
            columns: self.columns,
            rows,
        })
    }

    /// Becomes the sheet that was packed. It takes no memory.
    pub fn unpack(&mut self, packed: &PackedSheet)
        requires columns { packed.now.columns ≡ self.old.columns }
        requires lines { packed.now.lines ≡ self.old.lines }
        ensures { self.new ≡ packed.now }
    {
        name_slots(self.order.as_mut_slice());
        restore_slots(self.slots.as_mut_slice(), packed.rows.as_slice());
        let last = self.order.len() + 1;
        forget_lines(self.origins.as_mut_slice(), 1, last);
    }
}

/// Line r is in slot r - 1 again.
fn name_slots(order: &mut [u16])
    requires { length order.old ≤ 500 }
    ensures { order.new ≡ table (length order.old) (λ line. line - 1) }
{
    for i in 0..order.len() {
        order[i] = i as u16;
    }
}

/// Each slot becomes the row that was kept at its place.
fn restore_slots(slots: &mut [Slot], kept: &[Slot])
    requires count { length kept.now ≡ length slots.old }
    requires short { (slot : ℕ) → slot < length slots.old
        → length (row_in kept.now slot) ≤ length (row_in slots.old slot) }
    ensures { (slot : ℕ) → slot < length slots.old
        → row_in slots.new slot ≡ unpacked (length (row_in slots.old slot)) (row_in kept.now slot) }
{
    for i in 0..slots.len() {
        let row = &mut slots[i];
        row.restore(&kept[i]);
    }
}
