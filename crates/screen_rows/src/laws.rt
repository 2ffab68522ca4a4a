//! Laws over the definitions alone, as functions with empty bodies.

ghost use Rattle.std.specs.Prelude.{◌≡◌, ◌↔◌, true};
ghost use Rattle.vt_screen.specs.declared.cell.Row.{Row};
ghost use Rattle.screen_rows.specs.SameRows.{same_row};

/// The test that change lines go by tells equal rows from others.
pub fn same_rows_are_equal()
    ensures { (one other : Row) → ((same_row one other ≡ true) ↔ (one ≡ other)) }
{}
