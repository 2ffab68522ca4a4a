//! Rows between two that move by one.

ghost use Rattle.std.specs.Prelude.{◌≡◌, ◌-◌, ◌<◌, ◌≤◌, [], List, ℕ, IfSome, if◌then◌else◌, length};
ghost use Rattle.sheet.specs.Grid.{row_at};
ghost use Rattle.text_find.specs.Foretold.{IsForetold};
ghost use Rattle.text_find.specs.declared.foretold.Foretold.TheVariants.{MovesWithin};
ghost use Rattle.xterm_term.specs.Seen.{Shows};
ghost use Rattle.xterm_term.specs.Term.{Term};
ghost use Rattle.xterm_print.specs.FindRows.{heeds_next};
ghost use Rattle.xterm_print.specs.Pieces.{rows_after};

use crate::find_rows::heeds_next;
use text_find::Region;
use xterm_screen::Screen;
use xterm_term::{MovedLines, Terminal};

/// Whether the first of the bytes move the rows between two by one: which ones, and how. None also where a row at a border
/// may be read otherwise above the row that comes to stand below it.
pub(crate) fn moved_within(terminal: &Terminal, bytes: &[u8]) -> Option<Region>
    ensures some { IfSome result (λ region. 0 < region.taken) }
    ensures within { IfSome result (λ region. region.taken ≤ length bytes.now) }
    ensures few { IfSome result (λ region. region.columns < u16.MAX) }
    ensures moves { (text letters : List ℕ) (x : Term) → Shows terminal.now x
        → IfSome result (λ region. IsForetold text (rows_after x) [] bytes.now (MovesWithin region) letters) }
{
    let moved = terminal.moves_within(bytes)?;
    let screen = terminal.screen();
    let _cursor = screen.cursor();
    let from = moved.top.saturating_sub(1);
    if line_heeds(screen, from) {
        return None;
    }
    if line_heeds(screen, last_above(moved)) {
        return None;
    }
    Some(Region {
        from: from as usize,
        to: moved.bottom as usize,
        columns: screen.columns() as usize,
        down: moved.down,
        taken: moved.taken,
    })
}

/// The last of the lines whose rows stay: another row comes to stand below it.
fn last_above(moved: MovedLines) -> u16
    ensures { result ≡ (if moved.down then moved.bottom - 1 else moved.bottom) }
{
    if moved.down {
        moved.bottom.saturating_sub(1)
    } else {
        moved.bottom
    }
}

/// Whether how the row of a line is read depends on the next one; no row stands outside the screen.
fn line_heeds(screen: &Screen, line: u16) -> bool
    ensures { result ≡ heeds_next (row_at screen.now.picture.rows line) }
{
    let _cursor = screen.cursor();
    if line < 1 {
        return false;
    }
    if screen.lines() < line {
        return false;
    }
    heeds_next(screen.row(line))
}
