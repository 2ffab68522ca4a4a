//! Where a text was seen to stand, so that it is looked for there first. What it spares is a search; nothing rests on it.

ghost use Rattle.std.specs.Prelude.{◌≡◌, length};

use crate::quiet::{agrees, may_start_in};
use crate::standing::Place;
use crate::start::Start;
use screen_rows::cells_to_margin;
use vt_screen::laws::screens_are_sound;
use vt_screen::limits::{LINES, WIDE_COLUMNS};
use vt_screen::{Cell, Row};
use vt_term::Terminal;

/// Whether a text stands where it was seen, or in a line above, where scrolling may have taken it. The place becomes that.
pub(crate) fn stands_still(text: &[char], terminal: &Terminal, seen: &mut Place) -> bool {
    let last = *seen;
    for back in 0..last.line {
        let place = Place {
            line: last.line - back,
            column: last.column,
        };
        if stands_at(text, terminal, place) {
            *seen = place;
            return true;
        }
    }
    false
}

/// Whether a text stands at a place, in one row.
fn stands_at(text: &[char], terminal: &Terminal, place: Place) -> bool {
    if place.line < 1 || place.line > LINES || place.column < 1 {
        return false;
    }
    let screen = terminal.screen();
    screens_are_sound(screen);
    let cells = cells_to_margin(screen.is_wide(), screen.row(place.line));
    begins_at(text, cells, place.column as usize - 1)
}

/// Whether cells have a text behind so many.
fn begins_at(text: &[char], cells: &[Cell], behind: usize) -> bool {
    if cells.len() < behind || cells.len() - behind < text.len() {
        return false;
    }
    agrees(text, &cells[behind..])
}

/// Whether the last look for a text was in vain: then none is worth it before a key is lacked again.
pub(crate) fn is_vain(seen: Place) -> bool {
    seen.line < 1 && seen.column > 0
}

/// The last line in which a text is seen to stand, and the first column of it; where it isn't, a place above all lines that
/// says so.
pub(crate) fn place_seen(text: &[char], start: &Start, terminal: &Terminal) -> Place {
    let screen = terminal.screen();
    screens_are_sound(screen);
    for back in 0..LINES {
        let line = LINES - back;
        let column = column_seen(text, start, screen.is_wide(), screen.row(line));
        if column > 0 {
            return Place { line, column };
        }
    }
    Place { line: 0, column: 1 }
}

/// The first column at which a text is seen to stand in a row, or 0.
fn column_seen(text: &[char], start: &Start, wide: bool, row: &Row) -> u8
    requires { length row.now.cells ≡ WIDE_COLUMNS }
{
    if !may_start_in(start, wide, row) {
        return 0;
    }
    let cells = cells_to_margin(wide, row);
    for behind in 0..cells.len() {
        if begins_at(text, cells, behind) {
            return behind as u8 + 1;
        }
    }
    0
}
