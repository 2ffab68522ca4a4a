//! The glyphs of a row, side by side in memory, and which of them stand for themselves in a string.

ghost use Rattle.std.specs.Prelude.{◌≡◌, drop, length, take};
ghost use Rattle.std.specs.List.{list_all};
ghost use Rattle.screen_rows.specs.Plain.{glyphs_of, is_plain, low_bytes};
ghost use Rattle.screen_rows.specs.Runs.{IsRun};

use crate::runs::{CELLS, Run};
use vt_screen::limits::WIDE_COLUMNS;
use vt_screen::{Cell, Row};

/// The glyphs of a row's cells.
pub fn glyphs_of(row: &Row) -> [u8; CELLS]
    requires { length row.now.cells ≡ WIDE_COLUMNS }
    ensures { result ≡ glyphs_of row.now.cells }
{
    low_bytes(&numbers_of(&row.cells))
}

/// The numbers of cells, which stand side by side in memory, so that many are taken at once.
fn numbers_of(cells: &[Cell; CELLS]) -> [u16; CELLS]
    ensures { low_bytes result ≡ glyphs_of cells.now }
{
    let mut numbers = [0; CELLS];
    for at in 0..CELLS {
        numbers[at] = cells[at].number();
    }
    numbers
}

/// The low byte of each number. That of a cell's number is its glyph.
fn low_bytes(numbers: &[u16; CELLS]) -> [u8; CELLS]
    ensures { result ≡ low_bytes numbers.now }
{
    let mut bytes = [0; CELLS];
    for at in 0..CELLS {
        bytes[at] = (numbers[at] % 256) as u8;
    }
    bytes
}

/// Those of a run.
pub fn glyphs_of_run(glyphs: &[u8; CELLS], run: Run) -> &[u8]
    requires { IsRun run }
    ensures { result.now ≡ take run.len (drop run.before glyphs.now) }
{
    &glyphs[run.before as usize..(run.before + run.len) as usize]
}

/// Whether each glyph is a byte that stands for itself in a string of JSON, also within HTML (ours). Each is looked at, so
/// that many are at once.
pub fn are_plain(glyphs: &[u8]) -> bool
    ensures { result ≡ list_all is_plain glyphs.now }
{
    let mut plain = true;
    for glyph in glyphs {
        plain &= is_plain(*glyph);
    }
    plain
}

/// Whether a glyph is a character of ASCII that stands for itself in a string.
fn is_plain(glyph: u8) -> bool
    ensures { result ≡ is_plain glyph }
{
    (glyph >= b' ') & (glyph < 128) & (glyph != b'"') & (glyph != b'<') & (glyph != b'\\')
}
