//! The rows of a screen, as they are told.
ghost use Rattle.std.specs.Prelude.{◌≡◌, ◌<◌, ◌≤◌, ◌∷◌, [], false, length, take, true, OnErr, OnOk};
ghost use Rattle.std.specs.List.{list_all};
ghost use Rattle.screen_transcript.specs.Leaving.{rows_of};
ghost use Rattle.screen_transcript.specs.Rows.{all_rows, inked_rows, row_printed};
ghost use Rattle.transcripts.specs.Told.{Tells, TellsFront};
ghost use Rattle.transcripts.specs.Transcript.{without_blank_end};
ghost use Rattle.vt_parser.specs.Syntax.{is_graphic};
ghost use Rattle.vt_screen.specs.Cells.{row_at};

use crate::leaving::Leaving;
use plays::OutOfMemory;
use screen_rows::{cells_to_margin, glyphs_of, printed_row, trimmed};
use std::io::Write;
use tape_core::Watched;
use transcripts::Rows;
use vt_screen::Screen;
use vt_screen::laws::screens_are_sound;
use vt_screen::limits::LINES;

/// Tells the rows that leave a screen.
pub(crate) fn tell_leaving<W: Write>(
    leaving: Leaving,
    screen: &Screen,
    rows: &mut Rows,
    writer: &mut Watched<W>,
) -> Result<(), OutOfMemory>
    ensures tells { OnOk result (Tells W.contents writer.old rows.old writer.new rows.new
        (rows_of leaving screen.now.picture)) }
    ensures front { OnErr result (TellsFront W.contents writer.old rows.old writer.new rows.new
        (rows_of leaving screen.now.picture)) }
{
    match leaving {
        Leaving::NoRow => Ok(()),
        Leaving::FirstRow => tell_row(screen, 1, rows, writer),
        Leaving::InkedRows => tell_rows(screen, inked_count(screen), rows, writer),
    }
}

/// Tells the rows from line 1 on.
pub(crate) fn tell_rows<W: Write>(
    screen: &Screen,
    count: u8,
    rows: &mut Rows,
    writer: &mut Watched<W>,
) -> Result<(), OutOfMemory>
    requires { count ≤ LINES }
    ensures tells { OnOk result (Tells W.contents writer.old rows.old writer.new rows.new
        (take count (all_rows screen.now.picture))) }
    ensures front { OnErr result (TellsFront W.contents writer.old rows.old writer.new rows.new
        (take count (all_rows screen.now.picture))) }
{
    screens_are_sound(screen);
    for line in 0..count {
        tell_row(screen, line + 1, rows, writer)?;
    }
    Ok(())
}

// Tells a row.
fn tell_row<W: Write>(
    screen: &Screen,
    line: u8,
    rows: &mut Rows,
    writer: &mut Watched<W>,
) -> Result<(), OutOfMemory>
    requires low { 1 ≤ line }
    requires high { line ≤ LINES }
    ensures tells { OnOk result (Tells W.contents writer.old rows.old writer.new rows.new
        (row_printed screen.now.picture.wide (row_at screen.now.picture.rows line) ∷ [])) }
    ensures rows_stay { OnErr result (rows.new ≡ rows.old) }
    ensures writer_stays { OnErr result (writer.new ≡ writer.old) }
{
    let row = screen.row(line);
    let len = trimmed(cells_to_margin(screen.is_wide(), row)).len();
    let glyphs = glyphs_of(row);
    if are_ascii(&glyphs[..len]) {
        return rows.put(&glyphs[..len], writer);
    }
    let text = printed_row(screen.is_wide(), row);
    let bytes = text.as_bytes();
    rows.put(&bytes[..bytes.len() - 1], writer)
}

// Whether each glyph is a character of ASCII. Each is looked at, so that many are at once.
fn are_ascii(glyphs: &[u8]) -> bool
    ensures { result ≡ list_all is_graphic glyphs.now }
{
    let mut ascii = true;
    for glyph in glyphs {
        ascii &= is_graphic(*glyph);
    }
    ascii
}

/// Whether a glyph is one.
pub(crate) fn is_graphic(glyph: u8) -> bool
    ensures { result ≡ is_graphic glyph }
{
    (glyph >= b' ') & (glyph < 127)
}

// How many rows there are from line 1 to the last that isn't blank.
fn inked_count(screen: &Screen) -> u8
    ensures within { result ≤ LINES }
    ensures value { take result (all_rows screen.now.picture) ≡ inked_rows screen.now.picture }
{
    screens_are_sound(screen);
    let mut count = LINES;
    while count > 0 && is_blank(screen, count) {
        count -= 1;
    }
    count
}

// Whether a row is blank.
fn is_blank(screen: &Screen, line: u8) -> bool
    requires low { 1 ≤ line }
    requires high { line ≤ LINES }
    ensures blank { result ≡ true
        → row_printed screen.now.picture.wide (row_at screen.now.picture.rows line) ≡ [] }
    ensures inked { result ≡ false
        → 0 < length (row_printed screen.now.picture.wide (row_at screen.now.picture.rows line)) }
{
    trimmed(cells_to_margin(screen.is_wide(), screen.row(line))).is_empty()
}
