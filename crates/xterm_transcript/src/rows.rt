//! The rows of the main sheet, as they are told.
ghost use Rattle.std.specs.Prelude.{◌≡◌, ◌<◌, ◌≤◌, ◌∷◌, [], encode_utf8, length, not, take, OnErr, OnOk};
ghost use Rattle.std.specs.List.{flat_map, list_any};
ghost use Rattle.sheet.specs.Cells.{is_covered};
ghost use Rattle.sheet.specs.Grid.{row_at};
ghost use Rattle.transcripts.specs.Told.{PutsPart, Tells, TellsFront};
ghost use Rattle.xterm_rows.specs.RowText.{printed, trimmed};
ghost use Rattle.xterm_screen.specs.Sheets.{main_rows};
ghost use Rattle.xterm_term.specs.Seen.{Shows};
ghost use Rattle.xterm_term.specs.Term.{Term};
ghost use Rattle.xterm_transcript.specs.Leaving.{first_if, last_repeated_rows, repeated_rows, rows_of};
ghost use Rattle.xterm_transcript.specs.Playing.{character_put_times, repeated_off, told_by};
ghost use Rattle.xterm_transcript.specs.Rows.{first_rows, inked_rows, row_printed};

use crate::leaving::{Leaving, put_leaves};
use arrayvec::ArrayVec;
use plays::OutOfMemory;
use sheet::Cell;
use std::io::Write;
use tape_core::Watched;
use transcripts::Rows;
use xterm_rows::{is_letter, trimmed};
use xterm_screen::Screen;
use xterm_term::Terminal;

/// How many letters go out at once, at most.
const LETTERS: usize = 128;

/// Room for those.
type Letters = ArrayVec<u8, LETTERS>;

/// Tells the rows that leave a terminal's screen. A character that is repeated is put then, and repeated no more.
pub(crate) fn tell_leaving<W: Write>(
    leaving: Leaving,
    terminal: &mut Terminal,
    rows: &mut Rows,
    writer: &mut Watched<W>,
) -> Result<(), OutOfMemory>
    ensures tells { (x : Term) → Shows terminal.old x → OnOk result (Tells W.contents writer.old
        rows.old writer.new rows.new (rows_of leaving x.console)) }
    ensures front { (x : Term) → Shows terminal.old x → OnErr result (TellsFront W.contents
        writer.old rows.old writer.new rows.new (rows_of leaving x.console)) }
    ensures shows { (x : Term) → Shows terminal.old x
        → OnOk result (Shows terminal.new (told_by leaving x)) }
{
    match leaving {
        Leaving::NoRow => Ok(()),
        Leaving::FirstRows(count) => tell_first(count, terminal.screen(), rows, writer),
        Leaving::InkedRows => tell_inked(terminal.screen(), rows, writer),
        Leaving::Repeated(times) => tell_last_repeated(times, terminal, rows, writer),
    }
}

/// Tells the first rows.
fn tell_first<W: Write>(
    count: u16,
    screen: &Screen,
    rows: &mut Rows,
    writer: &mut Watched<W>,
) -> Result<(), OutOfMemory>
    ensures tells { OnOk result (Tells W.contents writer.old rows.old writer.new rows.new
        (first_rows count screen.now.picture)) }
    ensures front { OnErr result (TellsFront W.contents writer.old rows.old writer.new rows.new
        (first_rows count screen.now.picture)) }
{
    let _sound = screen.cursor();
    tell_rows(screen, count.min(screen.lines()), rows, writer)
}

// Tells those from line 1 to the last that isn't blank.
fn tell_inked<W: Write>(
    screen: &Screen,
    rows: &mut Rows,
    writer: &mut Watched<W>,
) -> Result<(), OutOfMemory>
    ensures tells { OnOk result (Tells W.contents writer.old rows.old writer.new rows.new
        (inked_rows screen.now.picture)) }
    ensures front { OnErr result (TellsFront W.contents writer.old rows.old writer.new rows.new
        (inked_rows screen.now.picture)) }
{
    tell_rows(screen, inked_count(screen), rows, writer)
}

/// Tells row 1, if it leaves.
pub(crate) fn tell_first_if<W: Write>(
    leaves: bool,
    screen: &Screen,
    rows: &mut Rows,
    writer: &mut Watched<W>,
) -> Result<(), OutOfMemory>
    ensures tells { OnOk result (Tells W.contents writer.old rows.old writer.new rows.new
        (first_if leaves screen.now.picture)) }
    ensures front { OnErr result (TellsFront W.contents writer.old rows.old writer.new rows.new
        (first_if leaves screen.now.picture)) }
{
    if leaves {
        return tell_first(1, screen, rows, writer);
    }
    Ok(())
}

// Puts the last character so many times, and tells the rows that leave. Then there is none any more.
fn tell_last_repeated<W: Write>(
    times: u16,
    terminal: &mut Terminal,
    rows: &mut Rows,
    writer: &mut Watched<W>,
) -> Result<(), OutOfMemory>
    ensures tells { (x : Term) → Shows terminal.old x → OnOk result (Tells W.contents writer.old
        rows.old writer.new rows.new (last_repeated_rows times x.console.last x.console)) }
    ensures front { (x : Term) → Shows terminal.old x → OnErr result (TellsFront W.contents
        writer.old rows.old writer.new rows.new (last_repeated_rows times x.console.last x.console)) }
    ensures shows { (x : Term) → Shows terminal.old x
        → OnOk result (Shows terminal.new (repeated_off times x)) }
{
    let Some(character) = terminal.last_character() else {
        return Ok(());
    };
    tell_repeated(times, character, terminal, rows, writer)?;
    terminal.forget_last();
    Ok(())
}

// Puts a character so many times, and tells the rows that leave.
fn tell_repeated<W: Write>(
    times: u16,
    character: char,
    terminal: &mut Terminal,
    rows: &mut Rows,
    writer: &mut Watched<W>,
) -> Result<(), OutOfMemory>
    ensures tells { (x : Term) → Shows terminal.old x → OnOk result (Tells W.contents writer.old
        rows.old writer.new rows.new (repeated_rows times character x.console)) }
    ensures front { (x : Term) → Shows terminal.old x → OnErr result (TellsFront W.contents
        writer.old rows.old writer.new rows.new (repeated_rows times character x.console)) }
    ensures shows { (x : Term) → Shows terminal.old x
        → OnOk result (Shows terminal.new (character_put_times times character x)) }
{
    for step in 0..times {
        let leaves = put_leaves(character, terminal);
        tell_first_if(leaves, terminal.screen(), rows, writer)?;
        terminal.put(character);
    }
    Ok(())
}

/// Tells the rows from line 1 on.
pub(crate) fn tell_rows<W: Write>(
    screen: &Screen,
    count: u16,
    rows: &mut Rows,
    writer: &mut Watched<W>,
) -> Result<(), OutOfMemory>
    requires { count ≤ screen.now.picture.lines }
    ensures tells { OnOk result (Tells W.contents writer.old rows.old writer.new rows.new
        (first_rows count screen.now.picture)) }
    ensures front { OnErr result (TellsFront W.contents writer.old rows.old writer.new rows.new
        (first_rows count screen.now.picture)) }
{
    let _sound = screen.cursor();
    for line in 0..count {
        tell_row(screen, line + 1, rows, writer)?;
    }
    Ok(())
}

// Tells a row.
fn tell_row<W: Write>(
    screen: &Screen,
    line: u16,
    rows: &mut Rows,
    writer: &mut Watched<W>,
) -> Result<(), OutOfMemory>
    requires low { 1 ≤ line }
    requires high { line ≤ screen.now.picture.lines }
    ensures tells { OnOk result (Tells W.contents writer.old rows.old writer.new rows.new
        (row_printed (row_at (main_rows screen.now.picture) line) ∷ [])) }
    ensures rows_stay { OnErr result (rows.new ≡ rows.old) }
    ensures writer_stays { OnErr result (writer.new ≡ writer.old) }
{
    let cells = text_cells(screen, line);
    if !has_text(cells) {
        return rows.put(&[], writer);
    }
    rows.begin_row(writer);
    put_cells(cells, rows, writer);
    rows.end_row(writer);
    Ok(())
}

// How many rows there are from line 1 to the last that isn't blank.
fn inked_count(screen: &Screen) -> u16
    ensures within { result ≤ screen.now.picture.lines }
    ensures value { first_rows result screen.now.picture ≡ inked_rows screen.now.picture }
{
    let _sound = screen.cursor();
    let mut count = 0;
    for line in 0..screen.lines() {
        if has_text(text_cells(screen, line + 1)) {
            count = line + 1;
        }
    }
    count
}

// The cells of a row without the spaces at their end. Those behind the ones in use are spaces.
#[tactic(auto, using(xterm_rows::proofs::TrimmedLemmas::trimmed_used))]
fn text_cells(screen: &Screen, line: u16) -> &[Cell]
    requires low { 1 ≤ line }
    requires high { line ≤ screen.now.picture.lines }
    ensures { result.now ≡ trimmed (row_at (main_rows screen.now.picture) line) }
{
    trimmed(&screen.main_row(line)[..screen.main_used(line)])
}

// Whether cells have a text: not all of them are right halves.
fn has_text(cells: &[Cell]) -> bool
    ensures { result ≡ list_any (λ cell. not (is_covered cell)) cells.now }
{
    cells.iter().any(|cell| !cell.is_covered())
}

// Puts cells as a part of a row, the letters among them some at a time.
fn put_cells<W: Write>(cells: &[Cell], rows: &mut Rows, writer: &mut Watched<W>)
    ensures { PutsPart W.contents writer.old rows.old writer.new rows.new
        (flat_map printed cells.now) }
{
    let mut at = 0;
    while at < cells.len() {
        at += put_some(&cells[at..], rows, writer);
    }
}

// Puts some of the cells, at least one, and says how many.
fn put_some<W: Write>(cells: &[Cell], rows: &mut Rows, writer: &mut Watched<W>) -> usize
    requires { 0 < length cells.now }
    ensures some { 0 < result }
    ensures within { result ≤ length cells.now }
    ensures puts { PutsPart W.contents writer.old rows.old writer.new rows.new
        (flat_map printed (take result cells.now)) }
{
    let mut letters = Letters::new();
    spell(cells, &mut letters);
    if letters.is_empty() {
        put_cell(cells[0], rows, writer);
        return 1;
    }
    rows.put_part(letters.as_slice(), writer);
    letters.len()
}

// Writes down the letters that come first, as many as there is room for.
fn spell(cells: &[Cell], letters: &mut Letters)
    requires none { letters.old.items ≡ [] }
    ensures within { length letters.new.items ≤ length cells.now }
    ensures spelled { letters.new.items
        ≡ flat_map printed (take (length letters.new.items) cells.now) }
{
    let count = cells.len().min(LETTERS);
    for at in 0..count {
        let cell = cells[at];
        if !is_letter(cell) {
            return;
        }
        letters.push(cell.ascii());
    }
}

// Puts a cell: its character and its marks, or nothing of a right half.
fn put_cell<W: Write>(cell: Cell, rows: &mut Rows, writer: &mut Watched<W>)
    ensures { PutsPart W.contents writer.old rows.old writer.new rows.new (printed cell) }
{
    if is_letter(cell) {
        rows.put_part(&[cell.ascii()], writer);
        return;
    }
    if cell.is_covered() {
        return;
    }
    put_character(cell.character(), rows, writer);
    for n in 0..cell.mark_count() {
        put_character(cell.mark(n), rows, writer);
    }
}

// Puts a character.
fn put_character<W: Write>(character: char, rows: &mut Rows, writer: &mut Watched<W>)
    ensures { PutsPart W.contents writer.old rows.old writer.new rows.new (encode_utf8 character) }
{
    rows.put_part(character.encode_utf8(&mut [0; 4]).as_bytes(), writer);
}
