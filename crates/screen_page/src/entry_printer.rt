//! The entry of a chunk.

ghost use Rattle.std.specs.Prelude.{◌≡◌, All};
ghost use Rattle.std.specs.List.{flat_map};
ghost use Rattle.tape_core.specs.Devices.{Gave};
ghost use Rattle.vt_term.specs.Seen.{Told};
ghost use Rattle.screen_rows.specs.KeptRows.{AreSources};
ghost use Rattle.screen_rows.specs.SameRows.{changed_lines};
ghost use Rattle.screen_print.specs.Stills.{Still, still_of};
ghost use Rattle.screen_page.specs.Entries.{entry_of};
ghost use Rattle.screen_page.specs.EntryText.{next_text};
ghost use Rattle.screen_page.specs.Parts.{IsLine, front_text, line_text};
ghost use Rattle.held.specs.Held.{Wrote};

use crate::numbered::NumberedRows;
use crate::numbers::put_comma_number;
use crate::rows::put_line;
use arrayvec::ArrayVec;
use chunk_walk::Visitor;
use held::{HELD, let_out, put, put_byte};
use screen_rows::Compared;
use std::io::Write;
use tape_core::laws::gives_join;
use tape_core::{Watched, seconds_text};
use tape_seek::{OutOfMemory, Session};
use vt_screen::Screen;
use vt_term::Terminal;

/// Writes the entry of each chunk behind the one before it. What it keeps is a copy of the rows.
#[derive(Drop)]
pub(crate) struct EntryPrinter;

impl Visitor<Terminal> for EntryPrinter {
    ghost use Rattle.screen_print.specs.Walk.{still_by, text_by};
    ghost use Rattle.screen_page.specs.Parts.{chunk_text};

    type Kept = NumberedRows;

    ghost text = { λ _. text_by chunk_text };

    ghost keeps = { λ profile rows bytes. rows.rows ≡ (still_by profile bytes).rows };

    ghost takes_none = { Unit {0} };

    fn go_to(session: &mut Session, count: usize) -> Result<(), OutOfMemory> {
        session.seek_count(count)?;
        Ok(())
    }

    fn keep(&self, terminal: &Terminal) -> Result<NumberedRows, OutOfMemory> {
        Ok(NumberedRows::of(terminal.screen()))
    }

    fn visit<W: Write>(
        &self,
        _index: usize,
        due: u64,
        kept: &mut NumberedRows,
        terminal: &Terminal,
        writer: &mut Watched<W>,
    ) -> Result<(), OutOfMemory> {
        put_seen(due, kept, terminal, writer);
        Ok(())
    }
}

/// Writes the entry of a chunk by the rows before it and by the terminal after it, whose rows they become.
fn put_seen<W: Write>(
    due: u64,
    rows: &mut NumberedRows,
    terminal: &Terminal,
    writer: &mut Watched<W>,
)
    requires { Told rows.old.rows terminal.now }
    ensures gave { (before : Still) → before.rows ≡ rows.old.rows → Gave W.contents writer.old writer.new
        (next_text (entry_of due before (still_of terminal.now.console))) }
    ensures after { rows.new.rows ≡ terminal.now.console.picture.rows }
{
    let screen = terminal.screen();
    let compared = rows.compare(screen);
    put_entry(due, rows, terminal, screen, &compared, writer);
    rows.catch_up(screen, &compared.sources);
}

/// Writes an entry behind another one.
fn put_entry<W: Write>(
    due: u64,
    rows: &NumberedRows,
    after: &Terminal,
    screen: &Screen,
    compared: &Compared,
    writer: &mut Watched<W>,
)
    requires screen { screen.now.picture ≡ after.now.console.picture }
    requires lines { compared.now.lines.items
        ≡ changed_lines rows.now.rows screen.now.picture.rows }
    requires sources { AreSources rows.now screen.now compared.now.sources }
    ensures { (before : Still) → before.rows ≡ rows.now.rows → Gave W.contents writer.old writer.new
        (next_text (entry_of due before (still_of after.now.console))) }
{
    gives_join::<W>();
    let mut held = ArrayVec::new();
    put(b",\n[", &mut held, writer);
    put_front(due, after, &mut held, writer);
    put_lines(rows, screen, compared, &mut held, writer);
    put_byte(b']', &mut held, writer);
    let_out(&mut held, writer);
}

/// Writes an entry's beginning: when the chunk is due, the flags, the cursor.
fn put_front<W: Write>(
    due: u64,
    after: &Terminal,
    held: &mut ArrayVec<u8, HELD>,
    writer: &mut Watched<W>,
)
    ensures { Wrote W.contents writer.old held.old.items writer.new held.new.items
        (front_text due (still_of after.now.console)) }
{
    let wide = after.screen().is_wide();
    let reversed = after.modes().reverse_screen;
    let (line, column) = after.screen().cursor();
    put(seconds_text(due).as_bytes(), held, writer);
    put_comma_number(usize::from(wide) + 2 * usize::from(reversed), held, writer);
    put_comma_number(usize::from(line), held, writer);
    put_comma_number(usize::from(column), held, writer);
}

/// Writes what the lines are that a chunk changes.
fn put_lines<W: Write>(
    rows: &NumberedRows,
    screen: &Screen,
    compared: &Compared,
    held: &mut ArrayVec<u8, HELD>,
    writer: &mut Watched<W>,
)
    requires lines { All IsLine compared.now.lines.items }
    requires sources { AreSources rows.now screen.now compared.now.sources }
    ensures { Wrote W.contents writer.old held.old.items writer.new held.new.items
        (flat_map (line_text rows.now.rows screen.now.picture.rows) compared.now.lines.items) }
{
    let lines = compared.lines.as_slice();
    for line in lines {
        let source = compared.sources[*line as usize - 1];
        put_line(rows, screen, *line, source, held, writer);
    }
}
