//! The entry of a chunk.

ghost use Rattle.std.specs.Prelude.{◌≡◌, List};
ghost use Rattle.std.specs.List.{flat_map};
ghost use Rattle.sheet.specs.Cells.{Cell};
ghost use Rattle.tape_core.specs.Devices.{Gave};
ghost use Rattle.xterm_page.specs.Entries.{entry_of};
ghost use Rattle.xterm_page.specs.EntryText.{next_text};
ghost use Rattle.held.specs.Held.{Wrote};
ghost use Rattle.xterm_page.specs.Parts.{AreLines, front_text, renewed, renewed_text, told};
ghost use Rattle.xterm_term.specs.Seen.{Tells};

use crate::caught::catch_up;
use crate::distinct::distinct_after;
use crate::kept::{KeptSheet, Renewal, changed_rows, kept_rows};
use crate::moved::put_block;
use crate::rows::put_changed;
use arrayvec::ArrayVec;
use chunk_walk::Visitor;
use held::{HELD, let_out, put, put_byte};
use screen_page::put_comma_number;
use std::alloc::Global;
use std::io::Write;
use tape_core::laws::gives_join;
use tape_core::{Watched, seconds_text};
use tape_seek::Session;
use xterm_print::seek_count;
use xterm_screen::Screen;
use xterm_term::laws::size_stays;
use xterm_term::{OutOfMemory, Terminal};

/// Writes the entry of each chunk behind the one before it. What it keeps is a copy of the rows.
#[derive(Drop)]
pub(crate) struct EntryPrinter {
    pub(crate) alloc: Global,
}

impl Visitor<Terminal> for EntryPrinter {
    ghost use Rattle.xterm_page.specs.Parts.{AreKept, chunk_text};

    type Kept = KeptSheet;

    ghost text = { λ _. chunk_text };

    ghost keeps = { λ size kept bytes. AreKept size kept.rows.items kept.distinct bytes };

    ghost takes_none = { ⊥ };

    fn go_to(session: &mut Session<Terminal>, count: usize) -> Result<(), OutOfMemory> {
        seek_count(session, count)?;
        Ok(())
    }

    fn keep(&self, terminal: &Terminal) -> Result<KeptSheet, OutOfMemory> {
        size_stays();
        let rows = kept_rows(self.alloc, terminal.screen())?;
        Ok(KeptSheet { rows, distinct: 0 })
    }

    fn visit<W: Write>(
        &self,
        _index: usize,
        due: u64,
        kept: &mut KeptSheet,
        terminal: &Terminal,
        writer: &mut Watched<W>,
    ) -> Result<(), OutOfMemory> {
        size_stays();
        let screen = terminal.screen();
        if kept.rows.len() == screen.lines() as usize {
            let changed = changed_rows(self.alloc, kept.rows.as_slice(), kept.distinct, screen)?;
            put_entry(due, changed.as_slice(), terminal, writer);
            catch_up(kept.rows.as_mut_slice(), changed.as_slice(), screen);
            kept.distinct = distinct_after(changed.as_slice(), kept.distinct);
        }
        Ok(())
    }
}

/// Writes an entry behind another one, whatever stood before it, by the lines that have changed.
fn put_entry<W: Write>(due: u64, changed: &[Renewal], after: &Terminal, writer: &mut Watched<W>)
    requires { AreLines after.now.console.picture.lines changed.now }
    ensures { (before : List (List Cell)) → Tells before after.now
        → flat_map told changed.now ≡ renewed after.now.origins after.now.console.picture.lines before
        after.now.console.picture.rows → Gave W.contents writer.old writer.new
        (next_text (entry_of due before after.now.console)) }
{
    gives_join::<W>();
    let mut held = ArrayVec::new();
    put(b",\n[", &mut held, writer);
    put_front(due, after, &mut held, writer);
    put_lines(changed, after.screen(), &mut held, writer);
    put_byte(b']', &mut held, writer);
    let_out(&mut held, writer);
}

/// Writes an entry's beginning: when the chunk is due, the flags, the cursor.
fn put_front<W: Write>(
    due: u64,
    after: &Terminal,
    held: &mut ArrayVec<u8, HELD>,
    writer: &mut Watched<W>,
)
    ensures { Wrote W.contents writer.old held.old.items writer.new held.new.items
        (front_text due after.now.console) }
{
    let modes = after.modes();
    let (line, column) = after.screen().cursor();
    let flags = 2 * usize::from(modes.reverse_screen) + 4 * usize::from(!modes.cursor_shown);
    put(seconds_text(due).as_bytes(), held, writer);
    put_comma_number(flags, held, writer);
    put_comma_number(usize::from(line), held, writer);
    put_comma_number(usize::from(column), held, writer);
}

/// Writes what the lines are that a chunk changes.
fn put_lines<W: Write>(
    changed: &[Renewal],
    screen: &Screen,
    held: &mut ArrayVec<u8, HELD>,
    writer: &mut Watched<W>,
)
    requires { AreLines screen.now.picture.lines changed.now }
    ensures { Wrote W.contents writer.old held.old.items writer.new held.new.items
        (flat_map (λ one. flat_map (renewed_text screen.now.picture.rows) (told one)) changed.now) }
{
    for at in 0..changed.len() {
        match changed[at] {
            Renewal::Line(line, renewed) => {
                let (cells, used) = (screen.row(line), screen.used(line));
                put_changed(line as usize, renewed.was, cells, used, held, writer);
            }
            Renewal::Moved(block) => put_block(block, held, writer),
        }
    }
}
