//! Sequences that erase the rest of the cursor's row, told as spaces that are written over it.

ghost use Rattle.std.specs.Prelude.{◌≡◌, ◌<◌, ◌≤◌, [], ℕ, IfSome, length, replicate, true};
ghost use Rattle.standings.specs.Standing.{standing};
ghost use Rattle.text_find.specs.Foretold.{IsForetold};
ghost use Rattle.text_find.specs.declared.foretold.Foretold.TheVariants.{Writes};
ghost use Rattle.xterm_rows.specs.Runs.{cell_behind};
ghost use Rattle.xterm_term.specs.Seen.{Shows};
ghost use Rattle.xterm_term.specs.Term.{Term};
ghost use Rattle.xterm_print.specs.Erased.{IsErasableAt};
ghost use Rattle.xterm_print.specs.Pieces.{IsPlain, rows_after, rows_behind};

use crate::pieces::{cursor_place, ends_left};
use sheet::Cell;
use standings::Standing;
use text_find::{LETTERS, LetterRun, Written};
use xterm_term::Terminal;

/// What a sequence that erases the rest of the cursor's row comes to: spaces over the characters from the cursor up to the
/// end of those in use, so that nothing of the text goes. The letters become these spaces.
#[inline(never)]
pub(crate) fn erased(
    terminal: &Terminal,
    text: &[char],
    still: &Standing,
    bytes: &[u8],
    letters: &mut LetterRun,
) -> Option<Written>
    ensures some { IfSome result (λ written. 0 < written.taken) }
    ensures within { IfSome result (λ written. written.taken ≤ length bytes.now) }
    ensures foretold { (x : Term) → Shows terminal.now x
        → still.now.rows.items ≡ rows_behind x [] 0
        → still.now.places.items ≡ standing text.now (rows_behind x [] 0)
        → IfSome result (λ written. IsForetold text.now (rows_after x) [] bytes.now (Writes written) letters.new.items) }
{
    let taken = terminal.erases_right(bytes);
    if taken == 0 {
        return None;
    }
    if text.is_empty() {
        return None;
    }
    let count = in_use(terminal)?;
    if !ends_left(terminal, text.len(), still) {
        return None;
    }
    put_spaces(letters, count);
    let (above, before) = cursor_place(terminal, still);
    Some(Written {
        above,
        before,
        taken,
    })
}

/// How many cells of the cursor's row are in use from the cursor on, where they are plain, not too many, and the row's last
/// two cells aren't among them.
fn in_use(terminal: &Terminal) -> Option<usize>
    ensures few { IfSome result (λ count. count ≤ LETTERS) }
    ensures erasable { (x : Term) → Shows terminal.now x
        → IfSome result (λ count. IsErasableAt x.console.picture count) }
{
    let screen = terminal.screen();
    let (line, column) = screen.cursor();
    let cells = screen.row(line);
    let from = column as usize - 1;
    let end = from.max(screen.used(line));
    if end + 2 > cells.len() || end - from > LETTERS {
        return None;
    }
    if !are_plain(&cells[from..end]) {
        return None;
    }
    Some(end - from)
}

/// Whether each cell is one of one column without marks.
fn are_plain(cells: &[Cell]) -> bool
    ensures { result ≡ true → (k : ℕ) → k < length cells.now → IsPlain (cell_behind cells.now k) }
{
    for cell in cells {
        if !cell.is_plain() {
            return false;
        }
    }
    true
}

/// The letters become so many spaces.
fn put_spaces(letters: &mut LetterRun, count: usize)
    requires { count ≤ LETTERS }
    ensures { letters.new.items ≡ replicate count 32 }
{
    letters.clear();
    for _ in 0..count {
        letters.push(' ');
    }
}
