//! How much of a chunk is played before a text is looked for again.

ghost use Rattle.std.specs.Prelude.{◌≡◌, ◌+◌, ◌-◌, ◌<◌, ◌≤◌, [], List, ℕ, IfSome, length, take, true};
ghost use Rattle.std.specs.List.{flat_map};
ghost use Rattle.sheet.specs.Cells.{Cell};
ghost use Rattle.standings.specs.Kept.{EndBy};
ghost use Rattle.standings.specs.Moved.{moved_up};
ghost use Rattle.standings.specs.Rows.{row_below};
ghost use Rattle.standings.specs.Standing.{standing};
ghost use Rattle.text_find.specs.Foretold.{IsForetold, IsWithin};
ghost use Rattle.xterm_rows.specs.RowText.{characters};
ghost use Rattle.xterm_screen.specs.Picture.{Sound};
ghost use Rattle.xterm_term.specs.Ahead.{WritesStyled};
ghost use Rattle.xterm_term.specs.Seen.{Shows};
ghost use Rattle.xterm_term.specs.Term.{Term};
ghost use Rattle.text_find.specs.declared.foretold.Foretold.TheVariants.{Types, Writes};
ghost use Rattle.xterm_print.specs.FindRows.{row_read};
ghost use Rattle.xterm_print.specs.Pieces.{EndsLeft, IsQuiet, NoneBetween, left_of_cursor, rows_after, rows_behind};

use crate::erased::erased;
use crate::runs::run_over;
use crate::within::moved_within;
use sheet::Cell;
use sheet::limits::MOST_COLUMNS;
use standings::{Row, Standing, ends_before};
use text_find::{Foretold, LetterRun, Written};
use xterm_term::{CharacterSet, Terminal, letter_at};

/// The byte that opens a sequence.
const ESC: u8 = 27;

/// How many of the bytes to play at once: where a text stands nowhere before them and behind them, it stands nowhere in
/// between.
#[inline(always)]
pub(crate) fn piece(terminal: &Terminal, bytes: &[u8]) -> usize
    requires { 0 < length bytes.now }
    ensures some { 0 < result }
    ensures within { result ≤ length bytes.now }
    ensures between { (text : List ℕ) (x : Term) → Shows terminal.now x
        → NoneBetween text x bytes.now result }
{
    if is_control(bytes[0]) {
        return 1;
    }
    let unshown = terminal.unshown(bytes);
    if unshown > 0 {
        return bytes.len().min(unshown + 1);
    }
    1
}

/// How many of the bytes to play at once on a terminal where a text stands: nothing of it goes at them but maybe at the last
/// one, up to which the rows are the same then. Of letters more is foretold.
#[inline(always)]
pub(crate) fn quiet_piece(terminal: &Terminal, bytes: &[u8]) -> usize
    requires { 0 < length bytes.now }
    ensures some { 0 < result }
    ensures within { result ≤ length bytes.now }
    ensures quiet { (text : List ℕ) (x : Term) → Shows terminal.now x → IsQuiet text x bytes.now result }
{
    if is_control(bytes[0]) {
        return 1;
    }
    let unshown = terminal.unshown(bytes);
    if unshown > 0 {
        return (unshown + 1).min(bytes.len());
    }
    1
}

/// Whether the first of the bytes may bring a character of one column: no control does, nor one of several bytes (C1).
#[inline]
fn may_be_letter(bytes: &[u8]) -> bool
    ensures { result ≡ true → 0 < length bytes.now }
{
    match bytes {
        [0xC2, second, ..] => *second >= 0xA0,
        [first, ..] => matches!(*first, 32..=126 | 0xC3..),
        _ => false,
    }
}

/// A control that opens no sequence: it is played by itself, whatever it does.
#[inline]
fn is_control(byte: u8) -> bool {
    byte < 32 && byte != ESC || byte == 127
}

/// Whether the first of the bytes moves all rows up by one: how many spaces the row has that comes in below.
pub(crate) fn moved_up(terminal: &Terminal, bytes: &[u8]) -> Option<usize>
    ensures some { IfSome result (λ _. 0 < length bytes.now) }
    ensures few { IfSome result (λ columns. columns < u16.MAX) }
    ensures rows { (x : Term) → Shows terminal.now x
        → IfSome result (λ _. 0 < length (rows_behind x bytes.now 0)) }
    ensures moves { (x : Term) → Shows terminal.now x
        → IfSome result (λ columns. rows_behind x bytes.now 1 ≡ moved_up columns (rows_behind x bytes.now 0)) }
{
    if bytes.is_empty() || !terminal.moves_up(bytes[0]) {
        return None;
    }
    let screen = terminal.screen();
    let _cursor = screen.cursor();
    Some(screen.columns() as usize)
}

/// What letters that come first write over plain cells of the cursor's row: as many as may be, where nothing of the text goes
/// at them, and else the first one. The letters become these.
#[inline(never)]
fn lettered(
    terminal: &Terminal,
    text: &[char],
    still: &Standing,
    bytes: &[u8],
    letters: &mut LetterRun,
) -> Option<Foretold>
    requires { 0 < length bytes.now }
    ensures within { IfSome result (λ foretold. IsWithin foretold (length bytes.now)) }
    ensures foretold { (x : Term) → Shows terminal.now x
        → still.now.rows.items ≡ rows_behind x [] 0
        → still.now.places.items ≡ standing text.now (rows_behind x [] 0)
        → IfSome result (λ foretold. IsForetold text.now (rows_after x) [] bytes.now foretold letters.new.items) }
{
    let set = set_written(terminal, bytes)?;
    if is_quiet(terminal, text, still) {
        let run = written(terminal, set, text, still, bytes, letters)?;
        return Some(Foretold::Writes(run));
    }
    Some(Foretold::Types(typed(terminal, set, text, still, bytes, letters)?))
}

/// Where the first of the bytes write letters, so that nothing of the text goes at them.
fn written(
    terminal: &Terminal,
    set: CharacterSet,
    text: &[char],
    still: &Standing,
    bytes: &[u8],
    letters: &mut LetterRun,
) -> Option<Written>
    requires set { (x : Term) → Shows terminal.now x → WritesStyled set x }
    requires some { 0 < length text.now }
    requires ends { (x : Term) → Shows terminal.now x
        → still.now.rows.items ≡ rows_behind x [] 0
        → still.now.places.items ≡ standing text.now (rows_behind x [] 0)
        → EndsLeft text.now x }
    ensures some { IfSome result (λ written. 0 < written.taken) }
    ensures within { IfSome result (λ written. written.taken ≤ length bytes.now) }
    ensures written { (x : Term) → Shows terminal.now x
        → still.now.rows.items ≡ rows_behind x [] 0
        → still.now.places.items ≡ standing text.now (rows_behind x [] 0)
        → IfSome result (λ written. IsForetold text.now (rows_after x) [] bytes.now (Writes written) letters.new.items) }
{
    let taken = run_over(terminal, set, text, bytes, letters);
    if taken == 0 {
        return None;
    }
    Some(written_at(terminal, still, taken))
}

/// Where the first of the bytes writes a letter.
fn typed(
    terminal: &Terminal,
    set: CharacterSet,
    text: &[char],
    still: &Standing,
    bytes: &[u8],
    letters: &mut LetterRun,
) -> Option<Written>
    requires set { (x : Term) → Shows terminal.now x → WritesStyled set x }
    requires some { 0 < length bytes.now }
    ensures { (x : Term) → Shows terminal.now x
        → still.now.rows.items ≡ rows_behind x [] 0
        → IfSome result (λ written. IsForetold text.now (rows_after x) [] bytes.now (Types written) letters.new.items) }
{
    let taken = run_over(terminal, set, text, &bytes[..1], letters);
    if taken == 0 {
        return None;
    }
    Some(written_at(terminal, still, taken))
}

/// So many bytes that write from the cursor on, on a terminal that shows these rows.
fn written_at(terminal: &Terminal, still: &Standing, taken: usize) -> Written
    ensures taken { result.taken ≡ taken }
    ensures above { (x : Term) → Shows terminal.now x → result.above ≡ x.console.picture.line - 1 }
    ensures before { (x : Term) → Shows terminal.now x
        → still.now.rows.items ≡ rows_behind x [] 0
        → result.before ≡ length (left_of_cursor x) }
    ensures sound { (x : Term) → Shows terminal.now x → Sound x.console.picture }
{
    let (above, before) = cursor_place(terminal, still);
    Written {
        above,
        before,
        taken,
    }
}

/// What the first of the bytes surely do to the rows of a terminal that shows these rows, on which the text stands there;
/// where they write, nothing of the text goes at them but where they are one byte, and the letters become what they write.
/// The first byte, and of a sequence its first ones, say which question is worth to be asked: of most bytes none is.
#[inline(always)]
pub(crate) fn foretold(
    terminal: &Terminal,
    text: &[char],
    still: &Standing,
    bytes: &[u8],
    letters: &mut LetterRun,
) -> Option<Foretold>
    ensures within { IfSome result (λ foretold. IsWithin foretold (length bytes.now)) }
    ensures foretold { (x : Term) → Shows terminal.now x
        → still.now.rows.items ≡ rows_behind x [] 0
        → still.now.places.items ≡ standing text.now (rows_behind x [] 0)
        → IfSome result (λ foretold. IsForetold text.now (rows_after x) [] bytes.now foretold letters.new.items) }
{
    match bytes {
        [ESC, b'[', b'0' | b'K', ..] => {
            Some(Foretold::Writes(erased(terminal, text, still, bytes, letters)?))
        }
        [ESC, b'M', ..] | [ESC, b'[', b'L' | b'M', ..] | [10..=12, ..] => moved(terminal, bytes),
        [ESC, ..] => None,
        _ if may_be_letter(bytes) => lettered(terminal, text, still, bytes, letters),
        _ => None,
    }
}

/// How rows move at the first of the bytes, if they do.
#[inline(never)]
fn moved(terminal: &Terminal, bytes: &[u8]) -> Option<Foretold>
    ensures within { IfSome result (λ foretold. IsWithin foretold (length bytes.now)) }
    ensures foretold { (text letters : List ℕ) (x : Term) → Shows terminal.now x
        → IfSome result (λ foretold. IsForetold text (rows_after x) [] bytes.now foretold letters) }
{
    // Where none move between the margins all don't either.
    let _moved = terminal.moves_within(bytes)?;
    if let Some(columns) = moved_up(terminal, bytes) {
        return Some(Foretold::MovesUp(columns));
    }
    Some(Foretold::MovesWithin(moved_within(terminal, bytes)?))
}

/// Whether nothing of the text goes where letters are put from the cursor on, so long as none of its neighbours come to stand
/// at a border of theirs.
fn is_quiet(terminal: &Terminal, text: &[char], still: &Standing) -> bool
    ensures some { result ≡ true → 0 < length text.now }
    ensures ends { result ≡ true → (x : Term) → Shows terminal.now x
        → still.now.rows.items ≡ rows_behind x [] 0
        → still.now.places.items ≡ standing text.now (rows_behind x [] 0)
        → EndsLeft text.now x }
{
    if text.is_empty() {
        return false;
    }
    ends_left(terminal, text.len(), still)
}

/// The set in use, where the first of the bytes may be a character that is put: those of several bytes are looked at, since
/// not all of them are whole and take one column.
#[inline]
fn set_written(terminal: &Terminal, bytes: &[u8]) -> Option<CharacterSet>
    requires { 0 < length bytes.now }
    ensures { IfSome result (λ set. (x : Term) → Shows terminal.now x → WritesStyled set x) }
{
    let set = terminal.writes_in()?;
    if bytes[0] >= 0x80 {
        let _first = letter_at(set, bytes)?;
    }
    Some(set)
}

/// Whether a text of so many characters ends left of the cursor, or in a row above, wherever it stands but in the rows
/// below.
pub(crate) fn ends_left(terminal: &Terminal, len: usize, still: &Standing) -> bool
    ensures { result ≡ true → (text : List ℕ) (x : Term) → length text ≡ len → Shows terminal.now x
        → still.now.rows.items ≡ rows_behind x [] 0
        → still.now.places.items ≡ standing text (rows_behind x [] 0)
        → EndBy len still.now.rows.items still.now.places.items
        (x.console.picture.line - 1) (length (left_of_cursor x)) }
{
    if still.places.is_empty() {
        return true;
    }
    let (above, before) = cursor_place(terminal, still);
    ends_before(still, len, above, before)
}

/// How many rows are above the cursor's, and how many characters left of it, on a terminal that shows these rows.
pub(crate) fn cursor_place(terminal: &Terminal, still: &Standing) -> (usize, usize)
    ensures above { (x : Term) → Shows terminal.now x → result.0 ≡ x.console.picture.line - 1 }
    ensures before { (x : Term) → Shows terminal.now x
        → still.now.rows.items ≡ rows_behind x [] 0
        → result.1 ≡ length (left_of_cursor x) }
    ensures sound { (x : Term) → Shows terminal.now x → Sound x.console.picture }
{
    let screen = terminal.screen();
    let (line, column) = screen.cursor();
    let cells = screen.row(line);
    let above = line as usize - 1;
    let before = count_before(&still.rows, above, cells, column as usize - 1);
    (above, before)
}

/// How many characters so many first cells have, in the row below so many others, which is that of the cells. Mostly they
/// have one each: then the next cell's character is where its column says, and none is counted.
fn count_before(rows: &[Row], above: usize, cells: &[Cell], before: usize) -> usize
    requires few { length cells.now ≤ MOST_COLUMNS }
    requires within { before < length cells.now }
    ensures { (next : List Cell) → row_below rows.now above ≡ row_read cells.now next
        → result ≡ length (flat_map characters (take before cells.now)) }
{
    if above < rows.len()
        && before + 1 < cells.len()
        && cells[before].is_plain()
        && rows[above].column(before) as usize == before + 1
    {
        return before;
    }
    character_count(&cells[..before])
}

/// How many characters cells have, with their marks.
fn character_count(cells: &[Cell]) -> usize
    requires { length cells.now ≤ MOST_COLUMNS }
    ensures { result ≡ length (flat_map characters cells.now) }
{
    let mut count = 0;
    for cell in cells {
        count += own_count(*cell);
    }
    count
}

/// How many a cell has.
#[tactic(auto, unfolding(xterm_rows::specs::RowText::characters))]
fn own_count(cell: Cell) -> usize
    ensures value { result ≡ length (characters cell) }
    ensures few { result ≤ 3 }
{
    if cell.is_covered() {
        0
    } else {
        1 + cell.mark_count() as usize
    }
}
