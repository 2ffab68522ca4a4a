//! The letters of a row.

ghost use Rattle.std.specs.Prelude.{◌≡◌, ◌≤◌, ◌<◌, ◌-◌, ◌∷◌, decimal, length};
ghost use Rattle.std.specs.List.{flat_map, range_with_len};
ghost use Rattle.tape_core.specs.Devices.{Gave};
ghost use Rattle.xterm_rows.specs.Groups.{group_end, starts};
ghost use Rattle.xterm_rows.specs.Runs.{begins};
ghost use Rattle.xterm_picture.specs.Texts.{letter_text};
ghost use Rattle.xterm_picture.specs.Letters.{
  begins_span,
  cells_between,
  is_alone,
  letters_text,
  piece_text,
  place_text,
  places_text,
  run_letters,
  run_texts,
  span_text,
  spans_text,
};

use crate::attributes::put_letter_attributes;
use crate::texts::{put_letters_of, put_number};
use sheet::Cell;
use sheet::limits::MOST_COLUMNS;
use std::io::Write;
use tape_core::Watched;
use tape_core::laws::gives_join;
use xterm_rows::{Run, cell_behind, owner, run_at};

/// Writes the letters of cells as one text; nothing where there is none.
#[tactic(auto, unfolding(crate::specs::Letters::letters_text))]
pub(crate) fn put_letters<W: Write>(cells: &[Cell], reversed: bool, writer: &mut Watched<W>)
    requires { length cells.now ≤ MOST_COLUMNS }
    ensures { Gave W.contents writer.old writer.new (letters_text reversed cells.now) }
{
    gives_join::<W>();
    if !cells.is_empty() {
        put_text(cells, reversed, writer);
    }
}

/// Writes the letters of cells as one text.
fn put_text<W: Write>(cells: &[Cell], reversed: bool, writer: &mut Watched<W>)
    requires { length cells.now ≤ MOST_COLUMNS }
    ensures { Gave W.contents writer.old writer.new (run_texts reversed cells.now) }
{
    gives_join::<W>();
    writer.give(b"<text y=\"15\">");
    put_runs(cells, reversed, writer);
    writer.give(b"</text>");
}

/// Writes the letters of all runs.
fn put_runs<W: Write>(cells: &[Cell], reversed: bool, writer: &mut Watched<W>)
    requires { length cells.now ≤ MOST_COLUMNS }
    ensures { Gave W.contents writer.old writer.new
        (flat_map (run_letters reversed cells.now) (starts (begins cells.now) 0 (length cells.now))) }
{
    gives_join::<W>();
    let mut at = 0;
    while at < cells.len() {
        let run = run_at(cells, at);
        put_spans(cells, run, reversed, writer);
        at = run.end;
    }
}

/// Writes the letters of a run, unless they are concealed.
#[tactic(auto, unfolding(crate::specs::Letters::spans_text))]
fn put_spans<W: Write>(cells: &[Cell], run: Run, reversed: bool, writer: &mut Watched<W>)
    requires low { run.before ≤ run.end }
    requires within { run.end ≤ length cells.now }
    requires few { length cells.now ≤ MOST_COLUMNS }
    ensures { Gave W.contents writer.old writer.new (spans_text reversed cells.now run) }
{
    gives_join::<W>();
    if !run.kind.rendition.concealed {
        put_pieces(cells, run, reversed, writer);
    }
}

/// Writes the pieces of a run.
fn put_pieces<W: Write>(cells: &[Cell], run: Run, reversed: bool, writer: &mut Watched<W>)
    requires low { run.before ≤ run.end }
    requires within { run.end ≤ length cells.now }
    requires few { length cells.now ≤ MOST_COLUMNS }
    ensures { Gave W.contents writer.old writer.new (flat_map (span_text reversed cells.now run)
        (starts (begins_span cells.now run.before) run.before run.end)) }
{
    gives_join::<W>();
    let mut at = run.before;
    while at < run.end {
        let end = span_end(cells, run, at);
        put_piece(cells, run, at, end, reversed, writer);
        at = end;
    }
}

/// Where the piece of a run ends that begins at a place.
fn span_end(cells: &[Cell], run: Run, at: usize) -> usize
    requires within { at < run.end }
    requires few { run.end ≤ MOST_COLUMNS }
    ensures end { result ≡ group_end (begins_span cells.now run.before) at run.end }
    ensures some { at < result }
    ensures within { result ≤ run.end }
{
    let mut end = at + 1;
    while end < run.end && !begins_span(cells, run.before, end) {
        end += 1;
    }
    end
}

/// Whether a piece of the run that begins at `from` begins at a place.
#[tactic(auto, unfolding(crate::specs::Letters::begins_span))]
fn begins_span(cells: &[Cell], from: usize, at: usize) -> bool
    ensures { result ≡ begins_span cells.now from at }
{
    let cell = cell_behind(cells, at);
    let last = owner(cells, at.saturating_sub(1));
    at == from || (!cell.is_covered() && (is_alone(last) || is_alone(cell)))
}

/// Whether a character has a `<tspan>` of its own, since lists of places aren't read alike there: Firefox counts UTF-16
/// units in them, rsvg takes the first place alone, and breaks lines at some characters.
#[tactic(auto, unfolding(crate::specs::Letters::is_alone))]
fn is_alone(cell: Cell) -> bool
    ensures { result ≡ is_alone cell }
{
    let code = cell.character() as u32;
    cell.is_wide()
        || cell.mark_count() > 0
        || code > 0xffff
        || code == 0xad
        || code == 0x2028
        || code == 0x2029
}

/// Writes the characters of a run from one place to before another.
fn put_piece<W: Write>(
    cells: &[Cell],
    run: Run,
    from: usize,
    end: usize,
    reversed: bool,
    writer: &mut Watched<W>,
)
    requires some { from < end }
    requires within { end ≤ length cells.now }
    requires few { length cells.now ≤ MOST_COLUMNS }
    ensures { Gave W.contents writer.old writer.new (piece_text reversed cells.now run from end) }
{
    gives_join::<W>();
    writer.give(b"<tspan");
    put_letter_attributes(run.kind, reversed, writer);
    writer.give(b" x=\"");
    put_places(cells, from, end, writer);
    writer.give(b"\">");
    put_between(cells, from, end, writer);
    writer.give(b"</tspan>");
}

/// Writes the characters from one place to before another.
fn put_between<W: Write>(cells: &[Cell], from: usize, end: usize, writer: &mut Watched<W>)
    requires low { from ≤ end }
    requires within { end ≤ length cells.now }
    ensures { Gave W.contents writer.old writer.new
        (flat_map letter_text (cells_between cells.now from end)) }
{
    put_letters_of(&cells[from..end], writer);
}

/// Writes where characters stand.
#[tactic(auto, unfolding(crate::specs::Letters::places_text))]
fn put_places<W: Write>(cells: &[Cell], from: usize, end: usize, writer: &mut Watched<W>)
    requires some { from < end }
    requires few { end ≤ MOST_COLUMNS }
    ensures { Gave W.contents writer.old writer.new (places_text cells.now from end) }
{
    gives_join::<W>();
    put_number(10 * from, writer);
    put_further(cells, from + 1, end, writer);
}

/// Writes where characters stand behind the first one.
fn put_further<W: Write>(cells: &[Cell], from: usize, end: usize, writer: &mut Watched<W>)
    requires low { from ≤ end }
    requires few { end ≤ MOST_COLUMNS }
    ensures { Gave W.contents writer.old writer.new
        (flat_map (place_text cells.now) (range_with_len from (end - from))) }
{
    gives_join::<W>();
    for at in from..end {
        put_place(cells, at, writer);
    }
}

/// Writes where a character stands that isn't the first; of a right half nothing.
#[tactic(auto, unfolding(crate::specs::Letters::place_text))]
fn put_place<W: Write>(cells: &[Cell], at: usize, writer: &mut Watched<W>)
    requires { at ≤ MOST_COLUMNS }
    ensures { Gave W.contents writer.old writer.new (place_text cells.now at) }
{
    gives_join::<W>();
    if !cell_behind(cells, at).is_covered() {
        put_next(10 * at, writer);
    }
}

/// Writes a place behind others.
fn put_next<W: Write>(place: usize, writer: &mut Watched<W>)
    ensures { Gave W.contents writer.old writer.new (32 ∷ decimal place) }
{
    gives_join::<W>();
    writer.give(b" ");
    put_number(place, writer);
}
