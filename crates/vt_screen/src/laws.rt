//! Laws of the definitions that contracts cite, for the proofs of the crates above. Nothing runs.

ghost use Rattle.std.specs.Prelude.{◌≡◌, ℕ, ◌+◌, ◌-◌, ◌<◌, ◌≤◌, true, false, List, length, min};
ghost use Rattle.vt_screen.specs.Cells.{blank, blank_row, cell_at, row_at, rows_by};
ghost use Rattle.vt_screen.specs.declared.cell.Row.{Row};
ghost use Rattle.vt_screen.specs.declared.cell.Size.TheVariants.{Single};
ghost use Rattle.vt_screen.specs.Drawn.{rows_to, drawn_to};
ghost use Rattle.vt_screen.specs.Lines.{size_set, columns_set};
ghost use Rattle.vt_screen.specs.Moves.{placed};
ghost use Rattle.vt_screen.specs.Picture.{Picture, Sound, reset, margin_of, right_margin};
ghost use Rattle.vt_screen.specs.Puts.{shown};

use crate::limits::{LAST_GLYPH, LINES, WIDE_COLUMNS};
use crate::screen::Screen;

/// Every screen is sound: the cursor within the right margin of its line, blank cells right of it,
/// glyphs at most 126, the top margin above the bottom one.
pub fn screens_are_sound(screen: &Screen)
    ensures { Sound screen.now.picture }
{
    let _ = screen.cursor();
}

/// A right margin is from 40 to 132.
#[tactic(auto, using(crate::proofs::SoundRows::right_margin_low, crate::proofs::SoundRows::right_margin_high))]
pub fn right_margins()
    ensures low { (p : Picture) (line : ℕ) → 40 ≤ right_margin p line }
    ensures high { (p : Picture) (line : ℕ) → right_margin p line ≤ WIDE_COLUMNS }
{}

/// A picture is drawn on a blank screen line by line.
pub fn pictures_are_drawn_by_line()
    ensures wide { columns_set true false reset ≡ record reset { wide = true } }
    ensures start { (rows : List Row) → rows_by (λ _. blank_row) ≡ rows_to 0 rows }
    ensures blank { (line : ℕ) (rows : List Row) → 1 ≤ line → row_at rows line ≡ blank_row
        → rows_to (line - 1) rows ≡ rows_to line rows }
    ensures line { (line column : ℕ) (rows : List Row) → 1 ≤ line
        → length (row_at rows line).cells ≡ WIDE_COLUMNS
        → ((k : ℕ) → column < k → k ≤ WIDE_COLUMNS → cell_at (row_at rows line) k ≡ blank)
        → drawn_to line column rows ≡ rows_to line rows }
    ensures all { (rows : List Row) → length rows ≡ LINES → rows_to LINES rows ≡ rows }
    ensures cursor { (line column : ℕ) (p : Picture) → line ≤ LINES → column ≤ right_margin p line →
        placed line column false p ≡ record p { line = line; column = column; wrap = false } }
{}

/// A line is drawn cell by cell: from its left, in its size, and without autowrap up to its right margin.
pub fn lines_are_drawn_by_cell()
    ensures left { (line : ℕ) (p : Picture) → line ≤ LINES
        → placed line 1 false p ≡ record p { line = line; column = 1; wrap = false } }
    ensures single { (line : ℕ) (rows : List Row) → 1 ≤ line → line ≤ LINES
        → (row_at rows line).size ≡ Single → rows_to (line - 1) rows ≡ drawn_to line 0 rows }
    ensures size { (p : Picture) (rows : List Row) → 1 ≤ p.line → p.line ≤ LINES → p.column ≡ 1
        → p.rows ≡ rows_to (p.line - 1) rows
        → size_set (row_at rows p.line).size p
        ≡ record p { rows = drawn_to p.line 0 rows; wrap = false } }
    ensures cell { (p : Picture) (rows : List Row) → 1 ≤ p.line → p.line ≤ LINES → 1 ≤ p.column
        → p.column ≤ margin_of p.wide (row_at rows p.line).size → p.wrap ≡ false
        → p.rows ≡ drawn_to p.line (p.column - 1) rows
        → shown (cell_at (row_at rows p.line) p.column).glyph
        (cell_at (row_at rows p.line) p.column).rendition false p
        ≡ record p {
          rows = drawn_to p.line p.column rows;
          column = min (p.column + 1) (margin_of p.wide (row_at rows p.line).size);
        } }
{}
