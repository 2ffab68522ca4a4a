//! The screen and its operations. Lines and columns are counted from 1.

ghost use Rattle.std.specs.Prelude.{◌≡◌, ℕ, ◌+◌, ◌-◌, ◌<◌, ◌≤◌, ◌&&◌, nat_le, nat_lt, min, All, List, length, slice_set, take, true, false};
ghost use Rattle.vt_screen.specs.CellEdits.{cells_deleted, room_made, shown_inserting};
ghost use Rattle.vt_screen.specs.Cells.{blank_row, row_at, cell_at};
ghost use Rattle.vt_screen.specs.declared.cell.Row.{Row};
ghost use Rattle.vt_screen.specs.Erasures.{display_erased, erased_whole, in_other_lines, line_erased};
ghost use Rattle.vt_screen.specs.Lines.{size_set, columns_set, aligned, are_margins, margins_set};
ghost use Rattle.vt_screen.specs.Moves.{stepped_up, stepped_down, stepped_right, stepped_left, moved_to_left, placed, moved_home, wrap_cleared, put_back, on_line};
ghost use Rattle.vt_screen.specs.Picture.{Sound, SoundRow, with_rows, first_tabs, reset, cell, columns, right_margin};
ghost use Rattle.vt_screen.specs.Slots.{OncePerSlot, first_order, slot_at, row_in, turned_up, turned_down, order_indexed, slots_indexed, order_reverse_indexed, slots_reverse_indexed, order_lines_deleted, slots_lines_deleted, order_lines_inserted, slots_lines_inserted, order_wrap_taken, order_run_shown};
ghost use Rattle.vt_screen.specs.Puts.{put, shown, run_shown, wrap_taken};
ghost use Rattle.vt_screen.specs.Scrolls.{indexed, reverse_indexed, lines_deleted, lines_inserted, scrolled_up, scrolled_down};
ghost use Rattle.vt_screen.specs.Tabs.{stop_at, stop_after, tabbed, tab_made, tabs_cleared};
ghost use Rattle.vt_screen.specs.Touched.{KeepsTold, Told, all_touched, is_touched};

mod packed;

use crate::cell::{Cell, Row, Size, columns_of, margin_of};
use crate::grid::Grid;
use crate::limits::{LAST_GLYPH, LINES, WIDE_COLUMNS};
use crate::rendition::Rendition;
use crate::touched::{touch_line, touch_lines, was_touched};
pub use packed::PackedScreen;
use std::marker::Model;

/// 24 lines of 80 or 132 columns with a cursor, a pending wrap, margins, tab stops and a size for each
/// line, and the lines touched since that was last cleared. Contracts see a `ScreenState`: the picture, told by line and
/// column, where its rows lie, and which lines were touched.
#[derive(Debug, Drop)]
pub struct Screen {
    grid: Grid,
    tabs: [bool; WIDE_COLUMNS as usize],
    wide: bool,
    line: u8,
    column: u8,
    wrap: bool,
    top: u8,
    bottom: u8,
    touched: [bool; LINES as usize],
}

const _: () = prove!(size_of::<Screen>() < 7000);

impl Model for Screen {
    ghost use Rattle.vt_screen.specs.Slots.{ScreenState};
    ghost use Rattle.vt_screen.specs.Picture.{Sound};

    ghost Value = { ScreenState };

    ghost use Rattle.vt_screen.specs.View.{picture_of, state_of};

    ghost view = { state_of };

    ghost invariant = { λ s. Sound (picture_of s) };
}

impl Screen {
    /// The initial screen: 80 columns, all blank and single width, tab stops at 9, 17 and so on to 129. All lines are
    /// touched.
    pub fn reset() -> Self
        ensures picture { result.picture ≡ reset }
        ensures order { result.order ≡ first_order }
        ensures touched { result.touched ≡ all_touched }
        ensures told { (before : List Row) → Told before result }
    {
        Screen {
            grid: Grid::new(),
            tabs: first_tabs(),
            wide: false,
            line: 1,
            column: 1,
            wrap: false,
            top: 1,
            bottom: LINES,
            touched: [true; LINES as usize],
        }
    }

    /// Becomes the other screen.
    pub fn copy_from(&mut self, other: &Screen)
        ensures { self.new ≡ other.now }
    {
        self.grid.copy_from(&other.grid);
        self.tabs = other.tabs;
        self.wide = other.wide;
        self.line = other.line;
        self.column = other.column;
        self.wrap = other.wrap;
        self.top = other.top;
        self.bottom = other.bottom;
        self.touched = other.touched;
    }

    /// 80 or 132.
    pub fn columns(&self) -> u8
        ensures { result ≡ columns self.now.picture.wide }
    {
        columns_of(self.wide)
    }

    /// Whether it has 132 columns.
    pub fn is_wide(&self) -> bool
        ensures { result ≡ self.now.picture.wide }
    {
        self.wide
    }

    /// The cell at a line and a column, also right of the right margin, where it is blank.
    pub fn cell(&self, row: u8, col: u8) -> Cell
        requires row_low { 1 ≤ row }
        requires row_high { row ≤ LINES }
        requires col_low { 1 ≤ col }
        requires col_high { col ≤ WIDE_COLUMNS }
        ensures value { result ≡ cell self.now.picture row col }
        ensures slot { result ≡ cell_at (row_in self.now.slots (slot_at self.now.order row)) col }
        ensures glyph { result.glyph ≤ LAST_GLYPH }
    {
        self.grid.row(row).cells[col as usize - 1]
    }

    /// A line's size and its 132 cells.
    pub fn row(&self, row: u8) -> &Row
        requires low { 1 ≤ row }
        requires high { row ≤ LINES }
        ensures value { result.now ≡ row_at self.now.picture.rows row }
        ensures sound { SoundRow self.now.picture.wide result.now }
    {
        self.grid.row(row)
    }

    pub fn size(&self, row: u8) -> Size
        requires low { 1 ≤ row }
        requires high { row ≤ LINES }
        ensures { result ≡ (row_at self.now.picture.rows row).size }
    {
        self.grid.row(row).size
    }

    /// The last column of a line: the number of columns, or half of it on a double size.
    pub fn right_margin(&self, row: u8) -> u8
        requires low { 1 ≤ row }
        requires high { row ≤ LINES }
        ensures value { result ≡ right_margin self.now.picture row }
        ensures high { result ≤ WIDE_COLUMNS }
        ensures low { 40 ≤ result }
    {
        margin_of(self.wide, self.grid.row(row).size)
    }

    /// The cursor's line and column.
    pub fn cursor(&self) -> (u8, u8)
        ensures line { result.0 ≡ self.now.picture.line }
        ensures column { result.1 ≡ self.now.picture.column }
        ensures sound { Sound self.now.picture }
    {
        (self.line, self.column)
    }

    /// Whether the next character wraps first.
    pub fn wrap(&self) -> bool
        ensures { result ≡ self.now.picture.wrap }
    {
        self.wrap
    }

    /// The top and the bottom margin.
    pub fn margins(&self) -> (u8, u8)
        ensures top { result.0 ≡ self.now.picture.top }
        ensures bottom { result.1 ≡ self.now.picture.bottom }
        ensures sound { Sound self.now.picture }
    {
        (self.top, self.bottom)
    }

    /// Whether a tab stops at a column.
    pub fn tab(&self, col: u8) -> bool
        requires low { 1 ≤ col }
        requires high { col ≤ WIDE_COLUMNS }
        ensures { result ≡ stop_at self.now.picture.tabs col }
    {
        self.tabs[col as usize - 1]
    }

    /// Whether a line was touched since that was last cleared.
    pub fn is_touched(&self, row: u8) -> bool
        requires low { 1 ≤ row }
        requires high { row ≤ LINES }
        ensures { result ≡ is_touched self.now.touched row }
    {
        was_touched(&self.touched, row)
    }

    /// From here on lines are told against the rows of now.
    pub fn clear_touched(&mut self)
        ensures picture { self.new.picture ≡ self.old.picture }
        ensures order { self.new.order ≡ self.old.order }
        ensures slots { self.new.slots ≡ self.old.slots }
        ensures told { Told self.old.picture.rows self.new }
    {
        self.touched = [false; LINES as usize];
    }

    /// The slot in which a line lies, from 0.
    pub fn place_of(&self, row: u8) -> u8
        requires low { 1 ≤ row }
        requires high { row ≤ LINES }
        ensures value { result ≡ slot_at self.now.order row }
        ensures within { result < LINES }
        ensures once { OncePerSlot (record { order = self.now.order; slots = self.now.slots }) }
    {
        self.grid.slot_of(row)
    }

    /// The cell in a slot: `cell(row, col)` is `place_cell(place_of(row), col)`.
    pub fn place_cell(&self, slot: u8, col: u8) -> Cell
        requires slot { slot < LINES }
        requires low { 1 ≤ col }
        requires high { col ≤ WIDE_COLUMNS }
        ensures { result ≡ cell_at (row_in self.now.slots slot) col }
    {
        self.grid.row_in(slot).cells[col as usize - 1]
    }

    /// Shows a glyph at the cursor, after a pending wrap was taken.
    pub fn show(&mut self, glyph: u8, rendition: Rendition, autowrap: bool)
        requires { glyph ≤ LAST_GLYPH }
        ensures picture { self.new.picture ≡ shown glyph rendition autowrap self.old.picture }
        ensures order { self.new.order ≡ order_wrap_taken self.old.picture self.old.order }
        ensures told { KeepsTold self.old self.new }
    {
        self.take_wrap();
        self.put(Cell { glyph, rendition }, autowrap);
    }

    /// Leaves what `show` of each glyph in turn leaves; it writes a line's part at once.
    #[inline(always)]
    pub fn show_run(&mut self, glyphs: &[u8], rendition: Rendition, autowrap: bool)
        requires { All (λ glyph. glyph ≤ LAST_GLYPH) glyphs.now }
        ensures picture { self.new.picture
            ≡ run_shown glyphs.now rendition autowrap self.old.picture }
        ensures order { self.new.order
            ≡ order_run_shown glyphs.now rendition autowrap self.old.picture self.old.order }
        ensures told { KeepsTold self.old self.new }
    {
        let room = (self.margin() - self.column) as usize;
        if !self.wrap && glyphs.len() <= room {
            touch_line(&mut self.touched, self.line);
            self.grid
                .write_run(self.line, self.column, glyphs, rendition);
            self.column += glyphs.len() as u8;
        } else {
            self.show_parts(glyphs, rendition, autowrap);
        }
    }

    /// CUU: `n` lines up, at most to the top margin from it or below, else to line 1.
    pub fn step_up(&mut self, n: u16)
        ensures picture { self.new.picture ≡ stepped_up n self.old.picture }
        ensures told { KeepsTold self.old self.new }
    {
        let stop = if self.top <= self.line { self.top } else { 1 };
        let up = n.min(u16::from(LINES)) as u8;
        self.go_to_line(self.line.saturating_sub(up).max(stop));
    }

    /// CUD: `n` lines down, at most to the bottom margin from it or above, else to line 24.
    pub fn step_down(&mut self, n: u16)
        ensures picture { self.new.picture ≡ stepped_down n self.old.picture }
        ensures told { KeepsTold self.old self.new }
    {
        let stop = if self.line <= self.bottom {
            self.bottom
        } else {
            LINES
        };
        let down = n.min(u16::from(LINES)) as u8;
        self.go_to_line((self.line + down).min(stop));
    }

    /// CUF: `n` columns right, at most to the right margin.
    pub fn step_right(&mut self, n: u16)
        ensures picture { self.new.picture ≡ stepped_right n self.old.picture }
        ensures told { KeepsTold self.old self.new }
    {
        let right = n.min(u16::from(WIDE_COLUMNS));
        let margin = u16::from(self.margin());
        self.column = (u16::from(self.column) + right).min(margin) as u8;
        self.wrap = false;
    }

    /// CUB and BS: `n` columns left, at least column 1.
    pub fn step_left(&mut self, n: u16)
        ensures picture { self.new.picture ≡ stepped_left n self.old.picture }
        ensures told { KeepsTold self.old self.new }
    {
        let left = n.min(u16::from(WIDE_COLUMNS)) as u8;
        self.column = self.column.saturating_sub(left).max(1);
        self.wrap = false;
    }

    /// CR: column 1.
    pub fn to_left(&mut self)
        ensures picture { self.new.picture ≡ moved_to_left self.old.picture }
        ensures order { self.new.order ≡ self.old.order }
        ensures told { KeepsTold self.old self.new }
    {
        self.column = 1;
        self.wrap = false;
    }

    /// CUP: a line and a column from 1. With `origin` lines are counted from the top margin and end at
    /// the bottom margin.
    pub fn place(&mut self, line: u16, col: u16, origin: bool)
        requires line { 1 ≤ line }
        requires col { 1 ≤ col }
        ensures picture { self.new.picture ≡ placed line col origin self.old.picture }
        ensures told { KeepsTold self.old self.new }
    {
        let line = line.min(u16::from(LINES)) as u8;
        let to = if origin {
            (self.top + (line - 1)).min(self.bottom)
        } else {
            line
        };
        self.column = col.min(u16::from(self.right_margin(to))) as u8;
        self.line = to;
        self.wrap = false;
    }

    /// Column 1 of line 1, or of the top margin with `origin`.
    pub fn home(&mut self, origin: bool)
        ensures picture { self.new.picture ≡ moved_home origin self.old.picture }
        ensures told { KeepsTold self.old self.new }
    {
        self.line = if origin { self.top } else { 1 };
        self.column = 1;
        self.wrap = false;
    }

    /// IND: one line down; at the bottom margin the region scrolls up.
    #[inline(never)]
    pub fn index(&mut self)
        ensures picture { self.new.picture ≡ indexed self.old.picture }
        ensures order { self.new.order ≡ order_indexed self.old.picture self.old.order }
        ensures slots { self.new.slots
            ≡ slots_indexed self.old.picture self.old.order self.old.slots }
        ensures told { KeepsTold self.old self.new }
    {
        if self.line == self.bottom {
            self.scroll_up();
            self.wrap = false;
        } else {
            self.go_to_line((self.line + 1).min(LINES));
        }
    }

    /// RI: one line up; at the top margin the region scrolls down.
    pub fn reverse_index(&mut self)
        ensures picture { self.new.picture ≡ reverse_indexed self.old.picture }
        ensures order { self.new.order ≡ order_reverse_indexed self.old.picture self.old.order }
        ensures slots { self.new.slots
            ≡ slots_reverse_indexed self.old.picture self.old.order self.old.slots }
        ensures told { KeepsTold self.old self.new }
    {
        if self.line == self.top {
            self.scroll_down();
            self.wrap = false;
        } else {
            self.go_to_line((self.line - 1).max(1));
        }
    }

    /// IL: `n` lines come in at the cursor's, blank and single; those from it on move down, at most to
    /// the bottom margin, and the cursor goes to column 1. Outside the margins nothing.
    pub fn insert_lines(&mut self, n: u16)
        ensures picture { self.new.picture ≡ lines_inserted n self.old.picture }
        ensures order { self.new.order ≡ order_lines_inserted n self.old.picture self.old.order }
        ensures slots { self.new.slots
            ≡ slots_lines_inserted n self.old.picture self.old.order self.old.slots }
        ensures told { KeepsTold self.old self.new }
    {
        if self.top <= self.line && self.line <= self.bottom {
            let count = self.lines_left(n);
            let last = self.line + count - 1;
            self.grid
                .turn_down(count, self.line, self.bottom, &mut self.touched);
            self.grid
                .fill_lines(self.line, last, Cell::blank(), columns_of(self.wide));
            self.column = 1;
            self.wrap = false;
        }
    }

    /// DL: `n` lines from the cursor's on go away; those below move up, blank and single ones come in
    /// at the bottom margin, and the cursor goes to column 1. Outside the margins nothing.
    #[inline(never)]
    pub fn delete_lines(&mut self, n: u16)
        ensures picture { self.new.picture ≡ lines_deleted n self.old.picture }
        ensures order { self.new.order ≡ order_lines_deleted n self.old.picture self.old.order }
        ensures slots { self.new.slots
            ≡ slots_lines_deleted n self.old.picture self.old.order self.old.slots }
        ensures told { KeepsTold self.old self.new }
    {
        if self.top <= self.line && self.line <= self.bottom {
            let count = self.lines_left(n);
            let first = self.bottom + 1 - count;
            self.grid
                .turn_up(count, self.line, self.bottom, &mut self.touched);
            self.grid
                .fill_lines(first, self.bottom, Cell::blank(), columns_of(self.wide));
            self.column = 1;
            self.wrap = false;
        }
    }

    /// DCH: `n` cells from the cursor on go away, at most to the right margin; those right of them move
    /// left, and blank ones come in at the margin.
    pub fn delete_cells(&mut self, n: u16)
        ensures picture { self.new.picture ≡ cells_deleted n self.old.picture }
        ensures told { KeepsTold self.old self.new }
    {
        let margin = self.margin();
        let count = n.min(u16::from(margin + 1 - self.column)) as u8;
        let mut row = *self.grid.row(self.line);
        row.take_out(count, self.column, margin);
        touch_line(&mut self.touched, self.line);
        self.grid.set_row(self.line, row);
    }

    /// Shows a glyph in insert mode: after a pending wrap was taken, the cells from the cursor on move
    /// one to the right, and the one at the right margin is lost.
    pub fn show_inserting(&mut self, glyph: u8, rendition: Rendition, autowrap: bool)
        requires { glyph ≤ LAST_GLYPH }
        ensures picture { self.new.picture
            ≡ shown_inserting glyph rendition autowrap self.old.picture }
        ensures order { self.new.order ≡ order_wrap_taken self.old.picture self.old.order }
        ensures told { KeepsTold self.old self.new }
    {
        self.take_wrap();
        self.make_room();
        self.put(Cell { glyph, rendition }, autowrap);
    }

    /// HT: to the next tab stop, at most to the right margin.
    pub fn tab_forward(&mut self)
        ensures picture { self.new.picture ≡ tabbed self.old.picture }
        ensures told { KeepsTold self.old self.new }
    {
        let margin = self.margin();
        self.column = next_stop(&self.tabs, self.column, margin);
        self.wrap = false;
    }

    /// HTS: a tab stop at the cursor's column.
    pub fn set_tab(&mut self)
        ensures picture { self.new.picture ≡ tab_made true self.old.picture }
        ensures told { KeepsTold self.old self.new }
    {
        self.tabs[self.column as usize - 1] = true;
    }

    /// TBC: no tab stop at the cursor's column.
    pub fn clear_tab(&mut self)
        ensures picture { self.new.picture ≡ tab_made false self.old.picture }
        ensures told { KeepsTold self.old self.new }
    {
        self.tabs[self.column as usize - 1] = false;
    }

    /// TBC of all: no tab stop at any of the 132 columns.
    pub fn clear_tabs(&mut self)
        ensures picture { self.new.picture ≡ tabs_cleared self.old.picture }
        ensures told { KeepsTold self.old self.new }
    {
        self.tabs = [false; WIDE_COLUMNS as usize];
    }

    /// DECSTBM: these margins and home, where top is at least 1 and above bottom, and bottom at most 24;
    /// else false, and nothing changes.
    pub fn set_margins(&mut self, top: u16, bottom: u16, origin: bool) -> bool
        ensures answer { result ≡ are_margins top bottom }
        ensures picture { self.new.picture ≡ margins_set top bottom origin self.old.picture }
        ensures told { KeepsTold self.old self.new }
    {
        if top < 1 || bottom <= top || u16::from(LINES) < bottom {
            return false;
        }
        self.top = top as u8;
        self.bottom = bottom as u8;
        self.home(origin);
        true
    }

    /// ED: part 0 is from the cursor to the end, 1 from the start to the cursor, 2 all. A line that is
    /// erased completely becomes single width.
    pub fn erase_display(&mut self, part: u8)
        requires { part ≤ 2 }
        ensures picture { self.new.picture ≡ display_erased part self.old.picture }
        ensures told { KeepsTold self.old self.new }
    {
        let whole = self.erases_line(part);
        let was_single = self.size(self.line).is_single();
        let columns = columns_of(self.wide);
        let (first, last) = other_lines(part, self.line);
        touch_lines(&mut self.touched, first, last);
        touch_line(&mut self.touched, self.line);
        self.grid.fill_lines(first, last, Cell::blank(), columns);
        if whole {
            self.grid.fill_line(self.line, Cell::blank(), columns);
            self.wrap = self.wrap && was_single;
        } else {
            self.grid.erase_part(part, self.line, self.column);
        }
    }

    /// EL: part 0 is from the cursor to the line's end, 1 from its start to the cursor, 2 all.
    pub fn erase_line(&mut self, part: u8)
        requires { part ≤ 2 }
        ensures picture { self.new.picture ≡ line_erased part self.old.picture }
        ensures told { KeepsTold self.old self.new }
    {
        touch_line(&mut self.touched, self.line);
        self.grid.erase_part(part, self.line, self.column);
    }

    /// DECSWL, DECDWL, DECDHL: the size of the cursor's line. From single to double the cells right of
    /// the middle become blank.
    pub fn set_size(&mut self, size: Size)
        ensures picture { self.new.picture ≡ size_set size self.old.picture }
        ensures told { KeepsTold self.old self.new }
    {
        let mut row = *self.grid.row(self.line);
        row.resize(size, self.wide);
        touch_line(&mut self.touched, self.line);
        self.grid.set_row(self.line, row);
        self.column = self.column.min(margin_of(self.wide, size));
        self.wrap = false;
    }

    /// DECCOLM: 132 columns, or 80; all blank and single, margins 1 and 24, home. Tabs stay.
    pub fn set_columns(&mut self, wide: bool, origin: bool)
        ensures picture { self.new.picture ≡ columns_set wide origin self.old.picture }
        ensures told { KeepsTold self.old self.new }
    {
        touch_lines(&mut self.touched, 1, LINES);
        self.grid.fill_lines(1, LINES, Cell::blank(), WIDE_COLUMNS);
        self.wide = wide;
        self.top = 1;
        self.bottom = LINES;
        self.line = 1;
        self.column = 1;
        self.wrap = false;
    }

    /// DECALN: every cell to the number of columns is the letter E, all lines single width.
    pub fn align(&mut self)
        ensures picture { self.new.picture ≡ aligned self.old.picture }
        ensures told { KeepsTold self.old self.new }
    {
        let pattern = Cell {
            glyph: b'E',
            rendition: Rendition::plain(),
        };
        touch_lines(&mut self.touched, 1, LINES);
        self.grid
            .fill_lines(1, LINES, pattern, columns_of(self.wide));
        self.wrap = false;
    }

    /// Takes the pending wrap away, for what else clears it.
    pub fn clear_wrap(&mut self)
        ensures picture { self.new.picture ≡ wrap_cleared self.old.picture }
        ensures told { KeepsTold self.old self.new }
    {
        self.wrap = false;
    }

    /// DECRC: the saved line and column, and the saved wrap. With `origin` the line is moved into the
    /// margins; the column is cut to the right margin; the wrap is pending only with `autowrap` and at
    /// the right margin.
    pub fn put_back(&mut self, row: u8, col: u8, wrap: bool, origin: bool, autowrap: bool)
        requires row_low { 1 ≤ row }
        requires row_high { row ≤ LINES }
        requires col { 1 ≤ col }
        ensures picture { self.new.picture
            ≡ put_back row col wrap origin autowrap self.old.picture }
        ensures told { KeepsTold self.old self.new }
    {
        self.line = if origin {
            row.min(self.bottom).max(self.top)
        } else {
            row
        };
        let margin = margin_of(self.wide, self.grid.row(self.line).size);
        self.column = col.min(margin);
        self.wrap = wrap && autowrap && self.column == margin;
    }

    /// The right margin of the cursor's line.
    fn margin(&self) -> u8
        ensures value { result ≡ right_margin self.now.picture self.now.picture.line }
        ensures sound { Sound self.now.picture }
    {
        self.right_margin(self.line)
    }

    /// To a line, with the column cut to its right margin and no wrap pending.
    fn go_to_line(&mut self, line: u8)
        requires low { 1 ≤ line }
        requires high { line ≤ LINES }
        ensures picture { self.new.picture ≡ on_line line self.old.picture }
        ensures order { self.new.order ≡ self.old.order }
        ensures slots { self.new.slots ≡ self.old.slots }
        ensures told { KeepsTold self.old self.new }
    {
        self.column = self.column.min(self.right_margin(line));
        self.line = line;
        self.wrap = false;
    }

    /// Scrolls the region up by one, with the cursor at the bottom margin.
    fn scroll_up(&mut self)
        requires { self.old.picture.line ≡ self.old.picture.bottom }
        ensures picture { let p = self.old.picture in
            self.new.picture ≡ with_rows (scrolled_up 1 p.top p.bottom p.rows) p }
        ensures order { self.new.order
            ≡ turned_up 1 self.old.picture.top self.old.picture.bottom self.old.order }
        ensures slots { self.new.slots
            ≡ slice_set self.old.slots (slot_at self.old.order self.old.picture.top) blank_row }
        ensures told { KeepsTold self.old self.new }
    {
        self.grid
            .turn_up(1, self.top, self.bottom, &mut self.touched);
        self.grid
            .fill_line(self.bottom, Cell::blank(), columns_of(self.wide));
    }

    /// Scrolls the region down by one, with the cursor at the top margin.
    fn scroll_down(&mut self)
        requires { self.old.picture.line ≡ self.old.picture.top }
        ensures picture { let p = self.old.picture in
            self.new.picture ≡ with_rows (scrolled_down 1 p.top p.bottom p.rows) p }
        ensures order { self.new.order
            ≡ turned_down 1 self.old.picture.top self.old.picture.bottom self.old.order }
        ensures slots { self.new.slots
            ≡ slice_set self.old.slots (slot_at self.old.order self.old.picture.bottom) blank_row }
        ensures told { KeepsTold self.old self.new }
    {
        self.grid
            .turn_down(1, self.top, self.bottom, &mut self.touched);
        self.grid
            .fill_line(self.top, Cell::blank(), columns_of(self.wide));
    }

    /// Takes a pending wrap: column 1 of the next line.
    fn take_wrap(&mut self)
        ensures picture { self.new.picture ≡ wrap_taken self.old.picture }
        ensures order { self.new.order ≡ order_wrap_taken self.old.picture self.old.order }
        ensures told { KeepsTold self.old self.new }
    {
        if self.wrap {
            self.to_left();
            self.index();
        }
    }

    /// Shows a run part by part, each up to the right margin of its line.
    fn show_parts(&mut self, glyphs: &[u8], rendition: Rendition, autowrap: bool)
        requires { All (λ glyph. glyph ≤ LAST_GLYPH) glyphs.now }
        ensures picture { self.new.picture
            ≡ run_shown glyphs.now rendition autowrap self.old.picture }
        ensures order { self.new.order
            ≡ order_run_shown glyphs.now rendition autowrap self.old.picture self.old.order }
        ensures told { KeepsTold self.old self.new }
    {
        let mut rest = glyphs;
        while !rest.is_empty() {
            self.take_wrap();
            let taken = self.show_part(rest, rendition, autowrap);
            rest = &rest[taken..];
        }
    }

    /// Writes the cell at the cursor; at the right margin the cursor stays, and the wrap becomes pending
    /// with `autowrap`, else it goes one to the right.
    fn put(&mut self, cell: Cell, autowrap: bool)
        requires { cell.glyph ≤ LAST_GLYPH }
        ensures picture { self.new.picture ≡ put cell autowrap self.old.picture }
        ensures order { self.new.order ≡ self.old.order }
        ensures told { KeepsTold self.old self.new }
    {
        let margin = self.margin();
        touch_line(&mut self.touched, self.line);
        self.grid.write(self.line, self.column, cell);
        if self.column == margin {
            self.wrap = autowrap;
        } else {
            self.column += 1;
        }
    }

    /// Moves the cells from the cursor on one to the right.
    fn make_room(&mut self)
        ensures picture { self.new.picture ≡ room_made self.old.picture }
        ensures order { self.new.order ≡ self.old.order }
        ensures told { KeepsTold self.old self.new }
    {
        let margin = self.margin();
        let mut row = *self.grid.row(self.line);
        row.move_right(self.column, margin);
        touch_line(&mut self.touched, self.line);
        self.grid.set_row(self.line, row);
    }

    /// At most the number of lines from the cursor's to the bottom margin.
    fn lines_left(&self, n: u16) -> u8
        requires { self.now.picture.line ≤ self.now.picture.bottom }
        ensures { result ≡ min n (self.now.picture.bottom + 1 - self.now.picture.line) }
    {
        n.min(u16::from(self.bottom + 1 - self.line)) as u8
    }

    /// Shows the glyphs that the cursor's line has room for, at least one, and says how many.
    fn show_part(&mut self, glyphs: &[u8], rendition: Rendition, autowrap: bool) -> usize
        requires some { 0 < length glyphs.now }
        requires glyphs { All (λ glyph. glyph ≤ LAST_GLYPH) glyphs.now }
        requires wrap { self.old.picture.wrap ≡ false }
        ensures some { 0 < result }
        ensures within { result ≤ length glyphs.now }
        ensures picture { self.new.picture
            ≡ run_shown (take result glyphs.now) rendition autowrap self.old.picture }
        ensures order { self.new.order
            ≡ order_run_shown (take result glyphs.now) rendition autowrap
            self.old.picture self.old.order }
        ensures told { KeepsTold self.old self.new }
    {
        let margin = self.margin();
        let room = (margin - self.column) as usize + 1;
        let taken = glyphs.len().min(room);
        touch_line(&mut self.touched, self.line);
        self.grid
            .write_run(self.line, self.column, &glyphs[..taken], rendition);
        if taken == room {
            self.column = margin;
            self.wrap = autowrap;
        } else {
            self.column += taken as u8;
        }
        taken
    }

    /// Whether a part of the display has the whole of the cursor's line.
    fn erases_line(&self, part: u8) -> bool
        requires { part ≤ 2 }
        ensures { result ≡ erased_whole part self.now.picture self.now.picture.line }
    {
        match part {
            0 => self.column == 1,
            1 => self.column == self.margin(),
            _ => true,
        }
    }
}

/// The lines other than the cursor's that a part of the display has, from the first to the last.
fn other_lines(part: u8, cursor: u8) -> (u8, u8)
    requires part { part ≤ 2 }
    requires low { 1 ≤ cursor }
    requires high { cursor ≤ LINES }
    ensures told { (line : ℕ) → 1 ≤ line → line ≤ LINES
        → nat_le result.0 line && nat_lt line (result.1 + 1) ≡ in_other_lines part cursor line }
    ensures low { 1 ≤ result.0 }
    ensures apart { result.0 ≤ result.1 + 1 }
    ensures high { result.1 ≤ LINES }
{
    match part {
        0 => (cursor + 1, LINES),
        1 => (1, cursor - 1),
        _ => (1, LINES),
    }
}

/// The tab stops at first.
fn first_tabs() -> [bool; WIDE_COLUMNS as usize]
    ensures { result ≡ first_tabs }
{
    let mut tabs = [false; WIDE_COLUMNS as usize];
    for column in 2..WIDE_COLUMNS as usize + 1 {
        tabs[column - 1] = column % 8 == 1;
    }
    tabs
}

/// The first stop right of a column and up to the margin, or the margin.
fn next_stop(tabs: &[bool; WIDE_COLUMNS as usize], column: u8, margin: u8) -> u8
    requires low { 1 ≤ column }
    requires within { column ≤ margin }
    requires high { margin ≤ WIDE_COLUMNS }
    ensures value { result ≡ stop_after tabs.now column margin }
    ensures within { result ≤ margin }
    ensures low { column ≤ result }
{
    for stop in column + 1..margin + 1 {
        if tabs[stop as usize - 1] {
            return stop;
        }
    }
    margin
}
