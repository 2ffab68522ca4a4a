//! A row of characters.

ghost use Rattle.std.specs.Prelude.{◌≡◌, ◌+◌, ◌-◌, ◌≤◌, ◌<◌, ◌∷◌, ◌++◌, [], false, true, List, IfOk, OnErr, OnOk, drop, length, nat_le, replicate, slice_index_or, slice_set, take, vec_capacity};
ghost use Rattle.std.specs.List.{range_with_len};
ghost use Rattle.standings.specs.Follow.{has_length};
ghost use Rattle.standings.specs.Moved.{moved_up, spaces_row, turned};
ghost use Rattle.standings.specs.Rows.{empty_row, row_below};
ghost use Rattle.standings.specs.Written.{row_written};

use std::alloc::{AllocError, Global};
use std::marker::Model;
use std::mem::replace;

/// A row's characters, the column in which each of them stands, and whether the row runs on into the next one.
#[derive(Drop)]
pub struct Row {
    characters: Vec<char>,
    columns: Vec<u16>,
    runs_on: bool,
}

impl Model for Row {
    ghost use Rattle.standings.specs.Rows.{Row};

    ghost Value = { Row };

    ghost view = { λ row. record { characters = row.characters.items; columns = row.columns.items; runs_on = row.runs_on } };
}

impl Row {
    ghost use Rattle.standings.specs.Rows.{Row};

    /// A row without a character, with room for so many.
    pub fn with_room(alloc: Global, room: usize, runs_on: bool) -> Result<Self, AllocError>
        ensures { IfOk result (λ row.
            row ≡ record { characters = []; columns = []; runs_on = runs_on }) }
    {
        let characters = Vec::with_capacity(alloc, room)?;
        let columns = Vec::with_capacity(alloc, room)?;
        Ok(Row {
            characters,
            columns,
            runs_on,
        })
    }

    /// Puts a character at its end, which stands in a column.
    pub fn push(&mut self, character: char, column: u16) -> Result<(), AllocError>
        ensures { OnOk result (self.new ≡ record {
          characters = self.old.characters ++ character ∷ [];
          columns = self.old.columns ++ column ∷ [];
          runs_on = self.old.runs_on;
        }) }
    {
        self.characters.push(character)?;
        self.columns.push(column)?;
        Ok(())
    }

    /// Puts characters at its end, which stand in these columns. Where memory is refused, it is as before.
    pub fn push_run(&mut self, characters: &[char], columns: &[u16]) -> Result<(), AllocError>
        ensures pushed { OnOk result (self.new ≡ record {
          characters = self.old.characters ++ characters.now;
          columns = self.old.columns ++ columns.now;
          runs_on = self.old.runs_on;
        }) }
        ensures refused { OnErr result (self.new ≡ self.old) }
    {
        self.characters.reserve(characters.len())?;
        self.columns.extend_from_slice(columns)?;
        self.characters.extend_from_slice(characters)?;
        Ok(())
    }

    /// Puts a character at its end so many times, in columns from this one on. Where memory is refused, it is as before.
    pub fn push_many(
        &mut self,
        character: char,
        count: usize,
        column: u16,
    ) -> Result<(), AllocError>
        requires { column + count ≤ u16.MAX }
        ensures pushed { OnOk result (self.new ≡ record {
          characters = self.old.characters ++ replicate count character;
          columns = self.old.columns ++ range_with_len column count;
          runs_on = self.old.runs_on;
        }) }
        ensures refused { OnErr result (self.new ≡ self.old) }
    {
        self.characters.reserve(count)?;
        let from = self.columns.len();
        self.columns.resize(from + count, 0)?;
        let before = self.characters.len();
        self.characters.resize(before + count, character)?;
        number(self.columns.as_mut_slice(), from, column);
        Ok(())
    }

    /// Becomes a row without a character, and keeps its room.
    pub fn restart(&mut self, runs_on: bool)
        ensures { self.new ≡ record { characters = []; columns = []; runs_on = runs_on } }
    {
        self.characters.clear();
        self.columns.clear();
        self.runs_on = runs_on;
    }

    /// How many characters it has.
    pub fn count(&self) -> usize
        ensures characters { result ≤ length self.now.characters }
        ensures columns { result ≤ length self.now.columns }
    {
        self.characters.len().min(self.columns.len())
    }

    /// The character behind so many others becomes this one, which stands in a column.
    pub fn set(&mut self, before: usize, character: char, column: u16)
        requires characters { before < length self.old.characters }
        requires columns { before < length self.old.columns }
        ensures { self.new ≡ record {
          characters = slice_set self.old.characters before character;
          columns = slice_set self.old.columns before column;
          runs_on = self.old.runs_on;
        } }
    {
        self.characters[before] = character;
        self.columns[before] = column;
    }

    /// Keeps so many characters.
    pub fn cut(&mut self, count: usize, runs_on: bool)
        ensures { self.new ≡ record {
          characters = take count self.old.characters;
          columns = take count self.old.columns;
          runs_on = runs_on;
        } }
    {
        self.characters.truncate(count);
        self.columns.truncate(count);
        self.runs_on = runs_on;
    }

    /// Becomes a row of these characters, in columns from 1 on; it has as many already.
    pub fn spell(&mut self, characters: &[char], runs_on: bool)
        requires characters { length characters.now ≤ length self.old.characters }
        requires columns { length characters.now ≤ length self.old.columns }
        requires few { length characters.now ≤ u16.MAX }
        ensures { self.new ≡ record {
          characters = characters.now;
          columns = range_with_len 1 (length characters.now);
          runs_on = runs_on;
        } }
    {
        self.cut(characters.len(), runs_on);
        self.characters.as_mut_slice().copy_from_slice(characters);
        number(self.columns.as_mut_slice(), 0, 1);
    }

    /// Becomes a row of these characters, in columns from 1 on, and asks for room where it has too little. Where that is
    /// refused, it is as before.
    pub fn respell(&mut self, characters: &[char], runs_on: bool) -> Result<(), AllocError>
        requires { length characters.now ≤ u16.MAX }
        ensures spelt { OnOk result (self.new ≡ record {
          characters = characters.now;
          columns = range_with_len 1 (length characters.now);
          runs_on = runs_on;
        }) }
        ensures refused { OnErr result (self.new ≡ self.old) }
    {
        make_room(&mut self.characters, characters.len())?;
        self.columns.resize(characters.len(), 0)?;
        self.characters.clear();
        self.characters.extend_from_slice(characters)?;
        number(self.columns.as_mut_slice(), 0, 1);
        self.runs_on = runs_on;
        Ok(())
    }

    /// Becomes a copy of another row.
    pub fn copy_from(&mut self, other: &Row) -> Result<(), AllocError>
        ensures { OnOk result (self.new ≡ other.now) }
    {
        self.restart(other.runs_on);
        self.characters
            .extend_from_slice(other.characters.as_slice())?;
        self.columns.extend_from_slice(other.columns.as_slice())?;
        Ok(())
    }

    /// A copy of it.
    pub(crate) fn copied(&self, alloc: Global) -> Result<Self, AllocError>
        ensures { IfOk result (λ row. row ≡ self.now) }
    {
        let mut row = Row::with_room(alloc, 0, false)?;
        row.copy_from(self)?;
        Ok(row)
    }

    /// Whether it has at least as many characters and columns as another row.
    pub(crate) fn has_length(&self, other: &Row) -> bool
        ensures { result ≡ has_length self.now other.now }
    {
        other.characters.len() <= self.characters.len() && other.columns.len() <= self.columns.len()
    }

    /// Becomes a copy of another row, which has no more characters and columns.
    pub(crate) fn overwrite(&mut self, other: &Row)
        requires { has_length self.old other.now ≡ true }
        ensures { self.new ≡ other.now }
    {
        overwrite(&mut self.characters, other.characters.as_slice());
        overwrite(&mut self.columns, other.columns.as_slice());
        self.runs_on = other.runs_on;
    }

    /// A row of so many spaces.
    pub(crate) fn spaces(alloc: Global, columns: usize) -> Result<Self, AllocError>
        requires { columns < u16.MAX }
        ensures { IfOk result (λ row. row ≡ spaces_row columns) }
    {
        let mut row = Row::with_room(alloc, columns, false)?;
        row.push_many(' ', columns, 1)?;
        Ok(row)
    }

    /// Gives back the room that neither it nor another row has taken. All stays, also where memory is refused.
    pub fn fit(&mut self, alloc: Global, other: &Row) -> Result<(), AllocError>
        ensures { self.new ≡ self.old }
    {
        fit_list(alloc, &mut self.characters, other.characters.capacity())?;
        fit_list(alloc, &mut self.columns, other.columns.capacity())
    }

    /// Becomes a row of so many spaces, and asks for room where it has too little. Where that is refused, it is as before.
    pub(crate) fn blank(&mut self, columns: usize) -> Result<(), AllocError>
        requires { columns < u16.MAX }
        ensures spaces { OnOk result (self.new ≡ spaces_row columns) }
        ensures refused { OnErr result (self.new ≡ self.old) }
    {
        make_room(&mut self.characters, columns)?;
        self.columns.resize(columns, 0)?;
        self.characters.clear();
        self.characters.resize(columns, ' ')?;
        number(self.columns.as_mut_slice(), 0, 1);
        self.runs_on = false;
        Ok(())
    }

    /// Whether it has so many characters behind so many others.
    pub(crate) fn has(&self, before: usize, count: usize) -> bool
        ensures { result ≡ nat_le (before + count) (length self.now.characters) }
    {
        let all = self.characters.len();
        before <= all && count <= all - before
    }

    /// These characters are written over as many of its own, from the one behind so many on.
    pub(crate) fn write(&mut self, before: usize, letters: &[char])
        requires { before + length letters.now ≤ length self.old.characters }
        ensures { self.new ≡ row_written before letters.now self.old }
    {
        write_over(self.characters.as_mut_slice(), before, letters);
    }

    /// Its characters.
    pub fn characters(&self) -> &[char]
        ensures { result.now ≡ self.now.characters }
    {
        self.characters.as_slice()
    }

    /// The column of the character behind so many others; 0 behind the last.
    pub fn column(&self, before: usize) -> u16
        ensures { result ≡ slice_index_or self.now.columns before 0 }
    {
        if before < self.columns.len() {
            self.columns[before]
        } else {
            0
        }
    }

    /// Whether it runs on into the next one.
    pub fn runs_on(&self) -> bool
        ensures { result ≡ self.now.runs_on }
    {
        self.runs_on
    }
}

/// A list becomes these, which are no more.
fn overwrite<T: Copy + Drop>(items: &mut Vec<T>, others: &[T])
    requires { length others.now ≤ length items.old.items }
    ensures { items.new.items ≡ others.now }
{
    items.truncate(others.len());
    items.as_mut_slice().copy_from_slice(others);
}

/// Asks for room for so many characters in all, where there is less.
fn make_room(characters: &mut Vec<char>, count: usize) -> Result<(), AllocError>
    ensures items { characters.new.items ≡ characters.old.items }
    ensures room { OnOk result (count ≤ vec_capacity characters.new) }
{
    characters.reserve(count.saturating_sub(characters.len()))
}

/// Gives back the room that a list has for more than so many and doesn't need.
fn fit_list<T: Copy + Drop>(
    alloc: Global,
    items: &mut Vec<T>,
    room: usize,
) -> Result<(), AllocError>
    ensures { items.new.items ≡ items.old.items }
{
    let room = room.max(items.len());
    if items.capacity() <= room {
        return Ok(());
    }
    let mut fitting = Vec::with_capacity(alloc, room)?;
    fitting.extend_from_slice(items.as_slice())?;
    *items = fitting;
    Ok(())
}

/// Those behind so many become the columns from one on.
fn number(columns: &mut [u16], from: usize, column: u16)
    requires within { from ≤ length columns.old }
    requires few { column + (length columns.old - from) ≤ u16.MAX + 1 }
    ensures { columns.new ≡ take from columns.old ++ range_with_len column (length columns.old - from) }
{
    for at in from..columns.len() {
        columns[at] = column + (at - from) as u16;
    }
}

/// Those behind so many become these.
fn write_over(characters: &mut [char], before: usize, letters: &[char])
    requires { before + length letters.now ≤ length characters.old }
    ensures { characters.new
        ≡ take before characters.old ++ letters.now ++ drop (before + length letters.now) characters.old }
{
    characters[before..before + letters.len()].copy_from_slice(letters);
}

/// The first so many rows come behind the others.
pub(crate) fn turn_rows(rows: &mut [Row], count: usize)
    ensures { rows.new ≡ turned count rows.old }
{
    if count > 0 && count < rows.len() {
        rows.rotate_left(count);
    }
}

/// And the last so many come before the others again.
pub(crate) fn turn_rows_back(rows: &mut [Row], count: usize)
    ensures { (before : List Row) → rows.old ≡ turned count before → rows.new ≡ before }
{
    if count > 0 && count < rows.len() {
        rows.rotate_right(count);
    }
}

/// All rows move up by one, and the first one becomes a row of so many spaces below the others. Where memory is refused,
/// they are as before.
pub(crate) fn move_rows_up(rows: &mut [Row], columns: usize) -> Result<(), AllocError>
    requires some { 0 < length rows.old }
    requires few { columns < u16.MAX }
    ensures moved { OnOk result (rows.new ≡ moved_up columns rows.old) }
    ensures refused { OnErr result (rows.new ≡ rows.old) }
{
    let row = &mut rows[0];
    row.blank(columns)?;
    rows.rotate_left(1);
    Ok(())
}

/// All rows move down by one, and the last one becomes a row of so many spaces above the others. Where memory is refused,
/// they are as before.
pub(crate) fn move_rows_down(rows: &mut [Row], columns: usize) -> Result<(), AllocError>
    requires some { 0 < length rows.old }
    requires few { columns < u16.MAX }
    ensures moved { OnOk result
        (rows.new ≡ spaces_row columns ∷ take (length rows.old - 1) rows.old) }
    ensures refused { OnErr result (rows.new ≡ rows.old) }
{
    let last = rows.len() - 1;
    let row = &mut rows[last];
    row.blank(columns)?;
    rows.rotate_right(1);
    Ok(())
}

/// The first of some rows goes out, the others move up by one, and a row comes in below them.
pub(crate) fn shift_up(rows: &mut [Row], row: Row) -> Row
    requires { 0 < length rows.old }
    ensures rows { rows.new ≡ drop 1 rows.old ++ row ∷ [] }
    ensures out { result ≡ row_below rows.old 0 }
{
    let out = replace(&mut rows[0], row);
    rows.rotate_left(1);
    out
}

/// The last of some rows goes out, the others move down by one, and a row comes in above them.
pub(crate) fn shift_down(rows: &mut [Row], row: Row) -> Row
    requires { 0 < length rows.old }
    ensures rows { rows.new ≡ row ∷ take (length rows.old - 1) rows.old }
    ensures out { result ≡ row_below rows.old (length rows.old - 1) }
{
    let last = rows.len() - 1;
    let out = replace(&mut rows[last], row);
    rows.rotate_right(1);
    out
}

/// The characters of the row below so many others; none below the last.
pub(crate) fn characters_below(rows: &[Row], above: usize) -> &[char]
    ensures { result.now ≡ (row_below rows.now above).characters }
{
    if above < rows.len() {
        rows[above].characters()
    } else {
        &[]
    }
}

/// Whether the row below so many others runs on; none below the last does.
pub(crate) fn runs_on_below(rows: &[Row], above: usize) -> bool
    ensures { result ≡ (row_below rows.now above).runs_on }
{
    above < rows.len() && rows[above].runs_on()
}

/// The column of a place; 0 where there is none.
pub(crate) fn column_below(rows: &[Row], above: usize, before: usize) -> u16
    ensures { result ≡ slice_index_or (row_below rows.now above).columns before 0 }
{
    if above < rows.len() {
        rows[above].column(before)
    } else {
        0
    }
}

/// Whether the row above one runs on to it.
pub(crate) fn runs_on_to(rows: &[Row], above: usize) -> bool
    ensures { result ≡ false → 0 < above → (row_below rows.now (above - 1)).runs_on ≡ false }
{
    above > 0 && runs_on_below(rows, above - 1)
}
