//! What stands on one screen and is less on another, line by line.

ghost use Rattle.std.specs.Prelude.{
  ◌≡◌,
  ◌≤◌,
  ◌<◌,
  ◌+◌,
  ◌-◌,
  ◌&&◌,
  All,
  Bool,
  List,
  ℕ,
  false,
  length,
  nat_le,
  take,
  true,
};
ghost use Rattle.std.specs.List.{flat_map};
ghost use Rattle.tape_core.specs.Devices.{Gave};
ghost use Rattle.screen_print.specs.ByLine.{
  AreAnyFronts,
  AreFronts,
  AreKnown,
  IsCommon,
  IsKnown,
  AreLost,
  DifferIn,
  IsApart,
  IsOnScreen,
  begins_on,
  count_above,
  lines_by,
  place_line,
  places_above,
  places_to,
  row_on,
  stands_at_no_end,
  stands_so,
};
ghost use Rattle.screen_print.specs.EachByte.{is_lone};
ghost use Rattle.screen_print.specs.FindLines.{count_left, found_line, left_of, standing};
ghost use Rattle.screen_print.specs.Moved.{IsMoved};
ghost use Rattle.screen_print.specs.Places.{IsPlace};
ghost use Rattle.screen_print.specs.Start.{IsStart};
ghost use Rattle.screen_rows.specs.RowText.{characters};

use crate::alike::alike_len;
use crate::find_lines::{Chunk, put_found};
use crate::lost::{Lost, pass_kept, push_at};
use crate::moved::Moved;
use crate::quiet::may_begin;
use crate::standing::{Place, begins};
use crate::start::Start;
use crate::still::{ROWS, Still};
use crate::stood::all_stood;
use std::io::Write;
use tape_core::Watched;
use tape_core::laws::gives_join;
use vt_screen::Cell;
use vt_screen::limits::{LINES, WIDE_COLUMNS};

/// In more lines than so many a screen mostly differs because rows moved.
pub(crate) const FEW: usize = 4;

/// A text that is looked for, how it begins, and the line in which it was seen when the chunk began.
#[derive(Drop)]
pub(crate) struct Sought<'a> {
    pub(crate) text: &'a [char],
    pub(crate) start: &'a Start,
    pub(crate) seen: u8,
}

/// Two screens, the lines in which their rows differ, and lines of the first one whose rows moved.
#[derive(Drop)]
pub(crate) struct Pair<'a> {
    pub(crate) one: &'a Still,
    pub(crate) other: &'a Still,
    pub(crate) lines: &'a [u8],
    pub(crate) moved: Moved,
}

/// What stands on the screen at both ends of a chunk.
#[derive(Drop)]
pub(crate) struct Ends<'a> {
    pub(crate) first: &'a Still,
    pub(crate) last: &'a Still,
}

/// More characters than a row has, where it isn't known how many.
const UNKNOWN: u8 = 255;

/// How many characters a row of one screen has in common with each line of the other, and with each line above it, once
/// that was asked for. So what stands left of a column is compared once for all columns.
#[derive(Drop)]
struct Fronts {
    above: [u8; ROWS],
    there: [u8; ROWS],
}

impl Fronts {
    /// Nothing is known.
    fn none() -> Self
        ensures { AreAnyFronts result }
    {
        Fronts {
            above: [UNKNOWN; ROWS],
            there: [UNKNOWN; ROWS],
        }
    }
}

/// Writes the lines of what stands on one screen and is less on the other: where ends are given, of what stands so at
/// neither. It looks at the rows that differ, and elsewhere at what has the same to the left as a place that may have
/// gone.
pub(crate) fn put_less<W: Write>(
    sign: u8,
    chunk: &Chunk,
    sought: &Sought<'_>,
    pair: &Pair<'_>,
    ends: Option<&Ends<'_>>,
    writer: &mut Watched<W>,
)
    requires start { IsStart sought.now.text.now sought.now.start.now }
    requires lines { DifferIn pair.now.lines.now pair.now.one.now pair.now.other.now }
    requires moved { IsMoved pair.now.moved pair.now.one.now pair.now.other.now }
    ensures { Gave W.contents writer.old writer.new
        (lines_by sought.now.text.now pair.now.one.now pair.now.other.now
        (found_line sign chunk.now.index chunk.now.due chunk.now.len pair.now.one.now)
        (stands_at_no_end sought.now.text.now ends.entry) (standing sought.now.text.now pair.now.one.now)) }
{
    gives_join::<W>();
    pair.one.sound();
    pair.other.sound();
    let mut lost = Lost::none();
    let from = pass_kept(sought, pair, &mut lost);
    if lost.places.is_empty() {
        return;
    }
    if all_stood(sought, pair, ends) {
        return;
    }
    for line in from..LINES + 1 {
        push_at(sought, pair, line, &mut lost);
        put_line(sign, chunk, sought, pair, line, &lost, ends, writer);
    }
}

/// Whether a line surely shows nothing of the text.
pub(crate) fn is_bare(sought: &Sought<'_>, still: &Still, line: u8) -> bool
    requires start { IsStart sought.now.text.now sought.now.start.now }
    requires low { 1 ≤ line }
    requires high { line ≤ LINES }
    ensures { result ≡ true → (column : ℕ) → 1 ≤ column → column ≤ length (row_on still.now line)
        → begins_on sought.now.text.now still.now line column ≡ false }
{
    still.sound();
    if may_begin(sought.start, still.is_wide(), still.row(line)) {
        return false;
    }
    true
}

/// Whether the text stands at a column of a line.
#[inline(always)]
pub(crate) fn stands(sought: &Sought<'_>, still: &Still, line: u8, column: u8) -> bool
    requires start { IsStart sought.now.text.now sought.now.start.now }
    requires low { 1 ≤ line }
    requires high { line ≤ LINES }
    requires left { 1 ≤ column }
    requires right { column ≤ length (row_on still.now line) }
    ensures { result ≡ begins_on sought.now.text.now still.now line column }
{
    begins(
        still,
        sought.text,
        sought.start,
        line,
        still.cells(line),
        column,
    )
}

/// Writes the lines of what stands in a line and is less on the other screen.
fn put_line<W: Write>(
    sign: u8,
    chunk: &Chunk,
    sought: &Sought<'_>,
    pair: &Pair<'_>,
    line: u8,
    lost: &Lost,
    ends: Option<&Ends<'_>>,
    writer: &mut Watched<W>,
)
    requires start { IsStart sought.now.text.now sought.now.start.now }
    requires low { 1 ≤ line }
    requires high { line ≤ LINES }
    requires lost { AreLost sought.now.text.now pair.now.one.now (line + 1)
        pair.now.other.now lost.now.next lost.now.places.items }
    ensures { Gave W.contents writer.old writer.new
        (flat_map (place_line sought.now.text.now pair.now.one.now pair.now.other.now
        (found_line sign chunk.now.index chunk.now.due chunk.now.len pair.now.one.now)
        (stands_at_no_end sought.now.text.now ends.entry) (places_above sought.now.text.now pair.now.one.now line))
        (places_to sought.now.text.now pair.now.one.now line (length (row_on pair.now.one.now line)))) }
{
    gives_join::<W>();
    pair.other.sound();
    let (near, last) = reach(pair.one, line, lost.places.as_slice());
    if near > last {
        return;
    }
    let first = first_told(sought, pair.one, line, near, last, ends);
    if first > last {
        return;
    }
    let mut fronts = Fronts::none();
    let mut column = first;
    while column <= last {
        let place = Place { line, column };
        put_if_less(sign, chunk, sought, pair, &mut fronts, place, writer);
        column = first_told(sought, pair.one, line, column + 1, last, ends);
    }
}

/// The first of these columns of a line at which the text stands and its left part at no end. Where there is none it's
/// the one behind them.
fn first_told(
    sought: &Sought<'_>,
    still: &Still,
    line: u8,
    near: u8,
    last: u8,
    ends: Option<&Ends<'_>>,
) -> u8
    requires start { IsStart sought.now.text.now sought.now.start.now }
    requires low { 1 ≤ line }
    requires high { line ≤ LINES }
    requires left { 1 ≤ near }
    requires near { near ≤ last + 1 }
    requires right { last ≤ length (row_on still.now line) }
    ensures from { near ≤ result }
    ensures within { result ≤ last + 1 }
    ensures before { (column : ℕ) → near ≤ column → column < result
        → begins_on sought.now.text.now still.now line column ≡ true
        → stands_at_no_end sought.now.text.now ends.entry (take (column - 1) (row_on still.now line)) ≡ false }
    ensures begins { result ≤ last → begins_on sought.now.text.now still.now line result ≡ true }
    ensures alone { result ≤ last
        → stands_at_no_end sought.now.text.now ends.entry (take (result - 1) (row_on still.now line)) ≡ true }
{
    let _cells = still.cells(line);
    let end = last + 1;
    for column in near..end {
        if is_told(sought, still, line, column, ends) {
            return column;
        }
    }
    end
}

/// Whether the text stands at a column of a line and its left part at no end.
fn is_told(
    sought: &Sought<'_>,
    still: &Still,
    line: u8,
    column: u8,
    ends: Option<&Ends<'_>>,
) -> bool
    requires start { IsStart sought.now.text.now sought.now.start.now }
    requires low { 1 ≤ line }
    requires high { line ≤ LINES }
    requires left { 1 ≤ column }
    requires right { column ≤ length (row_on still.now line) }
    ensures { result ≡ (begins_on sought.now.text.now still.now line column
        && stands_at_no_end sought.now.text.now ends.entry (take (column - 1) (row_on still.now line))) }
{
    if !stands(sought, still, line, column) {
        return false;
    }
    let left = &still.cells(line)[..column as usize - 1];
    is_at_no_end(sought, ends, left)
}

/// Between which columns a line has the same to the left as a place that may have gone, from its column on.
fn reach(still: &Still, line: u8, lost: &[Place]) -> (u8, u8)
    requires low { 1 ≤ line }
    requires high { line ≤ LINES }
    requires lines { All IsOnScreen lost.now }
    ensures first { 1 ≤ result.0 }
    ensures near { result.0 ≤ length (row_on still.now line) + 1 }
    ensures last { result.1 ≤ length (row_on still.now line) }
    ensures before { (column : ℕ) → 1 ≤ column → column < result.0 → column ≤ length (row_on still.now line)
        → All (IsApart still.now (take (column - 1) (row_on still.now line))) lost.now }
    ensures behind { (column : ℕ) → result.1 < column → column ≤ length (row_on still.now line)
        → All (IsApart still.now (take (column - 1) (row_on still.now line))) lost.now }
{
    let cells = still.cells(line);
    let mut first = cells.len() as u8 + 1;
    let mut last: u8 = 0;
    for place in lost {
        let shared = alike_len(cells, still.cells(place.line)) as u8;
        if place.column <= shared + 1 {
            first = first.min(place.column);
            last = last.max((shared + 1).min(cells.len() as u8));
        }
    }
    (first, last)
}

/// Writes the line of a place whose left part stands at no end, where it is less on the other screen.
fn put_if_less<W: Write>(
    sign: u8,
    chunk: &Chunk,
    sought: &Sought<'_>,
    pair: &Pair<'_>,
    fronts: &mut Fronts,
    place: Place,
    writer: &mut Watched<W>,
)
    requires start { IsStart sought.now.text.now sought.now.start.now }
    requires fronts { AreFronts pair.now.one.now place.line pair.now.other.now fronts.old }
    requires place { IsPlace pair.now.one.now place }
    ensures gave { (keep : List ℕ → Bool) → keep (left_of pair.now.one.now place) ≡ true
        → Gave W.contents writer.old writer.new
        (place_line sought.now.text.now pair.now.one.now pair.now.other.now
        (found_line sign chunk.now.index chunk.now.due chunk.now.len pair.now.one.now) keep
        (places_above sought.now.text.now pair.now.one.now place.line) place) }
    ensures fronts { AreFronts pair.now.one.now place.line pair.now.other.now fronts.new }
{
    gives_join::<W>();
    if !is_less(sought, pair, fronts, place) {
        return;
    }
    put_found(sign, chunk, pair.one, place, writer);
}

/// Whether as often as a text stands on the other screen with the same to the left as a place, it stands above it
/// already.
fn is_less(sought: &Sought<'_>, pair: &Pair<'_>, fronts: &mut Fronts, place: Place) -> bool
    requires start { IsStart sought.now.text.now sought.now.start.now }
    requires place { IsPlace pair.now.one.now place }
    requires fronts { AreFronts pair.now.one.now place.line pair.now.other.now fronts.old }
    ensures less { let text = sought.now.text.now in
        let left = left_of pair.now.one.now place in
        result ≡ nat_le (count_left pair.now.other.now (standing text pair.now.other.now) left)
        (count_left pair.now.one.now (places_above text pair.now.one.now place.line) left) }
    ensures fronts { AreFronts pair.now.one.now place.line pair.now.other.now fronts.new }
{
    pair.other.sound();
    let end = LINES + 1;
    let there = count_above(sought, pair.other, end, pair.one, place, &mut fronts.there);
    if there == 0 {
        return true;
    }
    let before = count_above(
        sought,
        pair.one,
        place.line,
        pair.one,
        place,
        &mut fronts.above,
    );
    there <= before
}

/// Whether the text stands at no end with this to the left.
fn is_at_no_end(sought: &Sought<'_>, ends: Option<&Ends<'_>>, left: &[Cell]) -> bool
    requires start { IsStart sought.now.text.now sought.now.start.now }
    requires short { length left.now < WIDE_COLUMNS }
    ensures { result ≡ stands_at_no_end sought.now.text.now ends.entry (characters left.now) }
{
    match ends {
        None => true,
        Some(ends) => {
            stands_nowhere(sought, ends.first, left) && stands_nowhere(sought, ends.last, left)
        }
    }
}

/// Whether a text stands in no line of a screen with this to the left.
fn stands_nowhere(sought: &Sought<'_>, still: &Still, left: &[Cell]) -> bool
    requires start { IsStart sought.now.text.now sought.now.start.now }
    requires short { length left.now < WIDE_COLUMNS }
    ensures { result ≡ is_lone still.now (standing sought.now.text.now still.now) (characters left.now) }
{
    still.sound();
    for line in 1..LINES + 1 {
        if stands_so(sought, still, line, left) {
            return false;
        }
    }
    true
}

/// How often a text stands above a line of a screen with the same to the left as a place of one. It may be known how many
/// characters its row has in common with a line.
fn count_above(
    sought: &Sought<'_>,
    still: &Still,
    end: u8,
    one: &Still,
    place: Place,
    common: &mut [u8; ROWS],
) -> u8
    requires start { IsStart sought.now.text.now sought.now.start.now }
    requires low { 1 ≤ end }
    requires high { end ≤ LINES + 1 }
    requires place { IsPlace one.now place }
    requires common { AreKnown still.now end (row_on one.now place.line) common.old }
    ensures count { result ≡ count_above sought.now.text.now still.now end (left_of one.now place) }
    ensures common { AreKnown still.now end (row_on one.now place.line) common.new }
{
    let mut count = 0;
    for line in 1..end {
        if stands_behind(
            sought,
            still,
            line,
            one,
            place,
            &mut common[line as usize - 1],
        ) {
            count += 1;
        }
    }
    count
}

/// Whether a text stands in a line of a screen with the same to the left as a place of one, where it may be known how many
/// characters its row has in common with the line.
fn stands_behind(
    sought: &Sought<'_>,
    still: &Still,
    line: u8,
    one: &Still,
    place: Place,
    common: &mut u8,
) -> bool
    requires start { IsStart sought.now.text.now sought.now.start.now }
    requires low { 1 ≤ line }
    requires high { line ≤ LINES }
    requires place { IsPlace one.now place }
    requires common { IsKnown (row_on still.now line) (row_on one.now place.line) common.old }
    ensures stands { result ≡ stands_so sought.now.text.now still.now line (left_of one.now place) }
    ensures common { IsKnown (row_on still.now line) (row_on one.now place.line) common.new }
{
    let cells = still.cells(line);
    if place.column as usize > cells.len() {
        return false;
    }
    if !may_stand(sought, still, line, cells, place.column) {
        return false;
    }
    let len = common_len(one, place.line, still, line, common);
    if len < place.column - 1 {
        return false;
    }
    stands(sought, still, line, place.column)
}

/// How many characters the row of a line has in common with that of a line of a screen. It's compared once.
fn common_len(one: &Still, here: u8, still: &Still, line: u8, common: &mut u8) -> u8
    requires here_low { 1 ≤ here }
    requires here_high { here ≤ LINES }
    requires low { 1 ≤ line }
    requires high { line ≤ LINES }
    requires known { IsKnown (row_on still.now line) (row_on one.now here) common.old }
    ensures len { IsCommon (row_on still.now line) (row_on one.now here) result }
    ensures known { IsKnown (row_on still.now line) (row_on one.now here) common.new }
{
    if *common != UNKNOWN {
        return *common;
    }
    let len = alike_len(one.cells(here), still.cells(line)) as u8;
    *common = len;
    len
}

/// Whether the text may stand at a column of a line with these cells, as its first character tells.
#[inline(always)]
fn may_stand(sought: &Sought<'_>, still: &Still, line: u8, cells: &[Cell], column: u8) -> bool
    requires start { IsStart sought.now.text.now sought.now.start.now }
    requires low { 1 ≤ line }
    requires high { line ≤ LINES }
    requires left { 1 ≤ column }
    requires right { column ≤ length cells.now }
    requires cells { characters cells.now ≡ row_on still.now line }
    ensures { result ≡ false → begins_on sought.now.text.now still.now line column ≡ false }
{
    still.sound();
    sought.start.may_begin_at(cells[column as usize - 1])
}

/// Whether a text stands in a line with this to the left.
fn stands_so(sought: &Sought<'_>, still: &Still, line: u8, left: &[Cell]) -> bool
    requires start { IsStart sought.now.text.now sought.now.start.now }
    requires low { 1 ≤ line }
    requires high { line ≤ LINES }
    requires short { length left.now < WIDE_COLUMNS }
    ensures { result ≡ stands_so sought.now.text.now still.now line (characters left.now) }
{
    let cells = still.cells(line);
    let at = left.len();
    if at >= cells.len() {
        return false;
    }
    if !may_stand(sought, still, line, cells, at as u8 + 1) {
        return false;
    }
    if alike_len(cells, left) < at {
        return false;
    }
    stands(sought, still, line, at as u8 + 1)
}
