//! How what is found is written.

ghost use Rattle.std.specs.Prelude.{◌≡◌, ◌+◌, ◌==◌, ◌<◌, ◌≤◌, ◌++◌, ◌∷◌, [], List, ℕ, decimal, encode_utf8, drop, length, slice_index_or, take, true, IfOk, OnOk, OnErr};
ghost use Rattle.std.specs.List.{flat_map, suffix_len};
ghost use Rattle.held.specs.Held.{Wrote};
ghost use Rattle.tape_core.specs.Devices.{Gave};
ghost use Rattle.tape_core.specs.Written.{seconds_form};
ghost use Rattle.standings.specs.Lines.{AreReady, front_spelled, row_spelled};
ghost use Rattle.standings.specs.Rows.{Row};
ghost use Rattle.standings.specs.Found.{column_of, found_line, found_rows, heading, line_of, rows_reaching};

use crate::place::Place;
use crate::row::{Row, characters_below, column_below};
use arrayvec::ArrayVec;
use held::{HELD, let_out, put, put_byte, put_number};
use itoa::Buffer;
use std::alloc::{AllocError, Global};
use std::io::Write;
use tape_core::laws::gives_join;
use tape_core::{SecondsText, Watched, seconds_text};

/// How many characters of a row are put together at a time.
const TOGETHER: usize = 16;

/// How many bytes of a row are known at most: those of 160 columns, whatever stands there.
const ROOM: usize = 640;

/// How many bytes stand at most between the sign of a line and its column: two numbers, seconds and four spaces.
const FRONT: usize = 65;

/// A chunk's place, when it is due, and how long the text is that is looked for.
#[derive(Clone, Copy, Debug)]
pub struct Moment {
    pub index: usize,
    pub due: u64,
    pub len: usize,
}

/// What the lines of a moment share: when it is due, as text, and the row of the last one, in UTF-8, with what stands before
/// its columns.
#[derive(Drop)]
pub struct Lines {
    pub moment: Moment,
    due: SecondsText,
    held: ArrayVec<u8, HELD>,
    known: bool,
    above: usize,
    front: ArrayVec<u8, FRONT>,
    text: ArrayVec<u8, ROOM>,
}

impl Lines {
    /// Those of a moment. No row is known yet.
    pub fn of(moment: Moment) -> Self
        ensures moment { result.moment ≡ moment }
        ensures ready { (rows : List Row) → AreReady result rows }
    {
        Lines {
            moment,
            due: seconds_text(moment.due),
            held: ArrayVec::new(),
            known: false,
            above: 0,
            front: ArrayVec::new(),
            text: ArrayVec::new(),
        }
    }

    /// Writes the find line of a place, all at once but for a long one. Where memory is refused, nothing was written.
    pub fn put<W: Write>(
        &mut self,
        alloc: Global,
        sign: u8,
        rows: &[Row],
        place: Place,
        writer: &mut Watched<W>,
    ) -> Result<(), AllocError>
        requires { AreReady self.old rows.now }
        ensures gave { OnOk result (Gave W.contents writer.old writer.new
            (found_line sign self.old.moment.index self.old.moment.due self.old.moment.len rows.now place)) }
        ensures refused { OnErr result (writer.new ≡ writer.old) }
        ensures ready { AreReady self.new rows.now }
        ensures moment { self.new.moment ≡ self.old.moment }
    {
        let row = characters_below(rows, place.above);
        if !ends_within(row, place.before, self.moment.len) {
            return put_joined(alloc, sign, self.moment, rows, place, writer);
        }
        if !self.know(rows, place.above) {
            let count = unspaced_len(row);
            put_line(sign, self.moment, rows, place, &row[..count], writer);
            return Ok(());
        }
        put_spelled(
            sign,
            self.front.as_slice(),
            column_below(rows, place.above, place.before),
            self.text.as_slice(),
            &mut self.held,
            writer,
        );
        Ok(())
    }

    /// Spells the row below so many others, if it isn't the one that is known; says whether it is known then.
    fn know(&mut self, rows: &[Row], above: usize) -> bool
        requires { AreReady self.old rows.now }
        ensures ready { AreReady self.new rows.now }
        ensures front { result ≡ true → self.new.front.items ≡ front_spelled self.old.moment above }
        ensures text { result ≡ true → self.new.text.items ≡ row_spelled rows.now above }
        ensures moment { self.new.moment ≡ self.old.moment }
    {
        if self.known && self.above == above {
            return true;
        }
        let row = characters_below(rows, above);
        self.front.clear();
        self.text.clear();
        self.above = above;
        self.known = spell_front(self.moment.index, &self.due, above, &mut self.front)
            && spell_row(&row[..unspaced_len(row)], &mut self.text);
        self.known
    }
}

/// The text becomes what stands between the sign and the column in the lines of a row of a chunk that is due then; says
/// whether there was room.
fn spell_front(
    index: usize,
    due: &SecondsText,
    above: usize,
    text: &mut ArrayVec<u8, FRONT>,
) -> bool
    requires { text.old.items ≡ [] }
    ensures { result ≡ true → text.new.items ≡ (32 ∷ []) ++ decimal index ++ (32 ∷ []) ++ due.now ++ (32 ∷ [])
        ++ decimal (above + 1) ++ (32 ∷ []) }
{
    if above == usize::MAX || !add_word(Buffer::new().format(index).as_bytes(), text) {
        return false;
    }
    if !add_word(due.as_bytes(), text) {
        return false;
    }
    if !add_word(Buffer::new().format(above + 1).as_bytes(), text) {
        return false;
    }
    text.try_push(b' ').is_ok()
}

/// Puts a space and a word behind a text, if there is room.
fn add_word(word: &[u8], text: &mut ArrayVec<u8, FRONT>) -> bool
    ensures { result ≡ true → text.new.items ≡ text.old.items ++ (32 ∷ []) ++ word.now }
{
    if text.try_push(b' ').is_err() {
        return false;
    }
    text.try_extend_from_slice(word).is_ok()
}

/// The text becomes that of a row in UTF-8; says whether there was room.
fn spell_row(chars: &[char], text: &mut ArrayVec<u8, ROOM>) -> bool
    requires { text.old.items ≡ [] }
    ensures { result ≡ true → text.new.items ≡ flat_map encode_utf8 chars.now }
{
    // A row for which there is too little room is mostly a long one, which is seen at once.
    if chars.len() > ROOM {
        return false;
    }
    let mut at = 0;
    while at < chars.len() {
        let count = TOGETHER.min(chars.len() - at);
        if !spell_some(&chars[at..at + count], text) {
            return false;
        }
        at += count;
    }
    true
}

/// Puts some characters in UTF-8 behind a text, if there is room: at once, where each is a byte.
fn spell_some(chars: &[char], text: &mut ArrayVec<u8, ROOM>) -> bool
    requires { length chars.now ≤ TOGETHER }
    ensures { result ≡ true → text.new.items ≡ text.old.items ++ flat_map encode_utf8 chars.now }
{
    let mut bytes = [0; TOGETHER];
    let bytes = &mut bytes[..chars.len()];
    if spell(chars, bytes) {
        return text.try_extend_from_slice(bytes).is_ok();
    }
    spell_each(chars, text)
}

/// The same one by one.
fn spell_each(chars: &[char], text: &mut ArrayVec<u8, ROOM>) -> bool
    ensures { result ≡ true → text.new.items ≡ text.old.items ++ flat_map encode_utf8 chars.now }
{
    for character in chars {
        if !spell_one(*character, text) {
            return false;
        }
    }
    true
}

/// The same of one, which mostly is a byte.
#[inline]
fn spell_one(character: char, text: &mut ArrayVec<u8, ROOM>) -> bool
    ensures { result ≡ true → text.new.items ≡ text.old.items ++ encode_utf8 character }
{
    if (character as u32) < 128 {
        return text.try_push(character as u8).is_ok();
    }
    text.try_extend_from_slice(character.encode_utf8(&mut [0; 4]).as_bytes())
        .is_ok()
}

/// Whether so many characters behind so many others are all in a row.
fn ends_within(row: &[char], before: usize, len: usize) -> bool
    ensures { result ≡ true → before + len ≤ length row.now }
{
    before <= row.len() && len <= row.len() - before
}

/// The same of a text that goes on in further rows.
fn put_joined<W: Write>(
    alloc: Global,
    sign: u8,
    moment: Moment,
    rows: &[Row],
    place: Place,
    writer: &mut Watched<W>,
) -> Result<(), AllocError>
    ensures gave { OnOk result (Gave W.contents writer.old writer.new
        (found_line sign moment.index moment.due moment.len rows.now place)) }
    ensures refused { OnErr result (writer.new ≡ writer.old) }
{
    let text = found_rows(alloc, rows, place, moment.len)?;
    put_line(sign, moment, rows, place, text.as_slice(), writer);
    Ok(())
}

/// Writes the line of a place with these characters.
fn put_line<W: Write>(
    sign: u8,
    moment: Moment,
    rows: &[Row],
    place: Place,
    text: &[char],
    writer: &mut Watched<W>,
)
    ensures { Gave W.contents writer.old writer.new
        (heading sign moment.index moment.due (line_of place) (column_of rows.now place)
        ++ flat_map encode_utf8 text.now ++ 10 ∷ []) }
{
    gives_join::<W>();
    let column = column_below(rows, place.above, place.before);
    let due = seconds_text(moment.due);
    let mut held = ArrayVec::new();
    put_heading(sign, moment, &due, place.above, column, &mut held, writer);
    put_chars(text, &mut held, writer);
    put_byte(b'\n', &mut held, writer);
    let_out(&mut held, writer);
}

/// Writes the line of a column, with these bytes before it and behind it.
fn put_spelled<W: Write>(
    sign: u8,
    front: &[u8],
    column: u16,
    text: &[u8],
    held: &mut ArrayVec<u8, HELD>,
    writer: &mut Watched<W>,
)
    requires { held.old.items ≡ [] }
    ensures gave { Gave W.contents writer.old writer.new
        ((sign ∷ []) ++ front.now ++ decimal column ++ (32 ∷ []) ++ text.now ++ 10 ∷ []) }
    ensures held { held.new.items ≡ [] }
{
    gives_join::<W>();
    put_byte(sign, held, writer);
    put(front, held, writer);
    put_number(column as usize, held, writer);
    put_byte(b' ', held, writer);
    put(text, held, writer);
    put_byte(b'\n', held, writer);
    let_out(held, writer);
}

/// Writes what stands before the rows: the sign, the chunk's place, when it is due, and the place.
fn put_heading<W: Write>(
    sign: u8,
    moment: Moment,
    due: &SecondsText,
    above: usize,
    column: u16,
    held: &mut ArrayVec<u8, HELD>,
    writer: &mut Watched<W>,
)
    requires { due.now ≡ seconds_form moment.due }
    ensures { Wrote W.contents writer.old held.old.items writer.new held.new.items
        (heading sign moment.index moment.due (above + 1) column) }
{
    put(&[sign, b' '], held, writer);
    put_number(moment.index, held, writer);
    put_byte(b' ', held, writer);
    put(due.as_bytes(), held, writer);
    put_byte(b' ', held, writer);
    put_next(above, held, writer);
    put_byte(b' ', held, writer);
    put_number(column as usize, held, writer);
    put_byte(b' ', held, writer);
}

/// Writes the number behind one, which mostly is small.
fn put_next<W: Write>(number: usize, held: &mut ArrayVec<u8, HELD>, writer: &mut Watched<W>)
    ensures { Wrote W.contents writer.old held.old.items writer.new held.new.items
        (decimal (number + 1)) }
{
    if number < usize::MAX {
        put_number(number + 1, held, writer);
    } else {
        put(
            Buffer::new().format(number as u128 + 1).as_bytes(),
            held,
            writer,
        );
    }
}

/// The rows of a found text of so many characters, joined, without the spaces at their end.
fn found_rows(
    alloc: Global,
    rows: &[Row],
    place: Place,
    len: usize,
) -> Result<Vec<char>, AllocError>
    ensures { IfOk result (λ text. text.items ≡ found_rows len rows.now place) }
{
    let least = len as u128 + place.before as u128;
    let mut text = rows_reaching(alloc, rows, place.above, least)?;
    text.truncate(unspaced_len(text.as_slice()));
    Ok(text)
}

/// How many characters are left without the spaces at their end.
fn unspaced_len(chars: &[char]) -> usize
    ensures { result + suffix_len (λ c. c == 32) chars.now ≡ length chars.now }
{
    let mut len = unspaced_blocks(chars);
    while len > 0 && chars[len - 1] == ' ' {
        len -= 1;
    }
    len
}

/// The same up to whole blocks of spaces.
fn unspaced_blocks(chars: &[char]) -> usize
    ensures within { result ≤ length chars.now }
    ensures spaces { result + suffix_len (λ c. c == 32) chars.now
        ≡ length chars.now + suffix_len (λ c. c == 32) (take result chars.now) }
{
    let mut len = chars.len();
    while len >= TOGETHER && are_spaces(&chars[len - TOGETHER..len]) {
        len -= TOGETHER;
    }
    len
}

/// Whether all of some characters are spaces. It goes over all of them with no way out, since that is done many at a time.
#[inline(always)]
fn are_spaces(chars: &[char]) -> bool
    ensures { result ≡ true → (k : ℕ) → k < length chars.now → slice_index_or chars.now k 0 ≡ 32 }
{
    let mut all = true;
    for character in chars {
        all &= *character == ' ';
    }
    all
}

/// The rows below so many others that together have so many characters.
fn rows_reaching(
    alloc: Global,
    rows: &[Row],
    above: usize,
    least: u128,
) -> Result<Vec<char>, AllocError>
    ensures { IfOk result (λ text. text.items ≡ rows_reaching least (drop above rows.now)) }
{
    let mut text = Vec::new(alloc);
    let mut lacking = least;
    for at in above..rows.len() {
        let row = characters_below(rows, at);
        text.extend_from_slice(row)?;
        if lacking <= row.len() as u128 {
            return Ok(text);
        }
        lacking -= row.len() as u128;
    }
    Ok(text)
}

/// Writes characters in UTF-8.
fn put_chars<W: Write>(chars: &[char], held: &mut ArrayVec<u8, HELD>, writer: &mut Watched<W>)
    ensures { Wrote W.contents writer.old held.old.items writer.new held.new.items
        (flat_map encode_utf8 chars.now) }
{
    let mut at = 0;
    while at < chars.len() {
        let count = TOGETHER.min(chars.len() - at);
        put_some(&chars[at..at + count], held, writer);
        at += count;
    }
}

/// Writes some characters in UTF-8: at once, where each is a byte.
fn put_some<W: Write>(chars: &[char], held: &mut ArrayVec<u8, HELD>, writer: &mut Watched<W>)
    requires { length chars.now ≤ TOGETHER }
    ensures { Wrote W.contents writer.old held.old.items writer.new held.new.items
        (flat_map encode_utf8 chars.now) }
{
    let mut bytes = [0; TOGETHER];
    let bytes = &mut bytes[..chars.len()];
    if spell(chars, bytes) {
        put(bytes, held, writer);
    } else {
        put_each(chars, held, writer);
    }
}

/// The bytes become those of as many characters, if each is a byte in UTF-8; says whether each is. It goes over all of them
/// with no way out, since that is done many at a time.
fn spell(chars: &[char], bytes: &mut [u8]) -> bool
    requires { length bytes.old ≡ length chars.now }
    ensures { result ≡ true → bytes.new ≡ flat_map encode_utf8 chars.now }
{
    let mut all = true;
    for at in 0..chars.len() {
        let code = chars[at] as u32;
        all &= code < 128;
        bytes[at] = (code % 128) as u8;
    }
    all
}

/// Writes characters in UTF-8, one by one.
fn put_each<W: Write>(chars: &[char], held: &mut ArrayVec<u8, HELD>, writer: &mut Watched<W>)
    ensures { Wrote W.contents writer.old held.old.items writer.new held.new.items
        (flat_map encode_utf8 chars.now) }
{
    for character in chars {
        put(character.encode_utf8(&mut [0; 4]).as_bytes(), held, writer);
    }
}
