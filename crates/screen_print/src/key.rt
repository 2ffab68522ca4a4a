//! Some characters side by side of a text: while none of a screen's rows has them, the text stands nowhere.

ghost use Rattle.std.specs.Prelude.{◌≡◌, ◌+◌, ◌++◌, ◌-◌, ◌<◌, ◌≤◌, IfSome, List, ℕ, drop, false, length, nat_eq, slice_index_or, true};
ghost use Rattle.std.specs.List.{starts_with};
ghost use Rattle.screen_rows.specs.RowText.{characters, row_text};
ghost use Rattle.screen_print.specs.FindLines.{begins};
ghost use Rattle.vt_screen.specs.Cells.{row_at};
ghost use Rattle.screen_print.specs.Skim.{AreKeysOf, IsKey, IsEnding, IsKeyOf, IsKeyed, IsLacked, IsMute, IsPart, IsPlain, IsRunning, RowLacks, ScreenLacks, half, is_asking, is_text};

use crate::quiet::{agrees, may_begin, may_begin_between, may_start_in};
use crate::start::Start;
use screen_rows::{cells_to_margin, character};
use vt_screen::laws::screens_are_sound;
use vt_screen::limits::{LINES, WIDE_COLUMNS};
use vt_screen::{Cell, Row};
use vt_term::Terminal;

/// How many characters a key has at most: those of the shortest row.
const MOST: usize = 40;

/// How many bytes there are.
const BYTES: usize = 256;

/// The last two characters of a key, which ASCII has behind the space.
#[derive(Clone, Copy)]
pub(crate) struct Ending {
    pub(crate) near: u8,
    pub(crate) last: u8,
}

/// Some characters side by side of a text, how they begin and end, which bytes may show one of them or begin ESC #, which do or
/// are no text, and which do or end a sequence to which there is a reply.
#[derive(Drop)]
pub(crate) struct Key<'a> {
    chars: &'a [char],
    start: Start,
    pub(crate) ending: Option<Ending>,
    marks: [bool; BYTES],
    stops: [bool; BYTES],
    pauses: [bool; BYTES],
}

/// The keys of a text, as far as it has them: the longest word, the same without its last character, the last of the longest
/// words, and two neighbours.
#[derive(Drop)]
pub(crate) struct Keys<'a> {
    word: Option<Key<'a>>,
    front: Option<Key<'a>>,
    other: Option<Key<'a>>,
    pair: Option<Key<'a>>,
}

impl<'a> Keys<'a> {
    /// The keys of a text.
    pub(crate) fn of(text: &'a [char]) -> Self
        ensures { AreKeysOf text.now result }
    {
        Keys {
            word: Key::of(text, word_of(text, false, 0)),
            front: Key::of(text, word_of(text, false, 1)),
            other: Key::of(text, word_of(text, true, 0)),
            pair: Key::of(text, pair_of(text)),
        }
    }

    /// A key that the screen of a terminal lacks.
    pub(crate) fn lacked_by(&self, text: &[char], terminal: &Terminal) -> Option<&Key<'a>>
        requires { AreKeysOf text.now self.now }
        ensures { IfSome result (λ key. IsLacked text.now key.now terminal.now.console.picture) }
    {
        if let Some(key) = lacked(text, &self.word, terminal) {
            return Some(key);
        }
        if let Some(key) = lacked(text, &self.front, terminal) {
            return Some(key);
        }
        if let Some(key) = lacked(text, &self.other, terminal) {
            return Some(key);
        }
        lacked(text, &self.pair, terminal)
    }
}

/// A key, if there is one and the screen of a terminal lacks it.
fn lacked<'k, 'a>(
    text: &[char],
    key: &'k Option<Key<'a>>,
    terminal: &Terminal,
) -> Option<&'k Key<'a>>
    requires { IsKeyOf text.now key.now }
    ensures { IfSome result (λ key. IsLacked text.now key.now terminal.now.console.picture) }
{
    let _text = text;
    match key {
        Some(key) if key.lacked_by(terminal) => Some(key),
        _ => None,
    }
}

impl<'a> Key<'a> {
    /// The key that a part of a text is, if it is one.
    fn of(text: &[char], chars: &'a [char]) -> Option<Self>
        requires { IsPart chars.now text.now }
        ensures keyed { IfSome result (λ key. IsKeyed key) }
        ensures part { IfSome result (λ key. IsPart key.chars.now text.now) }
    {
        let _text = text;
        if !is_key(chars) {
            return None;
        }
        let marks = marks_of(chars);
        Some(Key {
            chars,
            start: Start::of(chars),
            ending: ending_of(chars),
            stops: stops_of(chars, &marks),
            pauses: pauses_of(chars, &marks),
            marks,
        })
    }

    /// Whether a byte may show one of the characters, or begin ESC #.
    pub(crate) fn is_marked(&self, byte: u8) -> bool
        requires { IsKeyed self.now }
        ensures { result ≡ false → IsPlain self.now.chars.now byte }
    {
        self.marks[byte as usize]
    }

    /// Whether a byte may do so, or is no text.
    pub(crate) fn stops_at(&self, byte: u8) -> bool
        requires { IsKeyed self.now }
        ensures { result ≡ false → IsRunning self.now.chars.now byte }
    {
        self.stops[byte as usize]
    }

    /// Whether a byte may show one of the characters, begin ESC #, or end a sequence to which there is a reply.
    pub(crate) fn pauses_at(&self, byte: u8) -> bool
        requires { IsKeyed self.now }
        ensures { result ≡ false → IsMute self.now.chars.now byte }
    {
        self.pauses[byte as usize]
    }

    /// Whether none of a screen's rows has the key.
    pub(crate) fn lacked_by(&self, terminal: &Terminal) -> bool
        requires { IsKeyed self.now }
        ensures { result ≡ true → ScreenLacks self.now.chars.now terminal.now.console.picture }
    {
        let screen = terminal.screen();
        screens_are_sound(screen);
        for line in 1..LINES + 1 {
            if !self.lacked_in(screen.is_wide(), screen.row(line)) {
                return false;
            }
        }
        true
    }

    /// Whether the row of the cursor hasn't it.
    pub(crate) fn lacked_at_cursor(&self, terminal: &Terminal) -> bool
        requires { IsKeyed self.now }
        ensures { result ≡ true → let p = terminal.now.console.picture in
            RowLacks self.now.chars.now p.wide (row_at p.rows p.line) }
    {
        let screen = terminal.screen();
        let (line, _) = screen.cursor();
        self.lacked_in(screen.is_wide(), screen.row(line))
    }

    /// Whether half of it may stand in a row: its first three characters, or, where that is more than half, fewer at the end.
    fn may_begin_in(&self, wide: bool, row: &Row) -> bool
        requires keyed { IsKeyed self.now }
        requires whole { length row.now.cells ≡ WIDE_COLUMNS }
        ensures { result ≡ false → (rest : List ℕ) (column : ℕ) → 0 < column
            → column - 1 + half self.now.chars.now ≤ length (row_text wide row.now)
            → begins self.now.chars.now (row_text wide row.now ++ rest) column ≡ false }
    {
        let _cells = cells_to_margin(wide, row);
        if self.chars.len() <= SHORT {
            return may_begin(&self.start, wide, row);
        }
        may_start_in(&self.start, wide, row)
    }

    /// Whether a row hasn't it.
    fn lacked_in(&self, wide: bool, row: &Row) -> bool
        requires keyed { IsKeyed self.now }
        requires whole { length row.now.cells ≡ WIDE_COLUMNS }
        ensures { result ≡ true → RowLacks self.now.chars.now wide row.now }
    {
        let cells = cells_to_margin(wide, row);
        if begins_with_rest(self.chars, cells) {
            return false;
        }
        if self.may_begin_in(wide, row) {
            let end = cells.len() + 1 - (self.chars.len() + 1) / 2;
            return !may_begin_between(self.chars, cells, 0, end);
        }
        true
    }
}

/// In keys that are longer three characters are half or less.
const SHORT: usize = 4;

/// Whether a row begins with what is behind less than half of a key.
fn begins_with_rest(chars: &[char], cells: &[Cell]) -> bool
    requires { length chars.now ≤ MOST }
    ensures { result ≡ false → (n : ℕ) → 1 ≤ n → n < half chars.now
        → starts_with nat_eq (characters cells.now) (drop n chars.now) ≡ false }
{
    for at in 1..(chars.len() + 1) / 2 {
        if agrees(&chars[at..], cells) {
            return true;
        }
    }
    false
}

/// The two neighbours in a text that are the rarest in texts and in programs, as it seems, without a space among them.
fn pair_of(text: &[char]) -> &[char]
    ensures { IsPart result.now text.now }
{
    if text.len() < 2 {
        return text;
    }
    let mut best = 0;
    for at in 0..text.len() - 1 {
        if pair_weight(text, at) < pair_weight(text, best) {
            best = at;
        }
    }
    if text[best] == ' ' {
        return &text[best + 1..best + 2];
    }
    if text[best + 1] == ' ' {
        return &text[best..best + 1];
    }
    &text[best..best + 2]
}

/// The longest part without a space, the first or the last one, without so many of its last characters, and not more than a
/// key has.
fn word_of(text: &[char], last: bool, cut: usize) -> &[char]
    ensures { IsPart result.now text.now }
{
    let mut from = 0;
    let mut end = 0;
    let mut begun = 0;
    for at in 0..text.len() {
        if text[at] == ' ' {
            begun = at + 1;
        } else if is_longer(at + 1 - begun, end - from, last) {
            from = begun;
            end = at + 1;
        }
    }
    end -= cut.min(end - from);
    &text[from..end.min(from + MOST)]
}

/// Whether a length is longer than another, or no shorter.
fn is_longer(len: usize, other: usize, last: bool) -> bool {
    len > other || last && len == other
}

/// How common a character and the one behind it are together.
fn pair_weight(text: &[char], at: usize) -> u32
    requires { at + 1 < length text.now }
{
    weight(text[at]) + weight(text[at + 1])
}

/// How common a character is. A space weighs more than any two others.
fn weight(character: char) -> u32
    ensures { result ≤ 1000 }
{
    match character {
        ' ' => 1000,
        'e' | 't' | 'a' | 'o' | 'i' | 'n' | 's' | 'r' => 40,
        'h' | 'l' | 'd' | 'c' | 'u' | 'm' | '0' | '1' => 20,
        'f' | 'p' | 'g' | 'w' | 'y' | 'b' | 'v' | 'k' | '2'..='9' => 8,
        _ => 3,
    }
}

/// Whether characters are a key: there are some, and none is a space or the error character.
fn is_key(chars: &[char]) -> bool
    ensures { result ≡ true → IsKey chars.now }
{
    if chars.is_empty() || chars.len() > MOST {
        return false;
    }
    !chars.contains(&' ') && !chars.contains(&'\u{2592}')
}

/// The last two characters, where ASCII has both behind the space.
fn ending_of(chars: &[char]) -> Option<Ending>
    ensures { IfSome result (IsEnding chars.now) }
{
    if chars.len() < 2 {
        return None;
    }
    let near = chars[chars.len() - 2];
    let last = chars[chars.len() - 1];
    if near <= ' ' || near > '~' || last <= ' ' || last > '~' {
        return None;
    }
    Some(Ending {
        near: near as u8,
        last: last as u8,
    })
}

/// Which bytes aren't plain.
fn marks_of(chars: &[char]) -> [bool; BYTES]
    ensures { (byte : ℕ) → byte < BYTES → slice_index_or result byte false ≡ false
        → IsPlain chars.now byte }
{
    let mut marks = [true; BYTES];
    for byte in 0..BYTES {
        marks[byte] = may_show(chars, byte as u8);
    }
    marks
}

/// Which aren't plain text.
fn stops_of(chars: &[char], marks: &[bool; BYTES]) -> [bool; BYTES]
    requires { (byte : ℕ) → byte < BYTES → slice_index_or marks.now byte false ≡ false
        → IsPlain chars.now byte }
    ensures { (byte : ℕ) → byte < BYTES → slice_index_or result byte false ≡ false
        → IsRunning chars.now byte }
{
    let mut stops = [true; BYTES];
    for byte in 0..BYTES {
        stops[byte] = may_stop(chars, byte as u8, marks[byte]);
    }
    stops
}

/// Whether a byte isn't plain text.
fn may_stop(chars: &[char], byte: u8, marked: bool) -> bool
    requires { marked ≡ false → IsPlain chars.now byte }
    ensures { result ≡ false → IsRunning chars.now byte }
{
    let _chars = chars;
    !is_text(byte) || marked
}

/// Which aren't mute.
fn pauses_of(chars: &[char], marks: &[bool; BYTES]) -> [bool; BYTES]
    requires { (byte : ℕ) → byte < BYTES → slice_index_or marks.now byte false ≡ false
        → IsPlain chars.now byte }
    ensures { (byte : ℕ) → byte < BYTES → slice_index_or result byte false ≡ false
        → IsMute chars.now byte }
{
    let mut pauses = [true; BYTES];
    for byte in 0..BYTES {
        pauses[byte] = may_pause(chars, byte as u8, marks[byte]);
    }
    pauses
}

/// Whether a byte isn't mute.
fn may_pause(chars: &[char], byte: u8, marked: bool) -> bool
    requires { marked ≡ false → IsPlain chars.now byte }
    ensures { result ≡ false → IsMute chars.now byte }
{
    let _chars = chars;
    is_asking(byte) || marked
}

/// Whether a byte ends a sequence to which there is a reply.
fn is_asking(byte: u8) -> bool
    ensures { result ≡ is_asking byte }
{
    byte == b'Z' || byte == b'c' || byte == b'n' || byte == b'x'
}

/// Whether a byte may show one of these characters, in any of the sets, or begin ESC #.
fn may_show(chars: &[char], byte: u8) -> bool
    ensures { result ≡ false → IsPlain chars.now byte }
{
    if byte == b'#' || chars.contains(&character(byte)) {
        return true;
    }
    byte >= 95 && chars.contains(&character(byte - 95))
}

/// Whether a byte is a graphic character, or a control from BS to SI.
pub(crate) fn is_text(byte: u8) -> bool
    ensures { result ≡ is_text byte }
{
    32 <= byte && byte <= 126 || 8 <= byte && byte <= 15
}
