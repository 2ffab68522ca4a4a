//! Characters that are put.
ghost use Rattle.std.specs.Prelude.{◌≡◌, ◌<◌, ◌≤◌, [], length, map, take, true};
ghost use Rattle.std.specs.List.{list_all};
ghost use Rattle.xterm_term.specs.Ahead.{is_narrow};
ghost use Rattle.xterm_term.specs.Console.{console_of};
ghost use Rattle.xterm_term.specs.Puts.{put, put_by_width, columns_of, all_put, shown_with, character_for, put_times, last_repeated};
ghost use Rattle.xterm_term.specs.Sets.{character_of, set_in_use};
ghost use Rattle.vt_parser.specs.Syntax.{is_graphic};
ghost use Rattle.xterm_screen.specs.Picture.{KeepsTold};

use crate::CharacterSet;
use crate::console::Console;
use crate::terminal::is_narrow;
use arrayvec::ArrayVec;
use characters::laws::widths_are_small;
use characters::width;

// How many characters of one column are put at once, at most.
const LETTERS: usize = 64;

/// Room for those.
type Letters = ArrayVec<char, LETTERS>;

impl Console {
    /// Puts a character.
    #[tactic(auto, unfolding(crate::specs::Puts::put))]
    pub(crate) fn put(&mut self, character: char)
        ensures done { console_of self.new ≡ put character (console_of self.old) }
        ensures told { KeepsTold self.old.screen self.new.screen }
    {
        match character {
            '\u{80}'..='\u{9F}' => self.last = None,
            _ => self.put_by_width(width(character), character),
        }
    }

    /// Puts a character of so many columns.
    #[inline(always)]
    pub(crate) fn put_known(&mut self, columns: Option<u8>, character: char)
        requires { columns ≡ columns_of character }
        ensures done { console_of self.new ≡ put character (console_of self.old) }
        ensures told { KeepsTold self.old.screen self.new.screen }
    {
        match columns {
            Some(width) => self.put_by_width(width, character),
            None => self.last = None,
        }
    }

    #[inline(always)]
    fn put_by_width(&mut self, width: u8, character: char)
        ensures done { console_of self.new ≡ put_by_width width character (console_of self.old) }
        ensures told { KeepsTold self.old.screen self.new.screen }
    {
        match width {
            0 => self.screen.add_mark(character),
            1 => self.show(false, character),
            2 => self.show(true, character),
            _ => self.show(false, character),
        }
    }

    // Shows a character of one or two columns.
    pub(crate) fn show(&mut self, wide: bool, character: char)
        ensures done { console_of self.new ≡ shown_with wide character (console_of self.old) }
        ensures told { KeepsTold self.old.screen self.new.screen }
    {
        let shown = self.screen.show(
            character,
            wide,
            self.rendition,
            self.modes.autowrap,
            self.modes.insert,
        );
        self.last = if shown { Some(character) } else { None };
    }

    #[inline]
    fn set_in_use(&self) -> CharacterSet
        ensures { result ≡ set_in_use self.now.sets }
    {
        self.sets.in_use()
    }

    /// Puts the character of a byte 32 to 126 in the set in use.
    pub(crate) fn put_byte(&mut self, byte: u8)
        requires { byte ≤ 126 }
        ensures done { console_of self.new
            ≡ put (character_for (console_of self.old) byte) (console_of self.old) }
        ensures told { KeepsTold self.old.screen self.new.screen }
    {
        let set = self.set_in_use();
        self.put(set.character(byte));
    }

    /// Puts the characters of bytes 32 to 126, one after another.
    pub(crate) fn put_bytes(&mut self, bytes: &[u8])
        requires { list_all is_graphic bytes.now ≡ true }
        ensures done { console_of self.new
            ≡ all_put (map (character_for (console_of self.old)) bytes.now) (console_of self.old) }
        ensures told { KeepsTold self.old.screen self.new.screen }
    {
        widths_are_small();
        match self.set_in_use() {
            CharacterSet::Ascii => self.put_ascii(bytes),
            set => self.put_each(set, bytes),
        }
    }

    // Those of ASCII go to the screen at once.
    fn put_ascii(&mut self, bytes: &[u8])
        requires { list_all is_graphic bytes.now ≡ true }
        ensures done { console_of self.new ≡ all_put bytes.now (console_of self.old) }
        ensures told { KeepsTold self.old.screen self.new.screen }
    {
        widths_are_small();
        if bytes.is_empty() {
            return;
        }
        self.screen.show_run(
            bytes,
            self.rendition,
            self.modes.autowrap,
            self.modes.insert,
        );
        self.last = Some(bytes[bytes.len() - 1] as char);
    }

    // Those of the other sets are spelled some at a time.
    fn put_each(&mut self, set: CharacterSet, bytes: &[u8])
        requires { list_all is_graphic bytes.now ≡ true }
        ensures done { console_of self.new
            ≡ all_put (map (character_of set) bytes.now) (console_of self.old) }
        ensures told { KeepsTold self.old.screen self.new.screen }
    {
        let mut rest = bytes;
        while !rest.is_empty() {
            let taken = self.put_some(set, rest);
            rest = &rest[taken..];
        }
    }

    // Puts the characters of some of the bytes, at least one, and says of how many. As many as are of one column go at once,
    // but one alone, or one that is inserted.
    fn put_some(&mut self, set: CharacterSet, bytes: &[u8]) -> usize
        requires some { 0 < length bytes.now }
        requires graphic { list_all is_graphic bytes.now ≡ true }
        ensures some { 0 < result }
        ensures within { result ≤ length bytes.now }
        ensures done { console_of self.new
            ≡ all_put (map (character_of set) (take result bytes.now)) (console_of self.old) }
        ensures told { KeepsTold self.old.screen self.new.screen }
    {
        if bytes.len() > 1 && !self.modes.insert {
            let mut letters = Letters::new();
            spell(set, bytes, &mut letters);
            if !letters.is_empty() {
                self.put_letters(letters.as_slice());
                return letters.len();
            }
        }
        self.put(set.character(bytes[0]));
        1
    }

    /// Puts characters of one column, one after another.
    pub(crate) fn put_letters(&mut self, letters: &[char])
        requires { list_all is_narrow letters.now ≡ true }
        ensures done { console_of self.new ≡ all_put letters.now (console_of self.old) }
        ensures told { KeepsTold self.old.screen self.new.screen }
    {
        let mut rest = letters;
        while !rest.is_empty() {
            let taken = self.put_part(rest);
            rest = &rest[taken..];
        }
    }

    // Those that the cursor's line has room for go to the screen at once. Says how many.
    fn put_part(&mut self, letters: &[char]) -> usize
        requires some { 0 < length letters.now }
        requires narrow { list_all is_narrow letters.now ≡ true }
        ensures some { 0 < result }
        ensures within { result ≤ length letters.now }
        ensures done { console_of self.new ≡ all_put (take result letters.now) (console_of self.old) }
        ensures told { KeepsTold self.old.screen self.new.screen }
    {
        let shown = self.screen.show_letters(
            letters,
            self.rendition,
            self.modes.autowrap,
            self.modes.insert,
        );
        self.last = Some(letters[shown - 1]);
        shown
    }

    /// REP.
    pub(crate) fn repeat_last(&mut self, n: u16)
        ensures done { console_of self.new ≡ last_repeated n (console_of self.old) }
        ensures told { KeepsTold self.old.screen self.new.screen }
    {
        if let Some(character) = self.last {
            self.put_times(n, character);
        }
    }

    fn put_times(&mut self, n: u16, character: char)
        ensures done { console_of self.new ≡ put_times n character (console_of self.old) }
        ensures told { KeepsTold self.old.screen self.new.screen }
    {
        let columns = columns_of(character);
        for step in 0..n {
            self.put_known(columns, character);
        }
    }
}

/// The columns of a character that is put; none where it puts nothing.
#[inline(always)]
pub(crate) fn columns_of(character: char) -> Option<u8>
    ensures { result ≡ columns_of character }
{
    match character {
        '\u{80}'..='\u{9F}' => None,
        _ => Some(width(character)),
    }
}

// Writes down the characters of these bytes, as many of the first ones as are of one column and have room.
fn spell(set: CharacterSet, bytes: &[u8], letters: &mut Letters)
    requires graphic { list_all is_graphic bytes.now ≡ true }
    requires none { letters.old.items ≡ [] }
    ensures within { length letters.new.items ≤ length bytes.now }
    ensures spelled { letters.new.items
        ≡ map (character_of set) (take (length letters.new.items) bytes.now) }
    ensures narrow { list_all is_narrow letters.new.items ≡ true }
{
    for &byte in bytes {
        let character = set.character(byte);
        if letters.is_full() || !is_narrow(character) {
            return;
        }
        letters.push(character);
    }
}
