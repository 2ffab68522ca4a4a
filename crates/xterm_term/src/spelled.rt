//! Characters of several bytes that are put one behind the other. The columns of each are looked up once.
ghost use Rattle.std.specs.Prelude.{◌≡◌, ℕ, ◌≤◌, List, ◌++◌, length, take, true};
ghost use Rattle.std.specs.List.{list_all};
ghost use Rattle.xterm_term.specs.Ahead.{is_narrow};
ghost use Rattle.xterm_term.specs.Console.{console_of};
ghost use Rattle.xterm_term.specs.Puts.{put};
ghost use Rattle.xterm_term.specs.Reading.{SpellsEach};
ghost use Rattle.xterm_term.specs.Spelled.{PutsSpelled};
ghost use Rattle.xterm_screen.specs.Picture.{KeepsTold};

use crate::console::Console;
use crate::puts::columns_of;
use crate::terminal::is_narrow;
use arrayvec::ArrayVec;
use characters::{begins, character_at};

// How many characters of one column are put at once, at most. They are few: the list is cleared for each run.
const LETTERS: usize = 16;

type Letters = ArrayVec<char, LETTERS>;

impl Console {
    /// Puts a character, and those of several bytes that the rest begins with. Says how many bytes of the rest they are.
    #[inline(always)]
    pub(crate) fn put_spelled(&mut self, first: char, rest: &[u8]) -> usize
        ensures within { result ≤ length rest.now }
        ensures done { PutsSpelled (take result rest.now) (put first (console_of self.old)) (console_of self.new) }
        ensures told { KeepsTold self.old.screen self.new.screen }
    {
        if rest.is_empty() || !begins(rest[0]) {
            self.put(first);
            return 0;
        }
        self.put_several(first, rest)
    }

    // The same where others may come behind the first.
    #[inline(never)]
    fn put_several(&mut self, first: char, rest: &[u8]) -> usize
        ensures within { result ≤ length rest.now }
        ensures done { PutsSpelled (take result rest.now) (put first (console_of self.old)) (console_of self.new) }
        ensures told { KeepsTold self.old.screen self.new.screen }
    {
        let mut character = first;
        let mut taken = 0;
        loop {
            taken += self.put_some_spelled(character, &rest[taken..]);
            match character_at(&rest[taken..]) {
                Some((next, len)) => {
                    character = next;
                    taken += len;
                }
                None => return taken,
            }
        }
    }

    // Puts a character, and where it is of one column and none is inserted some of those that the rest begins with.
    #[inline(always)]
    fn put_some_spelled(&mut self, first: char, rest: &[u8]) -> usize
        ensures within { result ≤ length rest.now }
        ensures done { PutsSpelled (take result rest.now) (put first (console_of self.old)) (console_of self.new) }
        ensures told { KeepsTold self.old.screen self.new.screen }
    {
        let columns = columns_of(first);
        if columns == Some(1) && !self.modes.insert {
            return self.put_narrow(first, rest);
        }
        self.put_known(columns, first);
        0
    }

    // Puts a character of one column, where none is inserted, and some of those of several bytes that the rest begins with.
    #[inline(never)]
    fn put_narrow(&mut self, first: char, rest: &[u8]) -> usize
        requires { is_narrow first ≡ true }
        ensures within { result ≤ length rest.now }
        ensures done { PutsSpelled (take result rest.now) (put first (console_of self.old)) (console_of self.new) }
        ensures told { KeepsTold self.old.screen self.new.screen }
    {
        let Some((second, len)) = character_at(rest) else {
            self.put_known(Some(1), first);
            return 0;
        };
        let columns = columns_of(second);
        if columns == Some(1) {
            return len + self.put_run(first, second, &rest[len..]);
        }
        self.put_known(Some(1), first);
        self.put_known(columns, second);
        len
    }

    // Puts two characters of one column, and some of one column that the rest begins with: they go to the screen at once.
    fn put_run(&mut self, first: char, second: char, rest: &[u8]) -> usize
        requires first { is_narrow first ≡ true }
        requires second { is_narrow second ≡ true }
        ensures within { result ≤ length rest.now }
        ensures done { PutsSpelled (take result rest.now) (put second (put first (console_of self.old)))
            (console_of self.new) }
        ensures told { KeepsTold self.old.screen self.new.screen }
    {
        let mut letters = Letters::new();
        letters.push(first);
        letters.push(second);
        let taken = gather(rest, &mut letters);
        self.put_letters(letters.as_slice());
        taken
    }
}

// Writes down characters of one column that the bytes begin with, as many as have room. Says how many bytes they are.
fn gather(bytes: &[u8], letters: &mut Letters) -> usize
    requires { list_all is_narrow letters.old.items ≡ true }
    ensures within { result ≤ length bytes.now }
    ensures narrow { list_all is_narrow letters.new.items ≡ true }
    ensures gathered { (more : List ℕ) × SpellsEach (take result bytes.now) more
        × (letters.new.items ≡ letters.old.items ++ more) }
{
    let mut taken = 0;
    while !letters.is_full() {
        match character_at(&bytes[taken..]) {
            Some((next, len)) if is_narrow(next) => {
                letters.push(next);
                taken += len;
            }
            _ => break,
        }
    }
    taken
}
