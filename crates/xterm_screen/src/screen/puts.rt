//! Characters that are shown, and marks that join them.

ghost use Rattle.std.specs.Prelude.{◌≡◌, ◌+◌, ◌≤◌, ◌<◌, false, length, not, take, true};
ghost use Rattle.xterm_screen.specs.Picture.{KeepsTold};
ghost use Rattle.xterm_screen.specs.Puts.{advanced, character_put, character_written, is_dropped, line_found, mark_joined, next_line, overhangs, room_made, run_shown, shown, width, wrap_taken};

use crate::screen::Screen;
use sheet::{Paper, Pen};

impl Screen {
    /// Shows a character of one or two columns at the cursor, after a pending wrap was taken. Without `autowrap`
    /// one of two columns is dropped at the last column: the answer is whether the character was shown.
    pub fn show(
        &mut self,
        character: char,
        wide: bool,
        rendition: Pen,
        autowrap: bool,
        inserting: bool,
    ) -> bool
        ensures answer { result
            ≡ not (is_dropped wide autowrap rendition.paper self.old.picture) }
        ensures picture { self.new.picture
            ≡ shown character wide rendition autowrap inserting self.old.picture }
        ensures told { KeepsTold self.old self.new }
    {
        self.take_wrap(rendition);
        self.find_line(wide, autowrap, rendition);
        if self.overhangs(wide) {
            return false;
        }
        self.put(character, wide, rendition, autowrap, inserting);
        true
    }

    /// Leaves what `show` of each character in turn leaves; without `inserting` it writes a line's part at once.
    pub fn show_run(&mut self, characters: &[u8], rendition: Pen, autowrap: bool, inserting: bool)
        ensures picture { self.new.picture
            ≡ run_shown characters.now rendition autowrap inserting self.old.picture }
        ensures told { KeepsTold self.old self.new }
    {
        if inserting {
            self.show_each(characters, rendition, autowrap);
        } else {
            self.show_parts(characters, rendition, autowrap);
        }
    }

    /// Shows characters of one column, as many as the cursor's line has room for, at least one, and says how many: it leaves
    /// what `show` of each in turn leaves. Inserted, one alone.
    pub fn show_letters(
        &mut self,
        letters: &[char],
        rendition: Pen,
        autowrap: bool,
        inserting: bool,
    ) -> usize
        requires { 0 < length letters.now }
        ensures some { 0 < result }
        ensures within { result ≤ length letters.now }
        ensures picture { self.new.picture
            ≡ run_shown (take result letters.now) rendition autowrap inserting self.old.picture }
        ensures told { KeepsTold self.old self.new }
    {
        if inserting {
            self.show(letters[0], false, rendition, autowrap, true);
            return 1;
        }
        self.take_wrap(rendition);
        let room = (self.columns - self.column) as usize + 1;
        let count = letters.len().min(room);
        self.shown
            .put_letters(self.line, self.column, &letters[..count], rendition);
        if count == room {
            self.column = self.columns;
            self.wrap = autowrap;
        } else {
            self.column += count as u16;
        }
        count
    }

    /// A character of width 0 joins the one at the cursor where the wrap is pending, else the one left of it; where
    /// there is none, or it has two marks, nothing.
    #[inline(always)]
    pub fn add_mark(&mut self, mark: char)
        ensures picture { self.new.picture ≡ mark_joined mark self.old.picture }
        ensures told { KeepsTold self.old self.new }
    {
        let at = if self.wrap {
            self.column
        } else {
            self.column - 1
        };
        if at > 0 {
            self.shown.add_mark(self.line, at, mark);
        }
    }

    /// Takes a pending wrap: column 1 of the next line.
    fn take_wrap(&mut self, rendition: Pen)
        ensures picture { self.new.picture ≡ wrap_taken rendition.paper self.old.picture }
        ensures told { KeepsTold self.old self.new }
    {
        if self.wrap {
            self.go_to_next_line(rendition.paper());
        }
    }

    /// Column 1 of the next line.
    fn go_to_next_line(&mut self, paper: Paper)
        ensures picture { self.new.picture ≡ next_line paper self.old.picture }
        ensures told { KeepsTold self.old self.new }
    {
        self.to_left();
        self.index(paper);
    }

    /// Whether there is no room for a character.
    fn overhangs(&self, wide: bool) -> bool
        ensures value { result ≡ overhangs wide self.now.picture }
        ensures room { result ≡ false
            → self.now.picture.column + width wide ≤ self.now.picture.columns + 1 }
    {
        wide && self.column == self.columns
    }

    /// With `autowrap` goes to the next line where there is no room for a character.
    fn find_line(&mut self, wide: bool, autowrap: bool, rendition: Pen)
        ensures picture { self.new.picture
            ≡ line_found wide autowrap rendition.paper self.old.picture }
        ensures told { KeepsTold self.old self.new }
    {
        if autowrap && self.overhangs(wide) {
            self.go_to_next_line(rendition.paper());
        }
    }

    /// Puts a character where there is room for it.
    fn put(&mut self, character: char, wide: bool, rendition: Pen, autowrap: bool, inserting: bool)
        requires { self.old.picture.column + width wide ≤ self.old.picture.columns + 1 }
        ensures picture { self.new.picture
            ≡ character_put character wide rendition autowrap inserting self.old.picture }
        ensures told { KeepsTold self.old self.new }
    {
        self.make_room(inserting, wide, rendition);
        self.write(character, wide, rendition);
        self.advance(if wide { 2 } else { 1 }, autowrap);
    }

    /// When inserting, as many blank cells as a character's width come in at the cursor.
    fn make_room(&mut self, inserting: bool, wide: bool, rendition: Pen)
        requires { self.old.picture.column + width wide ≤ self.old.picture.columns + 1 }
        ensures picture { self.new.picture ≡ room_made inserting wide rendition.paper self.old.picture }
        ensures told { KeepsTold self.old self.new }
    {
        if inserting {
            let width = if wide { 2 } else { 1 };
            self.shown
                .insert(self.line, width, self.column, rendition.paper());
        }
    }

    /// Writes a character at the cursor.
    fn write(&mut self, character: char, wide: bool, rendition: Pen)
        requires { self.old.picture.column + width wide ≤ self.old.picture.columns + 1 }
        ensures picture { self.new.picture
            ≡ character_written character wide rendition self.old.picture }
        ensures told { KeepsTold self.old self.new }
    {
        if wide {
            self.shown
                .put_wide(self.line, self.column, character, rendition);
        } else {
            self.shown
                .put_narrow(self.line, self.column, character, rendition);
        }
    }

    /// Goes right by a width; past the last column it stays there, and the wrap becomes pending with `autowrap`.
    fn advance(&mut self, by: u16, autowrap: bool)
        requires { by ≤ 2 }
        ensures picture { self.new.picture ≡ advanced by autowrap self.old.picture }
        ensures told { KeepsTold self.old self.new }
    {
        if self.columns < self.column + by {
            self.column = self.columns;
            self.wrap = autowrap;
        } else {
            self.column += by;
        }
    }

    /// Shows characters one after another, each inserted.
    fn show_each(&mut self, characters: &[u8], rendition: Pen, autowrap: bool)
        ensures picture { self.new.picture
            ≡ run_shown characters.now rendition autowrap true self.old.picture }
        ensures told { KeepsTold self.old self.new }
    {
        for i in 0..characters.len() {
            let character = char::from(characters[i]);
            self.show(character, false, rendition, autowrap, true);
        }
    }

    /// Shows a run part by part, each up to the last column.
    fn show_parts(&mut self, characters: &[u8], rendition: Pen, autowrap: bool)
        ensures picture { self.new.picture
            ≡ run_shown characters.now rendition autowrap false self.old.picture }
        ensures told { KeepsTold self.old self.new }
    {
        let mut rest = characters;
        while !rest.is_empty() {
            self.take_wrap(rendition);
            let taken = self.show_part(rest, rendition, autowrap);
            rest = &rest[taken..];
        }
    }

    /// Shows the characters that the cursor's line has room for, at least one, and says how many.
    fn show_part(&mut self, characters: &[u8], rendition: Pen, autowrap: bool) -> usize
        requires some { 0 < length characters.now }
        requires wrap { self.old.picture.wrap ≡ false }
        ensures some { 0 < result }
        ensures within { result ≤ length characters.now }
        ensures picture { self.new.picture
            ≡ run_shown (take result characters.now) rendition autowrap false self.old.picture }
        ensures told { KeepsTold self.old self.new }
    {
        let room = (self.columns - self.column) as usize + 1;
        let taken = characters.len().min(room);
        self.shown
            .put_run(self.line, self.column, &characters[..taken], rendition);
        if taken == room {
            self.column = self.columns;
            self.wrap = autowrap;
        } else {
            self.column += taken as u16;
        }
        taken
    }
}
