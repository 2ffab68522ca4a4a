//! What bytes will show, told before they are played.
ghost use Rattle.std.specs.Prelude.{◌≡◌, ℕ, ◌≤◌, [], IfSome, length, take, false, true};
ghost use Rattle.vt_parser.specs.Syntax.{is_within};
ghost use Rattle.xterm_term.specs.Ahead.{MovesUp, WritesOn, WritesStyled};

use crate::below::laws_below;
use crate::sets::CharacterSet;
use crate::terminal::Terminal;
use characters::character_at;
use characters::laws::widths_are_small;
use vt_parser::laws::control_is_given;
use vt_parser::{ParserState, waiting_run};

// A line feed: LF, VT or FF.
#[inline]
pub fn is_line_feed(byte: u8) -> bool
    ensures { result ≡ is_within 10 12 byte }
{
    matches!(byte, 10..=12)
}

impl Terminal {
    ghost use Rattle.xterm_term.specs.Seen.{Shows};
    ghost use Rattle.xterm_term.specs.Term.{Term, play};

    /// Whether graphic characters of ASCII that leave the cursor on its line come to stand there as they are: nothing is
    /// pending, not the wrap either, and none is inserted.
    pub fn writes_on(&self) -> bool
        ensures { result ≡ true → (x : Term) → Shows self.now x → WritesOn x }
    {
        laws_below();
        widths_are_small();
        self.takes_letters() && matches!(self.console.sets.in_use(), CharacterSet::Ascii)
    }

    /// The set in use, where characters of one column that leave the cursor on its line come to stand there as they are, also
    /// with sequences between them that select renditions: nothing is pending, not the wrap either, and none is inserted.
    pub fn writes_in(&self) -> Option<CharacterSet>
        ensures { IfSome result (λ set. (x : Term) → Shows self.now x → WritesStyled set x) }
    {
        laws_below();
        if !self.takes_letters() {
            return None;
        }
        Some(self.console.sets.in_use())
    }

    // Whether nothing is pending, not the wrap either, and no character is inserted.
    #[inline]
    fn takes_letters(&self) -> bool
        ensures title { result ≡ true → self.now.console.title ≡ false }
        ensures state { result ≡ true → self.now.state ≡ ParserState.Ground }
        ensures character { result ≡ true → self.now.character ≡ [] }
        ensures insert { result ≡ true → self.now.console.modes.insert ≡ false }
        ensures wrap { result ≡ true → self.now.console.picture.wrap ≡ false }
    {
        self.is_idle(b' ') && !self.console.modes.insert && !self.console.screen.wrap()
    }

    /// Whether a byte is a line feed at the last line that moves all lines up by one: nothing is pending, and the margins are
    /// the first line and the last.
    #[inline]
    pub fn moves_up(&self, byte: u8) -> bool
        ensures { result ≡ true → (x : Term) → Shows self.now x → MovesUp x byte }
    {
        if !is_line_feed(byte) {
            return false;
        }
        laws_below();
        control_is_given();
        self.is_idle(byte) && self.is_at_foot()
    }

    // Whether the margins are the first line and the last, and the cursor is on the last.
    #[inline]
    fn is_at_foot(&self) -> bool
        ensures top { result ≡ true → self.now.console.picture.top ≡ 1 }
        ensures bottom { result ≡ true
            → self.now.console.picture.bottom ≡ self.now.console.picture.lines }
        ensures line { result ≡ true
            → self.now.console.picture.line ≡ self.now.console.picture.lines }
    {
        let screen = &self.console.screen;
        let lines = screen.lines();
        let (top, bottom) = screen.margins();
        top == 1 && bottom == lines && screen.cursor().0 == lines
    }

    /// How many of the bytes at least show nothing: those of a sequence or a character without its last one.
    #[inline(always)]
    pub fn unshown(&self, bytes: &[u8]) -> usize
        ensures shows { (x : Term) → Shows self.now x → (count : ℕ) → count ≤ result
            → (play x (take count bytes.now)).console.picture ≡ x.console.picture }
        ensures within { result ≤ length bytes.now }
    {
        laws_below();
        if !bytes.is_empty() && self.is_idle(bytes[0]) {
            let Some((_, len)) = character_at(bytes) else {
                return 0;
            };
            return len - 1;
        }
        if self.console.title || self.decoder.is_pending() {
            return 0;
        }
        waiting_run(self.parser.state(), bytes)
    }
}
