//! Lines that will move, told before they do.
ghost use Rattle.std.specs.Prelude.{◌≡◌, ◌≤◌, ◌<◌, [], ◌∷◌, length, take, false, true, if◌then◌else◌, IfSome};
ghost use Rattle.vt_parser.specs.Forms.{bracket};
ghost use Rattle.vt_parser.specs.Syntax.{escape, is_within};
ghost use Rattle.xterm_term.specs.Ahead.{IsPlace, MovesWithin};

use crate::below::laws_below;
use crate::reading::ESC;
use crate::terminal::Terminal;
use crate::terminal::ahead::is_line_feed;
use vt_parser::laws::control_is_given;

/// Lines that move up or down by one: the first and the last of them, counted from 1, and how many bytes that takes.
#[derive(Clone, Copy, Debug)]
pub struct MovedLines {
    pub top: u16,
    pub bottom: u16,
    pub down: bool,
    pub taken: usize,
}

// The cursor's line and the margins.
#[derive(Clone, Copy)]
struct Place {
    line: u16,
    top: u16,
    bottom: u16,
}

impl Terminal {
    ghost use Rattle.xterm_term.specs.Seen.{Shows};
    ghost use Rattle.xterm_term.specs.Term.{Term};

    /// Lines that surely move at the first of the bytes: at a line feed (LF, VT, FF) on the bottom margin, a reverse index
    /// (ESC M) on the top margin, and where a line is inserted or deleted at the cursor between the margins (ESC [ L,
    /// ESC [ M); None where something is pending, or else.
    #[inline]
    pub fn moves_within(&self, bytes: &[u8]) -> Option<MovedLines>
        ensures some { IfSome result (λ moved. 0 < moved.taken) }
        ensures within { IfSome result (λ moved. moved.taken ≤ length bytes.now) }
        ensures moves { (x : Term) → Shows self.now x
            → IfSome result (λ moved. MovesWithin x (take moved.taken bytes.now) moved.top moved.bottom moved.down) }
    {
        match bytes {
            [byte, ..] if is_line_feed(*byte) => self.feed_moves(*byte),
            [ESC, b'M', ..] => self.reverse_moves(),
            [ESC, b'[', b'L', ..] => self.edit_moves(true),
            [ESC, b'[', b'M', ..] => self.edit_moves(false),
            _ => None,
        }
    }

    // The cursor's line and the margins, where nothing is pending.
    #[inline]
    fn place(&self) -> Option<Place>
        ensures { IfSome result (λ place. IsPlace self.now place.line place.top place.bottom) }
    {
        if !self.is_idle(b' ') {
            return None;
        }
        let (top, bottom) = self.console.screen.margins();
        Some(Place {
            line: self.console.screen.cursor().0,
            top,
            bottom,
        })
    }

    // Of a line feed.
    #[inline]
    fn feed_moves(&self, byte: u8) -> Option<MovedLines>
        requires { is_within 10 12 byte ≡ true }
        ensures taken { IfSome result (λ moved. moved.taken ≡ 1) }
        ensures moves { (x : Term) → Shows self.now x
            → IfSome result (λ moved. MovesWithin x (byte ∷ []) moved.top moved.bottom moved.down) }
    {
        laws_below();
        control_is_given();
        let Place { line, top, bottom } = self.place()?;
        if line != bottom {
            return None;
        }
        Some(MovedLines {
            top,
            bottom,
            down: false,
            taken: 1,
        })
    }

    // Of ESC M.
    fn reverse_moves(&self) -> Option<MovedLines>
        ensures taken { IfSome result (λ moved. moved.taken ≡ 2) }
        ensures moves { (x : Term) → Shows self.now x
            → IfSome result (λ moved. MovesWithin x (escape ∷ 77 ∷ []) moved.top moved.bottom moved.down) }
    {
        laws_below();
        let Place { line, top, bottom } = self.place()?;
        if line != top {
            return None;
        }
        Some(MovedLines {
            top,
            bottom,
            down: true,
            taken: 2,
        })
    }

    // Of ESC [ L, or of ESC [ M.
    fn edit_moves(&self, inserts: bool) -> Option<MovedLines>
        ensures taken { IfSome result (λ moved. moved.taken ≡ 3) }
        ensures moves { (x : Term) → Shows self.now x
            → IfSome result (λ moved. MovesWithin x (escape ∷ bracket ∷ (if inserts then 76 else 77) ∷ []) moved.top
            moved.bottom moved.down) }
    {
        laws_below();
        let Place { line, top, bottom } = self.place()?;
        if line < top || bottom < line {
            return None;
        }
        Some(MovedLines {
            top: line,
            bottom,
            down: inserts,
            taken: 3,
        })
    }
}
