//! What comes directly behind home.
ghost use Rattle.std.specs.Prelude.{◌≡◌, ℕ, List};
ghost use Rattle.vt_parser.specs.Syntax.{action_of};
ghost use Rattle.vt_parser.specs.Token.{command_of_token};
ghost use Rattle.xterm_term.specs.Term.{is_ground};
ghost use Rattle.transcripts.specs.Acting.{place_in};
ghost use Rattle.xterm_transcript.specs.Home.{acts, is_home, places};
ghost use Rattle.xterm_transcript.specs.Playing.{after_command};

use transcripts::{After, Place};
use vt_parser::Token;
use xterm_screen::Screen;

/// Whether a byte acts, by where it comes and by whether nothing is pending then.
pub(crate) fn acts(place: Place, byte: u8, done: bool) -> bool
    ensures { (pending : List ℕ) → is_ground pending ≡ done
        → result ≡ acts (action_of (place_in place) byte) pending }
{
    let (on_ground, in_sequence) = match byte {
        0..=6 | 8..=23 | 25 | 28..=31 => (true, true),
        7 | 24 | 26 | 27 | 127 => (false, false), // BEL, CAN, SUB, ESC, DEL
        32..=126 => (true, done),
        128..=255 => (false, false),
    };
    match place {
        Place::Ground => on_ground,
        Place::Sequence => in_sequence,
        Place::Text => false,
    }
}

/// Whether the cursor is at line 1 column 1.
pub(crate) fn is_home(screen: &Screen) -> bool
    ensures { result ≡ is_home screen.now.picture }
{
    let (line, column) = screen.cursor();
    line == 1 && column == 1
}

/// What a command does.
pub(crate) fn after_token(token: &Token) -> After
    ensures { result ≡ after_command (command_of_token token.now) }
{
    match token {
        Token::Error => After::Kept,
        _ if places(token) => After::Placed,
        _ => After::Elsewhere,
    }
}

// Whether a command moves the cursor to a place.
fn places(token: &Token) -> bool
    ensures { result ≡ places (command_of_token token.now) }
{
    match token {
        Token::Csi {
            private: false,
            last,
            ..
        } => matches!(last, b'H' | b'f'), // CUP, HVP
        _ => false,
    }
}
