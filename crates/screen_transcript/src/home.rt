//! What comes directly behind home.
ghost use Rattle.std.specs.Prelude.{◌≡◌, ℕ, List};
ghost use Rattle.transcripts.specs.Acting.{place_in};
ghost use Rattle.screen_transcript.specs.Home.{acts, is_empty, is_home, places};
ghost use Rattle.vt_parser.specs.Syntax.{action_of};
ghost use Rattle.vt_parser.specs.Token.{command_of_token};

use transcripts::Place;
use vt_parser::Token;
use vt_screen::Screen;

/// Whether a byte acts, by where it comes and by whether nothing is pending then.
pub(crate) fn acts(place: Place, byte: u8, done: bool) -> bool
    ensures { (pending : List ℕ) → is_empty pending ≡ done
        → result ≡ acts (action_of (place_in place) byte) pending }
{
    let (on_ground, in_sequence, in_string) = match byte {
        0..=6 | 8..=23 | 25 | 28..=31 => (true, true, false),
        7 | 27 | 127 => (false, false, false), // BEL, ESC, DEL
        24 | 26 => (false, true, true), // CAN, SUB
        32..=126 => (true, done, false),
        128..=255 => (true, false, false),
    };
    match place {
        Place::Ground => on_ground,
        Place::Sequence => in_sequence,
        Place::Text => in_string,
    }
}

/// Whether the cursor is at line 1 column 1.
pub(crate) fn is_home(screen: &Screen) -> bool
    ensures { result ≡ is_home screen.now.picture }
{
    let (line, column) = screen.cursor();
    line == 1 && column == 1
}

/// Whether a command moves the cursor to a place.
pub(crate) fn places(token: &Token) -> bool
    ensures { result ≡ places (command_of_token token.now) }
{
    match token {
        Token::Csi {
            private: false,
            last,
            ..
        } => matches!(last, b'H' | b'f'), // CUP, HVP
        Token::Vt52(last) => *last == b'H', // home
        Token::Vt52Address { .. } => true,
        _ => false,
    }
}
