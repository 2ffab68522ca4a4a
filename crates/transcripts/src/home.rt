//! Where a byte comes, and what bytes do to being directly behind home, as terminals tell it of which the rows that leave
//! are told.
ghost use Rattle.std.specs.Prelude.{◌≡◌};
ghost use Rattle.transcripts.specs.Acting.{place_in};
ghost use Rattle.vt_parser.specs.Machine.{context_in};

use vt_parser::ParserState;

/// Where a byte comes: on ground, inside a sequence, or in the text of a string.
#[derive(Clone, Copy)]
pub enum Place {
    Ground,
    Sequence,
    Text,
}

/// What bytes do to being directly behind home.
#[derive(Clone, Copy)]
pub enum After {
    /// It stays.
    Kept,
    /// What comes next comes elsewhere.
    Elsewhere,
    /// A command moved the cursor to a place.
    Placed,
}

/// Where the next byte comes.
pub fn place_of(state: &ParserState) -> Place
    ensures { place_in result ≡ context_in state.now }
{
    match state {
        ParserState::Ground => Place::Ground,
        ParserState::Text => Place::Text,
        _ => Place::Sequence,
    }
}
