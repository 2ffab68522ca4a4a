//! What is asked for: a job over a recording.

ghost use Rattle.std.specs.Prelude.{◌≡◌};
ghost use Rattle.command_line.specs.CommandLine.{played_by, player_of};

use crate::player::{Player, Print};
use tape_mend::Header;

/// What is to be done with a recording. Moments are in microseconds.
#[derive(Clone, Copy, Debug, PartialEq, Eq)]
pub enum Job {
    /// Write the bytes of the chunks that are due by a moment.
    Due {
        at: u64,
    },
    /// Write what the recording holds, in five lines.
    Info,
    /// Write what the recording says of itself, and what a terminal can't show of it.
    Check {
        player: Player,
    },
    /// Write the screen of a moment as plain text, as a text that draws it again, or as one that makes a terminal what it was.
    Screen {
        at: u64,
        print: Print,
    },
    /// Write the screen of a moment as a picture.
    Picture {
        at: u64,
        player: Player,
    },
    /// Write every row that left the screen at its top, in order, and then those that stand there: of the chunks that are
    /// due by `to` (None: of all), and of the rows that left those that had not yet by `from` (None: all).
    Transcript {
        from: Option<u64>,
        to: Option<u64>,
        player: Player,
    },
    /// Write which lines of the screen each chunk changes, of those that are due after `from` (None: from chunk 0 on) and
    /// by `to`.
    Changes {
        from: Option<u64>,
        to: u64,
        player: Player,
    },
    /// Write where on the screen a text stands at `from`, and where it came to stand, went, or did both in chunks that are
    /// due after `from` (None: from chunk 0 on) and by `to`. The text stands beside the job.
    Find {
        from: Option<u64>,
        to: u64,
        player: Player,
    },
    /// Write in hexadecimal what the terminal has sent by a moment.
    Reports {
        at: u64,
        player: Player,
    },
    /// Write the whole recording as one file for a browser, which plays it. Its title is the text beside the job.
    Page {
        player: Player,
    },
    /// Write the recording as an asciicast.
    Cast {
        player: Player,
    },
    /// Make the edits of request lines, and write both files anew.
    Save,
    /// Write both files anew without what is due after `from` and by `to`: in its place stands a text that makes the
    /// terminal what it was at `to`.
    Cut {
        from: u64,
        to: u64,
        player: Player,
    },
    /// Write both files anew with what is due after `from` and by `to` (None: up to the end) alone, behind a text that makes
    /// the terminal what it was at `from`.
    Excerpt {
        from: u64,
        to: Option<u64>,
        player: Player,
    },
    /// Write both files anew of all that can be read of them, in whatever state they are.
    Mend {
        header: Header,
    },
    /// Write a recording of another form as a pair of files, of all that can be read of it.
    Import,
    /// Write both files anew without a text, with `*` over each byte of it. The text stands beside the job. What is told
    /// of it besides is told by `redact`.
    Redact {
        player: Player,
    },
    /// Answer request lines. A terminal is stored at every so many chunks, of 1 to 1,000,000.
    Session {
        every: usize,
        player: Player,
    },
}

impl Job {
    /// Which terminal plays the recording for the job, if it plays it.
    pub fn player(self) -> Option<Player>
        ensures { result ≡ played_by self }
    {
        match self {
            Job::Screen { print, .. } => Some(player_of(print)),
            Job::Picture { player, .. }
            | Job::Transcript { player, .. }
            | Job::Changes { player, .. }
            | Job::Find { player, .. }
            | Job::Reports { player, .. }
            | Job::Page { player }
            | Job::Cast { player }
            | Job::Cut { player, .. }
            | Job::Excerpt { player, .. }
            | Job::Redact { player }
            | Job::Session { player, .. } => Some(player),
            Job::Due { .. }
            | Job::Info
            | Job::Check { .. }
            | Job::Save
            | Job::Mend { .. }
            | Job::Import => None,
        }
    }
}

/// Which terminal a screen is of.
fn player_of(print: Print) -> Player
    ensures { result ≡ player_of print }
{
    match print {
        Print::Plain(player) | Print::Escaped(player) | Print::State(player) => player,
    }
}
