//! The terminal tells which rows leave it, as every one does of which a transcript is written.
use crate::rows::tell_rows;
use crate::transcriber::Transcriber;
use plays::{OutOfMemory, Reports};
use std::alloc::{AllocError, Global};
use std::io::Write;
use tape_core::Watched;
use transcripts::{Rows, Transcribes};
use vt_parser::Parser;
use vt_screen::limits::LINES;
use vt_term::{Performer, Profile};

impl Transcribes for Transcriber {
    type Profile = Profile;

    ghost use Rattle.screen_transcript.specs.Playing.{IsPlayed};
    ghost use Rattle.screen_transcript.specs.Transcribed.{leaving_rows, play_on, reset_as, standing_rows};

    ghost played = { λ profile transcriber bytes. IsPlayed transcriber (play_on (reset_as profile) bytes) };

    ghost leaving = { leaving_rows };

    ghost standing = { standing_rows };

    fn reset(alloc: Global, profile: Profile) -> Result<Self, AllocError> {
        Ok(Transcriber {
            terminal: Performer::reset_as(profile),
            parser: Parser::new(),
            home: false,
            reports: Reports::new(alloc),
        })
    }

    fn tell_some<W: Write>(
        &mut self,
        bytes: &[u8],
        rows: &mut Rows,
        writer: &mut Watched<W>,
    ) -> Result<usize, OutOfMemory> {
        let taken = self.tell_on(bytes, rows, writer)?;
        Ok(taken)
    }

    fn pass(&mut self, bytes: &[u8]) -> Result<(), OutOfMemory> {
        self.pass_over(bytes)
    }

    fn tell_standing<W: Write>(
        &self,
        rows: &mut Rows,
        writer: &mut Watched<W>,
    ) -> Result<(), OutOfMemory> {
        tell_rows(self.terminal.screen(), LINES, rows, writer)
    }

    fn laws() {}
}
