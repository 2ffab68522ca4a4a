//! The terminal tells which rows leave it, as every one does of which a transcript is written.
use crate::rows::tell_rows;
use crate::transcriber::Transcriber;
use plays::{OutOfMemory, Reports};
use std::alloc::{AllocError, Global};
use std::io::Write;
use tape_core::Watched;
use transcripts::{Rows, Transcribes};
use vt_parser::Parser;
use xterm_term::{Size, Terminal};

impl Transcribes for Transcriber {
    type Profile = Size;

    ghost use Rattle.xterm_transcript.specs.Playing.{IsPlayed};
    ghost use Rattle.xterm_transcript.specs.Transcribed.{leaving_rows, play_on, reset_of, standing_rows};

    ghost played = { λ size transcriber bytes. IsPlayed transcriber (play_on (reset_of size) bytes) };

    ghost leaving = { leaving_rows };

    ghost standing = { standing_rows };

    fn reset(alloc: Global, size: Size) -> Result<Self, AllocError> {
        let terminal = Terminal::reset(alloc, size)?;
        Ok(Transcriber {
            terminal,
            parser: Parser::new(),
            home: false,
            reports: Reports::new(alloc),
        })
    }

    fn tell_some<W: Write>(
        &mut self,
        bytes: &[u8],
        rows: &mut Rows,
        writer: &mut Watched<W>,
    ) -> Result<usize, OutOfMemory> {
        let taken = self.tell_next(bytes, rows, writer)?;
        Ok(taken)
    }

    fn pass(&mut self, bytes: &[u8]) -> Result<(), OutOfMemory> {
        self.pass_over(bytes)
    }

    fn tell_standing<W: Write>(
        &self,
        rows: &mut Rows,
        writer: &mut Watched<W>,
    ) -> Result<(), OutOfMemory> {
        let screen = self.terminal.screen();
        tell_rows(screen, screen.lines(), rows, writer)
    }

    fn laws() {}
}
