//! Bytes read as a terminal reads them, of all of which the mode is kept alone, and what of them is unplayed.
ghost use Rattle.std.specs.Prelude.{◌≡◌, ◌<◌, ◌≤◌, IfOk, OnOk, length, take};
ghost use Rattle.tape_core.specs.Tape.{body};
ghost use Rattle.tape_check.specs.Scan.{Scan, names_in, unplayed_in};
ghost use Rattle.tape_check.specs.Counting.{Follows, Scanned, entries_of};

use crate::played::PlayedAs;
use crate::unplayed::Counts;
use std::alloc::{AllocError, Global};
use tape_core::Chunk;
use vt_parser::{Mode, Parser};
use vt_term::Profile;
use vt_term::played::mode_after;

/// Where a reader of a recording stands.
#[derive(Drop)]
pub(crate) struct Scanner {
    profile: Profile,
    mode: Mode,
    parser: Parser,
    counts: Counts,
}

/// The unplayed sequences of chunks.
#[tactic(auto, using(vt_parser::proofs::Agrees::ground_is_empty), unfolding(crate::specs::Scan::unplayed_in, crate::specs::Scan::names_in))]
pub(crate) fn unplayed_in(
    alloc: Global,
    profile: Profile,
    chunks: &[Chunk],
) -> Result<Counts, AllocError>
    ensures { IfOk result (λ counts. entries_of counts ≡ unplayed_in profile (body chunks.now)) }
{
    let mut scanner = Scanner {
        profile,
        mode: Mode::Ansi,
        parser: Parser::new(),
        counts: Counts::new(alloc),
    };
    for chunk in chunks {
        scanner.take(chunk.bytes.as_slice())?;
    }
    let Scanner {
        profile: _,
        mode: _,
        parser: _,
        counts,
    } = scanner;
    Ok(counts)
}

impl Scanner {
    // Takes bytes, and counts what is unplayed of them.
    fn take(&mut self, bytes: &[u8]) -> Result<(), AllocError>
        ensures { (s : Scan) → Follows self.old s
            → OnOk result (Scanned self.old self.new s bytes.now) }
    {
        let mut rest = bytes;
        while !rest.is_empty() {
            let taken = self.take_some(rest)?;
            rest = &rest[taken..];
        }
        Ok(())
    }

    // Takes some of the bytes, and says how many.
    fn take_some(&mut self, bytes: &[u8]) -> Result<usize, AllocError>
        requires { 0 < length bytes.now }
        ensures some { IfOk result (λ n. 0 < n) }
        ensures within { IfOk result (λ n. n ≤ length bytes.now) }
        ensures scanned { (s : Scan) → Follows self.old s
            → IfOk result (λ n. Scanned self.old self.new s (take n bytes.now)) }
    {
        let formless = self.parser.state().formless_with(bytes[0]);
        self.counts.count_formless(formless)?;
        let (taken, token) = self.parser.next(self.mode, bytes);
        if let Some(token) = token {
            self.mode = mode_after(&token, self.mode);
            self.counts.count_token(PlayedAs::Vt(self.profile), &token)?;
        }
        Ok(taken)
    }
}
