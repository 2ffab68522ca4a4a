//! What a text is looked for in: a terminal that shows rows of characters.
ghost use Rattle.std.specs.Prelude.{◌≡◌, ◌<◌, ◌≤◌, ◌++◌, [], List, ℕ, length, take, IfOk, IfSome, IsOk, OnOk};
ghost use Rattle.standings.specs.Spans.{Stays};
ghost use Rattle.standings.specs.Standing.{standing};

use crate::ahead::play;
use crate::foretold::{Foretold, LetterRun};
use plays::{OutOfMemory, Plays};
use standings::{Row, Span, Standing};
use std::alloc::Global;
use tape_seek::Session;

/// How a text is looked for on a terminal.
pub trait Finder<T: Plays> {
    ghost use Rattle.tape_seek.specs.State.{Leaves};
    ghost use Rattle.text_find.specs.FindLines.{BeginsBlank, Screens};
    ghost use Rattle.text_find.specs.Foretold.{IsForetold, IsWithin};
    ghost use Rattle.text_find.specs.Pieces.{AreQuiet};

    /// The rows that the terminal shows.
    ghost screens: { Screens T.Profile };

    /// Goes to a count of chunks, by the function that the terminal's crate has for it: so what feeds is compiled once.
    fn go_to(session: &mut Session<T>, count: usize) -> Result<(), OutOfMemory>
        requires { count ≤ length session.old.recording.chunks }
        ensures state { Leaves result count session.old session.new }
        ensures room { count ≤ session.old.marks.frontier → IsOk result };

    /// A copy of the terminal.
    fn copy(alloc: Global, terminal: &T) -> Result<T, OutOfMemory>
        ensures { (profile : T.Profile) (bytes : List ℕ) → T.shows profile terminal.now bytes
            → IfOk result (λ copied. T.shows profile copied bytes) };

    /// The rows that it shows.
    fn rows(alloc: Global, terminal: &T) -> Result<Vec<Row>, OutOfMemory>
        ensures { (profile : T.Profile) (bytes : List ℕ) → T.shows profile terminal.now bytes
            → IfOk result (λ rows. rows.items ≡ screens profile bytes) };

    /// Rows of before become those that it shows now. It reads no others than those that its marks tell of, and says
    /// which ones may differ.
    fn catch_up(rows: &mut Vec<Row>, terminal: &T) -> Result<Span, OutOfMemory>
        ensures rows { (profile : T.Profile) (before after : List ℕ) → T.shows profile terminal.now after
            → T.told profile terminal.now before → rows.old.items ≡ screens profile before
            → OnOk result (rows.new.items ≡ screens profile after) }
        ensures others { IfOk result (λ span. Stays span rows.old.items rows.new.items) };

    /// Plays a beginning of the bytes: where the text stands nowhere before it and behind it, it stands nowhere between
    /// two of its bytes either.
    fn play_some(
        alloc: Global,
        terminal: &mut T,
        text: &[char],
        bytes: &[u8],
    ) -> Result<usize, OutOfMemory>
        requires some { 0 < length bytes.now }
        ensures some { IfOk result (λ taken. 0 < taken) }
        ensures within { IfOk result (λ taken. taken ≤ length bytes.now) }
        ensures shows { (profile : T.Profile) (before : List ℕ) → T.shows profile terminal.old before
            → IfOk result (λ taken. T.shows profile terminal.new (before ++ take taken bytes.now)) }
        ensures told { (profile : T.Profile) (before : List ℕ) → T.shows profile terminal.old before
            → OnOk result (T.told profile terminal.new before) }
        ensures between { (profile : T.Profile) (before : List ℕ) → T.shows profile terminal.old before
            → standing text.now (screens profile before) ≡ []
            → IfOk result (λ taken. standing text.now (screens profile (before ++ take taken bytes.now)) ≡ []
            → (count : ℕ) → count < taken
            → standing text.now (screens profile (before ++ take count bytes.now)) ≡ []) };

    /// Plays a beginning of the bytes on a terminal that shows these rows, on which the text stands there: nothing of it
    /// goes at them but maybe at the last one, up to which the rows are the same then.
    fn play_quietly(
        alloc: Global,
        terminal: &mut T,
        text: &[char],
        still: &Standing,
        bytes: &[u8],
    ) -> Result<usize, OutOfMemory>
        requires some { 0 < length bytes.now }
        ensures some { IfOk result (λ taken. 0 < taken) }
        ensures within { IfOk result (λ taken. taken ≤ length bytes.now) }
        ensures shows { (profile : T.Profile) (before : List ℕ) → T.shows profile terminal.old before
            → IfOk result (λ taken. T.shows profile terminal.new (before ++ take taken bytes.now)) }
        ensures told { (profile : T.Profile) (before : List ℕ) → T.shows profile terminal.old before
            → OnOk result (T.told profile terminal.new before) }
        ensures quiet { (profile : T.Profile) (before : List ℕ) → T.shows profile terminal.old before
            → still.now.rows.items ≡ screens profile before
            → still.now.places.items ≡ standing text.now (screens profile before)
            → IfOk result (λ taken. AreQuiet text.now (screens profile) before bytes.now taken) }
    {
        // Where the text stands makes no difference for a byte.
        let _unread = (text.len(), still.rows.len());
        play(alloc, terminal, &bytes[..1])?;
        Ok(1)
    }

    /// What the first of the bytes surely do to the rows of a terminal that shows these rows, on which the text stands
    /// there; where they write, nothing of the text goes at them but where they are one byte, and the letters become what
    /// they write; where they move rows between margins none changes before the last of them.
    fn foretells(
        terminal: &T,
        text: &[char],
        still: &Standing,
        bytes: &[u8],
        letters: &mut LetterRun,
    ) -> Option<Foretold>
        ensures within { IfSome result (λ foretold. IsWithin foretold (length bytes.now)) }
        ensures foretold { (profile : T.Profile) (before : List ℕ) → T.shows profile terminal.now before
            → still.now.rows.items ≡ screens profile before
            → still.now.places.items ≡ standing text.now (screens profile before)
            → IfSome result (λ foretold. IsForetold text.now (screens profile) before bytes.now foretold letters.new.items) }
    {
        // Of a terminal of which no more is known nothing is foretold.
        let _terminal = terminal;
        let _unread = (text.len(), still.rows.len(), bytes.len(), letters.len());
        None
    }

    /// Where nothing was played a text with ink stands nowhere. Nothing is done.
    fn begins_blank()
        ensures { BeginsBlank screens };
}
