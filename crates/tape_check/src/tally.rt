//! What a terminal of today leaves out of a recording: bytes read as it reads them, without a screen.
ghost use Rattle.std.specs.Prelude.{◌≡◌, ◌+◌, ◌<◌, ◌≤◌, ◌&&◌, ℕ, List, [], Some, IfOk, OnOk, true, false, drop, fold, length, nat_le, take};
ghost use Rattle.std.specs.List.{list_all};
ghost use Rattle.characters.specs.Utf8.{reading};
ghost use Rattle.tape_core.specs.Tape.{body};
ghost use Rattle.xterm_term.specs.Played.{title_left};
ghost use Rattle.xterm_term.specs.Term.{ends_title, is_ground};
ghost use Rattle.vt_parser.specs.declared.commands.Mode.TheVariants.{Ansi};
ghost use Rattle.vt_parser.specs.Fold.{pending_after_bytes};
ghost use Rattle.vt_parser.specs.Step.{pending_after};
ghost use Rattle.vt_parser.specs.Syntax.{is_graphic};
ghost use Rattle.vt_parser.specs.Token.{command_of_token};
ghost use Rattle.vt_parser.specs.View.{parser_view};
ghost use Rattle.tape_check.specs.Scan.{counted};
ghost use Rattle.tape_check.specs.Counting.{entries_of};
ghost use Rattle.tape_check.specs.Tally.{Tally, forms_at, gone_on, parts_of, read, tallied, tally_start, title_read, upper_read};
ghost use Rattle.tape_check.specs.Tallying.{AreSyntax, IsAt, Knows, is_idle};

use crate::played::PlayedAs;
use crate::quiet::Marks;
use crate::unplayed::Counts;
use characters::{Decoder, Reading, begins};
use std::alloc::{AllocError, Global};
use tape_core::Chunk;
use vt_parser::{Command, Mode, Parser, ParserState, Token, printable_run};
use xterm_term::played::title_left;

const ESC: u8 = 27;

// Most sequences are shorter. The parser may take fewer, and those behind are then looked through again.
const MOST_TOGETHER: usize = 32;

/// Where a reader of a recording stands, and what it has counted.
#[derive(Drop)]
pub(crate) struct Reader {
    title: bool,
    parser: Parser,
    decoder: Decoder,
    marks: Marks,
    counts: Counts,
    parts: u64,
}

// BEL, CAN and SUB.
fn ends_title(byte: u8) -> bool
    ensures { result ≡ ends_title byte }
{
    matches!(byte, 7 | 24 | 26)
}

// Whether a title is read behind a token.
fn title_behind(token: &Token, title: bool) -> bool
    ensures { result ≡ title_left (command_of_token token.now) title }
{
    match token {
        Token::Esc { inter, last } => {
            let (inter, last) = (*inter, *last);
            title_left(&Command::Esc { inter, last }, title)
        }
        _ => title,
    }
}

// How many bytes stand together for the control syntax: the first, and, where the text of a control sequence begins or
// goes on with it, graphic characters behind it.
#[inline(always)]
fn syntax_front(open: bool, bytes: &[u8]) -> usize
    requires { 0 < length bytes.now }
    ensures some { 0 < result }
    ensures within { result ≤ length bytes.now }
    ensures graphic { list_all is_graphic (drop 1 (take result bytes.now)) ≡ true }
{
    if !open && !begins_control_sequence(bytes) {
        return 1;
    }
    1 + printable_run(&bytes[1..bytes.len().min(MOST_TOGETHER)])
}

// Whether they begin with ESC `[`.
#[inline(always)]
fn begins_control_sequence(bytes: &[u8]) -> bool {
    bytes.len() > 1 && bytes[0] == ESC && bytes[1] == b'['
}

/// The unplayed sequences of chunks, and how many parts of them are no UTF-8.
pub(crate) fn tally(alloc: Global, chunks: &[Chunk]) -> Result<(Counts, u64), AllocError>
    ensures entries { IfOk result (λ found. entries_of found.0 ≡ (fold tallied tally_start (body chunks.now)).entries) }
    ensures parts { IfOk result (λ found. found.1 ≡ parts_of (fold tallied tally_start (body chunks.now))) }
{
    let mut reader = Reader::new(alloc);
    for chunk in chunks {
        reader.take(chunk.bytes.as_slice())?;
    }
    reader.finish()
}

impl Reader {
    #[tactic(auto, using(vt_parser::proofs::Agrees::ground_is_empty))]
    fn new(alloc: Global) -> Reader
        ensures { IsAt result tally_start }
    {
        Reader {
            title: false,
            parser: Parser::new(),
            decoder: Decoder::new(),
            marks: Marks::new(),
            counts: Counts::new(alloc),
            parts: 0,
        }
    }

    // What was counted, where the recording ends.
    fn finish(mut self) -> Result<(Counts, u64), AllocError>
        ensures entries { (t : Tally) → IsAt self t → IfOk result (λ found. entries_of found.0 ≡ t.entries) }
        ensures parts { (t : Tally) → IsAt self t → IfOk result (λ found. found.1 ≡ parts_of t) }
    {
        if self.decoder.is_pending() {
            self.count_part()?;
        }
        let Reader {
            title: _,
            parser: _,
            decoder: _,
            marks: _,
            counts,
            parts,
        } = self;
        Ok((counts, parts))
    }

    // Takes bytes.
    fn take(&mut self, bytes: &[u8]) -> Result<(), AllocError>
        ensures { (t : Tally) → IsAt self.old t
            → OnOk result (IsAt self.new (fold tallied t bytes.now)) }
    {
        let mut rest = bytes;
        while !rest.is_empty() {
            let taken = self.take_some(rest)?;
            rest = &rest[taken..];
        }
        Ok(())
    }

    // Takes some of the bytes, and says how many.
    fn take_some(&mut self, bytes: &[u8]) -> Result<usize, AllocError>
        requires { 0 < length bytes.now }
        ensures some { IfOk result (λ n. 0 < n) }
        ensures within { IfOk result (λ n. n ≤ length bytes.now) }
        ensures taken { (t : Tally) → IsAt self.old t
            → IfOk result (λ n. IsAt self.new (fold tallied t (take n bytes.now))) }
    {
        if self.title || self.decoder.is_pending() || bytes[0] >= 128 {
            return self.take_others(bytes);
        }
        let plain = self.plain_run(bytes);
        if plain > 0 {
            return Ok(plain);
        }
        self.read_syntax(&bytes[..syntax_front(self.is_open(), bytes)])
    }

    // Takes the first of these bytes, and those behind it up to one that the control syntax reads.
    fn take_others(&mut self, bytes: &[u8]) -> Result<usize, AllocError>
        requires { 0 < length bytes.now }
        ensures some { IfOk result (λ n. 0 < n) }
        ensures within { IfOk result (λ n. n ≤ length bytes.now) }
        ensures taken { (t : Tally) → IsAt self.old t
            → IfOk result (λ n. IsAt self.new (fold tallied t (take n bytes.now))) }
    {
        self.take_byte(bytes[0])?;
        let mut at: usize = 1;
        while at < bytes.len() && self.is_other(bytes[at]) {
            self.take_byte(bytes[at])?;
            at += 1;
        }
        Ok(at)
    }

    // Whether a character or a title goes on with a byte, or one from 128 on comes.
    #[inline(always)]
    fn is_other(&self, byte: u8) -> bool {
        self.decoder.is_pending() || self.title || byte >= 128
    }

    // How many of these bytes at least count nothing and leave the reader as it is.
    #[inline]
    fn plain_run(&self, bytes: &[u8]) -> usize
        ensures within { result ≤ length bytes.now }
        ensures idle { (t : Tally) → IsAt self.now t
            → fold tallied t (take result bytes.now) ≡ t }
    {
        if self.is_idle() {
            printable_run(bytes)
        } else {
            0
        }
    }

    // Whether no title is read and nothing is pending.
    #[inline]
    fn is_idle(&self) -> bool
        ensures { (t : Tally) → IsAt self.now t → result ≡ is_idle t }
    {
        !self.title && self.is_on_ground() && !self.decoder.is_pending()
    }

    #[inline(always)]
    fn take_byte(&mut self, byte: u8) -> Result<(), AllocError>
        ensures { (t : Tally) → IsAt self.old t → OnOk result (IsAt self.new (tallied t byte)) }
    {
        if self.decoder.is_pending() {
            return self.go_on(byte);
        }
        self.read(byte)
    }

    // A byte behind those of a character.
    #[inline(always)]
    fn go_on(&mut self, byte: u8) -> Result<(), AllocError>
        requires { 0 < length self.old.decoder }
        ensures { (t : Tally) → IsAt self.old t
            → OnOk result (IsAt self.new (gone_on (reading t.character byte) t byte)) }
    {
        match self.decoder.take(byte) {
            Reading::Broken => {
                self.count_part()?;
                self.read(byte)
            }
            _ => Ok(()),
        }
    }

    // One U+FFFD more.
    fn count_part(&mut self) -> Result<(), AllocError>
        ensures { OnOk result (self.new ≡ record self.old { parts = self.old.parts + 1 }) }
    {
        let Some(parts) = self.parts.checked_add(1) else {
            return Err(AllocError);
        };
        self.parts = parts;
        Ok(())
    }

    // A byte where no character is pending.
    #[inline(always)]
    fn read(&mut self, byte: u8) -> Result<(), AllocError>
        requires { self.old.decoder ≡ [] }
        ensures { (t : Tally) → IsAt self.old t → OnOk result (IsAt self.new (read t byte)) }
    {
        if self.title {
            self.read_title(byte);
            return Ok(());
        }
        if self.is_upper(byte) {
            return self.read_upper(byte);
        }
        self.read_alone(byte)
    }

    // A byte of the control syntax, by itself: it comes seldom.
    #[inline(never)]
    fn read_alone(&mut self, byte: u8) -> Result<(), AllocError>
        requires title { self.old.title ≡ false }
        requires character { self.old.decoder ≡ [] }
        requires syntax { (t : Tally) → IsAt self.old t
            → (is_ground t.sequence && nat_le 128 byte) ≡ false }
        ensures { (t : Tally) → IsAt self.old t → OnOk result (IsAt self.new (tallied t byte)) }
    {
        self.read_syntax(&[byte])?;
        Ok(())
    }

    #[tactic(auto, using(vt_parser::proofs::Agrees::ground_is_empty))]
    fn is_on_ground(&self) -> bool
        ensures { (t : Tally) → IsAt self.now t → result ≡ is_ground t.sequence }
    {
        matches!(self.parser.state(), ParserState::Ground)
    }

    // Whether the text of a control sequence is read.
    #[inline(always)]
    fn is_open(&self) -> bool {
        matches!(
            self.parser.state(),
            ParserState::CsiStart | ParserState::Csi { .. }
        )
    }

    // Whether a byte from 128 on comes where nothing is pending.
    fn is_upper(&self, byte: u8) -> bool
        ensures { (t : Tally) → IsAt self.now t
            → result ≡ (is_ground t.sequence && nat_le 128 byte) }
    {
        self.is_on_ground() && byte >= 128
    }

    // A byte of a title.
    fn read_title(&mut self, byte: u8)
        ensures { (t : Tally) → IsAt self.old t → IsAt self.new (title_read t byte) }
    {
        if byte == ESC {
            self.step(byte);
            self.title = false;
        } else if ends_title(byte) {
            self.title = false;
        }
    }

    // A byte from 128 on, on ground.
    fn read_upper(&mut self, byte: u8) -> Result<(), AllocError>
        requires { self.old.decoder ≡ [] }
        ensures { (t : Tally) → IsAt self.old t → OnOk result (IsAt self.new (upper_read t byte)) }
    {
        if begins(byte) {
            self.decoder.begin(byte);
            return Ok(());
        }
        self.count_part()
    }

    // Takes some bytes of the control syntax, and says how many.
    // Inlined always, so that the loop over bytes has a copy of the parser of its own.
    #[inline(always)]
    fn read_syntax(&mut self, bytes: &[u8]) -> Result<usize, AllocError>
        requires some { 0 < length bytes.now }
        requires title { self.old.title ≡ false }
        requires character { self.old.decoder ≡ [] }
        requires syntax { (t : Tally) → IsAt self.old t → AreSyntax t.sequence bytes.now }
        ensures some { IfOk result (λ n. 0 < n) }
        ensures within { IfOk result (λ n. n ≤ length bytes.now) }
        ensures taken { (t : Tally) → IsAt self.old t
            → IfOk result (λ n. IsAt self.new (fold tallied t (take n bytes.now))) }
    {
        self.count_form(bytes[0])?;
        let (taken, token) = self.parser.next(Mode::Ansi, bytes);
        if let Some(token) = token {
            self.title = title_behind(&token, self.title);
            self.counts.count_token(TODAY, &token)?;
        }
        self.marks = self.marks_behind(&bytes[..taken]);
        Ok(taken)
    }

    // The marks behind bytes that the parser took: they matter only where a sequence is pending.
    fn marks_behind(&self, bytes: &[u8]) -> Marks
        ensures { (pending : List ℕ) → Knows self.now.marks pending
            → parser_view Ansi (pending_after_bytes Ansi Ansi pending bytes.now) ≡ Some self.now.parser
            → Knows result (pending_after_bytes Ansi Ansi pending bytes.now) }
    {
        match self.parser.state() {
            ParserState::Ground => self.marks,
            _ => self.marks.behind(bytes),
        }
    }

    // Counts the sequence without a command that a byte ends, if it ends one that isn't quiet.
    fn count_form(&mut self, byte: u8) -> Result<(), AllocError>
        ensures { (t : Tally) → IsAt self.old t → OnOk result (IsAt self.new
            (record t { entries = fold counted t.entries (forms_at t.sequence byte) })) }
    {
        let form = self.parser.state().formless_with(byte);
        let form = self.marks.loud_form(form);
        self.counts.count_formless(form)
    }

    #[tactic(auto, using(crate::proofs::TallyLemmas::knows_after))]
    fn step(&mut self, byte: u8)
        ensures { (t : Tally) → IsAt self.old t
            → IsAt self.new (record t { sequence = pending_after Ansi t.sequence byte }) }
    {
        self.marks = self.marks.after(byte);
        let _ = self.parser.step(Mode::Ansi, byte);
    }
}

// Of which size it is says nothing of its sequences.
const TODAY: PlayedAs = PlayedAs::Today {
    columns: 80,
    lines: 24,
};
