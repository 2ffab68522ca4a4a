//! A terminal of today of which the rows that leave are told.
ghost use Rattle.std.specs.Prelude.{◌≡◌, ◌<◌, ◌≤◌, ◌∷◌, [], IfOk, List, OnErr, OnOk, ℕ, false, length, nat_le, slice_index, take, true};
ghost use Rattle.std.specs.List.{list_all};
ghost use Rattle.characters.specs.Utf8.{bytes_of};
ghost use Rattle.transcripts.specs.Told.{Tells, TellsFront};
ghost use Rattle.vt_parser.specs.declared.states.ParserState.TheVariants.{Ground};
ghost use Rattle.vt_parser.specs.Law.{IsProper, is_sequence};
ghost use Rattle.vt_parser.specs.Syntax.{action_of, is_graphic, is_within};
ghost use Rattle.vt_parser.specs.Token.{command_of_token};
ghost use Rattle.xterm_term.specs.declared.sets.CharacterSet.TheVariants.{Ascii};
ghost use Rattle.xterm_term.specs.Reading.{GoesOn};
ghost use Rattle.xterm_term.specs.Seen.{Shows};
ghost use Rattle.xterm_term.specs.Sets.{set_in_use};
ghost use Rattle.xterm_term.specs.Term.{Term, is_ground};
ghost use Rattle.transcripts.specs.Acting.{place_in};
ghost use Rattle.transcripts.specs.declared.home.After.TheVariants.{Kept};
ghost use Rattle.xterm_transcript.specs.declared.leaving.Leaving.TheVariants.{NoRow};
ghost use Rattle.xterm_transcript.specs.Home.{acts};
ghost use Rattle.xterm_transcript.specs.Leaving.{leaving_first, put_leaves};
ghost use Rattle.xterm_transcript.specs.Playing.{Comes, HasRoom, IsPlayed, PlaysAlike, PlaysToken, after_acting, after_put, broken_rows, cut_off, home_by, is_broken, mended};
ghost use Rattle.xterm_transcript.specs.Transcribed.{Transcribed, left, play_on};

use crate::home::{acts, after_token, is_home};
use crate::leaving::{Leaving, at_put, control_leaves, leaving_at, put_leaves};
use crate::rows::{tell_first_if, tell_leaving};
use characters::{Begun, Reading, begins, character_at};
use plays::{OutOfMemory, Reports};
use std::io::Write;
use tape_core::Watched;
use transcripts::{After, Place, Rows, place_of};
use vt_parser::{Mode, Parser, ParserState, Token, printable_run};
use xterm_screen::Screen;
use xterm_term::{CharacterSet, Slot, Terminal};

const ESC: u8 = 27;

/// A terminal of today that tells the rows that leave its screen.
#[derive(Drop)]
pub struct Transcriber {
    pub(crate) terminal: Terminal,
    // It stands where the terminal's own does, and tells what bytes come to before they are played.
    pub(crate) parser: Parser,
    // What comes next comes directly behind home.
    pub(crate) home: bool,
    // Replies are dropped: each is sent over the ones before.
    pub(crate) reports: Reports,
}

/// Some bytes, at the first of which rows leave, or at the last of which they do where only that one gives a command or
/// a character.
#[derive(Clone, Copy)]
pub(crate) struct Piece {
    pub(crate) taken: usize,
    pub(crate) leaving: Leaving,
    pub(crate) after: After,
}

impl Transcriber {
    /// Plays some of the bytes, at least one, and tells the rows that leave at them.
    pub(crate) fn tell_next<W: Write>(
        &mut self,
        bytes: &[u8],
        rows: &mut Rows,
        writer: &mut Watched<W>,
    ) -> Result<usize, OutOfMemory>
        requires { 0 < length bytes.now }
        ensures some { IfOk result (λ taken. 0 < taken) }
        ensures within { IfOk result (λ taken. taken ≤ length bytes.now) }
        ensures played { (x : Transcribed) → IsPlayed self.old x
            → IfOk result (λ taken. IsPlayed self.new (play_on x (take taken bytes.now))) }
        ensures tells { (x : Transcribed) → IsPlayed self.old x
            → IfOk result (λ taken. Tells W.contents writer.old rows.old writer.new rows.new
            (left x (take taken bytes.now))) }
        ensures front { (x : Transcribed) → IsPlayed self.old x
            → OnErr result (TellsFront W.contents writer.old rows.old writer.new rows.new
            (left x bytes.now)) }
    {
        self.tell_broken(bytes[0], rows, writer)?;
        if self.is_command(bytes[0]) {
            if is_ground(self.parser.state()) && is_effective(bytes[0]) {
                self.tell_control(bytes[0], rows, writer)?;
                return Ok(1);
            }
            let taken = self.tell_command(bytes, rows, writer)?;
            return Ok(taken);
        }
        let piece = self.next_piece(bytes);
        tell_leaving(piece.leaving, &mut self.terminal, rows, writer)?;
        self.play(&bytes[..piece.taken], piece)?;
        Ok(piece.taken)
    }

    // Whether a byte breaks the character off that isn't finished.
    fn is_broken(&self, byte: u8) -> bool
        ensures { result ≡ is_broken self.now.terminal.character byte }
    {
        self.is_in_character() && matches!(self.terminal.reading(byte), Reading::Broken)
    }

    // Whether a character isn't finished.
    fn is_in_character(&self) -> bool
        ensures some { result ≡ true → 0 < length self.now.terminal.character }
        ensures none { result ≡ false → self.now.terminal.character ≡ [] }
    {
        !matches!(self.terminal.character(), Begun::Nothing)
    }

    // Breaks that character off, if the byte does, and tells the row that leaves.
    fn tell_broken<W: Write>(
        &mut self,
        byte: u8,
        rows: &mut Rows,
        writer: &mut Watched<W>,
    ) -> Result<(), OutOfMemory>
        ensures whole { OnOk result (is_broken self.new.terminal.character byte ≡ false) }
        ensures played { (x : Transcribed) → IsPlayed self.old x
            → OnOk result (IsPlayed self.new (mended x byte)) }
        ensures tells { (x : Transcribed) → IsPlayed self.old x → OnOk result (Tells W.contents
            writer.old rows.old writer.new rows.new (broken_rows x byte)) }
        ensures front { (x : Transcribed) → IsPlayed self.old x → OnErr result (TellsFront W.contents
            writer.old rows.old writer.new rows.new (broken_rows x byte)) }
    {
        if !self.is_broken(byte) {
            return Ok(());
        }
        let leaves = put_leaves(char::REPLACEMENT_CHARACTER, &self.terminal);
        tell_first_if(leaves, self.terminal.screen(), rows, writer)?;
        self.break_off();
        Ok(())
    }

    // The same, and tells none.
    fn break_if(&mut self, byte: u8)
        ensures whole { is_broken self.new.terminal.character byte ≡ false }
        ensures played { (x : Transcribed) → IsPlayed self.old x → IsPlayed self.new (mended x byte) }
    {
        if self.is_broken(byte) {
            self.break_off();
        }
    }

    // The character that isn't finished is broken off.
    fn break_off(&mut self)
        ensures none { self.new.terminal.character ≡ [] }
        ensures played { (x : Transcribed) → IsPlayed self.old x → IsPlayed self.new (cut_off x) }
    {
        self.terminal.break_off();
        self.home = false;
    }

    /// What the next bytes come to. The terminal still has to play them.
    #[inline(always)]
    fn next_piece(&mut self, bytes: &[u8]) -> Piece
        requires some { 0 < length bytes.now }
        requires whole { is_broken self.old.terminal.character (slice_index bytes.now 0) ≡ false }
        requires ground { self.old.terminal.character ≡ [] → self.old.terminal.console.title ≡ false
            → self.old.parser ≡ Ground }
        requires upper { self.old.terminal.character ≡ [] → self.old.terminal.console.title ≡ false
            → is_graphic (slice_index bytes.now 0) ≡ false → nat_le 128 (slice_index bytes.now 0) ≡ true }
        ensures some { 0 < result.taken }
        ensures within { result.taken ≤ length bytes.now }
        ensures terminal { self.new.terminal ≡ self.old.terminal }
        ensures home { self.new.home ≡ self.old.home }
        ensures comes { (x : Transcribed) → IsPlayed self.old x
            → Comes x (take result.taken bytes.now) result self.new.parser }
    {
        if self.is_in_character() {
            return self.next_of_character(bytes[0]);
        }
        if self.terminal.in_title() {
            return self.next_of_title(bytes[0]);
        }
        if is_graphic(bytes[0]) {
            return self.next_run(bytes);
        }
        self.next_upper(bytes)
    }

    // Behind the bytes of a character.
    fn next_of_character(&self, byte: u8) -> Piece
        requires some { 0 < length self.now.terminal.character }
        requires whole { is_broken self.now.terminal.character byte ≡ false }
        ensures taken { result.taken ≡ 1 }
        ensures comes { (x : Transcribed) → IsPlayed self.now x
            → Comes x (byte ∷ []) result self.now.parser }
    {
        match self.terminal.reading(byte) {
            Reading::Character(character) => self.put_piece(1, character),
            Reading::More => kept(1),
            Reading::Broken => unreachable!(),
        }
    }

    // In a title.
    fn next_of_title(&mut self, byte: u8) -> Piece
        requires none { self.old.terminal.character ≡ [] }
        requires title { self.old.terminal.console.title ≡ true }
        ensures taken { result.taken ≡ 1 }
        ensures terminal { self.new.terminal ≡ self.old.terminal }
        ensures home { self.new.home ≡ self.old.home }
        ensures comes { (x : Transcribed) → IsPlayed self.old x
            → Comes x (byte ∷ []) result self.new.parser }
    {
        if byte == ESC {
            let _begins = self.parser.step(Mode::Ansi, byte);
        }
        kept(1)
    }

    // A run of characters of ASCII on ground.
    #[inline(always)]
    fn next_run(&self, bytes: &[u8]) -> Piece
        requires some { 0 < length bytes.now }
        requires graphic { is_graphic (slice_index bytes.now 0) ≡ true }
        requires ground { self.now.parser ≡ Ground }
        requires none { self.now.terminal.character ≡ [] }
        requires title { self.now.terminal.console.title ≡ false }
        ensures some { 0 < result.taken }
        ensures within { result.taken ≤ length bytes.now }
        ensures comes { (x : Transcribed) → IsPlayed self.now x
            → Comes x (take result.taken bytes.now) result self.now.parser }
    {
        Piece {
            taken: run_len(&self.terminal, bytes),
            leaving: at_put(self.terminal.character_for(bytes[0]), &self.terminal),
            after: After::Elsewhere,
        }
    }

    // A byte from 128 on, on ground.
    fn next_upper(&self, bytes: &[u8]) -> Piece
        requires some { 0 < length bytes.now }
        requires upper { nat_le 128 (slice_index bytes.now 0) ≡ true }
        requires ground { self.now.parser ≡ Ground }
        requires none { self.now.terminal.character ≡ [] }
        requires title { self.now.terminal.console.title ≡ false }
        ensures some { 0 < result.taken }
        ensures within { result.taken ≤ length bytes.now }
        ensures comes { (x : Transcribed) → IsPlayed self.now x
            → Comes x (take result.taken bytes.now) result self.now.parser }
    {
        if let Some((character, taken)) = character_at(bytes) {
            return self.put_piece(taken, character);
        }
        if begins(bytes[0]) {
            return kept(1);
        }
        self.put_piece(1, char::REPLACEMENT_CHARACTER)
    }

    // Bytes that put a character.
    fn put_piece(&self, taken: usize, character: char) -> Piece
        ensures taken { result.taken ≡ taken }
        ensures leaving { result.leaving
            ≡ leaving_first (put_leaves character self.now.terminal.console) }
        ensures after { result.after ≡ after_put character }
    {
        Piece {
            taken,
            leaving: at_put(character, &self.terminal),
            after: after_put(character),
        }
    }

    // Whether a byte is read as a control or as one of a sequence: no character is begun, no title is read, and on ground it
    // is no character.
    #[inline(always)]
    fn is_command(&self, byte: u8) -> bool
        ensures none { result ≡ true → self.now.terminal.character ≡ [] }
        ensures title { result ≡ true → self.now.terminal.console.title ≡ false }
        ensures off { result ≡ true → self.now.parser ≡ Ground → is_graphic byte ≡ false }
        ensures low { result ≡ true → self.now.parser ≡ Ground → nat_le 128 byte ≡ false }
        ensures ground { result ≡ false → self.now.terminal.character ≡ []
            → self.now.terminal.console.title ≡ false → self.now.parser ≡ Ground }
        ensures upper { result ≡ false → self.now.terminal.character ≡ []
            → self.now.terminal.console.title ≡ false → is_graphic byte ≡ false
            → nat_le 128 byte ≡ true }
    {
        if self.is_in_character() || self.terminal.in_title() {
            return false;
        }
        !is_ground(self.parser.state()) || !(is_graphic(byte) || byte >= 128)
    }

    // Obeys a control on ground, and tells the row that leaves at it.
    #[inline(always)]
    fn tell_control<W: Write>(
        &mut self,
        byte: u8,
        rows: &mut Rows,
        writer: &mut Watched<W>,
    ) -> Result<(), OutOfMemory>
        requires effective { is_within 8 15 byte ≡ true }
        requires ground { self.old.parser ≡ Ground }
        requires none { self.old.terminal.character ≡ [] }
        requires title { self.old.terminal.console.title ≡ false }
        ensures played { (x : Transcribed) → IsPlayed self.old x
            → OnOk result (IsPlayed self.new (play_on x (byte ∷ []))) }
        ensures tells { (x : Transcribed) → IsPlayed self.old x
            → OnOk result (Tells W.contents writer.old rows.old writer.new rows.new
            (left x (byte ∷ []))) }
        ensures front { (x : Transcribed) → IsPlayed self.old x
            → OnErr result (TellsFront W.contents writer.old rows.old writer.new rows.new
            (left x (byte ∷ []))) }
    {
        let leaves = control_leaves(byte, self.terminal.screen());
        tell_first_if(leaves, self.terminal.screen(), rows, writer)?;
        self.reports.set_place(0);
        self.terminal.obey(Token::Control(byte), &mut self.reports)?;
        self.home = false;
        Ok(())
    }

    // Plays a control, a sequence or a part of one, and tells the rows that leave at it.
    #[inline(always)]
    fn tell_command<W: Write>(
        &mut self,
        bytes: &[u8],
        rows: &mut Rows,
        writer: &mut Watched<W>,
    ) -> Result<usize, OutOfMemory>
        requires some { 0 < length bytes.now }
        requires off { self.old.parser ≡ Ground → is_graphic (slice_index bytes.now 0) ≡ false }
        requires low { self.old.parser ≡ Ground → nat_le 128 (slice_index bytes.now 0) ≡ false }
        requires none { self.old.terminal.character ≡ [] }
        requires title { self.old.terminal.console.title ≡ false }
        ensures some { IfOk result (λ taken. 0 < taken) }
        ensures within { IfOk result (λ taken. taken ≤ length bytes.now) }
        ensures played { (x : Transcribed) → IsPlayed self.old x
            → IfOk result (λ taken. IsPlayed self.new (play_on x (take taken bytes.now))) }
        ensures tells { (x : Transcribed) → IsPlayed self.old x
            → IfOk result (λ taken. Tells W.contents writer.old rows.old writer.new rows.new
            (left x (take taken bytes.now))) }
        ensures front { (x : Transcribed) → IsPlayed self.old x
            → OnErr result (TellsFront W.contents writer.old rows.old writer.new rows.new
            (left x bytes.now)) }
    {
        let most = most_taken(self.home, self.parser.state(), bytes);
        let place = place_of(self.parser.state());
        let ground = is_ground(self.parser.state());
        let (taken, token) = self.parser.next(Mode::Ansi, &bytes[..most]);
        let Some(token) = token else {
            let done = is_ground(self.parser.state());
            self.play(&bytes[..taken], none_piece(taken, place, bytes[0], done))?;
            return Ok(taken);
        };
        let leaving = leaving_at(&token, self.home, &self.terminal);
        tell_leaving(leaving, &mut self.terminal, rows, writer)?;
        play_token(
            &mut self.terminal,
            token,
            ground,
            &bytes[..taken],
            &mut self.reports,
        )?;
        self.home = is_home_after(after_token(&token), self.home, self.terminal.screen());
        Ok(taken)
    }

    // The same, and tells none.
    fn pass_command(&mut self, bytes: &[u8]) -> Result<usize, OutOfMemory>
        requires some { 0 < length bytes.now }
        requires off { self.old.parser ≡ Ground → is_graphic (slice_index bytes.now 0) ≡ false }
        requires low { self.old.parser ≡ Ground → nat_le 128 (slice_index bytes.now 0) ≡ false }
        requires none { self.old.terminal.character ≡ [] }
        requires title { self.old.terminal.console.title ≡ false }
        ensures some { IfOk result (λ taken. 0 < taken) }
        ensures within { IfOk result (λ taken. taken ≤ length bytes.now) }
        ensures played { (x : Transcribed) → IsPlayed self.old x
            → IfOk result (λ taken. IsPlayed self.new (play_on x (take taken bytes.now))) }
    {
        let most = most_taken(self.home, self.parser.state(), bytes);
        let place = place_of(self.parser.state());
        let ground = is_ground(self.parser.state());
        let (len, token) = self.parser.next(Mode::Ansi, &bytes[..most]);
        let Some(token) = token else {
            let done = is_ground(self.parser.state());
            self.play(&bytes[..len], none_piece(len, place, bytes[0], done))?;
            return Ok(len);
        };
        play_token(
            &mut self.terminal,
            token,
            ground,
            &bytes[..len],
            &mut self.reports,
        )?;
        self.home = is_home_after(after_token(&token), self.home, self.terminal.screen());
        Ok(len)
    }

    /// Plays a piece of which it is known what it comes to.
    fn play(&mut self, bytes: &[u8], piece: Piece) -> Result<(), OutOfMemory>
        ensures { (x : Transcribed) (t : Term) → Shows self.old.terminal t
            → PlaysAlike t x.term bytes.now → self.old.home ≡ x.home
            → Comes x bytes.now piece self.old.parser
            → OnOk result (IsPlayed self.new (play_on x bytes.now)) }
    {
        self.reports.set_place(0);
        self.terminal.feed_in_place(bytes, &mut self.reports)?;
        self.home = is_home_after(piece.after, self.home, self.terminal.screen());
        Ok(())
    }

    /// Plays bytes, and tells no row.
    pub(crate) fn pass_over(&mut self, bytes: &[u8]) -> Result<(), OutOfMemory>
        ensures { (x : Transcribed) → IsPlayed self.old x
            → OnOk result (IsPlayed self.new (play_on x bytes.now)) }
    {
        let mut rest = bytes;
        while !rest.is_empty() {
            let taken = self.pass_next(rest)?;
            rest = &rest[taken..];
        }
        Ok(())
    }

    // The same of some of the bytes.
    fn pass_next(&mut self, bytes: &[u8]) -> Result<usize, OutOfMemory>
        requires { 0 < length bytes.now }
        ensures some { IfOk result (λ taken. 0 < taken) }
        ensures within { IfOk result (λ taken. taken ≤ length bytes.now) }
        ensures played { (x : Transcribed) → IsPlayed self.old x
            → IfOk result (λ taken. IsPlayed self.new (play_on x (take taken bytes.now))) }
    {
        self.break_if(bytes[0]);
        if self.is_command(bytes[0]) {
            let taken = self.pass_command(bytes)?;
            return Ok(taken);
        }
        let piece = self.next_piece(bytes);
        self.play(&bytes[..piece.taken], piece)?;
        Ok(piece.taken)
    }
}

// Plays the bytes of a token. Where nothing is pending before and behind a sequence, the terminal obeys the token.
fn play_token(
    terminal: &mut Terminal,
    token: Token,
    idle: bool,
    bytes: &[u8],
    reports: &mut Reports,
) -> Result<(), OutOfMemory>
    requires { IsProper (command_of_token token) }
    ensures { (t : Term) → Shows terminal.old t
        → OnOk result (PlaysToken idle (command_of_token token.entry) t bytes.now terminal.new) }
{
    reports.set_place(0);
    if idle && is_sequence(&token) {
        terminal.obey(token, reports)?;
    } else {
        terminal.feed_in_place(bytes, reports)?;
    }
    Ok(())
}

// Whether a token is that of a sequence.
fn is_sequence(token: &Token) -> bool
    ensures { result ≡ is_sequence (command_of_token token.now) }
{
    !matches!(token, Token::Show(_) | Token::Error | Token::Control(_))
}

// What bytes without a command come to, by where the first one comes and by whether nothing is pending then.
fn none_piece(taken: usize, place: Place, byte: u8, done: bool) -> Piece
    ensures taken { result.taken ≡ taken }
    ensures leaving { result.leaving ≡ NoRow }
    ensures after { (pending : List ℕ) → is_ground pending ≡ done
        → result.after ≡ after_acting (acts (action_of (place_in place) byte) pending) }
{
    Piece {
        taken,
        leaving: Leaving::NoRow,
        after: after_nothing(place, byte, done),
    }
}

// Bytes at which nothing leaves, and that leave where what comes next comes.
fn kept(taken: usize) -> Piece
    ensures taken { result.taken ≡ taken }
    ensures leaving { result.leaving ≡ NoRow }
    ensures after { result.after ≡ Kept }
{
    Piece {
        taken,
        leaving: Leaving::NoRow,
        after: After::Kept,
    }
}

// What a character that is put does.
fn after_put(character: char) -> After
    ensures { result ≡ after_put character }
{
    if matches!(character, '\u{80}'..='\u{9F}') {
        After::Kept
    } else {
        After::Elsewhere
    }
}

// Whether what comes next comes directly behind home.
fn is_home_after(after: After, home: bool, screen: &Screen) -> bool
    ensures { result ≡ home_by after home screen.now.picture }
{
    match after {
        After::Kept => home,
        After::Elsewhere => false,
        After::Placed => is_home(screen),
    }
}

// How many bytes are read at once: directly behind home it counts what each of them does, elsewhere those by which a
// sequence begins or goes on.
fn most_taken(home: bool, state: &ParserState, bytes: &[u8]) -> usize
    requires { 0 < length bytes.now }
    ensures some { 0 < result }
    ensures within { result ≤ length bytes.now }
    ensures one { home ≡ true → result ≡ 1 }
    ensures goes { 1 < result → GoesOn state.now (take result bytes.now) }
{
    if home {
        return 1;
    }
    if bytes[0] == ESC {
        return 1 + printable_run(&bytes[1..]);
    }
    if is_ground(state) {
        return 1;
    }
    printable_run(bytes).max(1)
}

// What a byte without a command does, by where it comes and by whether nothing is pending then.
fn after_nothing(place: Place, byte: u8, done: bool) -> After
    ensures { (pending : List ℕ) → is_ground pending ≡ done
        → result ≡ after_acting (acts (action_of (place_in place) byte) pending) }
{
    if acts(place, byte, done) {
        After::Elsewhere
    } else {
        After::Kept
    }
}

fn is_ground(state: &ParserState) -> bool
    ensures ground { result ≡ true → state.now ≡ Ground }
    ensures other { state.now ≡ Ground → result ≡ true }
{
    matches!(state, ParserState::Ground)
}

// A control that has an effect.
fn is_effective(byte: u8) -> bool
    ensures { result ≡ is_within 8 15 byte }
{
    matches!(byte, 8..=15)
}

// A graphic character of ASCII.
fn is_graphic(byte: u8) -> bool
    ensures { result ≡ is_graphic byte }
{
    matches!(byte, 32..=126)
}

// How many characters of ASCII come that are put without a wrap, but at the first.
fn run_len(terminal: &Terminal, bytes: &[u8]) -> usize
    requires some { 0 < length bytes.now }
    requires first { is_graphic (slice_index bytes.now 0) ≡ true }
    ensures some { 0 < result }
    ensures within { result ≤ length bytes.now }
    ensures graphic { list_all is_graphic (take result bytes.now) ≡ true }
    ensures room { 1 < result → HasRoom terminal.now result }
{
    let room = room_for(terminal);
    printable_run(&bytes[..bytes.len().min(room)])
}

// How many of them at most.
fn room_for(terminal: &Terminal) -> usize
    ensures some { 0 < result }
    ensures room { 1 < result → HasRoom terminal.now result }
{
    let screen = terminal.screen();
    if screen.wrap() || !is_ascii(terminal) || !terminal.writes_on() {
        return 1;
    }
    (screen.columns() - screen.cursor().1) as usize + 1
}

// Whether the set in use is ASCII.
fn is_ascii(terminal: &Terminal) -> bool
    ensures { result ≡ true → set_in_use terminal.now.console.sets ≡ Ascii }
{
    let sets = terminal.sets();
    let set = match sets.invoked {
        Slot::G0 => sets.g0,
        Slot::G1 => sets.g1,
    };
    matches!(set, CharacterSet::Ascii)
}
