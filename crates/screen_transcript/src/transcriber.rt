//! A VT100 of which the rows that leave are told.
ghost use Rattle.std.specs.Prelude.{◌≡◌, ◌<◌, ◌≤◌, ◌&&◌, ℕ, IfOk, List, OnErr, OnOk, Some, length, not, slice_index, take, true};
ghost use Rattle.transcripts.specs.Acting.{place_in};
ghost use Rattle.transcripts.specs.Told.{Tells, TellsFront};
ghost use Rattle.screen_transcript.specs.Home.{acts, is_empty, is_home, places};
ghost use Rattle.screen_transcript.specs.Playing.{HasRoom, IsPlayed};
ghost use Rattle.screen_transcript.specs.Transcribed.{Transcribed, left, play_on};
ghost use Rattle.vt_parser.specs.declared.states.ParserState.TheVariants.{Ground};
ghost use Rattle.vt_parser.specs.Syntax.{action_of, is_graphic};
ghost use Rattle.vt_parser.specs.Token.{TellsOf, command_of_token};
ghost use Rattle.vt_term.specs.Effect.{IsRead};
ghost use Rattle.vt_term.specs.Term.{Term, mode_of, play};

use crate::home::{acts, is_home, places};
use crate::leaving::{Leaving, leaving_at};
use crate::rows::{is_graphic, tell_leaving};
use plays::{OutOfMemory, Reports};
use std::io::Write;
use tape_core::Watched;
use transcripts::{Place, Rows, place_of};
use vt_parser::{Parser, ParserState, Token};
use vt_screen::Screen;
use vt_term::Performer;

/// A VT100 or VT102 terminal that tells the rows that leave its screen.
#[derive(Drop)]
pub struct Transcriber {
    pub(crate) terminal: Performer,
    // It tells what bytes come to before the terminal obeys.
    pub(crate) parser: Parser,
    // What comes next comes directly behind home.
    pub(crate) home: bool,
    // Replies are dropped: each is sent over the ones before.
    pub(crate) reports: Reports,
}

impl Transcriber {
    /// Plays some of the bytes, at least one, to the first at which rows leave, and tells these.
    pub(crate) fn tell_on<W: Write>(
        &mut self,
        bytes: &[u8],
        rows: &mut Rows,
        writer: &mut Watched<W>,
    ) -> Result<usize, OutOfMemory>
        requires { 0 < length bytes.now }
        ensures some { IfOk result (λ taken. 0 < taken) }
        ensures within { IfOk result (λ taken. taken ≤ length bytes.now) }
        ensures played { (x : Transcribed) → IsPlayed self.old x
            → IfOk result (λ taken. IsPlayed self.new (play_on x (take taken bytes.now))) }
        ensures tells { (x : Transcribed) → IsPlayed self.old x
            → IfOk result (λ taken. Tells W.contents writer.old rows.old writer.new rows.new
            (left x (take taken bytes.now))) }
        ensures front { (x : Transcribed) → IsPlayed self.old x
            → OnErr result (TellsFront W.contents writer.old rows.old writer.new rows.new
            (left x bytes.now)) }
    {
        let mut taken = 0;
        let mut stays = true;
        while stays && taken < bytes.len() {
            let (len, leaving) = self.tell_next(&bytes[taken..], rows, writer)?;
            taken += len;
            stays = matches!(leaving, Leaving::NoRow);
        }
        Ok(taken)
    }

    // The same of what the next bytes come to.
    #[inline(always)]
    fn tell_next<W: Write>(
        &mut self,
        bytes: &[u8],
        rows: &mut Rows,
        writer: &mut Watched<W>,
    ) -> Result<(usize, Leaving), OutOfMemory>
        requires { 0 < length bytes.now }
        ensures some { IfOk result (λ told. 0 < told.0) }
        ensures within { IfOk result (λ told. told.0 ≤ length bytes.now) }
        ensures played { (x : Transcribed) → IsPlayed self.old x
            → IfOk result (λ told. IsPlayed self.new (play_on x (take told.0 bytes.now))) }
        ensures tells { (x : Transcribed) → IsPlayed self.old x
            → IfOk result (λ told. Tells W.contents writer.old rows.old writer.new rows.new
            (left x (take told.0 bytes.now))) }
        ensures front { (x : Transcribed) → IsPlayed self.old x
            → OnErr result (TellsFront W.contents writer.old rows.old writer.new rows.new
            (left x bytes.now)) }
    {
        let most = most_taken(
            self.home,
            self.parser.state(),
            self.terminal.screen(),
            bytes,
        );
        let place = place_of(self.parser.state());
        let (taken, token) = self.parser.next(self.terminal.mode(), &bytes[..most]);
        let Some(token) = token else {
            let done = is_ground(self.parser.state());
            self.home = stays_home(self.home, place, bytes[0], done);
            return Ok((taken, Leaving::NoRow));
        };
        let leaving = leaving_at(&token, self.home, self.terminal.screen());
        tell_leaving(leaving, self.terminal.screen(), rows, writer)?;
        self.home = obey(&mut self.terminal, token, &mut self.reports)?;
        Ok((taken, leaving))
    }

    /// Plays bytes, and tells no row.
    pub(crate) fn pass_over(&mut self, bytes: &[u8]) -> Result<(), OutOfMemory>
        ensures { (x : Transcribed) → IsPlayed self.old x
            → OnOk result (IsPlayed self.new (play_on x bytes.now)) }
    {
        let mut rest = bytes;
        while !rest.is_empty() {
            let taken = self.pass_next(rest)?;
            rest = &rest[taken..];
        }
        Ok(())
    }

    // The same of what the next bytes come to.
    fn pass_next(&mut self, bytes: &[u8]) -> Result<usize, OutOfMemory>
        requires { 0 < length bytes.now }
        ensures some { IfOk result (λ taken. 0 < taken) }
        ensures within { IfOk result (λ taken. taken ≤ length bytes.now) }
        ensures played { (x : Transcribed) → IsPlayed self.old x
            → IfOk result (λ taken. IsPlayed self.new (play_on x (take taken bytes.now))) }
    {
        let most = most_taken(
            self.home,
            self.parser.state(),
            self.terminal.screen(),
            bytes,
        );
        let place = place_of(self.parser.state());
        let (taken, token) = self.parser.next(self.terminal.mode(), &bytes[..most]);
        let Some(token) = token else {
            let done = is_ground(self.parser.state());
            self.home = stays_home(self.home, place, bytes[0], done);
            return Ok(taken);
        };
        self.home = obey(&mut self.terminal, token, &mut self.reports)?;
        Ok(taken)
    }
}

// Obeys a token, and says whether what comes next comes directly behind home.
#[inline(always)]
fn obey(terminal: &mut Performer, token: Token, reports: &mut Reports) -> Result<bool, OutOfMemory>
    requires { IsRead token }
    ensures played { (x : Term) (bytes : List ℕ) → x.console ≡ terminal.old
        → TellsOf (mode_of x) (mode_of x) x.pending bytes (Some token.entry)
        → OnOk result (terminal.new ≡ (play x bytes).console) }
    ensures home { IfOk result (λ home. home
        ≡ (places (command_of_token token.entry) && is_home terminal.new.picture)) }
{
    reports.set_place(0);
    terminal.obey(token, reports)?;
    Ok(places(&token) && is_home(terminal.screen()))
}

// Whether what comes next still comes directly behind home, behind a byte without a command, by where that came and by
// whether nothing is pending then.
fn stays_home(home: bool, place: Place, byte: u8, done: bool) -> bool
    ensures { (pending : List ℕ) → is_empty pending ≡ done
        → result ≡ (home && not (acts (action_of (place_in place) byte) pending)) }
{
    home && !acts(place, byte, done)
}

// How many bytes are read at once: directly behind home it counts what each of them does, and of characters on ground as
// many as are put without a wrap, but at the first.
fn most_taken(home: bool, state: &ParserState, screen: &Screen, bytes: &[u8]) -> usize
    requires { 0 < length bytes.now }
    ensures some { 0 < result }
    ensures within { result ≤ length bytes.now }
    ensures one { home ≡ true → result ≡ 1 }
    ensures room { 1 < result → state.now ≡ Ground
        → is_graphic (slice_index bytes.now 0) ≡ true → HasRoom screen.now.picture result }
{
    if home {
        1
    } else if is_ground(state) && is_graphic(bytes[0]) {
        bytes.len().min(room_for(screen))
    } else {
        bytes.len()
    }
}

fn is_ground(state: &ParserState) -> bool
    ensures ground { result ≡ true → state.now ≡ Ground }
    ensures other { state.now ≡ Ground → result ≡ true }
{
    matches!(state, ParserState::Ground)
}

// How many characters at most are put so.
fn room_for(screen: &Screen) -> usize
    ensures some { 0 < result }
    ensures room { HasRoom screen.now.picture result }
{
    if screen.wrap() {
        return 1;
    }
    let (line, column) = screen.cursor();
    (screen.right_margin(line) - column) as usize + 1
}
