//! Sessions over a recording.
ghost use Rattle.std.specs.Prelude.{◌≡◌, ◌+◌, ◌-◌, ◌/◌, ◌<◌, ◌≤◌, None, All, length, unwrap_or, vec_capacity, vec_len, IfOk, IfErr, OnOk, OnErr, IsOk};
ghost use Rattle.tape_core.specs.Due.{due_count};
ghost use Rattle.tape_core.specs.Tape.{Tape, fits};
ghost use Rattle.tape_seek.specs.Edits.{CanBeLogged, edit_fault, edited, edited_all};
ghost use Rattle.tape_seek.specs.Kept.{IsReplay, PlaysOn, marks_of};
ghost use Rattle.tape_seek.specs.Marks.{after_edit, fed_by};
ghost use Rattle.vt_term.specs.declared.profile.Profile.TheVariants.{Vt100};

use crate::editing::{brings_bytes, edit_fault, first_touched, make};
use crate::edits::{Edit, EditFault};
use crate::replay::Replay;
use plays::{OutOfMemory, Plays};
use std::alloc::{AllocError, Global};
use std::marker::Model;
use tape_core::Recording;
use vt_term::{Profile, Terminal};

/// How many chunks may lie between the terminals that a session stores: the fewest, and the most (ours).
pub const LEAST_EVERY: usize = 1;

pub const MOST_EVERY: usize = 1_000_000;

/// An edit that was refused, and why.
#[derive(Debug, Drop)]
pub struct Refused {
    pub edit: Edit,
    pub fault: EditFault,
}

/// A recording that is edited and sought in. Contracts see which terminal plays, the recording as edited, the log, how many
/// chunks lie between stored terminals, the frontier and the head.
#[derive(Debug, Drop)]
pub struct Session<T: Plays = Terminal> {
    recording: Recording,
    log: Vec<Edit>,
    replay: Replay<T>,
}

impl<T: Plays> Model for Session<T> {
    ghost use Rattle.tape_seek.specs.State.{StateOf};

    ghost Value = { StateOf T.Profile };

    ghost use Rattle.tape_seek.specs.Kept.{IsSound, state_of};

    ghost view = { λ s. state_of s.recording s.log.items s.replay };

    ghost invariant = { λ s. IsSound T.Plays s.recording s.log.items s.replay };
}

/// The terminal at a count of chunks, and all reports by then.
#[derive(Debug, Drop)]
pub struct View<'a, T: Plays = Terminal> {
    terminal: &'a T,
    reports: &'a [u8],
    count: usize,
    fed: usize,
}

impl Session {
    ghost use Rattle.std.specs.Borrow.{sem};
    ghost use Rattle.tape_seek.specs.Headline.{TellsCount, TellsMoment};
    ghost use Rattle.tape_seek.specs.Lending.{LeavesSought};
    ghost use Rattle.tape_seek.specs.Moments.{term_at, up_to};
    ghost use Rattle.tape_seek.specs.State.{least_every, most_every, opened};
    ghost use Rattle.vt_term.specs.Seen.{Shows};

    /// Opens a session of a VT100, with a terminal stored at every so many chunks. For want of memory the recording comes
    /// back.
    pub fn open(alloc: Global, recording: Recording, every: usize) -> Result<Self, Recording>
        requires low { least_every ≤ every }
        requires high { every ≤ most_every }
        ensures ok { IfOk result (λ session. session ≡ opened Vt100 recording every) }
        ensures history { (o : Tape) → recording ≡ o
            → IfOk result (λ session. session.recording ≡ edited_all o session.log) }
        ensures err { IfErr result (λ back. back ≡ recording) }
    {
        Session::open_as(alloc, recording, every, Profile::Vt100)
    }

    /// The same of a profile.
    pub fn open_as(
        alloc: Global,
        recording: Recording,
        every: usize,
        profile: Profile,
    ) -> Result<Self, Recording>
        requires low { least_every ≤ every }
        requires high { every ≤ most_every }
        ensures ok { IfOk result (λ session. session ≡ opened profile recording every) }
        ensures history { (o : Tape) → recording ≡ o
            → IfOk result (λ session. session.recording ≡ edited_all o session.log) }
        ensures err { IfErr result (λ back. back ≡ recording) }
    {
        Session::open_with(alloc, recording, every, profile)
    }

    /// Goes to a moment, in microseconds: to the chunks that are due by then.
    pub fn seek(&mut self, moment: u64) -> Result<View<'_>, OutOfMemory>
        ensures* state { sem 𝓛
            (LeavesSought self.entry result (due_count self.old.recording.chunks moment)) }
        // The headline: of the recording that the session was opened with, edited by the log.
        ensures headline { IfOk result (λ view.
            TellsMoment self.old moment view.terminal.now view.reports.now) }
        ensures shows { IfOk result (λ view.
            Shows view.terminal.now (term_at self.old.profile self.old.recording moment)) }
        ensures reports { IfOk result (λ view.
            view.reports.now ≡ (term_at self.old.profile self.old.recording moment).reports) }
        ensures count { IfOk result (λ view.
            view.count ≡ due_count self.old.recording.chunks moment) }
        ensures fed { IfOk result (λ view. view.fed
            ≡ fed_by self.old.every (due_count self.old.recording.chunks moment) self.old.marks) }
        ensures room { due_count self.old.recording.chunks moment ≤ self.old.marks.frontier
            → IsOk result }
    {
        self.play_to(moment)
    }

    /// Goes to a count of chunks.
    pub fn seek_count(&mut self, count: usize) -> Result<View<'_>, OutOfMemory>
        requires { count ≤ length self.old.recording.chunks }
        ensures* state { sem 𝓛 (LeavesSought self.entry result count) }
        ensures headline { IfOk result (λ view.
            TellsCount self.old count view.terminal.now view.reports.now) }
        ensures shows { IfOk result (λ view.
            Shows view.terminal.now (up_to self.old.profile self.old.recording.chunks count)) }
        ensures reports { IfOk result (λ view.
            view.reports.now ≡ (up_to self.old.profile self.old.recording.chunks count).reports) }
        ensures count { IfOk result (λ view. view.count ≡ count) }
        ensures fed { IfOk result (λ view. view.fed ≡ fed_by self.old.every count self.old.marks) }
        ensures room { count ≤ self.old.marks.frontier → IsOk result }
    {
        self.play_to_count(count)
    }
}

impl<T: Plays> Session<T> {
    ghost use Rattle.std.specs.Borrow.{sem};
    ghost use Rattle.tape_core.specs.Due.{due, first as bytes_of_first};
    ghost use Rattle.tape_seek.specs.Lending.{LeavesSoughtBy};
    ghost use Rattle.tape_seek.specs.Played.{TellsCountBy, TellsMomentBy};
    ghost use Rattle.tape_seek.specs.State.{KeepsHistory, accepted, least_every, most_every, opened};

    /// Opens a session of a terminal that is set up so. For want of memory the recording comes back.
    pub fn open_with(
        alloc: Global,
        recording: Recording,
        every: usize,
        profile: T::Profile,
    ) -> Result<Self, Recording>
        requires low { least_every ≤ every }
        requires high { every ≤ most_every }
        ensures ok { IfOk result (λ session. session ≡ opened profile recording every) }
        ensures history { (o : Tape) → recording ≡ o
            → IfOk result (λ session. session.recording ≡ edited_all o session.log) }
        ensures err { IfErr result (λ back. back ≡ recording) }
    {
        let Ok(replay) = Replay::new(alloc, profile, every) else {
            return Err(recording);
        };
        let _chunks = recording.chunks();
        Ok(Session {
            recording,
            log: Vec::new(alloc),
            replay,
        })
    }

    /// Makes an edit, and appends it to the log. A refused edit comes back, and nothing has changed.
    pub fn apply(&mut self, edit: Edit) -> Result<(), Refused>
        ensures ok { OnOk result (self.new ≡ accepted edit self.old) }
        ensures sound { OnOk result (edit_fault self.old.recording edit ≡ None) }
        ensures err { OnErr result (self.new ≡ self.old) }
        ensures returned { IfErr result (λ refused. refused.edit ≡ edit) }
        // The fault is the edit's first; want of memory only where it has none.
        ensures fault { IfErr result (λ refused. refused.fault
            ≡ unwrap_or (edit_fault self.old.recording edit) EditFault.OutOfMemory) }
        ensures history { KeepsHistory self.old self.new }
    {
        if let Some(fault) = edit_fault(&self.recording, &edit) {
            return Err(Refused { edit, fault });
        }
        if grow(self.replay.alloc, &mut self.log, &mut self.recording, &edit).is_err() {
            return Err(Refused {
                edit,
                fault: EditFault::OutOfMemory,
            });
        }
        brings_bytes(&edit);
        cut(&mut self.replay, &edit);
        self.log.push_reserved(edit);
        Ok(())
    }

    /// Goes to a moment, in microseconds: to the chunks that are due by then.
    pub fn play_to(&mut self, moment: u64) -> Result<View<'_, T>, OutOfMemory>
        ensures* state { sem 𝓛
            (LeavesSoughtBy T.row T.Profile.row T.Packed.row T.Plays T.Profile.Debug T.Packed.Debug
            self.entry result (due_count self.old.recording.chunks moment)) }
        // The headline: of the recording that the session was opened with, edited by the log.
        ensures headline { IfOk result (λ view.
            TellsMomentBy T.Plays self.old moment view.terminal.now view.reports.now) }
        ensures shows { IfOk result (λ view.
            T.shows self.old.profile view.terminal.now (due self.old.recording.chunks moment)) }
        ensures reports { IfOk result (λ view.
            view.reports.now ≡ T.sent self.old.profile (due self.old.recording.chunks moment)) }
        ensures count { IfOk result (λ view.
            view.count ≡ due_count self.old.recording.chunks moment) }
        ensures fed { IfOk result (λ view. view.fed
            ≡ fed_by self.old.every (due_count self.old.recording.chunks moment) self.old.marks) }
        ensures room { due_count self.old.recording.chunks moment ≤ self.old.marks.frontier
            → IsOk result }
    {
        let count = self.recording.due_count(moment);
        self.replay.seek(self.recording.chunks(), count)?;
        let replay = &self.replay;
        Ok(View {
            terminal: &replay.working,
            reports: replay.sent_by(count),
            count,
            fed: replay.fed,
        })
    }

    /// Goes to a count of chunks.
    pub fn play_to_count(&mut self, count: usize) -> Result<View<'_, T>, OutOfMemory>
        requires { count ≤ length self.old.recording.chunks }
        ensures* state { sem 𝓛
            (LeavesSoughtBy T.row T.Profile.row T.Packed.row T.Plays T.Profile.Debug T.Packed.Debug
            self.entry result count) }
        ensures headline { IfOk result (λ view.
            TellsCountBy T.Plays self.old count view.terminal.now view.reports.now) }
        ensures shows { IfOk result (λ view.
            T.shows self.old.profile view.terminal.now
            (bytes_of_first self.old.recording.chunks count)) }
        ensures reports { IfOk result (λ view.
            view.reports.now
            ≡ T.sent self.old.profile (bytes_of_first self.old.recording.chunks count)) }
        ensures count { IfOk result (λ view. view.count ≡ count) }
        ensures fed { IfOk result (λ view. view.fed ≡ fed_by self.old.every count self.old.marks) }
        ensures room { count ≤ self.old.marks.frontier → IsOk result }
    {
        self.replay.seek(self.recording.chunks(), count)?;
        let replay = &self.replay;
        Ok(View {
            terminal: &replay.working,
            reports: replay.sent_by(count),
            count,
            fed: replay.fed,
        })
    }

    /// The count up to which every chunk was fed, and what the seeks kept is still right.
    pub fn frontier(&self) -> usize
        ensures { result ≡ self.now.marks.frontier }
    {
        self.replay.frontier
    }

    /// The count at which the working terminal stands.
    pub fn head(&self) -> usize
        ensures { result ≡ self.now.marks.head }
    {
        self.replay.head
    }

    /// The working terminal, which stands at the head. Its marks tell what the last chunk may have touched.
    pub fn terminal(&self) -> &T
        ensures shows { T.shows self.now.profile result.now
            (bytes_of_first self.now.recording.chunks self.now.marks.head) }
        ensures told { T.told self.now.profile result.now
            (bytes_of_first self.now.recording.chunks (self.now.marks.head - 1)) }
    {
        &self.replay.working
    }

    /// How many terminals are kept, the working one included.
    pub fn held(&self) -> usize
        ensures { result ≡ self.now.marks.frontier / self.now.every + 1 }
    {
        self.replay.stored.len() + 1
    }

    /// The recording as edited.
    pub fn recording(&self) -> &Recording
        ensures { result.now ≡ self.now.recording }
    {
        &self.recording
    }

    /// The accepted edits in order. Each is read back from its line, as `laws::a_written_edit_is_read` says.
    pub fn log(&self) -> &[Edit]
        ensures value { result.now ≡ self.now.log }
        ensures writable { All CanBeLogged result.now }
    {
        self.log.as_slice()
    }
}

/// Makes room for the edit in the log, and makes it. For want of memory neither log nor recording has changed.
fn grow(
    alloc: Global,
    log: &mut Vec<Edit>,
    recording: &mut Recording,
    edit: &Edit,
) -> Result<(), AllocError>
    requires { edit_fault recording.old edit.now ≡ None }
    ensures log { log.new.items ≡ log.old.items }
    ensures room { OnOk result (vec_len log.new < vec_capacity log.new) }
    ensures fitting { fits recording.old → fits recording.new }
    ensures ok { OnOk result (recording.new ≡ edited recording.old edit.now) }
    ensures err { OnErr result (recording.new ≡ recording.old) }
{
    log.reserve(1)?;
    make(alloc, recording, edit)
}

/// Gives up what was kept past the chunk that the edit touches first, if it touches the bytes of any.
#[tactic(auto, using(crate::proofs::ReplayLemmas::plays_on))]
fn cut<T: Plays>(replay: &mut Replay<T>, edit: &Edit)
    requires { (tape : Tape) × IsReplay T.Plays tape.chunks replay.old }
    ensures replay { (tape : Tape) → IsReplay T.Plays tape.chunks replay.old
        → edit_fault tape edit.now ≡ None
        → IsReplay T.Plays (edited tape edit.now).chunks replay.new }
    ensures rest { PlaysOn replay.old replay.new }
    ensures marks { marks_of replay.new
        ≡ after_edit replay.old.every edit.now (marks_of replay.old) }
{
    if let Some(first) = first_touched(edit) {
        replay.cut(first);
    }
}

impl<'a, T: Plays> View<'a, T> {
    /// The terminal at the count.
    pub fn terminal(&self) -> &'a T
        ensures { result.now ≡ self.now.terminal.now }
    {
        self.terminal
    }

    /// All that it has sent by then.
    pub fn reports(&self) -> &'a [u8]
        ensures { result.now ≡ self.now.reports.now }
    {
        self.reports
    }

    /// The count of chunks.
    pub fn count(&self) -> usize
        ensures { result ≡ self.now.count }
    {
        self.count
    }

    /// How many chunks the seek fed.
    pub fn fed(&self) -> usize
        ensures { result ≡ self.now.fed }
    {
        self.fed
    }
}
