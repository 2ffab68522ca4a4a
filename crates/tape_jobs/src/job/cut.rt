//! The jobs `cut` and `excerpt`: a stretch of a recording goes, or is all that stays, and in the place of what goes stands
//! the state of the terminal. Both files are written anew.

ghost use Rattle.std.specs.Prelude.{◌≡◌, IfErr, Ok, OnOk, false};
ghost use Rattle.tape_core.specs.Devices.{has_failed};
ghost use Rattle.tape_core.specs.Due.{due};
ghost use Rattle.tape_cut.specs.CutEdits.{cut_edits, excerpt_edits};
ghost use Rattle.tape_jobs.specs.Endings.{JobEnds, used, writers_of};
ghost use Rattle.tape_jobs.specs.Output.{cut_by, done_by, excerpt_by};
ghost use Rattle.tape_jobs.specs.Requests.{StopsMaking, made_by};
ghost use Rattle.command_line.specs.declared.player.Player.{Player as Played};

use crate::job::{Ending, JobFault};
use crate::player::{Setup, set_up};
use crate::shared::{EVERY, open_session};
use command_line::{Job, Player};
use plays::Plays;
use screen_state::VtState;
use std::alloc::Global;
use std::io::Write;
use std::mem::ManuallyDrop;
use tape_core::{Recording, Watched, write_script, write_timing};
use tape_cut::{StateText, cut, excerpt};
use tape_seek::Session;
use xterm_state::TodayState;

/// Leaves out what is due after `from` and by `to`, and writes the whole script, and after it the timing. Nothing is
/// written where an edit is refused, or memory.
#[tactic(auto, unfolding(crate::specs::Moment::state_at))]
pub fn write_cut<O: Write, P: Write>(
    alloc: Global,
    recording: Recording,
    player: Player,
    from: u64,
    to: u64,
    out: &mut Watched<O>,
    out_timing: &mut Watched<P>,
) -> Result<Ending, JobFault>
    requires out { has_failed out.old ≡ false }
    requires out_timing { has_failed out_timing.old ≡ false }
    ensures { let writers = writers_of (used O.contents out.old out.new)
        (used P.contents out_timing.old out_timing.new) in
        JobEnds writers (Job.Cut from to player) (cut_by from to player recording) result }
{
    match set_up(player, &recording) {
        Setup::Vt(profile) => put_cut::<vt_term::Terminal, VtState, O, P>(
            alloc, recording, profile, from, to, out, out_timing,
        ),
        Setup::Today(size) => put_cut::<xterm_term::Terminal, TodayState, O, P>(
            alloc, recording, size, from, to, out, out_timing,
        ),
    }
}

/// Keeps only what is due after `from` and by `to`, and writes the whole script, and after it the timing. Nothing is
/// written where an edit is refused, or memory.
#[tactic(auto, unfolding(crate::specs::Moment::state_at))]
pub fn write_excerpt<O: Write, P: Write>(
    alloc: Global,
    recording: Recording,
    player: Player,
    from: u64,
    to: Option<u64>,
    out: &mut Watched<O>,
    out_timing: &mut Watched<P>,
) -> Result<Ending, JobFault>
    requires out { has_failed out.old ≡ false }
    requires out_timing { has_failed out_timing.old ≡ false }
    ensures { let writers = writers_of (used O.contents out.old out.new)
        (used P.contents out_timing.old out_timing.new) in
        JobEnds writers (Job.Excerpt from to player) (excerpt_by from to player recording) result }
{
    match set_up(player, &recording) {
        Setup::Vt(profile) => put_excerpt::<vt_term::Terminal, VtState, O, P>(
            alloc, recording, profile, from, to, out, out_timing,
        ),
        Setup::Today(size) => put_excerpt::<xterm_term::Terminal, TodayState, O, P>(
            alloc, recording, size, from, to, out, out_timing,
        ),
    }
}

/// Leaves it out of a recording that a terminal plays which is set up so, and writes both files.
#[tactic(auto, using(crate::proofs::JobLemmas::part_none))]
fn put_cut<T: Plays, S: StateText<T>, O: Write, P: Write>(
    alloc: Global,
    recording: Recording,
    profile: T::Profile,
    from: u64,
    to: u64,
    out: &mut Watched<O>,
    out_timing: &mut Watched<P>,
) -> Result<Ending, JobFault>
    requires out { has_failed out.old ≡ false }
    requires out_timing { has_failed out_timing.old ≡ false }
    ensures { (player : Played) → let writers = writers_of (used O.contents out.old out.new)
        (used P.contents out_timing.old out_timing.new) in
        JobEnds writers (Job.Cut from to player)
        (done_by (cut_edits from to (S.text profile (due recording.chunks to)) recording) recording) result }
{
    let session = open_session::<T>(alloc, recording, EVERY, profile)?;
    let mut session = ManuallyDrop::new(session);
    make_cut::<T, S>(alloc, &mut session, from, to)?;
    write_script(session.recording(), out)?;
    write_timing(session.recording(), out_timing)?;
    Ok(Ending::Clean)
}

/// Keeps it of such a recording, and writes both files.
#[tactic(auto, using(crate::proofs::JobLemmas::part_none))]
fn put_excerpt<T: Plays, S: StateText<T>, O: Write, P: Write>(
    alloc: Global,
    recording: Recording,
    profile: T::Profile,
    from: u64,
    to: Option<u64>,
    out: &mut Watched<O>,
    out_timing: &mut Watched<P>,
) -> Result<Ending, JobFault>
    requires out { has_failed out.old ≡ false }
    requires out_timing { has_failed out_timing.old ≡ false }
    ensures { (player : Played) → let writers = writers_of (used O.contents out.old out.new)
        (used P.contents out_timing.old out_timing.new) in
        JobEnds writers (Job.Excerpt from to player)
        (done_by (excerpt_edits from to (S.text profile (due recording.chunks from)) recording) recording) result }
{
    let session = open_session::<T>(alloc, recording, EVERY, profile)?;
    let mut session = ManuallyDrop::new(session);
    make_excerpt::<T, S>(alloc, &mut session, from, to)?;
    write_script(session.recording(), out)?;
    write_timing(session.recording(), out_timing)?;
    Ok(Ending::Clean)
}

/// Makes the edits of a cut, up to the first that is refused.
#[tactic(auto, using(crate::proofs::MakingLemmas::all_made, crate::proofs::MakingLemmas::stops_making))]
fn make_cut<T: Plays, S: StateText<T>>(
    alloc: Global,
    session: &mut Session<T>,
    from: u64,
    to: u64,
) -> Result<(), JobFault>
    ensures ok { let tape = session.old.recording in
        let edits = cut_edits from to (S.text session.old.profile (due tape.chunks to)) tape in
        OnOk result (made_by edits tape ≡ Ok session.new.recording) }
    ensures fault { let tape = session.old.recording in
        let edits = cut_edits from to (S.text session.old.profile (due tape.chunks to)) tape in
        IfErr result (StopsMaking (made_by edits tape)) }
{
    cut::<T, S>(alloc, session, from, to)?;
    Ok(())
}

/// Makes those of an excerpt.
#[tactic(auto, using(crate::proofs::MakingLemmas::all_made, crate::proofs::MakingLemmas::stops_making))]
fn make_excerpt<T: Plays, S: StateText<T>>(
    alloc: Global,
    session: &mut Session<T>,
    from: u64,
    to: Option<u64>,
) -> Result<(), JobFault>
    ensures ok { let tape = session.old.recording in
        let edits = excerpt_edits from to (S.text session.old.profile (due tape.chunks from)) tape in
        OnOk result (made_by edits tape ≡ Ok session.new.recording) }
    ensures fault { let tape = session.old.recording in
        let edits = excerpt_edits from to (S.text session.old.profile (due tape.chunks from)) tape in
        IfErr result (StopsMaking (made_by edits tape)) }
{
    excerpt::<T, S>(alloc, session, from, to)?;
    Ok(())
}
