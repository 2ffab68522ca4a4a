//! The job `redact`: both files anew without a text, and then where it still comes to stand on the screen.

ghost use Rattle.std.specs.Prelude.{◌≡◌, ◌⊎◌, ◌≢◌, ◌&&◌, ℕ, List, None, OnOk, Some, encode_utf8_all, false, nat_lt, string_bytes, true, IfErr, IfOk};
ghost use Rattle.tape_core.specs.Devices.{Puts, has_failed, inner_of, is_flushed};
ghost use Rattle.tape_core.specs.Faults.{is_stop};
ghost use Rattle.tape_core.specs.Reading.{fault_of, reads};
ghost use Rattle.tape_check.specs.Header.{told_size};
ghost use Rattle.tape_check.specs.Trailer.{is_usual};
ghost use Rattle.tape_core.specs.Written.{script_text, timing_text};
ghost use Rattle.tape_core.specs.declared.fault.Fault.TheVariants as fault;
ghost use Rattle.tape_seek.specs.State.{most_every, opened};
ghost use Rattle.tape_jobs.specs.Endings.{JobEnds, used, writers_of};
ghost use Rattle.tape_jobs.specs.Mending.{pair_of};
ghost use Rattle.tape_jobs.specs.Output.{count_of_text, done_redacting, ending_of_redact, is_fit, is_same_profile, is_same_size, keeps_profile, without_text};
ghost use Rattle.tape_jobs.specs.Player.{played_of};
ghost use Rattle.tape_jobs.specs.Redacting.{FourEnd, PairPuts, RedactEnds, count_line};

use crate::answers::Answers;
use crate::job::find::{finds, put_lines};
use crate::job::note::tell_note;
use crate::job::{Ending, JobFault, Outcome, outcome_in};
use crate::laws::nowhere_means_nowhere;
use crate::player::{Setup, set_up};
use crate::shared::{EVERY, open_session};
use command_line::{Job, Player};
use itoa::Buffer;
use std::alloc::{AllocError, Global};
use std::io::{Read, Write};
use std::mem::ManuallyDrop;
use tape_check::{is_usual, told_profile, told_size};
use tape_core::limits::LAST_MOMENT;
use tape_core::{Fault, Recording, Watched, read_recording_of, slurp, write_script, write_timing};
use tape_redact::{Redaction, redact_recording};
use tape_seek::Session;
use vt_term::Profile;

/// Takes a text out of a pair of files: reads both whole, tells the note of the recording, writes the typescript without
/// the text and then its timing, and tells how often it was taken out, and then each place at which it comes to stand on
/// the screen of the new recording all the same.
///
/// It is done, with status 1 where the text stood nowhere or something of it may be left; or refused, where the pair has
/// a fault: then nothing is written. It ends for want of memory, or as a device fails: then a beginning of the four texts
/// has gone out, the timing not before the typescript is whole, and what is told not before both files are; and nothing,
/// where it ended while the files were read. Each fault has status 3. No fault is retried.
pub fn redact<S: Read, T: Read, O: Write, P: Write, L: Write, F: Write, N: Write>(
    alloc: Global,
    player: Player,
    text: &[char],
    script: &mut Watched<S>,
    timing: &mut Watched<T>,
    out: &mut Watched<O>,
    out_timing: &mut Watched<P>,
    told: &mut Watched<L>,
    found: &mut Watched<F>,
    notes: &mut Watched<N>,
) -> Outcome
    requires script { has_failed script.old ≡ false }
    requires timing { has_failed timing.old ≡ false }
    requires out { has_failed out.old ≡ false }
    requires out_timing { has_failed out_timing.old ≡ false }
    requires told { has_failed told.old ≡ false }
    requires found { has_failed found.old ≡ false }
    requires notes { has_failed notes.old ≡ false }
    ensures { let pair = pair_of (used S.remaining script.old script.new)
        (used T.remaining timing.old timing.new) in
        let writers = writers_of (used O.contents out.old out.new)
        (used P.contents out_timing.old out_timing.new) in
        RedactEnds pair writers (used L.contents told.old told.new)
        (used F.contents found.old found.new) (used N.contents notes.old notes.new)
        player text.now result }
{
    let job = Job::Redact { player };
    match read_pair(alloc, script, timing) {
        Ok(recording) => {
            nowhere_means_nowhere();
            tell_note(job, &recording, 0, notes);
            let ended = write_and_tell(
                alloc, recording, player, text, out, out_timing, told, found,
            );
            outcome_in(job, ended)
        }
        Err(fault) => outcome_in(job, Err(JobFault::File(fault))),
    }
}

/// Reads both files whole, and then the recording.
fn read_pair<S: Read, T: Read>(
    alloc: Global,
    script: &mut Watched<S>,
    timing: &mut Watched<T>,
) -> Result<Recording, Fault>
    requires script { has_failed script.old ≡ false }
    requires timing { has_failed timing.old ≡ false }
    ensures ok { IfOk result (λ recording. (s : List ℕ) (t : List ℕ)
        → S.remaining (inner_of script.old) ≡ Some s → T.remaining (inner_of timing.old) ≡ Some t
        → reads s t recording) }
    ensures fault { IfErr result (λ fault. is_stop fault ≡ false → (s : List ℕ) (t : List ℕ)
        → S.remaining (inner_of script.old) ≡ Some s → T.remaining (inner_of timing.old) ≡ Some t
        → fault_of s t ≡ Some fault) }
    ensures sound { result ≢ Err Fault.ReadFault
        → (has_failed script.new ≡ false) × (has_failed timing.new ≡ false) }
    ensures read_fault { IfErr result (λ f. f ≡ fault.ReadFault
        → (has_failed script.new ≡ true) ⊎ (has_failed timing.new ≡ true)) }
    ensures no_write_fault { IfErr result (λ f. f ≢ fault.WriteFault) }
{
    let script = slurp(alloc, script)?;
    let timing = slurp(alloc, timing)?;
    read_recording_of(alloc, script, &timing)
}

/// Writes both files, and when they are whole tells how often the text was taken out, and where it still stands.
fn write_and_tell<O: Write, P: Write, L: Write, F: Write>(
    alloc: Global,
    recording: Recording,
    player: Player,
    text: &[char],
    out: &mut Watched<O>,
    out_timing: &mut Watched<P>,
    told: &mut Watched<L>,
    found: &mut Watched<F>,
) -> Result<Ending, JobFault>
    requires out { has_failed out.old ≡ false }
    requires out_timing { has_failed out_timing.old ≡ false }
    requires told { has_failed told.old ≡ false }
    requires found { has_failed found.old ≡ false }
    ensures { let writers = writers_of (used O.contents out.old out.new)
        (used P.contents out_timing.old out_timing.new) in
        FourEnd writers (used L.contents told.old told.new) (used F.contents found.old found.new)
        player text.now recording result }
{
    match set_up(player, &recording) {
        Setup::Vt(profile) => write_four::<vt_term::Terminal, O, P, L, F>(
            alloc, recording, player, profile, text, out, out_timing, told, found,
        ),
        Setup::Today(size) => {
            write_four::<xterm_term::Terminal, O, P, L, F>(
                alloc, recording, player, size, text, out, out_timing, told, found,
            )
        }
    }
}

/// The same for a terminal that is set up so.
fn write_four<T: Answers, O: Write, P: Write, L: Write, F: Write>(
    alloc: Global,
    recording: Recording,
    player: Player,
    profile: T::Profile,
    text: &[char],
    out: &mut Watched<O>,
    out_timing: &mut Watched<P>,
    told: &mut Watched<L>,
    found: &mut Watched<F>,
) -> Result<Ending, JobFault>
    requires out { has_failed out.old ≡ false }
    requires out_timing { has_failed out_timing.old ≡ false }
    requires told { has_failed told.old ≡ false }
    requires found { has_failed found.old ≡ false }
    requires played { played_of player recording ≡ T.played profile }
    ensures { let writers = writers_of (used O.contents out.old out.new)
        (used P.contents out_timing.old out_timing.new) in
        FourEnd writers (used L.contents told.old told.new) (used F.contents found.old found.new)
        player text.now recording result }
{
    let cleared = clear::<T>(alloc, recording, player, profile, text)?;
    let mut cleared = ManuallyDrop::new(cleared);
    let count = cleared.count;
    write_pair(cleared.session.recording(), out, out_timing)?;
    tell_count(count, told)?;
    let found = put_lines(alloc, &mut cleared.session, None, LAST_MOMENT, text, found)?;
    Ok(ending_of(cleared.fit, found))
}

/// Writes both files, and tells nothing of them. It takes all its memory before.
pub fn write_redacted<O: Write, P: Write>(
    alloc: Global,
    recording: Recording,
    player: Player,
    text: &[char],
    out: &mut Watched<O>,
    out_timing: &mut Watched<P>,
) -> Result<Ending, JobFault>
    requires out { has_failed out.old ≡ false }
    requires out_timing { has_failed out_timing.old ≡ false }
    ensures { let writers = writers_of (used O.contents out.old out.new)
        (used P.contents out_timing.old out_timing.new) in
        JobEnds writers (Job.Redact player) (done_redacting player text.now recording) result }
{
    match set_up(player, &recording) {
        Setup::Vt(profile) => write_cleared::<vt_term::Terminal, O, P>(
            alloc, recording, player, profile, text, out, out_timing,
        ),
        Setup::Today(size) => {
            write_cleared::<xterm_term::Terminal, O, P>(
                alloc, recording, player, size, text, out, out_timing,
            )
        }
    }
}

/// The same for a terminal that is set up so.
fn write_cleared<T: Answers, O: Write, P: Write>(
    alloc: Global,
    recording: Recording,
    player: Player,
    profile: T::Profile,
    text: &[char],
    out: &mut Watched<O>,
    out_timing: &mut Watched<P>,
) -> Result<Ending, JobFault>
    requires out { has_failed out.old ≡ false }
    requires out_timing { has_failed out_timing.old ≡ false }
    requires played { played_of player recording ≡ T.played profile }
    ensures { let writers = writers_of (used O.contents out.old out.new)
        (used P.contents out_timing.old out_timing.new) in
        JobEnds writers (Job.Redact player) (done_redacting player text.now recording) result }
{
    let cleared = clear::<T>(alloc, recording, player, profile, text)?;
    let mut cleared = ManuallyDrop::new(cleared);
    let found = finds(alloc, &mut cleared.session, None, LAST_MOMENT, text)?;
    write_pair(cleared.session.recording(), out, out_timing)?;
    Ok(ending_of(cleared.fit, found))
}

/// A session of a recording without the text, how often that was taken out, and whether what is seen of it without playing
/// is well.
#[derive(Drop)]
struct Cleared<T: Answers> {
    session: Session<T>,
    count: usize,
    fit: bool,
}

/// Takes the text out of a recording, of which a session is opened.
fn clear<T: Answers>(
    alloc: Global,
    recording: Recording,
    player: Player,
    profile: T::Profile,
    text: &[char],
) -> Result<Cleared<T>, JobFault>
    ensures session { IfOk result (λ cleared. cleared.session
        ≡ opened profile (without_text text.now recording) most_every) }
    ensures count { IfOk result (λ cleared. cleared.count ≡ count_of_text text.now recording) }
    ensures fit { IfOk result (λ cleared. cleared.fit ≡ is_fit player text.now recording) }
    ensures fault { IfErr result (λ fault. fault ≡ JobFault.Memory) }
{
    let recording = ManuallyDrop::new(recording);
    let Ok(text) = utf8_of(alloc, text) else {
        return Err(JobFault::Memory);
    };
    let Ok(redaction) = redact_recording(alloc, &recording, text.as_bytes()) else {
        return Err(JobFault::Memory);
    };
    let fit = is_fit(player, &recording, &redaction);
    let count = redaction.count;
    let session = open_session::<T>(alloc, redaction.recording, EVERY, profile)?;
    Ok(Cleared {
        session,
        count,
        fit,
    })
}

/// Whether what is seen of a redaction of this recording without playing it is well.
fn is_fit(player: Player, recording: &Recording, redaction: &Redaction) -> bool
    ensures { let made = redaction.now.recording in
        result ≡ (nat_lt 0 redaction.now.count && (keeps_profile player recording.now made
        && (is_same_size (told_size recording.now) (told_size made) && is_usual made.trailer))) }
{
    redaction.count > 0
        && keeps_profile(player, recording, &redaction.recording)
        && tells_same(recording, &redaction.recording)
        && is_usual(redaction.recording.trailer())
}

/// Whether a recording with the other header is played by the same terminal, where the headers say which one.
fn keeps_profile(player: Player, old: &Recording, new: &Recording) -> bool
    ensures { result ≡ keeps_profile player old.now new.now }
{
    match player {
        Player::Vt(_) | Player::Today(_) => true,
        Player::Auto(_) => is_same_profile(told_profile(old), told_profile(new)),
    }
}

/// Whether two headers tell the same profile, or neither does.
fn is_same_profile(old: Option<Profile>, new: Option<Profile>) -> bool
    ensures { result ≡ is_same_profile old new }
{
    match (old, new) {
        (None, None) => true,
        (Some(Profile::Vt100), Some(Profile::Vt100)) => true,
        (Some(Profile::Vt102), Some(Profile::Vt102)) => true,
        _ => false,
    }
}

/// Characters in UTF-8.
fn utf8_of(alloc: Global, text: &[char]) -> Result<String, AllocError>
    ensures { IfOk result (λ utf8. string_bytes utf8 ≡ encode_utf8_all text.now) }
{
    text.iter().copied().collect(alloc)
}

/// Whether the headers of two recordings tell the same size, or neither does.
fn tells_same(old: &Recording, new: &Recording) -> bool
    ensures { result ≡ is_same_size (told_size old.now) (told_size new.now) }
{
    match (told_size(old), told_size(new)) {
        (None, None) => true,
        (Some(old), Some(new)) => old.0 == new.0 && old.1 == new.1,
        _ => false,
    }
}

/// Writes the whole script, and after it the timing.
fn write_pair<O: Write, P: Write>(
    recording: &Recording,
    out: &mut Watched<O>,
    out_timing: &mut Watched<P>,
) -> Result<(), JobFault>
    requires out { has_failed out.old ≡ false }
    requires out_timing { has_failed out_timing.old ≡ false }
    ensures { let writers = writers_of (used O.contents out.old out.new)
        (used P.contents out_timing.old out_timing.new) in
        PairPuts writers (script_text recording.now) (timing_text recording.now) result }
{
    write_script(recording, out)?;
    write_timing(recording, out_timing)?;
    Ok(())
}

/// Tells how often the text was taken out, and flushes.
fn tell_count<L: Write>(count: usize, told: &mut Watched<L>) -> Result<(), Fault>
    requires { has_failed told.old ≡ false }
    ensures puts { Puts L.contents told.old told.new (count_line count) result }
    ensures flushed { OnOk result (is_flushed told.new ≡ true) }
{
    told.give_all(&[b"redacted ", Buffer::new().format(count).as_bytes(), b"\n"]);
    told.settle()
}

/// How redacting ends, by whether what is seen of it without playing is well, and whether the text still came to stand on
/// the screen.
fn ending_of(fit: bool, found: bool) -> Ending
    ensures { result ≡ ending_of_redact fit found }
{
    if fit && !found {
        Ending::Clean
    } else {
        Ending::WithTraces
    }
}
