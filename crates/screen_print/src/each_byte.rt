//! Where a text came to stand in a recording and where it went, looked at byte by byte.

ghost use Rattle.std.specs.Prelude.{
  ◌≡◌,
  ◌≤◌,
  ◌<◌,
  ◌+◌,
  ◌-◌,
  ◌≢◌,
  [],
  All,
  length,
  true,
  false,
  Err,
  IfOk,
  IsOk,
  IfErr,
  IfSome,
  OnOk,
};
ghost use Rattle.std.specs.List.{flat_map, range_with_len};
ghost use Rattle.tape_core.specs.Devices.{Gave, Took, has_failed, has_written, is_flushed};
ghost use Rattle.tape_core.specs.Due.{bytes_at};
ghost use Rattle.tape_seek.specs.Moments.{up_to};
ghost use Rattle.tape_seek.specs.State.{KeepsHistory, Leaves};
ghost use Rattle.chunk_walk.specs.Stops.{OnlySeeks, first_asked};
ghost use Rattle.vt_term.specs.Seen.{Shows};
ghost use Rattle.vt_term.specs.Term.{Term, play};
ghost use Rattle.vt_term.specs.declared.profile.Profile.{Profile};
ghost use Rattle.screen_print.specs.EachByte.{
  StandsNowhere,
  chunk_lines,
  chunk_lines_at,
  find_lines,
  from_lines,
  has_ink,
  standing_lines,
};
ghost use Rattle.screen_print.specs.FindLines.{found_line};
ghost use Rattle.screen_print.specs.Kept.{AreAlike, IsCurrent, IsKeptOf, IsLike};
ghost use Rattle.screen_print.specs.Places.{IsPlace};
ghost use Rattle.screen_print.specs.Skim.{AreKeysOf, IsKeyed, IsLacked, IsPart, NowhereIn, ScreenLacks};
ghost use Rattle.screen_print.specs.Start.{IsStart};
ghost use Rattle.screen_print.specs.Stills.{still_of};
ghost use Rattle.screen_print.specs.Stops.{StopsWalk};

use crate::chunk_bytes::{Played, Stills, put_chunk};
use crate::find_lines::{Chunk, put_found};
use crate::key::{Key, Keys};
use crate::laws::nowhere_means_nowhere;
use crate::seen::{is_vain, place_seen, stands_still};
use crate::silent::play_all;
use crate::skim::skim_some;
use crate::standing::{Place, standing};
use crate::start::Start;
use crate::still::Still;
use crate::walk::ChangesFault;
use std::alloc::Global;
use std::io::Write;
use tape_core::laws::{due_is_below_the_count, first_grows_by_a_chunk, gives_end, gives_join};
use tape_core::{Recording, Watched};
use tape_seek::{OutOfMemory, Session};
use vt_term::laws::plays_in_parts;
use vt_term::{Reports, Terminal};

/// How many bytes the list has over which replies go: no reply to a byte is longer.
pub(crate) const SCRATCH: usize = 20;

/// Writes, as `=`, where a text stands at the moment `from`, if that is given; and for each chunk that is due
/// after it and by `to`: `-` for where it went, `~` for where it came and went between two bytes, `+` for
/// where it came to stand. It works by one seek, and takes no memory besides. After a fault a beginning of the
/// text has gone out. The recording and the log stay, and the frontier isn't lowered.
#[tactic(auto, using(chunk_walk::proofs::SeekLemmas::seeks_keep_history))]
pub fn find<W: Write>(
    alloc: Global,
    session: &mut Session,
    from: Option<u64>,
    to: u64,
    text: &[char],
    writer: &mut Watched<W>,
) -> Result<(), ChangesFault>
    requires { has_failed writer.old ≡ false }
    ensures ok { OnOk result (Took W.contents writer.old writer.new
        (find_lines session.old.profile session.old.recording from to text.now)) }
    ensures flushed { OnOk result (is_flushed writer.new ≡ true) }
    ensures fault { IfErr result (StopsWalk W.contents writer.old writer.new
        (find_lines session.old.profile session.old.recording from to text.now)) }
    // Nowhere means nowhere: where not a byte was written, a text with ink stands on no screen, neither at the
    // moment `from` nor after any byte of a chunk that is asked for.
    ensures nowhere { OnOk result (has_written writer.new ≡ false → has_ink text.now ≡ true
        → StandsNowhere session.old.profile session.old.recording from to text.now) }
    ensures stays { OnlySeeks session.old session.new }
    // Whatever recording the session was opened with: where its own is that one edited by the log,
    // it is so still.
    ensures history { KeepsHistory session.old session.new }
    ensures room { first_asked session.old.recording.chunks from ≤ session.old.marks.frontier
        → result ≢ Err ChangesFault.Memory }
{
    nowhere_means_nowhere();
    let start = start_of(session, from);
    let mut terminal = terminal_at(session, start)?;
    let recording = session.recording();
    let mut scratch = Reports::of_zeros(alloc);
    put_lines(
        recording,
        from,
        to,
        start,
        text,
        &mut terminal,
        &mut scratch,
        writer,
    );
    writer.settle()?;
    Ok(())
}

/// The first chunk that is due after the moment.
fn start_of(session: &Session, from: Option<u64>) -> usize
    ensures value { result ≡ first_asked session.now.recording.chunks from }
    ensures within { result ≤ length session.now.recording.chunks }
{
    match from {
        None => 0,
        Some(moment) => session.recording().due_count(moment),
    }
}

/// A copy of the terminal of a session after so many chunks.
fn terminal_at(session: &mut Session, count: usize) -> Result<Terminal, OutOfMemory>
    requires { count ≤ length session.old.recording.chunks }
    ensures shows { IfOk result (λ terminal.
        Shows terminal (up_to session.old.profile session.old.recording.chunks count)) }
    ensures state { Leaves result count session.old session.new }
    ensures history { KeepsHistory session.old session.new }
    ensures room { count ≤ session.old.marks.frontier → IsOk result }
{
    let view = session.seek_count(count)?;
    let mut terminal = Terminal::reset();
    terminal.copy_from(view.terminal());
    Ok(terminal)
}

/// Writes all lines by a terminal that shows what stands before the first chunk that is asked for.
fn put_lines<W: Write>(
    recording: &Recording,
    from: Option<u64>,
    to: u64,
    start: usize,
    text: &[char],
    terminal: &mut Terminal,
    scratch: &mut Reports,
    writer: &mut Watched<W>,
)
    requires start { start ≡ first_asked recording.now.chunks from }
    requires within { start ≤ length recording.now.chunks }
    requires scratch { SCRATCH ≤ length scratch.old.bytes }
    ensures { (profile : Profile) → Shows terminal.old (up_to profile recording.now.chunks start)
        → Gave W.contents writer.old writer.new
        (find_lines profile recording.now from to text.now) }
{
    due_is_below_the_count();
    gives_join::<W>();
    let end = recording.due_count(to).max(start);
    put_from(from, start, text, terminal, writer);
    put_between(recording, start, end, text, terminal, scratch, writer);
}

/// Writes where the text stands at the moment from which chunks are asked for, if there is one.
fn put_from<W: Write>(
    from: Option<u64>,
    index: usize,
    text: &[char],
    terminal: &Terminal,
    writer: &mut Watched<W>,
)
    ensures { Gave W.contents writer.old writer.new
        (from_lines text.now (still_of terminal.now.console) index from) }
{
    gives_join::<W>();
    if let Some(moment) = from {
        put_standing(moment, index, text, terminal, writer);
    }
}

/// Writes where the text stands on a terminal.
fn put_standing<W: Write>(
    moment: u64,
    index: usize,
    text: &[char],
    terminal: &Terminal,
    writer: &mut Watched<W>,
)
    ensures { Gave W.contents writer.old writer.new
        (standing_lines text.now index moment (still_of terminal.now.console)) }
{
    let still = Still::of(terminal);
    let places = standing(&still, text);
    let chunk = Chunk {
        index,
        due: moment,
        len: text.len(),
    };
    put_places(&chunk, &still, places.as_slice(), writer);
}

/// Writes a line for each place.
fn put_places<W: Write>(chunk: &Chunk, still: &Still, places: &[Place], writer: &mut Watched<W>)
    requires here { All (IsPlace still.now) places.now }
    ensures { Gave W.contents writer.old writer.new
        (flat_map (found_line 61 chunk.now.index chunk.now.due chunk.now.len still.now) places.now) }
{
    gives_join::<W>();
    for place in places {
        put_found(b'=', chunk, still, *place, writer);
    }
}

/// Plays the chunks from one place up to and without another, and writes their lines, as long as the writer
/// doesn't fail.
fn put_between<W: Write>(
    recording: &Recording,
    start: usize,
    end: usize,
    text: &[char],
    terminal: &mut Terminal,
    scratch: &mut Reports,
    writer: &mut Watched<W>,
)
    requires rising { start ≤ end }
    requires within { end ≤ length recording.now.chunks }
    requires scratch { SCRATCH ≤ length scratch.old.bytes }
    ensures { (profile : Profile) → Shows terminal.old (up_to profile recording.now.chunks start)
        → Gave W.contents writer.old writer.new
        (flat_map (chunk_lines_at text.now profile recording.now)
        (range_with_len start (end - start))) }
{
    let begins = Start::of(text);
    let keys = Keys::of(text);
    put_each(
        recording, start, end, text, &begins, &keys, terminal, scratch, writer,
    );
}

/// What is kept from chunk to chunk: stills that are alike, and a second terminal. Where it is current they are of the
/// first terminal, and the second one shows the same. It borrows them, since a struct that is built of them would take
/// their room on the stack twice.
#[derive(Drop)]
struct Kept<'a> {
    terminal: &'a mut Terminal,
    first: &'a mut Still,
    last: &'a mut Still,
    stills: Stills<'a>,
    current: bool,
    /// Whether the next chunk is one that keys don't pass.
    tried: bool,
    /// Where the text stood at the last look.
    seen: Place,
}

/// The same by how the text begins, and by its keys. Stills are made only from the first chunk on in which the text may
/// stand.
fn put_each<W: Write>(
    recording: &Recording,
    start: usize,
    end: usize,
    text: &[char],
    begins: &Start,
    keys: &Keys<'_>,
    terminal: &mut Terminal,
    scratch: &mut Reports,
    writer: &mut Watched<W>,
)
    requires rising { start ≤ end }
    requires within { end ≤ length recording.now.chunks }
    requires begins { IsStart text.now begins.now }
    requires keys { AreKeysOf text.now keys.now }
    requires scratch { SCRATCH ≤ length scratch.old.bytes }
    ensures { (profile : Profile) → Shows terminal.old (up_to profile recording.now.chunks start)
        → Gave W.contents writer.old writer.new
        (flat_map (chunk_lines_at text.now profile recording.now)
        (range_with_len start (end - start))) }
{
    gives_join::<W>();
    gives_end::<W>();
    if writer.failed() {
        return;
    }
    let index = pass_some(recording, start, end, text, begins, keys, terminal, scratch);
    if index == end {
        return;
    }
    put_rest(
        recording, index, end, text, begins, keys, terminal, scratch, writer,
    );
}

/// Plays chunks as long as keys show that the text stands nowhere before them and after each of their bytes, and tells where
/// the next one is.
fn pass_some(
    recording: &Recording,
    start: usize,
    end: usize,
    text: &[char],
    begins: &Start,
    keys: &Keys<'_>,
    terminal: &mut Terminal,
    scratch: &mut Reports,
) -> usize
    requires rising { start ≤ end }
    requires within { end ≤ length recording.now.chunks }
    requires keys { AreKeysOf text.now keys.now }
    requires scratch { SCRATCH ≤ length scratch.old.bytes }
    ensures low { start ≤ result }
    ensures high { result ≤ end }
    ensures nothing { (profile : Profile) → Shows terminal.old (up_to profile recording.now.chunks start)
        → flat_map (chunk_lines_at text.now profile recording.now)
        (range_with_len start (result - start)) ≡ [] }
    ensures shows { (profile : Profile) → Shows terminal.old (up_to profile recording.now.chunks start)
        → Shows terminal.new (up_to profile recording.now.chunks result) }
    ensures scratch { SCRATCH ≤ length scratch.new.bytes }
{
    first_grows_by_a_chunk();
    plays_in_parts();
    let mut second = Terminal::reset();
    let mut seen = Place::default();
    let mut known = None;
    for index in start..end {
        let Some(key) = known_or_found(text, begins, keys, known, &mut seen, terminal) else {
            return index;
        };
        second.copy_from(terminal);
        let bytes = bytes_of(recording, index);
        let Some(next) = passes(text, keys, key, bytes, terminal, scratch) else {
            terminal.copy_from(&second);
            return index;
        };
        known = Some(next);
    }
    end
}

/// The bytes of a chunk.
fn bytes_of(recording: &Recording, index: usize) -> &[u8]
    requires { index < length recording.now.chunks }
    ensures { result.now ≡ bytes_at recording.now.chunks index }
{
    recording.chunks()[index].bytes.as_slice()
}

/// The same by stills, from a chunk on in which the text may stand. They take room on the stack only then.
#[inline(never)]
fn put_rest<W: Write>(
    recording: &Recording,
    start: usize,
    end: usize,
    text: &[char],
    begins: &Start,
    keys: &Keys<'_>,
    terminal: &mut Terminal,
    scratch: &mut Reports,
    writer: &mut Watched<W>,
)
    requires rising { start ≤ end }
    requires within { end ≤ length recording.now.chunks }
    requires begins { IsStart text.now begins.now }
    requires keys { AreKeysOf text.now keys.now }
    requires scratch { SCRATCH ≤ length scratch.old.bytes }
    ensures { (profile : Profile) → Shows terminal.old (up_to profile recording.now.chunks start)
        → Gave W.contents writer.old writer.new
        (flat_map (chunk_lines_at text.now profile recording.now)
        (range_with_len start (end - start))) }
{
    gives_join::<W>();
    gives_end::<W>();
    let mut second = Terminal::reset();
    second.copy_from(terminal);
    let mut first = Still::of(terminal);
    let mut last = Still::of(terminal);
    let mut before = Still::of(terminal);
    let mut after = Still::of(terminal);
    let mut kept = Kept {
        terminal: &mut second,
        first: &mut first,
        last: &mut last,
        stills: Stills {
            before: &mut before,
            after: &mut after,
        },
        current: true,
        tried: true,
        seen: Place::default(),
    };
    let mut known = None;
    for index in start..end {
        known = put_chunk_at(
            recording, index, text, begins, keys, known, terminal, &mut kept, scratch, writer,
        );
        if writer.failed() {
            return;
        }
    }
}

/// Plays a chunk of a recording, and writes its lines. Given and answered is a key that the screen is known to
/// lack, if there is one.
fn put_chunk_at<'k, 'a, W: Write>(
    recording: &Recording,
    index: usize,
    text: &[char],
    start: &Start,
    keys: &'k Keys<'a>,
    known: Option<&'k Key<'a>>,
    terminal: &mut Terminal,
    kept: &mut Kept<'_>,
    scratch: &mut Reports,
    writer: &mut Watched<W>,
) -> Option<&'k Key<'a>>
    requires start { IsStart text.now start.now }
    requires keys { AreKeysOf text.now keys.now }
    requires known { IfSome known (λ key. IsLacked text.now key.now terminal.old.console.picture) }
    requires within { index < length recording.now.chunks }
    requires kept { IsKeptOf terminal.old kept.old }
    requires scratch { SCRATCH ≤ length scratch.old.bytes }
    ensures gave { (profile : Profile) → Shows terminal.old (up_to profile recording.now.chunks index)
        → Gave W.contents writer.old writer.new
        (chunk_lines_at text.now profile recording.now index) }
    ensures shows { (profile : Profile) → Shows terminal.old (up_to profile recording.now.chunks index)
        → Shows terminal.new (up_to profile recording.now.chunks (index + 1)) }
    ensures known { IfSome result (λ key. IsLacked text.now key.now terminal.new.console.picture) }
    ensures kept { IsKeptOf terminal.new kept.new }
    ensures scratch { SCRATCH ≤ length scratch.new.bytes }
{
    first_grows_by_a_chunk();
    plays_in_parts();
    let chunk = Chunk {
        index,
        due: recording.due_time(index),
        len: text.len(),
    };
    let bytes = bytes_of(recording, index);
    put_or_pass(
        text, start, &chunk, bytes, keys, known, terminal, kept, scratch, writer,
    )
}

/// The same of a chunk's bytes: where keys tell that the text stands nowhere, there are no lines.
fn put_or_pass<'k, 'a, W: Write>(
    text: &[char],
    start: &Start,
    chunk: &Chunk,
    bytes: &[u8],
    keys: &'k Keys<'a>,
    known: Option<&'k Key<'a>>,
    terminal: &mut Terminal,
    kept: &mut Kept<'_>,
    scratch: &mut Reports,
    writer: &mut Watched<W>,
) -> Option<&'k Key<'a>>
    requires len { chunk.now.len ≡ length text.now }
    requires start { IsStart text.now start.now }
    requires keys { AreKeysOf text.now keys.now }
    requires known { IfSome known (λ key. IsLacked text.now key.now terminal.old.console.picture) }
    requires kept { IsKeptOf terminal.old kept.old }
    requires scratch { SCRATCH ≤ length scratch.old.bytes }
    ensures gave { (x : Term) → Shows terminal.old x → Gave W.contents writer.old writer.new
        (chunk_lines text.now chunk.now.index chunk.now.due x bytes.now) }
    ensures shows { (x : Term) → Shows terminal.old x
        → Shows terminal.new (play x bytes.now) }
    ensures known { IfSome result (λ key. IsLacked text.now key.now terminal.new.console.picture) }
    ensures kept { IsKeptOf terminal.new kept.new }
    ensures scratch { SCRATCH ≤ length scratch.new.bytes }
{
    gives_join::<W>();
    let first = untried_key(text, start, keys, known, kept, terminal);
    follow_terminal(kept, terminal);
    if let Some(key) = first {
        if let Some(next) = passes(text, keys, key, bytes, terminal, scratch) {
            kept.current = false;
            return Some(next);
        }
        terminal.copy_from(kept.terminal);
    }
    follow_stills(kept, terminal);
    put_next(text, start, chunk, bytes, terminal, kept, scratch, writer);
    None
}

/// The key that the screen of a terminal is known to lack, or else one that it is seen to lack. None is looked for where the
/// chunk at hand was tried.
fn untried_key<'k, 'a>(
    text: &[char],
    start: &Start,
    keys: &'k Keys<'a>,
    known: Option<&'k Key<'a>>,
    kept: &mut Kept<'_>,
    terminal: &Terminal,
) -> Option<&'k Key<'a>>
    requires keys { AreKeysOf text.now keys.now }
    requires known { IfSome known (λ key. IsLacked text.now key.now terminal.now.console.picture) }
    requires kept { IsKeptOf terminal.now kept.old }
    ensures lacked { IfSome result (λ key. IsLacked text.now key.now terminal.now.console.picture) }
    ensures kept { IsKeptOf terminal.now kept.new }
{
    if kept.tried {
        kept.tried = false;
        return None;
    }
    known_or_found(text, start, keys, known, &mut kept.seen, terminal)
}

/// The second terminal becomes like the first one, if it isn't yet.
fn follow_terminal(kept: &mut Kept<'_>, terminal: &Terminal)
    requires { IsKeptOf terminal.now kept.old }
    ensures kept { IsKeptOf terminal.now kept.new }
    ensures like { IsLike terminal.now kept.new.terminal.now }
{
    if !kept.current {
        kept.terminal.copy_from(terminal);
    }
}

/// The stills become those of the terminal, and what is kept is current.
fn follow_stills(kept: &mut Kept<'_>, terminal: &Terminal)
    requires kept { IsKeptOf terminal.now kept.old }
    requires like { IsLike terminal.now kept.old.terminal.now }
    ensures alike { AreAlike kept.new }
    ensures current { IsCurrent terminal.now kept.new }
{
    if kept.current {
        return;
    }
    let changed = kept.first.lines_aside(terminal);
    let lines = changed.as_slice();
    kept.first.catch_up(terminal, lines);
    kept.last.follow(kept.first, terminal, lines);
    kept.stills.before.follow(kept.first, terminal, lines);
    kept.stills.after.follow(kept.first, terminal, lines);
    kept.current = true;
}

/// Plays a chunk before which the screen lacks a key, and answers one that it lacks then, where keys show that it lacks one
/// after each of the bytes. Where they don't, the terminal is some terminal.
fn passes<'k, 'a>(
    text: &[char],
    keys: &'k Keys<'a>,
    first: &'k Key<'a>,
    bytes: &[u8],
    terminal: &mut Terminal,
    scratch: &mut Reports,
) -> Option<&'k Key<'a>>
    requires keys { AreKeysOf text.now keys.now }
    requires first { IsLacked text.now first.now terminal.old.console.picture }
    requires scratch { SCRATCH ≤ length scratch.old.bytes }
    ensures nowhere { IfSome result (λ _. (x : Term) → Shows terminal.old x
        → NowhereIn text.now x bytes.now) }
    ensures shows { IfSome result (λ _. (x : Term) → Shows terminal.old x
        → Shows terminal.new (play x bytes.now)) }
    ensures known { IfSome result (λ key. IsLacked text.now key.now terminal.new.console.picture) }
    ensures scratch { SCRATCH ≤ length scratch.new.bytes }
{
    plays_in_parts();
    let mut current = Some(first);
    let mut done = 0;
    while done < bytes.len() {
        let Some(key) = current else {
            return None;
        };
        let skimmed = skim_some(key, &bytes[done..], terminal, scratch);
        current = kept_or_found(text, keys, key, skimmed.sure, terminal);
        done += skimmed.taken;
    }
    current
}

/// The key that the screen of a terminal is known to lack, or else one that it is seen to lack.
fn known_or_found<'k, 'a>(
    text: &[char],
    start: &Start,
    keys: &'k Keys<'a>,
    known: Option<&'k Key<'a>>,
    seen: &mut Place,
    terminal: &Terminal,
) -> Option<&'k Key<'a>>
    requires keys { AreKeysOf text.now keys.now }
    requires known { IfSome known (λ key. IsLacked text.now key.now terminal.now.console.picture) }
    ensures { IfSome result (λ key. IsLacked text.now key.now terminal.now.console.picture) }
{
    match known {
        Some(_) => known,
        None => found_lacked(text, start, keys, seen, terminal),
    }
}

/// A key that the screen of a terminal is seen to lack. Where the text stands still none is looked for.
fn found_lacked<'k, 'a>(
    text: &[char],
    start: &Start,
    keys: &'k Keys<'a>,
    seen: &mut Place,
    terminal: &Terminal,
) -> Option<&'k Key<'a>>
    requires { AreKeysOf text.now keys.now }
    ensures { IfSome result (λ key. IsLacked text.now key.now terminal.now.console.picture) }
{
    if stands_still(text, terminal, seen) {
        return None;
    }
    let found = keys.lacked_by(text, terminal);
    if found.is_some() {
        *seen = Place::default();
    } else if !is_vain(*seen) {
        *seen = place_seen(text, start, terminal);
    }
    found
}

/// A key, where the screen of a terminal surely lacks it, or else one that it is seen to lack.
fn kept_or_found<'k, 'a>(
    text: &[char],
    keys: &'k Keys<'a>,
    key: &'k Key<'a>,
    sure: bool,
    terminal: &Terminal,
) -> Option<&'k Key<'a>>
    requires keys { AreKeysOf text.now keys.now }
    requires keyed { IsKeyed key.now }
    requires part { IsPart key.now.chars.now text.now }
    requires sure { sure ≡ true → ScreenLacks key.now.chars.now terminal.now.console.picture }
    ensures { IfSome result (λ key. IsLacked text.now key.now terminal.now.console.picture) }
{
    if sure {
        return Some(key);
    }
    keys.lacked_by(text, terminal)
}

/// Plays a chunk by what is kept, which is current, and writes its lines. Those of what went stand before all others, so
/// it is played twice, first by the second terminal.
fn put_next<W: Write>(
    text: &[char],
    start: &Start,
    chunk: &Chunk,
    bytes: &[u8],
    terminal: &mut Terminal,
    kept: &mut Kept<'_>,
    scratch: &mut Reports,
    writer: &mut Watched<W>,
)
    requires len { chunk.now.len ≡ length text.now }
    requires start { IsStart text.now start.now }
    requires alike { AreAlike kept.old }
    requires current { IsCurrent terminal.old kept.old }
    requires scratch { SCRATCH ≤ length scratch.old.bytes }
    ensures gave { (x : Term) → Shows terminal.old x → Gave W.contents writer.old writer.new
        (chunk_lines text.now chunk.now.index chunk.now.due x bytes.now) }
    ensures shows { (x : Term) → Shows terminal.old x
        → Shows terminal.new (play x bytes.now) }
    ensures alike { AreAlike kept.new }
    ensures current { IsCurrent terminal.new kept.new }
    ensures scratch { SCRATCH ≤ length scratch.new.bytes }
{
    let _screen = terminal.screen();
    play_all(kept.terminal, bytes, scratch);
    let changed = kept.first.lines_aside(kept.terminal);
    let lines = changed.as_slice();
    kept.last.catch_up(kept.terminal, lines);
    let played = Played {
        first: &*kept.first,
        last: &*kept.last,
        lines,
        terminal: &*kept.terminal,
        seen: kept.seen.line,
    };
    put_chunk(
        text,
        start,
        chunk,
        bytes,
        played,
        &mut kept.stills,
        terminal,
        scratch,
        writer,
    );
    kept.first.follow(kept.last, kept.terminal, lines);
}
