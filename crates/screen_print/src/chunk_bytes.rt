//! What of a text a chunk took away, passed over and brought, looked at byte by byte.

ghost use Rattle.std.specs.Prelude.{◌≡◌, ◌≤◌, ◌∷◌, [], length, true};
ghost use Rattle.std.specs.List.{flat_map, range_with_len};
ghost use Rattle.tape_core.specs.Devices.{Gave};
ghost use Rattle.vt_term.specs.Seen.{Shows, Told};
ghost use Rattle.vt_term.specs.Term.{Term, play};
ghost use Rattle.screen_print.specs.ByLine.{DifferIn};
ghost use Rattle.screen_print.specs.Cover.{Cover};
ghost use Rattle.screen_print.specs.EachByte.{byte_lines, chunk_lines, passed_lines};
ghost use Rattle.screen_print.specs.FindLines.{less_lines, standing};
ghost use Rattle.screen_print.specs.Moved.{IsMoved};
ghost use Rattle.screen_print.specs.Start.{IsStart};
ghost use Rattle.screen_print.specs.Stills.{still_of};

use crate::by_line::{Ends, Pair, Sought, put_less};
use crate::each_byte::SCRATCH;
use crate::find_lines::Chunk;
use crate::fresh::play_quietly;
use crate::moved::Rise;
use crate::quiet::stays;
use crate::start::Start;
use crate::still::Still;
use plays::laws::the_front_stays;
use std::io::Write;
use tape_core::Watched;
use tape_core::laws::gives_join;
use vt_screen::laws::right_margins;
use vt_term::laws::plays_in_parts;
use vt_term::{Reports, Terminal};

/// Two stills that become what stands before a byte and behind it.
#[derive(Drop)]
pub(crate) struct Stills<'a> {
    pub(crate) before: &'a mut Still,
    pub(crate) after: &'a mut Still,
}

/// A chunk that was played: what stands before it and behind it, the lines in which they differ, and the terminal then. And
/// the line in which the text was seen before it.
#[derive(Drop)]
pub(crate) struct Played<'a> {
    pub(crate) first: &'a Still,
    pub(crate) last: &'a Still,
    pub(crate) lines: &'a [u8],
    pub(crate) terminal: &'a Terminal,
    pub(crate) seen: u8,
}

/// Writes what went in a chunk, what came and went inside it, and what came. The terminal plays it, and both stills go
/// along.
pub(crate) fn put_chunk<W: Write>(
    text: &[char],
    start: &Start,
    chunk: &Chunk,
    bytes: &[u8],
    played: Played<'_>,
    stills: &mut Stills<'_>,
    terminal: &mut Terminal,
    scratch: &mut Reports,
    writer: &mut Watched<W>,
)
    requires len { chunk.now.len ≡ length text.now }
    requires start { IsStart text.now start.now }
    requires played { (x : Term) → Shows terminal.old x
        → Shows played.terminal.now (play x bytes.now) }
    requires first { played.first.now ≡ still_of terminal.old.console }
    requires last { played.last.now ≡ still_of played.terminal.now.console }
    requires changed { Cover played.lines.now played.first.now.rows
        played.terminal.now.console.picture.rows }
    requires before { stills.old.before.now ≡ still_of terminal.old.console }
    requires after { stills.old.after.now ≡ still_of terminal.old.console }
    requires scratch { SCRATCH ≤ length scratch.old.bytes }
    ensures gave { (x : Term) → Shows terminal.old x → Gave W.contents writer.old writer.new
        (chunk_lines text.now chunk.now.index chunk.now.due x bytes.now) }
    ensures shows { (x : Term) → Shows terminal.old x
        → Shows terminal.new (play x bytes.now) }
    ensures before { stills.new.before.now ≡ still_of terminal.new.console }
    ensures after { stills.new.after.now ≡ still_of terminal.new.console }
    ensures scratch { SCRATCH ≤ length scratch.new.bytes }
{
    gives_join::<W>();
    let first = played.first;
    let last = played.last;
    let lines = played.lines;
    let seen = played.seen;
    let sought = Sought { text, start, seen };
    let ends = Ends { first, last };
    let rise = Rise::of(first, last, lines);
    let went = Pair {
        one: first,
        other: last,
        lines,
        moved: rise.went(),
    };
    let came = Pair {
        one: last,
        other: first,
        lines,
        moved: rise.came(),
    };
    let quiet = stays(text, start, seen, first, played.terminal, lines);
    put_end(b'-', chunk, &sought, &went, quiet, writer);
    put_bytes(
        &sought,
        chunk,
        &ends,
        bytes,
        stills.before,
        stills.after,
        terminal,
        scratch,
        writer,
    );
    put_end(b'+', chunk, &sought, &came, quiet, writer);
}

/// Writes what is less at the other end of a chunk, where it isn't known that nothing is.
fn put_end<W: Write>(
    sign: u8,
    chunk: &Chunk,
    sought: &Sought<'_>,
    pair: &Pair<'_>,
    quiet: bool,
    writer: &mut Watched<W>,
)
    requires start { IsStart sought.now.text.now sought.now.start.now }
    requires lines { DifferIn pair.now.lines.now pair.now.one.now pair.now.other.now }
    requires moved { IsMoved pair.now.moved pair.now.one.now pair.now.other.now }
    requires quiet { quiet ≡ true
        → less_lines sign chunk.now.index chunk.now.due chunk.now.len
        pair.now.one.now (standing sought.now.text.now pair.now.one.now)
        pair.now.other.now (standing sought.now.text.now pair.now.other.now) ≡ [] }
    ensures { Gave W.contents writer.old writer.new
        (less_lines sign chunk.now.index chunk.now.due chunk.now.len
        pair.now.one.now (standing sought.now.text.now pair.now.one.now)
        pair.now.other.now (standing sought.now.text.now pair.now.other.now)) }
{
    gives_join::<W>();
    if quiet {
        return;
    }
    put_less(sign, chunk, sought, pair, None, writer);
}

/// Plays one byte, and never wants memory: the reply to it goes over what the scratch list holds.
pub(crate) fn step(terminal: &mut Terminal, byte: u8, scratch: &mut Reports)
    requires { SCRATCH ≤ length scratch.old.bytes }
    ensures shows { (x : Term) → Shows terminal.old x → Shows terminal.new (play x (byte ∷ [])) }
    ensures told { Told terminal.old.console.picture.rows terminal.new }
    ensures scratch { SCRATCH ≤ length scratch.new.bytes }
{
    right_margins();
    the_front_stays();
    let _screen = terminal.screen();
    scratch.set_place(0);
    let _done = terminal.feed_in_place(&[byte], scratch);
}

/// Plays a chunk's bytes, and writes what went inside it. Those that take nothing of the text away are played at once.
/// Both stills go along.
fn put_bytes<W: Write>(
    sought: &Sought<'_>,
    chunk: &Chunk,
    ends: &Ends<'_>,
    bytes: &[u8],
    before: &mut Still,
    after: &mut Still,
    terminal: &mut Terminal,
    scratch: &mut Reports,
    writer: &mut Watched<W>,
)
    requires len { chunk.now.len ≡ length sought.now.text.now }
    requires start { IsStart sought.now.text.now sought.now.start.now }
    requires before { before.old ≡ still_of terminal.old.console }
    requires after { after.old ≡ still_of terminal.old.console }
    requires scratch { SCRATCH ≤ length scratch.old.bytes }
    ensures gave { (x : Term) → Shows terminal.old x → Gave W.contents writer.old writer.new
        (flat_map (byte_lines sought.now.text.now chunk.now.index chunk.now.due
        ends.now.first.now (standing sought.now.text.now ends.now.first.now)
        ends.now.last.now (standing sought.now.text.now ends.now.last.now) x bytes.now)
        (range_with_len 0 (length bytes.now))) }
    ensures shows { (x : Term) → Shows terminal.old x
        → Shows terminal.new (play x bytes.now) }
    ensures before { before.new ≡ still_of terminal.new.console }
    ensures after { after.new ≡ still_of terminal.new.console }
    ensures scratch { SCRATCH ≤ length scratch.new.bytes }
{
    gives_join::<W>();
    plays_in_parts();
    let mut at = 0;
    while at < bytes.len() {
        at += play_quietly(sought.text, &bytes[at..], before, after, terminal, scratch);
        if at < bytes.len() {
            step(terminal, bytes[at], scratch);
            put_byte(sought, chunk, ends, before, after, terminal, writer);
            at += 1;
        }
    }
}

/// Writes what went at a byte, by what stood before it and on the terminal after it. Both stills become what stands
/// before the next one.
fn put_byte<W: Write>(
    sought: &Sought<'_>,
    chunk: &Chunk,
    ends: &Ends<'_>,
    before: &mut Still,
    after: &mut Still,
    terminal: &Terminal,
    writer: &mut Watched<W>,
)
    requires told { Told before.old.rows terminal.now }
    requires same { before.old ≡ after.old }
    requires start { IsStart sought.now.text.now sought.now.start.now }
    ensures gave { let text = sought.now.text.now in
        let other = still_of terminal.now.console in
        Gave W.contents writer.old writer.new
        (passed_lines chunk.now.index chunk.now.due chunk.now.len
        ends.now.first.now (standing text ends.now.first.now)
        ends.now.last.now (standing text ends.now.last.now)
        before.old (standing text before.old) other (standing text other)) }
    ensures before { before.new ≡ still_of terminal.now.console }
    ensures after { after.new ≡ still_of terminal.now.console }
{
    let changed = before.lines_told(terminal);
    let lines = changed.as_slice();
    after.catch_up(terminal, lines);
    put_changed(sought, chunk, ends, before, after, terminal, lines, writer);
    before.follow(after, terminal, lines);
}

/// The same by the lines that the byte changed: where the text surely stays in them nothing went.
fn put_changed<W: Write>(
    sought: &Sought<'_>,
    chunk: &Chunk,
    ends: &Ends<'_>,
    before: &Still,
    after: &Still,
    terminal: &Terminal,
    lines: &[u8],
    writer: &mut Watched<W>,
)
    requires start { IsStart sought.now.text.now sought.now.start.now }
    requires changed { Cover lines.now before.now.rows terminal.now.console.picture.rows }
    requires after { after.now ≡ still_of terminal.now.console }
    ensures { let text = sought.now.text.now in
        Gave W.contents writer.old writer.new
        (passed_lines chunk.now.index chunk.now.due chunk.now.len
        ends.now.first.now (standing text ends.now.first.now)
        ends.now.last.now (standing text ends.now.last.now)
        before.now (standing text before.now) after.now (standing text after.now)) }
{
    gives_join::<W>();
    if stays(
        sought.text,
        sought.start,
        sought.seen,
        before,
        terminal,
        lines,
    ) {
        return;
    }
    let rise = Rise::of(before, after, lines);
    let pair = Pair {
        one: before,
        other: after,
        lines,
        moved: rise.went(),
    };
    put_less(b'~', chunk, sought, &pair, Some(ends), writer);
}
