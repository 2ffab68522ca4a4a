//! The events of output, whose characters are written as they come.

ghost use Rattle.std.specs.Prelude.{◌≡◌, ◌∷◌, ◌++◌, [], ℕ, List};
ghost use Rattle.std.specs.List.{flat_map};
ghost use Rattle.characters.specs.Utf8.{begun, decoded_on};
ghost use Rattle.tape_core.specs.Devices.{Gave};
ghost use Rattle.tape_core.specs.declared.devices.Watched.{Watched};
ghost use Rattle.output_cast.specs.Cast.{event_closing, event_line, event_opening};
ghost use Rattle.output_cast.specs.Events.{event_of, events, left_text, read_behind};
ghost use Rattle.output_cast.specs.Line.{Goes};

use crate::json::put_character;
use characters::{Decoder, Reading, begins};
use std::io::Write;
use tape_core::laws::gives_join;
use tape_core::{Recording, Watched, seconds_text};

/// Writes the lines of all events.
pub(crate) fn put_events<W: Write>(recording: &Recording, writer: &mut Watched<W>)
    ensures { Gave W.contents writer.old writer.new (flat_map event_line (events recording.now)) }
{
    gives_join::<W>();
    let mut decoder = Decoder::new();
    let chunks = recording.chunks();
    for index in 0..chunks.len() {
        let moment = recording.due_time(index);
        put_chunk(moment, chunks[index].bytes.as_slice(), &mut decoder, writer);
    }
    put_left(recording.length(), &decoder, writer);
}

/// Writes what a chunk comes to: the line of one event, or nothing.
fn put_chunk<W: Write>(moment: u64, bytes: &[u8], decoder: &mut Decoder, writer: &mut Watched<W>)
    ensures gave { Gave W.contents writer.old writer.new
        (flat_map event_line (event_of moment (read_behind decoder.old bytes.now).characters)) }
    ensures pending { decoder.new ≡ (read_behind decoder.old bytes.now).pending }
{
    gives_join::<W>();
    let mut line = Line {
        moment,
        is_begun: false,
    };
    for byte in bytes {
        put_byte(&mut line, *byte, decoder, writer);
    }
    if line.is_begun {
        put_closing(writer);
    }
}

/// Writes one U+FFFD for the bytes that are left at the end.
fn put_left<W: Write>(moment: u64, decoder: &Decoder, writer: &mut Watched<W>)
    ensures { Gave W.contents writer.old writer.new
        (flat_map event_line (event_of moment (left_text decoder.now))) }
{
    gives_join::<W>();
    if decoder.is_pending() {
        put_opening(moment, writer);
        put_character(REPLACEMENT, writer);
        put_closing(writer);
    }
}

/// What stands for bytes that are no character.
const REPLACEMENT: char = '\u{fffd}';

/// The line of an event while its characters come: it is opened by the first one.
#[derive(Clone, Copy)]
struct Line {
    moment: u64,
    is_begun: bool,
}

/// Takes a byte, and writes the characters that end with it.
fn put_byte<W: Write>(line: &mut Line, byte: u8, decoder: &mut Decoder, writer: &mut Watched<W>)
    ensures goes { (a : Watched W) (moment : ℕ) (text : List ℕ)
        → Goes W.contents a writer.old line.old moment text
        → Goes W.contents a writer.new line.new moment
        (decoded_on (record { characters = text; pending = decoder.old }) byte).characters }
    ensures pending { (text : List ℕ) → decoder.new
        ≡ (decoded_on (record { characters = text; pending = decoder.old }) byte).pending }
{
    if !decoder.is_pending() {
        put_first(line, byte, decoder, writer);
        return;
    }
    match decoder.take(byte) {
        Reading::Character(character) => put_next(line, character, writer),
        Reading::More => {}
        Reading::Broken => {
            put_next(line, REPLACEMENT, writer);
            put_first(line, byte, decoder, writer);
        }
    }
}

/// Takes a byte where nothing is pending.
fn put_first<W: Write>(line: &mut Line, byte: u8, decoder: &mut Decoder, writer: &mut Watched<W>)
    requires { decoder.old ≡ [] }
    ensures goes { (a : Watched W) (moment : ℕ) (text : List ℕ)
        → Goes W.contents a writer.old line.old moment text
        → Goes W.contents a writer.new line.new moment (begun text byte).characters }
    ensures pending { (text : List ℕ) → decoder.new ≡ (begun text byte).pending }
{
    if byte < 0x80 {
        put_next(line, byte as char, writer);
    } else if begins(byte) {
        decoder.begin(byte);
    } else {
        put_next(line, REPLACEMENT, writer);
    }
}

/// Writes the next character of a line.
fn put_next<W: Write>(line: &mut Line, character: char, writer: &mut Watched<W>)
    ensures { (a : Watched W) (moment : ℕ) (text : List ℕ)
        → Goes W.contents a writer.old line.old moment text
        → Goes W.contents a writer.new line.new moment (text ++ character ∷ []) }
{
    gives_join::<W>();
    if line.is_begun {
        put_character(character, writer);
    } else {
        put_opening(line.moment, writer);
        put_character(character, writer);
        line.is_begun = true;
    }
}

/// Writes how an event begins.
#[tactic(auto, unfolding(crate::specs::Cast::event_opening))]
fn put_opening<W: Write>(moment: u64, writer: &mut Watched<W>)
    ensures { Gave W.contents writer.old writer.new (event_opening moment) }
{
    writer.give_all(&[b"[", seconds_text(moment).as_bytes(), b", \"o\", \""]);
}

/// Writes how an event ends.
#[tactic(auto, unfolding(crate::specs::Cast::event_closing))]
fn put_closing<W: Write>(writer: &mut Watched<W>)
    ensures { Gave W.contents writer.old writer.new event_closing }
{
    writer.give(b"\"]\n");
}
