//! One line of a timing file, in the classic format, the multi-stream one or sudo's.
ghost use Rattle.std.specs.Prelude.{◌≡◌, IfOk, IfSome, min};
ghost use Rattle.std.specs.Option.{option_map};
ghost use Rattle.tape_core.specs.Seconds.{last_moment};
ghost use Rattle.tape_core.specs.Text.{fields};
ghost use Rattle.tape_core.specs.Timing.{entry_of};
ghost use Rattle.tape_mend.specs.Steps.{IsSmall, capped};
ghost use Rattle.tape_mend.specs.Streams.{classic_line, count_of, event_of, fault_of_entry, named, said_by, stream_line, stream_of, sudo_line};

use tape_core::text::next_field;
use tape_core::timing::{EntryFault, read_delay, read_entry, read_only_count};

/// A format of timing files. script(1), sudo.
#[derive(Clone, Copy, Debug)]
pub enum Format {
    /// A line for each output: its delay and its count.
    Classic,
    /// Lines for all streams, each with the letter of its stream ("advanced").
    Streams,
    /// Lines for all streams, each with the digit of an event (sudo's I/O log).
    Sudo,
}

/// A stream of the multi-stream format or of sudo's. script(1), sudo.
#[derive(Clone, Copy, Debug)]
pub enum Stream {
    /// Facts of the recording.
    Header,
    /// What was typed.
    Input,
    /// What the terminal got.
    Output,
    /// Signals, such as a change of size.
    Signal,
    /// What sudo's command wrote to a pipe or a file.
    Pipe,
    /// A change of the size, as sudo tells it.
    Resize,
}

/// What a line says: its stream, its delay in microseconds, and how many bytes it counts. script(1), sudo.
#[derive(Clone, Copy, Debug)]
pub struct Line {
    pub stream: Stream,
    pub delay: u64,
    pub count: u64,
}

/// What is wrong with a line. script(1); the limits are ours.
#[derive(Clone, Copy, Debug)]
pub enum LineFault {
    /// A line doesn't begin with the letter of a stream, or in sudo's format with the digit of an event.
    BadStream,
    /// Its delay isn't one.
    BadDelay,
    /// It hasn't just a count where one belongs.
    BadCount,
    /// A line of the classic format begins with a letter.
    MultiStream,
    /// The delays since the last output add up to more than the limit.
    DelayTooLarge,
    /// Its count is above the limit of a chunk.
    ChunkTooLong,
    /// It is one chunk too many.
    TooManyChunks,
    /// With this line the counts add up to more than a body may have.
    TooManyBytes,
}

/// The stream that a field names.
fn stream_named(field: &[u8]) -> Option<Stream>
    ensures { result ≡ stream_of field.now }
{
    match field {
        [b'H'] => Some(Stream::Header),
        [b'I'] => Some(Stream::Input),
        [b'O'] => Some(Stream::Output),
        [b'S'] => Some(Stream::Signal),
        _ => None,
    }
}

/// The stream of the event that a field names. sudo.
pub fn event_named(field: &[u8]) -> Option<Stream>
    ensures { result ≡ event_of field.now }
{
    match field {
        [b'0' | b'3'] => Some(Stream::Input),
        [b'1' | b'2'] => Some(Stream::Pipe),
        [b'4' | b'6'] => Some(Stream::Output),
        [b'5'] => Some(Stream::Resize),
        [b'7'] => Some(Stream::Signal),
        _ => None,
    }
}

/// The count behind stream and delay, at most 10^18: inputs and outputs have just one, the others none.
fn read_count(stream: Stream, text: &[u8]) -> Option<u64>
    ensures { result ≡ option_map (λ n. min n last_moment) (count_of stream (fields text.now)) }
{
    match stream {
        Stream::Input | Stream::Output | Stream::Pipe => read_only_count(text),
        Stream::Header | Stream::Signal | Stream::Resize => Some(0),
    }
}

/// What a line of the multi-stream format says, its delay and its count at most 10^18.
fn read_stream_line(text: &[u8]) -> Result<Option<Line>, LineFault>
    ensures said { result ≡ capped (stream_line (fields text.now)) }
    ensures small { IfOk result (λ line. IfSome line IsSmall) }
{
    match next_field(text) {
        None => Ok(None),
        Some((first, behind)) => read_behind(stream_named(first), behind),
    }
}

/// What a line of sudo's format says, its delay and its count at most 10^18.
fn read_sudo_line(text: &[u8]) -> Result<Option<Line>, LineFault>
    ensures said { result ≡ capped (sudo_line (fields text.now)) }
    ensures small { IfOk result (λ line. IfSome line IsSmall) }
{
    match next_field(text) {
        None => Ok(None),
        Some((first, behind)) => read_behind(event_named(first), behind),
    }
}

/// What a line says behind the name of its stream, delay and count at most 10^18.
fn read_behind(stream: Option<Stream>, behind: &[u8]) -> Result<Option<Line>, LineFault>
    ensures said { result ≡ capped (named stream (fields behind.now)) }
    ensures small { IfOk result (λ line. IfSome line IsSmall) }
{
    let stream = stream.ok_or(LineFault::BadStream)?;
    let (second, rest) = next_field(behind).ok_or(LineFault::BadDelay)?;
    let delay = read_delay(second).ok_or(LineFault::BadDelay)?;
    let count = read_count(stream, rest).ok_or(LineFault::BadCount)?;
    Ok(Some(Line {
        stream,
        delay,
        count,
    }))
}

/// The fault under its name here.
fn fault_of(fault: EntryFault) -> LineFault
    ensures { result ≡ fault_of_entry fault }
{
    match fault {
        EntryFault::MultiStream => LineFault::MultiStream,
        EntryFault::BadDelay => LineFault::BadDelay,
        EntryFault::BadCount => LineFault::BadCount,
        EntryFault::DelayTooLarge => LineFault::DelayTooLarge,
        EntryFault::ChunkTooLong => LineFault::ChunkTooLong,
    }
}

/// What a line of the classic format says.
fn read_classic_line(text: &[u8]) -> Result<Option<Line>, LineFault>
    ensures said { result ≡ classic_line (entry_of text.now) }
    ensures small { IfOk result (λ line. IfSome line IsSmall) }
{
    match read_entry(text) {
        Err(fault) => Err(fault_of(fault)),
        Ok(None) => Ok(None),
        Ok(Some(entry)) => Ok(Some(Line {
            stream: Stream::Output,
            delay: entry.delay,
            count: entry.count,
        })),
    }
}

/// What a line says, its delay and its count at most 10^18.
pub fn read_line(format: Format, text: &[u8]) -> Result<Option<Line>, LineFault>
    ensures said { result ≡ capped (said_by format text.now) }
    ensures small { IfOk result (λ line. IfSome line IsSmall) }
{
    match format {
        Format::Classic => read_classic_line(text),
        Format::Streams => read_stream_line(text),
        Format::Sudo => read_sudo_line(text),
    }
}
