//! What lines come to, one behind another.
ghost use Rattle.std.specs.Prelude.{◌≡◌, ◌+◌, ◌<◌, ◌^◌, IfOk, IfSome, Ok, Some};
ghost use Rattle.std.specs.Option.{option_to_list};
ghost use Rattle.tape_mend.specs.Counting.{is_output, limited, line_pieces, lying, within, with_line};
ghost use Rattle.tape_mend.specs.Front.{at_first};
ghost use Rattle.tape_mend.specs.Steps.{IsSmall, IsSound};

use crate::line::{Line, LineFault, Stream};
use tape_core::limits::{LONGEST_BODY, LONGEST_CHUNK, LONGEST_DELAY, MOST_CHUNKS};
use tape_core::timing::Entry;

/// What the lines so far come to: how many they are, blank ones among them; how many outputs, inputs, signals, outputs to
/// pipes and changes of the size are among them; how many bytes they count that lie in the typescript; and the
/// microseconds since the last output.
#[derive(Clone, Copy, Debug)]
pub struct Behind {
    pub lines: u64,
    pub outputs: u64,
    pub bytes: u64,
    pub waited: u64,
    pub inputs: u64,
    pub signals: u64,
    pub pipes: u64,
    pub resizes: u64,
}

/// A part of the body.
#[derive(Clone, Copy, Debug)]
pub enum Piece {
    /// The bytes of an output, with its delay.
    Output(Entry),
    /// So many bytes of an input.
    Input(u64),
}

/// How many of the bytes that a line counts lie in the typescript.
fn lying_of(shared: bool, line: Line) -> u64
    ensures { result ≡ lying shared line }
{
    match line.stream {
        Stream::Output => line.count,
        Stream::Input if shared => line.count,
        _ => 0,
    }
}

impl Line {
    /// Whether the line is an output.
    fn is_output(self) -> bool
        ensures { result ≡ is_output self.stream }
    {
        matches!(self.stream, Stream::Output)
    }
}

impl Behind {
    /// Behind no line.
    pub fn no_lines() -> Behind
        ensures { result ≡ at_first }
    {
        Behind {
            lines: 0,
            outputs: 0,
            bytes: 0,
            waited: 0,
            inputs: 0,
            signals: 0,
            pipes: 0,
            resizes: 0,
        }
    }

    /// The line, or the first limit that it breaks.
    fn within(self, shared: bool, line: Line) -> Result<Option<Line>, LineFault>
        requires sound { IsSound self }
        requires small { IsSmall line }
        ensures { result ≡ within self shared line }
    {
        if self.waited + line.delay > LONGEST_DELAY {
            return Err(LineFault::DelayTooLarge);
        }
        if line.count > LONGEST_CHUNK as u64 {
            return Err(LineFault::ChunkTooLong);
        }
        if line.is_output() && self.outputs >= MOST_CHUNKS as u64 {
            return Err(LineFault::TooManyChunks);
        }
        if self.bytes + lying_of(shared, line) > LONGEST_BODY {
            return Err(LineFault::TooManyBytes);
        }
        Ok(Some(line))
    }

    /// What a line says, or its fault behind these lines.
    pub fn limited(
        self,
        shared: bool,
        said: Result<Option<Line>, LineFault>,
    ) -> Result<Option<Line>, LineFault>
        requires sound { IsSound self }
        requires small { IfOk said (λ line. IfSome line IsSmall) }
        ensures { result ≡ limited self shared said }
    {
        match said? {
            Some(line) => self.within(shared, line),
            None => Ok(None),
        }
    }

    /// What the lines come to with one more, which is within the limits.
    pub fn with_line(self, shared: bool, line: Option<Line>) -> Behind
        requires sound { IsSound self }
        requires lines { self.lines + 1 < 2 ^ 64 }
        requires within { IfSome line (λ line. within self shared line ≡ Ok (Some line)) }
        ensures { result ≡ with_line self shared line }
    {
        let lines = self.lines + 1;
        let Some(line) = line else {
            return Behind { lines, ..self };
        };
        let waited = self.waited + line.delay;
        let bytes = self.bytes + lying_of(shared, line);
        match line.stream {
            Stream::Output => Behind {
                lines,
                outputs: self.outputs + 1,
                bytes,
                waited: 0,
                ..self
            },
            Stream::Input => Behind {
                lines,
                inputs: self.inputs + 1,
                bytes,
                waited,
                ..self
            },
            Stream::Pipe => Behind {
                lines,
                pipes: self.pipes + 1,
                bytes,
                waited,
                ..self
            },
            Stream::Header => Behind {
                lines,
                bytes,
                waited,
                ..self
            },
            Stream::Resize => Behind {
                lines,
                resizes: self.resizes + 1,
                bytes,
                waited,
                ..self
            },
            Stream::Signal => Behind {
                lines,
                signals: self.signals + 1,
                bytes,
                waited,
                ..self
            },
        }
    }

    /// The part of the body that the line counts, if it does.
    pub fn piece(self, shared: bool, line: Line) -> Option<Piece>
        requires sound { IsSound self }
        requires small { IsSmall line }
        ensures { option_to_list result ≡ line_pieces self shared (Some line) }
    {
        match line.stream {
            Stream::Output => Some(Piece::Output(Entry {
                delay: self.waited + line.delay,
                count: line.count,
            })),
            Stream::Input if shared => Some(Piece::Input(line.count)),
            _ => None,
        }
    }
}
