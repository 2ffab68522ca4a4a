//! The files into which outputs and inputs were logged, as header lines name them.
ghost use Rattle.std.specs.Prelude.{◌≡◌, nat_eq};
ghost use Rattle.std.specs.Cmp.Lexicographic.{pointwise};
ghost use Rattle.std.specs.Option.{option_map};
ghost use Rattle.tape_core.specs.Text.{fields};
ghost use Rattle.tape_mend.specs.Counting.{are_shared, log_of, logs_behind};
ghost use Rattle.tape_mend.specs.Seen.{IsAsked, fields_at, logs_of};

use crate::line::Format;
use tape_core::text::next_field;

/// What stands behind the name in the first header line of each log that has a field there, and whether both are one
/// file. That is asked once, when both are known: names may be long, and lines many.
#[derive(Clone, Copy, Debug)]
pub struct Logs<'t> {
    pub output: Option<&'t [u8]>,
    pub input: Option<&'t [u8]>,
    pub shared: bool,
}

/// What a header line has behind this name, if it is that of a log.
fn named_log<'t>(name: &[u8], text: &'t [u8]) -> Option<&'t [u8]>
    ensures { option_map fields_at result ≡ log_of name.now (fields text.now) }
{
    let (letter, behind) = next_field(text)?;
    let (_, behind) = next_field(behind)?;
    let (first, rest) = next_field(behind)?;
    let _next = next_field(rest)?;
    if letter == b"H".as_slice() && first == name {
        Some(rest)
    } else {
        None
    }
}

/// Whether two texts have the same fields.
fn have_same_fields(one: &[u8], other: &[u8]) -> bool
    ensures { result ≡ pointwise (pointwise nat_eq) (fields one.now) (fields other.now) }
{
    let mut left = one;
    let mut right = other;
    loop {
        match (next_field(left), next_field(right)) {
            (None, None) => return true,
            (Some((a, behind)), Some((b, after))) if a == b => {
                left = behind;
                right = after;
            }
            _ => return false,
        }
    }
}

impl<'t> Logs<'t> {
    /// The logs that are known behind a line.
    pub fn behind(self, format: Format, text: &'t [u8]) -> Logs<'t>
        requires { IsAsked self }
        ensures logs { logs_of result ≡ logs_behind format (logs_of self.entry) text.now }
        ensures asked { IsAsked result }
    {
        match (format, self.output, self.input) {
            (Format::Classic | Format::Sudo, _, _) | (_, Some(_), Some(_)) => self,
            (Format::Streams, output, input) => {
                let logs = Logs {
                    output: output.or(named_log(b"OUTPUT_LOG", text)),
                    input: input.or(named_log(b"INPUT_LOG", text)),
                    shared: false,
                };
                Logs {
                    shared: logs.are_shared(),
                    ..logs
                }
            }
        }
    }

    /// Whether both are one file.
    fn are_shared(self) -> bool
        ensures { result ≡ are_shared (logs_of self.entry) }
    {
        match (self.output, self.input) {
            (Some(output), Some(input)) => have_same_fields(output, input),
            _ => false,
        }
    }
}
