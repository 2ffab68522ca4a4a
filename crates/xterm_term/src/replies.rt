//! What a terminal replies.
ghost use Rattle.std.specs.Prelude.{◌≡◌, ◌≤◌, OnOk, OnErr, IsOk};
ghost use Rattle.xterm_term.specs.Replies.{sequence_reply, cursor_position, reported_line};
ghost use Rattle.xterm_term.specs.Sequences.{Da, Dsr, Decreqtparm};
ghost use Rattle.xterm_term.specs.Console.{console_of};
ghost use Rattle.plays.specs.Sink.{after_sending, HasRoom};

use crate::console::Console;
use crate::{OutOfMemory, Reports};
use arrayvec::ArrayVec;
use itoa::Buffer;
use sheet::limits::{MOST_COLUMNS, MOST_LINES};

/// What the terminal says that it is: a VT100 with the Advanced Video Option.
pub(crate) const DEVICE_ATTRIBUTES: &[u8] = b"\x1b[?1;2c";

// No malfunction.
const READY: &[u8] = b"\x1b[0n";

// No parity, 8 bits, 9,600 baud both ways; unasked reports are allowed (2) or not (3).
const UNSOLICITED_PARAMETERS: &[u8] = b"\x1b[2;1;1;112;112;1;0x";

const SOLICITED_PARAMETERS: &[u8] = b"\x1b[3;1;1;112;112;1;0x";

/// The longest reply.
const LONGEST: usize = 20;

// The reply to DSR 6, of a line and a column.
fn cursor_position(line: u16, column: u16) -> ArrayVec<u8, LONGEST>
    requires line { line ≤ MOST_LINES }
    requires column { column ≤ MOST_COLUMNS }
    ensures { result.items ≡ cursor_position line column }
{
    let mut buffer = Buffer::new();
    let mut reply = ArrayVec::new();
    let _ = reply.try_extend_from_slice(b"\x1b[");
    let _ = reply.try_extend_from_slice(buffer.format(line).as_bytes());
    reply.push(b';');
    let _ = reply.try_extend_from_slice(buffer.format(column).as_bytes());
    reply.push(b'R');
    reply
}

// A line, counted from the top margin where DECOM is set.
fn reported_line(origin: bool, line: u16, top: u16) -> u16
    ensures { result ≡ reported_line origin line top }
{
    if origin {
        line.saturating_sub(top.saturating_sub(1))
    } else {
        line
    }
}

impl Console {
    /// DA.
    pub(crate) fn send_attributes(&self, param: u16, sink: &mut Reports) -> Result<(), OutOfMemory>
        ensures ok { OnOk result
            (sink.new ≡ after_sending sink.old (sequence_reply Da param (console_of self.now))) }
        ensures err { OnErr result (sink.new ≡ sink.old) }
        ensures room { HasRoom sink.old (sequence_reply Da param (console_of self.now))
            → IsOk result }
    {
        match param {
            0 => sink.send(DEVICE_ATTRIBUTES),
            _ => Ok(()),
        }
    }

    /// DSR.
    pub(crate) fn send_status(&self, param: u16, sink: &mut Reports) -> Result<(), OutOfMemory>
        ensures ok { OnOk result
            (sink.new ≡ after_sending sink.old (sequence_reply Dsr param (console_of self.now))) }
        ensures err { OnErr result (sink.new ≡ sink.old) }
        ensures room { HasRoom sink.old (sequence_reply Dsr param (console_of self.now))
            → IsOk result }
    {
        match param {
            5 => sink.send(READY),
            6 => {
                let (line, column) = self.screen.cursor();
                let (top, _) = self.screen.margins();
                let reported = reported_line(self.modes.origin, line, top);
                sink.send(cursor_position(reported, column).as_slice())
            }
            _ => Ok(()),
        }
    }

    /// DECREQTPARM.
    pub(crate) fn send_parameters(&self, param: u16, sink: &mut Reports) -> Result<(), OutOfMemory>
        ensures ok { OnOk result
            (sink.new ≡ after_sending sink.old
            (sequence_reply Decreqtparm param (console_of self.now))) }
        ensures err { OnErr result (sink.new ≡ sink.old) }
        ensures room { HasRoom sink.old (sequence_reply Decreqtparm param (console_of self.now))
            → IsOk result }
    {
        match param {
            0 => sink.send(UNSOLICITED_PARAMETERS),
            1 => sink.send(SOLICITED_PARAMETERS),
            _ => Ok(()),
        }
    }
}
