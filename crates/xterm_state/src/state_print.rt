//! The state text: all of what a terminal is, as a text.

ghost use Rattle.std.specs.Prelude.{◌≡◌, OnOk, true, false};
ghost use Rattle.characters.specs.Utf8.{bytes_of};
ghost use Rattle.tape_core.specs.Devices.{Gave, Puts, has_failed, is_flushed};
ghost use Rattle.xterm_state.specs.StateText.{state_text};

use crate::closing::put_closing;
use crate::opening::{put_anew, put_sheets, put_stops};
use characters::Begun;
use parser_state::put_pending;
use std::io::Write;
use tape_core::laws::gives_join;
use tape_core::{Fault, Watched};
use xterm_term::Terminal;

/// Writes a text that makes of any terminal of this size, whatever is pending there, one of which all is seen that is
/// seen of this one, and that asks for no report. It takes no memory, and ends without an LF. After a write fault a
/// beginning of the text has gone out.
#[tactic(auto, unfolding(crate::specs::StateText::state_text))]
pub fn state<W: Write>(terminal: &Terminal, writer: &mut Watched<W>) -> Result<(), Fault>
    requires { has_failed writer.old ≡ false }
    ensures puts { Puts W.contents writer.old writer.new
        (state_text terminal.now.console terminal.now.state terminal.now.character) result }
    ensures flushed { OnOk result (is_flushed writer.new ≡ true) }
{
    gives_join::<W>();
    put_anew(writer);
    put_stops(terminal.screen(), writer);
    put_sheets(terminal, writer);
    put_closing(terminal, writer);
    put_pending(terminal.parser_state(), writer);
    put_begun(terminal.character(), writer);
    writer.settle()
}

/// Writes the bytes of a character that isn't finished.
fn put_begun<W: Write>(begun: Begun, writer: &mut Watched<W>)
    ensures { Gave W.contents writer.old writer.new (bytes_of begun) }
{
    gives_join::<W>();
    match begun {
        Begun::Nothing => {}
        Begun::One(first) => writer.give(&[first]),
        Begun::Two(first, second) => writer.give(&[first, second]),
        Begun::Three(first, second, third) => writer.give(&[first, second, third]),
    }
}
