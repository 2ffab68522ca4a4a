//! The state text: all of what a terminal is, as a text.

ghost use Rattle.std.specs.Prelude.{◌≡◌, OnOk, true, false};
ghost use Rattle.tape_core.specs.Devices.{Puts, has_failed, is_flushed};
ghost use Rattle.screen_state.specs.StateText.{state_text};

use crate::closing::closing_text;
use crate::opening::opening_text;
use parser_state::put_pending;
use screen_print::put_lines;
use std::io::Write;
use tape_core::laws::gives_join;
use tape_core::{Fault, Watched};
use vt_term::Terminal;

/// Writes a text that makes of any terminal of the profile, whatever is pending there, one of which all is seen that is
/// seen of this one, and that asks for no report. It takes no memory, and ends without an LF. After a write fault a
/// beginning of the text has gone out.
#[tactic(auto, unfolding(crate::specs::StateText::state_text))]
pub fn state<W: Write>(terminal: &Terminal, writer: &mut Watched<W>) -> Result<(), Fault>
    requires { has_failed writer.old ≡ false }
    ensures puts { Puts W.contents writer.old writer.new
        (state_text terminal.now.console terminal.now.state) result }
    ensures flushed { OnOk result (is_flushed writer.new ≡ true) }
{
    gives_join::<W>();
    writer.give(opening_text(terminal).as_slice());
    put_lines(terminal.screen(), writer);
    writer.give(closing_text(terminal).as_slice());
    put_pending(terminal.parser_state(), writer);
    writer.settle()
}
