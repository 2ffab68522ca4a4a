//! The plain print: what stands on the sheet that is shown, as text without renditions.

ghost use Rattle.std.specs.Prelude.{◌≡◌, OnOk, true, false};
ghost use Rattle.tape_core.specs.Devices.{Gave, Puts, has_failed, is_flushed};
ghost use Rattle.xterm_print.specs.PlainText.{plain_text};

use crate::rows::put_row;
use std::io::Write;
use tape_core::laws::gives_join;
use tape_core::{Fault, Watched};
use xterm_screen::Screen;
use xterm_term::Terminal;

/// Prints the lines of the sheet that is shown as UTF-8, each without the spaces at its end, and LF. Concealed characters are
/// printed too: they were there. It takes no memory. After a write fault a beginning of the text has gone out.
pub fn plain<W: Write>(terminal: &Terminal, writer: &mut Watched<W>) -> Result<(), Fault>
    requires { has_failed writer.old ≡ false }
    ensures puts { Puts W.contents writer.old writer.new
        (plain_text terminal.now.console.picture) result }
    ensures flushed { OnOk result (is_flushed writer.new ≡ true) }
{
    put_lines(terminal.screen(), writer);
    writer.settle()
}

/// Prints the lines, and doesn't flush.
fn put_lines<W: Write>(screen: &Screen, writer: &mut Watched<W>)
    ensures { Gave W.contents writer.old writer.new (plain_text screen.now.picture) }
{
    gives_join::<W>();
    let _cursor = screen.cursor();
    for line in 1..screen.lines() + 1 {
        put_row(screen.row(line), screen.used(line), writer);
    }
}
