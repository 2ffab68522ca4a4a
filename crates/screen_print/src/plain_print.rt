//! The plain print: what stands on the screen, as text without renditions.

ghost use Rattle.std.specs.Prelude.{◌≡◌, OnOk, true, false};
ghost use Rattle.tape_core.specs.Devices.{Gave, Puts, has_failed, is_flushed};
ghost use Rattle.screen_print.specs.PlainText.{plain_text};

use screen_rows::printed_row;
use std::io::Write;
use tape_core::laws::gives_join;
use tape_core::{Fault, Watched};
use vt_screen::Screen;
use vt_screen::laws::screens_are_sound;
use vt_screen::limits::LINES;
use vt_term::Terminal;

/// Prints the 24 lines of the screen as UTF-8, each to its right margin without the spaces at its
/// end, and LF. It takes no memory. After a write fault a beginning of the text has gone out.
pub fn plain<W: Write>(terminal: &Terminal, writer: &mut Watched<W>) -> Result<(), Fault>
    requires { has_failed writer.old ≡ false }
    ensures puts { Puts W.contents writer.old writer.new
        (plain_text terminal.now.console.picture) result }
    ensures flushed { OnOk result (is_flushed writer.new ≡ true) }
{
    put_lines(terminal.screen(), writer);
    writer.settle()
}

/// Prints the lines, and doesn't flush.
fn put_lines<W: Write>(screen: &Screen, writer: &mut Watched<W>)
    ensures { Gave W.contents writer.old writer.new (plain_text screen.now.picture) }
{
    gives_join::<W>();
    screens_are_sound(screen);
    for line in 1..LINES + 1 {
        let text = printed_row(screen.is_wide(), screen.row(line));
        writer.give(text.as_str().as_bytes());
    }
}
