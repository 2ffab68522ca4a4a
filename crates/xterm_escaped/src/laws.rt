//! Laws over the definitions alone, as functions with empty bodies.

ghost use Rattle.xterm_escaped.specs.Colours.{ColoursAreBytes};
ghost use Rattle.xterm_escaped.specs.Redrawn.{EscapedPrintDrawsAgain};

use characters::laws::widths_are_small;
use vt_parser::laws::{commands_are_proper, decimals_are_read, graphic_is_shown};
use xterm_term::laws::stays_safe;

/// The escaped print of any terminal, played from the reset term of its size, gives its rows, reversed flag, cursor and
/// whether that is shown again, with nothing pending and nothing sent.
pub fn escaped_print_draws_again()
    ensures { EscapedPrintDrawsAgain }
{
    widths_are_small();
    commands_are_proper();
    decimals_are_read();
    graphic_is_shown();
    stays_safe();
}

/// The colours that stand on any terminal, played from the reset term of its size, are of the palette or told by bytes.
pub fn colours_are_bytes()
    ensures { ColoursAreBytes }
{
    widths_are_small();
    commands_are_proper();
}
