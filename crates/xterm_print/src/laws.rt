//! Laws over the definitions alone, as functions with empty bodies.

ghost use Rattle.text_find.specs.FindLines.{WhatIsFoundStood};
ghost use Rattle.xterm_print.specs.FindLines.{NowhereMeansNowhere};
ghost use Rattle.xterm_print.specs.FindRows.{rows_shown};

use crate::find_lines::Sheets;
use xterm_term::Terminal;

/// Where no line of a text is written, it stands nowhere: not at the moment `from`, and not after any
/// byte of a chunk that is asked for.
#[tactic(auto, unfolding(crate::specs::FindLines::find_lines))]
pub fn nowhere_means_nowhere()
    ensures { NowhereMeansNowhere }
{
    text_find::laws::nowhere_means_nowhere::<Terminal, Sheets>();
}

/// Each line that is written names a place at which the text stood: before the first byte of its chunk,
/// or after one of its bytes.
pub fn what_is_found_stood()
    ensures { WhatIsFoundStood rows_shown }
{
    text_find::laws::what_is_found_stood::<Terminal, Sheets>();
}
