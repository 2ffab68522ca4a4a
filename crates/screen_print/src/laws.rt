//! Laws over the definitions alone, as functions with empty bodies.

ghost use Rattle.vt_term.specs.Term.{Term};
ghost use Rattle.vt_term.specs.Seen.{Shows};
ghost use Rattle.screen_print.specs.EachByte.{NowhereMeansNowhere, WhatIsFoundStood};
ghost use Rattle.screen_print.specs.Redrawn.{DrawsAgain};

use tape_core::laws::{due_is_below_the_count, first_grows_by_a_chunk};
use vt_screen::laws::{lines_are_drawn_by_cell, pictures_are_drawn_by_line, right_margins};
use vt_term::Terminal;
use vt_term::laws::{
    characters_bring, controls_bring, parts_bring, plays_in_parts, sequences_bring,
};

/// The escaped print of a terminal, played from the reset term, gives its columns, sizes, cells,
/// reversed flag and cursor again, with nothing pending and nothing sent.
pub fn escaped_print_draws_again(terminal: &Terminal)
    ensures { (x : Term) → Shows terminal.now x → DrawsAgain x }
{
    parts_bring();
    characters_bring();
    controls_bring();
    sequences_bring();
    right_margins();
    pictures_are_drawn_by_line();
    lines_are_drawn_by_cell();
    let _screen = terminal.screen();
}

/// Where no line of a text is written, it stands nowhere: not at the moment `from`, and not after any
/// byte of a chunk that is asked for.
pub fn nowhere_means_nowhere()
    ensures { NowhereMeansNowhere }
{
    due_is_below_the_count();
    first_grows_by_a_chunk();
    plays_in_parts();
}

/// Each line that is written names a place at which the text stood: before the first byte of its chunk,
/// or after one of its bytes.
pub fn what_is_found_stood()
    ensures { WhatIsFoundStood }
{}
