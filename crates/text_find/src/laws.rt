//! Laws over the definitions alone, as functions with empty bodies.

ghost use Rattle.text_find.specs.FindLines.{NowhereMeansNowhere, WhatIsFoundStood};

use crate::finder::Finder;
use plays::Plays;
use tape_core::laws::{due_is_below_the_count, first_grows_by_a_chunk};

/// Where no line of a text is written, it stands nowhere: not at the moment `from`, and not after any
/// byte of a chunk that is asked for.
pub fn nowhere_means_nowhere<T: Plays, F: Finder<T>>()
    ensures { NowhereMeansNowhere F.screens }
{
    due_is_below_the_count();
    first_grows_by_a_chunk();
    F::begins_blank();
}

/// Each line that is written names a place at which the text stood: before the first byte of its chunk,
/// or after one of its bytes.
pub fn what_is_found_stood<T: Plays, F: Finder<T>>()
    ensures { WhatIsFoundStood F.screens }
{}
