//! Laws over the definitions alone, as functions with empty bodies.

ghost use Rattle.screen_page.specs.Law.{PageReadsBack, PageReplays};

use screen_rows::laws::same_rows_are_equal;
use tape_core::laws::{numbers_read_back, seconds_read_back};
use vt_screen::laws::right_margins;
use vt_term::laws::stays_safe;

/// The page replays: for every recording, in both profiles, the fold of the first entries gives what stands on the terminal
/// after so many chunks (ours).
pub fn page_replays()
    ensures { PageReplays }
{
    same_rows_are_equal();
    stays_safe();
}

/// The data of a page is read back: as JSON it tells the entries that it was written of, where these are within the
/// greatest moment and 2^64; so are those of each recording (ours).
pub fn page_reads_back()
    ensures { PageReadsBack }
{
    numbers_read_back();
    seconds_read_back();
    stays_safe();
    right_margins();
}
