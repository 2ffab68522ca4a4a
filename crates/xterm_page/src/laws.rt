//! Laws over the definitions alone, as functions with empty bodies.

ghost use Rattle.xterm_page.specs.Law.{PageReadsBack, PageReplays};

use tape_core::laws::{numbers_read_back, seconds_read_back};
use xterm_escaped::laws::colours_are_bytes;
use xterm_term::laws::{size_stays, stays_safe};

/// The page replays: for every recording and size, the fold of the first entries gives what stands on the terminal after so
/// many chunks (ours).
pub fn page_replays()
    ensures { PageReplays }
{
    stays_safe();
    size_stays();
}

/// The data of a page is read back: as JSON it tells the size and the entries that it was written of, where these are
/// within the greatest moment and 2^64; so are those of each recording (ours).
pub fn page_reads_back()
    ensures { PageReadsBack }
{
    numbers_read_back();
    seconds_read_back();
    stays_safe();
    size_stays();
    colours_are_bytes();
}
