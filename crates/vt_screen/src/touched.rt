//! Which lines were touched since that was last cleared.

ghost use Rattle.std.specs.Prelude.{◌≡◌, ◌+◌, ◌≤◌};
ghost use Rattle.vt_screen.specs.Touched.{is_touched, touched_from};

use crate::limits::LINES;

/// Whether a line was touched.
#[inline]
pub(crate) fn was_touched(touched: &[bool; LINES as usize], line: u8) -> bool
    requires low { 1 ≤ line }
    requires high { line ≤ LINES }
    ensures { result ≡ is_touched touched.now line }
{
    touched[line as usize - 1]
}

/// Touches a line.
#[inline]
pub(crate) fn touch_line(touched: &mut [bool; LINES as usize], line: u8)
    requires low { 1 ≤ line }
    requires high { line ≤ LINES }
    ensures { touched.new ≡ touched_from line (line + 1) touched.old }
{
    touched[line as usize - 1] = true;
}

/// Touches the lines from one to another.
#[inline]
pub(crate) fn touch_lines(touched: &mut [bool; LINES as usize], first: u8, last: u8)
    requires low { 1 ≤ first }
    requires apart { first ≤ last + 1 }
    requires high { last ≤ LINES }
    ensures { touched.new ≡ touched_from first (last + 1) touched.old }
{
    if first == 1 && last == LINES {
        *touched = [true; LINES as usize];
    } else {
        touch_each(touched, first, last);
    }
}

/// Touches them one after another.
fn touch_each(touched: &mut [bool; LINES as usize], first: u8, last: u8)
    requires low { 1 ≤ first }
    requires apart { first ≤ last + 1 }
    requires high { last ≤ LINES }
    ensures { touched.new ≡ touched_from first (last + 1) touched.old }
{
    for line in first..last + 1 {
        touched[line as usize - 1] = true;
    }
}
