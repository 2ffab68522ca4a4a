//! When rows are the same.

ghost use Rattle.std.specs.Prelude.{◌≡◌, ◌+◌, ◌<◌, ◌≤◌, IsTrue, false, length};
ghost use Rattle.xterm_print.specs.ChangeLines.{same_cell, same_row};
ghost use Rattle.xterm_print.specs.Same.{Agree};

use sheet::Cell;

/// How many cells are compared at a time.
pub(crate) const TOGETHER: usize = 8;

/// Whether two cells are the same.
pub(crate) fn same_cell(one: Cell, other: Cell) -> bool
    ensures same { result ≡ same_cell one other }
    ensures equal { IsTrue result → one ≡ other }
{
    one == other
}

/// Whether some cells from one place on are the same. It looks at all of them, which makes it code over vectors.
fn agree_together(one: &[Cell], other: &[Cell], from: usize) -> bool
    requires long { length one.now ≡ length other.now }
    requires within { from + TOGETHER ≤ length one.now }
    ensures agree { IsTrue result → Agree one.now other.now from (from + TOGETHER) }
    ensures differ { result ≡ false → same_row one.now other.now ≡ false }
{
    let mut same = true;
    for at in from..from + TOGETHER {
        same &= same_cell(one[at], other[at]);
    }
    same
}

/// A place from another one on, up to which all cells are the same; where it lies before the end, some differ.
pub(crate) fn place_from(one: &[Cell], other: &[Cell], from: usize, end: usize) -> usize
    requires long { length one.now ≡ length other.now }
    requires apart { from ≤ end }
    requires within { end ≤ length one.now }
    ensures agree { Agree one.now other.now from result }
    ensures low { from ≤ result }
    ensures high { result ≤ end }
    ensures differ { result < end → same_row one.now other.now ≡ false }
{
    for at in from..end {
        if !same_cell(one[at], other[at]) {
            return at;
        }
    }
    end
}

/// A place up to which all cells are the same; where it lies before the end, some differ.
pub(crate) fn same_up_to(one: &[Cell], other: &[Cell], end: usize) -> usize
    requires long { length one.now ≡ length other.now }
    requires within { end ≤ length one.now }
    ensures agree { Agree one.now other.now 0 result }
    ensures high { result ≤ end }
    ensures differ { result < end → same_row one.now other.now ≡ false }
{
    let mut at = 0;
    while TOGETHER <= end - at {
        if !agree_together(one, other, at) {
            return at;
        }
        at += TOGETHER;
    }
    place_from(one, other, at, end)
}

/// Whether two rows are the same; then they are equal.
pub fn same_row(one: &[Cell], other: &[Cell]) -> bool
    ensures same { result ≡ same_row one.now other.now }
    ensures equal { IsTrue result → one.now ≡ other.now }
{
    if one.len() != other.len() {
        return false;
    }
    same_up_to(one, other, one.len()) == one.len()
}
