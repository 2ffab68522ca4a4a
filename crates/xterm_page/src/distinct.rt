//! Of how many of a sheet's first rows it is known that no two are the same.

ghost use Rattle.std.specs.Prelude.{◌≡◌, ◌+◌, ◌<◌, ◌≤◌, List, None, ℕ, [], ◌∷◌, length, slice_index_or, true};
ghost use Rattle.std.specs.List.{flat_map};
ghost use Rattle.sheet.specs.Cells.{Cell};
ghost use Rattle.sheet.specs.Grid.{AreMarked as MarksTell, origin_of};
ghost use Rattle.xterm_page.specs.Parts.{AreDistinct, AreLines, no_line, renewed, told, told_lines};

use crate::kept::Renewal;
use xterm_screen::Screen;

/// Where the lines end, from one on, whose rows came up by as many lines, as the sheet tells, from among so many first rows.
pub(crate) fn distinct_end(screen: &Screen, from: u16, shift: usize, distinct: usize) -> u16
    requires low { 1 ≤ from }
    requires high { from ≤ screen.now.picture.lines + 1 }
    ensures low { from ≤ result }
    ensures high { result ≤ screen.now.picture.lines + 1 }
    ensures within { from < result → result + shift ≤ screen.now.picture.lines + 1 }
    ensures come { (k : ℕ) → from ≤ k → k < result
        → (origin_of screen.now.origins k ≡ k + shift) × (k + shift ≤ distinct) }
{
    // Behind this line none can have come from these.
    let last = distinct.min(screen.lines() as usize).saturating_sub(shift);
    let mut end = from;
    while end as usize <= last && screen.origin(end) as usize == end as usize + shift {
        end += 1;
    }
    end
}

/// Of how many of the first rows it is known once these lines have changed: of those that came up together from the first
/// line on, and of the next one if no line was its row. One line that no line was changes nothing of that.
pub(crate) fn distinct_after(changed: &[Renewal], distinct: usize) -> usize
    ensures { (origins : List ℕ) (lines : ℕ) (before after : List (List Cell))
        → MarksTell before origins after → length before ≡ lines → length after ≡ lines
        → AreLines lines changed.now
        → flat_map told changed.now ≡ renewed origins lines before after
        → AreDistinct before distinct → AreDistinct after result }
{
    if changed.is_empty() {
        return distinct;
    }
    match changed[0] {
        Renewal::Moved(block) => {
            if block.from != 1 {
                return 0;
            }
            let end = block.end as usize;
            if is_new(changed, 1, block.end) {
                end
            } else {
                end.saturating_sub(1)
            }
        }
        Renewal::Line(line, _) => {
            if changed.len() == 1 && is_new(changed, 0, line) {
                distinct
            } else {
                0
            }
        }
    }
}

/// Whether what is told at a place is that a line is a row that no line was.
fn is_new(changed: &[Renewal], place: usize, line: u16) -> bool
    ensures within { result ≡ true → place < length changed.now }
    ensures told { result ≡ true → told (slice_index_or changed.now place no_line) ≡ (line, None) ∷ [] }
    ensures lines { result ≡ true → told_lines (slice_index_or changed.now place no_line) ≡ line ∷ [] }
{
    if changed.len() <= place {
        return false;
    }
    match changed[place] {
        Renewal::Line(other, renewed) => other == line && renewed.was.is_none(),
        Renewal::Moved(_) => false,
    }
}
