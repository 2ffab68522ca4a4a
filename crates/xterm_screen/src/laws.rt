//! Laws of the definitions that contracts cite, for the proofs of the crates above. Nothing runs.

ghost use Rattle.std.specs.Prelude.{◌≡◌, ℕ, ◌≤◌, ◌++◌, [], ◌∷◌, Bool, false, true, List};
ghost use Rattle.sheet.specs.declared.rendition.Colour.{Colour};
ghost use Rattle.sheet.specs.declared.rendition.Rendition.{Rendition};
ghost use Rattle.xterm_screen.specs.CellEdits.{cells_deleted, cells_inserted};
ghost use Rattle.xterm_screen.specs.Erasures.{cells_erased, display_erased, line_erased};
ghost use Rattle.xterm_screen.specs.Margins.{aligned, margins_set};
ghost use Rattle.xterm_screen.specs.Moves.{lowered, moved_home, moved_to_left, on_column, placed, placed_on_line, put_back, stepped_down, stepped_left, stepped_right, stepped_up, wrap_cleared};
ghost use Rattle.xterm_screen.specs.Picture.{GoesIntoRegion, IsInRegion, KeepsInRegion, KeepsSound, Picture, Sound, reset};
ghost use Rattle.xterm_screen.specs.Puts.{mark_joined, run_shown, shown};
ghost use Rattle.xterm_screen.specs.Scrolls.{indexed, lines_deleted, lines_inserted, region_lowered, region_raised, reverse_indexed};
ghost use Rattle.xterm_screen.specs.Sheets.{alternate_shown, main_shown};
ghost use Rattle.xterm_screen.specs.Tabs.{tab_made, tabbed, tabbed_back, tabbed_on, tabs_cleared};

use crate::screen::Screen;
use sheet::limits::{LEAST_COLUMNS, MOST_COLUMNS, MOST_LINES};

/// The initial picture of a size is sound, with its cursor inside the margins.
pub fn reset_is_sound()
    ensures sound { (columns lines : ℕ) → LEAST_COLUMNS ≤ columns → columns ≤ MOST_COLUMNS
        → 1 ≤ lines → lines ≤ MOST_LINES → Sound (reset columns lines) }
    ensures inside { (columns lines : ℕ) → 1 ≤ lines → IsInRegion (reset columns lines) }
{}

/// Moves keep a picture sound.
pub fn moves_keep_sound()
    ensures up { (n : ℕ) → KeepsSound (stepped_up n) }
    ensures down { (n : ℕ) → KeepsSound (stepped_down n) }
    ensures lower { (n : ℕ) (origin : Bool) → KeepsSound (lowered n origin) }
    ensures right { (n : ℕ) → KeepsSound (stepped_right n) }
    ensures left { (n : ℕ) → KeepsSound (stepped_left n) }
    ensures to_left { KeepsSound moved_to_left }
    ensures column { (column : ℕ) → 1 ≤ column → KeepsSound (on_column column) }
    ensures line { (line : ℕ) (origin : Bool) → 1 ≤ line
        → KeepsSound (placed_on_line line origin) }
    ensures place { (line column : ℕ) (origin : Bool) → 1 ≤ line → 1 ≤ column
        → KeepsSound (placed line column origin) }
    ensures home { (origin : Bool) → KeepsSound (moved_home origin) }
    ensures clear_wrap { KeepsSound wrap_cleared }
    ensures put_back { (line column : ℕ) (wrap origin autowrap : Bool) (p : Picture) → 1 ≤ line
        → line ≤ p.lines → 1 ≤ column → Sound p
        → Sound (put_back line column wrap origin autowrap p) }
{}

/// What shows characters and scrolls keeps a picture sound.
pub fn shows_keep_sound()
    ensures show { (character : ℕ) (wide : Bool) (rendition : Rendition) (autowrap inserting : Bool)
        → KeepsSound (shown character wide rendition autowrap inserting) }
    ensures run { (characters : List ℕ) (rendition : Rendition) (autowrap inserting : Bool)
        → KeepsSound (run_shown characters rendition autowrap inserting) }
    ensures mark { (mark : ℕ) → KeepsSound (mark_joined mark) }
    ensures index { (paper : Colour) → KeepsSound (indexed paper) }
    ensures reverse_index { (paper : Colour) → KeepsSound (reverse_indexed paper) }
    ensures scroll_up { (n : ℕ) (paper : Colour) → KeepsSound (region_raised n paper) }
    ensures scroll_down { (n : ℕ) (paper : Colour) → KeepsSound (region_lowered n paper) }
    ensures insert_lines { (n : ℕ) (paper : Colour) → KeepsSound (lines_inserted n paper) }
    ensures delete_lines { (n : ℕ) (paper : Colour) → KeepsSound (lines_deleted n paper) }
{}

/// What erases, edits and sets keeps a picture sound.
pub fn changes_keep_sound()
    ensures erase_display { (part : ℕ) (paper : Colour) → KeepsSound (display_erased part paper) }
    ensures erase_line { (part : ℕ) (paper : Colour) → KeepsSound (line_erased part paper) }
    ensures erase_cells { (n : ℕ) (paper : Colour) → KeepsSound (cells_erased n paper) }
    ensures insert_cells { (n : ℕ) (paper : Colour) → KeepsSound (cells_inserted n paper) }
    ensures delete_cells { (n : ℕ) (paper : Colour) → KeepsSound (cells_deleted n paper) }
    ensures align { KeepsSound aligned }
    ensures margins { (top bottom : ℕ) (origin : Bool)
        → KeepsSound (margins_set top bottom origin) }
    ensures alternate { (paper : Colour) → KeepsSound (alternate_shown paper) }
    ensures main { KeepsSound main_shown }
    ensures tab { KeepsSound tabbed }
    ensures tab_on { (n : ℕ) → KeepsSound (tabbed_on n) }
    ensures tab_back { (n : ℕ) → KeepsSound (tabbed_back n) }
    ensures set_tab { (stops : Bool) → KeepsSound (tab_made stops) }
    ensures clear_tabs { KeepsSound tabs_cleared }
{}

/// Where lines are counted from the top margin, the cursor goes inside the margins.
pub fn origin_goes_inside()
    ensures line { (line : ℕ) → GoesIntoRegion (placed_on_line line true) }
    ensures place { (line column : ℕ) → GoesIntoRegion (placed line column true) }
    ensures home { GoesIntoRegion (moved_home true) }
    ensures put_back { (line column : ℕ) (wrap autowrap : Bool)
        → GoesIntoRegion (put_back line column wrap true autowrap) }
    ensures align { GoesIntoRegion aligned }
    ensures margins { (top bottom : ℕ) → KeepsInRegion (margins_set top bottom true) }
{}

/// Each other operation leaves a cursor that is inside the margins there.
pub fn cursors_stay_inside()
    ensures up { (n : ℕ) → KeepsInRegion (stepped_up n) }
    ensures down { (n : ℕ) → KeepsInRegion (stepped_down n) }
    ensures lower { (n : ℕ) → KeepsInRegion (lowered n true) }
    ensures right { (n : ℕ) → KeepsInRegion (stepped_right n) }
    ensures left { (n : ℕ) → KeepsInRegion (stepped_left n) }
    ensures to_left { KeepsInRegion moved_to_left }
    ensures column { (column : ℕ) → KeepsInRegion (on_column column) }
    ensures clear_wrap { KeepsInRegion wrap_cleared }
    ensures tab { KeepsInRegion tabbed }
    ensures tab_on { (n : ℕ) → KeepsInRegion (tabbed_on n) }
    ensures tab_back { (n : ℕ) → KeepsInRegion (tabbed_back n) }
    ensures set_tab { (stops : Bool) → KeepsInRegion (tab_made stops) }
    ensures clear_tabs { KeepsInRegion tabs_cleared }
{}

/// The same of what writes cells and moves rows.
pub fn writes_stay_inside()
    ensures show { (character : ℕ) (wide : Bool) (rendition : Rendition) (autowrap inserting : Bool)
        → KeepsInRegion (shown character wide rendition autowrap inserting) }
    ensures run { (characters : List ℕ) (rendition : Rendition) (autowrap inserting : Bool)
        → KeepsInRegion (run_shown characters rendition autowrap inserting) }
    ensures mark { (mark : ℕ) → KeepsInRegion (mark_joined mark) }
    ensures index { (paper : Colour) → KeepsInRegion (indexed paper) }
    ensures reverse_index { (paper : Colour) → KeepsInRegion (reverse_indexed paper) }
    ensures scroll_up { (n : ℕ) (paper : Colour) → KeepsInRegion (region_raised n paper) }
    ensures scroll_down { (n : ℕ) (paper : Colour) → KeepsInRegion (region_lowered n paper) }
    ensures insert_lines { (n : ℕ) (paper : Colour) → KeepsInRegion (lines_inserted n paper) }
    ensures delete_lines { (n : ℕ) (paper : Colour) → KeepsInRegion (lines_deleted n paper) }
    ensures erase_display { (part : ℕ) (paper : Colour)
        → KeepsInRegion (display_erased part paper) }
    ensures erase_line { (part : ℕ) (paper : Colour) → KeepsInRegion (line_erased part paper) }
    ensures erase_cells { (n : ℕ) (paper : Colour) → KeepsInRegion (cells_erased n paper) }
    ensures insert_cells { (n : ℕ) (paper : Colour) → KeepsInRegion (cells_inserted n paper) }
    ensures delete_cells { (n : ℕ) (paper : Colour) → KeepsInRegion (cells_deleted n paper) }
    ensures alternate { (paper : Colour) → KeepsInRegion (alternate_shown paper) }
    ensures main { KeepsInRegion main_shown }
{}

/// A run of one character is its show, and a joined run is its parts one after another.
pub fn runs()
    ensures one { (character : ℕ) (rendition : Rendition) (autowrap inserting : Bool) (p : Picture)
        → run_shown (character ∷ []) rendition autowrap inserting p
        ≡ shown character false rendition autowrap inserting p }
    ensures joined { (xs ys : List ℕ) (rendition : Rendition) (autowrap inserting : Bool)
        (p : Picture) → run_shown (xs ++ ys) rendition autowrap inserting p
        ≡ run_shown ys rendition autowrap inserting (run_shown xs rendition autowrap inserting p) }
{}

/// Every screen is sound: its size within the limits, the cursor on the sheet, the margins in order.
pub fn screens_are_sound(screen: &Screen)
    ensures { Sound screen.now.picture }
{
    let _ = screen.cursor();
}
