//! A piece of a chunk of which it is foretold what it does.

ghost use Rattle.std.specs.Prelude.{◌≡◌, ◌≢◌, [], false, true, List, ℕ, length, IfOk, OnOk};
ghost use Rattle.standings.specs.Lag.{Lags};
ghost use Rattle.standings.specs.Rows.{Row};
ghost use Rattle.standings.specs.Spans.{Stays};
ghost use Rattle.standings.specs.Standing.{standing};
ghost use Rattle.text_find.specs.Calm.{IsPiece, NonePass};
ghost use Rattle.text_find.specs.Foretold.{HasRoom, IsForetold, IsNarrow, IsWithin, KeepsIn, foretold_rows, taken_by};
ghost use Rattle.text_find.specs.Lines.{AreBetween, IsLagging, IsStill, IsTrailing};
ghost use Rattle.text_find.specs.Pieces.{AreQuiet};

use crate::ahead::play;
use crate::behind::{Steps, trail};
use crate::finder::Finder;
use crate::lines::none_passes;
use crate::sides::Sides;
use arrayvec::ArrayVec;
use plays::{OutOfMemory, Plays};
use standings::{Lag, Span, Standing, stays_moved};
use std::alloc::Global;

/// How many characters are written at once at most.
pub const LETTERS: usize = 160;

/// Letters that are written one behind the other.
pub type LetterRun = ArrayVec<char, LETTERS>;

/// Where bytes write letters over as many characters of a row: how many rows are above it, how many characters before them
/// in it, and how many bytes write them: these may hold sequences that show nothing. The letters stand apart.
#[derive(Clone, Copy, Debug)]
pub struct Written {
    pub above: usize,
    pub before: usize,
    pub taken: usize,
}

/// Rows that move up or down by one: from the one below so many up to and without the one below so many others; a row of
/// so many spaces comes in; and how many bytes that takes, of which none but the last shows anything.
#[derive(Clone, Copy, Debug)]
pub struct Region {
    pub from: usize,
    pub to: usize,
    pub columns: usize,
    pub down: bool,
    pub taken: usize,
}

/// What bytes surely do to the rows of a terminal.
#[derive(Clone, Copy, Debug)]
pub enum Foretold {
    /// The first byte moves all rows up by one, and a row of so many spaces comes in below.
    MovesUp(usize),
    /// Rows between two margins move up or down by one.
    MovesWithin(Region),
    /// Letters are written over characters.
    Writes(Written),
    /// The first byte writes a letter over a character, whatever of the text goes at it.
    Types(Written),
}

impl Foretold {
    /// How many bytes it is foretold of.
    pub(crate) fn taken(self) -> usize
        ensures { result ≡ taken_by self }
    {
        match self {
            Foretold::MovesUp(_) => 1,
            Foretold::MovesWithin(region) => region.taken,
            Foretold::Writes(written) => written.taken,
            Foretold::Types(_) => 1,
        }
    }

    /// Whether surely nothing of the text passes at them, where it stands so before: else no row changes before the last of
    /// them, and the text stands somewhere.
    fn is_calm(self, still: &Standing) -> bool
        ensures calm { result ≡ true → (text : List ℕ) (screen : List ℕ → List Row) (before bytes : List ℕ)
            → still.now.rows.items ≡ screen before
            → still.now.places.items ≡ standing text (screen before)
            → (letters : List ℕ) → IsForetold text screen before bytes self letters
            → (first : List Row) → NonePass text first screen before bytes (taken_by self) }
        ensures quiet { result ≡ false → (text : List ℕ) (screen : List ℕ → List Row) (before bytes : List ℕ)
            → KeepsIn text screen before bytes self
            → AreQuiet text screen before bytes (taken_by self) }
        ensures stands { result ≡ false → still.now.places.items ≢ [] }
    {
        match self {
            Foretold::MovesUp(_) => stays_moved(still),
            Foretold::MovesWithin(_) => still.places.is_empty(),
            Foretold::Writes(_) => true,
            Foretold::Types(_) => still.places.is_empty(),
        }
    }

    /// How rows lag behind those that are foretold, where they lag so behind so many rows; a span tells which of these may
    /// differ.
    fn lagging(self, lag: Lag, count: usize, span: Span) -> Lag
        ensures { (one other later : List Row) (letters : List ℕ) → length other ≡ count → Lags lag one other
            → (HasRoom self letters other → later ≡ foretold_rows self letters other) → Stays span other later
            → Lags result one later }
    {
        match self {
            Foretold::MovesUp(_) if count > 0 => lag.raised(count),
            _ => lag.widened(span),
        }
    }
}

/// Plays the first of the bytes, of which it is foretold what they do. Says how many were played, and whether surely
/// nothing of the text passes at them.
pub(crate) fn play_foretold<T: Plays, F: Finder<T>>(
    alloc: Global,
    text: &[char],
    bytes: &[u8],
    foretold: Foretold,
    letters: &[char],
    ends: &mut Sides,
    steps: &mut Steps,
    ahead: &mut T,
) -> Result<(usize, bool), OutOfMemory>
    requires within { IsWithin foretold (length bytes.now) }
    requires foretold { (profile : T.Profile) (before : List ℕ) → T.shows profile ahead.old before
        → ends.old.after.rows.items ≡ F.screens profile before
        → ends.old.after.places.items ≡ standing text.now (F.screens profile before)
        → IsForetold text.now (F.screens profile) before bytes.now foretold letters.now }
    ensures count { steps.new.count ≡ steps.old.count }
    ensures piece { IfOk result (λ played. IsPiece T.shows F.screens text.now bytes.now
        ends.old ends.new steps.old steps.new ahead.old ahead.new played.0 played.1) }
{
    let surely = foretold.is_calm(&ends.after);
    trail_unless(surely, steps, ends)?;
    let since = ends.lag;
    let taken = foretold.taken();
    play(alloc, ahead, &bytes[..taken])?;
    change(foretold, letters, text, ends, steps)?;
    if surely {
        return Ok((taken, true));
    }
    let calm = none_passes(
        &ends.before,
        since,
        &steps.sides.before,
        &ends.after,
        steps.lag,
        text.len(),
    );
    Ok((taken, calm))
}

/// What stood before becomes what stands before what is foretold, unless surely nothing of the text passes at that.
fn trail_unless(calm: bool, steps: &mut Steps, ends: &Sides) -> Result<(), OutOfMemory>
    ensures count { steps.new.count ≡ steps.old.count }
    ensures lags { IsLagging ends.now steps.old → OnOk result (IsLagging ends.now steps.new) }
    ensures trails { (text : List ℕ) (screen : List Row) → IsStill text screen ends.now.after
        → IsTrailing text ends.now steps.old → OnOk result (IsTrailing text ends.now steps.new) }
    ensures stood { calm ≡ false → (text : List ℕ) (screen : List Row) → IsStill text screen ends.now.after
        → IsTrailing text ends.now steps.old → OnOk result (IsStill text screen steps.new.sides.before) }
{
    if calm {
        return Ok(());
    }
    trail(steps, ends)
}

/// What stands after is what stands behind what is foretold, and what lags behind it lags so much more.
fn change(
    foretold: Foretold,
    letters: &[char],
    text: &[char],
    ends: &mut Sides,
    steps: &mut Steps,
) -> Result<(), OutOfMemory>
    requires { IsNarrow foretold }
    ensures count { steps.new.count ≡ steps.old.count }
    ensures before { ends.new.before ≡ ends.old.before }
    ensures sides { steps.new.sides ≡ steps.old.sides }
    ensures lags { IsLagging ends.old steps.old → OnOk result (IsLagging ends.new steps.new) }
    ensures between { (first before after : List Row) → HasRoom foretold letters.now before
        → after ≡ foretold_rows foretold letters.now before
        → AreBetween text.now first before ends.old
        → OnOk result (AreBetween text.now first after ends.new) }
{
    let lag = steps.lag;
    steps.lag = foresee_side(foretold, letters, text, ends, lag)?;
    Ok(())
}

/// The same of a screen alone. Says how rows lag behind it then that lagged so behind it before.
pub(crate) fn foresee_side(
    foretold: Foretold,
    letters: &[char],
    text: &[char],
    sides: &mut Sides,
    lag: Lag,
) -> Result<Lag, OutOfMemory>
    requires { IsNarrow foretold }
    ensures before { sides.new.before ≡ sides.old.before }
    ensures lags { (rows : List Row) → Lags lag rows sides.old.after.rows.items
        → IfOk result (λ later. Lags later rows sides.new.after.rows.items) }
    ensures between { (first before after : List Row) → HasRoom foretold letters.now before
        → after ≡ foretold_rows foretold letters.now before
        → AreBetween text.now first before sides.old
        → OnOk result (AreBetween text.now first after sides.new) }
{
    let count = sides.after.rows.len();
    let span = foresee(&mut sides.after, foretold, letters, text)?;
    sides.lag = foretold.lagging(sides.lag, count, span);
    Ok(foretold.lagging(lag, count, span))
}

/// Rows become those that are foretold; looks where the text stands then. Says which rows may differ.
fn foresee(
    still: &mut Standing,
    foretold: Foretold,
    letters: &[char],
    text: &[char],
) -> Result<Span, OutOfMemory>
    requires { IsNarrow foretold }
    ensures rows { HasRoom foretold letters.now still.old.rows.items
        → OnOk result (still.new.rows.items ≡ foretold_rows foretold letters.now still.old.rows.items) }
    ensures places { HasRoom foretold letters.now still.old.rows.items
        → still.old.places.items ≡ standing text.now still.old.rows.items
        → OnOk result (still.new.places.items ≡ standing text.now still.new.rows.items) }
    ensures others { IfOk result (λ span. Stays span still.old.rows.items still.new.rows.items) }
{
    match foretold {
        Foretold::MovesUp(columns) => Ok(still.move_up(columns, text)?),
        Foretold::MovesWithin(region) => {
            let columns = region.columns;
            Ok(still.move_within(region.from, region.to, columns, region.down, text)?)
        }
        Foretold::Writes(written) | Foretold::Types(written) => {
            Ok(still.write(written.above, written.before, letters, text)?)
        }
    }
}
