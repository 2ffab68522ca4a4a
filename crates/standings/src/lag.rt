//! Rows that lag behind others.

ghost use Rattle.std.specs.Prelude.{◌≡◌, ◌+◌, ◌-◌, ◌<◌, ◌≤◌, true, List, ℕ, length};
ghost use Rattle.standings.specs.Lag.{Lags};
ghost use Rattle.standings.specs.Moved.{moved_up, turned};
ghost use Rattle.standings.specs.Rows.{Row, row_below};
ghost use Rattle.standings.specs.Spans.{Stays, span_of};

use crate::span::Span;

/// How rows lag behind others: so many of the first ones came behind the others since, and then those of a span may
/// differ.
#[derive(Clone, Copy, Debug)]
pub struct Lag {
    pub moved: usize,
    pub span: Span,
}

impl Lag {
    /// None: the rows are the same.
    pub fn none() -> Self
        ensures { (rows : List Row) → Lags result rows rows }
    {
        Lag::of(Span::none())
    }

    /// By these rows.
    pub fn of(span: Span) -> Self
        ensures { (one other : List Row) → Stays span one other → Lags result one other }
    {
        Lag { moved: 0, span }
    }

    /// Whether the rows are surely the same.
    pub fn is_none(self) -> bool
        ensures { result ≡ true → (one other : List Row) → Lags self one other → one ≡ other }
    {
        self.moved == 0 && self.span.is_none()
    }

    /// Whether a row is surely that of the others: the one below so many of so many rows, and the one below so many others.
    pub(crate) fn keeps(self, here: usize, there: usize, rows: usize) -> bool
        ensures { result ≡ true → (one other : List Row) → length one ≡ rows → Lags self one other
            → row_below other there ≡ row_below one here }
    {
        is_behind(here, self.moved, there, rows) && self.stays(there)
    }

    /// Whether the row below so many others is none of the span.
    fn stays(self, there: usize) -> bool
        ensures { result ≡ true → (one other : List Row) → Stays self.span one other
            → row_below other there ≡ row_below one there }
    {
        there < self.span.from || self.span.to <= there
    }

    /// How many rows come before those in which nothing is looked for that pairs off with the other row below so many.
    pub(crate) fn search_end(self, there: usize) -> usize {
        let end = if self.stays(there) {
            there.saturating_add(1)
        } else {
            self.span.to
        };
        end.saturating_add(self.moved)
    }

    /// And by these rows, which differ later.
    pub fn widened(self, span: Span) -> Self
        ensures { (one other later : List Row) → Lags self one other → Stays span other later
            → Lags result one later }
    {
        Lag {
            moved: self.moved,
            span: self.span.joined(span),
        }
    }

    /// And by one move up of all of so many rows.
    pub fn raised(self, count: usize) -> Self
        ensures { (columns : ℕ) (one other : List Row) → 0 < count → length other ≡ count → Lags self one other
            → Lags result one (moved_up columns other) }
    {
        let last = count.saturating_sub(1);
        if self.moved >= last {
            return Lag::of(all(count));
        }
        Lag {
            moved: self.moved + 1,
            span: raised(self.span, last),
        }
    }

    /// The rows that may differ of two that lag behind the same so many rows.
    pub fn between(self, other: Lag, count: usize) -> Span
        ensures { (one two three : List Row) → length three ≡ count → Lags self one three → Lags other two three
            → Stays result one two }
    {
        joined(self, other, count)
    }

    /// The rows that may differ of two that so many rows lag behind.
    pub fn apart(self, other: Lag, count: usize) -> Span
        ensures { (one two three : List Row) → length one ≡ count → Lags self one two → Lags other one three
            → Stays result two three }
    {
        joined(self, other, count)
    }

    /// The rows that may differ, of so many.
    pub fn reach(self, count: usize) -> Span
        ensures { (one other : List Row) → length other ≡ count → Lags self one other → Stays result one other }
    {
        if self.moved > 0 {
            return all(count);
        }
        self.span
    }
}

/// Whether so many rows, which are less than these in all, are those of others and so many more.
fn is_behind(here: usize, moved: usize, there: usize, rows: usize) -> bool
    ensures { result ≡ true → (moved ≤ here) × (here - moved ≡ there) × (here < rows) }
{
    moved <= here && here - moved == there && here < rows
}

/// All of so many rows.
fn all(count: usize) -> Span
    ensures { result ≡ span_of 0 count }
{
    Span { from: 0, to: count }
}

/// Those of a span a row further up, and the last one, behind so many.
fn raised(span: Span, last: usize) -> Span
    requires { last < usize.MAX }
    ensures { (columns : ℕ) (one other : List Row) → length other ≡ last + 1 → Stays span one other
        → Stays result (turned 1 one) (moved_up columns other) }
{
    let to = last + 1;
    if span.is_none() {
        return Span { from: last, to };
    }
    Span {
        from: span.from.saturating_sub(1).min(last),
        to,
    }
}

/// The rows of two lags, where none of either moved; else all of so many.
fn joined(one: Lag, other: Lag, count: usize) -> Span
    ensures behind { (first second last : List Row) → length last ≡ count → Lags one first last
        → Lags other second last → Stays result first second }
    ensures before { (first second last : List Row) → length first ≡ count → Lags one first second
        → Lags other first last → Stays result second last }
{
    if one.moved > 0 || other.moved > 0 {
        return all(count);
    }
    one.span.joined(other.span)
}
