//! Rows of which something is said together.

ghost use Rattle.std.specs.Prelude.{◌≡◌, ◌+◌, ◌<◌, ◌≤◌, nat_le};
ghost use Rattle.standings.specs.Spans.{joined, widened};

/// The rows from one up to and without another, by how many are above them.
#[derive(Clone, Copy, Debug)]
pub struct Span {
    pub from: usize,
    pub to: usize,
}

impl Span {
    /// No rows.
    pub fn none() -> Self
        ensures { result ≡ record { from = 0; to = 0 } }
    {
        Span { from: 0, to: 0 }
    }

    /// Whether it has no rows.
    pub fn is_none(self) -> bool
        ensures { result ≡ nat_le self.to self.from }
    {
        self.to <= self.from
    }

    /// These rows, the one below so many others, and those between.
    #[tactic(auto, unfolding(crate::specs::Spans::widened))]
    pub fn widened(self, above: usize) -> Self
        requires { above < usize.MAX }
        ensures { result ≡ widened self above }
    {
        if self.is_none() {
            return Span {
                from: above,
                to: above + 1,
            };
        }
        Span {
            from: self.from.min(above),
            to: self.to.max(above + 1),
        }
    }

    /// These rows, those of another span, and those between.
    #[tactic(auto, unfolding(crate::specs::Spans::joined))]
    pub fn joined(self, other: Span) -> Self
        ensures { result ≡ joined self other }
    {
        if self.is_none() {
            return other;
        }
        if other.is_none() {
            return self;
        }
        Span {
            from: self.from.min(other.from),
            to: self.to.max(other.to),
        }
    }
}
