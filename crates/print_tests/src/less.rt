//! What is less on one small screen than on another, told by the rows that stand alone, and place by place.

ghost use Rattle.std.specs.Prelude.{◌<◌};

use standings::{Alone, Lag, Less, Passed, Row, Span, Standing, is_less, is_lone, may_pass};
use std::alloc::{AllocError, Global};
use std::process::Abort;
use std::rt::Runtime;
use std::test::Fail;

/// How many times three screens are compared.
const TIMES: usize = 3000;

/// Texts that are looked for.
const TEXTS: [&[char]; 5] = [&['a'], &['a', 'b'], &['b', 'a'], &['a', 'a'], &['a', ' ']];

/// Numbers that look like chance, the same each time (Knuth, volume 2, section 3.2.1).
#[derive(Clone, Copy, Debug)]
struct Random {
    state: u64,
}

impl Random {
    fn below(&mut self, end: usize) -> usize
        requires { 0 < end }
        ensures { result < end }
    {
        let product = self.state.wrapping_mul(6364136223846793005);
        self.state = product.wrapping_add(1442695040888963407);
        ((self.state >> 33) % end as u64) as usize
    }

    /// A row of up to 20 characters, which now and then runs on.
    fn row(&mut self, alloc: Global) -> Result<Row, AllocError> {
        let count = if self.below(4) == 0 {
            20
        } else {
            self.below(6)
        };
        let runs_on = self.below(3) == 0;
        let mut row = Row::with_room(alloc, count, runs_on)?;
        for column in 1..=count {
            let character = ['a', 'b', ' ', 'a'][self.below(4)];
            row.push(character, column as u16)?;
        }
        Ok(row)
    }

    /// Some rows: most of them are those of others, which moved up or down, or were taken twice.
    fn rows(&mut self, alloc: Global, others: &[Row]) -> Result<Vec<Row>, AllocError> {
        let mut rows = Vec::new(alloc);
        let moved = self.below(3);
        for above in 0..self.below(6) {
            let from = (above + moved).saturating_sub(1);
            let mut row = self.row(alloc)?;
            if from < others.len() && self.below(4) > 0 {
                row.copy_from(&others[from])?;
            }
            rows.push(row)?;
        }
        Ok(rows)
    }
}

/// How the rows of a screen lag behind those of another, of which so many of the first came behind the others: of screens of
/// other heights nothing is known.
fn lag_of(one: &Standing, other: &Standing, moved: usize) -> Lag {
    let count = one.rows.len();
    if other.rows.len() != count || count <= moved {
        return Lag {
            moved: usize::MAX,
            span: Span {
                from: 0,
                to: usize::MAX,
            },
        };
    }
    let mut span = Span::none();
    for above in 0..count {
        let row = &one.rows[(above + moved) % count];
        let came = &other.rows[above];
        if row.characters() != came.characters() || row.runs_on() != came.runs_on() {
            span = span.widened(above);
        }
    }
    Lag { moved, span }
}

/// Whether what is told of all places at once is what is told place by place. Counts the places that are less.
fn is_as_told(
    alloc: Global,
    first: &Standing,
    one: &Standing,
    other: &Standing,
    lag: Lag,
    len: usize,
    found: &mut usize,
) -> bool {
    let Ok(alone) = Alone::of(alloc, one, other, lag, len) else {
        return false;
    };
    let less = Less::of(alloc, one, other, &alone);
    let passed = Passed::of(alloc, first, other, one, other, &alone);
    let mut passes = false;
    let mut some = false;
    for at in 0..one.places.len() {
        let is = is_less(one, at, other);
        if less.has(one, at, other) != is {
            return false;
        }
        let stood = !is_lone(first, one, at) || !is_lone(other, one, at);
        if passed.has(first, other, one, at, other) != (is && !stood) {
            return false;
        }
        *found = found.saturating_add(usize::from(is));
        some |= is;
        passes |= is && is_lone(first, one, at);
    }
    may_pass(first, one, other, &alone) == passes && !(some && alone.keeps_all(one, other))
}

#[test]
fn places_that_are_less(rt: HostRuntime) -> Result<(), Fail> {
    let mut random = Random { state: 27 };
    let mut found = 0;
    for turn in 0..TIMES {
        let text = TEXTS[turn % TEXTS.len()];
        let rows = random.rows(rt.alloc(), &[])?;
        let first = Standing::of(rt.alloc(), rows, text)?;
        let rows = random.rows(rt.alloc(), first.rows.as_slice())?;
        let one = Standing::of(rt.alloc(), rows, text)?;
        let rows = random.rows(rt.alloc(), one.rows.as_slice())?;
        let other = Standing::of(rt.alloc(), rows, text)?;
        assert!(rt;
            is_as_told(
                rt.alloc(),
                &first,
                &one,
                &other,
                lag_of(&one, &other, turn % 3),
                text.len(),
                &mut found
            ),
            "{turn}"
        );
        assert!(rt;
            is_as_told(
                rt.alloc(),
                &first,
                &other,
                &one,
                lag_of(&other, &one, turn % 3),
                text.len(),
                &mut found
            ),
            "{turn}"
        );
    }
    assert!(rt; found > TIMES, "{found} were less");
    Ok(())
}
