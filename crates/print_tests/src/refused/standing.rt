//! Refused growths in where a text stands on rows.

use standings::{Alone, Lag, Less, Passed, Place, Row, Span, Standing, may_pass};
use std::alloc::{AllocError, Global};
use std::process::Abort;
use std::rt::Runtime;
use std::test::Fail;

/// The characters of a row, in columns from 1 on, and whether it runs on.
type Line = (&'static str, bool);

/// How many characters each row of a large screen has, and how many rows it has: one on which a text of one character has
/// more places than there is room kept for.
const COLUMNS: usize = 600;

const ROWS: usize = 3;

/// A call on rows of so many columns.
#[derive(Clone, Copy, Debug)]
enum Call {
    LookAgain(Span),
    MoveUp(u16),
    MoveWithin(Span, u16, bool),
    Write(usize, usize, &'static [char]),
}

impl Call {
    fn name(self) -> &'static str {
        match self {
            Call::LookAgain(_) => "look_again",
            Call::MoveUp(_) => "move_up",
            Call::MoveWithin(_, _, false) => "move_within up",
            Call::MoveWithin(_, _, true) => "move_within down",
            Call::Write(_, _, _) => "write",
        }
    }

    fn make(self, still: &mut Standing, text: &[char]) -> Result<(), AllocError> {
        match self {
            Call::LookAgain(span) => still.look_again(text, span)?,
            Call::MoveUp(columns) => {
                still.move_up(usize::from(columns.min(1000)), text)?;
            }
            Call::MoveWithin(span, columns, down) => {
                let columns = usize::from(columns.min(1000));
                still.move_within(span.from, span.to, columns, down, text)?;
            }
            Call::Write(above, before, letters) => {
                still.write(above, before, letters, text)?;
            }
        }
        Ok(())
    }
}

fn row_of(alloc: Global, line: Line) -> Result<Row, AllocError> {
    let mut row = Row::with_room(alloc, line.0.len(), line.1)?;
    for (character, column) in line.0.chars().zip(1..100) {
        row.push(character, column)?;
    }
    Ok(row)
}

fn rows_of(alloc: Global, lines: &[Line]) -> Result<Vec<Row>, AllocError> {
    let mut rows = Vec::with_capacity(alloc, lines.len())?;
    for line in lines {
        rows.push(row_of(alloc, *line)?)?;
    }
    Ok(rows)
}

fn still_of(
    alloc: Global,
    lines: &[Line],
    places: &[(usize, usize)],
) -> Result<Standing, AllocError> {
    let rows = rows_of(alloc, lines)?;
    let mut stands = Vec::with_capacity(alloc, places.len())?;
    for (above, before) in places {
        stands.push(Place {
            above: *above,
            before: *before,
        })?;
    }
    Ok(Standing {
        rows,
        places: stands,
    })
}

/// A row; where memory is refused, once more.
fn row(rt: &impl Runtime<A = Global>, line: Line) -> Result<Row, Fail> {
    match row_of(rt.alloc(), line) {
        Ok(row) => Ok(row),
        Err(_) => {
            println!(rt; "refused: a row")?;
            Ok(row_of(rt.alloc(), line)?)
        }
    }
}

/// These rows, and these places as those where a text stands; where memory is refused, once more.
fn still(
    rt: &impl Runtime<A = Global>,
    lines: &[Line],
    places: &[(usize, usize)],
) -> Result<Standing, Fail> {
    match still_of(rt.alloc(), lines, places) {
        Ok(still) => Ok(still),
        Err(_) => {
            println!(rt; "refused: rows")?;
            Ok(still_of(rt.alloc(), lines, places)?)
        }
    }
}

fn is_same_row(one: &Row, other: &Row) -> bool {
    if one.characters() != other.characters() || one.runs_on() != other.runs_on() {
        return false;
    }
    for at in 0..one.count().max(other.count()) {
        if one.column(at) != other.column(at) {
            return false;
        }
    }
    one.count() == other.count()
}

fn is_same(one: &Standing, other: &Standing) -> bool {
    if one.rows.len() != other.rows.len() || one.places.as_slice() != other.places.as_slice() {
        return false;
    }
    for at in 0..one.rows.len().min(other.rows.len()) {
        if !is_same_row(&one.rows[at], &other.rows[at]) {
            return false;
        }
    }
    true
}

#[test]
fn a_run(rt: HostRuntime) -> Result<(), Fail> {
    let mut given = row(&rt, ("ab", true))?;
    if given.push_run(&['c', 'd', 'e'], &[3, 4, 5]).is_err() {
        println!(rt; "refused: push_run")?;
        assert!(rt; is_same_row(&given, &row(&rt, ("ab", true))?));
        given.push_run(&['c', 'd', 'e'], &[3, 4, 5])?;
    }
    assert!(rt; is_same_row(&given, &row(&rt, ("abcde", true))?));
    Ok(())
}

#[test]
fn many_of_a_character(rt: HostRuntime) -> Result<(), Fail> {
    let mut given = row(&rt, ("ab", true))?;
    if given.push_many('c', 3, 3).is_err() {
        println!(rt; "refused: push_many")?;
        assert!(rt; is_same_row(&given, &row(&rt, ("ab", true))?));
        given.push_many('c', 3, 3)?;
    }
    assert!(rt; is_same_row(&given, &row(&rt, ("abccc", true))?));
    Ok(())
}

#[test]
fn other_characters(rt: HostRuntime) -> Result<(), Fail> {
    let mut given = row(&rt, ("ab", true))?;
    if given.respell(&['x', 'y', 'z'], false).is_err() {
        println!(rt; "refused: respell")?;
        assert!(rt; is_same_row(&given, &row(&rt, ("ab", true))?));
        given.respell(&['x', 'y', 'z'], false)?;
    }
    assert!(rt; is_same_row(&given, &row(&rt, ("xyz", false))?));
    Ok(())
}

fn row_of_one(alloc: Global, character: char, runs_on: bool) -> Result<Row, AllocError> {
    let mut row = Row::with_room(alloc, COLUMNS, runs_on)?;
    row.push_many(character, COLUMNS, 1)?;
    Ok(row)
}

fn put_places(places: &mut Vec<Place>, above: usize) -> Result<(), AllocError> {
    for before in 0..COLUMNS {
        places.push(Place { above, before })?;
    }
    Ok(())
}

/// A large screen of one character but for a row of another one, whose first row may run on, and all places of that
/// character.
fn large_of(
    alloc: Global,
    character: char,
    odd: usize,
    other: char,
    runs_on: bool,
) -> Result<Standing, AllocError> {
    let mut rows = Vec::with_capacity(alloc, ROWS)?;
    let mut places = Vec::with_capacity(alloc, if odd < ROWS { ROWS - 1 } else { ROWS } * COLUMNS)?;
    for above in 0..ROWS {
        if above == odd {
            rows.push(row_of_one(alloc, other, runs_on && above == 0)?)?;
        } else {
            rows.push(row_of_one(alloc, character, runs_on && above == 0)?)?;
            put_places(&mut places, above)?;
        }
    }
    Ok(Standing { rows, places })
}

/// The same; where memory is refused, once more.
fn large(
    rt: &impl Runtime<A = Global>,
    character: char,
    odd: usize,
    other: char,
    runs_on: bool,
) -> Result<Standing, Fail> {
    match large_of(rt.alloc(), character, odd, other, runs_on) {
        Ok(still) => Ok(still),
        Err(_) => {
            println!(rt; "refused: large rows")?;
            Ok(large_of(rt.alloc(), character, odd, other, runs_on)?)
        }
    }
}

fn copied(alloc: Global, still: &Standing) -> Result<Standing, AllocError> {
    let mut rows = Vec::with_capacity(alloc, still.rows.len())?;
    for row in &still.rows {
        let mut copy = Row::with_room(alloc, row.count(), false)?;
        copy.copy_from(row)?;
        rows.push(copy)?;
    }
    Ok(Standing {
        rows,
        places: Vec::from_slice(alloc, still.places.as_slice())?,
    })
}

/// A copy; where memory is refused, once more.
fn copy(rt: &impl Runtime<A = Global>, still: &Standing) -> Result<Standing, Fail> {
    match copied(rt.alloc(), still) {
        Ok(copy) => Ok(copy),
        Err(_) => {
            println!(rt; "refused: a copy")?;
            Ok(copied(rt.alloc(), still)?)
        }
    }
}

/// Makes a call, which makes these rows and places; where memory is refused, all is as before, and so once more.
fn tried(
    rt: &(impl Runtime<A = Global> + Abort),
    still: &mut Standing,
    call: Call,
    text: &[char],
    wanted: &Standing,
) -> Result<(), Fail> {
    let name = call.name();
    let before = copy(rt, still)?;
    if call.make(still, text).is_err() {
        println!(rt; "refused: {name}")?;
        assert!(rt; is_same(still, &before), "{name} left something else");
        call.make(still, text)?;
    }
    assert!(rt; is_same(still, wanted), "{name} made something else");
    Ok(())
}

#[test]
fn rows_that_move_up(rt: HostRuntime) -> Result<(), Fail> {
    let mut given = still(&rt, &[("a", false), ("ab", false)], &[(1, 0)])?;
    let wanted = still(&rt, &[("ab", false), ("    ", false)], &[(0, 0)])?;
    tried(&rt, &mut given, Call::MoveUp(4), &['a', 'b'], &wanted)
}

#[test]
fn rows_that_move_up_and_spaces_that_stand(rt: HostRuntime) -> Result<(), Fail> {
    let mut given = still(&rt, &[("ab ", false), ("ab", true)], &[(0, 1)])?;
    let wanted = still(&rt, &[("ab", true), ("   ", false)], &[(0, 1)])?;
    tried(&rt, &mut given, Call::MoveUp(3), &['b', ' '], &wanted)
}

#[test]
fn many_places_of_rows_that_move_up(rt: HostRuntime) -> Result<(), Fail> {
    let mut given = large(&rt, ' ', 0, 'b', false)?;
    let wanted = large(&rt, ' ', ROWS, 'b', false)?;
    tried(&rt, &mut given, Call::MoveUp(600), &[' '], &wanted)
}

#[test]
fn rows_that_move_within(rt: HostRuntime) -> Result<(), Fail> {
    const LINES: &[Line] = &[("ab", false), ("cd", false), ("ab", false)];
    let mut given = still(&rt, LINES, &[(0, 0), (2, 0)])?;
    let up = still(
        &rt,
        &[("cd", false), ("    ", false), ("ab", false)],
        &[(2, 0)],
    )?;
    let call = Call::MoveWithin(Span { from: 0, to: 2 }, 4, false);
    tried(&rt, &mut given, call, &['a', 'b'], &up)?;
    let blank = ("    ", false);
    let down = still(&rt, &[("cd", false), blank, blank], &[])?;
    let call = Call::MoveWithin(Span { from: 1, to: 3 }, 4, true);
    tried(&rt, &mut given, call, &['a', 'b'], &down)
}

#[test]
fn many_places_of_rows_that_move_within(rt: HostRuntime) -> Result<(), Fail> {
    let mut up = large(&rt, ' ', 0, 'b', false)?;
    let mut down = large(&rt, ' ', 2, 'b', false)?;
    let wanted = large(&rt, ' ', ROWS, 'b', false)?;
    let call = Call::MoveWithin(Span { from: 0, to: 2 }, 600, false);
    tried(&rt, &mut up, call, &[' '], &wanted)?;
    let call = Call::MoveWithin(Span { from: 0, to: 3 }, 600, true);
    tried(&rt, &mut down, call, &[' '], &wanted)
}

#[test]
fn letters_that_are_written(rt: HostRuntime) -> Result<(), Fail> {
    let mut given = still(&rt, &[("xxxxxx", false), ("ab", false)], &[(1, 0)])?;
    let wanted = still(&rt, &[("xxabxx", false), ("ab", false)], &[(0, 2), (1, 0)])?;
    let call = Call::Write(0, 2, &['a', 'b']);
    tried(&rt, &mut given, call, &['a', 'b'], &wanted)
}

#[test]
fn letters_where_nothing_stands(rt: HostRuntime) -> Result<(), Fail> {
    let mut given = still(&rt, &[("xxxxxx", false)], &[])?;
    let wanted = still(&rt, &[("cdxxxx", false)], &[])?;
    tried(
        &rt,
        &mut given,
        Call::Write(0, 0, &['c', 'd']),
        &['a', 'b'],
        &wanted,
    )?;
    let wanted = still(&rt, &[("cdxabx", false)], &[(0, 3)])?;
    tried(
        &rt,
        &mut given,
        Call::Write(0, 3, &['a', 'b']),
        &['a', 'b'],
        &wanted,
    )
}

#[test]
fn letters_below_a_row_that_runs_on(rt: HostRuntime) -> Result<(), Fail> {
    let mut given = still(&rt, &[("xxa", true), ("xx", false)], &[])?;
    let wanted = still(&rt, &[("xxa", true), ("bx", false)], &[(0, 2)])?;
    tried(
        &rt,
        &mut given,
        Call::Write(1, 0, &['b']),
        &['a', 'b'],
        &wanted,
    )
}

#[test]
fn many_places_below_a_row_that_runs_on(rt: HostRuntime) -> Result<(), Fail> {
    let mut given = large(&rt, 'a', 1, 'b', true)?;
    let wanted = large(&rt, 'a', ROWS, 'b', true)?;
    let call = Call::Write(1, 0, &['a'; COLUMNS]);
    tried(&rt, &mut given, call, &['a'], &wanted)
}

#[test]
fn rows_that_changed(rt: HostRuntime) -> Result<(), Fail> {
    let mut given = still(
        &rt,
        &[("xab", true), ("aby", false), ("ab", false)],
        &[(0, 2), (2, 0)],
    )?;
    let wanted = still(
        &rt,
        &[("xab", true), ("aby", false), ("ab", false)],
        &[(0, 1), (1, 0), (2, 0)],
    )?;
    tried(
        &rt,
        &mut given,
        Call::LookAgain(Span { from: 0, to: 2 }),
        &['a', 'b'],
        &wanted,
    )
}

#[test]
fn many_places_of_rows_that_changed(rt: HostRuntime) -> Result<(), Fail> {
    let mut given = large(&rt, 'a', 0, 'b', false)?;
    if let Some(row) = given.rows.get_mut(0) {
        row.respell(&['a'; COLUMNS], false)?;
    }
    let wanted = large(&rt, 'a', ROWS, 'b', false)?;
    tried(
        &rt,
        &mut given,
        Call::LookAgain(Span { from: 0, to: 1 }),
        &['a'],
        &wanted,
    )
}

#[test]
fn rows_that_lag(rt: HostRuntime) -> Result<(), Fail> {
    let lines = [("ab", false), ("cd", false), ("x", false)];
    let others = [("cd", false), ("xyz", true), ("abab", false)];
    let mut given = still(&rt, &lines, &[(0, 0)])?;
    let before = still(&rt, &lines, &[(0, 0)])?;
    let other = still(&rt, &others, &[(2, 0), (2, 2)])?;
    let lag = Lag {
        moved: 1,
        span: Span { from: 1, to: 3 },
    };
    if given.follow_lag(&other, lag).is_err() {
        println!(rt; "refused: follow_lag")?;
        assert!(rt; is_same(&given, &before), "follow_lag left something else");
        given.follow_lag(&other, lag)?;
    }
    assert!(rt; is_same(&given, &other), "follow_lag made something else");
    Ok(())
}

/// Nothing is known of how rows differ.
const WHOLE: Lag = Lag {
    moved: usize::MAX,
    span: Span {
        from: 0,
        to: usize::MAX,
    },
};

/// How many places of a screen are less on the other.
fn count_less(alloc: Global, one: &Standing, other: &Standing) -> usize {
    let less = match Alone::of(alloc, one, other, WHOLE, 1) {
        Ok(alone) => Less::of(alloc, one, other, &alone),
        Err(_) => Less::untold(),
    };
    let mut count = 0usize;
    for at in 0..one.places.len() {
        count = count.saturating_add(usize::from(less.has(one, at, other)));
    }
    count
}

/// How many places of a screen are less on another and stand so at neither end.
fn count_passed(
    alloc: Global,
    first: &Standing,
    last: &Standing,
    one: &Standing,
    other: &Standing,
) -> usize {
    let passed = match Alone::of(alloc, one, other, WHOLE, 1) {
        Ok(alone) => Passed::of(alloc, first, last, one, other, &alone),
        Err(_) => Passed::untold(),
    };
    let mut count: usize = 0;
    for at in 0..one.places.len() {
        count = count.saturating_add(usize::from(passed.has(first, last, one, at, other)));
    }
    count
}

#[test]
fn places_that_are_less(rt: HostRuntime) -> Result<(), Fail> {
    let places = [(0, 0), (0, 1), (1, 1)];
    let one = still(&rt, &[("aa", false), ("ba", false)], &places)?;
    let other = still(&rt, &[("ba", false)], &[(0, 1)])?;
    assert!(rt; count_less(rt.alloc(), &one, &other) == 2);
    assert!(rt; count_less(rt.alloc(), &other, &one) == 0);
    if let Ok(alone) = Alone::of(rt.alloc(), &one, &other, WHOLE, 1) {
        assert!(rt; may_pass(&other, &one, &other, &alone));
        assert!(rt; !may_pass(&one, &one, &other, &alone));
    }
    assert!(rt; count_passed(rt.alloc(), &other, &other, &one, &other) == 2);
    assert!(rt; count_passed(rt.alloc(), &other, &one, &one, &other) == 0);
    Ok(())
}
