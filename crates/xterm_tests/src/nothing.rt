//! What stands in no table changes nothing: every other parameter, final and set, from terminals of which each part
//! can be told.
ghost use Rattle.std.specs.Prelude.{◌≤◌};

use crate::changes::{assert_changes, changed};
use crate::starts::{SET, WRAPPING};
use crate::told::{Left, feed_reset};
use std::alloc::Global;
use std::fmt::Write;
use std::process::Abort;
use std::test::Fail;

// A terminal as it was, and as it is after all that changes nothing. Before that a sequence without effect takes the
// last character.
#[derive(Drop)]
struct Watched {
    before: Left,
    after: Left,
}

fn watch(alloc: Global, start: &str) -> Result<Watched, Fail> {
    let pieces = [start.as_bytes(), b"\x1b[?0h".as_slice()];
    Ok(Watched {
        before: feed_reset(alloc, &pieces)?,
        after: feed_reset(alloc, &pieces)?,
    })
}

fn assert_nothing(
    rt: &(impl Abort + AllocGlobal),
    watched: &mut Watched,
    sequences: &str,
) -> Result<(), Fail> {
    watched.after.feed(&[sequences.as_bytes()])?;
    let text = changed(rt.alloc(), &watched.before, &watched.after)?;
    assert_eq!(rt;
        text.as_str(),
        "",
        "at {}",
        sequences.as_bytes().escape_ascii()
    );
    Ok(())
}

// Some of the parameters that other terminals have, and some that are small ones in their last eight bits.
const LARGE: [u16; 16] = [
    511, 512, 514, 772, 999, 1000, 1002, 1006, 1034, 1047, 1048, 1049, 2004, 4096, 9998, 9999,
];

// Batches of sixteen parameters: every one up to 287, and the large ones.
const BATCHES: u16 = 19;

fn parameter_at(batch: u16, i: u16) -> u16
    requires batch { batch ≤ 18 }
    requires i { i ≤ 15 }
{
    if batch == 18 {
        LARGE[i as usize]
    } else {
        batch * 16 + i
    }
}

// The sequences of a batch, but those with a parameter that acts.
fn with_parameters(
    alloc: Global,
    head: &str,
    acting: &[u16],
    last: char,
    batch: u16,
) -> Result<String, Fail>
    requires { batch ≤ 18 }
{
    let mut sequences = String::new(alloc);
    for i in 0..16u16 {
        let parameter = parameter_at(batch, i);
        if !acting.contains(&parameter) {
            write!(sequences, "{head}{parameter}{last}")?;
        }
    }
    Ok(sequences)
}

// Each parameter but those that act changes nothing, between what begins a sequence and its final.
fn other_parameters_change_nothing(
    rt: &(impl Abort + AllocGlobal),
    watched: &mut Watched,
    head: &str,
    acting: &[u16],
    last: char,
) -> Result<(), Fail> {
    for batch in 0..BATCHES {
        let sequences = with_parameters(rt.alloc(), head, acting, last, batch)?;
        assert_nothing(rt, watched, sequences.as_str())?;
    }
    Ok(())
}

const ACTING_MODES: &[u16] = &[1, 5, 6, 7, 25, 47, 1047, 1048, 1049];

// Those of SGR.
const RENDITIONS: &[u16] = &[
    0, 1, 2, 3, 4, 5, 6, 7, 8, 9, 21, 22, 23, 24, 25, 27, 28, 29, 30, 31, 32, 33, 34, 35, 36, 37,
    39, 40, 41, 42, 43, 44, 45, 46, 47, 49, 90, 91, 92, 93, 94, 95, 96, 97, 100, 101, 102, 103,
    104, 105, 106, 107,
];

// What begins a sequence, the parameters that act in it, and its final.
const PARAMETERS: &[(&str, &[u16], char)] = &[
    ("\x1b[", &[4, 20], 'h'),
    ("\x1b[", &[4, 20], 'l'),
    ("\x1b[?", ACTING_MODES, 'h'),
    ("\x1b[?", ACTING_MODES, 'l'),
    ("\x1b[", RENDITIONS, 'm'),
    ("\x1b[", &[0, 3], 'g'),
    ("\x1b[", &[0, 1, 2], 'J'),
    ("\x1b[", &[0, 1, 2], 'K'),
    ("\x1b[", &[5, 6], 'n'),
    ("\x1b[", &[0], 'c'),
    ("\x1b[", &[0, 1], 'x'),
    ("\x1b[", &[], 'q'),
    ("\x1b[", &[], 't'),
    ("\x1b[1;", &[], 'T'),
    ("\x1b[?", &[], 'n'),
    ("\x1b[?", &[], 'm'),
    ("\x1b[?", &[], 'J'),
    ("\x1b[?", &[], 'K'),
    ("\x1b[?", &[], 'r'),
    ("\x1b[?", &[], 's'),
];

fn all_other_parameters(rt: &(impl Abort + AllocGlobal), start: &str) -> Result<(), Fail> {
    let mut watched = watch(rt.alloc(), start)?;
    for (head, acting, last) in PARAMETERS {
        other_parameters_change_nothing(rt, &mut watched, head, acting, *last)?;
    }
    Ok(())
}

#[test]
fn other_parameters(rt: HostRuntime) -> Result<(), Fail> {
    all_other_parameters(&rt, SET)?;
    all_other_parameters(&rt, WRAPPING)
}

// The sequences of all finals from the first on, but those that act.
fn with_finals(alloc: Global, head: &str, first: u8, acting: &str) -> Result<String, Fail> {
    let mut sequences = String::new(alloc);
    for byte in first..127 {
        let last = char::from(byte);
        if !acting.contains(last) {
            write!(sequences, "{head}{last}")?;
        }
    }
    Ok(sequences)
}

// What begins a sequence, the first byte that can be its final, and the finals that act or go on.
const FINALS: &[(&str, u8, &str)] = &[
    ("\x1b", 48, "DEMHZc78=>k[PX]^_"),
    ("\x1b#", 48, "8"),
    ("\x1b(", 48, "AB012"),
    ("\x1b)", 48, "AB012"),
    ("\x1b[", 64, "ABCDEFG`aedHfIZJKX@PLMSTbghlmrsucnx"),
    ("\x1b[2", 64, "ABCDEFG`aedHfIZJKX@PLMSTbghlmrsucnx"),
    ("\x1b[1;2", 64, "ABCDEFG`aedHfIZJKX@PLMSbghlmrsucnx"),
    ("\x1b[?", 64, "hl"),
    ("\x1b[?1;25", 64, "hl"),
];

// Other intermediates, more than one, and texts that aren't well formed: no final acts.
const OTHER_FINALS: &[(&str, u8, &str)] = &[
    ("\x1b ", 48, ""),
    ("\x1b!", 48, ""),
    ("\x1b\"", 48, ""),
    ("\x1b$", 48, ""),
    ("\x1b%", 48, ""),
    ("\x1b&", 48, ""),
    ("\x1b'", 48, ""),
    ("\x1b*", 48, ""),
    ("\x1b+", 48, ""),
    ("\x1b,", 48, ""),
    ("\x1b-", 48, ""),
    ("\x1b.", 48, ""),
    ("\x1b/", 48, ""),
    ("\x1b##", 48, ""),
    ("\x1b#(", 48, ""),
    ("\x1b((", 48, ""),
    ("\x1b()", 48, ""),
    ("\x1b) ", 48, ""),
    ("\x1b[!", 64, ""),
    ("\x1b[1 ", 64, ""),
    ("\x1b[1;2$", 64, ""),
    ("\x1b[61\"", 64, ""),
    ("\x1b[<", 64, ""),
    ("\x1b[=", 64, ""),
    ("\x1b[>", 64, ""),
    ("\x1b[1:2", 64, ""),
    ("\x1b[1?", 64, ""),
];

fn all_other_finals(
    rt: &(impl Abort + AllocGlobal),
    start: &str,
    rows: &[(&str, u8, &str)],
) -> Result<(), Fail> {
    let mut watched = watch(rt.alloc(), start)?;
    for (head, first, acting) in rows {
        let sequences = with_finals(rt.alloc(), head, *first, acting)?;
        assert_nothing(rt, &mut watched, sequences.as_str())?;
    }
    Ok(())
}

#[test]
fn other_finals(rt: HostRuntime) -> Result<(), Fail> {
    for start in [SET, WRAPPING] {
        all_other_finals(&rt, start, FINALS)?;
        all_other_finals(&rt, start, OTHER_FINALS)?;
    }
    Ok(())
}

// What begins a sequence, the parameters that act in it or take others with them, those that follow one that doesn't,
// and what they change.
const FOLLOWED: &[(&str, &[u16], &str, &str)] = &[
    ("\x1b[", &[4, 20], ";20h", "+LNM no Last"),
    ("\x1b[?", &[1, 5, 6, 7, 25, 47], ";5h", "+DECSCNM no Last"),
    ("\x1b[", &[38, 48, 58], ";0;5;1m", "[BK] no Last"),
];

// A parameter that doesn't act takes none of those that follow it.
fn others_are_passed(
    rt: &(impl Abort + AllocGlobal),
    row: &(&str, &[u16], &str, &str),
) -> Result<(), Fail> {
    let (head, acting, tail, want) = *row;
    for parameter in 0..128u16 {
        if !acting.contains(&parameter) {
            let mut sequence = String::new(rt.alloc());
            write!(sequence, "{head}{parameter}{tail}")?;
            assert_changes(rt, WRAPPING, sequence.as_str(), want)?;
        }
    }
    Ok(())
}

#[test]
fn parameters_after_others(rt: HostRuntime) -> Result<(), Fail> {
    for row in FOLLOWED {
        others_are_passed(&rt, row)?;
    }
    Ok(())
}
