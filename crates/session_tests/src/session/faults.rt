//! Which fault an edit has where several hold: the first of E1 to E8. The recording has as many chunks as it may have, so that
//! every insertion makes a chunk too many. Pairs with E5 stand in tests/limits.py, since they take a body of 1 GiB.
use super::large::{applied, letters, opened};
use std::alloc::Global;
use std::test::Fail;
use tape_core::limits::{LONGEST_CHUNK, LONGEST_DELAY, MOST_CHUNKS};
use tape_seek::{Edit, EditFault};

/// An edit that brings so many bytes.
#[derive(Clone, Copy, Debug)]
enum Asked {
    /// Place, delay and number of bytes.
    Insert(usize, u64, usize),
    /// Place and number of bytes.
    Replace(usize, usize),
    /// Place and delay.
    Retime(usize, u64),
}

use Asked::{Insert, Replace, Retime};

/// A microsecond more than a delay may have.
const LATE: u64 = LONGEST_DELAY + 1;

/// A byte more than a chunk may have.
const LONG: usize = LONGEST_CHUNK + 1;

/// The place behind the end, where no chunk can come.
const OUT: usize = MOST_CHUNKS + 1;

/// Each pair of faults that an edit can have at once, and the one that is told.
const PAIRS: [(Asked, EditFault); 9] = [
    // E1 before E2, E3 and E4.
    (Insert(OUT, LATE, 0), EditFault::NoSuchChunk),
    (Insert(OUT, 0, LONG), EditFault::NoSuchChunk),
    (Insert(OUT, 0, 0), EditFault::NoSuchChunk),
    // E2 before E3 and E4, and E3 before E4.
    (Insert(0, LATE, LONG), EditFault::DelayTooLarge),
    (Insert(0, LATE, 0), EditFault::DelayTooLarge),
    (Insert(0, 0, LONG), EditFault::ChunkTooLong),
    (Insert(MOST_CHUNKS, 0, 0), EditFault::TooManyChunks),
    // A replacement has E1 before E3, and a delay E1 before E2. There is no chunk behind the last.
    (Replace(MOST_CHUNKS, LONG), EditFault::NoSuchChunk),
    (Retime(MOST_CHUNKS, LATE), EditFault::NoSuchChunk),
];

fn edit_of(alloc: Global, asked: Asked) -> Result<Edit, EditFault> {
    match asked {
        Insert(at, delay, size) => {
            let bytes = letters(alloc, size)?;
            Ok(Edit::Insert { at, delay, bytes })
        }
        Replace(at, size) => {
            let bytes = letters(alloc, size)?;
            Ok(Edit::Replace { at, bytes })
        }
        Retime(at, delay) => Ok(Edit::Retime { at, delay }),
    }
}

#[test]
fn the_first_fault_of_an_edit(rt: HostRuntime) -> Result<(), Fail> {
    let mut session = opened(rt.alloc(), MOST_CHUNKS, 0, 1_000)?;
    for (asked, fault) in PAIRS {
        let edit = edit_of(rt.alloc(), asked)?;
        assert_eq!(rt; applied(&mut session, edit), Err(fault), "{asked:?}");
    }
    Ok(())
}
