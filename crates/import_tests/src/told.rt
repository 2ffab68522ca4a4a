//! How losses are told: rows by hand.
use std::process::Abort;
use std::rt::Runtime;
use std::test::Fail;
use tape_core::Watched;
use tape_import::{Cut, EventFault, Late, Left, Losses, Others, Place, put_losses};

/// Nothing was lost.
const NOTHING: Losses = Losses {
    first: None,
    left: None,
    cut: None,
    slow: 0,
    first_slow: None,
    others: NONE_LEFT,
};

const NONE_LEFT: Others = Others {
    inputs: 0,
    markers: 0,
    resizes: 0,
    others: 0,
};

/// Compares what is told of losses, and whether anything but inputs, markers and others was lost.
fn compare<R: Abort + AllocGlobal>(
    rt: &R,
    losses: Losses,
    text: &str,
    damaged: bool,
) -> Result<(), Fail> {
    let mut writer = Watched::new(Vec::new(rt.alloc()));
    put_losses(&losses, &mut writer)?;
    let told = writer.into_inner();
    let got = (
        str::from_utf8(told.as_slice()).unwrap_or("no UTF-8"),
        losses.is_damaged(),
    );
    assert_eq!(rt; got, (text, damaged));
    Ok(())
}

/// What was left out.
fn left(place: Place, number: u64, fault: EventFault, count: u64) -> Option<Left> {
    Some(Left {
        place,
        number,
        fault,
        count,
    })
}

#[test]
fn nothing_lost(rt: HostRuntime) -> Result<(), Fail> {
    compare(&rt, NOTHING, "", false)
}

#[test]
fn messages_that_are_missing(rt: HostRuntime) -> Result<(), Fail> {
    let losses = Losses {
        first: Some(Late { number: 3, line: 1 }),
        left: left(Place::Line, 2, EventFault::OutOfOrder, 1),
        others: Others {
            resizes: 1,
            ..NONE_LEFT
        },
        ..NOTHING
    };
    let wanted = "first message is number 3\nrecording line 2: out of order, 1 lines left out\n\
                  0 inputs, 0 markers, 1 resizes and 0 others left out\n";
    compare(&rt, losses, wanted, true)
}

#[test]
fn faults(rt: HostRuntime) -> Result<(), Fail> {
    let rows = [
        (EventFault::BadEvent, "bad event"),
        (EventFault::OutOfOrder, "out of order"),
        (EventFault::ChunkTooLong, "chunk too long"),
        (EventFault::TooManyChunks, "too many chunks"),
        (EventFault::TooManyBytes, "too many bytes"),
    ];
    for (fault, text) in rows {
        let losses = Losses {
            left: left(Place::Event, 0, fault, 18),
            ..NOTHING
        };
        let wanted = format!(in rt.alloc(); "recording event 0: {text}, 18 bytes left out\n")?;
        compare(&rt, losses, wanted.as_str(), true)?;
    }
    Ok(())
}

#[test]
fn chunks_and_delays_that_were_cut(rt: HostRuntime) -> Result<(), Fail> {
    let cut = Cut {
        chunk: 2,
        kept: 3,
        counted: 5,
    };
    let both = Losses {
        cut: Some(cut),
        slow: 2,
        ..NOTHING
    };
    compare(
        &rt,
        both,
        "chunk 2 cut to 3 of 5 bytes\n2 delays cut to 1000000 seconds\n",
        true,
    )?;
    let slow = Losses { slow: 1, ..NOTHING };
    compare(&rt, slow, "1 delays cut to 1000000 seconds\n", true)
}

#[test]
fn events_that_a_pair_has_no_place_for(rt: HostRuntime) -> Result<(), Fail> {
    let rows = [
        (
            1,
            2,
            0,
            3,
            "1 inputs, 2 markers, 0 resizes and 3 others left out\n",
            false,
        ),
        (
            0,
            0,
            1,
            0,
            "0 inputs, 0 markers, 1 resizes and 0 others left out\n",
            true,
        ),
    ];
    for (inputs, markers, resizes, others, text, damaged) in rows {
        let others = Others {
            inputs,
            markers,
            resizes,
            others,
        };
        let losses = Losses { others, ..NOTHING };
        compare(&rt, losses, text, damaged)?;
    }
    Ok(())
}
