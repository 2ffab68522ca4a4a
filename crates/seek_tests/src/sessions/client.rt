//! The caller that knows nothing of its terminal, on a strip.
use super::{TEN, opened, told_of_view};
use crate::client::after_two_edits;
use std::test::Fail;
use tape_core::Bytes;
use tape_seek::{Edit, EditFault};

#[test]
fn two_edits_and_a_seek(rt: HostRuntime) -> Result<(), Fail> {
    let mut session = opened(rt.alloc(), TEN, 4, 10)?;
    let bytes = Bytes::copy_of(rt.alloc(), b"-?")?;
    let first = Edit::Replace { at: 6, bytes };
    let second = Edit::Delete { from: 0, to: 1 };
    let view = after_two_edits(&mut session, first, second, 9_000_000)?;
    let text = told_of_view(rt.alloc(), &view)?;
    assert_eq!(rt;
        text.as_str(),
        "count 9 fed 9 sent 12345-.... shows 12345-789."
    );
    Ok(())
}

#[test]
fn a_second_edit_that_is_refused(rt: HostRuntime) -> Result<(), Fail> {
    let mut session = opened(rt.alloc(), TEN, 4, 10)?;
    let first = Edit::Delete { from: 0, to: 1 };
    let second = Edit::Retime { at: 9, delay: 0 };
    let fault = match after_two_edits(&mut session, first, second, 0) {
        Ok(_) => None,
        Err(fault) => Some(fault),
    };
    assert_eq!(rt;
        (fault, session.log().len()),
        (Some(EditFault::NoSuchChunk), 1)
    );
    Ok(())
}
