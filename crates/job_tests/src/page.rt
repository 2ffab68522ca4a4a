//! The job `page`: the title and the entries that stand in the player.
use crate::in_memory::{AB, DONE, data_of, do_job, do_job_beside};
use command_line::{Job, Measure, Player};
use std::process::Abort;
use std::test::Fail;
use vt_term::Profile;

/// Letters and a line above them, and a cell that a VT102 deletes half a second later.
pub(crate) const SCRIPT: &[u8] = b"Script started on X\n\x1b[2;1Hab<\x1b[H\x1b(0q\x1b[2;1H\x1b[P";

pub(crate) const TIMING: &[u8] = b"0.5 16\n0.5 9\n";

/// Does the job, and compares the entries.
fn compare_entries<R: Abort + AllocGlobal>(
    rt: &R,
    player: Player,
    pair: (&[u8], &[u8]),
    data: &str,
) {
    let ended = do_job(rt.alloc(), Job::Page { player }, pair.0, pair.1, b"");
    let page = ended.text.as_slice();
    assert_eq!(rt; (ended.outcome, data_of(page)), (DONE, data));
    assert!(rt; page.starts_with(b"<!DOCTYPE html>\n"), "{player:?}");
    assert!(rt; page.ends_with(b"</html>\n"), "{player:?}");
}

#[test]
fn page_holds_the_entries_of_each_chunk(rt: HostRuntime) -> Result<(), Fail> {
    let pair = (SCRIPT, TIMING);
    compare_entries(
        &rt,
        Player::Vt(Profile::Vt100),
        pair,
        "[[0.000000,0,1,1],\n[0.500000,0,1,2,1,[0,16,\"\u{2500}\"],2,[0,0,\"ab\\u003c\"]],\n[1.000000,0,2,1]]",
    );
    compare_entries(
        &rt,
        Player::Vt(Profile::Vt102),
        pair,
        "[[0.000000,0,1,1],\n[0.500000,0,1,2,1,[0,16,\"\u{2500}\"],2,[0,0,\"ab\\u003c\"]],\n[1.000000,0,2,1,2,[0,0,\"b\\u003c\"]]]",
    );
    let empty = (b"Script started on X\n".as_slice(), b"".as_slice());
    let vt100 = Player::Vt(Profile::Vt100);
    compare_entries(&rt, vt100, empty, "[[0.000000,0,1,1]]");
    Ok(())
}

/// A terminal of today has the size that is asked for, told before its entries.
#[test]
fn page_of_today_holds_its_size(rt: HostRuntime) {
    let today = Player::Today(Some(Measure {
        columns: 12,
        lines: 3,
    }));
    let body =
        "x\n\x1b[1;31mab\x1b[0;2;44m日\x1b[7m─e\u{301}\x1b[m\r\n\x1b[38;2;1;2;3;9m<\u{1f600}\x1b[m";
    let timing = b"0.5 59\n";
    compare_entries(
        &rt,
        today,
        (body.as_bytes(), timing),
        "[[12,3],\n[0.000000,0,1,1],\n[0.500000,0,2,4,1,[0,1,2,\"ab\",544,0,5,\"日\",56,0,5,\"─\",1064,0,5,\"e\u{301}\"],2,[0,256,66308,\"\\u003c\",768,66308,\"\u{1f600}\"]]]",
    );
}

/// The text beside the job is the title.
#[test]
fn page_has_the_title_that_stands_beside_it(rt: HostRuntime) {
    let job = Job::Page {
        player: Player::Vt(Profile::Vt100),
    };
    let ended = do_job_beside(rt.alloc(), job, &['<', 'é'], SCRIPT, TIMING, b"");
    let page = str::from_utf8(ended.text.as_slice()).unwrap_or("");
    assert!(rt; page.contains("<title>&lt;é</title>\n"), "no title");
    assert!(rt; page.contains("<h1>&lt;é</h1>\n"), "no heading");
}
