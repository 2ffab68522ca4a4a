//! The job `picture`: the whole file, and the moment in its title.
use crate::comparison::{compare, done};
use crate::in_memory::AB_PICTURE;
use command_line::{Job, Player};
use std::alloc::{AllocError, Global};
use std::process::Abort;
use std::test::Fail;
use tape_core::limits::LAST_MOMENT;
use vt_term::Profile;

const AB_LETTERS: &str = "<text y=\"15\"><tspan x=\"0 10\">ab</tspan></text>";

/// Bold and reversed letters, then a line of the drawing set, half a second after the start; and a cell that a VT102
/// deletes half a second later.
const BODY: &str = "\x1b[1;7ma<\x1b(0q\r\x1b[P";

const TIMING: &str = "0.5 12\n0.5 4\n";

/// What is drawn: the plain print's first line, the grounds, the first row, and how far right the cursor stands.
#[derive(Clone, Copy)]
struct Drawn {
    plain: &'static str,
    grounds: &'static str,
    row: &'static str,
    x: u8,
}

const NOTHING: Drawn = Drawn {
    plain: "",
    grounds: "",
    row: "",
    x: 0,
};

const DRAWN: Drawn = Drawn {
    plain: "a&lt;\u{2500}",
    grounds: "M0 0h20v20h-20zM20 0h10v20h-10z",
    row: "<text y=\"15\"><tspan class=\"b p\" x=\"0 10\">a&lt;</tspan><tspan class=\"b n\" x=\"20\">\u{2500}</tspan></text><path class=\"p\" d=\"M20 0m0 9h10v2h-10z\"/>",
    x: 30,
};

/// The cursor is back at the first column, and a VT100 has deleted nothing.
const RETURNED: Drawn = Drawn { x: 0, ..DRAWN };

const DELETED: Drawn = Drawn {
    plain: "&lt;\u{2500}",
    grounds: "M0 0h10v20h-10zM10 0h10v20h-10z",
    row: "<text y=\"15\"><tspan class=\"b p\" x=\"0\">&lt;</tspan><tspan class=\"b n\" x=\"10\">\u{2500}</tspan></text><path class=\"p\" d=\"M10 0m0 9h10v2h-10z\"/>",
    x: 0,
};

/// The file, with the moment as it stands in the title.
fn file_of(alloc: Global, seconds: &str, drawn: &Drawn) -> Result<String, AllocError> {
    let ground = format!(in alloc; "<path d=\"{}\"/>", drawn.grounds)?;
    let plain = format!(in alloc; "<desc>{}\n", drawn.plain)?;
    let outer = format!(in alloc; "M{} 0h10", drawn.x)?;
    let inner = format!(in alloc; "M{} 1h8", drawn.x.saturating_add(1))?;
    let text = AB_PICTURE.replace(alloc, "M20 0h10", outer.as_str())?;
    let text = text.as_str().replace(alloc, "M21 1h8", inner.as_str())?;
    let text = text
        .as_str()
        .replace(alloc, "<path d=\"\"/>", ground.as_str())?;
    let text = text.as_str().replace(alloc, AB_LETTERS, drawn.row)?;
    let text = text.as_str().replace(alloc, "<desc>ab\n", plain.as_str())?;
    text.as_str().replace(alloc, "0.500000", seconds)
}

/// Sees what is drawn at a moment.
fn draws<R: Abort + AllocGlobal>(
    rt: &R,
    at: u64,
    profile: Profile,
    seconds: &str,
    drawn: &Drawn,
) -> Result<(), Fail> {
    let text = file_of(rt.alloc(), seconds, drawn)?;
    let job = Job::Picture {
        at,
        player: Player::Vt(profile),
    };
    compare(rt, &done(job, BODY, TIMING, text.as_str()))
}

#[test]
fn picture_draws_the_screen_of_a_moment(rt: HostRuntime) -> Result<(), Fail> {
    let vt100 = Profile::Vt100;
    draws(&rt, 499_999, vt100, "0.499999", &NOTHING)?;
    draws(&rt, 500_000, vt100, "0.500000", &DRAWN)?;
    draws(&rt, 1_000_000, vt100, "1.000000", &RETURNED)?;
    draws(&rt, 1_000_000, Profile::Vt102, "1.000000", &DELETED)
}

/// A moment past the last one is told as the last one.
#[test]
fn picture_tells_no_moment_past_the_last_one(rt: HostRuntime) -> Result<(), Fail> {
    let last = "1000000000000.000000";
    for at in [LAST_MOMENT, LAST_MOMENT + 1, u64::MAX] {
        draws(&rt, at, Profile::Vt100, last, &RETURNED)?;
    }
    Ok(())
}
