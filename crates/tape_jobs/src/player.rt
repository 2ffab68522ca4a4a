//! Which terminal plays a recording, and of which size.

ghost use Rattle.std.specs.Prelude.{◌≡◌, Some};
ghost use Rattle.std.specs.Option.{option_map};
ghost use Rattle.tape_jobs.specs.Player.{measure_of, played_of, played_size, told_measure, usual_measure, within};
ghost use Rattle.tape_jobs.specs.Setups.{set_as};

use command_line::{Measure, Player, is_size};
use tape_check::{PlayedAs, told_profile, told_size};
use tape_core::Recording;
use vt_term::Profile;
use xterm_term::Size;

/// How the terminal is set up that plays a recording.
#[derive(Clone, Copy, Debug)]
pub enum Setup {
    /// A VT100 or a VT102.
    Vt(Profile),
    /// A terminal of today, of this size.
    Today(Size),
}

/// How the terminal is set up that plays a recording: the one that is asked for, or that the header tells.
pub fn set_up(player: Player, recording: &Recording) -> Setup
    ensures { set_as result ≡ played_of player recording.now }
{
    match player {
        Player::Vt(profile) => Setup::Vt(profile),
        Player::Today(asked) => Setup::Today(played_size(asked, recording)),
        Player::Auto(asked) => match told_profile(recording) {
            Some(profile) => Setup::Vt(profile),
            None => Setup::Today(played_size(asked, recording)),
        },
    }
}

/// As what a recording is played, with the size.
pub fn played_as(player: Player, recording: &Recording) -> PlayedAs
    ensures { result ≡ played_of player recording.now }
{
    match set_up(player, recording) {
        Setup::Vt(profile) => PlayedAs::Vt(profile),
        Setup::Today(size) => PlayedAs::Today {
            columns: size.columns,
            lines: size.lines,
        },
    }
}

/// The size of the terminal of today that plays a recording.
fn played_size(asked: Option<Measure>, recording: &Recording) -> Size
    ensures { measure_of result ≡ played_size asked recording.now }
{
    if let Some(size) = size_within(asked) {
        return size;
    }
    if let Some(size) = size_within(told_measure(recording)) {
        return size;
    }
    usual_size()
}

/// The size of this measure, if there is one that is within the limits.
fn size_within(measure: Option<Measure>) -> Option<Size>
    ensures { option_map measure_of result ≡ within measure }
{
    let measure = measure?;
    if !is_size(measure) {
        return None;
    }
    Size::new(measure.columns as u16, measure.lines as u16)
}

/// The measure that a recording's header tells.
fn told_measure(recording: &Recording) -> Option<Measure>
    ensures { result ≡ told_measure recording.now }
{
    let (columns, lines) = told_size(recording)?;
    Some(Measure { columns, lines })
}

/// The size where nothing is asked for or told.
fn usual_size() -> Size
    ensures { measure_of result ≡ usual_measure }
{
    Size {
        columns: 80,
        lines: 24,
    }
}
