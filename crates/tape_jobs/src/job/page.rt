//! The job `page`: the whole recording as one file for a browser.

ghost use Rattle.std.specs.Prelude.{◌≡◌, false, true, OnOk};
ghost use Rattle.screen_page.specs.Page.{page_text};
ghost use Rattle.tape_core.specs.Devices.{has_failed, is_flushed};
ghost use Rattle.tape_jobs.specs.Endings.{JobPuts};
ghost use Rattle.tape_jobs.specs.Player.{played_of};
ghost use Rattle.tape_jobs.specs.Texts.{page_of};
ghost use Rattle.xterm_page.specs.Page.{page_text as today_page};

use crate::job::JobFault;
use crate::player::{Setup, set_up};
use crate::shared::{EVERY, open_session};
use command_line::Player;
use screen_page::page;
use std::alloc::Global;
use std::io::Write;
use std::mem::ManuallyDrop;
use tape_core::{Recording, Watched};
use vt_term::Profile;
use xterm_term::Size;

/// Writes the page of this title, and flushes. Where memory is refused, a beginning of it has gone out.
#[tactic(auto, unfolding(crate::specs::Texts::page_of))]
pub fn write_page<O: Write>(
    alloc: Global,
    recording: Recording,
    player: Player,
    title: &[char],
    out: &mut Watched<O>,
) -> Result<(), JobFault>
    requires { has_failed out.old ≡ false }
    ensures puts { JobPuts O.contents out.old out.new
        (page_of title.now (played_of player recording) recording) result }
    ensures flushed { OnOk result (is_flushed out.new ≡ true) }
{
    match set_up(player, &recording) {
        Setup::Vt(profile) => write_played(alloc, recording, profile, title, out),
        Setup::Today(size) => { write_today(alloc, recording, size, title, out) }
    }
}

/// Writes that of a VT.
fn write_played<O: Write>(
    alloc: Global,
    recording: Recording,
    profile: Profile,
    title: &[char],
    out: &mut Watched<O>,
) -> Result<(), JobFault>
    requires { has_failed out.old ≡ false }
    ensures puts { JobPuts O.contents out.old out.new
        (page_text title.now profile recording) result }
    ensures flushed { OnOk result (is_flushed out.new ≡ true) }
{
    let session = open_session(alloc, recording, EVERY, profile)?;
    page(&mut ManuallyDrop::new(session), title, out)?;
    Ok(())
}

/// Writes that of a terminal of today of a size.
fn write_today<O: Write>(
    alloc: Global,
    recording: Recording,
    size: Size,
    title: &[char],
    out: &mut Watched<O>,
) -> Result<(), JobFault>
    requires { has_failed out.old ≡ false }
    ensures puts { JobPuts O.contents out.old out.new
        (today_page title.now size.columns size.lines recording) result }
    ensures flushed { OnOk result (is_flushed out.new ≡ true) }
{
    let session = xterm_print::open(alloc, recording, EVERY, size).map_err(|_| JobFault::Memory)?;
    xterm_page::page(alloc, &mut ManuallyDrop::new(session), title, out)?;
    Ok(())
}
