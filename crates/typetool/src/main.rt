//! Tells what a recording of a terminal shows by a moment.
#![tactic(auto)]

use program::start;
use std::process::ExitCode;

fn main(rt: HostRuntime) -> ExitCode {
    ExitCode::from(start(&rt))
}
