//! Jobs that people wait for, on recordings that this program makes: what bench/run measures.
//!
//! It takes the name of a workload, a seed, and how much of it: in percent of what bench/workloads.txt asks for. It prints a
//! line for each job.
#![tactic(auto)]

mod digest;
mod editors;
mod jobs;
mod logs;
mod random;
mod recorder;
mod requests;
mod workload;

use std::process::ExitCode;

fn main(rt: HostRuntime) -> ExitCode {
    match workload::start(&rt) {
        Ok(true) => ExitCode::SUCCESS,
        Ok(false) => ExitCode::from(2),
        Err(_) => ExitCode::from(3),
    }
}
