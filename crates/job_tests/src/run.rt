use crate::comparison::{Case, compare, compare_over};
use crate::in_memory::AB;
use command_line::Job;
use screen_print::ChangesFault;
use std::process::Abort;
use std::test::Fail;
use tape_core::Fault;
use tape_jobs::{JobFault, Outcome};
use tape_seek::OutOfMemory;

/// A script without its header, a timing and a moment, and the text of `due` and the fault.
type Row<'a> = (&'a str, &'a str, u64, &'a str, Option<Fault>);

const DUE: [Row<'static>; 14] = [
    ("ab", AB, 499_999, "a", None),
    ("ab", AB, 500_000, "ab", None),
    ("ab", "0 1\n0 1\n", 0, "ab", None),
    ("ab", "0.5 3\n", 1_000_000, "", Some(Fault::ScriptShort(0))),
    ("", "0.1 1\nO 0.1 5\n", 0, "", Some(Fault::MultiStream(2))),
    ("a", "1000000 1\n", 999_999_999_999, "", None),
    ("a", "1000000 1\n", 1_000_000_000_000, "a", None),
    ("a", "1000000.0000009 1\n", 1_000_000_000_000, "a", None),
    (
        "",
        "1000000.000001 0\n",
        0,
        "",
        Some(Fault::DelayTooLarge(1)),
    ),
    ("", "0 1048576\n", 0, "", Some(Fault::ScriptShort(0))),
    ("", "0 1048577\n", 0, "", Some(Fault::ChunkTooLong(1))),
    ("ab", "0.25 1\n0.25 1\n", 499_999, "a", None),
    ("", "\n1 2 3\n", 0, "", Some(Fault::BadCount(2))),
    ("", "", 7_000_000, "", None),
];

/// A row of `due`: where there is a fault, the status is 1.
fn due<'a>(row: &Row<'a>) -> Case<'a> {
    let (body, timing, at, text, fault) = *row;
    let outcome = Outcome {
        status: if fault.is_none() { 0 } else { 1 },
        fault: fault.map(JobFault::File),
    };
    Case {
        job: Job::Due { at },
        body,
        timing,
        requests: "",
        text,
        new_timing: "",
        outcome,
    }
}

/// The texts, statuses and faults of `due`.
#[test]
fn due_over_texts_in_memory(rt: HostRuntime) -> Result<(), Fail> {
    for row in &DUE {
        compare(&rt, &due(row))?;
    }
    Ok(())
}

/// A script that has no line feed: the timing is judged first.
#[test]
fn due_over_a_script_without_header(rt: HostRuntime) {
    let rows = [
        (".5 1", Fault::BadDelay(1)),
        ("", Fault::NoHeader),
        ("0.1 1\nO 0.1 5\n", Fault::MultiStream(2)),
    ];
    for (timing, fault) in rows {
        compare_over(&rt, b"no line", &due(&("", timing, 0, "", Some(fault))));
    }
}

#[test]
fn a_job_fault_comes_of_what_a_library_tells(rt: HostRuntime) {
    assert_eq!(rt; JobFault::from(OutOfMemory).status(), 3);
    let made = [
        JobFault::from(ChangesFault::Memory),
        JobFault::from(ChangesFault::Write),
    ];
    assert_eq!(rt; made, [JobFault::Memory, JobFault::File(Fault::WriteFault)]);
}
