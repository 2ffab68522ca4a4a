use std::alloc::Global;
use std::test::Fail;
use tape_seek::{LineFault, Request, read_line};

/// Lines, and what each asks for.
const FORMS: &[(&[u8], &str)] = &[
    (b"", "Nothing"),
    (b" \t  ", "Nothing"),
    (
        b"insert 2 1.5 -",
        "Edit(Insert { at: 2, delay: 1500000, bytes: [] })",
    ),
    (
        b"insert 1 0.25 58",
        "Edit(Insert { at: 1, delay: 250000, bytes: [88] })",
    ),
    (b"delete 0 1", "Edit(Delete { from: 0, to: 1 })"),
    (b"delete 3 3", "Edit(Delete { from: 3, to: 3 })"),
    (
        b"replace 007 4A4b",
        "Edit(Replace { at: 7, bytes: [74, 75] })",
    ),
    (
        b"replace 0 00fFa1",
        "Edit(Replace { at: 0, bytes: [0, 255, 161] })",
    ),
    (b"replace 0 -", "Edit(Replace { at: 0, bytes: [] })"),
    (b"retime 4 0.0000019", "Edit(Retime { at: 4, delay: 1 })"),
    (b"retime 0 01.", "Edit(Retime { at: 0, delay: 1000000 })"),
    (b"cap 2", "Edit(Cap { max: 2000000 })"),
    (b"cap 1000000.000001", "Edit(Cap { max: 1000000000001 })"),
    (b"screen 0", "Screen(0)"),
    (b"\treports \t 1.25\t ", "Reports(1250000)"),
    (b"changes - 0", "Changes { from: None, to: 0 }"),
    (b"changes 0 2.5", "Changes { from: Some(0), to: 2500000 }"),
    (
        b"changes 2 1",
        "Changes { from: Some(2000000), to: 1000000 }",
    ),
    (b"info", "Info"),
    (b"  log", "Log"),
    // Numbers above 10^18 count as 10^18.
    (
        b"delete 1000000000000000000 1000000000000000001",
        "Edit(Delete { from: 1000000000000000000, to: 1000000000000000000 })",
    ),
    (
        b"delete 340282366920938463463374607431768211456 0",
        "Edit(Delete { from: 1000000000000000000, to: 0 })",
    ),
    (
        b"screen 1000000000000.000001",
        "Screen(1000000000000000000)",
    ),
    (
        b"cap 99999999999999999999",
        "Edit(Cap { max: 1000000000000000000 })",
    ),
];

fn told_of(alloc: Global, line: &[u8]) -> Result<String, Fail> {
    let asked = read_line(alloc, line)?;
    Ok(format!(in alloc; "{asked:?}")?)
}

#[test]
fn lines_of_every_form(rt: HostRuntime) -> Result<(), Fail> {
    for (line, wanted) in FORMS {
        let told = told_of(rt.alloc(), line)?;
        assert_eq!(rt; told.as_str(), *wanted, "of {line:?}");
    }
    Ok(())
}

/// Lines that ask for nothing known.
const NO_FORMS: &[&[u8]] = &[
    b"nonsense",
    b"-",
    b"\0",
    // The number of fields fits exactly.
    b"insert 0 1",
    b"insert 0 1 - -",
    b"delete 1",
    b"delete 1 2 3",
    b"replace 0",
    b"replace 0 4a 4b",
    b"retime 0",
    b"retime 0 1 2",
    b"cap",
    b"cap 1 2",
    b"screen",
    b"screen 0 0",
    b"reports",
    b"reports 0 0",
    b"changes 1",
    b"changes 0 1 2",
    b"info 1",
    b"log log",
    // Words are in lower case, whole, and alone in their field.
    b"Delete 0 1",
    b"INFO",
    b"inser 0 1 -",
    b"inserts 0 1 -",
    b"insert,0 1 -",
    b"logs",
    // Spaces and tabs alone are blanks.
    b"info\r",
    b"\r",
    b"replace 0 -\r",
    b"cap\x0b2",
    b"cap\xc2\xa02",
    // Places are digits.
    b"delete +1 2",
    b"delete -1 2",
    b"delete 0x1 2",
    b"delete 1.0 2",
    b"delete - 2",
    b"replace x -",
    // Seconds have no sign, no exponent and a digit before the point.
    b"insert 0 -1 -",
    b"screen +1",
    b"screen -1",
    b"screen 1e3",
    b"screen .5",
    b"screen 1,5",
    b"screen -",
    b"reports -",
    b"cap -",
    b"changes 0 -",
    b"changes -0 1",
    // Hexadecimal digits come in pairs.
    b"replace 0 abc",
    b"replace 0 a",
    b"replace 0 4g",
    b"replace 0 0x4a",
    b"replace 0 --",
];

fn fault_of(alloc: Global, line: &[u8]) -> Option<LineFault> {
    read_line(alloc, line).err()
}

#[test]
fn lines_of_no_form(rt: HostRuntime) {
    for line in NO_FORMS {
        assert_eq!(rt;
            fault_of(rt.alloc(), line),
            Some(LineFault::BadLine),
            "of {line:?}"
        );
    }
}
