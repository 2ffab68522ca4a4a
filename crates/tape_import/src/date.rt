//! The date that a header tells.
ghost use Rattle.std.specs.Prelude.{◌≡◌, ◌≤◌, ◌<◌, ◌++◌, IfOk, IfSome, OnOk, pos};
ghost use Rattle.jiff.specs.Words.{epoch_day};
ghost use Rattle.tape_import.specs.Dates.{IsDateText, TellsDate, clock_text, dated, last_second, two_digits};

use jiff::ToSpan;
use jiff::civil::{Date, date};
use std::alloc::{AllocError, Global};

/// The seconds of a day.
const DAY: u64 = 86_400;

/// The first second that is told: a day behind the beginning of 1970, from which all seconds are counted.
const FIRST_SECOND: u64 = 86_400;

/// The last one, at the end of the year 9999.
const LAST_SECOND: u64 = 253_402_300_799;

/// A second, where it is one of those that are told.
pub fn dated(second: u64) -> Option<u64>
    ensures second { result ≡ dated second }
    ensures last { IfSome result (λ s. s ≤ last_second) }
{
    if (FIRST_SECOND..=LAST_SECOND).contains(&second) {
        Some(second)
    } else {
        None
    }
}

/// The date so many days behind 1970-01-01.
fn date_after(days: u64) -> Date
    requires { days ≤ 2_932_896 }
    ensures { epoch_day result ≡ pos days }
{
    match date(1970, 1, 1).checked_add((days as i64).days()) {
        Ok(date) => date,
        Err(_) => unreachable!(),
    }
}

/// Adds a number below 100 in two digits.
fn push_two(text: &mut Vec<u8>, n: u64) -> Result<(), AllocError>
    requires { n < 100 }
    ensures { OnOk result (text.new.items ≡ text.old.items ++ two_digits n) }
{
    text.extend_from_slice(&[b'0' + (n / 10) as u8, b'0' + (n % 10) as u8])
}

/// Adds the time of day.
fn push_clock(text: &mut Vec<u8>, second: u64) -> Result<(), AllocError>
    requires { second < DAY }
    ensures { OnOk result (text.new.items ≡ text.old.items ++ clock_text second) }
{
    push_two(text, second / 3600)?;
    text.push(b':')?;
    push_two(text, second / 60 % 60)?;
    text.push(b':')?;
    push_two(text, second % 60)
}

/// The date and the time of day of a second.
fn second_text(alloc: Global, second: u64) -> Result<Vec<u8>, AllocError>
    requires { second ≤ last_second }
    ensures { IfOk result (λ text. IsDateText second text.items) }
{
    let day = date_after(second / DAY).to_string(alloc)?;
    let mut text = Vec::new(alloc);
    text.extend_from_slice(day.as_bytes())?;
    text.push(b' ')?;
    push_clock(&mut text, second % DAY)?;
    text.extend_from_slice(b"+00:00")?;
    Ok(text)
}

/// The date of a second, or that it isn't known.
pub fn date_text(alloc: Global, second: Option<u64>) -> Result<Vec<u8>, AllocError>
    requires { IfSome second (λ s. s ≤ last_second) }
    ensures { IfOk result (λ text. TellsDate second text.items) }
{
    match second {
        Some(second) => second_text(alloc, second),
        None => {
            let mut text = Vec::new(alloc);
            text.extend_from_slice(b"unknown")?;
            Ok(text)
        }
    }
}
