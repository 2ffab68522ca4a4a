//! What to do about a fault: the line that follows it on standard error.

ghost use Rattle.std.specs.Prelude.{◌≡◌};
ghost use Rattle.program.specs.Hints.{device_of, hint_after, hint_at_end, hint_of_form, hint_of_mend, hint_of_pair, is_of_line_one};

use command_line::Job;
use job_files::{Beginning, Beginnings, cleaned};
use std::alloc::{AllocError, Global};
use std::io::ErrorKind;
use std::{fmt, io};
use tape_core::Fault;
use tape_jobs::JobFault;

/// What a job reads or writes.
#[derive(Clone, Copy, Debug, PartialEq, Eq)]
pub enum Device {
    /// The file at this place of the command line's paths.
    File(usize),
    /// Standard input.
    Input,
    /// Standard output.
    Output,
}

/// What to do about a fault, or more about it.
#[derive(Clone, Copy, Debug)]
pub enum Hint {
    /// The timing file begins as a typescript does.
    Swapped,
    /// The typescript is empty.
    EmptyScript,
    /// It has no header line.
    Headless,
    /// The timing file is in the multi-stream format.
    Streams,
    /// Mending keeps what can be read.
    Mendable,
    /// The recording is compressed, or a file of the pair.
    Compressed,
    /// The recording is a typescript, of which the timing is missing.
    Untimed,
    /// Which forms a recording may have.
    Forms,
    /// The same, or the text that is looked for was left out.
    FormsOrText,
    /// Importing keeps what can be read.
    Importable,
    /// This wasn't read.
    Reading(Device),
    /// This wasn't written.
    Writing(Device),
    /// The new files of `save`, of a cut or an excerpt stay.
    Stay,
    /// How seconds are written.
    Seconds,
    /// Why a file wasn't opened or created.
    Reason(io::Error),
}

/// The hint behind a job, where `failed` is the device that has failed, if one has, and `doubtful` says of a pair that was
/// mended that a file may be another one than it is taken for.
pub fn hint_at_end(
    job: Job,
    fault: Option<JobFault>,
    beginnings: Beginnings,
    failed: Option<Device>,
    doubtful: bool,
) -> Option<Hint>
    ensures { result ≡ hint_at_end job fault beginnings failed doubtful }
{
    match (fault, job) {
        (Some(fault), _) => hint_after(job, fault, beginnings, failed),
        (None, Job::Mend { .. }) => hint_of_mend(beginnings, doubtful),
        (None, _) => None,
    }
}

/// The first device of a list that has failed.
pub fn first_failed(devices: &[(bool, Device)]) -> Option<Device> {
    devices
        .iter()
        .find(|device| device.0)
        .map(|device| device.1)
}

/// The hint after the fault of this job, where `failed` is the device that has failed, if one has.
fn hint_after(
    job: Job,
    fault: JobFault,
    beginnings: Beginnings,
    failed: Option<Device>,
) -> Option<Hint>
    ensures { result ≡ hint_after job fault beginnings failed }
{
    match fault {
        JobFault::File(Fault::ReadFault) => failed.map(Hint::Reading),
        JobFault::File(Fault::WriteFault) => failed.map(Hint::Writing),
        JobFault::File(Fault::OutOfMemory) | JobFault::Memory => None,
        JobFault::File(fault) => Some(hint_of_pair(fault, beginnings)),
        JobFault::Compressed => Some(Hint::Compressed),
        JobFault::NoKnownForm => Some(hint_of_form(job, beginnings.script)),
        JobFault::Refused(_) => Some(Hint::Importable),
        JobFault::Line { .. } | JobFault::Edit { .. } => Some(Hint::Stay),
    }
}

/// The hint after a fault of the pair of files.
fn hint_of_pair(fault: Fault, beginnings: Beginnings) -> Hint
    ensures { result ≡ hint_of_pair fault beginnings }
{
    match fault {
        Fault::NoHeader if beginnings.script.is_empty() => Hint::EmptyScript,
        Fault::NoHeader => Hint::Headless,
        _ if beginnings.timing.is_compressed() => Hint::Compressed,
        _ if is_of_line_one(fault) && beginnings.timing.is_typescript() => Hint::Swapped,
        Fault::MultiStream(_) if beginnings.timing.is_streams() => Hint::Streams,
        _ => Hint::Mendable,
    }
}

/// The hint where a recording has no form that is known: the one path of a search may be the timing file of a pair.
fn hint_of_form(job: Job, recording: Beginning) -> Hint
    ensures { result ≡ hint_of_form job recording }
{
    match job {
        _ if recording.is_started() => Hint::Untimed,
        Job::Find { .. } => Hint::FormsOrText,
        _ => Hint::Forms,
    }
}

/// Whether it is a fault of the timing's first line.
fn is_of_line_one(fault: Fault) -> bool
    ensures { result ≡ is_of_line_one fault }
{
    match fault {
        Fault::BadDelay(line)
        | Fault::BadCount(line)
        | Fault::MultiStream(line)
        | Fault::DelayTooLarge(line)
        | Fault::ChunkTooLong(line)
        | Fault::TooManyChunks(line)
        | Fault::TooManyBytes(line) => line == 1,
        Fault::NoHeader
        | Fault::ScriptShort(_)
        | Fault::OutOfMemory
        | Fault::ReadFault
        | Fault::WriteFault => false,
    }
}

/// The hint where a pair of files was mended: a timing that begins as a typescript is told to be a bad stream.
fn hint_of_mend(beginnings: Beginnings, doubtful: bool) -> Option<Hint>
    ensures { result ≡ hint_of_mend beginnings doubtful }
{
    let compressed = beginnings.timing.is_compressed() || beginnings.script.is_compressed();
    if doubtful && compressed {
        Some(Hint::Compressed)
    } else if beginnings.timing.is_typescript() {
        Some(Hint::Swapped)
    } else {
        None
    }
}

impl Hint {
    /// What wasn't read or written, where that is told.
    fn device(self) -> Option<Device>
        ensures { result ≡ device_of self }
    {
        match self {
            Hint::Reading(device) | Hint::Writing(device) => Some(device),
            _ => None,
        }
    }
}

impl fmt::Display for Hint {
    fn fmt<W: fmt::Write>(&self, f: &mut fmt::Formatter<W>) -> fmt::Result {
        let text = match self {
            Hint::Swapped => "the timing file comes second: SCRIPT TIMING",
            Hint::EmptyScript => "the typescript is empty: was a save interrupted?",
            Hint::Headless => "typetool mend --headless takes a typescript without its header line",
            Hint::Streams => "typetool mend writes this in the classic format",
            Hint::Mendable => "typetool mend keeps what can be read",
            Hint::Compressed => "gunzip, bunzip2, unxz or unzstd it first",
            Hint::Untimed => "a typescript needs its timing file: SCRIPT TIMING",
            Hint::Forms => "asciicast, ttyrec and tlog are read",
            Hint::FormsOrText => "asciicast, ttyrec and tlog are read (or TEXT is missing)",
            Hint::Importable => "typetool import writes what can be read",
            Hint::Reading(_) => "reading",
            Hint::Writing(_) => "writing",
            Hint::Stay => "NEWSCRIPT and NEWTIMING stay, empty: remove them before you try again",
            Hint::Seconds => "SECONDS is digits, and a point and digits where wanted: 12.5",
            Hint::Reason(error) => return write_reason(error, f),
        };
        f.write_str(text)
    }
}

/// Writes why a file wasn't opened or created.
fn write_reason<W: fmt::Write>(error: &io::Error, f: &mut fmt::Formatter<W>) -> fmt::Result {
    match error.kind() {
        ErrorKind::NotFound => f.write_str("no such file or directory"),
        ErrorKind::PermissionDenied => f.write_str("permission denied"),
        ErrorKind::AlreadyExists => f.write_str("it exists already"),
        ErrorKind::IsADirectory => f.write_str("it is a directory"),
        _ => write!(f, "{error}"),
    }
}

/// Tells a hint, in which a file is told by its path as it may be told. Where memory is refused to that nothing is told.
pub fn tell_hint<R: Eprint + AllocGlobal>(rt: &R, hint: Hint, paths: &[String]) {
    let Some(device) = hint.device() else {
        let _ = rt.eprintln(format_args!("typetool: hint: {hint}"));
        return;
    };
    if let Ok(name) = name_of(rt.alloc(), device, paths) {
        let _ = rt.eprintln(format_args!("typetool: hint: {hint} {name}"));
    }
}

/// By what a device is told.
fn name_of(alloc: Global, device: Device, paths: &[String]) -> Result<String, AllocError> {
    match device {
        Device::Input => String::from_str(alloc, "standard input"),
        Device::Output => String::from_str(alloc, "standard output"),
        Device::File(place) => match paths.get(place) {
            Some(path) => cleaned(alloc, path.as_str()),
            None => Ok(String::new(alloc)),
        },
    }
}
