//! The command line, read by clap.

ghost use Rattle.std.specs.Prelude.{◌≡◌, ◌≢◌, ◌≤◌, [], Some, None, Ok, map, vec_len, IfSome, IfOk, IfErr, OnOk, string_bytes};
ghost use Rattle.clap.specs.Words.{found_of, rows_of, subcommand_name_of, subcommand_rows_of};
ghost use Rattle.command_line.specs.CommandLine.{FailsFor, IsNamed, clap_faults, fault_of_unread, subcommand_in, typetool_app, name_in, meaning_of_words, meaning_read, path_count};

mod command;
mod help;
mod table;
mod values;

use crate::job::Job;
use crate::player::Source;
use clap::error::ErrorKind;
use clap::{ArgMatches, Error};
use command::typetool_command;
pub use help::VERSION;
use std::alloc::{AllocError, Global};
use table::{Subcommand, name_of, subcommands};
use thiserror::Error as ThisError;
pub use values::USUAL_EVERY;
use values::{Unreadable, read_job, read_paths, read_source, read_text};

/// A command line that was read: the job, the characters of the text beside it, which but for `find`, `redact` and `page`
/// has none, where the recording stands, and the paths in the line's order, of which that of a timing file is empty where a
/// recording stands alone.
#[derive(Debug, Drop)]
pub struct Words {
    pub job: Job,
    pub text: Vec<char>,
    pub source: Source,
    pub paths: Vec<String>,
}

/// Why a command line isn't a job.
#[derive(Debug, Drop, ThisError)]
pub enum WordsFault {
    /// clap doesn't take the words, or they ask for help: its text is for the user.
    #[error("{0}")]
    Clap(Error),
    /// A growth was refused.
    #[error("out of memory")]
    Memory,
    /// A number of seconds isn't readable.
    #[error("bad seconds")]
    BadSeconds,
    /// The number of chunks between stored terminals isn't one in digits alone, or is out of its range.
    #[error("bad number of chunks: 1 to 1000000")]
    BadEvery,
    /// There is no such profile.
    #[error("bad profile: vt100, vt102, xterm or auto")]
    BadProfile,
    /// The size isn't one, or it is past the limits, or given to a VT.
    #[error("bad size: 2x1 to 1000x500, with --profile xterm")]
    BadSize,
    /// The text that is looked for has spaces alone, or a control character.
    #[error("bad text")]
    BadText,
    /// Both flags are given that say which header mending takes.
    #[error("--last and --headless exclude each other")]
    BothHeaders,
    /// Both flags are given that ask for a text of a screen.
    #[error("--state and --escaped exclude each other")]
    BothPrints,
}

impl From<AllocError> for WordsFault {
    ghost use Rattle.std.specs.Prelude.{◌≡◌};
    ghost use Rattle.command_line.specs.declared.words.WordsFault.TheVariants.{Memory};

    ghost from_gives = { λ _ fault. fault ≡ Memory };

    fn from(_refused: AllocError) -> WordsFault {
        WordsFault::Memory
    }
}

/// Reads a command line, of which the first word is the program's name.
pub fn read_words(alloc: Global, words: &[String]) -> Result<Words, WordsFault>
    ensures taken { OnOk result (clap_faults (map string_bytes words.now) ≡ []) }
    ensures meaning { IfOk result (λ read.
        meaning_of_words (map string_bytes words.now) ≡ Some (Ok (meaning_read read))) }
    ensures paths { IfOk result (λ read. path_count read.job ≤ vec_len read.paths) }
    ensures fault { IfErr result (FailsFor (map string_bytes words.now)) }
{
    let matches = parse(alloc, words)?;
    let (subcommand, values) = subcommand_of(&matches);
    match read_job(subcommand, values) {
        Ok(job) => {
            let text = read_text(alloc, subcommand, values)?;
            let paths = read_paths(alloc, subcommand, values)?;
            let source = read_source(values);
            Ok(Words {
                job,
                text,
                source,
                paths,
            })
        }
        Err(unread) => Err(fault_of_unread(unread)),
    }
}

/// Why words that clap takes aren't a job.
fn fault_of_unread(unread: Unreadable) -> WordsFault
    ensures { result ≡ fault_of_unread unread }
{
    match unread {
        Unreadable::Seconds => WordsFault::BadSeconds,
        Unreadable::Every => WordsFault::BadEvery,
        Unreadable::Profile => WordsFault::BadProfile,
        Unreadable::Size => WordsFault::BadSize,
        Unreadable::Text => WordsFault::BadText,
        Unreadable::Headers => WordsFault::BothHeaders,
        Unreadable::Prints => WordsFault::BothPrints,
    }
}

/// Has clap read the words.
fn parse<'a>(alloc: Global, words: &'a [String]) -> Result<ArgMatches<'a>, WordsFault>
    ensures taken { OnOk result (clap_faults (map string_bytes words.entry.now) ≡ []) }
    ensures met { IfOk result (λ matches.
        subcommand_rows_of matches ≡ subcommand_in (map string_bytes words.entry.now)) }
    ensures named { IfOk result (λ matches.
        IsNamed (subcommand_name_of matches) typetool_app.subs) }
    ensures fault { IfErr result (FailsFor (map string_bytes words.entry.now)) }
    ensures seconds { IfErr result (λ fault. fault ≢ WordsFault.BadSeconds) }
{
    let command = typetool_command(alloc)?;
    match command.try_get_matches_from(words) {
        Ok(matches) => Ok(matches),
        Err(error) => match error.kind() {
            ErrorKind::OutOfMemory => Err(WordsFault::Memory),
            _ => Err(WordsFault::Clap(error)),
        },
    }
}

/// Which subcommand was given, and its values.
fn subcommand_of<'m, 'a>(matches: &'m ArgMatches<'a>) -> (Subcommand, &'m ArgMatches<'a>)
    requires { IsNamed (subcommand_name_of matches.now) typetool_app.subs }
    ensures { subcommand_rows_of matches.entry.now
        ≡ Some (name_in result.0, rows_of (found_of result.1.now)) }
{
    let all = subcommands();
    for subcommand in &all {
        if let Some(values) = values_under(matches, *subcommand) {
            return (*subcommand, values);
        }
    }
    unreachable!()
}

/// The values of this subcommand, if it was given.
fn values_under<'m, 'a>(
    matches: &'m ArgMatches<'a>,
    subcommand: Subcommand,
) -> Option<&'m ArgMatches<'a>>
    ensures given { IfSome result (λ values. subcommand_rows_of matches.entry.now
        ≡ Some (name_in subcommand, rows_of (found_of values.now))) }
    ensures other { result ≡ None
        → subcommand_name_of matches.entry.now ≢ Some (name_in subcommand) }
{
    matches.subcommand_matches(name_of(subcommand))
}
