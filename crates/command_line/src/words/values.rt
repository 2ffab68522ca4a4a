//! The job and the paths that a subcommand's values mean.

ghost use Rattle.std.specs.Prelude.{◌≡◌, ◌==◌, ◌<◌, IfOk, chars, not, map, position, string_bytes, vec_len, length};
ghost use Rattle.std.specs.Option.{option_map};
ghost use Rattle.std.specs.Char.{is_control};
ghost use Rattle.std.specs.List.{list_all, list_any};
ghost use Rattle.clap.specs.Words.{first_of, found_of, rows_of};
ghost use Rattle.command_line.specs.CommandLine.{every_allowed, every_in, every_of, header_in, id_in, is_auto, is_searchable, is_secret, is_today, job_in, player_in, print_by, source_in, unnamed_player, size_cut, size_if, size_named, vt_if, moment_in, moment_given_in, moment_or_first_in, moment_or_last_in, paths_in, profile_named, stem_of, switch_in, text_in, title_in, value_in};
ghost use Rattle.command_line.specs.declared.words.table.Subcommand.TheVariants.{Excerpt as excerpt, Find as find, Redact as redact, Screen as screen, Transcript as transcript};

use super::table::{Argument, Subcommand, id_of, paths_of};
use crate::job::Job;
use crate::player::{Measure, Player, Print, Source, is_size};
use clap::ArgMatches;
use std::alloc::{AllocError, Global};
use std::path::Path;
use tape_core::limits::LAST_MOMENT;
use tape_core::read_seconds;
use tape_core::text::read_number;
use tape_mend::Header;
use tape_seek::{LEAST_EVERY, MOST_EVERY};
use vt_term::Profile;

/// How many chunks lie between the terminals that a session stores, where the command line doesn't say.
pub const USUAL_EVERY: usize = 100;

/// What of a command line isn't readable, where clap takes the words.
#[derive(Clone, Copy, Debug, PartialEq, Eq)]
pub enum Unreadable {
    /// A number of seconds.
    Seconds,
    /// How many chunks lie between stored terminals.
    Every,
    /// Which terminal plays.
    Profile,
    /// The size of the terminal of today.
    Size,
    /// The text that is looked for.
    Text,
    /// Which header mending takes: both flags that say it are given.
    Headers,
    /// How a screen is printed: both flags that ask for a text are given.
    Prints,
}

/// The job that a subcommand's values mean.
#[tactic(auto, unfolding(crate::specs::CommandLine::job_in))]
pub fn read_job(subcommand: Subcommand, values: &ArgMatches<'_>) -> Result<Job, Unreadable>
    ensures { result ≡ job_in subcommand (rows_of (found_of values.now)) }
{
    match subcommand {
        Subcommand::Due => Ok(Job::Due {
            at: read_moment(values, Argument::At)?,
        }),
        Subcommand::Info => Ok(Job::Info),
        Subcommand::Check => Ok(Job::Check {
            player: read_player(values)?,
        }),
        Subcommand::Screen => read_screen(values),
        Subcommand::Picture => Ok(Job::Picture {
            at: read_moment(values, Argument::At)?,
            player: read_player(values)?,
        }),
        Subcommand::Transcript => read_transcript(values),
        Subcommand::Changes => Ok(Job::Changes {
            from: read_moment_given(values, Argument::From)?,
            to: read_moment(values, Argument::To)?,
            player: read_player(values)?,
        }),
        Subcommand::Find => read_find(values),
        Subcommand::Reports => Ok(Job::Reports {
            at: read_moment(values, Argument::At)?,
            player: read_player(values)?,
        }),
        Subcommand::Page => Ok(Job::Page {
            player: read_player(values)?,
        }),
        Subcommand::Cast => Ok(Job::Cast {
            player: read_player(values)?,
        }),
        Subcommand::Save => Ok(Job::Save),
        Subcommand::Cut => Ok(Job::Cut {
            from: read_moment(values, Argument::CutFrom)?,
            to: read_moment(values, Argument::CutTo)?,
            player: read_player(values)?,
        }),
        Subcommand::Excerpt => read_excerpt(values),
        Subcommand::Mend => Ok(Job::Mend {
            header: read_header(values)?,
        }),
        Subcommand::Import => Ok(Job::Import),
        Subcommand::Redact => read_redact(values),
        Subcommand::Session => Ok(Job::Session {
            every: read_every(values)?,
            player: read_player(values)?,
        }),
    }
}

/// The moment that a flag gives, in microseconds.
fn read_moment(values: &ArgMatches<'_>, flag: Argument) -> Result<u64, Unreadable>
    ensures { result ≡ moment_in (id_in flag) (rows_of (found_of values.now)) }
{
    let text = value_text(values, flag);
    read_seconds(text.as_bytes()).ok_or(Unreadable::Seconds)
}

/// The moment that a flag gives, in microseconds, where it is given.
fn read_moment_given(values: &ArgMatches<'_>, flag: Argument) -> Result<Option<u64>, Unreadable>
    ensures { result ≡ moment_given_in (id_in flag) (rows_of (found_of values.now)) }
{
    let Some(text) = value_given(values, flag) else {
        return Ok(None);
    };
    let moment = read_seconds(text.as_bytes()).ok_or(Unreadable::Seconds)?;
    Ok(Some(moment))
}

/// The moment that a flag gives, in microseconds, and the last moment there is, where it isn't given.
fn read_moment_or_last(values: &ArgMatches<'_>, flag: Argument) -> Result<u64, Unreadable>
    ensures { result ≡ moment_or_last_in (id_in flag) (rows_of (found_of values.now)) }
{
    let given = read_moment_given(values, flag)?;
    Ok(given.unwrap_or(LAST_MOMENT))
}

/// The moment that a flag gives, in microseconds, and the first moment there is, where it isn't given.
fn read_moment_or_first(values: &ArgMatches<'_>, flag: Argument) -> Result<u64, Unreadable>
    ensures { result ≡ moment_or_first_in (id_in flag) (rows_of (found_of values.now)) }
{
    let given = read_moment_given(values, flag)?;
    Ok(given.unwrap_or(0))
}

/// The job `screen` that the values mean.
#[tactic(auto, unfolding(crate::specs::CommandLine::job_in))]
fn read_screen(values: &ArgMatches<'_>) -> Result<Job, Unreadable>
    ensures { result ≡ job_in screen (rows_of (found_of values.now)) }
{
    let at = read_moment(values, Argument::At)?;
    let player = read_player(values)?;
    let escaped = is_given(values, Argument::Escaped);
    let print = print_by(escaped, is_given(values, Argument::State), player)?;
    Ok(Job::Screen { at, print })
}

/// The job `transcript` that the values mean.
#[tactic(auto, unfolding(crate::specs::CommandLine::job_in))]
fn read_transcript(values: &ArgMatches<'_>) -> Result<Job, Unreadable>
    ensures { result ≡ job_in transcript (rows_of (found_of values.now)) }
{
    let start = read_moment_given(values, Argument::From)?;
    let end = read_moment_given(values, Argument::Until)?;
    let player = read_player(values)?;
    Ok(Job::Transcript {
        from: start,
        to: end,
        player,
    })
}

/// The job `find` that the values mean.
#[tactic(auto, unfolding(crate::specs::CommandLine::job_in))]
fn read_find(values: &ArgMatches<'_>) -> Result<Job, Unreadable>
    ensures { result ≡ job_in find (rows_of (found_of values.now)) }
{
    let from = read_moment_given(values, Argument::From)?;
    let to = read_moment_or_last(values, Argument::Until)?;
    let player = read_player(values)?;
    if !is_searchable(value_text(values, Argument::Sought)) {
        return Err(Unreadable::Text);
    }
    Ok(Job::Find { from, to, player })
}

/// The job `excerpt` that the values mean.
#[tactic(auto, unfolding(crate::specs::CommandLine::job_in))]
fn read_excerpt(values: &ArgMatches<'_>) -> Result<Job, Unreadable>
    ensures { result ≡ job_in excerpt (rows_of (found_of values.now)) }
{
    let first = read_moment_or_first(values, Argument::KeptFrom)?;
    let last = read_moment_given(values, Argument::KeptTo)?;
    let player = read_player(values)?;
    Ok(Job::Excerpt {
        from: first,
        to: last,
        player,
    })
}

/// The job `redact` that the values mean.
#[tactic(auto, unfolding(crate::specs::CommandLine::job_in))]
fn read_redact(values: &ArgMatches<'_>) -> Result<Job, Unreadable>
    ensures { result ≡ job_in redact (rows_of (found_of values.now)) }
{
    let player = read_player(values)?;
    if !is_secret(value_text(values, Argument::Secret)) {
        return Err(Unreadable::Text);
    }
    Ok(Job::Redact { player })
}

/// Whether a text can be looked for: it has a character other than a space, and no control character.
#[tactic(auto, unfolding(crate::specs::CommandLine::is_searchable))]
fn is_searchable(text: &str) -> bool
    ensures { result ≡ is_searchable (chars text.now) }
{
    has_ink(text) && has_no_control(text)
}

/// Whether a text can be taken out: it can be looked for, and has no `*`.
#[tactic(auto, unfolding(crate::specs::CommandLine::is_secret))]
fn is_secret(text: &str) -> bool
    ensures { result ≡ is_secret (chars text.now) }
{
    is_searchable(text) && !has_star(text)
}

/// Whether one of the characters is `*`.
fn has_star(text: &str) -> bool
    ensures { result ≡ list_any (λ c. c == 42) (chars text.now) }
{
    text.chars().any(|c| c == '*')
}

/// Whether one of the characters isn't a space.
fn has_ink(text: &str) -> bool
    ensures { result ≡ list_any (λ c. not (c == 32)) (chars text.now) }
{
    text.chars().any(|c| c != ' ')
}

/// Whether none of the characters is a control character.
fn has_no_control(text: &str) -> bool
    ensures { result ≡ list_all (λ c. not (is_control c)) (chars text.now) }
{
    text.chars().all(|c| !c.is_control())
}

/// How many chunks are to lie between stored terminals.
fn read_every(values: &ArgMatches<'_>) -> Result<usize, Unreadable>
    ensures { result ≡ every_in (rows_of (found_of values.now)) }
{
    let Some(text) = value_given(values, Argument::Every) else {
        return Ok(USUAL_EVERY);
    };
    every_of(text.as_bytes()).ok_or(Unreadable::Every)
}

/// A number of chunks in digits alone that may lie between stored terminals.
#[tactic(auto, unfolding(crate::specs::CommandLine::every_of))]
fn every_of(text: &[u8]) -> Option<usize>
    ensures { result ≡ every_of text.now }
{
    match read_number(text) {
        None => None,
        Some(number) => every_allowed(number),
    }
}

/// The number, if so many chunks may lie between stored terminals.
fn every_allowed(number: u64) -> Option<usize>
    ensures { result ≡ every_allowed number }
{
    if number < LEAST_EVERY as u64 || number > MOST_EVERY as u64 {
        None
    } else {
        Some(number as usize)
    }
}

/// Whether a name is that of the terminal of today.
#[tactic(auto, unfolding(crate::specs::CommandLine::is_today))]
fn is_today(name: &str) -> bool
    ensures { result ≡ is_today name.now }
{
    name == "xterm"
}

/// Whether the header is to say which terminal plays.
#[tactic(auto, unfolding(crate::specs::CommandLine::is_auto))]
fn is_auto(name: &str) -> bool
    ensures { result ≡ is_auto name.now }
{
    name == "auto"
}

/// Which terminal is to play, of any.
fn read_player(values: &ArgMatches<'_>) -> Result<Player, Unreadable>
    ensures { result ≡ player_in (rows_of (found_of values.now)) }
{
    let size = value_given(values, Argument::Size);
    let Some(name) = value_given(values, Argument::Profile) else {
        return unnamed_player(read_source(values), size);
    };
    if is_today(name) {
        return Ok(Player::Today(size_if(size)?));
    }
    if is_auto(name) {
        return Ok(Player::Auto(size_if(size)?));
    }
    match profile_named(name) {
        Some(profile) => vt_if(size, profile),
        None => Err(Unreadable::Profile),
    }
}

/// Where the recording stands: in a pair, where a timing file is given.
pub fn read_source(values: &ArgMatches<'_>) -> Source
    ensures { result ≡ source_in (rows_of (found_of values.now)) }
{
    match value_given(values, Argument::ItsTiming) {
        Some(_) => Source::Pair,
        None => Source::Recording,
    }
}

/// Which terminal plays where none is named: a VT100 a pair, and one of today a recording of another form.
fn unnamed_player(source: Source, size: Option<&str>) -> Result<Player, Unreadable>
    ensures { result ≡ unnamed_player source (option_map (λ text. text.now) size.entry) }
{
    match source {
        Source::Pair => vt_if(size, Profile::Vt100),
        Source::Recording => Ok(Player::Today(size_if(size)?)),
    }
}

/// A VT, which takes no size.
fn vt_if(size: Option<&str>, profile: Profile) -> Result<Player, Unreadable>
    ensures { result ≡ vt_if (option_map (λ text. text.now) size.entry) profile }
{
    match size {
        None => Ok(Player::Vt(profile)),
        Some(_) => Err(Unreadable::Size),
    }
}

/// The size that is asked for, if one is.
fn size_if(size: Option<&str>) -> Result<Option<Measure>, Unreadable>
    ensures { result ≡ size_if (option_map (λ text. text.now) size.entry) }
{
    let Some(text) = size else {
        return Ok(None);
    };
    match size_named(text.as_bytes()) {
        Some(size) => Ok(Some(size)),
        None => Err(Unreadable::Size),
    }
}

/// A size as it is written: columns, `x`, lines.
#[tactic(auto, unfolding(crate::specs::CommandLine::size_named))]
fn size_named(text: &[u8]) -> Option<Measure>
    ensures { result ≡ size_named text.now }
{
    match cross_in(text) {
        None => None,
        Some(cross) => size_cut(text, cross),
    }
}

/// Where the first `x` stands.
fn cross_in(text: &[u8]) -> Option<usize>
    ensures { result ≡ position (λ byte. byte == 120) text.now }
{
    text.iter().position(|byte| *byte == b'x')
}

/// The size that is cut there.
fn size_cut(text: &[u8], cross: usize) -> Option<Measure>
    requires { cross < length text.now }
    ensures { result ≡ size_cut text.now cross }
{
    let columns = read_number(&text[..cross])?;
    let lines = read_number(&text[cross + 1..])?;
    let size = Measure { columns, lines };
    if is_size(size) { Some(size) } else { None }
}

/// How a screen is printed.
fn print_by(escaped: bool, state: bool, player: Player) -> Result<Print, Unreadable>
    ensures { result ≡ print_by escaped state player }
{
    match (escaped, state) {
        (false, false) => Ok(Print::Plain(player)),
        (true, false) => Ok(Print::Escaped(player)),
        (false, true) => Ok(Print::State(player)),
        (true, true) => Err(Unreadable::Prints),
    }
}

/// The profile of this name.
#[tactic(auto, unfolding(crate::specs::CommandLine::profile_named))]
fn profile_named(name: &str) -> Option<Profile>
    ensures { result ≡ profile_named name.now }
{
    if name == "vt100" {
        Some(Profile::Vt100)
    } else if name == "vt102" {
        Some(Profile::Vt102)
    } else {
        None
    }
}

/// Which line mending is to take as the header.
fn read_header(values: &ArgMatches<'_>) -> Result<Header, Unreadable>
    ensures { result ≡ header_in (rows_of (found_of values.now)) }
{
    let last = is_given(values, Argument::Last);
    let headless = is_given(values, Argument::Headless);
    match (last, headless) {
        (false, false) => Ok(Header::Kept),
        (true, false) => Ok(Header::Last),
        (false, true) => Ok(Header::Made),
        (true, true) => Err(Unreadable::Headers),
    }
}

/// Whether a flag without a value is given.
fn is_given(values: &ArgMatches<'_>, flag: Argument) -> bool
    ensures { result ≡ switch_in (id_in flag) (rows_of (found_of values.now)) }
{
    value_text(values, flag) == "true"
}

/// The characters of the text beside a job: what `find` looks for, what `redact` takes out, the title of a page, and none
/// for the others.
#[tactic(auto, unfolding(crate::specs::CommandLine::text_in))]
pub fn read_text(
    alloc: Global,
    subcommand: Subcommand,
    values: &ArgMatches<'_>,
) -> Result<Vec<char>, AllocError>
    ensures { IfOk result (λ text. text.items
        ≡ text_in subcommand (rows_of (found_of values.now))) }
{
    match subcommand {
        Subcommand::Find => value_text(values, Argument::Sought).chars().collect(alloc),
        Subcommand::Redact => value_text(values, Argument::Secret).chars().collect(alloc),
        Subcommand::Page => title_of(values).chars().collect(alloc),
        _ => Ok(Vec::new(alloc)),
    }
}

/// The title of a page: the one that is given, or else the name of the script.
fn title_of<'a>(values: &ArgMatches<'a>) -> &'a str
    ensures { result.now ≡ title_in (rows_of (found_of values.now)) }
{
    match value_given(values, Argument::Title) {
        Some(title) => title,
        None => stem_of(value_text(values, Argument::Recorded)),
    }
}

/// The name of a file without its ending.
#[tactic(auto, unfolding(crate::specs::CommandLine::stem_of))]
fn stem_of(path: &str) -> &str
    ensures { result.now ≡ stem_of path.now }
{
    Path::new(path).file_stem().unwrap_or("")
}

/// The paths of a subcommand, in the line's order.
pub fn read_paths(
    alloc: Global,
    subcommand: Subcommand,
    values: &ArgMatches<'_>,
) -> Result<Vec<String>, AllocError>
    ensures paths { IfOk result (λ paths. map string_bytes paths.items
        ≡ map (λ a. value_in (id_in a) (rows_of (found_of values.now))) (paths_in subcommand)) }
    ensures len { IfOk result (λ paths. vec_len paths ≡ length (paths_in subcommand)) }
{
    let mut paths = Vec::new(alloc);
    for argument in paths_of(subcommand) {
        let path = String::from_str(alloc, value_text(values, *argument))?;
        paths.push(path)?;
    }
    Ok(paths)
}

/// The value of an argument that must be given.
fn value_text<'a>(values: &ArgMatches<'a>, argument: Argument) -> &'a str
    ensures { result.now ≡ value_in (id_in argument) (rows_of (found_of values.now)) }
{
    value_given(values, argument).unwrap_or("")
}

/// The value of an argument, where it is given.
fn value_given<'a>(values: &ArgMatches<'a>, argument: Argument) -> Option<&'a str>
    ensures { option_map (λ text. text.now) result
        ≡ first_of (id_in argument) (rows_of (found_of values.now)) }
{
    values.get_str(id_of(argument))
}
