//! The table of subcommands: their names, flags and paths, and what help tells of them.

ghost use Rattle.std.specs.Prelude.{◌≡◌};
ghost use Rattle.command_line.specs.CommandLine.{flags_in, id_in, name_in, paths_in, subcommands_in_order, texts_in};

/// The subcommands.
#[derive(Clone, Copy, Debug, PartialEq, Eq)]
pub enum Subcommand {
    Due,
    Info,
    Check,
    Screen,
    Picture,
    Transcript,
    Changes,
    Find,
    Reports,
    Page,
    Cast,
    Save,
    Cut,
    Excerpt,
    Mend,
    Import,
    Redact,
    Session,
}

/// The arguments of subcommands: flags and paths.
#[derive(Clone, Copy, Debug, PartialEq, Eq)]
pub enum Argument {
    /// A moment.
    At,
    /// The moment after which chunks are asked for.
    From,
    /// The moment by which they are, where it must be given.
    To,
    /// The moment by which they are, where it may be left out.
    Until,
    /// The moment after which chunks are cut out.
    CutFrom,
    /// The moment by which they are.
    CutTo,
    /// The moment after which chunks are kept, where it may be left out.
    KeptFrom,
    /// The moment by which they are, where it may be left out.
    KeptTo,
    /// How many chunks lie between stored terminals.
    Every,
    /// Which terminal plays.
    Profile,
    /// The size of the terminal of today.
    Size,
    /// A text that draws the screen again is asked for.
    Escaped,
    /// A text that makes any terminal what it was is asked for.
    State,
    /// The last session of the typescript is asked for.
    Last,
    /// The typescript has no header.
    Headless,
    /// The title of a page.
    Title,
    /// The text that is looked for.
    Sought,
    /// The text that is taken out.
    Secret,
    /// The typescript.
    Script,
    /// Its timing file, in the classic format.
    Timing,
    /// Its timing file, in either format.
    AnyTiming,
    /// A recording of another form.
    Recording,
    /// The typescript, or alone a recording of another form.
    Recorded,
    /// The typescript's timing file, where a recording doesn't stand alone.
    ItsTiming,
    /// The typescript that is to be written.
    NewScript,
    /// The timing file that is to be written.
    NewTiming,
}

/// The subcommands, in the order in which help tells them.
pub fn subcommands() -> [Subcommand; 18]
    ensures { result ≡ subcommands_in_order }
{
    [
        Subcommand::Due,
        Subcommand::Info,
        Subcommand::Check,
        Subcommand::Screen,
        Subcommand::Picture,
        Subcommand::Transcript,
        Subcommand::Changes,
        Subcommand::Find,
        Subcommand::Reports,
        Subcommand::Page,
        Subcommand::Cast,
        Subcommand::Save,
        Subcommand::Cut,
        Subcommand::Excerpt,
        Subcommand::Mend,
        Subcommand::Import,
        Subcommand::Redact,
        Subcommand::Session,
    ]
}

/// The name of a subcommand.
#[tactic(auto, unfolding(crate::specs::CommandLine::name_in))]
pub fn name_of<'a>(subcommand: Subcommand) -> &'a str
    ensures { result.now ≡ name_in subcommand }
{
    match subcommand {
        Subcommand::Due => "due",
        Subcommand::Info => "info",
        Subcommand::Check => "check",
        Subcommand::Screen => "screen",
        Subcommand::Picture => "picture",
        Subcommand::Transcript => "transcript",
        Subcommand::Changes => "changes",
        Subcommand::Find => "find",
        Subcommand::Reports => "reports",
        Subcommand::Page => "page",
        Subcommand::Cast => "cast",
        Subcommand::Save => "save",
        Subcommand::Cut => "cut",
        Subcommand::Excerpt => "excerpt",
        Subcommand::Mend => "mend",
        Subcommand::Import => "import",
        Subcommand::Redact => "redact",
        Subcommand::Session => "session",
    }
}

/// The flags of a subcommand.
#[tactic(auto, unfolding(crate::specs::CommandLine::flags_in))]
pub fn flags_of(subcommand: Subcommand) -> &'static [Argument]
    ensures { result.now ≡ flags_in subcommand }
{
    match subcommand {
        Subcommand::Due => &[Argument::At],
        Subcommand::Page => &[Argument::Profile, Argument::Size, Argument::Title],
        Subcommand::Check | Subcommand::Cast | Subcommand::Redact => {
            &[Argument::Profile, Argument::Size]
        }
        Subcommand::Screen => &[
            Argument::At,
            Argument::Escaped,
            Argument::State,
            Argument::Profile,
            Argument::Size,
        ],
        Subcommand::Changes => &[
            Argument::From,
            Argument::To,
            Argument::Profile,
            Argument::Size,
        ],
        Subcommand::Transcript | Subcommand::Find => &[
            Argument::From,
            Argument::Until,
            Argument::Profile,
            Argument::Size,
        ],
        Subcommand::Cut => &[
            Argument::CutFrom,
            Argument::CutTo,
            Argument::Profile,
            Argument::Size,
        ],
        Subcommand::Excerpt => &[
            Argument::KeptFrom,
            Argument::KeptTo,
            Argument::Profile,
            Argument::Size,
        ],
        Subcommand::Picture | Subcommand::Reports => {
            &[Argument::At, Argument::Profile, Argument::Size]
        }
        Subcommand::Mend => &[Argument::Last, Argument::Headless],
        Subcommand::Session => &[Argument::Every, Argument::Profile, Argument::Size],
        Subcommand::Info | Subcommand::Save | Subcommand::Import => &[],
    }
}

/// The texts of a subcommand, which stand before its paths.
#[tactic(auto, unfolding(crate::specs::CommandLine::texts_in))]
pub fn texts_of(subcommand: Subcommand) -> &'static [Argument]
    ensures { result.now ≡ texts_in subcommand }
{
    match subcommand {
        Subcommand::Find => &[Argument::Sought],
        Subcommand::Redact => &[Argument::Secret],
        _ => &[],
    }
}

/// The paths of a subcommand, in the line's order.
#[tactic(auto, unfolding(crate::specs::CommandLine::paths_in))]
pub fn paths_of(subcommand: Subcommand) -> &'static [Argument]
    ensures { result.now ≡ paths_in subcommand }
{
    match subcommand {
        Subcommand::Save | Subcommand::Cut | Subcommand::Excerpt | Subcommand::Redact => &[
            Argument::Script,
            Argument::Timing,
            Argument::NewScript,
            Argument::NewTiming,
        ],
        Subcommand::Mend => &[
            Argument::Script,
            Argument::AnyTiming,
            Argument::NewScript,
            Argument::NewTiming,
        ],
        Subcommand::Import => &[
            Argument::Recording,
            Argument::NewScript,
            Argument::NewTiming,
        ],
        _ => &[Argument::Recorded, Argument::ItsTiming],
    }
}

/// The name of an argument.
#[tactic(auto, unfolding(crate::specs::CommandLine::id_in))]
pub fn id_of<'a>(argument: Argument) -> &'a str
    ensures { result.now ≡ id_in argument }
{
    match argument {
        Argument::At => "at",
        Argument::From | Argument::CutFrom | Argument::KeptFrom => "from",
        Argument::To | Argument::Until | Argument::CutTo | Argument::KeptTo => "to",
        Argument::Every => "every",
        Argument::Profile => "profile",
        Argument::Size => "size",
        Argument::Escaped => "escaped",
        Argument::State => "state",
        Argument::Last => "last",
        Argument::Headless => "headless",
        Argument::Title => "title",
        Argument::Sought | Argument::Secret => "text",
        Argument::Script | Argument::Recorded => "script",
        Argument::Timing | Argument::AnyTiming | Argument::ItsTiming => "timing",
        Argument::Recording => "recording",
        Argument::NewScript => "new-script",
        Argument::NewTiming => "new-timing",
    }
}
