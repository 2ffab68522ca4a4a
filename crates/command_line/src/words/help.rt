//! What help tells of each subcommand and argument.

use super::table::{Argument, Subcommand};

/// The program's version.
pub const VERSION: &str = "0.1.0";

/// What help tells of the whole program after its subcommands: an example, and where more stands.
pub const EXAMPLE: &str = "Example: typetool screen --at 12.5 demo.script demo.timing\n\n\
    The long form: man typetool";

/// What a subcommand does, in one line.
pub fn about_of<'a>(subcommand: Subcommand) -> &'a str {
    match subcommand {
        Subcommand::Due => "Write the raw bytes of all chunks that are due by a moment",
        Subcommand::Info => "Tell how many chunks and bytes the recording has, and how long it is",
        Subcommand::Check =>
            "Tell what the recording says of itself, and what this terminal can't show of it",
        Subcommand::Screen => "Write the screen as it is at a moment, as lines of text",
        Subcommand::Picture => "Draw the screen as it is at a moment, as one SVG file",
        Subcommand::Transcript =>
            "Write the session as text: the lines that left the screen, and those that stand there",
        Subcommand::Changes => "Tell which lines of the screen each chunk changes",
        Subcommand::Find => "Tell when a text came to stand on the screen, and when it went",
        Subcommand::Reports => {
            "Write all that the terminal has answered by a moment, in hexadecimal"
        }
        Subcommand::Page =>
            "Write the whole recording as one HTML file that plays it and seeks in it",
        Subcommand::Cast => "Write the recording as an asciicast, version 2",
        Subcommand::Save =>
            "Make the edits that standard input asks for, and write both files anew",
        Subcommand::Cut => "Leave out what is due between two moments, and write both files anew",
        Subcommand::Excerpt =>
            "Keep only what is due between two moments, and write both files anew",
        Subcommand::Mend =>
            "Write both files anew of all that can be read of them, and tell what was lost",
        Subcommand::Import =>
            "Write a recording of another form as a pair of files, and tell what was lost",
        Subcommand::Redact =>
            "Write both files anew without a text, and tell whether it may still be seen",
        Subcommand::Session => "Answer the requests of standard input, each in turn",
    }
}

/// The requests of `save`, and when its files are written.
const SAVE_DETAILS: &str =
    "One request a line: insert AT SECONDS HEX, delete FROM TO, replace AT HEX, retime AT SECONDS,\n\
    cap SECONDS. AT, FROM and TO count chunks from 0; TO is the first that stays. HEX is the bytes\n\
    as hexadecimal digits, or - for none.\n\n\
    Both new files are created before anything is read, and must not exist. Nothing is written into\n\
    them where a line is refused (status 1; the line's number and its fault are told, and the help of\n\
    session lists the faults).\n\n\
    Example: echo 'cap 2' | typetool save demo.script demo.timing new.script new.timing\n\n\
    The long form: man typetool";

/// What `cut` does, its use, and what it can't do.
const CUT_DETAILS: &str =
    "What is due after --from and by --to is left out. In its place stands, due at --from, a text that makes the\n\
    terminal what it was at --to (as by screen --state), so that the cut doesn't show: before --from the screen\n\
    is as it was, and from --from on as it was from --to on. The other chunks, the first line and what stands\n\
    behind the chunks keep their bytes. Where --to isn't after --from, the same recording is written.\n\n\
    This holds for the terminal and the size that are asked for. What stood on the screen at --to still stands\n\
    in that text, so a secret wants redact (and find). Among the reports those are missing that the bytes left\n\
    out asked for. What is due at 0 can't be left out.\n\n\
    Both new files are created before anything is read, and must not exist. Nothing is written into them where\n\
    there would be too many chunks or bytes (status 1: E4 TooManyChunks or E5 TooManyBytes is told).\n\n\
    Find tells the moments, and a page shows what became of it:\n\n\
    Example: typetool find password: demo.script demo.timing\n\
    Example: typetool cut --from 12.5 --to 60 demo.script demo.timing new.script new.timing\n\
    Example: typetool page new.script new.timing >new.html\n\n\
    The long form: man typetool";

/// What `excerpt` does, its use, and what it can't do.
const EXCERPT_DETAILS: &str =
    "Only what is due after --from and by --to is kept. Before it stands, due at 0, a text that makes the terminal\n\
    what it was at --from (as by screen --state): the new recording shows from its start on what the old one\n\
    showed from --from on, and ends as that was at --to. Kept chunks, the first line and what stands behind the\n\
    chunks keep their bytes.\n\n\
    This holds for the terminal and the size that are asked for. What stood on the screen at --from still stands\n\
    in that text, so a secret wants redact (and find). Among the reports those are missing that the bytes left\n\
    out asked for.\n\n\
    Both new files are created before anything is read, and must not exist. Nothing is written into them where\n\
    there would be too many chunks or bytes (status 1: E4 TooManyChunks or E5 TooManyBytes is told).\n\n\
    Find tells the moments, and a page shows what became of it:\n\n\
    Example: typetool find 'make test' demo.script demo.timing\n\
    Example: typetool excerpt --from 12.5 --to 60 demo.script demo.timing new.script new.timing\n\
    Example: typetool page new.script new.timing >new.html\n\n\
    The long form: man typetool";

/// The requests of `session`, and its status.
const SESSION_DETAILS: &str =
    "One request a line: the edits of save, answered by ok or by refused and why, and\n\
    screen SECONDS (all its lines), reports SECONDS (one line), info (five lines),\n\
    changes SECONDS SECONDS (- as the first: from chunk 0) and log (lines, and then end).\n\
    Questions are answered for the recording as edited so far; no file is changed.\n\n\
    Status 1 where any line was refused. The first of these faults is told:\n\
    E1 NoSuchChunk    a place past the end\n\
    E2 DelayTooLarge  a delay above 1000000 seconds\n\
    E3 ChunkTooLong   more than 1048576 bytes in a chunk\n\
    E4 TooManyChunks  a chunk more than 1000000\n\
    E5 TooManyBytes   more than 1073741824 bytes in all chunks\n\
    E6 BadRange       a range that is empty or goes past the end\n\
    E7 OutOfMemory    memory was refused: told as 'out of memory', with status 3\n\
    E8 BadLine        a line of no known form\n\n\
    Example: printf 'cap 2\\nscreen 12.5\\n' | typetool session demo.script demo.timing\n\n\
    The long form: man typetool";

/// The lines that `check` writes, its status, and what other commands tell of them.
const CHECK_DETAILS: &str =
    "Lines, each only where it applies: when the recording was started, under which terminal and at which\n\
    size; a note for each thing that makes the screen doubtful (another terminal or size, bytes from 128\n\
    on, or with --profile xterm parts that are no UTF-8, a trailer that isn't script's, further sessions\n\
    in it); unplayed N SEQUENCE for each control sequence that this terminal doesn't have, with how often\n\
    it comes; and the advice to try --profile xterm. The status is 0 where nothing is noted or unplayed,\n\
    and else 1. No screen is played.\n\n\
    The commands that play a recording tell the notes on size, terminal and sessions on standard error.\n\n\
    Example: typetool check demo.script demo.timing\n\n\
    The long form: man typetool";

/// What `mend` reads, what it tells, and its status.
const MEND_DETAILS: &str =
    "For recordings that the other commands refuse: a timing file in the multi-stream format (of script's\n\
    -B, -I, or -m advanced) or in sudo's, a typescript that was cut short, appended to (-a) or kept without\n\
    its first line, a timing file that is damaged. Reading ends before the first line with a fault. The new\n\
    pair is in the classic format, and is read without a fault; what stands behind the last byte taken\n\
    becomes its trailer. Input, signals, outputs to pipes and changes of the size have no place in it, and\n\
    are left out.\n\n\
    Both new files are created before anything is read, and must not exist. Then it is told, each only\n\
    where it is so: timing line N: FAULT, K lines left out; N inputs and M signals left out; P outputs to\n\
    pipes and R resizes left out; chunk I cut to B of C bytes; K chunks left out; timing has CR LF (one CR\n\
    at the end of a line isn't read); N bytes behind the last chunk have no timing (unless they are\n\
    script's closing line). Status 1 where a line, a chunk, an output to a pipe or a change of the size was\n\
    left out, a chunk was cut, bytes have no timing, or the typescript has no header line (then nothing is\n\
    written).\n\n\
    No one can bring back bytes that a file no longer has, when bytes came that no line counts or only one\n\
    behind a fault, and what a lost first line said.\n\n\
    Example: typetool mend demo.script demo.timing new.script new.timing\n\n\
    The long form: man typetool";

/// What `import` reads, what it tells, and its status.
const IMPORT_DETAILS: &str =
    "For recordings by other makers: an asciicast (version 1, 2 or 3), a ttyrec, or messages of tlog, which\n\
    their first bytes tell apart. Reading ends before the first event with a fault. The new pair is in the\n\
    classic format, and is read without a fault; its first line tells when the recording began, under which\n\
    terminal and at which size, where that is known (a size that is set before any output counts). Input,\n\
    markers, other changes of the size and other events have no place in it, and are left out.\n\n\
    Both new files are created before anything is read, and must not exist. Then it is told, each only\n\
    where it is so: first message is number N; recording line N: FAULT, K lines left out (of a ttyrec and\n\
    of version 1: recording event N: FAULT, B bytes left out); chunk I cut to B of C bytes; N delays cut to\n\
    1000000 seconds; N inputs, M markers, R resizes and U others left out. Status 1 where one of the first\n\
    four is told or a change of the size was left out, and where the recording is compressed or of no known\n\
    form (then nothing is written).\n\n\
    A log of sudo is read by mend.\n\n\
    Example: typetool import demo.cast demo.script demo.timing\n\n\
    The long form: man typetool";

/// What `redact` tells, its status, and what it can't do.
const REDACT_DETAILS: &str =
    "In the typescript as a whole (first line, chunks over their borders, what stands behind them) each byte of\n\
    the text becomes *. Delays and counts stay. Both new files are created before anything is read, and must\n\
    not exist. Then it is told: redacted N (how often the text stood there), and as by find where it stands on\n\
    the screen of the new recording all the same, typed with corrections or drawn in parts. The status is 0\n\
    where N isn't 0, no such line follows, the first line tells the size of before (with --profile auto the\n\
    profile too), and behind the last chunk stands nothing but script's closing line; else 1, and 3 for each fault.\n\n\
    It can't take out the same secret in another spelling, or one that is shown under another profile or size,\n\
    or one in a timing file, or a phrase whose space falls on the right margin. A TEXT that is part of an\n\
    escape sequence breaks it, so that hidden text may come to show; and under xterm one * for each byte\n\
    moves what stands right of a TEXT that isn't ASCII. At last look yourself:\n\
    LC_ALL=C grep -acF -- TEXT NEWSCRIPT NEWTIMING\n\n\
    Example: typetool redact secret demo.script demo.timing new.script new.timing\n\n\
    The long form: man typetool";

/// The lines that `find` writes, its status, and what it doesn't find.
const FIND_DETAILS: &str =
    "A line for each place at which the text came to stand (+), from which it went (-), or at which it\n\
    came and went between two bytes of a chunk (~): the sign, the chunk (counted from 0), when it is due\n\
    (seconds), line and column of the first character, and the rows in which it stands, one space\n\
    between. Text that only scrolls isn't told again. With --from the first lines (=) tell where the\n\
    text stands at that moment, with the number of chunks due by then.\n\n\
    Status 0 where a line was written, 1 where none was, and 3 for each fault. So with status 1 the text\n\
    stood nowhere: not at the moment of --from, and not after any byte of these chunks.\n\n\
    A text is found where it runs on over the right margin, too; but a phrase whose space falls on the\n\
    right margin isn't found, since a row that ends with a space doesn't run on.\n\n\
    With --profile xterm what REP (ESC [ n b) repeats counts as one byte's work, a last column that a\n\
    wide character left free doesn't end a row, and characters are compared as they were written: a letter\n\
    that has its accent in it isn't one with a mark behind it.\n\n\
    A TEXT that begins with - stands behind --, as in the second example.\n\n\
    Example: typetool find 'No such file' demo.script demo.timing\n\
    Example: typetool find --from 12.5 -- --help demo.script demo.timing\n\n\
    The long form: man typetool";

/// What a page offers.
const PAGE_DETAILS: &str =
    "One file for a browser, which needs nothing else and fetches nothing. It plays, pauses and seeks, steps\n\
    from chunk to chunk, cuts idle time, finds a text on the screen, and copies what stands there. It holds\n\
    what this terminal shows after each chunk. In the address, #t=12.5 is a moment, #n=70 the screen\n\
    after 70 chunks, and #chunk=69 the one after the chunk that find and changes call 69.\n\n\
    Example: typetool page demo.script demo.timing >demo.html\n\n\
    The long form: man typetool";

/// The lines that `cast` writes.
const CAST_DETAILS: &str =
    "For asciinema and other players. A line with the size, and then one for each chunk that changes what is\n\
    shown: when it is due, and a text that draws it. Players without double sizes, VT52 mode or reversed\n\
    screens show the right text; on lines of double size a space stands behind each character.\n\n\
    With --profile xterm the lines have the recorded output itself, as characters: for players that are a\n\
    terminal of today.\n\n\
    Example: typetool cast demo.script demo.timing >demo.cast\n\n\
    The long form: man typetool";

/// When a chunk is due.
const DUE_DETAILS: &str = "A chunk is due at the sum of the delays up to its own.\n\n\
    Example: typetool due --at 12.5 demo.script demo.timing >bytes\n\n\
    The long form: man typetool";

/// The lines that `info` writes.
const INFO_DETAILS: &str =
    "Five lines: chunks (their number), bytes (those of all chunks), length (seconds, with six\n\
    decimals), header and trailer (bytes before the first chunk and after the last).\n\n\
    Example: typetool info demo.script demo.timing\n\n\
    The long form: man typetool";

/// The form of the printed screen.
const SCREEN_DETAILS: &str =
    "UTF-8, without the spaces at the ends of lines. With --escaped a text for a terminal, without a\n\
    last line feed, that draws size, characters, renditions and cursor again.\n\n\
    With --state a text that makes any terminal of this kind and size what this one was at the moment,\n\
    whatever it shows and whatever is unfinished in it: besides what --escaped draws also a pending wrap,\n\
    margins, tab stops, modes, character sets, what is saved, LEDs, an unfinished sequence, and of xterm both\n\
    screens and the last character. It asks for no report. --state and --escaped exclude each other.\n\n\
    Example: typetool screen --at 12.5 demo.script demo.timing\n\n\
    The long form: man typetool";

/// What a picture holds.
const PICTURE_DETAILS: &str =
    "One file for browsers and programs that draw SVG, which needs nothing else: line drawing, double\n\
    sizes, renditions and the cursor on an exact grid, and text that can be copied; with --profile\n\
    xterm in colours.\n\n\
    Example: typetool picture --at 12.5 demo.script demo.timing >screen.svg\n\n\
    The long form: man typetool";

/// Which rows a transcript has.
const TRANSCRIPT_DETAILS: &str =
    "Every row that left the screen at its top, in order, and then what stands there; what a program drew over\n\
    is no row. Blank rows at the end are left out. Nothing leaves the alternate screen of xterm. With --from\n\
    the rows that had left by then are left out.\n\n\
    A pager that draws on the main screen and pages back shows rows twice, as it did; Ctrl-L leaves a copy of\n\
    the prompt; a wrapped line is as many rows as it stood on.\n\n\
    Example: typetool transcript demo.script demo.timing | less\n\n\
    The long form: man typetool";

/// The lines that `changes` writes.
const CHANGES_DETAILS: &str =
    "A line for each chunk that changes the screen: the chunk (counted from 0), when it is due (seconds),\n\
    and the lines that differ before and after it alone (from 1 on), one space between.\n\n\
    Example: typetool changes --from 12.5 --to 60 demo.script demo.timing\n\n\
    The long form: man typetool";

/// The line that `reports` writes.
const REPORTS_DETAILS: &str = "One line of lower-case digits, empty where nothing was answered.\n\n\
    Example: typetool reports --at 12.5 demo.script demo.timing\n\n\
    The long form: man typetool";

/// What help tells of a subcommand after its arguments: more of what it does, an example, and where more stands.
pub fn details_of<'a>(subcommand: Subcommand) -> &'a str {
    match subcommand {
        Subcommand::Due => DUE_DETAILS,
        Subcommand::Info => INFO_DETAILS,
        Subcommand::Check => CHECK_DETAILS,
        Subcommand::Screen => SCREEN_DETAILS,
        Subcommand::Picture => PICTURE_DETAILS,
        Subcommand::Transcript => TRANSCRIPT_DETAILS,
        Subcommand::Changes => CHANGES_DETAILS,
        Subcommand::Find => FIND_DETAILS,
        Subcommand::Reports => REPORTS_DETAILS,
        Subcommand::Page => PAGE_DETAILS,
        Subcommand::Cast => CAST_DETAILS,
        Subcommand::Save => SAVE_DETAILS,
        Subcommand::Cut => CUT_DETAILS,
        Subcommand::Excerpt => EXCERPT_DETAILS,
        Subcommand::Mend => MEND_DETAILS,
        Subcommand::Import => IMPORT_DETAILS,
        Subcommand::Redact => REDACT_DETAILS,
        Subcommand::Session => SESSION_DETAILS,
    }
}

/// What help calls the value of an argument.
pub fn value_name_of<'a>(argument: Argument) -> &'a str {
    match argument {
        Argument::At
        | Argument::From
        | Argument::To
        | Argument::Until
        | Argument::CutFrom
        | Argument::CutTo
        | Argument::KeptFrom
        | Argument::KeptTo => "SECONDS",
        Argument::Every => "CHUNKS",
        Argument::Profile => "PROFILE",
        Argument::Size => "CxL",
        Argument::Escaped | Argument::State | Argument::Last | Argument::Headless => "",
        Argument::Title | Argument::Sought | Argument::Secret => "TEXT",
        Argument::Script | Argument::Recorded => "SCRIPT",
        Argument::Timing | Argument::AnyTiming | Argument::ItsTiming => "TIMING",
        Argument::Recording => "RECORDING",
        Argument::NewScript => "NEWSCRIPT",
        Argument::NewTiming => "NEWTIMING",
    }
}

/// What help tells of an argument.
pub fn help_of<'a>(argument: Argument) -> &'a str {
    match argument {
        Argument::At => {
            "The moment: seconds since the start, as digits with or without decimals, such as 12.5"
        }
        Argument::From =>
            "Only chunks that are due after this moment; all from the first on, if not given",
        Argument::To => "Only chunks that are due by this moment",
        Argument::Until =>
            "Only chunks that are due by this moment; all up to the last, if not given",
        Argument::CutFrom => {
            "The moment at which the cut begins: what is due after it is left out, up to --to"
        }
        Argument::CutTo => { "The moment at which the cut ends: what is due at it is left out too" }
        Argument::KeptFrom => {
            "The moment at which the new recording begins: what is due after it is kept; 0, if not given"
        }
        Argument::KeptTo => {
            "The moment at which the new recording ends: what is due by it is kept; all up to the last, if not given"
        }
        Argument::Every => {
            "A terminal is kept at every so many chunks, from 1 to 1000000 (100 if not given): fewer chunks \
             between terminals take more memory (4 KB for each whose screen of 80x24 is full, 33 KB under \
             xterm), and more take longer to go back"
        }
        Argument::Profile => {
            "Which terminal plays: vt100 (if not given), vt102, which can insert and delete, xterm, a terminal \
             of today, or auto: the one that the recording's first line tells by its TERM (xterm, if it isn't \
             one of those)"
        }
        Argument::Size => {
            "With --profile xterm or auto the size of a terminal of today, as columns, x and lines, from 2x1 to \
             1000x500; that of the recording's first line, or 80x24, if not given"
        }
        Argument::Escaped => {
            "Write a text that draws the screen again on a reset terminal, with renditions and sizes"
        }
        Argument::State => {
            "Write a text that makes any terminal of this kind and size what this one was at the moment"
        }
        Argument::Last => {
            "Begin at the last line that begins with 'Script started on ', for a typescript that was appended \
             to: its timing is the last session's"
        }
        Argument::Headless => {
            "Put a line 'Script started' before the typescript, for one that has lost its first line"
        }
        Argument::Title =>
            "The title of the page; the name of SCRIPT without its ending, if not given",
        Argument::Sought =>
            "What to look for: characters as they stand on the screen, not only spaces",
        Argument::Secret =>
            "What to take out: characters as they stand on the screen, not only spaces, and no *",
        Argument::Script => "The typescript that script(1) wrote: the bytes themselves",
        Argument::Timing | Argument::ItsTiming => {
            "Its timing file, in the classic format: a line of a delay and a count for each chunk. \
             (A typescript given here is told as 'multi-stream format'.)"
        }
        Argument::AnyTiming => "Its timing file, in the classic, the multi-stream or sudo's format",
        Argument::Recording =>
            "A recording of another form: an asciicast, a ttyrec, or messages of tlog",
        Argument::Recorded => {
            "The typescript that script(1) wrote: the bytes themselves; or, alone, a recording of another form: an \
             asciicast, a ttyrec, or messages of tlog, which xterm plays if no --profile is given"
        }
        Argument::NewScript => "The typescript to be written; it must not exist",
        Argument::NewTiming => "Its timing file, to be written; it must not exist",
    }
}
