//! A law over the definitions alone, as a function with an empty body.

ghost use Rattle.std.specs.Prelude.{◌≡◌, ◌∷◌, ℕ, List, Option, Some};
ghost use Rattle.clap.specs.Words.{Text};
ghost use Rattle.tape_core.specs.Seconds.{seconds_of};
ghost use Rattle.command_line.specs.CommandLine.{every_of, meaning_in, name_in, size_named};
ghost use Rattle.command_line.specs.Lines.{AreGiven, IsPlain, Means, arguments_in, rows_given, words_given};
ghost use Rattle.command_line.specs.declared.player.Measure.{Measure};
ghost use Rattle.command_line.specs.declared.words.table.Subcommand.{Subcommand};

/// What a plain command line means, of any job: the job's name, its options, texts and paths in the table's order, each with
/// a word as its value that doesn't begin with a hyphen. It means what the job means with these values. So `read_words` gives
/// that job, that text and those paths, or tells which value isn't readable, or memory is refused.
///
/// What is read as seconds, as a number of chunks or as a size is such a word.
pub fn plain_lines_are_read()
    ensures lines { (subcommand : Subcommand) (given : List (Option Text))
        → AreGiven (arguments_in subcommand) given → (program : Text)
        → Means (program ∷ name_in subcommand ∷ words_given (arguments_in subcommand) given)
        (meaning_in subcommand (rows_given (arguments_in subcommand) given)) }
    ensures seconds { (text : Text) (moment : ℕ) → seconds_of text ≡ Some moment → IsPlain text }
    ensures number { (text : Text) (count : ℕ) → every_of text ≡ Some count → IsPlain text }
    ensures size { (text : Text) (size : Measure) → size_named text ≡ Some size → IsPlain text }
{}
