//! What clap is told of the command line.

ghost use Rattle.std.specs.Prelude.{◌≡◌, ◌∷◌, [], Some, IfOk, false, map};
ghost use Rattle.clap.specs.Words.{app_of, items_of, rule_of};
ghost use Rattle.clap.specs.declared.Command.TheViews.{out-Command as fields_of};
ghost use Rattle.command_line.specs.CommandLine.{app_in, optional_positional_rule, optional_rule, positional_rule, rule_in, seconds_rule, switch_rule, top_app, typetool_app, with_rules};

use super::help::{EXAMPLE, VERSION, about_of, details_of, help_of, value_name_of};
use super::table::{
    Argument, Subcommand, flags_of, id_of, name_of, paths_of, subcommands, texts_of,
};
use clap::{Arg, ArgAction, Command};
use std::alloc::{AllocError, Global};

/// The whole command line.
pub fn typetool_command<'a>(alloc: Global) -> Result<Command<'a>, AllocError>
    ensures app { IfOk result (λ command. app_of command ≡ typetool_app) }
    ensures local { IfOk result (λ command. (fields_of command).has_globals ≡ false) }
{
    let mut command = top_command(alloc);
    let all = subcommands();
    for subcommand in &all {
        let added = subcommand_command(alloc, *subcommand)?;
        command = command.subcommand(added)?;
    }
    Ok(command)
}

/// The program's name, its version and what it does. A subcommand must follow, and clap adds `help`.
fn top_command<'a>(alloc: Global) -> Command<'a>
    ensures app { app_of result ≡ top_app }
    ensures local { (fields_of result).has_globals ≡ false }
{
    Command::new(alloc, "typetool")
        .version(VERSION)
        .about("Edit and seek in terminal recordings made by script(1)")
        .after_help(EXAMPLE)
        .subcommand_required(true)
        .arg_required_else_help(true)
}

/// One subcommand, from its row of the table.
#[tactic(auto, unfolding(crate::specs::CommandLine::app_in))]
pub fn subcommand_command<'a>(
    alloc: Global,
    subcommand: Subcommand,
) -> Result<Command<'a>, AllocError>
    ensures app { IfOk result (λ command. app_of command ≡ app_in subcommand) }
    ensures local { IfOk result (λ command. (fields_of command).has_globals ≡ false) }
{
    let command = Command::new(alloc, name_of(subcommand));
    let command = with_arguments(alloc, command, flags_of(subcommand))?;
    let command = with_arguments(alloc, command, texts_of(subcommand))?;
    let command = with_arguments(alloc, command, paths_of(subcommand))?;
    Ok(
        command
            .about(about_of(subcommand))
            .after_help(details_of(subcommand)),
    )
}

/// A command with these arguments after those that it has.
fn with_arguments<'a>(
    alloc: Global,
    command: Command<'a>,
    arguments: &[Argument],
) -> Result<Command<'a>, AllocError>
    requires { (fields_of command).has_globals ≡ false }
    ensures app { IfOk result (λ more.
        app_of more ≡ with_rules (app_of command.entry) (map rule_in arguments.now)) }
    ensures local { IfOk result (λ more. (fields_of more).has_globals ≡ false) }
{
    let mut more = command;
    for argument in arguments {
        more = more.arg(arg_of(alloc, *argument))?;
    }
    Ok(more)
}

/// One argument, from its row of the table.
#[tactic(auto, unfolding(crate::specs::CommandLine::rule_in))]
fn arg_of<'a>(alloc: Global, argument: Argument) -> Arg<'a>
    ensures rule { rule_of result ≡ rule_in argument }
    ensures local { result.global ≡ false }
{
    match argument {
        Argument::At | Argument::To | Argument::CutFrom | Argument::CutTo => required_flag(
            alloc,
            id_of(argument),
            value_name_of(argument),
            help_of(argument),
        ),
        Argument::From
        | Argument::Until
        | Argument::KeptFrom
        | Argument::KeptTo
        | Argument::Every
        | Argument::Profile
        | Argument::Size
        | Argument::Title => optional_flag(
            alloc,
            id_of(argument),
            value_name_of(argument),
            help_of(argument),
        ),
        Argument::Escaped | Argument::State | Argument::Last | Argument::Headless => {
            switch(alloc, id_of(argument), help_of(argument))
        }
        Argument::ItsTiming => optional_positional(
            alloc,
            id_of(argument),
            value_name_of(argument),
            help_of(argument),
        ),
        Argument::Sought
        | Argument::Secret
        | Argument::Script
        | Argument::Timing
        | Argument::AnyTiming
        | Argument::Recording
        | Argument::Recorded
        | Argument::NewScript
        | Argument::NewTiming => positional(
            alloc,
            id_of(argument),
            value_name_of(argument),
            help_of(argument),
        ),
    }
}

/// A flag with a value that must be given.
fn required_flag<'a>(alloc: Global, id: &'a str, name: &'a str, help: &'a str) -> Arg<'a>
    ensures rule { rule_of result ≡ seconds_rule id.entry.now }
    ensures name { items_of result.val_names ≡ name.entry ∷ [] }
    ensures help { result.help ≡ Some help.entry }
    ensures local { result.global ≡ false }
{
    optional_flag(alloc, id, name, help).required(true)
}

/// A flag with a value that may be left out.
fn optional_flag<'a>(alloc: Global, id: &'a str, name: &'a str, help: &'a str) -> Arg<'a>
    ensures rule { rule_of result ≡ optional_rule id.entry.now }
    ensures name { items_of result.val_names ≡ name.entry ∷ [] }
    ensures help { result.help ≡ Some help.entry }
    ensures local { result.global ≡ false }
{
    Arg::new(alloc, id)
        .long(id)
        .value_name(name)
        .action(ArgAction::Set)
        .help(help)
}

/// A flag without a value.
fn switch<'a>(alloc: Global, id: &'a str, help: &'a str) -> Arg<'a>
    ensures rule { rule_of result ≡ switch_rule id.entry.now }
    ensures help { result.help ≡ Some help.entry }
    ensures local { result.global ≡ false }
{
    Arg::new(alloc, id)
        .long(id)
        .action(ArgAction::SetTrue)
        .help(help)
}

/// A path that may be left out.
fn optional_positional<'a>(alloc: Global, id: &'a str, name: &'a str, help: &'a str) -> Arg<'a>
    ensures rule { rule_of result ≡ optional_positional_rule id.entry.now }
    ensures name { items_of result.val_names ≡ name.entry ∷ [] }
    ensures help { result.help ≡ Some help.entry }
    ensures local { result.global ≡ false }
{
    Arg::new(alloc, id)
        .value_name(name)
        .action(ArgAction::Set)
        .help(help)
}

/// A text or a path, which must be given.
fn positional<'a>(alloc: Global, id: &'a str, name: &'a str, help: &'a str) -> Arg<'a>
    ensures rule { rule_of result ≡ positional_rule id.entry.now }
    ensures name { items_of result.val_names ≡ name.entry ∷ [] }
    ensures help { result.help ≡ Some help.entry }
    ensures local { result.global ≡ false }
{
    optional_positional(alloc, id, name, help).required(true)
}
