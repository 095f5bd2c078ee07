// Subcommands and their arguments, and the command that they make for the crate that reads words.
ghost use Rattle.std.specs.Prelude.{◌≡◌, false, IfOk};
ghost use Rattle.clap.specs.Words.{app_of, rule_of};
ghost use Rattle.cli_orders.specs.CommandLine.{program_words, IsShaped};
ghost use Rattle.cli_orders.specs.Tables.{rule_of_argument, shape_of_subcommand, line_by, GainsSubcommand};

use clap::builder::ValueParser;
use clap::{Arg, ArgAction, Command};
use std::alloc::{AllocError, Global};

/// The greatest number of steps.
pub const MOST_STEPS: u64 = 1 << 60;

/// The greatest size.
pub const MOST_SIZE: u64 = 1024;

/// The greatest number of a leaf.
pub const MOST_LEAF: u64 = u64::MAX;

/// The greatest number of visits.
pub const MOST_VISITS: u64 = u64::MAX;

/// The greatest number of workers.
pub const MOST_WORKERS: u64 = 64;

/// The greatest number of cuts.
pub const MOST_CUTS: u64 = 256;

/// How an argument of a subcommand is given, by its word.
#[derive(Clone, Copy)]
pub enum Argument {
    /// A file that must be named, by its place.
    FileWord(&'static str),
    /// A file that may be named behind `--` and the word.
    FileOption(&'static str),
    /// A number that must be given, by its place, in a range.
    NumberWord(&'static str, u64, u64),
    /// A number that may be given behind `--` and the word, in a range.
    NumberOption(&'static str, u64, u64),
    /// A flag behind `--`.
    Flag(&'static str),
}

/// A subcommand: its name and its arguments in their order.
#[derive(Clone, Copy)]
pub struct Subcommand {
    /// The name.
    pub name: &'static str,
    /// The arguments.
    pub arguments: &'static [Argument],
}

/// The command of the program with these subcommands, one of which is required, without help or version words.
pub fn joined_command<'a>(
    alloc: Global,
    subcommands: &[Subcommand],
) -> Result<Command<'a>, AllocError>
    ensures { IfOk result (λ command. app_of command ≡ line_by subcommands.now) }
{
    let mut command = program(alloc);
    for subcommand in subcommands {
        command = with_subcommand(alloc, command, subcommand)?;
    }
    Ok(command)
}

// The program itself.
fn program<'a>(alloc: Global) -> Command<'a>
    ensures { IsShaped result program_words }
{
    Command::new(alloc, "bprice")
        .disable_help_flag(true)
        .disable_help_subcommand(true)
        .disable_version_flag(true)
        .subcommand_required(true)
}

// A command with a subcommand more.
fn with_subcommand<'a>(
    alloc: Global,
    command: Command<'a>,
    subcommand: &Subcommand,
) -> Result<Command<'a>, AllocError>
    ensures { IfOk result (GainsSubcommand command.entry subcommand.now) }
{
    let shaped = shaped_command(alloc, subcommand)?;
    command.subcommand(shaped)
}

// The command of a subcommand.
fn shaped_command<'a>(alloc: Global, subcommand: &Subcommand) -> Result<Command<'a>, AllocError>
    ensures { IfOk result (λ command. IsShaped command (shape_of_subcommand subcommand.now)) }
{
    let mut command = Command::new(alloc, subcommand.name);
    for argument in subcommand.arguments {
        command = command.arg(rule_of_argument(alloc, argument))?;
    }
    Ok(command)
}

// The rule of an argument, for the crate that reads words.
fn rule_of_argument<'a>(alloc: Global, argument: &Argument) -> Arg<'a>
    ensures rule { rule_of result ≡ rule_of_argument argument.now }
    ensures local { result.global ≡ false }
{
    match *argument {
        Argument::FileWord(id) => Arg::new(alloc, id).required(true),
        Argument::FileOption(id) => Arg::new(alloc, id).long(id),
        Argument::NumberWord(id, low, high) => Arg::new(alloc, id)
            .required(true)
            .value_parser(ValueParser::unsigned(low, high)),
        Argument::NumberOption(id, low, high) => Arg::new(alloc, id)
            .long(id)
            .value_parser(ValueParser::unsigned(low, high)),
        Argument::Flag(id) => Arg::new(alloc, id).long(id).action(ArgAction::SetTrue),
    }
}
