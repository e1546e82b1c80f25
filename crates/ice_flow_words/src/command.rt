//! The command, built for `clap` step by step.
ghost use Rattle.std.specs.Prelude.{◌≡◌, IfOk, false, codes};
ghost use Rattle.clap.specs.Words.{App, Shape, app_of, new_app, rule_of, with_subcommand};
ghost use Rattle.clap.specs.declared.builder.command.Command.TheViews.{out-Command as fields_of};
ghost use Rattle.ice_flow_words.specs.Arguments.{rule_for, with_arguments};
ghost use Rattle.ice_flow_words.specs.Command.{place, file_option, alone, bare_command, build_command, back_command, play_net_command, play_bits_command, time_command, sample_command, command};

use clap::builder::ValueParser;
use clap::{Arg, ArgAction, Command};
use std::alloc::{AllocError, Global};

// An argument of a command.
#[derive(Clone, Copy)]
enum Argument<'a> {
    // A word that has to be given, in its place.
    Place(&'a str),
    // The same for a number from the least to the most.
    NumberPlace(&'a str, u64, u64),
    // An option for the name of a file.
    File(&'a str),
    // An option for a number, and what stands for it where it is not given.
    Number(&'a str, u64, u64, &'a str),
}

// What the help says of each argument, by its id.
const HELP: [(&str, &str); 14] = [
    ("CHIP", "The chip database"),
    ("PACKAGE", "The name of one of its packages"),
    ("PCF", "The constraints of pins"),
    ("BLIF", "The netlist"),
    ("ASC", "The text of the bits"),
    ("LEVELS", "The levels, a line for each step"),
    ("DELAYS", "The seven delays, in picoseconds"),
    ("NUMBER", "The number of the sample"),
    ("pins", "Write a report on the pins to this file"),
    ("report", "Write a report on the routes to this file"),
    ("seed", "From what the random choices of placing are made"),
    ("rounds", "The most rounds of routing, from 1 to 64"),
    ("workers", "The number of threads that route, from 1 to 8"),
    ("opening", "Take whole nets before the rounds, 0 or 1"),
];

// What the help says of the argument of an id.
fn help_for(id: &str) -> &'static str {
    for (name, help) in &HELP {
        if *name == id {
            return *help;
        }
    }
    ""
}

// A word that has to be given.
fn place<'a>(alloc: Global, id: &'a str) -> Arg<'a>
    ensures rule { rule_of result ≡ place id.entry.now }
    ensures local { result.global ≡ false }
{
    Arg::new(alloc, id)
        .help(help_for(id))
        .required(true)
        .action(ArgAction::Set)
}

// An option for the name of a file.
fn file<'a>(alloc: Global, id: &'a str) -> Arg<'a>
    ensures rule { rule_of result ≡ file_option id.entry.now }
    ensures local { result.global ≡ false }
{
    Arg::new(alloc, id)
        .help(help_for(id))
        .long(id)
        .action(ArgAction::Set)
}

// An argument as `clap` takes it.
fn arg_of<'a>(alloc: Global, argument: &Argument<'a>) -> Arg<'a>
    ensures rule { rule_of result ≡ rule_for argument.now }
    ensures local { result.global ≡ false }
{
    match *argument {
        Argument::Place(id) => place(alloc, id),
        Argument::NumberPlace(id, least, most) => {
            place(alloc, id).value_parser(ValueParser::unsigned(least, most))
        }
        Argument::File(id) => file(alloc, id),
        Argument::Number(id, least, most, usual) => file(alloc, id)
            .value_parser(ValueParser::unsigned(least, most))
            .default_value(usual),
    }
}

// A command of this name, with what the help says of it.
fn named<'a>(alloc: Global, name: &'a str, about: &'a str) -> Command<'a>
    ensures app { app_of result ≡ new_app name.entry.now }
    ensures local { (fields_of result).has_globals ≡ false }
{
    Command::new(alloc, name).about(about)
}

// The command with more arguments, in order.
fn with_arguments<'a>(
    alloc: Global,
    command: Command<'a>,
    arguments: &[Argument<'a>],
) -> Result<Command<'a>, AllocError>
    requires local { (fields_of command).has_globals ≡ false }
    ensures app { IfOk result (λ c.
        app_of c ≡ with_arguments (app_of command.entry) arguments.now) }
    ensures local { IfOk result (λ c. (fields_of c).has_globals ≡ false) }
{
    let mut command = command;
    for argument in arguments {
        command = command.arg(arg_of(alloc, argument))?;
    }
    Ok(command)
}

// The command with one subcommand more, where that one could be made.
fn with_subcommand<'a>(
    command: Command<'a>,
    sub: Result<Command<'a>, AllocError>,
) -> Result<Command<'a>, AllocError>
    requires local { IfOk sub (λ c. (fields_of c).has_globals ≡ false) }
    ensures { (app : App) (shape : Shape) → app_of command.entry ≡ app
        → IfOk sub.entry (λ c. app_of c ≡ alone shape)
        → IfOk result (λ c. app_of c ≡ with_subcommand app shape) }
{
    command.subcommand(sub?)
}

fn build_command<'a>(alloc: Global) -> Result<Command<'a>, AllocError>
    ensures app { IfOk result (λ c. app_of c ≡ alone build_command) }
    ensures local { IfOk result (λ c. (fields_of c).has_globals ≡ false) }
{
    let arguments = [
        Argument::Place("CHIP"),
        Argument::Place("PACKAGE"),
        Argument::Place("PCF"),
        Argument::Place("BLIF"),
        Argument::Place("ASC"),
        Argument::File("pins"),
        Argument::File("report"),
        Argument::Number("seed", 0, u64::MAX, "1"),
        Argument::Number("rounds", 1, 64, "64"),
        Argument::Number("workers", 1, 8, "2"),
        Argument::Number("opening", 0, 1, "0"),
    ];
    let command = named(alloc, "build", "Build the text of the bits of a netlist");
    with_arguments(alloc, command, &arguments)
}

fn back_command<'a>(alloc: Global) -> Result<Command<'a>, AllocError>
    ensures app { IfOk result (λ c. app_of c ≡ alone back_command) }
    ensures local { IfOk result (λ c. (fields_of c).has_globals ≡ false) }
{
    let arguments = [
        Argument::Place("CHIP"),
        Argument::Place("PACKAGE"),
        Argument::Place("ASC"),
        Argument::Place("BLIF"),
    ];
    let command = named(
        alloc,
        "back",
        "Write a netlist of the circuit in a text of bits",
    );
    with_arguments(alloc, command, &arguments)
}

fn play_net_command<'a>(alloc: Global) -> Result<Command<'a>, AllocError>
    ensures app { IfOk result (λ c. app_of c ≡ alone play_net_command) }
    ensures local { IfOk result (λ c. (fields_of c).has_globals ≡ false) }
{
    let arguments = [Argument::Place("BLIF"), Argument::Place("LEVELS")];
    let command = named(
        alloc,
        "play-net",
        "Say what the ports of a netlist drive, step by step",
    );
    with_arguments(alloc, command, &arguments)
}

fn play_bits_command<'a>(alloc: Global) -> Result<Command<'a>, AllocError>
    ensures app { IfOk result (λ c. app_of c ≡ alone play_bits_command) }
    ensures local { IfOk result (λ c. (fields_of c).has_globals ≡ false) }
{
    let arguments = [
        Argument::Place("CHIP"),
        Argument::Place("PACKAGE"),
        Argument::Place("ASC"),
        Argument::Place("LEVELS"),
    ];
    let command = named(
        alloc,
        "play-bits",
        "Say what the pads of a configured chip drive, step by step",
    );
    with_arguments(alloc, command, &arguments)
}

fn time_command<'a>(alloc: Global) -> Result<Command<'a>, AllocError>
    ensures app { IfOk result (λ c. app_of c ≡ alone time_command) }
    ensures local { IfOk result (λ c. (fields_of c).has_globals ≡ false) }
{
    let arguments = [
        Argument::Place("CHIP"),
        Argument::Place("PACKAGE"),
        Argument::Place("ASC"),
        Argument::Place("DELAYS"),
    ];
    let command = named(alloc, "time", "Say a longest path of a configured chip");
    with_arguments(alloc, command, &arguments)
}

fn sample_command<'a>(alloc: Global) -> Result<Command<'a>, AllocError>
    ensures app { IfOk result (λ c. app_of c ≡ alone sample_command) }
    ensures local { IfOk result (λ c. (fields_of c).has_globals ≡ false) }
{
    let arguments = [
        Argument::NumberPlace("NUMBER", 0, u64::MAX),
        Argument::Number("workers", 1, 8, "2"),
    ];
    let command = named(
        alloc,
        "sample",
        "Build a sample netlist, and say how that went",
    );
    with_arguments(alloc, command, &arguments)
}

// The command without a subcommand yet.
fn bare_command<'a>(alloc: Global) -> Command<'a>
    ensures { app_of result ≡ alone bare_command }
{
    named(
        alloc,
        "tefitsundra",
        "Place and route netlists for iCE40 1k devices, with a proof",
    )
    .no_binary_name(true)
    .subcommand_required(true)
}

/// The command of the program.
pub fn tool_command<'a>(alloc: Global) -> Result<Command<'a>, AllocError>
    ensures { IfOk result (λ c. app_of c ≡ command) }
{
    let command = bare_command(alloc);
    let command = with_subcommand(command, build_command(alloc))?;
    let command = with_subcommand(command, back_command(alloc))?;
    let command = with_subcommand(command, play_net_command(alloc))?;
    let command = with_subcommand(command, play_bits_command(alloc))?;
    let command = with_subcommand(command, time_command(alloc))?;
    with_subcommand(command, sample_command(alloc))
}
