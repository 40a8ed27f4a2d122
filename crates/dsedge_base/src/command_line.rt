ghost use Rattle.std.specs.Prelude.{◌≡◌, IfOk, false};
ghost use Rattle.clap.specs.Words.{app_of, rule_of, with_subcommand};
ghost use Rattle.clap.specs.declared.builder.command.Command.TheViews.{out-Command as fields_of};
ghost use Rattle.dsedge_base.specs.CommandLine.{dsedge, program};
ghost use Rattle.dsedge_base.specs.CommandTable.{app_in, rule_in, with_commands};

use crate::command_table::{ArgumentEntry, CommandEntry, Form, commands};
use clap::{Arg, ArgAction, Command};
use std::alloc::{AllocError, Global};

/// The version of `dsedge`, and the logic that it is proved with, as `rt version` names it whatever the kit's letter.
const VERSION: &str = "0.1.0\nlogic dac8208d650f15bf";

/// What the help says at its end.
const MORE: &str =
    "With --explain among the words more is said behind the line of a fault or of a refusal, as at a terminal.";

/// The command line of `dsedge`.
pub(crate) fn command_line<'a>(alloc: Global) -> Result<Command<'a>, AllocError>
    ensures { IfOk result (λ command. app_of command ≡ dsedge) }
{
    with_each(alloc, program(alloc)?, commands())
}

/// A command, with these commands below it.
fn with_each<'a>(
    alloc: Global,
    program: Command<'a>,
    entries: &[CommandEntry],
) -> Result<Command<'a>, AllocError>
    ensures { IfOk result (λ command. app_of command ≡ with_commands (app_of program.entry) entries.now) }
{
    let mut command = program;
    for entry in entries {
        command = with_one(alloc, command, entry)?;
    }
    Ok(command)
}

/// A command, with this command below it.
fn with_one<'a>(
    alloc: Global,
    program: Command<'a>,
    entry: &CommandEntry,
) -> Result<Command<'a>, AllocError>
    ensures { IfOk result (λ command. app_of command ≡ with_subcommand (app_of program.entry) (app_in entry.now).top) }
{
    let command = command_of(alloc, entry)?;
    program.subcommand(command)
}

/// `dsedge`, without its commands.
fn program<'a>(alloc: Global) -> Result<Command<'a>, AllocError>
    ensures { IfOk result (λ command. app_of command ≡ program) }
{
    Command::new(alloc, "dsedge")
        .about("A DiffServ traffic conditioner: meters, marks and certificates.")
        .after_help(MORE)
        .version(VERSION)
        .no_binary_name(true)
        .subcommand_required(true)
        .bin_name("dsedge")
}

/// A command with its words and options.
fn command_of<'a>(alloc: Global, entry: &CommandEntry) -> Result<Command<'a>, AllocError>
    ensures shape { IfOk result (λ command. app_of command ≡ app_in entry.now) }
    ensures local { IfOk result (λ command. (fields_of command).has_globals ≡ false) }
{
    let mut command = Command::new(alloc, entry.name)
        .about(entry.about)
        .after_help(MORE);
    for argument in entry.arguments {
        command = command.arg(argument_of(alloc, argument))?;
    }
    Ok(command)
}

/// A word or an option of a command.
fn argument_of<'a>(alloc: Global, entry: &ArgumentEntry) -> Arg<'a>
    ensures rule { rule_of result ≡ rule_in entry.now }
    ensures local { result.global ≡ false }
{
    let argument = Arg::new(alloc, entry.name).help(entry.help);
    match entry.form {
        Form::Word => argument.value_name(entry.value).required(true),
        Form::Needed => argument
            .value_name(entry.value)
            .long(entry.name)
            .required(true),
        Form::Choice => argument.value_name(entry.value).long(entry.name),
        Form::Maybe => argument.value_name(entry.value),
        Form::Flag => argument.long(entry.name).action(ArgAction::SetTrue),
    }
}
