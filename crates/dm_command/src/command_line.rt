//! The command line, as clap reads it.

ghost use Rattle.std.specs.Prelude.{◌≡◌, ◌≢◌, ◌↔◌, [], true, false, codes, IfOk, OnOk, IfSome, IfNone, IsErrOf};
ghost use Rattle.clap.specs.Faults.{fault_of};
ghost use Rattle.clap.specs.Takes.{takes};
ghost use Rattle.clap.specs.Walk.{rule_of, rows_of};
ghost use Rattle.clap.specs.Matches.{found_of};
ghost use Rattle.clap.specs.Values.{kind_of};
ghost use Rattle.clap.specs.Simple.{App, Shape, app_of, shape_of, subcommand_of, subcommand_rows_of, new_shape};
ghost use Rattle.clap.specs.Simple.{with_subcommand};
ghost use Rattle.clap.specs.declared.builder.command.Command.TheViews.{out-Command};
ghost use Rattle.dm_command.specs.CommandLine.{GivesLimit, GivesProfile, IsTaskOf, NamesTask, border_rule, dm_app};
ghost use Rattle.dm_command.specs.CommandLine.{shorter_rule, texts_of, top_app, with_border as bordered};
ghost use Rattle.dm_command.specs.CommandLine.{with_both as both, with_shorter as shortened};
ghost use Rattle.dm_command.specs.inner.CommandReads.{HasNoTask, IsReadable};

use crate::fault::CallFault;
use clap::error::ErrorKind;
use clap::{Arg, ArgAction, ArgMatches, Command, Error};
use dm_text::{Profile, Task};
use std::alloc::{AllocError, Global};

/// Gives the option `--border N`.
fn border<'a>(alloc: Global) -> Arg<'a>
    ensures rule { rule_of result ≡ border_rule }
    ensures local { result.global ≡ false }
{
    Arg::new(alloc, "border")
        .long("border")
        .value_parser(clap::value_parser!(u16))
}

/// Gives the flag `--shorter`.
fn shorter<'a>(alloc: Global) -> Arg<'a>
    ensures rule { rule_of result ≡ shorter_rule }
    ensures local { result.global ≡ false }
{
    Arg::new(alloc, "shorter")
        .long("shorter")
        .action(ArgAction::SetTrue)
}

/// Gives a subcommand with the option alone.
fn with_border<'a>(alloc: Global, name: &'a str) -> Result<Command<'a>, AllocError>
    ensures shape { IfOk result (λ c. shape_of c ≡ bordered name.entry.now) }
    ensures local { IfOk result (λ c. (out-Command c).has_globals ≡ false) }
{
    Command::new(alloc, name).arg(border(alloc))
}

/// Gives a subcommand with the flag alone.
fn with_shorter<'a>(alloc: Global, name: &'a str) -> Result<Command<'a>, AllocError>
    ensures shape { IfOk result (λ c. shape_of c ≡ shortened name.entry.now) }
    ensures local { IfOk result (λ c. (out-Command c).has_globals ≡ false) }
{
    Command::new(alloc, name).arg(shorter(alloc))
}

/// Gives a subcommand with both.
fn with_both<'a>(alloc: Global, name: &'a str) -> Result<Command<'a>, AllocError>
    ensures shape { IfOk result (λ c. shape_of c ≡ both name.entry.now) }
    ensures local { IfOk result (λ c. (out-Command c).has_globals ≡ false) }
{
    with_border(alloc, name)?.arg(shorter(alloc))
}

/// Gives a subcommand with neither.
fn plain<'a>(alloc: Global, name: &'a str) -> Command<'a>
    ensures shape { shape_of result ≡ new_shape name.entry.now }
    ensures local { (out-Command result).has_globals ≡ false }
{
    Command::new(alloc, name)
}

/// Gives the command without its subcommands.
fn top<'a>(alloc: Global) -> Command<'a>
    ensures { app_of result ≡ top_app }
{
    Command::new(alloc, "dm_tool")
        .subcommand_required(true)
        .disable_help_subcommand(true)
}

/// Gives a command with one more subcommand, if there was memory for both.
// (Both come as results, since each `?` in a function that holds commands is dear to prove.)
fn add_subcommand<'a>(
    command: Result<Command<'a>, AllocError>,
    sub: Result<Command<'a>, AllocError>,
) -> Result<Command<'a>, AllocError>
    requires { IfOk sub (λ s. (out-Command s).has_globals ≡ false) }
    ensures { (app : App) (shape : Shape) → IfOk command.entry (λ c. app_of c ≡ app)
        → IfOk sub.entry (λ s. shape_of s ≡ shape)
        → IfOk result (λ c. app_of c ≡ with_subcommand app shape) }
{
    match command {
        Ok(command) => match sub {
            Ok(sub) => command.subcommand(sub),
            Err(error) => Err(error),
        },
        Err(error) => Err(error),
    }
}

/// Gives the command with the three subcommands whose input are grids.
fn for_grids<'a>(alloc: Global) -> Result<Command<'a>, AllocError>
    ensures { IfOk result
        (λ c. app_of c ≡ with_subcommand
        (with_subcommand (with_subcommand top_app (bordered (codes "read")))
        (bordered (codes "check"))) (both (codes "normal"))) }
{
    let with_read = add_subcommand(Ok(top(alloc)), with_border(alloc, "read"));
    let with_check = add_subcommand(with_read, with_border(alloc, "check"));
    add_subcommand(with_check, with_both(alloc, "normal"))
}

/// Gives the command with its five subcommands.
fn command<'a>(alloc: Global) -> Result<Command<'a>, AllocError>
    ensures { IfOk result (λ c. app_of c ≡ dm_app) }
{
    let with_write = add_subcommand(for_grids(alloc), with_shorter(alloc, "write"));
    add_subcommand(with_write, Ok(plain(alloc, "table")))
}

/// Gives the border limit among the matches of a subcommand.
fn limit_in(matches: &ArgMatches<'_>) -> Option<u16>
    ensures { IsReadable (rows_of (found_of matches.now))
        → GivesLimit (rows_of (found_of matches.now)) result }
{
    matches.get_one::<u16>("border")
}

/// Gives the profile among the matches of a subcommand.
fn profile_in(matches: &ArgMatches<'_>) -> Profile
    ensures { IsReadable (rows_of (found_of matches.now))
        → GivesProfile (rows_of (found_of matches.now)) result }
{
    if matches.get_flag("shorter") {
        Profile::Shorter
    } else {
        Profile::Ascii
    }
}

/// Gives the task of a subcommand, by its name and its matches.
fn task_in(name: &str, matches: &ArgMatches<'_>) -> Option<Task>
    ensures some { IfSome result (λ t. IsReadable (rows_of (found_of matches.now))
        → IsTaskOf name.now (rows_of (found_of matches.now)) t) }
    ensures none { IfNone result (HasNoTask name.now) }
{
    match name {
        "read" => Some(Task::Read(limit_in(matches))),
        "check" => Some(Task::Check(limit_in(matches))),
        "normal" => Some(Task::Normal(limit_in(matches), profile_in(matches))),
        "write" => Some(Task::Write(profile_in(matches))),
        "table" => Some(Task::Table),
        _ => None,
    }
}

/// Gives the fault of a command line in which clap finds this error.
fn fault_in(error: Error) -> CallFault
    ensures { (result ≡ CallFault.Memory) ↔ (kind_of error ≡ ErrorKind.OutOfMemory) }
{
    if error.kind() == ErrorKind::OutOfMemory {
        CallFault::Memory
    } else {
        CallFault::Usage
    }
}

/// Gives the task that the matches of the command name.
fn task_among(matches: &ArgMatches<'_>) -> Option<Task>
    ensures some { IfSome result (λ t. (found : _) → subcommand_rows_of matches.now ≡ Some found
        → IsReadable found.1 → IsTaskOf found.0 found.1 t) }
    ensures none { IfNone result
        ((found : _) → subcommand_rows_of matches.now ≡ Some found → HasNoTask found.0) }
{
    let (name, below) = matches.subcommand()?;
    task_in(name, below)
}

/// Gives the task of a command line, whose first word is the program's name.
///
/// The error is `CallFault::Usage` where clap finds a fault in the words or they ask for help, and
/// `CallFault::Memory` where there was no memory to parse them.
pub fn task_of<'a>(alloc: Global, words: &'a [&'a str]) -> Result<Task, CallFault>
    ensures task { IfOk result (NamesTask (subcommand_of dm_app (texts_of words.entry.now))) }
    ensures taken { OnOk result (fault_of dm_app (texts_of words.entry.now) ≡ []) }
    ensures usage { IsErrOf result CallFault.Usage
        → fault_of dm_app (texts_of words.entry.now) ≢ [] }
    ensures takes { takes dm_app (texts_of words.entry.now) ≡ true
        → ¬ (IsErrOf result CallFault.Usage) }
{
    let command = match command(alloc) {
        Ok(command) => command,
        Err(_) => return Err(CallFault::Memory),
    };
    match command.try_get_matches_from(words) {
        Err(error) => Err(fault_in(error)),
        Ok(matches) => match task_among(&matches) {
            Some(task) => Ok(task),
            None => Err(CallFault::Usage),
        },
    }
}
