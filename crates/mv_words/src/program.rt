//! The program's command line, as `clap` reads it.

ghost use Rattle.std.specs.Prelude.{◌≡◌, IfOk, false};
ghost use Rattle.clap.specs.Words.{app_of, rule_of};
ghost use Rattle.mv_words.specs.Program.{IsCommand, command, flag, program, valued};

use clap::{Arg, ArgAction, Command};
use std::alloc::{AllocError, Global};

/// Returns the program's commands. Each takes the options of all.
pub(crate) fn program<'a>(alloc: Global) -> Result<Command<'a>, AllocError>
    ensures { IfOk result (λ c. app_of c ≡ program) }
{
    Command::new(alloc, "mv3c")
        .no_binary_name(true)
        .disable_help_flag(true)
        .disable_help_subcommand(true)
        .subcommand(command(alloc, "run")?)?
        .subcommand(command(alloc, "replay")?)?
        .subcommand(command(alloc, "serial")?)?
        .subcommand(command(alloc, "graph")?)?
        .subcommand(command(alloc, "tpcc")?)?
        .subcommand(command(alloc, "audit")?)?
        .subcommand(command(alloc, "why")?)
}

/// Returns a command with all options.
fn command<'a>(alloc: Global, name: &'a str) -> Result<Command<'a>, AllocError>
    ensures { IfOk result (IsCommand (command name.entry.now)) }
{
    Command::new(alloc, name)
        .arg(valued(alloc, "threads"))?
        .arg(valued(alloc, "rounds"))?
        .arg(valued(alloc, "horizon"))?
        .arg(valued(alloc, "warehouses"))?
        .arg(valued(alloc, "calls"))?
        .arg(valued(alloc, "seed"))?
        .arg(flag(alloc, "script"))
}

/// Returns an option with a value. All its values are kept.
fn valued<'a>(alloc: Global, name: &'a str) -> Arg<'a>
    ensures rule { rule_of result ≡ valued name.entry.now }
    ensures local { result.global ≡ false }
{
    Arg::new(alloc, name).long(name).action(ArgAction::Append)
}

/// Returns an option without a value. How often it is given is kept.
fn flag<'a>(alloc: Global, name: &'a str) -> Arg<'a>
    ensures rule { rule_of result ≡ flag name.entry.now }
    ensures local { result.global ≡ false }
{
    Arg::new(alloc, name).long(name).action(ArgAction::Count)
}
