//! The words of a command line.

ghost use Rattle.std.specs.Prelude.{◌≡◌, ◌≢◌, IfOk, map};
ghost use Rattle.clap.specs.Words.{count_of, found_of, rows_of, subcommand_rows_of};
ghost use Rattle.clap.specs.declared.error.kind.ErrorKind.TheVariants.{OutOfMemory};
ghost use Rattle.mv_words.specs.declared.command.WordsFault.TheVariants.{Usage, NoMemory};
ghost use Rattle.mv_words.specs.Words.{NamesCommand, HasLoad, number, gives_load, is_nothing, usual, rounds_of, options_of, load_of, run_with, replay_with, tpcc_with, audit_with, why_with, command_with, command_of, words_of};
ghost use Rattle.mv_words.specs.Program.{command_in, flag_by, given_in, has_escape, number_by, values_of};

use crate::command::{Command, WordsFault};
use crate::program::program;
use clap::ArgMatches;
use clap::error::ErrorKind;
use mv_journal::line::number_of;
use mv_tpccgen::load::Load;
use mv_values::calls::Options;
use std::alloc::Global;

/// The most digits that a value has.
const MOST_DIGITS: usize = 10;

/// Returns the options of a command that is given none: three rounds, and no horizon.
fn usual() -> Options
    ensures { result ≡ usual }
{
    Options {
        rounds: 3,
        horizon: None,
    }
}

/// Returns the command that the words say. The first word is its name. The command's options follow in any order, each at
/// most once, as `--name=value` or as `--name value`. `--script` has no value. A value is 1 to 10 decimal digits. `run`
/// takes `--threads`, 1 to 64, `--rounds`, 0 to 100, and `--horizon`, 1 to 4294967295. `replay` takes `--rounds` and
/// `--horizon`. `tpcc` takes the options of `run`, `--warehouses`, 1 to 16, `--calls`, 0 to 40000, `--seed`, 0 to
/// 4294967295, and `--script`. `audit` takes `--rounds`. `why` takes the options of `replay`. The other commands take none. Fails with `Usage` for all other
/// words, and with `NoMemory` when memory runs out.
pub fn read_words(alloc: Global, words: &[String]) -> Result<Command, WordsFault>
    ensures said { NamesCommand (command_of (words_of words.now)) result }
    ensures load { IfOk result HasLoad }
{
    if has_escape(words) {
        return Err(WordsFault::Usage);
    }
    match program(alloc)?.try_get_matches_from(words) {
        Ok(found) => command_in(&found).ok_or(WordsFault::Usage),
        Err(error) => Err(fault_by(error.kind())),
    }
}

/// Whether a word is `--`. No command takes it, but `clap` does.
fn has_escape(words: &[String]) -> bool
    ensures { result ≡ has_escape (words_of words.now) }
{
    match words.split_first() {
        None => false,
        Some((word, more)) => word.as_str() == "--" || has_escape(more),
    }
}

/// Returns the fault of words that `clap` refuses for this reason.
fn fault_by(kind: ErrorKind) -> WordsFault
    ensures memory { kind ≡ OutOfMemory → result ≡ NoMemory }
    ensures words { kind ≢ OutOfMemory → result ≡ Usage }
{
    match kind {
        ErrorKind::OutOfMemory => WordsFault::NoMemory,
        _ => WordsFault::Usage,
    }
}

/// Returns the command that is found, if it takes the options that are found.
fn command_in(found: &ArgMatches<'_>) -> Option<Command>
    ensures { result ≡ command_in (subcommand_rows_of found.now) }
{
    let (name, options) = found.subcommand()?;
    command_with(name, given_in(options)?)
}

/// Returns the options that are found. None if one is given twice or has no value of its range.
fn given_in(found: &ArgMatches<'_>) -> Option<Given>
    ensures { result ≡ given_in (rows_of (found_of found.now)) }
{
    Some(Given {
        threads: number_in(found, "threads", 1, 64)?,
        rounds: number_in(found, "rounds", 0, 100)?,
        horizon: number_in(found, "horizon", 1, u32::MAX)?,
        warehouses: number_in(found, "warehouses", 1, 16)?,
        calls: number_in(found, "calls", 0, 40_000)?,
        seed: number_in(found, "seed", 0, u32::MAX)?,
        script: flag_in(found, "script")?,
    })
}

/// Returns the number that an option has, if it is given. None if it is given twice or its value is out of its range.
fn number_in(found: &ArgMatches<'_>, name: &str, least: u32, most: u32) -> Option<Option<u32>>
    ensures { result ≡ number_by least most (values_of name.now (rows_of (found_of found.now))) }
{
    match found.get_strs(name) {
        Some(values) => number_by(values, least, most),
        None => Some(None),
    }
}

/// Returns the number that values give, if there is any. None if there are several, or the number is out of its range.
fn number_by(values: &[&str], least: u32, most: u32) -> Option<Option<u32>>
    ensures { result ≡ number_by least most (map (λ value. value.now) values.now) }
{
    match values {
        [] => Some(None),
        [value] => Some(Some(number(least, most, value)?)),
        _ => None,
    }
}

/// Returns whether an option without a value is given. None if it is given twice.
fn flag_in(found: &ArgMatches<'_>, name: &str) -> Option<bool>
    ensures { result ≡ flag_by (count_of name.now (rows_of (found_of found.now))) }
{
    match found.get_count(name) {
        0 => Some(false),
        1 => Some(true),
        _ => None,
    }
}

/// Returns the command with this name, if it takes these options.
fn command_with(name: &str, given: Given) -> Option<Command>
    ensures { result ≡ command_with name.now given }
{
    match name {
        "run" => given.run(),
        "replay" => given.replay(),
        "tpcc" => Some(given.tpcc()),
        "audit" => given.audit(),
        "why" => given.why(),
        "serial" if given.is_nothing() => Some(Command::Serial),
        "graph" if given.is_nothing() => Some(Command::Graph),
        _ => None,
    }
}

/// The options that words give.
#[derive(Clone, Copy)]
pub(crate) struct Given {
    pub(crate) threads: Option<u32>,
    pub(crate) rounds: Option<u32>,
    pub(crate) horizon: Option<u32>,
    pub(crate) warehouses: Option<u32>,
    pub(crate) calls: Option<u32>,
    pub(crate) seed: Option<u32>,
    pub(crate) script: bool,
}

impl Given {
    /// Returns `run` with these options, if it has them.
    fn run(&self) -> Option<Command>
        ensures { result ≡ run_with self.now }
    {
        if self.gives_load() {
            return None;
        }
        Some(Command::Run {
            threads: self.threads.unwrap_or(1),
            options: self.options(),
        })
    }

    /// Returns `replay` with these options, if it has them.
    fn replay(&self) -> Option<Command>
        ensures { result ≡ replay_with self.now }
    {
        if self.gives_load() || self.threads.is_some() {
            return None;
        }
        Some(Command::Replay {
            options: self.options(),
        })
    }

    /// Returns `tpcc` with these options. It has them all.
    fn tpcc(&self) -> Command
        ensures { result ≡ tpcc_with self.now }
    {
        Command::Tpcc {
            load: self.load(),
            script: self.script,
            threads: self.threads.unwrap_or(1),
            options: self.options(),
        }
    }

    /// Returns `audit` with these options, if it has them.
    fn audit(&self) -> Option<Command>
        ensures { result ≡ audit_with self.now }
    {
        if self.gives_load() || self.threads.is_some() || self.horizon.is_some() {
            return None;
        }
        Some(Command::Audit {
            rounds: self.rounds(),
        })
    }

    /// Returns `why` with these options, if it has them.
    fn why(&self) -> Option<Command>
        ensures { result ≡ why_with self.now }
    {
        if self.gives_load() || self.threads.is_some() {
            return None;
        }
        Some(Command::Why {
            options: self.options(),
        })
    }

    /// Whether an option of a workload is among them.
    fn gives_load(&self) -> bool
        ensures { result ≡ gives_load self.now }
    {
        self.script || self.warehouses.is_some() || self.calls.is_some() || self.seed.is_some()
    }

    fn is_nothing(&self) -> bool
        ensures { result ≡ is_nothing self.now }
    {
        !self.gives_load()
            && self.threads.is_none()
            && self.rounds.is_none()
            && self.horizon.is_none()
    }

    /// Returns the rounds: those that are given, and else the usual ones.
    fn rounds(&self) -> u32
        ensures { result ≡ rounds_of self.now }
    {
        self.rounds.unwrap_or(usual().rounds)
    }

    /// Returns the rounds and the horizon. No horizon is usual.
    fn options(&self) -> Options
        ensures { result ≡ options_of self.now }
    {
        Options {
            rounds: self.rounds(),
            horizon: self.horizon,
        }
    }

    /// Returns the workload: one warehouse, 1000 calls and seed 1, where they aren't given.
    fn load(&self) -> Load
        ensures { result ≡ load_of self.now }
    {
        Load {
            warehouses: self.warehouses.unwrap_or(1),
            calls: self.calls.unwrap_or(1000),
            seed: self.seed.unwrap_or(1),
        }
    }
}

/// Returns the number that 1 to 10 decimal digits write, if it is in this range.
fn number(least: u32, most: u32, digits: &str) -> Option<u32>
    ensures { result ≡ number least most digits.now }
{
    if digits.len() > MOST_DIGITS {
        return None;
    }
    let number = number_of(digits.as_bytes())?;
    if number < least || most < number {
        None
    } else {
        Some(number)
    }
}
