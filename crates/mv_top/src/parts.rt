//! The script that a command takes of its input.

ghost use Rattle.std.specs.Prelude.{◌≡◌, ◌<◌, ◌≤◌, ◌==◌, length, Ok, Err, IfSome, MatchResult};
ghost use Rattle.std.specs.List.{position};
ghost use Rattle.std.specs.Option.{option_map};
ghost use Rattle.mv_top.specs.Inputs.{script_in};
ghost use Rattle.mv_top.specs.Parts.{length_in, parts_from, parts_after, parts_of, report_in, headed_script, with_values};

use crate::refusal::Refusal;
use mv_accept::accept::MOST_BYTES;
use mv_accept::refusal::ScriptRefusal;
use mv_journal::line::number_of;
use mv_words::command::Command;

/// The most digits of a head.
const MOST_DIGITS: usize = 8;

/// The parts of an input of `audit`.
#[derive(Clone, Copy)]
pub(crate) struct Parts<'b> {
    pub(crate) script: &'b [u8],
    pub(crate) report: &'b [u8],
}

/// Returns the number that 1 to 8 decimal digits write.
fn length_in(digits: &[u8]) -> Option<u32>
    ensures { result ≡ length_in digits.now }
{
    if digits.len() > MOST_DIGITS {
        return None;
    }
    number_of(digits)
}

/// Returns a script of so many bytes from a place on, and the report after it. None if there are fewer bytes.
fn parts_from(bytes: &[u8], from: usize, count: u32) -> Option<Parts<'_>>
    requires { from ≤ length bytes.now }
    ensures { option_map with_values result ≡ parts_from bytes.now from count }
{
    let to = from + count as usize;
    if bytes.len() < to {
        return None;
    }
    Some(Parts {
        script: &bytes[from..to],
        report: &bytes[to..],
    })
}

/// Returns the parts after a head whose digits end at this place.
fn parts_after(bytes: &[u8], at: usize) -> Option<Parts<'_>>
    requires { at < length bytes.now }
    ensures { option_map with_values result ≡ parts_after bytes.now at }
{
    match length_in(&bytes[..at]) {
        Some(count) => parts_from(bytes, at + 1, count),
        None => None,
    }
}

/// Returns the place of the first LF.
fn end_of_head(bytes: &[u8]) -> Option<usize>
    ensures value { result ≡ position (λ b. b == 10) bytes.now }
    ensures within { IfSome result (λ at. at < length bytes.now) }
{
    bytes.iter().position(|byte| *byte == b'\n')
}

/// Splits an input after its head and after its script. None if it has no head, or fewer bytes than the head tells.
fn parts_of(bytes: &[u8]) -> Option<Parts<'_>>
    ensures { option_map with_values result ≡ parts_of bytes.now }
{
    match end_of_head(bytes) {
        Some(at) => parts_after(bytes, at),
        None => None,
    }
}

/// Returns the report of an input.
pub(crate) fn report_in(bytes: &[u8]) -> &[u8]
    ensures report { result.now ≡ report_in bytes.now }
    ensures few { length result.now ≤ length bytes.now }
{
    match parts_of(bytes) {
        Some(parts) => parts.report,
        None => &[],
    }
}

/// Returns the script of an input with a head.
fn headed_script(bytes: &[u8]) -> Result<&[u8], Refusal>
    ensures { MatchResult result (λ script. headed_script bytes.now ≡ Ok script.now) (λ refusal. headed_script bytes.now ≡ Err refusal) }
{
    if bytes.len() > MOST_BYTES {
        return Err(Refusal::Script(ScriptRefusal::TooLong));
    }
    match parts_of(bytes) {
        Some(parts) => Ok(parts.script),
        None => Err(Refusal::Head),
    }
}

/// Returns the script that a command takes of its input: for `audit` the one after the head, for each other command all
/// bytes.
pub(crate) fn script_in<'b>(command: &Command, bytes: &'b [u8]) -> Result<&'b [u8], Refusal>
    ensures { MatchResult result (λ script. script_in command.now bytes.now ≡ Ok script.now) (λ refusal. script_in command.now bytes.now ≡ Err refusal) }
{
    match command {
        Command::Audit { .. } => headed_script(bytes),
        _ => Ok(bytes),
    }
}
