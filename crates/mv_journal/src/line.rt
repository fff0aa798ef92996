//! Reads the line of an event.

ghost use Rattle.std.specs.Prelude.{◌≡◌, ◌↔◌, ◌<◌, ◌==◌, ◌∷◌, length, Some, IfSome};
ghost use Rattle.std.specs.Char.{is_ascii_digit};
ghost use Rattle.std.specs.List.{position, list_all};
ghost use Rattle.std.specs.Str.Lines.{lines, strip_carriage_return};
ghost use Rattle.mv_journal.specs.Lines.{IsEventLine};
ghost use Rattle.mv_journal.specs.Reading.{number_in, named, event_in};
ghost use Rattle.mv_journal.specs.declared.event.Event.{Event};

use crate::event::Event;
use std::str;

/// The first line of a text, without the LF or CR LF that ends it, and the bytes after it.
#[derive(Drop)]
pub(crate) struct FirstLine<'a> {
    pub(crate) line: &'a [u8],
    pub(crate) after: &'a [u8],
}

/// Splits off the first line. The last line may lack its LF.
pub(crate) fn first_line(bytes: &[u8]) -> FirstLine<'_>
    requires { 0 < length bytes.now }
    ensures lines { lines bytes.now ≡ result.line.now ∷ lines result.after.now }
    ensures shorter { length result.after.now < length bytes.now }
{
    match end_of_line(bytes) {
        Some(at) => FirstLine {
            line: without_return(&bytes[..at]),
            after: &bytes[at + 1..],
        },
        None => FirstLine {
            line: bytes,
            after: &[],
        },
    }
}

/// Returns the place of the first LF.
fn end_of_line(bytes: &[u8]) -> Option<usize>
    ensures value { result ≡ position (λ b. b == 10) bytes.now }
    ensures within { IfSome result (λ at. at < length bytes.now) }
{
    bytes.iter().position(|b| *b == b'\n')
}

/// Strips one CR from the end of a line, if there is one.
fn without_return(line: &[u8]) -> &[u8]
    ensures { result.now ≡ strip_carriage_return line.now }
{
    match line.last() {
        Some(b'\r') => &line[..line.len() - 1],
        _ => line,
    }
}

/// Parses a line as an event, or returns none if it isn't one. An event is a letter, and except for a collection one
/// space and a decimal number up to 4294967295. Leading zeros are allowed. Takes time linear in the length of the line.
pub fn read_event(line: &[u8]) -> Option<Event>
    ensures value { result ≡ event_in line.now }
    ensures event { (event : Event) → (result ≡ Some event) ↔ IsEventLine line.now event }
{
    match line {
        [b'G'] => Some(Event::G),
        [letter, b' ', digits @ ..] => named(*letter, number_of(digits)?),
        _ => None,
    }
}

/// Returns the event with this letter and the number of its call, if there is one.
fn named(letter: u8, call: u32) -> Option<Event>
    ensures { result ≡ named letter call }
{
    match letter {
        b'B' => Some(Event::B(call)),
        b'S' => Some(Event::S(call)),
        b'A' => Some(Event::A(call)),
        b'M' => Some(Event::M(call)),
        b'C' => Some(Event::C(call)),
        b'X' => Some(Event::X(call)),
        b'R' => Some(Event::R(call)),
        _ => None,
    }
}

/// Returns the number that decimal digits write. None if there is no digit, if another byte is among them, or if the number
/// is above 4294967295. Leading zeros are allowed.
pub fn number_of(digits: &[u8]) -> Option<u32>
    ensures { result ≡ number_in digits.now }
{
    if !are_digits(digits) {
        return None;
    }
    let text = str::from_utf8(digits).ok()?;
    text.parse::<u32>().ok()
}

/// Whether all bytes are decimal digits.
fn are_digits(bytes: &[u8]) -> bool
    ensures { result ≡ list_all is_ascii_digit bytes.now }
{
    bytes.iter().all(|byte| byte.is_ascii_digit())
}
