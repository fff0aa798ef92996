//! The input of `audit`: the number of a script's bytes, the script, and a report.

ghost use Rattle.std.specs.Prelude.{◌≤◌, length, IfSome};

use crate::place::first_line;
use crate::refusal::number_in;
use std::str;

/// The most digits of a head.
const MOST_DIGITS: usize = 8;

/// Where in an input of `audit` the script begins, and where it ends.
#[derive(Clone, Copy)]
pub(crate) struct Head {
    pub(crate) from: usize,
    pub(crate) to: usize,
}

/// Returns where the script of an input of `audit` is. `None` if a file is no such input.
pub(crate) fn head_of(file: &[u8]) -> Option<Head>
    ensures { IfSome result (λ head. (head.from ≤ head.to) × (head.to ≤ length file.now)) }
{
    let digits = first_line(file);
    let length = length_in(digits)?;
    let from = digits.len() + 1;
    let to = from.saturating_add(length);
    if to > file.len() {
        return None;
    }
    Some(Head { from, to })
}

/// Returns the number of bytes that a head tells.
fn length_in(digits: &[u8]) -> Option<usize> {
    if digits.len() > MOST_DIGITS || !digits.iter().all(|byte| byte.is_ascii_digit()) {
        return None;
    }
    Some(number_in(str::from_utf8(digits).ok()?)? as usize)
}

/// Returns the part of a file that is a script, and how many lines of the file are before it.
pub(crate) fn script_in(file: &[u8]) -> (&[u8], usize) {
    match head_of(file) {
        Some(head) => (&file[head.from..head.to], 1),
        None => (file, 0),
    }
}
