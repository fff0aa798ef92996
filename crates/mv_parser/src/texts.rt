//! Decodes the bytes of a token.

ghost use Rattle.std.specs.Prelude.{◌≡◌, ◌≤◌, ◌<◌, ◌-◌, ◌∷◌, IfOk, IfSome, IsTrue, ◌==◌, drop, length, pos, slice_range, slice_index};
ghost use Rattle.std.specs.List.{list_all, All, position};
ghost use Rattle.mv_values.specs.Printable.{is_printable};
ghost use Rattle.mv_ast.specs.Texts.{lower, number, undoubled, unquoted, first_line, last_line};

use mv_limits::texts::{behind_letter, between};
use mv_values::memory::NoMemory;
use mv_values::txt::Txt;
use std::alloc::Global;

/// Returns the text in lower case.
#[tactic(auto, using(crate::proofs::TextLaws::lower_printable))]
pub(crate) fn lowered(alloc: Global, text: &[u8]) -> Result<Txt, NoMemory>
    requires { IsTrue (list_all is_printable text.now) }
    ensures { IfOk result (λ t. t ≡ lower text.now) }
{
    let small = small_letters(alloc, text)?;
    Txt::of(alloc, &small)
}

fn small_letters(alloc: Global, text: &[u8]) -> Result<Vec<u8>, NoMemory>
    ensures { IfOk result (λ v. v.items ≡ lower text.now) }
{
    Ok(text.iter().map(|b| b.to_ascii_lowercase()).collect(alloc)?)
}

/// Returns the text without its first byte.
pub(crate) fn behind_first(text: &[u8]) -> &[u8]
    ensures { result.now ≡ drop 1 text.now }
{
    match text {
        [_, rest @ ..] => rest,
        _ => text,
    }
}

/// Returns the value of decimal digits, or the greatest INT if it is above that.
#[tactic(auto, using(crate::proofs::TextLaws::number_turn, mv_limits::proofs::TextLaws::value_end))]
pub(crate) fn number(digits: &[u8]) -> i64
    ensures { result ≡ pos (number digits.now) }
{
    let mut value: u64 = 0;
    for digit in digits {
        let units = u64::from(digit.saturating_sub(b'0'));
        value = value.saturating_mul(10).saturating_add(units).min(GREATEST);
    }
    value as i64
}

const GREATEST: u64 = 9_223_372_036_854_775_807;

/// Returns the contents of a quoted text, with each doubled quote replaced by one.
#[tactic(auto, using(crate::proofs::TextLaws::unquoted_printable))]
pub(crate) fn unquoted(alloc: Global, text: &[u8]) -> Result<Txt, NoMemory>
    requires { IsTrue (list_all is_printable text.now) }
    ensures { IfOk result (λ t. t ≡ unquoted text.now) }
{
    let content = undoubled(alloc, between(text))?;
    Txt::of(alloc, &content)
}

/// Returns the bytes with each doubled quote replaced by one.
#[tactic(auto, using(crate::proofs::TextLaws::letter_kept))]
fn undoubled(alloc: Global, text: &[u8]) -> Result<Vec<u8>, NoMemory>
    ensures { IfOk result (λ v. v.items ≡ undoubled text.now) }
{
    let mut single = Vec::new(alloc);
    let mut at = 0;
    while at < text.len() {
        single.push(text[at])?;
        at = behind_letter(text, at);
    }
    Ok(single)
}

/// Returns the length of the first line, LF included.
#[tactic(auto, using(crate::proofs::TextLaws::first_line_within))]
pub(crate) fn first_line(text: &[u8]) -> usize
    ensures value { result ≡ first_line text.now }
    ensures within { result ≤ length text.now }
{
    match first_end(text) {
        Some(at) => at + 1,
        None => text.len(),
    }
}

/// Returns the position of the first LF.
fn first_end(text: &[u8]) -> Option<usize>
    ensures value { result ≡ position (λ b. b == 10) text.now }
    ensures within { IfSome result (λ at. at < length text.now) }
{
    text.iter().position(|b| *b == b'\n')
}

/// Returns the length of the line that ends a block.
pub(crate) fn last_line(text: &[u8]) -> usize
    ensures value { result ≡ last_line text.now }
    ensures few { result ≤ 4 }
{
    if text.ends_with(b"\r\n") {
        4
    } else if text.ends_with(b"\n") {
        3
    } else {
        2
    }
}
