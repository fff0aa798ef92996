//! The bytes of tokens.

ghost use Rattle.std.specs.Prelude.{◌≡◌, ◌<◌, ◌≤◌, ◌-◌, ◌+◌, ◌∷◌, drop, length, min, slice_range, slice_index};
ghost use Rattle.mv_ast.specs.Texts.{spelling, number_from, undoubled, unquoted, greatest};

use mv_ast::lexeme::Lexeme;

/// The greatest INT.
pub(crate) const GREATEST: u64 = 9_223_372_036_854_775_807;

/// Returns the bytes of a token, cut off at the end of `bytes`.
pub(crate) fn spelling<'a>(bytes: &'a [u8], lexeme: &Lexeme) -> &'a [u8]
    ensures { result.now ≡ spelling bytes.now lexeme.now }
{
    let start = (lexeme.at as usize).min(bytes.len());
    let end = (lexeme.at as usize + lexeme.len as usize).min(bytes.len());
    &bytes[start..end]
}

/// Returns the value of digits, but at most one more than the greatest INT.
#[tactic(auto, using(crate::proofs::TextLaws::value_turn, crate::proofs::TextLaws::value_end))]
pub(crate) fn value(digits: &[u8]) -> u64
    ensures { result ≡ min (number_from 0 digits.now) (greatest + 1) }
{
    let mut value: u64 = 0;
    for digit in digits {
        let units = u64::from(digit.saturating_sub(b'0'));
        value = value
            .saturating_mul(10)
            .saturating_add(units)
            .min(GREATEST + 1);
    }
    value
}

/// Returns the text without its first and last bytes.
pub fn between(text: &[u8]) -> &[u8]
    ensures { result.now ≡ slice_range text.now 1 (length text.now - 1) }
{
    if text.len() < 2 {
        return &[];
    }
    &text[1..text.len() - 1]
}

/// Returns the length of the text after each doubled quote is replaced by one.
fn undoubled_len(text: &[u8]) -> usize
    ensures { result ≡ length (undoubled text.now) }
{
    let mut count = 0;
    let mut at = 0;
    while at < text.len() {
        count += 1;
        at = behind_letter(text, at);
    }
    count
}

/// Returns the index after the letter at an index. A doubled quote is one letter.
#[tactic(auto, using(crate::proofs::TextLaws::letter_twice, crate::proofs::TextLaws::letter_once, crate::proofs::TextLaws::letter_last))]
pub fn behind_letter(text: &[u8], at: usize) -> usize
    requires { at < length text.now }
    ensures letter { undoubled (drop at text.now) ≡ slice_index text.now at ∷ undoubled (drop result text.now) }
    ensures further { at < result }
    ensures within { result ≤ length text.now }
{
    if text[at] == b'\'' && at + 1 < text.len() {
        at + 2
    } else {
        at + 1
    }
}

/// Returns the length in bytes of the value of a text.
pub(crate) fn unquoted_len(text: &[u8]) -> usize
    ensures { result ≡ length (unquoted text.now) }
{
    undoubled_len(between(text))
}
