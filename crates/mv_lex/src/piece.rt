//! Reading the first piece of some bytes: a blank, a comment or a token.

ghost use Rattle.std.specs.Prelude.{◌≡◌, ◌≤◌, ◌<◌, length, true, false, IfSome, if◌then◌else◌, Option, Some, None};
ghost use Rattle.std.specs.List.{prefix_len};
ghost use Rattle.mv_lex.specs.Bytes as class;
ghost use Rattle.mv_lex.specs.Spelling.{is_inner_blank};
ghost use Rattle.mv_lex.specs.Reading as reading;

use crate::classes::{
    begins_word, continues_word, is_blank, is_digit, is_long_symbol, is_printable, is_short_symbol,
};
use crate::token::Kind;

/// The first piece and its length in bytes.
#[derive(Clone, Copy)]
pub(crate) enum Piece {
    /// A blank or a comment.
    Gap(usize),
    Found(Kind, usize),
    Nothing,
}

/// Counts the bytes at the front that continue a word.
fn word_run(bytes: &[u8]) -> usize
    ensures len { result ≡ prefix_len class.continues_word bytes.now }
    ensures within { result ≤ length bytes.now }
{
    bytes
        .iter()
        .take_while(|byte| continues_word(**byte))
        .count()
}

/// Counts the digits at the front.
fn digit_run(bytes: &[u8]) -> usize
    ensures len { result ≡ prefix_len class.is_digit bytes.now }
    ensures within { result ≤ length bytes.now }
{
    bytes.iter().take_while(|byte| is_digit(**byte)).count()
}

/// Counts the blanks at the front, up to the first LF.
fn blank_run(bytes: &[u8]) -> usize
    ensures len { result ≡ prefix_len is_inner_blank bytes.now }
    ensures within { result ≤ length bytes.now }
{
    bytes
        .iter()
        .take_while(|byte| is_blank(**byte) && **byte != b'\n')
        .count()
}

/// Counts the bytes before the end of the line.
fn line_run(bytes: &[u8]) -> usize
    ensures len { result ≡ prefix_len class.is_in_line bytes.now }
    ensures within { result ≤ length bytes.now }
{
    bytes.iter().take_while(|byte| **byte != b'\n').count()
}

/// Returns the length of the word at the front, if there is one.
fn word_len(bytes: &[u8]) -> Option<usize>
    ensures len { result ≡ reading.word_len bytes.now }
    ensures within { IfSome result (λ len. len ≤ length bytes.now) }
{
    match bytes {
        [first, rest @ ..] if begins_word(*first) => Some(1 + word_run(rest)),
        _ => None,
    }
}

/// Returns the length of the symbol at the front, if there is one. `<<` and `--` aren't symbols.
fn symbol_len(bytes: &[u8]) -> Option<usize>
    ensures { result ≡ reading.symbol_len bytes.now }
{
    match bytes {
        [first, second, ..] if is_long_symbol(*first, *second) => Some(2),
        [b'<', b'<', ..] | [b'-', b'-', ..] => None,
        [first, ..] if is_short_symbol(*first) => Some(1),
        _ => None,
    }
}

/// Returns the length of a text after its opening quote, up to the last quote that can close it.
fn text_len(bytes: &[u8]) -> Option<usize>
    ensures len { result ≡ reading.text_len false bytes.now }
    ensures within { IfSome result (λ len. len ≤ length bytes.now) }
{
    let mut end = None;
    let mut closed = false;
    for (i, byte) in bytes.iter().enumerate() {
        if *byte == b'\'' {
            closed = !closed;
            if closed {
                end = Some(i + 1);
            }
        } else if closed || !is_printable(*byte) {
            return end;
        }
    }
    end
}

/// Returns the length of the first line if it closes a block. `fresh` says whether a line begins here.
fn closing_len(fresh: bool, bytes: &[u8]) -> Option<usize>
    ensures len { result ≡ (if fresh then reading.closing_len bytes.now else None) }
    ensures within { IfSome result (λ len. len ≤ length bytes.now) }
{
    match bytes {
        _ if !fresh => None,
        [b'>', b'>'] => Some(2),
        [b'>', b'>', b'\n', ..] => Some(3),
        [b'>', b'>', b'\r', b'\n', ..] => Some(4),
        _ => None,
    }
}

/// Returns the length of the lines up to the end of the first one that closes a block.
fn block_len(bytes: &[u8]) -> Option<usize>
    ensures len { result ≡ reading.block_len true bytes.now }
    ensures within { IfSome result (λ len. len ≤ length bytes.now) }
{
    let mut fresh = true;
    for (i, byte) in bytes.iter().enumerate() {
        if let Some(len) = closing_len(fresh, &bytes[i..]) {
            return Some(i + len);
        }
        fresh = *byte == b'\n';
    }
    None
}

/// Returns the kind of a block and its length after `<<`, if there is one.
fn block(bytes: &[u8]) -> Option<(Kind, usize)>
    ensures block { result ≡ reading.block_of bytes.now }
    ensures within { IfSome result (λ found. found.1 ≤ length bytes.now) }
{
    let blanks = blank_run(bytes);
    match &bytes[blanks..] {
        [] => Some((Kind::OpenBlock, blanks)),
        [b'\n', body @ ..] => match block_len(body) {
            Some(len) => Some((Kind::Block, blanks + 1 + len)),
            None => Some((Kind::OpenBlock, blanks + 1 + body.len())),
        },
        _ => None,
    }
}

/// Returns the kind and the length of the longest token at the front, if there is one.
#[tactic(auto, unfolding(crate::specs::Reading::token_of))]
fn first_token(bytes: &[u8]) -> Option<(Kind, usize)>
    ensures token { result ≡ reading.token_of bytes.now }
    ensures within { IfSome result (λ found. found.1 ≤ length bytes.now) }
{
    match bytes {
        [b'\'', rest @ ..] => text_len(rest).map(|len| (Kind::Text, 1 + len)),
        [b':', rest @ ..] => word_len(rest).map(|len| (Kind::Variable, 1 + len)),
        [b'<', b'<', rest @ ..] => block(rest).map(|(kind, len)| (kind, 2 + len)),
        [first, rest @ ..] if begins_word(*first) => Some((Kind::Word, 1 + word_run(rest))),
        [first, rest @ ..] if is_digit(*first) => Some((Kind::Number, 1 + digit_run(rest))),
        _ => symbol_len(bytes).map(|len| (Kind::Symbol, len)),
    }
}

/// Returns the length of the blank or the comment at the front, if there is one.
fn gap_len(bytes: &[u8]) -> Option<usize>
    ensures { result ≡ reading.gap_len bytes.now }
{
    match bytes {
        [b'-', b'-', rest @ ..] => Some(2 + line_run(rest)),
        [first, ..] if is_blank(*first) => Some(1),
        _ => None,
    }
}

/// Returns the piece at the front.
pub(crate) fn first_piece(bytes: &[u8]) -> Piece
    ensures piece { result ≡ reading.piece_of bytes.now }
    ensures within { reading.IsWithin result (length bytes.now) }
{
    if let Some(len) = gap_len(bytes) {
        return Piece::Gap(len);
    }
    match first_token(bytes) {
        Some((kind, len)) => Piece::Found(kind, len),
        None => Piece::Nothing,
    }
}
