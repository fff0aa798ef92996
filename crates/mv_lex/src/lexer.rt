//! From bytes to tokens.

ghost use Rattle.std.specs.Prelude.{◌≡◌, ◌⊎◌, ◌↔◌, ◌≤◌, ◌^◌, ℕ, List as Seq, length, IfOk, MatchResult, Ok, Err};
ghost use Rattle.std.specs.List.{All, prefix_len};
ghost use Rattle.mv_lex.specs.Bytes.{is_allowed};
ghost use Rattle.mv_lex.specs.Told.{LexesTo};
ghost use Rattle.mv_lex.specs.declared.token.Token.{Token};
ghost use Rattle.mv_lex.specs.Tokens.{AreTokens, IsSpelledIn, IsBadByte, IsBadToken};

use crate::classes;
use crate::piece::{Piece, first_piece};
use crate::token::Token;
use mv_values::list::List;
use mv_values::memory::NoMemory;
use std::alloc::Global;

/// Why bytes can't be split into tokens. Positions count from 0.
#[derive(Clone, Copy, Debug, PartialEq, Eq)]
pub enum LexFault {
    /// The byte at this position is the first that isn't 9, 10, 13 or from 32 to 126.
    BadByte { at: u32 },
    /// All bytes are allowed, but no token begins at this position, the first such.
    BadToken { at: u32 },
    NoMemory,
}

impl From<NoMemory> for LexFault {
    ghost use Rattle.std.specs.Prelude.{◌≡◌};
    ghost use Rattle.mv_lex.specs.declared.lexer.LexFault.TheVariants.{NoMemory as Refused};

    ghost from_gives = { λ _ e. e ≡ Refused };

    fn from(_refused: NoMemory) -> LexFault {
        LexFault::NoMemory
    }
}

/// Counts the bytes at the front that a script may contain.
fn allowed_run(bytes: &[u8]) -> usize
    ensures { result ≡ prefix_len is_allowed bytes.now }
{
    bytes
        .iter()
        .take_while(|byte| classes::is_allowed(**byte))
        .count()
}

/// Splits a script into tokens.
fn read(alloc: Global, bytes: &[u8]) -> Result<List<Token>, LexFault>
    requires { length bytes.now ≤ 2 ^ 24 }
    ensures { LexesTo bytes.now result }
{
    let allowed = allowed_run(bytes);
    if allowed < bytes.len() {
        return Err(LexFault::BadByte { at: allowed as u32 });
    }
    let mut tokens = List::new(alloc);
    let mut at = 0;
    while at < bytes.len() {
        match first_piece(&bytes[at..]) {
            Piece::Gap(len) => at += len,
            Piece::Found(kind, len) => {
                tokens.push(Token {
                    kind,
                    at: at as u32,
                    len: len as u32,
                })?;
                at += len;
            }
            Piece::Nothing => return Err(LexFault::BadToken { at: at as u32 }),
        }
    }
    Ok(tokens)
}

/// Splits a script into tokens. Blanks and comments may come between them, and each token is the longest that fits.
/// The script may have at most 2^24 bytes. Fails if a byte isn't allowed, if at some position no token begins, or if
/// memory runs out.
pub fn lex(alloc: Global, bytes: &[u8]) -> Result<List<Token>, LexFault>
    requires { length bytes.now ≤ 2 ^ 24 }
    // The result is the tokens of the bytes.
    ensures found { IfOk result (λ tokens. AreTokens bytes.now tokens) }
    // If the bytes have tokens, the result is these tokens, unless memory runs out.
    ensures only { (tokens : Seq Token) → AreTokens bytes.now tokens → MatchResult result (λ answer. answer ≡ tokens) (λ fault. fault ≡ LexFault.NoMemory) }
    // Each token lies within the bytes and is spelled as its kind requires.
    ensures spelled { IfOk result (λ tokens. All (IsSpelledIn bytes.now) tokens) }
    // `BadByte` is returned if and only if a byte isn't allowed. It has the position of the first one.
    ensures bad_byte { (place : ℕ) → (result ≡ Err (LexFault.BadByte place)) ↔ IsBadByte bytes.now place }
    // `BadToken` has the first position at which no token begins.
    ensures bad_token { (place : ℕ) → result ≡ Err (LexFault.BadToken place) → IsBadToken bytes.now place }
    // If there is such a position, `BadToken` is returned, unless memory runs out.
    ensures bad_token_told { (place : ℕ) → IsBadToken bytes.now place → (result ≡ Err (LexFault.BadToken place)) ⊎ (result ≡ Err LexFault.NoMemory) }
{
    read(alloc, bytes)
}
