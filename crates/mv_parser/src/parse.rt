//! The entry point of the parser.

ghost use Rattle.std.specs.Prelude.{◌≡◌, ◌⊎◌, ◌≤◌, ◌^◌, ℕ, Err, length, IfOk, MatchResult};
ghost use Rattle.std.specs.List.{All};
ghost use Rattle.mv_lex.specs.Tokens.{AreTokens, IsSpelledIn};
ghost use Rattle.mv_ast.specs.declared.limit.Which.{Which};
ghost use Rattle.mv_ast.specs.declared.tree.Script.{Script};
ghost use Rattle.mv_ast.specs.Lexemes.{IsScript, PassesLimit, CannotStand, lexemes};
ghost use Rattle.mv_parser.specs.Whole.{parsed, Answers, ParsesTo};

use crate::fault::{Failure, ParseFault};
use crate::lexing::lexemes_of;
use crate::reader::Reader;
use mv_ast::limit::PassedLimit;
use mv_ast::tree::Script;
use mv_lex::token::Token;
use mv_limits::early::first_early;
use mv_limits::late::first_late;
use mv_values::list::List;
use std::alloc::Global;

/// Parses the tokens of these bytes as a script. Takes time linear in the number of bytes.
///
/// # Errors
/// The checks run in this order, and the first that fails is returned:
/// 1. `Limit` if the tokens exceed the limit of depth or stretch.
/// 2. `Syntax` if the tokens aren't a script by the grammar. Its token is the first with which no
///    script continues, or one past the last.
/// 3. `Limit` if the script exceeds another limit.
///
/// The token of `Limit` is the first at which the limit is exceeded. `NoMemory` is returned if
/// memory runs out.
pub fn parse(alloc: Global, tokens: &List<Token>, bytes: &[u8]) -> Result<Script, ParseFault>
    requires size { length bytes.now ≤ 2 ^ 24 }
    requires tokens { AreTokens bytes.now tokens.now }
    requires spelled { All (IsSpelledIn bytes.now) tokens.now }
    // A returned script conforms to the grammar and the limits.
    ensures found { IfOk result (λ script. IsScript bytes.now tokens.now script) }
    // A script that conforms to the grammar and the limits is returned.
    ensures only { (script : Script) → IsScript bytes.now tokens.now script → MatchResult result (λ answer. answer ≡ script) (λ fault. fault ≡ ParseFault.NoMemory) }
    // The reported token is the first with which no script continues.
    ensures syntax { (token : ℕ) → result ≡ Err (ParseFault.Syntax token) → CannotStand bytes.now tokens.now token }
    // If there is such a token, it is reported.
    ensures syntax_told { (token : ℕ) → CannotStand bytes.now tokens.now token → (result ≡ Err (ParseFault.Syntax token)) ⊎ (result ≡ Err ParseFault.NoMemory) }
    // The reported limit is exceeded at the reported token.
    ensures limit { (which : Which) (token : ℕ) → result ≡ Err (ParseFault.Limit which token) → PassesLimit bytes.now tokens.now which token }
    // If a limit is exceeded, it is reported.
    ensures limit_told { (which : Which) (token : ℕ) → PassesLimit bytes.now tokens.now which token → (result ≡ Err (ParseFault.Limit which token)) ⊎ (result ≡ Err ParseFault.NoMemory) }
{
    read_script(alloc, tokens, bytes)
}

/// Parses all tokens as a script and checks the limits.
fn read_script(alloc: Global, tokens: &List<Token>, bytes: &[u8]) -> Result<Script, ParseFault>
    requires size { length bytes.now ≤ 2 ^ 24 }
    requires few { length tokens.now ≤ 2 ^ 24 }
    requires spelled { All (IsSpelledIn bytes.now) tokens.now }
    ensures { ParsesTo bytes.now (lexemes bytes.now tokens.now) (parsed bytes.now (length (lexemes bytes.now tokens.now)) (lexemes bytes.now tokens.now)) result }
{
    let list = lexemes_of(alloc, tokens, bytes)?;
    let lexemes = list.as_slice();
    if let Some(PassedLimit { which, token }) = first_early(lexemes) {
        return Err(ParseFault::Limit { which, token });
    }
    let depth = lexemes.len();
    let reader = Reader {
        alloc,
        bytes,
        lexemes,
        depth,
    };
    match whole_script(&reader) {
        Ok(script) => match first_late(bytes, lexemes, &script) {
            Some(PassedLimit { which, token }) => Err(ParseFault::Limit { which, token }),
            None => Ok(script),
        },
        Err(Failure::Memory) => Err(ParseFault::NoMemory),
        Err(Failure::Wrong(left)) => Err(ParseFault::Syntax {
            token: lexemes.len().saturating_sub(left) as u32 + 1,
        }),
    }
}

/// Parses all tokens as a script.
#[tactic(auto, unfolding(mv_ast::specs::Grammar::script), using(crate::proofs::Parsing::whole_end, crate::proofs::Parsing::whole_more))]
fn whole_script(reader: &Reader) -> Result<Script, Failure>
    ensures { Answers result (parsed reader.now.bytes.now reader.now.depth reader.now.lexemes.now) }
{
    let (items, at) = reader.items(0)?;
    if at < reader.lexemes.len() {
        return Err(Failure::Wrong(reader.lexemes.len() - at));
    }
    Ok(Script { items })
}
