//! Trees of scripts, and the tokens that their items begin with.

use crate::prints::EVERYTHING;
use mv_ast::tree::{Item, Script};
use mv_cases::ensure::ensure;
use mv_lex::lexer::lex;
use mv_parser::fault::ParseFault;
use mv_parser::parse::parse;
use std::alloc::Global;
use std::test::Fail;

/// Returns the result of parsing this text.
pub(crate) fn read(alloc: Global, text: &str) -> Result<Result<Script, ParseFault>, Fail> {
    let bytes = text.as_bytes();
    if bytes.len() > 1 << 24 {
        return Err("too long".into());
    }
    let tokens = lex(alloc, bytes).or(Err("no tokens"))?;
    Ok(parse(alloc, &tokens, bytes))
}

/// The first token of each item, counted by hand.
const FIRST: &[u32] = &[1, 38, 41, 237, 260];

fn begin_with(items: &[Item], tokens: &[u32]) -> bool {
    items.len() == tokens.len()
        && items
            .iter()
            .zip(tokens)
            .all(|(item, token)| item.token == *token)
}

#[test]
fn items_begin_with_their_tokens(rt: HostRuntime) -> Result<(), Fail> {
    let Ok(script) = read(rt.alloc(), EVERYTHING)? else {
        return Err("no script".into());
    };
    let holds = begin_with(script.items.as_slice(), FIRST);
    ensure(rt.alloc(), holds, "another token")
}
