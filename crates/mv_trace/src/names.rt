//! The procedures that a script calls.

use crate::fault::TextFault;
use crate::tokens::{is_word, text_of, tokens_of};
use mv_lex::token::Kind;
use mv_values::list::List;
use std::alloc::Global;

/// Returns the name of the procedure of each call of a script, as the calls write it.
pub(crate) fn names_of(alloc: Global, script: &[u8]) -> Result<List<&[u8]>, TextFault> {
    let tokens = tokens_of(alloc, script)?;
    let mut names = List::new(alloc);
    for pair in tokens.as_slice().windows(2) {
        if let [call, name] = pair {
            if is_word(script, call, b"call") && name.kind == Kind::Word {
                names.push(text_of(script, name))?;
            }
        }
    }
    Ok(names)
}
