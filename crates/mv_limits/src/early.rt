//! Depth and stretch. They are checked on the tokens, before the grammar.

ghost use Rattle.std.specs.Prelude.{◌≡◌, ◌≤◌, ◌+◌, if◌then◌else◌};
ghost use Rattle.mv_ast.specs.Limits.{is_end, is_opening, is_closing, is_stop, deeper, first_early};

use mv_ast::lexeme::{Lexeme, Terminal};
use mv_ast::limit::{PassedLimit, Which};

/// The greatest nesting depth of parentheses, IF, FOR and BEGIN.
const DEPTH: u32 = 32;

/// The most successive tokens without `;`, `,` or a block.
const STRETCH: u32 = 1000;

/// The counts after a token, and whether that token is END.
#[derive(Clone, Copy)]
struct Counts {
    depth: u32,
    stretch: u32,
    behind_end: bool,
}

fn is_opening(kind: Terminal, behind_end: bool) -> bool
    ensures { result ≡ is_opening kind behind_end }
{
    match kind {
        Terminal::Open | Terminal::Begin => true,
        Terminal::If | Terminal::For => !behind_end,
        _ => false,
    }
}

fn is_closing(kind: Terminal) -> bool
    ensures { result ≡ is_closing kind }
{
    match kind {
        Terminal::Close | Terminal::End => true,
        _ => false,
    }
}

fn is_end(kind: Terminal) -> bool
    ensures { result ≡ is_end kind }
{
    match kind {
        Terminal::End => true,
        _ => false,
    }
}

fn is_stop(kind: Terminal) -> bool
    ensures { result ≡ is_stop kind }
{
    match kind {
        Terminal::Semicolon | Terminal::Comma | Terminal::Block | Terminal::OpenBlock => true,
        _ => false,
    }
}

fn deeper(kind: Terminal, behind_end: bool, depth: u32) -> u32
    requires { depth ≤ 32 }
    ensures { result ≡ deeper kind behind_end depth }
{
    if is_opening(kind, behind_end) {
        depth + 1
    } else if is_closing(kind) {
        depth.saturating_sub(1)
    } else {
        depth
    }
}

impl Counts {
    /// Returns the counts after one more token.
    fn after(self, kind: Terminal) -> Counts
        requires depth { self.depth ≤ 32 }
        requires stretch { self.stretch ≤ 1000 }
        ensures depth { result.depth ≡ deeper kind self.behind_end self.depth }
        ensures stretch { result.stretch ≡ (if is_stop kind then 0 else self.stretch + 1) }
        ensures behind { result.behind_end ≡ is_end kind }
    {
        Counts {
            depth: deeper(kind, self.behind_end, self.depth),
            stretch: if is_stop(kind) { 0 } else { self.stretch + 1 },
            behind_end: is_end(kind),
        }
    }
}

/// Returns the first token at which depth or stretch is passed. If both are passed there, depth counts. The cost is
/// linear in the number of tokens.
pub fn first_early(lexemes: &[Lexeme]) -> Option<PassedLimit>
    ensures { result ≡ first_early lexemes.now }
{
    let mut counts = Counts {
        depth: 0,
        stretch: 0,
        behind_end: false,
    };
    for lexeme in lexemes {
        let token = lexeme.number;
        counts = counts.after(lexeme.kind);
        if counts.depth > DEPTH {
            let which = Which::Depth;
            return Some(PassedLimit { which, token });
        }
        if counts.stretch > STRETCH {
            let which = Which::Stretch;
            return Some(PassedLimit { which, token });
        }
    }
    None
}
