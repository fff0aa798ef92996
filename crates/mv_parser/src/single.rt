//! Parses single tokens.

ghost use Rattle.std.specs.Prelude.{◌≡◌, [], ◌∷◌, drop, IsTrue, IfOk, IfSome, length, ◌<◌, ◌-◌};
ghost use Rattle.mv_ast.specs.declared.lexeme.Terminal.TheVariants as word;
ghost use Rattle.mv_ast.specs.Parts.{give, one};
ghost use Rattle.mv_ast.specs.Grammar.{◌◂◌};
ghost use Rattle.mv_parser.specs.Fitting.{fits};
ghost use Rattle.mv_parser.specs.Reading.{starts_with, is_among};
ghost use Rattle.mv_parser.specs.Answers.{ReadsPart, Ahead};

use crate::fault::Failure;
use crate::reader::Reader;
use mv_ast::lexeme::{Lexeme, Terminal};

impl Reader<'_> {
    /// Counts the tokens from a position to the end.
    pub(crate) fn left(&self, at: usize) -> usize
        ensures { result ≡ length (drop at self.now.lexemes.now) }
    {
        self.lexemes.len().saturating_sub(at)
    }

    /// Returns the error for a wrong token at a position.
    pub(crate) fn wrong(&self, at: usize) -> Failure
        ensures { result ≡ Failure.Wrong (length (drop at self.now.lexemes.now)) }
    {
        Failure::Wrong(self.left(at))
    }

    /// Returns the token at a position, if there is one.
    fn peek(&self, at: usize) -> Option<Lexeme>
        ensures ahead { Ahead self.now.lexemes.now at result }
        ensures fitting { IfSome result (λ l. IsTrue (fits self.now.bytes.now l)) }
    {
        match self.lexemes.get(at) {
            Some(lexeme) => Some(*lexeme),
            None => None,
        }
    }

    /// Whether the token at a position is of this kind.
    pub(crate) fn has(&self, at: usize, kind: Terminal) -> bool
        ensures { result ≡ starts_with (kind ∷ []) (drop at self.now.lexemes.now) }
    {
        match self.peek(at) {
            Some(lexeme) => lexeme.kind == kind,
            None => false,
        }
    }

    /// Whether the token at a position is of one of these kinds.
    pub(crate) fn has_any(&self, at: usize, kinds: &[Terminal]) -> bool
        ensures { result ≡ starts_with kinds.now (drop at self.now.lexemes.now) }
    {
        match self.peek(at) {
            Some(lexeme) => is_among(kinds, lexeme.kind),
            None => false,
        }
    }

    /// Parses one token of this kind.
    pub(crate) fn one(&self, at: usize, kind: Terminal) -> Result<(Lexeme, usize), Failure>
        ensures reads { ReadsPart self.now at (λ _. one kind) result }
        ensures fitting { IfOk result (λ x. IsTrue (fits self.now.bytes.now x.0)) }
        ensures kind { IfOk result (λ x. x.0.kind ≡ kind) }
    {
        let Some(lexeme) = self.peek(at) else {
            return Err(self.wrong(at));
        };
        if lexeme.kind == kind {
            Ok((lexeme, at + 1))
        } else {
            Err(self.wrong(at))
        }
    }

    /// Parses a token of this kind and returns the given value.
    pub(crate) fn followed<T: Drop>(
        &self,
        value: T,
        at: usize,
        kind: Terminal,
    ) -> Result<(T, usize), Failure>
        ensures { ReadsPart self.now at (λ _. give value ◂ one kind) result }
    {
        let (_, at) = self.one(at, kind)?;
        Ok((value, at))
    }

    /// Parses END, a word and a semicolon, and returns the given value.
    pub(crate) fn ended<T: Drop>(
        &self,
        value: T,
        at: usize,
        kind: Terminal,
    ) -> Result<(T, usize), Failure>
        ensures { ReadsPart self.now at (λ _. give value ◂ one word.End ◂ one kind ◂ one word.Semicolon) result }
    {
        let (value, at) = self.followed(value, at, Terminal::End)?;
        let (value, at) = self.followed(value, at, kind)?;
        self.followed(value, at, Terminal::Semicolon)
    }
}

/// Whether the kind is one of these kinds.
fn is_among(kinds: &[Terminal], kind: Terminal) -> bool
    ensures { result ≡ is_among kinds.now kind }
{
    for other in kinds {
        if kind == *other {
            return true;
        }
    }
    false
}
