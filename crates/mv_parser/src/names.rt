//! Parses names, numbers, texts and blocks.

ghost use Rattle.std.specs.Prelude.{◌≡◌, ◌+◌, ℕ, ℤ, pos, drop, IsTrue, IfOk};
ghost use Rattle.std.specs.List.{list_all};
ghost use Rattle.mv_values.specs.Printable.{is_printable};
ghost use Rattle.mv_ast.specs.declared.lexeme.Terminal.TheVariants as word;
ghost use Rattle.mv_ast.specs.Parts.{give, one};
ghost use Rattle.mv_ast.specs.Texts.{spelling, lower};
ghost use Rattle.mv_ast.specs.Grammar.{◌⊛◌, place, name, variable, block, number_of, text_of};
ghost use Rattle.mv_parser.specs.Fitting.{fits};
ghost use Rattle.mv_parser.specs.Answers.{ReadsPart};

use crate::fault::Failure;
use crate::reader::Reader;
use crate::texts::{behind_first, first_line, last_line, lowered, number, unquoted};
use mv_ast::lexeme::{Lexeme, Terminal};
use mv_ast::tree::{Name, Span};
use mv_values::memory::NoMemory;
use mv_values::txt::Txt;

impl Reader<'_> {
    /// Returns the bytes of a token.
    fn spelling(&self, lexeme: Lexeme) -> &[u8]
        requires { IsTrue (fits self.now.bytes.now lexeme) }
        ensures { result.now ≡ spelling self.now.bytes.now lexeme }
    {
        let at = lexeme.at as usize;
        &self.bytes[at..at + lexeme.len as usize]
    }

    /// Parses a token of this kind and returns its number.
    pub(crate) fn place(&self, at: usize, kind: Terminal) -> Result<(u32, usize), Failure>
        ensures { ReadsPart self.now at (λ _. place kind) result }
    {
        let (lexeme, at) = self.one(at, kind)?;
        Ok((lexeme.number, at))
    }

    /// Parses a name.
    #[tactic(auto, unfolding(mv_ast::specs::Grammar::name))]
    pub(crate) fn name(&self, at: usize) -> Result<(Name, usize), Failure>
        ensures { ReadsPart self.now at name result }
    {
        let (lexeme, at) = self.one(at, Terminal::Name)?;
        let text = lowered(self.alloc, self.spelling(lexeme))?;
        let token = lexeme.number;
        Ok((Name { text, token }, at))
    }

    /// Parses a variable. Its name is without the colon.
    #[tactic(auto, using(crate::proofs::TextLaws::behind_printable), unfolding(mv_ast::specs::Grammar::variable))]
    pub(crate) fn variable(&self, at: usize) -> Result<(Name, usize), Failure>
        ensures { ReadsPart self.now at variable result }
    {
        let (lexeme, at) = self.one(at, Terminal::Variable)?;
        let text = lowered(self.alloc, behind_first(self.spelling(lexeme)))?;
        let token = lexeme.number;
        Ok((Name { text, token }, at))
    }

    /// Returns the value of a number token.
    pub(crate) fn number_of(&self, lexeme: Lexeme) -> i64
        requires { IsTrue (fits self.now.bytes.now lexeme) }
        ensures { result ≡ pos (number_of self.now.bytes.now lexeme) }
    {
        number(self.spelling(lexeme))
    }

    /// Returns the value of a text token.
    pub(crate) fn text_of(&self, lexeme: Lexeme) -> Result<Txt, NoMemory>
        requires fitting { IsTrue (fits self.now.bytes.now lexeme) }
        requires quoted { lexeme.kind ≡ word.Quoted }
        ensures { IfOk result (λ text. text ≡ text_of self.now.bytes.now lexeme) }
    {
        unquoted(self.alloc, self.spelling(lexeme))
    }

    /// Parses a text.
    pub(crate) fn quoted(&self, at: usize) -> Result<(Txt, usize), Failure>
        ensures { ReadsPart self.now at (λ bytes. give (text_of bytes) ⊛ one word.Quoted) result }
    {
        let (lexeme, at) = self.one(at, Terminal::Quoted)?;
        let text = self.text_of(lexeme)?;
        Ok((text, at))
    }

    /// Parses a block.
    #[tactic(auto, unfolding(mv_ast::specs::Grammar::block))]
    pub(crate) fn block(&self, at: usize) -> Result<(Span, usize), Failure>
        ensures { ReadsPart self.now at block result }
    {
        let closed = self.has(at, Terminal::Block);
        let kind = if closed {
            Terminal::Block
        } else {
            Terminal::OpenBlock
        };
        let (lexeme, at) = self.one(at, kind)?;
        let text = self.spelling(lexeme);
        let head = first_line(text) as u32;
        let foot = if closed { last_line(text) as u32 } else { 0 };
        let span = Span {
            token: lexeme.number,
            at: lexeme.at + head,
            len: (lexeme.len - head).saturating_sub(foot),
            closed,
        };
        Ok((span, at))
    }
}
