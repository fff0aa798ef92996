//! Parses lists.

ghost use Rattle.std.specs.Prelude.{◌≡◌, ℕ, List as Seq, drop, length};
ghost use Rattle.mv_ast.specs.declared.lexeme.Lexeme.{Lexeme};
ghost use Rattle.mv_ast.specs.declared.lexeme.Terminal.TheVariants as word;
ghost use Rattle.mv_parser.specs.Reading.{Read};
ghost use Rattle.mv_parser.specs.Lists.{read_separated, read_in_parens};
ghost use Rattle.mv_parser.specs.Answers.{AnswersRead};

use crate::fault::Failure;
use crate::reader::Reader;
use mv_ast::lexeme::Terminal;
use mv_values::list::List;

/// A part of the grammar that can be parsed at a position.
pub(crate) trait Parse: Drop {
    ghost reading: { Seq ℕ → ℕ → Seq Lexeme → Read Self };

    fn parse(reader: &Reader, at: usize) -> Result<(Self, usize), Failure>
        ensures { AnswersRead reader.now.lexemes.now result (reading reader.now.bytes.now reader.now.depth (drop at reader.now.lexemes.now)) };
}

impl Reader<'_> {
    /// Parses one or more parts in parentheses, separated by commas.
    pub(crate) fn in_parens<T: Parse>(&self, at: usize) -> Result<(List<T>, usize), Failure>
        ensures { AnswersRead self.now.lexemes.now result (read_in_parens (read_separated word.Comma (T.reading self.now.bytes.now self.now.depth)) (drop at self.now.lexemes.now)) }
    {
        let (_, at) = self.one(at, Terminal::Open)?;
        let (all, at) = self.separated(at, Terminal::Comma)?;
        self.followed(all, at, Terminal::Close)
    }

    /// Parses one or more parts, separated by a mark.
    #[tactic(auto, using(crate::proofs::Turns::more_turn, crate::proofs::Turns::more_stop))]
    pub(crate) fn separated<T: Parse>(
        &self,
        at: usize,
        mark: Terminal,
    ) -> Result<(List<T>, usize), Failure>
        ensures { AnswersRead self.now.lexemes.now result (read_separated mark (T.reading self.now.bytes.now self.now.depth) (drop at self.now.lexemes.now)) }
    {
        let (first, at) = T::parse(self, at)?;
        let mut all = List::new(self.alloc);
        all.push(first)?;
        let mut here = at;
        for _turn in 0..self.left(at) {
            if !self.has(here, mark) {
                return Ok((all, here));
            }
            let (_, behind) = self.one(here, mark)?;
            let (next, behind) = T::parse(self, behind)?;
            all.push(next)?;
            here = behind;
        }
        Ok((all, here))
    }
}
