//! Parses the clauses of statements.

ghost use Rattle.std.specs.Prelude.{◌≡◌, drop};
ghost use Rattle.mv_ast.specs.Parts.{one, expression};
ghost use Rattle.mv_ast.specs.declared.lexeme.Terminal.TheVariants as word;
ghost use Rattle.mv_ast.specs.Grammar.{◌▸◌, optional, in_parens, cond, conds, sort, sorts, direction, set_item, counted, aggregate, name};
ghost use Rattle.mv_parser.specs.Reading.{inside, read};
ghost use Rattle.mv_parser.specs.Answers.{ReadsPart};

use crate::fault::Failure;
use crate::level::Level;
use crate::lists::Parse;
use crate::reader::Reader;
use mv_ast::lexeme::Terminal;
use mv_ast::tree::{Agg, Cond, Expr, Name, SetItem, Sort};
use mv_values::list::List;

impl Parse for Expr {
    ghost reading = { λ bytes depth ts. read (inside bytes depth) expression ts };

    fn parse(reader: &Reader, at: usize) -> Result<(Expr, usize), Failure> {
        reader.expression(at)
    }
}

impl Parse for Cond {
    ghost reading = { λ bytes depth ts. read (inside bytes depth) (cond bytes) ts };

    fn parse(reader: &Reader, at: usize) -> Result<(Cond, usize), Failure> {
        reader.cond(at)
    }
}

impl Parse for Sort {
    ghost reading = { λ bytes depth ts. read (inside bytes depth) (sort bytes) ts };

    fn parse(reader: &Reader, at: usize) -> Result<(Sort, usize), Failure> {
        reader.sort(at)
    }
}

impl Parse for SetItem {
    ghost reading = { λ bytes depth ts. read (inside bytes depth) (set_item bytes) ts };

    fn parse(reader: &Reader, at: usize) -> Result<(SetItem, usize), Failure> {
        reader.set_item(at)
    }
}

impl Reader<'_> {
    /// Parses one test of WHERE.
    #[tactic(auto, unfolding(mv_ast::specs::Grammar::cond, mv_ast::specs::Grammar::sum))]
    fn cond(&self, at: usize) -> Result<(Cond, usize), Failure>
        ensures { ReadsPart self.now at cond result }
    {
        let (column, at) = self.name(at)?;
        let (op, at) = self.comparison(at)?;
        let (right, at) = self.chain(at, Level::Sum)?;
        Ok((Cond { column, op, right }, at))
    }

    /// Parses an optional WHERE with its tests.
    #[tactic(auto, unfolding(mv_ast::specs::Grammar::conds))]
    pub(crate) fn conds(&self, at: usize) -> Result<(List<Cond>, usize), Failure>
        ensures { ReadsPart self.now at conds result }
    {
        if !self.has(at, Terminal::Where) {
            return Ok((List::new(self.alloc), at));
        }
        let (_, at) = self.one(at, Terminal::Where)?;
        self.separated(at, Terminal::And)
    }

    /// Parses an optional ASC or DESC. Returns whether the order is descending.
    #[tactic(auto, unfolding(mv_ast::specs::Grammar::direction))]
    fn direction(&self, at: usize) -> Result<(bool, usize), Failure>
        ensures { ReadsPart self.now at direction result }
    {
        if self.has(at, Terminal::Asc) {
            let (_, at) = self.one(at, Terminal::Asc)?;
            return Ok((false, at));
        }
        if self.has(at, Terminal::Desc) {
            let (_, at) = self.one(at, Terminal::Desc)?;
            return Ok((true, at));
        }
        Ok((false, at))
    }

    /// Parses one column of ORDER BY.
    #[tactic(auto, unfolding(mv_ast::specs::Grammar::sort))]
    fn sort(&self, at: usize) -> Result<(Sort, usize), Failure>
        ensures { ReadsPart self.now at sort result }
    {
        let (column, at) = self.name(at)?;
        let (descending, at) = self.direction(at)?;
        Ok((Sort { column, descending }, at))
    }

    /// Parses an optional ORDER BY with its columns.
    #[tactic(auto, unfolding(mv_ast::specs::Grammar::sorts))]
    pub(crate) fn sorts(&self, at: usize) -> Result<(List<Sort>, usize), Failure>
        ensures { ReadsPart self.now at sorts result }
    {
        if !self.has(at, Terminal::Order) {
            return Ok((List::new(self.alloc), at));
        }
        let (_, at) = self.one(at, Terminal::Order)?;
        let (_, at) = self.one(at, Terminal::By)?;
        self.separated(at, Terminal::Comma)
    }

    /// Parses an optional OFFSET with its expression.
    pub(crate) fn offset(&self, at: usize) -> Result<(Option<Expr>, usize), Failure>
        ensures { ReadsPart self.now at (λ _. optional (one word.Offset ▸ expression)) result }
    {
        if !self.has(at, Terminal::Offset) {
            return Ok((None, at));
        }
        let (_, at) = self.one(at, Terminal::Offset)?;
        let (offset, at) = self.expression(at)?;
        Ok((Some(offset), at))
    }

    /// Parses one assignment of UPDATE.
    #[tactic(auto, unfolding(mv_ast::specs::Grammar::set_item))]
    fn set_item(&self, at: usize) -> Result<(SetItem, usize), Failure>
        ensures { ReadsPart self.now at set_item result }
    {
        let (column, at) = self.name(at)?;
        let (_, at) = self.one(at, Terminal::Equal)?;
        let (right, at) = self.expression(at)?;
        Ok((SetItem { column, right }, at))
    }

    /// Parses what COUNT counts, in parentheses.
    #[tactic(auto, unfolding(mv_ast::specs::Grammar::counted))]
    fn counted(&self, at: usize) -> Result<(Agg, usize), Failure>
        ensures { ReadsPart self.now at counted result }
    {
        if self.has(at, Terminal::Star) {
            let (_, at) = self.one(at, Terminal::Star)?;
            return Ok((Agg::CountAll, at));
        }
        let (_, at) = self.one(at, Terminal::Distinct)?;
        let (column, at) = self.name(at)?;
        Ok((Agg::CountDistinct(column), at))
    }

    /// Parses a name in parentheses.
    fn name_in_parens(&self, at: usize) -> Result<(Name, usize), Failure>
        ensures { ReadsPart self.now at (λ bytes. in_parens (name bytes)) result }
    {
        let (_, at) = self.one(at, Terminal::Open)?;
        let (name, at) = self.name(at)?;
        self.followed(name, at, Terminal::Close)
    }

    /// Parses an aggregate: COUNT, SUM, MIN or MAX.
    #[tactic(auto, unfolding(mv_ast::specs::Grammar::aggregate))]
    pub(crate) fn aggregate(&self, at: usize) -> Result<(Agg, usize), Failure>
        ensures { ReadsPart self.now at aggregate result }
    {
        if self.has(at, Terminal::Count) {
            let (_, at) = self.one(at, Terminal::Count)?;
            let (_, at) = self.one(at, Terminal::Open)?;
            let (agg, at) = self.counted(at)?;
            return self.followed(agg, at, Terminal::Close);
        }
        if self.has(at, Terminal::Sum) {
            let (_, at) = self.one(at, Terminal::Sum)?;
            let (column, at) = self.name_in_parens(at)?;
            return Ok((Agg::Sum(column), at));
        }
        if self.has(at, Terminal::Min) {
            let (_, at) = self.one(at, Terminal::Min)?;
            let (column, at) = self.name_in_parens(at)?;
            return Ok((Agg::Min(column), at));
        }
        let (_, at) = self.one(at, Terminal::Max)?;
        let (column, at) = self.name_in_parens(at)?;
        Ok((Agg::Max(column), at))
    }
}
