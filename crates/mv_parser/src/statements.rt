//! Parses the statements that contain no statements.

ghost use Rattle.std.specs.Prelude.{◌≡◌, ℕ, List, Option, drop};
ghost use Rattle.mv_ast.specs.declared.lexeme.Terminal.TheVariants as word;
ghost use Rattle.mv_ast.specs.declared.tree.Stmt.{Stmt};
ghost use Rattle.mv_ast.specs.declared.tree.Name.{Name};
ghost use Rattle.mv_ast.specs.declared.tree.Cond.{Cond};
ghost use Rattle.mv_ast.specs.declared.tree.Sort.{Sort};
ghost use Rattle.mv_ast.specs.declared.tree.Expr.{Expr};
ghost use Rattle.mv_ast.specs.Trees.{select_of, total_of};
ghost use Rattle.mv_parser.specs.Reading.{read};
ghost use Rattle.mv_parser.specs.Rests.{select_rest, total_rest};
ghost use Rattle.mv_ast.specs.Grammar.{commas, variable, assign, select_columns, total, select, insert, update, delete, print, rollback};
ghost use Rattle.mv_parser.specs.Answers.{ReadsPart, ReadsFor, GivesBy, Completes, inside_of};

use crate::fault::Failure;
use crate::reader::Reader;
use mv_ast::lexeme::Terminal;
use mv_ast::tree::{Agg, Cond, Expr, Name, Sort, Stmt};
use mv_values::list::List;

impl Reader<'_> {
    /// Parses one or more variables, separated by commas.
    #[tactic(auto, using(crate::proofs::Turns::more_turn, crate::proofs::Turns::more_stop))]
    fn variables(&self, at: usize) -> Result<(List<Name>, usize), Failure>
        ensures { ReadsPart self.now at (λ bytes. commas (variable bytes)) result }
    {
        let (first, at) = self.variable(at)?;
        let mut all = List::new(self.alloc);
        all.push(first)?;
        let mut here = at;
        for _turn in 0..self.left(at) {
            if !self.has(here, Terminal::Comma) {
                return Ok((all, here));
            }
            let (_, behind) = self.one(here, Terminal::Comma)?;
            let (next, behind) = self.variable(behind)?;
            all.push(next)?;
            here = behind;
        }
        Ok((all, here))
    }

    /// Parses SET of a variable.
    #[tactic(auto, unfolding(mv_ast::specs::Grammar::assign))]
    pub(crate) fn assign(&self, at: usize) -> Result<(Stmt, usize), Failure>
        ensures { ReadsPart self.now at assign result }
    {
        let (token, at) = self.place(at, Terminal::Set)?;
        let (to, at) = self.variable(at)?;
        let (_, at) = self.one(at, Terminal::Equal)?;
        let (right, at) = self.expression(at)?;
        self.followed(Stmt::Assign { token, to, right }, at, Terminal::Semicolon)
    }

    /// Parses SELECT into variables.
    #[tactic(auto, using(crate::proofs::Firsts::first_select_columns), unfolding(mv_ast::specs::Grammar::select))]
    pub(crate) fn select(&self, at: usize) -> Result<(Stmt, usize), Failure>
        ensures { ReadsPart self.now at select result }
    {
        let (token, at) = self.place(at, Terminal::Select)?;
        if self.has(at, Terminal::Name) {
            self.select_columns(at, token)
        } else {
            self.total(at, token)
        }
    }

    /// Parses SELECT of columns, after SELECT.
    #[tactic(auto, unfolding(mv_ast::specs::Grammar::select_columns))]
    fn select_columns(&self, at: usize, token: u32) -> Result<(Stmt, usize), Failure>
        ensures { ReadsFor self.now at select_columns (λ f. f token) result }
    {
        let (columns, at) = self.separated(at, Terminal::Comma)?;
        let (_, at) = self.one(at, Terminal::Into)?;
        let (to, at) = self.variables(at)?;
        let rest = self.select_rest(at);
        self.selected(token, columns, to, rest)
    }

    /// Parses SELECT of columns, starting at FROM.
    fn select_rest(
        &self,
        at: usize,
    ) -> Result<((Name, List<Cond>, List<Sort>, Option<Expr>), usize), Failure>
        ensures { (f : Name → List Cond → List Sort → Option Expr → ℕ → Stmt) → GivesBy self.now.lexemes.now (λ x. f x.0 x.1 x.2 x.3) result (read (inside_of self.now) (select_rest self.now.bytes.now f) (drop at self.now.lexemes.now)) }
    {
        let (_, at) = self.one(at, Terminal::From)?;
        let (table, at) = self.name(at)?;
        let (conds, at) = self.conds(at)?;
        let (sorts, at) = self.sorts(at)?;
        let (offset, at) = self.offset(at)?;
        let (_, at) = self.one(at, Terminal::Semicolon)?;
        Ok(((table, conds, sorts, offset), at))
    }

    /// Builds SELECT of columns from its parsed parts.
    fn selected(
        &self,
        token: u32,
        columns: List<Name>,
        to: List<Name>,
        rest: Result<((Name, List<Cond>, List<Sort>, Option<Expr>), usize), Failure>,
    ) -> Result<(Stmt, usize), Failure>
        ensures { Completes self.now.lexemes.now (λ x. select_of columns to x.0 x.1 x.2 x.3) (λ f. f token) rest result }
    {
        let ((table, conds, sorts, offset), at) = rest?;
        let select = Stmt::Select {
            token,
            columns,
            to,
            table,
            conds,
            sorts,
            offset,
        };
        Ok((select, at))
    }

    /// Parses SELECT of an aggregate, after SELECT.
    #[tactic(auto, unfolding(mv_ast::specs::Grammar::total))]
    fn total(&self, at: usize, token: u32) -> Result<(Stmt, usize), Failure>
        ensures { ReadsFor self.now at total (λ f. f token) result }
    {
        let (agg, at) = self.aggregate(at)?;
        let rest = self.total_rest(at);
        self.totalled(token, agg, rest)
    }

    /// Parses SELECT of an aggregate, starting at INTO.
    fn total_rest(&self, at: usize) -> Result<((Name, Name, List<Cond>), usize), Failure>
        ensures { (f : Name → Name → List Cond → ℕ → Stmt) → GivesBy self.now.lexemes.now (λ x. f x.0 x.1 x.2) result (read (inside_of self.now) (total_rest self.now.bytes.now f) (drop at self.now.lexemes.now)) }
    {
        let (_, at) = self.one(at, Terminal::Into)?;
        let (to, at) = self.variable(at)?;
        let (_, at) = self.one(at, Terminal::From)?;
        let (table, at) = self.name(at)?;
        let (conds, at) = self.conds(at)?;
        let (_, at) = self.one(at, Terminal::Semicolon)?;
        Ok(((to, table, conds), at))
    }

    /// Builds SELECT of an aggregate from its parsed parts.
    fn totalled(
        &self,
        token: u32,
        agg: Agg,
        rest: Result<((Name, Name, List<Cond>), usize), Failure>,
    ) -> Result<(Stmt, usize), Failure>
        ensures { Completes self.now.lexemes.now (λ x. total_of agg x.0 x.1 x.2) (λ f. f token) rest result }
    {
        let ((to, table, conds), at) = rest?;
        let total = Stmt::Total {
            token,
            agg,
            to,
            table,
            conds,
        };
        Ok((total, at))
    }

    /// Parses INSERT.
    #[tactic(auto, unfolding(mv_ast::specs::Grammar::insert))]
    pub(crate) fn insert(&self, at: usize) -> Result<(Stmt, usize), Failure>
        ensures { ReadsPart self.now at insert result }
    {
        let (token, at) = self.place(at, Terminal::Insert)?;
        let (_, at) = self.one(at, Terminal::Into)?;
        let (table, at) = self.name(at)?;
        let (_, at) = self.one(at, Terminal::Values)?;
        let (values, at) = self.in_parens(at)?;
        let statement = Stmt::Insert {
            token,
            table,
            values,
        };
        self.followed(statement, at, Terminal::Semicolon)
    }

    /// Parses UPDATE.
    #[tactic(auto, unfolding(mv_ast::specs::Grammar::update))]
    pub(crate) fn update(&self, at: usize) -> Result<(Stmt, usize), Failure>
        ensures { ReadsPart self.now at update result }
    {
        let (token, at) = self.place(at, Terminal::Update)?;
        let (table, at) = self.name(at)?;
        let (_, at) = self.one(at, Terminal::Set)?;
        let (items, at) = self.separated(at, Terminal::Comma)?;
        let (conds, at) = self.conds(at)?;
        let statement = Stmt::Update {
            token,
            table,
            items,
            conds,
        };
        self.followed(statement, at, Terminal::Semicolon)
    }

    /// Parses DELETE.
    #[tactic(auto, unfolding(mv_ast::specs::Grammar::delete))]
    pub(crate) fn delete(&self, at: usize) -> Result<(Stmt, usize), Failure>
        ensures { ReadsPart self.now at delete result }
    {
        let (token, at) = self.place(at, Terminal::Delete)?;
        let (_, at) = self.one(at, Terminal::From)?;
        let (table, at) = self.name(at)?;
        let (conds, at) = self.conds(at)?;
        let statement = Stmt::Delete {
            token,
            table,
            conds,
        };
        self.followed(statement, at, Terminal::Semicolon)
    }

    /// Parses PRINT.
    #[tactic(auto, unfolding(mv_ast::specs::Grammar::print))]
    pub(crate) fn print(&self, at: usize) -> Result<(Stmt, usize), Failure>
        ensures { ReadsPart self.now at print result }
    {
        let (token, at) = self.place(at, Terminal::Print)?;
        let (values, at) = self.separated(at, Terminal::Comma)?;
        self.followed(Stmt::Print { token, values }, at, Terminal::Semicolon)
    }

    /// Parses ROLLBACK.
    #[tactic(auto, unfolding(mv_ast::specs::Grammar::rollback))]
    pub(crate) fn rollback(&self, at: usize) -> Result<(Stmt, usize), Failure>
        ensures { ReadsPart self.now at rollback result }
    {
        let (token, at) = self.place(at, Terminal::Rollback)?;
        let (reason, at) = self.quoted(at)?;
        self.followed(Stmt::Rollback { token, reason }, at, Terminal::Semicolon)
    }
}
