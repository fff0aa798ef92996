//! Parses the statements that contain statements: FOR and IF.

ghost use Rattle.std.specs.Prelude.{◌≡◌, ℕ, List, drop};
ghost use Rattle.mv_ast.specs.declared.lexeme.Terminal.TheVariants as word;
ghost use Rattle.mv_ast.specs.declared.tree.Stmt.{Stmt};
ghost use Rattle.mv_ast.specs.declared.tree.Stmt.TheVariants.{Branch};
ghost use Rattle.mv_ast.specs.declared.tree.Name.{Name};
ghost use Rattle.mv_ast.specs.declared.tree.Cond.{Cond};
ghost use Rattle.mv_ast.specs.declared.tree.Sort.{Sort};
ghost use Rattle.mv_ast.specs.Trees.{for_plain_of, for_distinct_of};
ghost use Rattle.mv_ast.specs.Parts.{statement};
ghost use Rattle.mv_ast.specs.Grammar.{many, stmt, for_each, for_plain, for_distinct, for_rows, loop_body, branch, otherwise};
ghost use Rattle.mv_parser.specs.Reading.{Read, read};
ghost use Rattle.mv_parser.specs.Rests.{plain_rest, distinct_rest, branches};
ghost use Rattle.mv_parser.specs.Answers.{ReadsPart, ReadsFor, AnswersRead, GivesBy, Completes, inside_of};

use crate::fault::Failure;
use crate::reader::Reader;
use mv_ast::lexeme::Terminal;
use mv_ast::tree::{Cond, Expr, Name, Sort, Stmt};
use mv_values::list::List;

impl Reader<'_> {
    /// Parses a statement one level deeper.
    #[cycle(stmt)]
    #[tactic(auto, using(crate::proofs::Inside::inside_stmt, crate::proofs::Inside::inside_no_stmt))]
    fn statement(&self, at: usize) -> Result<(Stmt, usize), Failure>
        ensures { ReadsPart self.now at (λ _. statement) result }
    {
        if self.depth == 0 {
            return Err(self.wrong(at));
        }
        self.deeper().stmt(at)
    }

    /// Parses zero or more statements.
    #[cycle(stmt)]
    #[tactic(auto, using(crate::proofs::Turns::more_turn, crate::proofs::Turns::more_stop))]
    pub(crate) fn statements(&self, at: usize) -> Result<(List<Stmt>, usize), Failure>
        ensures { ReadsPart self.now at (λ _. many statement) result }
    {
        let mut all = List::new(self.alloc);
        let mut here = at;
        for _turn in 0..self.left(at) {
            if !self.has_any(here, &STATEMENT_WORDS) {
                return Ok((all, here));
            }
            let (next, behind) = self.statement(here)?;
            all.push(next)?;
            here = behind;
        }
        Ok((all, here))
    }

    /// Parses a statement.
    #[cycle(stmt)]
    #[tactic(auto, using(crate::proofs::Firsts::first_assign, crate::proofs::Firsts::first_select, crate::proofs::Firsts::first_for_each, crate::proofs::Firsts::first_branch, crate::proofs::Firsts::first_insert, crate::proofs::Firsts::first_update, crate::proofs::Firsts::first_delete, crate::proofs::Firsts::first_print), unfolding(mv_ast::specs::Grammar::stmt))]
    fn stmt(&self, at: usize) -> Result<(Stmt, usize), Failure>
        ensures { ReadsPart self.now at stmt result }
    {
        if self.has(at, Terminal::Set) {
            return self.assign(at);
        }
        if self.has(at, Terminal::Select) {
            return self.select(at);
        }
        if self.has(at, Terminal::For) {
            return self.for_each(at);
        }
        if self.has(at, Terminal::If) {
            return self.branch(at);
        }
        if self.has(at, Terminal::Insert) {
            return self.insert(at);
        }
        if self.has(at, Terminal::Update) {
            return self.update(at);
        }
        if self.has(at, Terminal::Delete) {
            return self.delete(at);
        }
        if self.has(at, Terminal::Print) {
            return self.print(at);
        }
        self.rollback(at)
    }

    /// Parses FOR.
    #[cycle(stmt)]
    #[tactic(auto, using(crate::proofs::Firsts::first_for_distinct), unfolding(mv_ast::specs::Grammar::for_each))]
    fn for_each(&self, at: usize) -> Result<(Stmt, usize), Failure>
        ensures { ReadsPart self.now at for_each result }
    {
        let (token, at) = self.place(at, Terminal::For)?;
        let (row, at) = self.variable(at)?;
        let (_, at) = self.one(at, Terminal::In)?;
        if !self.has(at, Terminal::Select) {
            return self.for_rows(at, token, row);
        }
        let (_, at) = self.one(at, Terminal::Select)?;
        if self.has(at, Terminal::Distinct) {
            self.for_distinct(at, token, row)
        } else {
            self.for_plain(at, token, row)
        }
    }

    /// Parses FOR over the rows of a table, after SELECT.
    #[cycle(stmt)]
    #[tactic(auto, unfolding(mv_ast::specs::Grammar::for_plain))]
    fn for_plain(&self, at: usize, token: u32, row: Name) -> Result<(Stmt, usize), Failure>
        ensures { ReadsFor self.now at for_plain (λ f. f token row) result }
    {
        let (columns, at) = self.separated(at, Terminal::Comma)?;
        let rest = self.plain_rest(at);
        self.plain_loop(token, row, columns, rest)
    }

    /// Parses FOR over the rows of a table, starting at FROM.
    #[cycle(stmt)]
    fn plain_rest(
        &self,
        at: usize,
    ) -> Result<((Name, List<Cond>, List<Sort>, List<Stmt>), usize), Failure>
        ensures { (f : Name → List Cond → List Sort → List Stmt → ℕ → Name → Stmt) → GivesBy self.now.lexemes.now (λ x. f x.0 x.1 x.2 x.3) result (read (inside_of self.now) (plain_rest self.now.bytes.now f) (drop at self.now.lexemes.now)) }
    {
        let (_, at) = self.one(at, Terminal::From)?;
        let (table, at) = self.name(at)?;
        let (conds, at) = self.conds(at)?;
        let (sorts, at) = self.sorts(at)?;
        let (body, at) = self.loop_body(at)?;
        Ok(((table, conds, sorts, body), at))
    }

    /// Builds FOR over the rows of a table from its parsed parts.
    fn plain_loop(
        &self,
        token: u32,
        row: Name,
        columns: List<Name>,
        rest: Result<((Name, List<Cond>, List<Sort>, List<Stmt>), usize), Failure>,
    ) -> Result<(Stmt, usize), Failure>
        ensures { Completes self.now.lexemes.now (λ x. for_plain_of columns x.0 x.1 x.2 x.3) (λ f. f token row) rest result }
    {
        let ((table, conds, sorts, body), at) = rest?;
        let distinct = false;
        let each = Stmt::ForSelect {
            token,
            row,
            distinct,
            columns,
            table,
            conds,
            sorts,
            body,
        };
        Ok((each, at))
    }

    /// Parses FOR over distinct rows, starting at DISTINCT.
    #[cycle(stmt)]
    #[tactic(auto, unfolding(mv_ast::specs::Grammar::for_distinct))]
    fn for_distinct(&self, at: usize, token: u32, row: Name) -> Result<(Stmt, usize), Failure>
        ensures { ReadsFor self.now at for_distinct (λ f. f token row) result }
    {
        let (_, at) = self.one(at, Terminal::Distinct)?;
        let (columns, at) = self.separated(at, Terminal::Comma)?;
        let rest = self.distinct_rest(at);
        self.distinct_loop(token, row, columns, rest)
    }

    /// Parses FOR over distinct rows, starting at FROM.
    #[cycle(stmt)]
    fn distinct_rest(&self, at: usize) -> Result<((Name, List<Cond>, List<Stmt>), usize), Failure>
        ensures { (f : Name → List Cond → List Stmt → ℕ → Name → Stmt) → GivesBy self.now.lexemes.now (λ x. f x.0 x.1 x.2) result (read (inside_of self.now) (distinct_rest self.now.bytes.now f) (drop at self.now.lexemes.now)) }
    {
        let (_, at) = self.one(at, Terminal::From)?;
        let (table, at) = self.name(at)?;
        let (conds, at) = self.conds(at)?;
        let (body, at) = self.loop_body(at)?;
        Ok(((table, conds, body), at))
    }

    /// Builds FOR over distinct rows from its parsed parts.
    fn distinct_loop(
        &self,
        token: u32,
        row: Name,
        columns: List<Name>,
        rest: Result<((Name, List<Cond>, List<Stmt>), usize), Failure>,
    ) -> Result<(Stmt, usize), Failure>
        ensures { Completes self.now.lexemes.now (λ x. for_distinct_of columns x.0 x.1 x.2) (λ f. f token row) rest result }
    {
        let ((table, conds, body), at) = rest?;
        let distinct = true;
        let sorts = List::new(self.alloc);
        let each = Stmt::ForSelect {
            token,
            row,
            distinct,
            columns,
            table,
            conds,
            sorts,
            body,
        };
        Ok((each, at))
    }

    /// Parses FOR over the rows of a parameter, after IN.
    #[cycle(stmt)]
    #[tactic(auto, unfolding(mv_ast::specs::Grammar::for_rows))]
    fn for_rows(&self, at: usize, token: u32, row: Name) -> Result<(Stmt, usize), Failure>
        ensures { ReadsFor self.now at for_rows (λ f. f token row) result }
    {
        let (rows, at) = self.variable(at)?;
        let (body, at) = self.loop_body(at)?;
        Ok((
            Stmt::ForRows {
                token,
                row,
                rows,
                body,
            },
            at,
        ))
    }

    /// Parses the body of FOR, from DO to the closing semicolon.
    #[cycle(stmt)]
    #[tactic(auto, unfolding(mv_ast::specs::Grammar::loop_body))]
    fn loop_body(&self, at: usize) -> Result<(List<Stmt>, usize), Failure>
        ensures { ReadsPart self.now at loop_body result }
    {
        let (_, at) = self.one(at, Terminal::Do)?;
        let (body, at) = self.statements(at)?;
        self.ended(body, at, Terminal::For)
    }

    /// Parses IF.
    #[cycle(stmt)]
    #[tactic(auto, unfolding(mv_ast::specs::Grammar::branch))]
    fn branch(&self, at: usize) -> Result<(Stmt, usize), Failure>
        ensures { ReadsPart self.now at branch result }
    {
        let (token, at) = self.place(at, Terminal::If)?;
        let (test, at) = self.expression(at)?;
        let rest = self.branches(at);
        self.branched(token, test, rest)
    }

    /// Parses the rest of IF, after its test.
    #[cycle(stmt)]
    fn branches(&self, at: usize) -> Result<((List<Stmt>, List<Stmt>), usize), Failure>
        ensures { (f : List Stmt → List Stmt → Stmt) → GivesBy self.now.lexemes.now (λ x. f x.0 x.1) result (read (inside_of self.now) (branches self.now.bytes.now f) (drop at self.now.lexemes.now)) }
    {
        let (_, at) = self.one(at, Terminal::Then)?;
        let (yes, at) = self.statements(at)?;
        let (no, at) = self.otherwise(at)?;
        let (_, at) = self.one(at, Terminal::End)?;
        let (_, at) = self.one(at, Terminal::If)?;
        let (_, at) = self.one(at, Terminal::Semicolon)?;
        Ok(((yes, no), at))
    }

    /// Builds IF from its parsed parts.
    fn branched(
        &self,
        token: u32,
        test: Expr,
        rest: Result<((List<Stmt>, List<Stmt>), usize), Failure>,
    ) -> Result<(Stmt, usize), Failure>
        ensures { (reading : Read Stmt) → GivesBy self.now.lexemes.now (λ x. Branch token test x.0 x.1) rest reading → AnswersRead self.now.lexemes.now result reading }
    {
        let ((yes, no), at) = rest?;
        let branch = Stmt::Branch {
            token,
            test,
            yes,
            no,
        };
        Ok((branch, at))
    }

    /// Parses ELSE and its statements, or nothing if there is no ELSE.
    #[cycle(stmt)]
    #[tactic(auto, unfolding(mv_ast::specs::Grammar::otherwise))]
    fn otherwise(&self, at: usize) -> Result<(List<Stmt>, usize), Failure>
        ensures { ReadsPart self.now at otherwise result }
    {
        if !self.has(at, Terminal::Else) {
            return Ok((List::new(self.alloc), at));
        }
        let (_, at) = self.one(at, Terminal::Else)?;
        self.statements(at)
    }
}

const STATEMENT_WORDS: [Terminal; 9] = [
    Terminal::Set,
    Terminal::Select,
    Terminal::For,
    Terminal::If,
    Terminal::Insert,
    Terminal::Update,
    Terminal::Delete,
    Terminal::Print,
    Terminal::Rollback,
];
