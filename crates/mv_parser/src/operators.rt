//! Parses operators and builds the expressions made of them.

ghost use Rattle.std.specs.Prelude.{◌≡◌, ◌<◌, ◌-◌, drop, IfOk};
ghost use Rattle.mv_ast.specs.declared.lexeme.Terminal.TheVariants as word;
ghost use Rattle.mv_ast.specs.Parts.{give, one};
ghost use Rattle.mv_ast.specs.Trees.{prefixed, paired, all_prefixed, column_named};
ghost use Rattle.mv_ast.specs.Grammar.{◌⊛◌, many, name, const_number, const_text, op, term_op, sum_op, variable_expr};
ghost use Rattle.mv_parser.specs.Levels.{operator};
ghost use Rattle.mv_parser.specs.Answers.{ReadsPart, Joins};

use crate::fault::Failure;
use crate::level::Level;
use crate::reader::Reader;
use mv_ast::lexeme::{Lexeme, Terminal};
use mv_ast::tree::{Expr, ExprKind, OneOp, TwoOp};
use mv_values::boxed::Boxed;
use mv_values::list::List;
use mv_values::memory::NoMemory;
use mv_values::op::Op;
use mv_values::value::Value;

impl Reader<'_> {
    /// Returns a reader with one level less to go.
    pub(crate) fn deeper(&self) -> Reader<'_>
        requires { 0 < self.now.depth }
        ensures bytes { result.bytes.now ≡ self.now.bytes.now }
        ensures lexemes { result.lexemes.now ≡ self.now.lexemes.now }
        ensures depth { result.depth ≡ self.now.depth - 1 }
    {
        Reader {
            alloc: self.alloc,
            bytes: self.bytes,
            lexemes: self.lexemes,
            depth: self.depth - 1,
        }
    }

    /// Parses zero or more tokens of this kind.
    #[tactic(auto, using(crate::proofs::Turns::more_turn, crate::proofs::Turns::more_stop))]
    pub(crate) fn repeated(
        &self,
        at: usize,
        kind: Terminal,
    ) -> Result<(List<Lexeme>, usize), Failure>
        ensures { ReadsPart self.now at (λ _. many (one kind)) result }
    {
        let mut all = List::new(self.alloc);
        let mut here = at;
        for _turn in 0..self.left(at) {
            if !self.has(here, kind) {
                return Ok((all, here));
            }
            let (lexeme, behind) = self.one(here, kind)?;
            all.push(lexeme)?;
            here = behind;
        }
        Ok((all, here))
    }

    /// Applies a prefix operator to an expression.
    pub(crate) fn prefixed(&self, op: OneOp, token: u32, inner: Expr) -> Result<Expr, NoMemory>
        ensures { IfOk result (λ e. e ≡ prefixed op token inner) }
    {
        let kind = ExprKind::One(op, Boxed::new(self.alloc, inner)?);
        Ok(Expr { token, kind })
    }

    /// Applies a prefix operator once for each token. The last token is the innermost.
    pub(crate) fn all_prefixed(
        &self,
        op: OneOp,
        tokens: List<Lexeme>,
        inner: Expr,
    ) -> Result<Expr, NoMemory>
        ensures { IfOk result (λ e. e ≡ all_prefixed op tokens inner) }
    {
        let mut tokens = tokens;
        let mut whole = inner;
        while let Some(lexeme) = tokens.pop() {
            whole = self.prefixed(op, lexeme.number, whole)?;
        }
        Ok(whole)
    }

    /// Applies a binary operator to two expressions.
    pub(crate) fn paired(&self, op: TwoOp, left: Expr, right: Expr) -> Result<Expr, NoMemory>
        ensures { IfOk result (λ e. e ≡ paired op left right) }
    {
        let token = left.token;
        let left = Boxed::new(self.alloc, left)?;
        let right = Boxed::new(self.alloc, right)?;
        let kind = ExprKind::Two(op, left, right);
        Ok(Expr { token, kind })
    }

    /// Joins an expression with the operator and the operand after it.
    pub(crate) fn joined(
        &self,
        left: Expr,
        next: Result<((TwoOp, Expr), usize), Failure>,
    ) -> Result<(Expr, usize), Failure>
        ensures { Joins self.now.lexemes.now left next result }
    {
        let ((op, right), at) = next?;
        Ok((self.paired(op, left, right)?, at))
    }

    /// Parses a comparison operator.
    #[tactic(auto, unfolding(mv_ast::specs::Grammar::op))]
    pub(crate) fn comparison(&self, at: usize) -> Result<(Op, usize), Failure>
        ensures { ReadsPart self.now at op result }
    {
        if self.has(at, Terminal::Equal) {
            let (_, at) = self.one(at, Terminal::Equal)?;
            return Ok((Op::Eq, at));
        }
        if self.has(at, Terminal::NotEqual) {
            let (_, at) = self.one(at, Terminal::NotEqual)?;
            return Ok((Op::Ne, at));
        }
        if self.has(at, Terminal::Less) {
            let (_, at) = self.one(at, Terminal::Less)?;
            return Ok((Op::Lt, at));
        }
        if self.has(at, Terminal::LessOrEqual) {
            let (_, at) = self.one(at, Terminal::LessOrEqual)?;
            return Ok((Op::Le, at));
        }
        if self.has(at, Terminal::Greater) {
            let (_, at) = self.one(at, Terminal::Greater)?;
            return Ok((Op::Gt, at));
        }
        let (_, at) = self.one(at, Terminal::GreaterOrEqual)?;
        Ok((Op::Ge, at))
    }

    /// Parses `*`, `/` or `%`.
    #[tactic(auto, unfolding(mv_ast::specs::Grammar::term_op))]
    pub(crate) fn term_operator(&self, at: usize) -> Result<(TwoOp, usize), Failure>
        ensures { ReadsPart self.now at term_op result }
    {
        if self.has(at, Terminal::Star) {
            let (_, at) = self.one(at, Terminal::Star)?;
            return Ok((TwoOp::Mul, at));
        }
        if self.has(at, Terminal::Slash) {
            let (_, at) = self.one(at, Terminal::Slash)?;
            return Ok((TwoOp::Div, at));
        }
        let (_, at) = self.one(at, Terminal::Percent)?;
        Ok((TwoOp::Rem, at))
    }

    /// Parses `+`, `-` or `||`.
    #[tactic(auto, unfolding(mv_ast::specs::Grammar::sum_op))]
    pub(crate) fn sum_operator(&self, at: usize) -> Result<(TwoOp, usize), Failure>
        ensures { ReadsPart self.now at sum_op result }
    {
        if self.has(at, Terminal::Plus) {
            let (_, at) = self.one(at, Terminal::Plus)?;
            return Ok((TwoOp::Add, at));
        }
        if self.has(at, Terminal::Minus) {
            let (_, at) = self.one(at, Terminal::Minus)?;
            return Ok((TwoOp::Sub, at));
        }
        let (_, at) = self.one(at, Terminal::Bars)?;
        Ok((TwoOp::Join, at))
    }

    /// Parses an operator of a level.
    pub(crate) fn operator(&self, at: usize, level: Level) -> Result<(TwoOp, usize), Failure>
        ensures { ReadsPart self.now at (λ bytes. operator bytes level) result }
    {
        match level {
            Level::Or => {
                let (_, at) = self.one(at, Terminal::Or)?;
                Ok((TwoOp::Or, at))
            }
            Level::And => {
                let (_, at) = self.one(at, Terminal::And)?;
                Ok((TwoOp::And, at))
            }
            Level::Sum => self.sum_operator(at),
            Level::Term => self.term_operator(at),
        }
    }

    /// Parses a number as an expression.
    pub(crate) fn number_expr(&self, at: usize) -> Result<(Expr, usize), Failure>
        ensures { ReadsPart self.now at (λ bytes. give (const_number bytes) ⊛ one word.Number) result }
    {
        let (lexeme, at) = self.one(at, Terminal::Number)?;
        let token = lexeme.number;
        let kind = ExprKind::Const(Value::Int(self.number_of(lexeme)));
        Ok((Expr { token, kind }, at))
    }

    /// Parses a text as an expression.
    pub(crate) fn text_expr(&self, at: usize) -> Result<(Expr, usize), Failure>
        ensures { ReadsPart self.now at (λ bytes. give (const_text bytes) ⊛ one word.Quoted) result }
    {
        let (lexeme, at) = self.one(at, Terminal::Quoted)?;
        let token = lexeme.number;
        let kind = ExprKind::Const(Value::Text(self.text_of(lexeme)?));
        Ok((Expr { token, kind }, at))
    }

    /// Parses a column as an expression.
    pub(crate) fn column_expr(&self, at: usize) -> Result<(Expr, usize), Failure>
        ensures { ReadsPart self.now at (λ bytes. give column_named ⊛ name bytes) result }
    {
        let (name, at) = self.name(at)?;
        let token = name.token;
        let kind = ExprKind::Col(name);
        Ok((Expr { token, kind }, at))
    }

    /// Parses a variable, or a column of a loop's row.
    #[tactic(auto, unfolding(mv_ast::specs::Grammar::variable_expr))]
    pub(crate) fn variable_expr(&self, at: usize) -> Result<(Expr, usize), Failure>
        ensures { ReadsPart self.now at variable_expr result }
    {
        let (name, at) = self.variable(at)?;
        let token = name.token;
        if !self.has(at, Terminal::Dot) {
            let kind = ExprKind::Var(name);
            return Ok((Expr { token, kind }, at));
        }
        let (_, at) = self.one(at, Terminal::Dot)?;
        let (column, at) = self.name(at)?;
        let kind = ExprKind::Field(name, column);
        Ok((Expr { token, kind }, at))
    }
}
