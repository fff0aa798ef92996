//! Parses expressions.

ghost use Rattle.std.specs.Prelude.{◌≡◌, drop};
ghost use Rattle.mv_ast.specs.Parts.{give, expression};
ghost use Rattle.mv_ast.specs.Trees.{with_comparison};
ghost use Rattle.mv_ast.specs.Grammar.{◌⊛◌, two_arguments, in_parentheses, text_of_call, prim, fac, op, sum, comp, neg};
ghost use Rattle.mv_parser.specs.Levels.{operand, next, chain, with_compare};
ghost use Rattle.mv_parser.specs.Answers.{ReadsPart, ReadsFor};

use crate::fault::Failure;
use crate::level::{Level, marks};
use crate::reader::Reader;
use mv_ast::lexeme::Terminal;
use mv_ast::tree::{Expr, ExprKind, OneOp, TwoOp};
use mv_values::boxed::Boxed;

impl Reader<'_> {
    /// Parses an expression one level deeper.
    #[cycle(expr)]
    #[tactic(auto, using(crate::proofs::Inside::inside_expr, crate::proofs::Inside::inside_none, crate::proofs::Chains::chain_or))]
    pub(crate) fn expression(&self, at: usize) -> Result<(Expr, usize), Failure>
        ensures { ReadsPart self.now at (λ _. expression) result }
    {
        if self.depth == 0 {
            return Err(self.wrong(at));
        }
        self.deeper().chain(at, Level::Or)
    }

    /// Parses the operands and operators of a level, left-associatively.
    #[cycle(expr)]
    pub(crate) fn chain(&self, at: usize, level: Level) -> Result<(Expr, usize), Failure>
        ensures { ReadsPart self.now at (λ bytes. chain bytes level) result }
    {
        let (mut whole, at) = self.operand(at, level)?;
        let mut here = at;
        for _turn in 0..self.left(at) {
            if !self.has_any(here, marks(level)) {
                return Ok((whole, here));
            }
            let next = self.next(here, level);
            let (joined, behind) = self.joined(whole, next)?;
            whole = joined;
            here = behind;
        }
        Ok((whole, here))
    }

    /// Parses an operator of a level and the operand after it.
    #[cycle(expr)]
    fn next(&self, at: usize, level: Level) -> Result<((TwoOp, Expr), usize), Failure>
        ensures { ReadsPart self.now at (λ bytes. next bytes level) result }
    {
        let (op, at) = self.operator(at, level)?;
        let (right, at) = self.operand(at, level)?;
        Ok(((op, right), at))
    }

    /// Parses an operand of a level.
    #[cycle(expr)]
    #[tactic(auto, using(crate::proofs::Chains::chain_and, crate::proofs::Chains::chain_term))]
    fn operand(&self, at: usize, level: Level) -> Result<(Expr, usize), Failure>
        ensures { ReadsPart self.now at (λ bytes. operand bytes level) result }
    {
        match level {
            Level::Or => self.chain(at, Level::And),
            Level::And => self.neg(at),
            Level::Sum => self.chain(at, Level::Term),
            Level::Term => self.fac(at),
        }
    }

    /// Parses a comparison after zero or more NOT.
    #[cycle(expr)]
    #[tactic(auto, unfolding(mv_ast::specs::Grammar::neg))]
    fn neg(&self, at: usize) -> Result<(Expr, usize), Failure>
        ensures { ReadsPart self.now at neg result }
    {
        let (words, at) = self.repeated(at, Terminal::Not)?;
        let (inner, at) = self.comp(at)?;
        Ok((self.all_prefixed(OneOp::Not, words, inner)?, at))
    }

    /// Parses a sum, or a comparison of two sums.
    #[cycle(expr)]
    #[tactic(auto, unfolding(mv_ast::specs::Grammar::comp, mv_ast::specs::Grammar::sum, mv_ast::specs::Grammar::op))]
    fn comp(&self, at: usize) -> Result<(Expr, usize), Failure>
        ensures { ReadsPart self.now at comp result }
    {
        let (left, at) = self.chain(at, Level::Sum)?;
        if !self.has_any(at, &COMPARISONS) {
            return Ok((left, at));
        }
        let next = self.compared(at);
        self.joined(left, next)
    }

    /// Parses a comparison operator and the sum after it.
    #[cycle(expr)]
    #[tactic(auto, unfolding(mv_ast::specs::Grammar::sum))]
    fn compared(&self, at: usize) -> Result<((TwoOp, Expr), usize), Failure>
        ensures { ReadsFor self.now at (λ bytes. give with_comparison ⊛ op bytes ⊛ sum bytes) with_compare result }
    {
        let (op, at) = self.comparison(at)?;
        let (right, at) = self.chain(at, Level::Sum)?;
        Ok(((TwoOp::Compare(op), right), at))
    }

    /// Parses a value after zero or more `-`.
    #[cycle(expr)]
    #[tactic(auto, unfolding(mv_ast::specs::Grammar::fac))]
    fn fac(&self, at: usize) -> Result<(Expr, usize), Failure>
        ensures { ReadsPart self.now at fac result }
    {
        let (signs, at) = self.repeated(at, Terminal::Minus)?;
        let (inner, at) = self.prim(at)?;
        Ok((self.all_prefixed(OneOp::Neg, signs, inner)?, at))
    }

    /// Parses a single value, a call, or an expression in parentheses.
    #[cycle(expr)]
    #[tactic(auto, using(crate::proofs::Firsts::first_variable_expr, crate::proofs::Firsts::first_name, crate::proofs::Firsts::first_in_parentheses, crate::proofs::Firsts::first_left_call, crate::proofs::Firsts::first_text_of_call), unfolding(mv_ast::specs::Grammar::prim, mv_ast::specs::Grammar::left_call, mv_ast::specs::Grammar::contains_call))]
    fn prim(&self, at: usize) -> Result<(Expr, usize), Failure>
        ensures { ReadsPart self.now at prim result }
    {
        if self.has(at, Terminal::Number) {
            return self.number_expr(at);
        }
        if self.has(at, Terminal::Quoted) {
            return self.text_expr(at);
        }
        if self.has(at, Terminal::Variable) {
            return self.variable_expr(at);
        }
        if self.has(at, Terminal::Name) {
            return self.column_expr(at);
        }
        if self.has(at, Terminal::Open) {
            return self.in_parentheses(at);
        }
        if self.has(at, Terminal::Left) {
            return self.two_arguments(at, TwoOp::Left, Terminal::Left);
        }
        if self.has(at, Terminal::TextOf) {
            return self.text_of_call(at);
        }
        self.two_arguments(at, TwoOp::Contains, Terminal::Contains)
    }

    /// Parses an expression in parentheses. Its token is the opening parenthesis.
    #[cycle(expr)]
    #[tactic(auto, unfolding(mv_ast::specs::Grammar::in_parentheses))]
    fn in_parentheses(&self, at: usize) -> Result<(Expr, usize), Failure>
        ensures { ReadsPart self.now at in_parentheses result }
    {
        let (token, at) = self.place(at, Terminal::Open)?;
        let (inner, at) = self.expression(at)?;
        let Expr { token: _, kind } = inner;
        self.followed(Expr { token, kind }, at, Terminal::Close)
    }

    /// Parses a call with two arguments.
    #[cycle(expr)]
    fn two_arguments(&self, at: usize, op: TwoOp, word: Terminal) -> Result<(Expr, usize), Failure>
        ensures { ReadsPart self.now at (λ bytes. two_arguments bytes op word) result }
    {
        let (token, at) = self.place(at, word)?;
        let (_, at) = self.one(at, Terminal::Open)?;
        let (left, at) = self.expression(at)?;
        let left = Boxed::new(self.alloc, left)?;
        let (_, at) = self.one(at, Terminal::Comma)?;
        let (right, at) = self.expression(at)?;
        let right = Boxed::new(self.alloc, right)?;
        let kind = ExprKind::Two(op, left, right);
        self.followed(Expr { token, kind }, at, Terminal::Close)
    }

    /// Parses a call of TEXTOF.
    #[cycle(expr)]
    #[tactic(auto, unfolding(mv_ast::specs::Grammar::text_of_call))]
    fn text_of_call(&self, at: usize) -> Result<(Expr, usize), Failure>
        ensures { ReadsPart self.now at text_of_call result }
    {
        let (token, at) = self.place(at, Terminal::TextOf)?;
        let (_, at) = self.one(at, Terminal::Open)?;
        let (inner, at) = self.expression(at)?;
        let (inner, at) = self.followed(inner, at, Terminal::Close)?;
        Ok((self.prefixed(OneOp::TextOf, token, inner)?, at))
    }
}

const COMPARISONS: [Terminal; 6] = [
    Terminal::Equal,
    Terminal::NotEqual,
    Terminal::Less,
    Terminal::LessOrEqual,
    Terminal::Greater,
    Terminal::GreaterOrEqual,
];
