//! Prints expressions.

ghost use Rattle.std.specs.Prelude.{◌≡◌, OnOk};
ghost use Rattle.mv_print.specs.Printing.{written, put, level, is_call, left_level, right_level, op_word, two_word, opened, closed, one_lead, one_level, one_tail, two_lead, two_middle, two_tail, expr_pieces};

use crate::pieces::{write_key, write_name, write_value, write_variable};
use mv_ast::lexeme::Terminal;
use mv_ast::tree::{Expr, ExprKind, OneOp, TwoOp};
use mv_values::list::List;
use mv_values::memory::NoMemory;
use mv_values::op::Op;

/// Returns the precedence level of an operator. A higher level binds tighter.
fn level(op: TwoOp) -> u8
    ensures { result ≡ level op }
{
    match op {
        TwoOp::Or => 0,
        TwoOp::And => 1,
        TwoOp::Compare(_) => 3,
        TwoOp::Add | TwoOp::Sub | TwoOp::Join => 4,
        TwoOp::Mul | TwoOp::Div | TwoOp::Rem => 5,
        TwoOp::Left | TwoOp::Contains => 7,
    }
}

/// Whether the operator is printed as a function, with its operands in parentheses.
fn is_call(op: TwoOp) -> bool
    ensures { result ≡ is_call op }
{
    match op {
        TwoOp::Left | TwoOp::Contains => true,
        _ => false,
    }
}

/// Returns the level of the left operand.
fn left_level(op: TwoOp) -> u8
    ensures { result ≡ left_level op }
{
    match op {
        TwoOp::Compare(_) => 4,
        TwoOp::Left | TwoOp::Contains => 0,
        _ => level(op),
    }
}

/// Returns the level of the right operand.
fn right_level(op: TwoOp) -> u8
    ensures { result ≡ right_level op }
{
    match op {
        TwoOp::Or => 1,
        TwoOp::And => 2,
        TwoOp::Compare(_) => 4,
        TwoOp::Add | TwoOp::Sub | TwoOp::Join => 5,
        TwoOp::Mul | TwoOp::Div | TwoOp::Rem => 6,
        TwoOp::Left | TwoOp::Contains => 0,
    }
}

/// Returns the symbol of a comparison.
pub(crate) fn op_word(op: Op) -> Terminal
    ensures { result ≡ op_word op }
{
    match op {
        Op::Eq => Terminal::Equal,
        Op::Ne => Terminal::NotEqual,
        Op::Lt => Terminal::Less,
        Op::Le => Terminal::LessOrEqual,
        Op::Gt => Terminal::Greater,
        Op::Ge => Terminal::GreaterOrEqual,
    }
}

/// Returns the keyword or the symbol of an operator.
fn two_word(op: TwoOp) -> Terminal
    ensures { result ≡ two_word op }
{
    match op {
        TwoOp::Or => Terminal::Or,
        TwoOp::And => Terminal::And,
        TwoOp::Compare(comparison) => op_word(comparison),
        TwoOp::Add => Terminal::Plus,
        TwoOp::Sub => Terminal::Minus,
        TwoOp::Join => Terminal::Bars,
        TwoOp::Mul => Terminal::Star,
        TwoOp::Div => Terminal::Slash,
        TwoOp::Rem => Terminal::Percent,
        TwoOp::Left => Terminal::Left,
        TwoOp::Contains => Terminal::Contains,
    }
}

/// Adds `(` where it is needed.
#[tactic(auto, unfolding(crate::specs::Printing::written))]
fn write_opened(is_needed: bool, text: &mut List<u8>) -> Result<(), NoMemory>
    ensures { OnOk result (text.new ≡ written text.old (opened is_needed)) }
{
    if is_needed {
        write_key(Terminal::Open, text)
    } else {
        Ok(())
    }
}

/// Adds `)` where it is needed.
#[tactic(auto, unfolding(crate::specs::Printing::written))]
fn write_closed(is_needed: bool, text: &mut List<u8>) -> Result<(), NoMemory>
    ensures { OnOk result (text.new ≡ written text.old (closed is_needed)) }
{
    if is_needed {
        write_key(Terminal::Close, text)
    } else {
        Ok(())
    }
}

/// Adds the tokens before the operand of a prefix operator.
#[tactic(auto, using(crate::proofs::Writing::written_joined), unfolding(crate::specs::Printing::written))]
fn write_one_lead(op: OneOp, outer: u8, text: &mut List<u8>) -> Result<(), NoMemory>
    ensures { OnOk result (text.new ≡ written text.old (one_lead op outer)) }
{
    match op {
        OneOp::Neg => {
            write_opened(outer > 6, text)?;
            write_key(Terminal::Minus, text)
        }
        OneOp::Not => {
            write_opened(outer > 2, text)?;
            write_key(Terminal::Not, text)
        }
        OneOp::TextOf => {
            write_key(Terminal::TextOf, text)?;
            write_key(Terminal::Open, text)
        }
    }
}

/// Returns the level of the operand of a prefix operator.
fn one_level(op: OneOp) -> u8
    ensures { result ≡ one_level op }
{
    match op {
        OneOp::Neg => 6,
        OneOp::Not => 2,
        OneOp::TextOf => 0,
    }
}

/// Adds the tokens after the operand of a prefix operator.
#[tactic(auto, unfolding(crate::specs::Printing::written))]
fn write_one_tail(op: OneOp, outer: u8, text: &mut List<u8>) -> Result<(), NoMemory>
    ensures { OnOk result (text.new ≡ written text.old (one_tail op outer)) }
{
    match op {
        OneOp::Neg => write_closed(outer > 6, text),
        OneOp::Not => write_closed(outer > 2, text),
        OneOp::TextOf => write_key(Terminal::Close, text),
    }
}

/// Adds the tokens before the operands of a binary operator.
#[tactic(auto, unfolding(crate::specs::Printing::written))]
fn write_two_lead(op: TwoOp, outer: u8, text: &mut List<u8>) -> Result<(), NoMemory>
    ensures { OnOk result (text.new ≡ written text.old (two_lead op outer)) }
{
    if is_call(op) {
        write_key(two_word(op), text)?;
        write_key(Terminal::Open, text)
    } else {
        write_opened(level(op) < outer, text)
    }
}

/// Returns the token between the operands of a binary operator.
fn two_middle(op: TwoOp) -> Terminal
    ensures { result ≡ two_middle op }
{
    if is_call(op) {
        Terminal::Comma
    } else {
        two_word(op)
    }
}

/// Adds the tokens after the operands of a binary operator.
#[tactic(auto, unfolding(crate::specs::Printing::written))]
fn write_two_tail(op: TwoOp, outer: u8, text: &mut List<u8>) -> Result<(), NoMemory>
    ensures { OnOk result (text.new ≡ written text.old (two_tail op outer)) }
{
    if is_call(op) {
        write_key(Terminal::Close, text)
    } else {
        write_closed(level(op) < outer, text)
    }
}

/// Adds an expression at a level, in parentheses if it binds looser than the level.
#[tactic(auto, using(crate::proofs::Writing::written_joined), unfolding(crate::specs::Printing::written))]
pub(crate) fn write_expr(expr: &Expr, outer: u8, text: &mut List<u8>) -> Result<(), NoMemory>
    ensures { OnOk result (text.new ≡ written text.old (expr_pieces expr.now outer)) }
{
    match &expr.kind {
        ExprKind::Const(value) => write_value(value, text),
        ExprKind::Var(name) => write_variable(name, text),
        ExprKind::Field(row, column) => {
            write_variable(row, text)?;
            write_key(Terminal::Dot, text)?;
            write_name(column, text)
        }
        ExprKind::Col(column) => write_name(column, text),
        ExprKind::One(op, operand) => {
            write_one_lead(*op, outer, text)?;
            write_expr(operand.get(), one_level(*op), text)?;
            write_one_tail(*op, outer, text)
        }
        ExprKind::Two(op, left, right) => {
            write_two_lead(*op, outer, text)?;
            write_expr(left.get(), left_level(*op), text)?;
            write_key(two_middle(*op), text)?;
            write_expr(right.get(), right_level(*op), text)?;
            write_two_tail(*op, outer, text)
        }
    }
}
