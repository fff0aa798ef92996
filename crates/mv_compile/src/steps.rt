//! The steps of statements.

ghost use Rattle.std.specs.Prelude.{◌≡◌, ◌<◌, ◌+◌, ◌^◌, ◌++◌, IfOk, OnOk};
ghost use Rattle.mv_catalog.specs.Statements.{size, size_of};
ghost use Rattle.mv_catalog.specs.declared.resolved.RStmt.{out-RStmt, roll-RStmt};
ghost use Rattle.mv_graph.specs.Steps.{own_part, own_step, skip_by, steps_of, body_steps};
ghost use Rattle.mv_compile.specs.Held.{steps_held};

use crate::copies::{copy_branch, copy_query, copy_statement};
use mv_catalog::resolved::RStmt;
use mv_catalog::sizes::{size_of, size_of_all};
use mv_graph::graph::Step;
use mv_recorded::reads::reads;
use mv_values::list::List;
use mv_values::memory::NoMemory;
use std::alloc::Global;

/// Returns a copy of a statement without those that it holds.
fn own_part(alloc: Global, statement: &RStmt) -> Result<RStmt, NoMemory>
    ensures { IfOk result (λ it. it ≡ roll-RStmt (own_part (out-RStmt statement.now))) }
{
    match statement {
        RStmt::ForSelect {
            row,
            distinct,
            columns,
            table,
            conds,
            sorts,
            ..
        } => {
            let (columns, conds, sorts) = copy_query(
                alloc,
                columns,
                conds.as_slice(),
                sorts.as_slice(),
            )?;
            Ok(RStmt::ForSelect {
                row: *row,
                distinct: *distinct,
                columns,
                table: *table,
                conds,
                sorts,
                body: List::new(alloc),
            })
        }
        RStmt::ForRows { row, rows, .. } => Ok(RStmt::ForRows {
            row: *row,
            rows: *rows,
            body: List::new(alloc),
        }),
        RStmt::Branch { test, .. } => copy_branch(alloc, test, List::new(alloc), List::new(alloc)),
        _ => copy_statement(alloc, statement),
    }
}

/// Returns how far the first statement of ELSE is from its IF, or 1 for another statement.
fn skip_of(statement: &RStmt) -> u16
    requires { size statement.now < 2 ^ 16 }
    ensures { result ≡ skip_by size_of (out-RStmt statement.now) }
{
    match statement {
        RStmt::Branch { yes, .. } => 1 + size_of_all(yes.as_slice()),
        _ => 1,
    }
}

/// Returns the step of a statement that has so many statements after it in its list.
fn own_step(alloc: Global, params: usize, statement: &RStmt, behind: u16) -> Result<Step, NoMemory>
    requires { size statement.now + behind < 2 ^ 16 }
    ensures { IfOk result (λ step. step ≡ own_step params (out-RStmt statement.now) (size statement.now) (skip_by size_of (out-RStmt statement.now)) behind) }
{
    let reads = reads(alloc, params, statement)?;
    let size = size_of(statement);
    Ok(Step {
        statement: own_part(alloc, statement)?,
        reads,
        size,
        skip: skip_of(statement),
        left: size + behind,
    })
}

/// Adds the steps of statements.
#[cycle(steps)]
pub(crate) fn add_steps(
    alloc: Global,
    steps: &mut List<Step>,
    params: usize,
    statements: &[RStmt],
) -> Result<(), NoMemory>
    requires { size_of statements.now < 2 ^ 16 }
    ensures { OnOk result (steps.new ≡ steps.old ++ body_steps params statements.now) }
{
    let mut behind = size_of_all(statements);
    for statement in statements {
        behind -= size_of(statement);
        add_step(alloc, steps, params, statement, behind)?;
    }
    Ok(())
}

/// Adds the step of a statement, then those of what it holds.
#[cycle(steps)]
fn add_step(
    alloc: Global,
    steps: &mut List<Step>,
    params: usize,
    statement: &RStmt,
    behind: u16,
) -> Result<(), NoMemory>
    requires { size statement.now + behind < 2 ^ 16 }
    ensures { OnOk result (steps.new ≡ steps.old ++ steps_of params statement.now behind) }
{
    steps.push(own_step(alloc, params, statement, behind)?)?;
    add_held(alloc, steps, params, statement)
}

/// Adds the steps of what a statement holds.
#[cycle(steps)]
fn add_held(
    alloc: Global,
    steps: &mut List<Step>,
    params: usize,
    statement: &RStmt,
) -> Result<(), NoMemory>
    requires { size statement.now < 2 ^ 16 }
    ensures { OnOk result (steps.new ≡ steps.old ++ steps_held params (out-RStmt statement.now)) }
{
    match statement {
        RStmt::ForSelect { body, .. } => add_steps(alloc, steps, params, body.as_slice()),
        RStmt::ForRows { body, .. } => add_steps(alloc, steps, params, body.as_slice()),
        RStmt::Branch { yes, no, .. } => {
            add_steps(alloc, steps, params, yes.as_slice())?;
            add_steps(alloc, steps, params, no.as_slice())
        }
        _ => Ok(()),
    }
}
