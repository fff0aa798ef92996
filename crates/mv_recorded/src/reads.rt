//! The variables that statements read.

ghost use Rattle.std.specs.Prelude.{◌≡◌, ◌++◌, ◌==◌, IfOk, OnOk, nat_le, map, option_to_list};
ghost use Rattle.std.specs.List.{filter, flat_map, list_any};
ghost use Rattle.mv_catalog.specs.declared.resolved.RStmt.{out-RStmt};
ghost use Rattle.mv_recorded.specs.Reading.{variables, rights, expressions, each_once, read_variables};
ghost use Rattle.mv_recorded.specs.Adding.{with_new};

use mv_catalog::resolved::{RCond, RExpr, RExprKind, RSetItem, RStmt};
use mv_values::list::List;
use mv_values::memory::NoMemory;
use std::alloc::Global;

// Variables in expressions

/// Adds the variables in an expression, in the order of the text.
fn add_variables(found: &mut List<u16>, expr: &RExpr) -> Result<(), NoMemory>
    ensures { OnOk result (found.new ≡ found.old ++ variables expr.now) }
{
    match &expr.kind {
        RExprKind::Const(_) | RExprKind::Col(_) => Ok(()),
        RExprKind::Var(x) | RExprKind::Field(x, _) => found.push(*x),
        RExprKind::One(_, a) => add_variables(found, a.get()),
        RExprKind::Two(_, a, b) => {
            add_variables(found, a.get())?;
            add_variables(found, b.get())
        }
    }
}

fn add_all(found: &mut List<u16>, exprs: &[RExpr]) -> Result<(), NoMemory>
    ensures { OnOk result (found.new ≡ found.old ++ flat_map variables exprs.now) }
{
    for expr in exprs {
        add_variables(found, expr)?;
    }
    Ok(())
}

fn add_offset(found: &mut List<u16>, offset: &Option<RExpr>) -> Result<(), NoMemory>
    ensures { OnOk result (found.new ≡ found.old ++ flat_map variables (option_to_list offset.now)) }
{
    match offset {
        None => Ok(()),
        Some(expr) => add_variables(found, expr),
    }
}

fn add_conds(found: &mut List<u16>, conds: &[RCond]) -> Result<(), NoMemory>
    ensures { OnOk result (found.new ≡ found.old ++ flat_map variables (rights conds.now)) }
{
    for cond in conds {
        add_variables(found, &cond.right)?;
    }
    Ok(())
}

fn add_items(found: &mut List<u16>, items: &[RSetItem]) -> Result<(), NoMemory>
    ensures { OnOk result (found.new ≡ found.old ++ flat_map variables (map (λ i. i.right) items.now)) }
{
    for item in items {
        add_variables(found, &item.right)?;
    }
    Ok(())
}

/// Returns the variables in a statement's own expressions, in the order of the text.
fn variables_in(alloc: Global, statement: &RStmt) -> Result<List<u16>, NoMemory>
    ensures { IfOk result (λ found. found ≡ flat_map variables (expressions (out-RStmt statement.now))) }
{
    let mut found = List::new(alloc);
    match statement {
        RStmt::Assign { right, .. } => add_variables(&mut found, right)?,
        RStmt::Select { conds, offset, .. } => {
            add_conds(&mut found, conds.as_slice())?;
            add_offset(&mut found, offset)?;
        }
        RStmt::Total { conds, .. } | RStmt::ForSelect { conds, .. } | RStmt::Delete { conds, .. } =>
            add_conds(&mut found, conds.as_slice())?,
        RStmt::Branch { test, .. } => add_variables(&mut found, test)?,
        RStmt::Insert { values, .. } | RStmt::Print { values } => {
            add_all(&mut found, values.as_slice())?
        }
        RStmt::Update { items, conds, .. } => {
            add_items(&mut found, items.as_slice())?;
            add_conds(&mut found, conds.as_slice())?;
        }
        RStmt::ForRows { .. } | RStmt::Rollback { .. } => {}
    }
    Ok(found)
}

// Lists of variables

/// Returns the numbers without repeats, in the order of their first occurrences. Takes quadratic time.
pub fn once_each(alloc: Global, numbers: &[u16]) -> Result<List<u16>, NoMemory>
    ensures { IfOk result (λ all. all ≡ each_once numbers.now) }
{
    let mut all = List::new(alloc);
    for number in numbers {
        add_new(&mut all, *number)?;
    }
    Ok(all)
}

/// Adds a number, unless it is there.
fn add_new(all: &mut List<u16>, number: u16) -> Result<(), NoMemory>
    ensures { OnOk result (all.new ≡ with_new all.old number) }
{
    if has(all.as_slice(), number) {
        Ok(())
    } else {
        all.push(number)
    }
}

fn has(numbers: &[u16], number: u16) -> bool
    ensures { result ≡ list_any (λ n. n == number) numbers.now }
{
    numbers.iter().any(|n| *n == number)
}

/// Whether a variable isn't one of the first `params`.
fn is_behind(params: usize, number: u16) -> bool
    ensures { result ≡ nat_le params number }
{
    params <= number as usize
}

/// Returns the numbers that aren't among the first `params` variables.
fn behind(alloc: Global, params: usize, numbers: &[u16]) -> Result<List<u16>, NoMemory>
    ensures { IfOk result (λ all. all ≡ filter (λ x. nat_le params x) numbers.now) }
{
    let mut all = List::new(alloc);
    for number in numbers {
        if is_behind(params, *number) {
            all.push(*number)?;
        }
    }
    Ok(all)
}

/// Returns the variables that a statement's own expressions read, each once. The first `params` variables are
/// parameters, which are left out.
pub fn reads(alloc: Global, params: usize, statement: &RStmt) -> Result<List<u16>, NoMemory>
    ensures { IfOk result (λ all. all ≡ read_variables params (expressions (out-RStmt statement.now))) }
{
    let all = variables_in(alloc, statement)?;
    let each = once_each(alloc, all.as_slice())?;
    behind(alloc, params, each.as_slice())
}
