//! Builds expressions and the clauses that contain them.

ghost use Rattle.std.specs.Prelude.{◌≡◌, IfOk};
ghost use Rattle.std.specs.Option.{option_copied};
ghost use Rattle.mv_resolve.specs.Building.{columns_in, expr_of, plain, plains, maybe_plain, conds_of, sorts_of, agg_of, items_of};

use crate::build_names::{column, field, number_in, tiny_number, variable};
use crate::slot::NamedSlot;
use mv_ast::tree::{Agg, Cond, Expr, ExprKind, SetItem, Sort};
use mv_catalog::resolved::{RAgg, RCond, RExpr, RExprKind, RSetItem, RSort};
use mv_names::nested::Scope;
use mv_names::tables::TableNames;
use mv_values::boxed::Boxed;
use mv_values::copied::Copied;
use mv_values::list::List;
use mv_values::memory::NoMemory;
use std::alloc::Global;

/// Builds an expression, given the variables and the table whose columns may occur bare.
fn expr(
    alloc: Global,
    e: &Expr,
    slots: &Scope<'_, NamedSlot>,
    table: Option<&TableNames<'_>>,
) -> Result<RExpr, NoMemory>
    ensures { IfOk result (λ r. r ≡ expr_of e.now slots.now (columns_in (option_copied table.entry))) }
{
    match &e.kind {
        ExprKind::Const(v) => Ok(of_kind(RExprKind::Const(v.copy(alloc)?))),
        ExprKind::Var(name) => Ok(of_kind(RExprKind::Var(variable(slots, name)))),
        ExprKind::Field(row, name) => {
            let row = slots.find(&row.text);
            Ok(of_kind(RExprKind::Field(number_in(row), field(row, name))))
        }
        ExprKind::Col(name) => Ok(of_kind(RExprKind::Col(column(table, name)))),
        ExprKind::One(op, a) => {
            let a = Boxed::new(alloc, expr(alloc, a.get(), slots, table)?)?;
            Ok(of_kind(RExprKind::One(*op, a)))
        }
        ExprKind::Two(op, a, b) => {
            let a = Boxed::new(alloc, expr(alloc, a.get(), slots, table)?)?;
            let b = Boxed::new(alloc, expr(alloc, b.get(), slots, table)?)?;
            Ok(of_kind(RExprKind::Two(*op, a, b)))
        }
    }
}

/// Returns an expression of this kind.
fn of_kind(kind: RExprKind) -> RExpr
    ensures { result.kind ≡ kind }
{
    RExpr { kind }
}

/// Builds an expression without bare columns.
pub(crate) fn plain_expr(
    alloc: Global,
    slots: &Scope<'_, NamedSlot>,
    e: &Expr,
) -> Result<RExpr, NoMemory>
    ensures { IfOk result (λ r. r ≡ plain slots.now e.now) }
{
    expr(alloc, e, slots, None)
}

pub(crate) fn plain_exprs(
    alloc: Global,
    slots: &Scope<'_, NamedSlot>,
    exprs: &[Expr],
) -> Result<List<RExpr>, NoMemory>
    ensures { IfOk result (λ all. all ≡ plains slots.now exprs.now) }
{
    let mut all = List::new(alloc);
    for e in exprs {
        all.push(plain_expr(alloc, slots, e)?)?;
    }
    Ok(all)
}

pub(crate) fn offset(
    alloc: Global,
    slots: &Scope<'_, NamedSlot>,
    e: &Option<Expr>,
) -> Result<Option<RExpr>, NoMemory>
    ensures { IfOk result (λ r. r ≡ maybe_plain slots.now e.now) }
{
    match e {
        None => Ok(None),
        Some(e) => Ok(Some(plain_expr(alloc, slots, e)?)),
    }
}

/// Builds the conditions of WHERE.
pub(crate) fn conds(
    alloc: Global,
    slots: &Scope<'_, NamedSlot>,
    table: Option<&TableNames<'_>>,
    conds: &[Cond],
) -> Result<List<RCond>, NoMemory>
    ensures { IfOk result (λ all. all ≡ conds_of slots.now (columns_in (option_copied table.entry)) conds.now) }
{
    let mut all = List::new(alloc);
    for cond in conds {
        let right = plain_expr(alloc, slots, &cond.right)?;
        all.push(RCond {
            column: tiny_number(column(table, &cond.column) as usize),
            op: cond.op,
            right,
        })?;
    }
    Ok(all)
}

/// Builds the columns of ORDER BY.
pub(crate) fn sorts(
    alloc: Global,
    table: Option<&TableNames<'_>>,
    sorts: &[Sort],
) -> Result<List<RSort>, NoMemory>
    ensures { IfOk result (λ all. all ≡ sorts_of (columns_in (option_copied table.entry)) sorts.now) }
{
    let mut all = List::new(alloc);
    for sort in sorts {
        all.push(RSort {
            column: column(table, &sort.column),
            descending: sort.descending,
        })?;
    }
    Ok(all)
}

pub(crate) fn aggregate(table: Option<&TableNames<'_>>, agg: &Agg) -> RAgg
    ensures { result ≡ agg_of (columns_in (option_copied table.entry)) agg.now }
{
    match agg {
        Agg::CountAll => RAgg::CountAll,
        Agg::CountDistinct(name) => RAgg::CountDistinct(column(table, name)),
        Agg::Sum(name) => RAgg::Sum(column(table, name)),
        Agg::Min(name) => RAgg::Min(column(table, name)),
        Agg::Max(name) => RAgg::Max(column(table, name)),
    }
}

/// Builds the items of an UPDATE's SET. They may contain bare columns.
pub(crate) fn set_items(
    alloc: Global,
    slots: &Scope<'_, NamedSlot>,
    table: Option<&TableNames<'_>>,
    items: &[SetItem],
) -> Result<List<RSetItem>, NoMemory>
    ensures { IfOk result (λ all. all ≡ items_of slots.now (columns_in (option_copied table.entry)) items.now) }
{
    let mut all = List::new(alloc);
    for item in items {
        let right = expr(alloc, &item.right, slots, table)?;
        all.push(RSetItem {
            column: column(table, &item.column),
            right,
        })?;
    }
    Ok(all)
}
