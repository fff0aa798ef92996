//! Copies of procedures.

ghost use Rattle.std.specs.Prelude.{◌≡◌, IfOk};
ghost use Rattle.mv_catalog.specs.declared.resolved.RStmt.TheVariants.{Select, Branch, Update};

use mv_catalog::resolved::{ParamInfo, ProcInfo, RCond, RExpr, RExprKind, RSetItem, RSort, RStmt};
use mv_values::boxed::Boxed;
use mv_values::copied::Copied;
use mv_values::list::List;
use mv_values::memory::NoMemory;
use std::alloc::Global;

// Expressions, and their containers

/// Returns a copy of an expression.
pub fn copy_expr(alloc: Global, expr: &RExpr) -> Result<RExpr, NoMemory>
    ensures { IfOk result (λ it. it ≡ expr.now) }
{
    match &expr.kind {
        RExprKind::Const(v) => Ok(of_kind(RExprKind::Const(v.copy(alloc)?))),
        RExprKind::Var(x) => Ok(of_kind(RExprKind::Var(*x))),
        RExprKind::Field(x, place) => Ok(of_kind(RExprKind::Field(*x, *place))),
        RExprKind::Col(c) => Ok(of_kind(RExprKind::Col(*c))),
        RExprKind::One(op, a) => {
            let a = Boxed::new(alloc, copy_expr(alloc, a.get())?)?;
            Ok(of_kind(RExprKind::One(*op, a)))
        }
        RExprKind::Two(op, a, b) => {
            let a = Boxed::new(alloc, copy_expr(alloc, a.get())?)?;
            let b = Boxed::new(alloc, copy_expr(alloc, b.get())?)?;
            Ok(of_kind(RExprKind::Two(*op, a, b)))
        }
    }
}

/// Returns an expression of this kind.
fn of_kind(kind: RExprKind) -> RExpr
    ensures { result.kind ≡ kind }
{
    RExpr { kind }
}

fn copy_exprs(alloc: Global, exprs: &[RExpr]) -> Result<List<RExpr>, NoMemory>
    ensures { IfOk result (λ it. it ≡ exprs.now) }
{
    let mut all = List::new(alloc);
    for expr in exprs {
        all.push(copy_expr(alloc, expr)?)?;
    }
    Ok(all)
}

fn copy_offset(alloc: Global, offset: &Option<RExpr>) -> Result<Option<RExpr>, NoMemory>
    ensures { IfOk result (λ it. it ≡ offset.now) }
{
    match offset {
        None => Ok(None),
        Some(expr) => Ok(Some(copy_expr(alloc, expr)?)),
    }
}

fn copy_conds(alloc: Global, conds: &[RCond]) -> Result<List<RCond>, NoMemory>
    ensures { IfOk result (λ it. it ≡ conds.now) }
{
    let mut all = List::new(alloc);
    for cond in conds {
        all.push(RCond {
            column: cond.column,
            op: cond.op,
            right: copy_expr(alloc, &cond.right)?,
        })?;
    }
    Ok(all)
}

fn copy_items(alloc: Global, items: &[RSetItem]) -> Result<List<RSetItem>, NoMemory>
    ensures { IfOk result (λ it. it ≡ items.now) }
{
    let mut all = List::new(alloc);
    for item in items {
        all.push(RSetItem {
            column: item.column,
            right: copy_expr(alloc, &item.right)?,
        })?;
    }
    Ok(all)
}

fn copy_sorts(alloc: Global, sorts: &[RSort]) -> Result<List<RSort>, NoMemory>
    ensures { IfOk result (λ it. it ≡ sorts.now) }
{
    let mut all = List::new(alloc);
    all.append(sorts)?;
    Ok(all)
}

// Statements

/// Returns copies of the columns, the tests and the order of a query.
pub(crate) fn copy_query(
    alloc: Global,
    columns: &List<u16>,
    conds: &[RCond],
    sorts: &[RSort],
) -> Result<(List<u16>, List<RCond>, List<RSort>), NoMemory>
    ensures columns { IfOk result (λ it. it.0 ≡ columns.now) }
    ensures conds { IfOk result (λ it. it.1 ≡ conds.now) }
    ensures sorts { IfOk result (λ it. it.2 ≡ sorts.now) }
{
    let columns = columns.copy(alloc)?;
    let conds = copy_conds(alloc, conds)?;
    let sorts = copy_sorts(alloc, sorts)?;
    Ok((columns, conds, sorts))
}

fn copy_select(
    alloc: Global,
    columns: &List<u16>,
    to: &List<u16>,
    table: u16,
    conds: &[RCond],
    sorts: &[RSort],
    offset: &Option<RExpr>,
) -> Result<RStmt, NoMemory>
    ensures { IfOk result (λ it. it ≡ Select columns.now to.now table conds.now sorts.now offset.now) }
{
    let (columns, conds, sorts) = copy_query(alloc, columns, conds, sorts)?;
    let to = to.copy(alloc)?;
    let offset = copy_offset(alloc, offset)?;
    Ok(RStmt::Select {
        columns,
        to,
        table,
        conds,
        sorts,
        offset,
    })
}

/// Returns a copy of an IF, given the copies of its branches.
pub(crate) fn copy_branch(
    alloc: Global,
    test: &RExpr,
    yes: List<RStmt>,
    no: List<RStmt>,
) -> Result<RStmt, NoMemory>
    ensures { IfOk result (λ it. it ≡ Branch test.now yes no) }
{
    let test = copy_expr(alloc, test)?;
    Ok(RStmt::Branch { test, yes, no })
}

fn copy_update(
    alloc: Global,
    table: u16,
    items: &[RSetItem],
    conds: &[RCond],
) -> Result<RStmt, NoMemory>
    ensures { IfOk result (λ it. it ≡ Update table items.now conds.now) }
{
    let items = copy_items(alloc, items)?;
    let conds = copy_conds(alloc, conds)?;
    Ok(RStmt::Update {
        table,
        items,
        conds,
    })
}

/// Returns a copy of statements.
#[cycle(copying)]
pub fn copy_statements(alloc: Global, statements: &[RStmt]) -> Result<List<RStmt>, NoMemory>
    ensures { IfOk result (λ it. it ≡ statements.now) }
{
    let mut all = List::new(alloc);
    for statement in statements {
        all.push(copy_statement(alloc, statement)?)?;
    }
    Ok(all)
}

/// Returns a copy of a statement.
#[cycle(copying)]
pub fn copy_statement(alloc: Global, statement: &RStmt) -> Result<RStmt, NoMemory>
    ensures { IfOk result (λ it. it ≡ statement.now) }
{
    match statement {
        RStmt::Assign { to, right } => Ok(RStmt::Assign {
            to: *to,
            right: copy_expr(alloc, right)?,
        }),
        RStmt::Select {
            columns,
            to,
            table,
            conds,
            sorts,
            offset,
        } => copy_select(
            alloc,
            columns,
            to,
            *table,
            conds.as_slice(),
            sorts.as_slice(),
            offset,
        ),
        RStmt::Total {
            agg,
            to,
            table,
            conds,
        } => Ok(RStmt::Total {
            agg: *agg,
            to: *to,
            table: *table,
            conds: copy_conds(alloc, conds.as_slice())?,
        }),
        RStmt::ForSelect {
            row,
            distinct,
            columns,
            table,
            conds,
            sorts,
            body,
        } => {
            let body = copy_statements(alloc, body.as_slice())?;
            let (columns, conds, sorts) = copy_query(
                alloc,
                columns,
                conds.as_slice(),
                sorts.as_slice(),
            )?;
            Ok(RStmt::ForSelect {
                row: *row,
                distinct: *distinct,
                columns,
                table: *table,
                conds,
                sorts,
                body,
            })
        }
        RStmt::ForRows { row, rows, body } => Ok(RStmt::ForRows {
            row: *row,
            rows: *rows,
            body: copy_statements(alloc, body.as_slice())?,
        }),
        RStmt::Branch { test, yes, no } => {
            let yes = copy_statements(alloc, yes.as_slice())?;
            let no = copy_statements(alloc, no.as_slice())?;
            copy_branch(alloc, test, yes, no)
        }
        RStmt::Insert { table, values } => Ok(RStmt::Insert {
            table: *table,
            values: copy_exprs(alloc, values.as_slice())?,
        }),
        RStmt::Update {
            table,
            items,
            conds,
        } => copy_update(alloc, *table, items.as_slice(), conds.as_slice()),
        RStmt::Delete { table, conds } => Ok(RStmt::Delete {
            table: *table,
            conds: copy_conds(alloc, conds.as_slice())?,
        }),
        RStmt::Print { values } => Ok(RStmt::Print {
            values: copy_exprs(alloc, values.as_slice())?,
        }),
        RStmt::Rollback { reason } => Ok(RStmt::Rollback {
            reason: reason.copy(alloc)?,
        }),
    }
}

// Procedures

fn copy_param(alloc: Global, param: &ParamInfo) -> Result<ParamInfo, NoMemory>
    ensures { IfOk result (λ it. it ≡ param.now) }
{
    match param {
        ParamInfo::One(kind) => Ok(ParamInfo::One(*kind)),
        ParamInfo::Many(kinds) => Ok(ParamInfo::Many(kinds.copy(alloc)?)),
    }
}

fn copy_params(alloc: Global, params: &[ParamInfo]) -> Result<List<ParamInfo>, NoMemory>
    ensures { IfOk result (λ it. it ≡ params.now) }
{
    let mut all = List::new(alloc);
    for param in params {
        all.push(copy_param(alloc, param)?)?;
    }
    Ok(all)
}

/// Returns a copy of a procedure.
pub fn copy_procedure(alloc: Global, procedure: &ProcInfo) -> Result<ProcInfo, NoMemory>
    ensures { IfOk result (λ it. it ≡ procedure.now) }
{
    let name = procedure.name.copy(alloc)?;
    let params = copy_params(alloc, procedure.params.as_slice())?;
    let defaults = procedure.defaults.copy(alloc)?;
    let body = copy_statements(alloc, procedure.body.as_slice())?;
    Ok(ProcInfo {
        name,
        params,
        read_only: procedure.read_only,
        defaults,
        body,
    })
}
