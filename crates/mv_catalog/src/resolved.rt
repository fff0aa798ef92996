//! Programs, in which numbers replace names. Tables, columns, procedures and calls are numbered by position, from 0.
//! The variables of a procedure are numbered in this order: parameters, declared variables, `:found`, and the loop rows
//! in the order of their FORs in the text.

use mv_ast::tree::{OneOp, TwoOp};
use mv_values::boxed::Boxed;
use mv_values::calls::Call;
use mv_values::list::List;
use mv_values::op::Op;
use mv_values::rows::Database;
use mv_values::schema::{ColType, TableInfo};
use mv_values::txt::Txt;
use mv_values::value::{Row, Value};

/// The type of a parameter: a scalar, or rows given by the types of their columns.
#[derive(Drop)]
pub enum ParamInfo {
    One(ColType),
    Many(List<ColType>),
}

/// A procedure. `read_only` tells whether it is declared READ ONLY, and `defaults` holds the initial values of its declared
/// variables.
#[derive(Drop)]
pub struct ProcInfo {
    pub name: Txt,
    pub params: List<ParamInfo>,
    pub read_only: bool,
    pub defaults: List<Value>,
    pub body: List<RStmt>,
}

/// A block of the script that fills a table, or the journal (whose table is 0). `at` is the offset of its first byte in
/// the script, `len` its length in bytes. `closed` tells whether a line `>>` ends it.
#[derive(Clone, Copy)]
pub struct CopyInfo {
    pub table: u8,
    pub at: u32,
    pub len: u32,
    pub closed: bool,
}

/// A script with its names resolved. `rows` holds the rows of VALUES for each table.
#[derive(Drop)]
pub struct Resolved {
    pub tables: List<TableInfo>,
    pub rows: List<List<Row>>,
    pub procedures: List<ProcInfo>,
    pub copies: List<CopyInfo>,
    pub calls: List<Call>,
    pub journal: Option<CopyInfo>,
}

/// An accepted script: its resolved form, and the database before its first call.
#[derive(Drop)]
pub struct Program {
    pub resolved: Resolved,
    pub opening: Database,
}

/// A condition of WHERE.
#[derive(Drop)]
pub struct RCond {
    pub column: u8,
    pub op: Op,
    pub right: RExpr,
}

#[derive(Clone, Copy)]
pub struct RSort {
    pub column: u16,
    pub descending: bool,
}

/// What a SELECT and a FOR have in common: columns of the rows of a table that pass WHERE, in the order of ORDER BY.
#[derive(Drop)]
pub struct Query<'a> {
    pub table: u16,
    pub columns: &'a [u16],
    pub conds: &'a [RCond],
    pub sorts: &'a [RSort],
}

#[derive(Clone, Copy)]
pub enum RAgg {
    CountAll,
    CountDistinct(u16),
    Sum(u16),
    Min(u16),
    Max(u16),
}

#[derive(Drop)]
pub struct RSetItem {
    pub column: u16,
    pub right: RExpr,
}

/// What an UPDATE sets in the rows of a table that pass WHERE.
#[derive(Drop)]
pub struct Update<'a> {
    pub table: u16,
    pub items: &'a [RSetItem],
    pub conds: &'a [RCond],
}

#[derive(Drop)]
pub enum RStmt {
    Assign {
        to: u16,
        right: RExpr,
    },
    Select {
        columns: List<u16>,
        to: List<u16>,
        table: u16,
        conds: List<RCond>,
        sorts: List<RSort>,
        offset: Option<RExpr>,
    },
    Total {
        agg: RAgg,
        to: u16,
        table: u16,
        conds: List<RCond>,
    },
    ForSelect {
        row: u16,
        distinct: bool,
        columns: List<u16>,
        table: u16,
        conds: List<RCond>,
        sorts: List<RSort>,
        body: List<RStmt>,
    },
    ForRows {
        row: u16,
        rows: u16,
        body: List<RStmt>,
    },
    Branch {
        test: RExpr,
        yes: List<RStmt>,
        no: List<RStmt>,
    },
    Insert {
        table: u16,
        values: List<RExpr>,
    },
    Update {
        table: u16,
        items: List<RSetItem>,
        conds: List<RCond>,
    },
    Delete {
        table: u16,
        conds: List<RCond>,
    },
    Print {
        values: List<RExpr>,
    },
    Rollback {
        reason: Txt,
    },
}

#[cycle(expr)]
#[derive(Drop)]
pub struct RExpr {
    pub kind: RExprKind,
}

#[cycle(expr)]
#[derive(Drop)]
pub enum RExprKind {
    Const(Value),
    Var(u16),
    /// A column of a loop's row: the number of the loop's variable, and the index in its row.
    Field(u16, u16),
    Col(u16),
    One(OneOp, Boxed<RExpr>),
    Two(TwoOp, Boxed<RExpr>, Boxed<RExpr>),
}
