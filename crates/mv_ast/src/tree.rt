//! The syntax tree. Tokens are numbered from 1. Each `token` is the number of the first token of its part.

use mv_values::boxed::Boxed;
use mv_values::list::List;
use mv_values::op::Op;
use mv_values::schema::ColType;
use mv_values::txt::Txt;
use mv_values::value::Value;

/// A name in lower case, without the colon of a variable.
#[derive(Drop)]
pub struct Name {
    pub text: Txt,
    pub token: u32,
}

/// The bytes of a block: the position of the first one, how many there are, and whether a line `>>` closes the block.
#[derive(Clone, Copy)]
pub struct Span {
    pub token: u32,
    pub at: u32,
    pub len: u32,
    pub closed: bool,
}

#[derive(Drop)]
pub struct Script {
    pub items: List<Item>,
}

#[derive(Drop)]
pub struct Item {
    pub token: u32,
    pub kind: ItemKind,
}

#[derive(Drop)]
pub enum ItemKind {
    Table(TableDef),
    Proc(ProcDef),
    Copy(CopyDef),
    Call(CallDef),
    Journal(Span),
}

#[derive(Drop)]
pub struct CopyDef {
    pub table: Name,
    pub block: Span,
}

#[derive(Drop)]
pub struct TableDef {
    pub name: Name,
    pub columns: List<ColDef>,
    pub key: List<Name>,
    pub rows: List<LitRow>,
}

/// A column of a table or of a ROWS parameter. Its parent table is the one after REFERENCES, which no parameter has.
#[derive(Drop)]
pub struct ColDef {
    pub name: Name,
    pub kind: ColType,
    pub refers: Option<Name>,
}

/// A literal. The first token of a negative number is its `-`.
#[derive(Drop)]
pub struct Lit {
    pub value: Value,
    pub token: u32,
}

#[derive(Drop)]
pub struct LitRow {
    pub token: u32,
    pub values: List<Lit>,
}

/// A procedure. `read_only` tells whether it is declared READ ONLY.
#[derive(Drop)]
pub struct ProcDef {
    pub name: Name,
    pub params: List<Param>,
    pub read_only: bool,
    pub vars: List<VarDef>,
    pub body: List<Stmt>,
}

#[derive(Drop)]
pub struct VarDef {
    pub name: Name,
    pub initial: Lit,
}

#[derive(Drop)]
pub struct Param {
    pub name: Name,
    pub kind: ParamKind,
}

#[derive(Drop)]
pub enum ParamKind {
    One(ColType),
    Many(List<ColDef>),
}

#[derive(Drop)]
pub struct CallDef {
    pub name: Name,
    pub arguments: List<Arg>,
}

#[derive(Drop)]
pub enum Arg {
    One(Lit),
    Many(LitRows),
}

#[derive(Drop)]
pub struct LitRows {
    pub token: u32,
    pub rows: List<LitRow>,
}

/// A test in a WHERE clause.
#[derive(Drop)]
pub struct Cond {
    pub column: Name,
    pub op: Op,
    pub right: Expr,
}

#[derive(Drop)]
pub struct Sort {
    pub column: Name,
    pub descending: bool,
}

#[derive(Drop)]
pub enum Agg {
    CountAll,
    CountDistinct(Name),
    Sum(Name),
    Min(Name),
    Max(Name),
}

#[derive(Drop)]
pub struct SetItem {
    pub column: Name,
    pub right: Expr,
}

/// What a SELECT and a FOR have in common: columns of the rows of a table that pass WHERE, in the order of ORDER BY.
#[derive(Drop)]
pub struct Selection<'a> {
    pub table: &'a Name,
    pub columns: &'a [Name],
    pub conds: &'a [Cond],
    pub sorts: &'a [Sort],
}

/// A statement. Its token is its first word.
#[derive(Drop)]
pub enum Stmt {
    Assign {
        token: u32,
        to: Name,
        right: Expr,
    },
    Select {
        token: u32,
        columns: List<Name>,
        to: List<Name>,
        table: Name,
        conds: List<Cond>,
        sorts: List<Sort>,
        offset: Option<Expr>,
    },
    Total {
        token: u32,
        agg: Agg,
        to: Name,
        table: Name,
        conds: List<Cond>,
    },
    ForSelect {
        token: u32,
        row: Name,
        distinct: bool,
        columns: List<Name>,
        table: Name,
        conds: List<Cond>,
        sorts: List<Sort>,
        body: List<Stmt>,
    },
    ForRows {
        token: u32,
        row: Name,
        rows: Name,
        body: List<Stmt>,
    },
    Branch {
        token: u32,
        test: Expr,
        yes: List<Stmt>,
        no: List<Stmt>,
    },
    Insert {
        token: u32,
        table: Name,
        values: List<Expr>,
    },
    Update {
        token: u32,
        table: Name,
        items: List<SetItem>,
        conds: List<Cond>,
    },
    Delete {
        token: u32,
        table: Name,
        conds: List<Cond>,
    },
    Print {
        token: u32,
        values: List<Expr>,
    },
    Rollback {
        token: u32,
        reason: Txt,
    },
}

#[derive(Drop)]
#[cycle(expr)]
pub struct Expr {
    pub token: u32,
    pub kind: ExprKind,
}

#[derive(Drop)]
#[cycle(expr)]
pub enum ExprKind {
    Const(Value),
    Var(Name),
    /// A column of the current row of a loop: the name of the loop's variable, and the name of the column.
    Field(Name, Name),
    Col(Name),
    One(OneOp, Boxed<Expr>),
    Two(TwoOp, Boxed<Expr>, Boxed<Expr>),
}

#[derive(Clone, Copy, Debug)]
pub enum OneOp {
    Neg,
    Not,
    TextOf,
}

#[derive(Clone, Copy, Debug)]
pub enum TwoOp {
    Add,
    Sub,
    Mul,
    Div,
    Rem,
    Join,
    Compare(Op),
    And,
    Or,
    Left,
    Contains,
}
