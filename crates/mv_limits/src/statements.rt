//! Limits of statements.

ghost use Rattle.std.specs.Prelude.{◌≡◌, ◌∷◌, [], ◌++◌, map};
ghost use Rattle.mv_ast.specs.Limits.{soonest, together, too_many, name_token, sort_token, columns_most, statement_passes, statement_tokens};
ghost use Rattle.mv_limits.specs.Places.{seek, step};

use crate::best::{sooner, too_many};
use crate::cursor::Cursor;
use mv_ast::limit::{PassedLimit, Which};
use mv_ast::tree::{Name, Sort, Stmt};

/// The most items in a list of a statement, a table, a ROWS parameter or a literal row.
pub(crate) const COLUMNS: usize = 32;

/// The most statements of a procedure, nested ones included.
const STATEMENTS: usize = 1000;

/// The state of a walk through statements: the first limit passed so far, and the search for a statement.
#[derive(Clone, Copy)]
struct Walk {
    best: Option<PassedLimit>,
    place: Cursor,
}

/// Returns the search after one more token.
fn behind(place: Cursor, token: u32) -> Cursor
    ensures { result ≡ step place token }
{
    match place.found {
        Some(_) => place,
        None if place.left == 0 => Cursor {
            left: 0,
            found: Some(token),
        },
        None => Cursor {
            left: place.left - 1,
            found: None,
        },
    }
}

/// Returns whichever comes first: `best`, or a limit passed by a list of the SELECT.
#[tactic(auto, using(crate::proofs::Joining::soonest_joined))]
fn in_select(
    best: Option<PassedLimit>,
    columns: &[Name],
    to: &[Name],
    sorts: &[Sort],
) -> Option<PassedLimit>
    ensures { result ≡ soonest best (too_many Which.Columns columns_most name_token columns.now ++ (too_many Which.Columns columns_most name_token to.now ++ too_many Which.Columns columns_most sort_token sorts.now)) }
{
    let best = too_many(best, Which::Columns, COLUMNS, columns);
    let best = too_many(best, Which::Columns, COLUMNS, to);
    too_many(best, Which::Columns, COLUMNS, sorts)
}

/// Returns whichever comes first: `best`, or a limit passed by a list of the FOR over a SELECT.
#[tactic(auto, using(crate::proofs::Joining::soonest_joined))]
fn in_loop(best: Option<PassedLimit>, columns: &[Name], sorts: &[Sort]) -> Option<PassedLimit>
    ensures { result ≡ soonest best (too_many Which.Columns columns_most name_token columns.now ++ too_many Which.Columns columns_most sort_token sorts.now) }
{
    let best = too_many(best, Which::Columns, COLUMNS, columns);
    too_many(best, Which::Columns, COLUMNS, sorts)
}

/// Walks through statements and those nested in them.
#[cycle(statements)]
#[tactic(auto, using(crate::proofs::Joining::soonest_joined, crate::proofs::Joining::seek_joined))]
fn in_statements(walk: Walk, statements: &[Stmt]) -> Walk
    ensures best { result.best ≡ soonest walk.best (together (map statement_passes statements.now)) }
    ensures place { result.place ≡ seek walk.place (together (map statement_tokens statements.now)) }
{
    let mut walk = walk;
    for statement in statements {
        walk = in_statement(walk, statement);
    }
    walk
}

/// Walks through a statement and those nested in it.
#[cycle(statements)]
#[tactic(auto, using(crate::proofs::Joining::soonest_joined, crate::proofs::Joining::seek_joined), unfolding(mv_ast::specs::Limits::soonest, crate::specs::Places::seek))]
fn in_statement(walk: Walk, statement: &Stmt) -> Walk
    ensures best { result.best ≡ soonest walk.best (statement_passes statement.now) }
    ensures place { result.place ≡ seek walk.place (statement_tokens statement.now) }
{
    let Walk { best, place } = walk;
    match statement {
        Stmt::Assign { token, .. }
        | Stmt::Total { token, .. }
        | Stmt::Delete { token, .. }
        | Stmt::Rollback { token, .. } => Walk {
            best,
            place: behind(place, *token),
        },
        Stmt::Select {
            token,
            columns,
            to,
            sorts,
            ..
        } => Walk {
            best: in_select(best, columns.as_slice(), to.as_slice(), sorts.as_slice()),
            place: behind(place, *token),
        },
        Stmt::ForSelect {
            token,
            columns,
            sorts,
            body,
            ..
        } => {
            let best = in_loop(best, columns.as_slice(), sorts.as_slice());
            let place = behind(place, *token);
            in_statements(Walk { best, place }, body.as_slice())
        }
        Stmt::ForRows { token, body, .. } => {
            let place = behind(place, *token);
            in_statements(Walk { best, place }, body.as_slice())
        }
        Stmt::Branch { token, yes, no, .. } => {
            let place = behind(place, *token);
            let walk = in_statements(Walk { best, place }, yes.as_slice());
            in_statements(walk, no.as_slice())
        }
        Stmt::Insert { token, values, .. } | Stmt::Print { token, values } => Walk {
            best: too_many(best, Which::Columns, COLUMNS, values.as_slice()),
            place: behind(place, *token),
        },
        Stmt::Update { token, items, .. } => Walk {
            best: too_many(best, Which::Columns, COLUMNS, items.as_slice()),
            place: behind(place, *token),
        },
    }
}

/// Returns whichever comes first: `best`, or a limit passed by the lists of the statements or by their number.
#[tactic(auto, using(crate::proofs::Joining::soonest_joined))]
pub(crate) fn in_body(best: Option<PassedLimit>, body: &[Stmt]) -> Option<PassedLimit>
    ensures { result ≡ soonest best (together (map statement_passes body.now) ++ too_many Which.Statements 1000 (λ t. t) (together (map statement_tokens body.now))) }
{
    let place = Cursor {
        left: STATEMENTS,
        found: None,
    };
    let walk = in_statements(Walk { best, place }, body);
    match walk.place.found {
        Some(token) => {
            let which = Which::Statements;
            sooner(walk.best, PassedLimit { which, token })
        }
        None => walk.best,
    }
}
