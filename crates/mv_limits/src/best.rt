//! Which limit is passed first.

ghost use Rattle.std.specs.Prelude.{◌≡◌, ◌-◌, ℕ};
ghost use Rattle.mv_ast.specs.Limits.{rank, is_sooner, sooner, soonest, when, at_token, too_many, name_token, column_token, param_token, declared_token, literal_token, row_token, expr_token, sort_token, set_token};

use mv_ast::limit::{PassedLimit, Which};
use mv_ast::tree::{ColDef, Expr, Lit, LitRow, Name, Param, SetItem, Sort, VarDef};

/// Returns the index of a limit in `Which`.
fn rank(which: Which) -> u8
    ensures { result ≡ rank which }
{
    which as u8
}

fn is_sooner(pass: PassedLimit, other: PassedLimit) -> bool
    ensures { result ≡ is_sooner pass other }
{
    pass.token < other.token || (pass.token == other.token && rank(pass.which) < rank(other.which))
}

/// Returns whichever of the two comes first.
pub(crate) fn sooner(best: Option<PassedLimit>, pass: PassedLimit) -> Option<PassedLimit>
    ensures { result ≡ sooner best pass }
{
    match best {
        None => Some(pass),
        Some(other) => {
            if is_sooner(pass, other) {
                Some(pass)
            } else {
                Some(other)
            }
        }
    }
}

/// Returns whichever of the two comes first. The limit counts only if `is_passed`.
#[tactic(auto, unfolding(mv_ast::specs::Limits::soonest))]
pub(crate) fn sooner_when(
    best: Option<PassedLimit>,
    is_passed: bool,
    which: Which,
    token: u32,
) -> Option<PassedLimit>
    ensures { result ≡ soonest best (when is_passed (at_token which token)) }
{
    if is_passed {
        sooner(best, PassedLimit { which, token })
    } else {
        best
    }
}

/// An item that is counted at one of its tokens.
pub(crate) trait Placed {
    ghost place: { Self → ℕ };

    fn token(&self) -> u32
        ensures { result ≡ place self.now };
}

/// Returns whichever comes first: `best`, or this limit if there are more than `most` items.
#[tactic(auto, unfolding(mv_ast::specs::Limits::soonest))]
pub(crate) fn too_many<T: Placed>(
    best: Option<PassedLimit>,
    which: Which,
    most: usize,
    items: &[T],
) -> Option<PassedLimit>
    ensures { result ≡ soonest best (too_many which most T.place items.now) }
{
    match items.get(most) {
        Some(item) => {
            let token = item.token();
            sooner(best, PassedLimit { which, token })
        }
        None => best,
    }
}

impl Placed for Name {
    ghost place = { name_token };

    fn token(&self) -> u32 {
        self.token
    }
}

impl Placed for ColDef {
    ghost place = { column_token };

    fn token(&self) -> u32 {
        self.name.token
    }
}

impl Placed for Param {
    ghost place = { param_token };

    fn token(&self) -> u32 {
        self.name.token
    }
}

impl Placed for VarDef {
    ghost place = { declared_token };

    fn token(&self) -> u32 {
        self.name.token.saturating_sub(1)
    }
}

impl Placed for Lit {
    ghost place = { literal_token };

    fn token(&self) -> u32 {
        self.token
    }
}

impl Placed for LitRow {
    ghost place = { row_token };

    fn token(&self) -> u32 {
        self.token
    }
}

impl Placed for Expr {
    ghost place = { expr_token };

    fn token(&self) -> u32 {
        self.token
    }
}

impl Placed for Sort {
    ghost place = { sort_token };

    fn token(&self) -> u32 {
        self.column.token
    }
}

impl Placed for SetItem {
    ghost place = { set_token };

    fn token(&self) -> u32 {
        self.column.token
    }
}
