//! The limits that are checked on a script by the grammar: all but depth and stretch.

ghost use Rattle.std.specs.Prelude.{◌≡◌, map};
ghost use Rattle.mv_ast.specs.Limits.{soonest, together, is_counted, too_many_items, procedure_passes, passes_in, script_passes, first_late};

use crate::best::{sooner, too_many};
use crate::rows::{in_arguments, in_params, in_table};
use crate::statements::in_body;
use crate::tokens::in_tokens;
use mv_ast::lexeme::Lexeme;
use mv_ast::limit::{PassedLimit, Which};
use mv_ast::tree::{Item, ItemKind, ProcDef, Script};

/// The most tables, procedures and calls of a script.
const TABLES: usize = 64;

const PROCEDURES: usize = 256;

const CALLS: usize = 1_000_000;

/// The most parameters and declared variables of a procedure.
const PARAMETERS: usize = 16;

const VARIABLES: usize = 64;

/// Returns whichever comes first: `best`, or a limit passed in the procedure.
#[tactic(auto, using(crate::proofs::Joining::soonest_joined))]
fn in_procedure(best: Option<PassedLimit>, procedure: &ProcDef) -> Option<PassedLimit>
    ensures { result ≡ soonest best (procedure_passes procedure.now) }
{
    let params = procedure.params.as_slice();
    let best = too_many(best, Which::Parameters, PARAMETERS, params);
    let best = too_many(best, Which::Variables, VARIABLES, procedure.vars.as_slice());
    let best = in_params(best, params);
    in_body(best, procedure.body.as_slice())
}

/// Whether the limit counts items of this kind.
fn is_counted(which: Which, kind: &ItemKind) -> bool
    ensures { result ≡ is_counted which kind.now }
{
    match (which, kind) {
        (Which::Tables, ItemKind::Table(_))
        | (Which::Procedures, ItemKind::Proc(_))
        | (Which::Calls, ItemKind::Call(_)) => true,
        _ => false,
    }
}

/// Returns whichever comes first: `best`, or this limit if it counts more than `most` of the items.
fn too_many_items(
    best: Option<PassedLimit>,
    which: Which,
    most: usize,
    items: &[Item],
) -> Option<PassedLimit>
    ensures { result ≡ soonest best (too_many_items which most items.now) }
{
    let mut left = most;
    for item in items {
        if !is_counted(which, &item.kind) {
            continue;
        }
        if left == 0 {
            let token = item.token;
            return sooner(best, PassedLimit { which, token });
        }
        left -= 1;
    }
    best
}

/// Returns whichever comes first: `best`, or a limit passed within the item.
#[tactic(auto, unfolding(mv_ast::specs::Limits::soonest))]
fn in_item(best: Option<PassedLimit>, item: &Item) -> Option<PassedLimit>
    ensures { result ≡ soonest best (passes_in item.now) }
{
    match &item.kind {
        ItemKind::Table(table) => in_table(best, table),
        ItemKind::Proc(procedure) => in_procedure(best, procedure),
        ItemKind::Call(call) => in_arguments(best, call.arguments.as_slice()),
        ItemKind::Copy(_) | ItemKind::Journal(_) => best,
    }
}

/// Returns whichever comes first: `best`, or a limit passed within one of the items.
fn in_items(best: Option<PassedLimit>, items: &[Item]) -> Option<PassedLimit>
    ensures { result ≡ soonest best (together (map passes_in items.now)) }
{
    let mut best = best;
    for item in items {
        best = in_item(best, item);
    }
    best
}

/// Returns the first token at which a limit other than depth and stretch is passed, in a script with this tree, these
/// tokens and these bytes. If several limits are passed there, the first in `Which` counts. The cost is linear in the
/// number of bytes. It allocates nothing.
#[tactic(auto, using(crate::proofs::Joining::soonest_joined))]
pub fn first_late(bytes: &[u8], lexemes: &[Lexeme], script: &Script) -> Option<PassedLimit>
    ensures { result ≡ first_late bytes.now lexemes.now script.now }
{
    let items = script.items.as_slice();
    let best = in_tokens(bytes, lexemes);
    let best = too_many_items(best, Which::Tables, TABLES, items);
    let best = too_many_items(best, Which::Procedures, PROCEDURES, items);
    let best = too_many_items(best, Which::Calls, CALLS, items);
    in_items(best, items)
}
