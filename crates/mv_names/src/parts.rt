//! The items of a script, grouped by kind.

ghost use Rattle.std.specs.Prelude.{◌≡◌, ◌++◌, OnOk, IfOk};
ghost use Rattle.mv_names.specs.Items.{table_in, procedure_in, copy_in, call_in, journal_in, parts_of};

use mv_ast::tree::{CallDef, CopyDef, Item, ItemKind, ProcDef, Script, Span, TableDef};
use mv_values::list::List;
use mv_values::memory::NoMemory;
use std::alloc::Global;

/// The items of a script, grouped by kind. Each group keeps the order of the text.
#[derive(Drop)]
pub struct Parts {
    pub tables: List<TableDef>,
    pub procedures: List<ProcDef>,
    pub copies: List<CopyDef>,
    pub calls: List<CallDef>,
    pub journals: List<Span>,
}

/// Adds an item to the group of its kind.
fn add(parts: &mut Parts, kind: ItemKind) -> Result<(), NoMemory>
    ensures tables { OnOk result (parts.new.tables ≡ parts.old.tables ++ table_in kind) }
    ensures procedures { OnOk result (parts.new.procedures ≡ parts.old.procedures ++ procedure_in kind) }
    ensures copies { OnOk result (parts.new.copies ≡ parts.old.copies ++ copy_in kind) }
    ensures calls { OnOk result (parts.new.calls ≡ parts.old.calls ++ call_in kind) }
    ensures journals { OnOk result (parts.new.journals ≡ parts.old.journals ++ journal_in kind) }
{
    match kind {
        ItemKind::Table(table) => parts.tables.push(table),
        ItemKind::Proc(procedure) => parts.procedures.push(procedure),
        ItemKind::Copy(copy) => parts.copies.push(copy),
        ItemKind::Call(call) => parts.calls.push(call),
        ItemKind::Journal(journal) => parts.journals.push(journal),
    }
}

/// Returns a placeholder for an item that was moved out.
fn blank() -> Item {
    Item {
        token: 0,
        kind: ItemKind::Journal(Span {
            token: 0,
            at: 0,
            len: 0,
            closed: true,
        }),
    }
}

/// Groups the items of a script by kind, and consumes the script. Fails if memory runs out.
pub fn part(alloc: Global, script: Script) -> Result<Parts, NoMemory>
    ensures { IfOk result (λ parts. parts ≡ parts_of script.items) }
{
    let Script { mut items } = script;
    let mut parts = Parts {
        tables: List::new(alloc),
        procedures: List::new(alloc),
        copies: List::new(alloc),
        calls: List::new(alloc),
        journals: List::new(alloc),
    };
    for i in 0..items.len() {
        let item = items.replace(i, blank());
        add(&mut parts, item.kind)?;
    }
    Ok(parts)
}
