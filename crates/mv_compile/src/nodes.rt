//! The nodes of statements.

ghost use Rattle.std.specs.Prelude.{◌≡◌, ◌<◌, ◌≤◌, ◌+◌, ◌^◌, ◌++◌, ◌∷◌, [], IfOk, OnOk, Some, All, length, map};
ghost use Rattle.mv_catalog.specs.Statements.{size, total_size};
ghost use Rattle.mv_catalog.specs.Text.{IsTable};
ghost use Rattle.mv_catalog.specs.declared.resolved.RStmt.{out-RStmt};
ghost use Rattle.mv_graph.specs.Nodes.{own_node, nodes_of, nodes_inside, body_nodes};

use crate::reads::{asks, changes, keyword, sets};
use mv_catalog::resolved::RStmt;
use mv_catalog::sizes::size_of;
use mv_graph::graph::Node;
use mv_recorded::reads::reads;
use mv_values::copied::Copied;
use mv_values::list::List;
use mv_values::memory::NoMemory;
use mv_values::schema::TableInfo;
use std::alloc::Global;

/// The tables of a procedure, and how its variables are numbered. Parameters come first, and `found` is the number of
/// `:found`.
#[derive(Clone, Copy)]
pub(crate) struct Slots<'a> {
    pub tables: &'a [TableInfo],
    pub params: usize,
    pub found: u16,
}

/// Returns the node of a statement, without those of what it holds.
fn own_node(
    alloc: Global,
    slots: Slots<'_>,
    statement: &RStmt,
    holder: Option<u16>,
    loops: &List<u16>,
) -> Result<Node, NoMemory>
    requires room { size statement.now < 2 ^ 16 }
    requires few { length slots.tables.now ≤ 64 }
    requires each { All IsTable slots.tables.now }
    ensures { IfOk result (λ node. node ≡ own_node slots.entry.tables.now slots.entry.params slots.entry.found (out-RStmt statement.now) holder loops.now (size statement.now)) }
{
    let loops = loops.copy(alloc)?;
    let reads = reads(alloc, slots.params, statement)?;
    let sets = sets(alloc, slots.found, statement)?;
    let asks = asks(alloc, slots.tables, statement)?;
    Ok(Node {
        keyword: keyword(statement),
        parent: holder,
        loops,
        reads,
        sets,
        changes: changes(statement),
        asks,
        size: size_of(statement),
    })
}

/// Returns the loops with one more inside them.
fn with_loop(alloc: Global, loops: &List<u16>, number: u16) -> Result<List<u16>, NoMemory>
    ensures { IfOk result (λ all. all ≡ loops.now ++ number ∷ []) }
{
    let mut all = loops.copy(alloc)?;
    all.push(number)?;
    Ok(all)
}

/// Adds the nodes of statements that `holder` holds inside these loops.
#[cycle(nodes)]
pub(crate) fn add_nodes(
    alloc: Global,
    nodes: &mut List<Node>,
    slots: Slots<'_>,
    statements: &[RStmt],
    holder: Option<u16>,
    loops: &List<u16>,
) -> Result<(), NoMemory>
    requires room { length nodes.old + total_size (map size statements.now) < 2 ^ 16 }
    requires few { length slots.tables.now ≤ 64 }
    requires each { All IsTable slots.tables.now }
    ensures nodes { OnOk result (nodes.new ≡ nodes.old ++ body_nodes slots.entry.tables.now slots.entry.params slots.entry.found statements.now (length nodes.old + 1) holder loops.now) }
    ensures count { OnOk result (length nodes.new ≡ length nodes.old + total_size (map size statements.now)) }
{
    for statement in statements {
        add_node(alloc, nodes, slots, statement, holder, loops)?;
    }
    Ok(())
}

/// Adds the node of a statement, then those of what it holds.
#[cycle(nodes)]
fn add_node(
    alloc: Global,
    nodes: &mut List<Node>,
    slots: Slots<'_>,
    statement: &RStmt,
    holder: Option<u16>,
    loops: &List<u16>,
) -> Result<(), NoMemory>
    requires room { length nodes.old + size statement.now < 2 ^ 16 }
    requires few { length slots.tables.now ≤ 64 }
    requires each { All IsTable slots.tables.now }
    ensures { OnOk result (nodes.new ≡ nodes.old ++ nodes_of slots.entry.tables.now slots.entry.params slots.entry.found statement.now (length nodes.old + 1) holder loops.now) }
{
    nodes.push(own_node(alloc, slots, statement, holder, loops)?)?;
    add_held(alloc, nodes, slots, statement, loops)
}

/// Adds the nodes of what a statement holds. Its own node must be the last one.
#[cycle(nodes)]
fn add_held(
    alloc: Global,
    nodes: &mut List<Node>,
    slots: Slots<'_>,
    statement: &RStmt,
    loops: &List<u16>,
) -> Result<(), NoMemory>
    requires room { length nodes.old + size statement.now ≤ 2 ^ 16 }
    requires few { length slots.tables.now ≤ 64 }
    requires each { All IsTable slots.tables.now }
    ensures { OnOk result (nodes.new ≡ nodes.old ++ nodes_inside slots.entry.tables.now slots.entry.params slots.entry.found (out-RStmt statement.now) (length nodes.old) loops.now) }
{
    match statement {
        RStmt::ForSelect { body, .. } => add_turns(alloc, nodes, slots, body.as_slice(), loops),
        RStmt::ForRows { body, .. } => add_turns(alloc, nodes, slots, body.as_slice(), loops),
        RStmt::Branch { yes, no, .. } => {
            let holder = Some(nodes.len() as u16);
            add_nodes(alloc, nodes, slots, yes.as_slice(), holder, loops)?;
            add_nodes(alloc, nodes, slots, no.as_slice(), holder, loops)
        }
        _ => Ok(()),
    }
}

/// Adds the nodes of the statements in a loop. The loop's own node must be the last one.
#[cycle(nodes)]
fn add_turns(
    alloc: Global,
    nodes: &mut List<Node>,
    slots: Slots<'_>,
    body: &[RStmt],
    loops: &List<u16>,
) -> Result<(), NoMemory>
    requires room { length nodes.old + total_size (map size body.now) < 2 ^ 16 }
    requires few { length slots.tables.now ≤ 64 }
    requires each { All IsTable slots.tables.now }
    ensures { OnOk result (nodes.new ≡ nodes.old ++ body_nodes slots.entry.tables.now slots.entry.params slots.entry.found body.now (length nodes.old + 1) (Some (length nodes.old)) (loops.now ++ length nodes.old ∷ [])) }
{
    let number = nodes.len() as u16;
    let inside = with_loop(alloc, loops, number)?;
    add_nodes(alloc, nodes, slots, body, Some(number), &inside)
}
