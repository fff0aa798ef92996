//! Runs statements, one after another, and those that hold others.

ghost use Rattle.std.specs.Prelude.{◌≡◌, ◌<◌, ◌+◌, ◌^◌, ◌++◌, [], Ok, OnOk, map};
ghost use Rattle.mv_catalog.specs.declared.resolved.RStmt.{out-RStmt};
ghost use Rattle.mv_catalog.specs.Statements.{size, total_size};
ghost use Rattle.mv_eval.specs.Alone.{alone, does, each_turn};
ghost use Rattle.mv_eval.specs.Results.{Gives, Leaves, then_do};
ghost use Rattle.mv_eval.specs.Value.{value_of, is_so};
ghost use Rattle.mv_recorded.specs.Recorded.{tell, tell_statements, tell_turns};
ghost use Rattle.mv_recorder.specs.Running.{Leave, AreFit, IsFit, IsBranchFit, HoldsFit, tell_held, does_held};
ghost use Rattle.mv_recorder.specs.Scenes.{IsSound};
ghost use Rattle.mv_recorder.specs.Sites.{site_of};
ghost use Rattle.mv_recorder.specs.Undoing.{StaysBack};

use crate::adding::{Run, Text, add, last_rows};
use crate::sites::Site;
use mv_catalog::resolved::{RExpr, RStmt};
use mv_catalog::sizes::{size_of, size_of_all};
use mv_eval::env::set_held;
use mv_eval::expr::holds;
use mv_eval::state::{Content, Env, Stop};
use mv_values::copied::Copied;
use mv_values::value::Row;
use std::alloc::Global;

/// Whether an IF takes its first branch.
fn takes(alloc: Global, test: &RExpr, env: &Env) -> Result<bool, Stop>
    ensures { Gives result (then_do (value_of test.now env.now []) (λ v. Ok (is_so v))) }
{
    holds(alloc, test, env)
}

/// Runs statements, of which the first has this number in the text.
#[cycle(statements)]
pub(crate) fn run_all(
    alloc: Global,
    text: &Text<'_>,
    statements: &[RStmt],
    number: u16,
    site: &Site,
    run: &mut Run,
) -> Result<(), Stop>
    requires sound { IsSound text.now.infos.now run.old.state.env run.old.state.tables }
    requires fit { AreFit text.now.infos.now number statements.now }
    ensures records { Leave result run.new.records (run.old.records ++ tell_statements text.now.infos.now text.now.params statements.now number (site_of site.now) run.old.records run.old.state) }
    ensures does { Leaves result run.new.state (alone text.now.infos.now statements.now run.old.state) }
    ensures sound { OnOk result (IsSound text.now.infos.now run.new.state.env run.new.state.tables) }
    ensures undo { StaysBack result run.old.undo run.old.state.tables run.new.undo run.new.state.tables }
{
    let mut next = number;
    for statement in statements {
        run_one(alloc, text, statement, next, site, run)?;
        next += size_of(statement);
    }
    Ok(())
}

/// Runs a statement, and those that it holds.
#[cycle(statements)]
fn run_one(
    alloc: Global,
    text: &Text<'_>,
    statement: &RStmt,
    number: u16,
    site: &Site,
    run: &mut Run,
) -> Result<(), Stop>
    requires sound { IsSound text.now.infos.now run.old.state.env run.old.state.tables }
    requires fit { IsFit text.now.infos.now statement.now }
    requires small { number + size statement.now < 2 ^ 16 }
    ensures records { Leave result run.new.records (run.old.records ++ tell text.now.infos.now text.now.params statement.now number (site_of site.now) run.old.records run.old.state) }
    ensures does { Leaves result run.new.state (does text.now.infos.now statement.now run.old.state) }
    ensures sound { OnOk result (IsSound text.now.infos.now run.new.state.env run.new.state.tables) }
    ensures undo { StaysBack result run.old.undo run.old.state.tables run.new.undo run.new.state.tables }
{
    let own = run.records.len();
    add(alloc, text, statement, number, site, run)?;
    let rows = last_rows(alloc, run.records.as_slice())?;
    let first = number + 1;
    run_held(
        alloc,
        text,
        statement,
        rows.as_slice(),
        own,
        first,
        site,
        run,
    )
}

/// Runs the statements that a statement holds, of which the first has this number in the text. `own` is the number of its
/// own record, and `rows` are those that a FOR iterates over.
#[cycle(statements)]
fn run_held(
    alloc: Global,
    text: &Text<'_>,
    statement: &RStmt,
    rows: &[Row],
    own: usize,
    first: u16,
    site: &Site,
    run: &mut Run,
) -> Result<(), Stop>
    requires sound { IsSound text.now.infos.now run.old.state.env run.old.state.tables }
    requires fit { HoldsFit text.now.infos.now first (out-RStmt statement.now) }
    ensures records { Leave result run.new.records (run.old.records ++ tell_held text.now.infos.now text.now.params (out-RStmt statement.now) rows.now own first (site_of site.now) run.old.records run.old.state) }
    ensures does { Leaves result run.new.state (does_held text.now.infos.now (out-RStmt statement.now) rows.now run.old.state) }
    ensures sound { OnOk result (IsSound text.now.infos.now run.new.state.env run.new.state.tables) }
    ensures undo { StaysBack result run.old.undo run.old.state.tables run.new.undo run.new.state.tables }
{
    match statement {
        RStmt::ForSelect { row, body, .. } => {
            let inside = site.within_loop(alloc, *row, own)?;
            run_turns(
                alloc,
                text,
                *row,
                body.as_slice(),
                rows,
                first,
                &inside,
                run,
            )
        }
        RStmt::ForRows { row, body, .. } => {
            let inside = site.within_loop(alloc, *row, own)?;
            run_turns(
                alloc,
                text,
                *row,
                body.as_slice(),
                rows,
                first,
                &inside,
                run,
            )
        }
        RStmt::Branch { test, yes, no } => {
            let inside = site.within(alloc, own)?;
            let first_branch = yes.as_slice();
            let second_branch = no.as_slice();
            let taken = takes(alloc, test, &run.state.env)?;
            if taken {
                run_first(
                    alloc,
                    text,
                    first_branch,
                    second_branch,
                    first,
                    &inside,
                    run,
                )
            } else {
                run_second(
                    alloc,
                    text,
                    second_branch,
                    first_branch,
                    first,
                    &inside,
                    run,
                )
            }
        }
        _ => Ok(()),
    }
}

/// Runs the first branch of an IF, which begins with this number in the text.
#[cycle(statements)]
fn run_first(
    alloc: Global,
    text: &Text<'_>,
    yes: &[RStmt],
    no: &[RStmt],
    first: u16,
    site: &Site,
    run: &mut Run,
) -> Result<(), Stop>
    requires sound { IsSound text.now.infos.now run.old.state.env run.old.state.tables }
    requires fit { IsBranchFit text.now.infos.now first yes.now no.now }
    ensures records { Leave result run.new.records (run.old.records ++ tell_statements text.now.infos.now text.now.params yes.now first (site_of site.now) run.old.records run.old.state) }
    ensures does { Leaves result run.new.state (alone text.now.infos.now yes.now run.old.state) }
    ensures sound { OnOk result (IsSound text.now.infos.now run.new.state.env run.new.state.tables) }
    ensures undo { StaysBack result run.old.undo run.old.state.tables run.new.undo run.new.state.tables }
{
    run_all(alloc, text, yes, first, site, run)
}

/// Runs the second branch of an IF, whose first branch begins with this number in the text.
#[cycle(statements)]
fn run_second(
    alloc: Global,
    text: &Text<'_>,
    no: &[RStmt],
    yes: &[RStmt],
    first: u16,
    site: &Site,
    run: &mut Run,
) -> Result<(), Stop>
    requires sound { IsSound text.now.infos.now run.old.state.env run.old.state.tables }
    requires fit { IsBranchFit text.now.infos.now first yes.now no.now }
    ensures records { Leave result run.new.records (run.old.records ++ tell_statements text.now.infos.now text.now.params no.now (first + total_size (map size yes.now)) (site_of site.now) run.old.records run.old.state) }
    ensures does { Leaves result run.new.state (alone text.now.infos.now no.now run.old.state) }
    ensures sound { OnOk result (IsSound text.now.infos.now run.new.state.env run.new.state.tables) }
    ensures undo { StaysBack result run.old.undo run.old.state.tables run.new.undo run.new.state.tables }
{
    let next = first + size_of_all(yes);
    run_all(alloc, text, no, next, site, run)
}

/// Runs the statements in a FOR, once for each of its rows.
#[cycle(statements)]
fn run_turns(
    alloc: Global,
    text: &Text<'_>,
    row: u16,
    body: &[RStmt],
    rows: &[Row],
    number: u16,
    site: &Site,
    run: &mut Run,
) -> Result<(), Stop>
    requires sound { IsSound text.now.infos.now run.old.state.env run.old.state.tables }
    requires fit { AreFit text.now.infos.now number body.now }
    ensures records { Leave result run.new.records (run.old.records ++ tell_turns row (alone text.now.infos.now body.now) (tell_statements text.now.infos.now text.now.params body.now) rows.now 1 number (site_of site.now) run.old.records run.old.state) }
    ensures does { Leaves result run.new.state (each_turn row (alone text.now.infos.now body.now) rows.now run.old.state) }
    ensures sound { OnOk result (IsSound text.now.infos.now run.new.state.env run.new.state.tables) }
    ensures undo { StaysBack result run.old.undo run.old.state.tables run.new.undo run.new.state.tables }
{
    for (i, one) in rows.iter().enumerate() {
        let inside = site.in_turn(alloc, i + 1)?;
        let held = Content::Turn(one.copy(alloc)?);
        set_held(&mut run.state.env, row as usize, held)?;
        run_all(alloc, text, body, number, &inside, run)?;
    }
    Ok(())
}
