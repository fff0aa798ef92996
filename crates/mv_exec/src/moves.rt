//! Where a running call continues after a record.

ghost use Rattle.std.specs.Prelude.{◌≡◌, ◌<◌, ◌^◌, IfOk, option_to_list};
ghost use Rattle.mv_catalog.specs.declared.resolved.ProcInfo.{ProcInfo};
ghost use Rattle.mv_catalog.specs.declared.resolved.RStmt.{RStmt, out-RStmt};
ghost use Rattle.mv_graph.specs.Steps.{TellsOf};
ghost use Rattle.mv_effect.specs.Choosing.{Chooses};
ghost use Rattle.mv_exec.specs.Holding.{holds_in, some_branch, some_loop};
ghost use Rattle.mv_exec.specs.Moves.{inner_frames, frame_after};

use crate::frames::{Frame, Holder};
use crate::position::Position;
use mv_catalog::resolved::RStmt;
use mv_eval::expr::holds;
use mv_eval::state::{Env, Stop};
use mv_values::memory::NoMemory;
use std::alloc::Global;

/// Evaluates the condition of an IF. Returns whether it chooses its first branch.
pub(crate) fn branch(alloc: Global, statement: &RStmt, env: &Env) -> Result<bool, NoMemory>
    ensures { IfOk result (λ b. Chooses env.now b (out-RStmt statement.now)) }
{
    let RStmt::Branch { test, .. } = statement else {
        return Ok(false);
    };
    match holds(alloc, test, env) {
        Ok(it) => Ok(it),
        Err(Stop::Memory) => Err(NoMemory),
        Err(Stop::Ended(_)) => Ok(false),
    }
}

/// What a statement holds: nothing, the body of a FOR with this row, or the branches of an IF.
#[derive(Clone, Copy)]
pub enum Holds {
    Nothing,
    Body { row: u16 },
    Branches,
}

/// Returns what a statement holds.
pub(crate) fn holds_in(statement: &RStmt) -> Holds
    ensures { result ≡ holds_in (out-RStmt statement.now) }
{
    match statement {
        RStmt::ForSelect { row, .. } => Holds::Body { row: *row },
        RStmt::ForRows { row, .. } => Holds::Body { row: *row },
        RStmt::Branch { .. } => Holds::Branches,
        _ => Holds::Nothing,
    }
}

/// Returns the frame before the first statement of a branch, or none if it has no statements.
fn branch_frame(record: u32, yes: bool, first: usize, some: bool) -> Option<Frame>
    ensures { option_to_list result ≡ some_branch «record» yes first some }
{
    if some {
        return Some(Frame {
            holder: Holder::Branch { record, yes },
            first,
            at: 0,
            number: first,
        });
    }
    None
}

/// Returns the frame before the first turn of a loop, or none if its body has no statements. `size` counts those with
/// what they hold.
fn loop_frame(record: u32, row: u16, first: usize, size: u16) -> Option<Frame>
    requires { first < 2 ^ 17 }
    ensures { option_to_list result ≡ some_loop «record» row first size }
{
    if size == 0 {
        return None;
    }
    Some(Frame {
        holder: Holder::Loop {
            record,
            row,
            turn: 0,
        },
        first,
        at: size as usize,
        number: first + size as usize,
    })
}

/// Returns the frame inside a statement whose record has this number. An IF takes the given branch.
pub(crate) fn inner_frame(position: Position<'_>, record: u32, yes: bool) -> Option<Frame>
    requires { position.frame.number < 2 ^ 16 }
    ensures { (proc : ProcInfo) (s : RStmt) → TellsOf proc s position.entry.step.now → option_to_list result ≡ inner_frames «record» position.entry.frame.number yes (out-RStmt s) }
{
    let number = position.frame.number;
    let step = position.step;
    match holds_in(&step.statement) {
        Holds::Nothing => None,
        Holds::Body { row } => loop_frame(record, row, number + 1, step.size.saturating_sub(1)),
        Holds::Branches => {
            if yes {
                branch_frame(record, true, number + 1, 1 < step.skip)
            } else {
                branch_frame(
                    record,
                    false,
                    number + step.skip as usize,
                    step.skip < step.size,
                )
            }
        }
    }
}

/// Returns the frame after a statement.
pub(crate) fn frame_after(position: Position<'_>) -> Frame
    requires number { position.frame.number < 2 ^ 16 }
    requires at { position.frame.at < 2 ^ 16 }
    ensures { result ≡ frame_after position.entry.step.now.size position.entry.frame }
{
    let frame = position.frame;
    Frame {
        holder: frame.holder,
        first: frame.first,
        at: frame.at + 1,
        number: frame.number + position.step.size as usize,
    }
}
