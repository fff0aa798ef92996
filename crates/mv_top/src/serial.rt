//! Runs the calls of a program alone, in call order.

ghost use Rattle.std.specs.Prelude.{◌≡◌, ◌≤◌, length, IfOk};
ghost use Rattle.mv_values.specs.Counts.{first_numbers};
ghost use Rattle.mv_accept.specs.Accepting.{most_calls};
ghost use Rattle.mv_record.specs.Databases.{IsProgram};
ghost use Rattle.mv_top.specs.Serial.{serial};

use mv_catalog::resolved::Program;
use mv_report::render_serial::render_serial;
use mv_serial::calls::{Serial, run_alone};
use mv_values::list::List;
use mv_values::memory::NoMemory;
use std::alloc::Global;

/// Returns the numbers below this one, in order.
fn numbers_below(alloc: Global, count: u32) -> Result<List<u32>, NoMemory>
    ensures { IfOk result (λ numbers. numbers ≡ first_numbers count) }
{
    let mut numbers = List::new(alloc);
    for number in 0..count {
        numbers.push(number)?;
    }
    Ok(numbers)
}

/// Runs each call of a program alone, after those before it, and returns the text of the replies and the final tables.
/// Costs the work of the calls.
pub(crate) fn serial_text(alloc: Global, program: &Program) -> Result<List<u8>, NoMemory>
    requires whole { IsProgram program.now }
    requires few { length program.now.resolved.calls ≤ most_calls }
    ensures { IfOk result (λ text. text ≡ serial program.now) }
{
    let order = numbers_below(alloc, program.resolved.calls.len() as u32)?;
    let Serial { replies, tables } = run_alone(alloc, program, order.as_slice())?;
    Ok(render_serial(alloc, &program.resolved.tables, &replies, &tables)?)
}
