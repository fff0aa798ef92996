//! The input of a command.

ghost use Rattle.std.specs.Prelude.{◌≡◌, Some, drop, IfOk, OnOk, IsErrOf};
ghost use Rattle.std.specs.Option.{ForSome};
ghost use Rattle.mv_values.specs.Counts.{Rose};
ghost use Rattle.mv_words.specs.Words.{HasLoad};
ghost use Rattle.mv_top.specs.Inputs.{IsReader, input_of, IsTaken};

use mv_edge::edge::Source;
use mv_edge::reading::{MOST, ReadFault, read_all};
use mv_tpccgen::workload::workload;
use mv_values::list::List;
use mv_words::command::Command;
use std::alloc::Global;

/// Returns the input of a command: the script that `tpcc` generates, or the bytes that are left in the source, at most
/// `MOST`. Fails with `NoMemory` if memory runs out, and with `Failed` if and only if the source's count of faults rises.
pub(crate) fn take_input<S: Source>(
    alloc: Global,
    command: &Command,
    source: &mut S,
) -> Result<List<u8>, ReadFault>
    requires load { HasLoad command.now }
    ensures taken { IfOk result (λ bytes. ForSome (input_of command.now (S.left source.old)) (λ all. IsTaken all bytes)) }
    ensures rest { IsReader command.now → OnOk result (ForSome (S.left source.old) (λ all. S.left source.new ≡ Some (drop MOST all))) }
    ensures unread { (IsReader command.now → ⊥) → S.left source.new ≡ S.left source.old }
    ensures untried { (IsReader command.now → ⊥) → IsErrOf result ReadFault.Failed → ⊥ }
    ensures quiet { OnOk result (S.faults source.new ≡ S.faults source.old) }
    ensures starved { IsErrOf result ReadFault.NoMemory → S.faults source.new ≡ S.faults source.old }
    ensures failed { IsErrOf result ReadFault.Failed → Rose (S.faults source.old) (S.faults source.new) }
{
    match command {
        Command::Tpcc { load, .. } => Ok(workload(alloc, load)?),
        _ => read_all(alloc, source),
    }
}
