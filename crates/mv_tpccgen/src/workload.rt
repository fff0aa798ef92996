//! The whole script of a load.

ghost use Rattle.std.specs.Prelude.{◌≡◌, ◌<◌, ◌≤◌, ◌++◌, IfOk, OnOk};
ghost use Rattle.std.specs.List.{flat_map};
ghost use Rattle.mv_tpccgen.specs.Calls.{call_text};
ghost use Rattle.mv_tpccgen.specs.Loads.{IsLoad};
ghost use Rattle.mv_tpccgen.specs.Workload.{requests, workload};

use crate::calls::write_call;
use crate::draws::words_from;
use crate::load::Load;
use crate::requests::draw_request;
use crate::tables::write_copies;
use mv_tpcc::script::script_text;
use mv_values::list::List;
use mv_values::memory::NoMemory;
use std::alloc::Global;

/// Returns the script of a load: the tables, the procedures, a COPY block for each table, and the calls. Equal loads give
/// equal scripts. Fails if memory runs out.
#[tactic(auto, unfolding(crate::specs::Workload::workload))]
pub fn workload(alloc: Global, load: &Load) -> Result<List<u8>, NoMemory>
    requires { IsLoad load.now }
    ensures { IfOk result (λ text. text ≡ workload load.now) }
{
    let mut text = script_text(alloc)?;
    write_copies(load.warehouses, &mut text)?;
    write_calls(alloc, load, &mut text)?;
    Ok(text)
}

fn write_calls(alloc: Global, load: &Load, text: &mut List<u8>) -> Result<(), NoMemory>
    requires { IsLoad load.now }
    ensures { OnOk result (text.new ≡ text.old ++ flat_map call_text (requests load.now)) }
{
    let mut words = words_from(load.seed);
    for k in 0..load.calls {
        let request = draw_request(alloc, load.warehouses, k, &mut words)?;
        write_call(&request, text)?;
    }
    Ok(())
}
