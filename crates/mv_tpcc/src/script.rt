//! The tables and procedures as one text.

ghost use Rattle.std.specs.Prelude.{◌≡◌, IfOk};
ghost use Rattle.mv_tpcc.specs.Script.{script};

use crate::procedures::{
    write_delivery, write_new_order, write_order_status, write_payment, write_stock_level,
};
use crate::tables::write_tables;
use mv_values::list::List;
use mv_values::memory::NoMemory;
use std::alloc::Global;

/// Returns the statements that create the tables and procedures of TPC-C. Fails if memory runs out.
#[tactic(auto, unfolding(crate::specs::Script::script))]
pub fn script_text(alloc: Global) -> Result<List<u8>, NoMemory>
    ensures { IfOk result (λ text. text ≡ script) }
{
    let mut text = List::new(alloc);
    write_tables(&mut text)?;
    write_new_order(&mut text)?;
    write_payment(&mut text)?;
    write_order_status(&mut text)?;
    write_delivery(&mut text)?;
    write_stock_level(&mut text)?;
    Ok(text)
}
