//! The COPY blocks of the tables.

ghost use Rattle.std.specs.Prelude.{◌≡◌, ◌≤◌, ◌++◌, OnOk};
ghost use Rattle.std.specs.List.{flat_map};
ghost use Rattle.mv_tpccgen.specs.Rows.{district_row, item_row, line_count, order_line_row, stock_row, warehouse_row};
ghost use Rattle.mv_tpccgen.specs.Tables.{numbered_rows, rows, name, copy, copies};
ghost use Rattle.mv_tpccgen.specs.Writing.{up_to};

use crate::rows::{
    write_customer, write_district, write_history, write_item, write_new_order, write_order,
    write_order_line, write_stock, write_warehouse,
};
use crate::table::{PerDistrict, Table};
use mv_values::list::List;
use mv_values::memory::NoMemory;

/// The tables in the order of their statements.
const TABLES: [Table; 9] = [
    Table::Warehouse,
    Table::District,
    Table::InDistrict(PerDistrict::Customer),
    Table::InDistrict(PerDistrict::History),
    Table::InDistrict(PerDistrict::NewOrder),
    Table::InDistrict(PerDistrict::Orders),
    Table::InDistrict(PerDistrict::OrderLine),
    Table::Item,
    Table::Stock,
];

/// Adds a COPY block for each table.
#[tactic(auto, unfolding(crate::specs::Tables::copies))]
pub(crate) fn write_copies(warehouses: u32, text: &mut List<u8>) -> Result<(), NoMemory>
    requires few { warehouses ≤ 16 }
    ensures { OnOk result (text.new ≡ text.old ++ copies warehouses) }
{
    write_blocks(&TABLES, warehouses, text)
}

fn write_blocks(tables: &[Table], warehouses: u32, text: &mut List<u8>) -> Result<(), NoMemory>
    requires few { warehouses ≤ 16 }
    ensures { OnOk result (text.new ≡ text.old ++ flat_map (copy warehouses) tables.now) }
{
    for table in tables {
        write_copy(*table, warehouses, text)?;
    }
    Ok(())
}

fn write_copy(table: Table, warehouses: u32, text: &mut List<u8>) -> Result<(), NoMemory>
    requires few { warehouses ≤ 16 }
    ensures { OnOk result (text.new ≡ text.old ++ copy warehouses table) }
{
    text.append(b"COPY ")?;
    text.append(name(table))?;
    text.append(b" <<\n")?;
    write_rows(table, warehouses, text)?;
    text.append(b">>\n")
}

fn name(table: Table) -> &'static [u8]
    ensures { result.now ≡ name table }
{
    match table {
        Table::Warehouse => b"warehouse",
        Table::District => b"district",
        Table::InDistrict(PerDistrict::Customer) => b"customer",
        Table::InDistrict(PerDistrict::History) => b"history",
        Table::InDistrict(PerDistrict::NewOrder) => b"new_order",
        Table::InDistrict(PerDistrict::Orders) => b"orders",
        Table::InDistrict(PerDistrict::OrderLine) => b"order_line",
        Table::Item => b"item",
        Table::Stock => b"stock",
    }
}

#[tactic(auto, unfolding(crate::specs::Tables::rows))]
fn write_rows(table: Table, warehouses: u32, text: &mut List<u8>) -> Result<(), NoMemory>
    requires few { warehouses ≤ 16 }
    ensures { OnOk result (text.new ≡ text.old ++ rows warehouses table) }
{
    match table {
        Table::Warehouse => write_warehouses(warehouses, text),
        Table::District => write_districts(warehouses, text),
        Table::InDistrict(table) => write_in_districts(table, warehouses, text),
        Table::Item => write_items(text),
        Table::Stock => write_all_stock(warehouses, text),
    }
}

fn write_warehouses(warehouses: u32, text: &mut List<u8>) -> Result<(), NoMemory>
    requires few { warehouses ≤ 16 }
    ensures { OnOk result (text.new ≡ text.old ++ up_to warehouses warehouse_row) }
{
    for w in 0..warehouses {
        write_warehouse(w + 1, text)?;
    }
    Ok(())
}

fn write_districts(warehouses: u32, text: &mut List<u8>) -> Result<(), NoMemory>
    requires few { warehouses ≤ 16 }
    ensures { OnOk result (text.new ≡ text.old ++ up_to warehouses (λ w. up_to 10 (district_row w))) }
{
    for w in 0..warehouses {
        write_districts_of(w + 1, text)?;
    }
    Ok(())
}

fn write_districts_of(w: u32, text: &mut List<u8>) -> Result<(), NoMemory>
    requires warehouse { w ≤ 16 }
    ensures { OnOk result (text.new ≡ text.old ++ up_to 10 (district_row w)) }
{
    for d in 0..10 {
        write_district(w, d + 1, text)?;
    }
    Ok(())
}

fn write_in_districts(
    table: PerDistrict,
    warehouses: u32,
    text: &mut List<u8>,
) -> Result<(), NoMemory>
    requires few { warehouses ≤ 16 }
    ensures { OnOk result (text.new ≡ text.old ++ up_to warehouses (λ w. up_to 10 (λ d. up_to 30 (numbered_rows table w d)))) }
{
    for w in 0..warehouses {
        write_in_warehouse(table, w + 1, text)?;
    }
    Ok(())
}

fn write_in_warehouse(table: PerDistrict, w: u32, text: &mut List<u8>) -> Result<(), NoMemory>
    requires first { 1 ≤ w }
    requires warehouse { w ≤ 16 }
    ensures { OnOk result (text.new ≡ text.old ++ up_to 10 (λ d. up_to 30 (numbered_rows table w d))) }
{
    for d in 0..10 {
        write_in_district(table, w, d + 1, text)?;
    }
    Ok(())
}

fn write_in_district(
    table: PerDistrict,
    w: u32,
    d: u32,
    text: &mut List<u8>,
) -> Result<(), NoMemory>
    requires first { 1 ≤ w }
    requires warehouse { w ≤ 16 }
    requires first_district { 1 ≤ d }
    requires district { d ≤ 10 }
    ensures { OnOk result (text.new ≡ text.old ++ up_to 30 (numbered_rows table w d)) }
{
    for n in 0..30 {
        write_numbered(table, w, d, n + 1, text)?;
    }
    Ok(())
}

#[tactic(auto, unfolding(crate::specs::Tables::numbered_rows))]
fn write_numbered(
    table: PerDistrict,
    w: u32,
    d: u32,
    n: u32,
    text: &mut List<u8>,
) -> Result<(), NoMemory>
    requires first { 1 ≤ w }
    requires warehouse { w ≤ 16 }
    requires first_district { 1 ≤ d }
    requires district { d ≤ 10 }
    requires first_number { 1 ≤ n }
    requires number { n ≤ 30 }
    ensures { OnOk result (text.new ≡ text.old ++ numbered_rows table w d n) }
{
    match table {
        PerDistrict::Customer => write_customer(w, d, n, text),
        PerDistrict::History => write_history(w, d, n, text),
        PerDistrict::NewOrder => write_new_order(w, d, n, text),
        PerDistrict::Orders => write_order(w, d, n, text),
        PerDistrict::OrderLine => write_lines(w, d, n, text),
    }
}

fn write_lines(w: u32, d: u32, o: u32, text: &mut List<u8>) -> Result<(), NoMemory>
    requires order { o ≤ 30 }
    ensures { OnOk result (text.new ≡ text.old ++ up_to (line_count o) (order_line_row w d o)) }
{
    for j in 0..5 + o % 11 {
        write_order_line(w, d, o, j + 1, text)?;
    }
    Ok(())
}

fn write_items(text: &mut List<u8>) -> Result<(), NoMemory>
    ensures { OnOk result (text.new ≡ text.old ++ up_to 1000 item_row) }
{
    for i in 0..1000 {
        write_item(i + 1, text)?;
    }
    Ok(())
}

fn write_all_stock(warehouses: u32, text: &mut List<u8>) -> Result<(), NoMemory>
    requires few { warehouses ≤ 16 }
    ensures { OnOk result (text.new ≡ text.old ++ up_to warehouses (λ w. up_to 1000 (stock_row w))) }
{
    for w in 0..warehouses {
        write_stock_of(w + 1, text)?;
    }
    Ok(())
}

fn write_stock_of(w: u32, text: &mut List<u8>) -> Result<(), NoMemory>
    requires warehouse { w ≤ 16 }
    ensures { OnOk result (text.new ≡ text.old ++ up_to 1000 (stock_row w)) }
{
    for i in 0..1000 {
        write_stock(w, i + 1, text)?;
    }
    Ok(())
}
