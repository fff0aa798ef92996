//! The rows that the tables begin with, one by one.

ghost use Rattle.std.specs.Prelude.{◌≡◌, ◌≤◌, ◌++◌, OnOk};
ghost use Rattle.mv_tpccgen.specs.Rows.{amount, delivery_date, first_name, warehouse_row, district_row, customer_row, credit, history_row, is_delivered, new_order_row, orders_row, order_line_row, original, item_row, stock_row};

use crate::names::write_last_name;
use crate::writing::{write_each, write_number};
use mv_values::list::List;
use mv_values::memory::NoMemory;

/// The day before the calls.
const OPENING_DATE: u32 = 20170514;

pub(crate) fn write_warehouse(w: u32, text: &mut List<u8>) -> Result<(), NoMemory>
    requires warehouse { w ≤ 16 }
    ensures { OnOk result (text.new ≡ text.old ++ warehouse_row w) }
{
    write_number(w, text)?;
    text.append(b",W")?;
    write_each(&[w, 173 * w % 2001], b",", text)?;
    text.append(b"30000000\n")
}

pub(crate) fn write_district(w: u32, d: u32, text: &mut List<u8>) -> Result<(), NoMemory>
    requires warehouse { w ≤ 16 }
    requires district { d ≤ 10 }
    ensures { OnOk result (text.new ≡ text.old ++ district_row w d) }
{
    write_each(&[w, d], b",", text)?;
    text.append(b"D")?;
    write_each(&[d, (31 * w + 97 * d) % 2001], b",", text)?;
    text.append(b"3000000,31\n")
}

pub(crate) fn write_customer(w: u32, d: u32, c: u32, text: &mut List<u8>) -> Result<(), NoMemory>
    requires first_customer { 1 ≤ c }
    requires customer { c ≤ 30 }
    ensures { OnOk result (text.new ≡ text.old ++ customer_row w d c) }
{
    write_each(&[w, d, c], b",", text)?;
    write_first_name(c, text)?;
    text.append(b",OE,")?;
    write_last_name((c - 1) % 10, text)?;
    text.append(b",")?;
    text.append(credit(c))?;
    text.append(b",")?;
    write_number(13 * c % 5001, text)?;
    text.append(b",-1000,1000,1,0,opening\n")
}

#[tactic(auto, unfolding(crate::specs::Rows::first_name))]
fn write_first_name(c: u32, text: &mut List<u8>) -> Result<(), NoMemory>
    requires { c ≤ 30 }
    ensures { OnOk result (text.new ≡ text.old ++ first_name c) }
{
    text.append(b"F")?;
    write_number(7 * c % 30 / 10, text)?;
    write_number(7 * c % 30 % 10, text)
}

/// Whether a customer has bad credit (`BC`) or good credit (`GC`).
fn credit(c: u32) -> &'static [u8]
    ensures { result.now ≡ credit c }
{
    if c % 10 == 0 { b"BC" } else { b"GC" }
}

pub(crate) fn write_history(w: u32, d: u32, c: u32, text: &mut List<u8>) -> Result<(), NoMemory>
    requires first { 1 ≤ w }
    requires warehouse { w ≤ 16 }
    requires first_district { 1 ≤ d }
    requires district { d ≤ 10 }
    requires customer { c ≤ 30 }
    ensures { OnOk result (text.new ≡ text.old ++ history_row w d c) }
{
    let entry = 300 * (w - 1) + 30 * (d - 1) + c;
    write_each(&[entry, c, d, w, d, w], b",", text)?;
    text.append(b"20170514,1000,opening\n")
}

pub(crate) fn write_new_order(w: u32, d: u32, o: u32, text: &mut List<u8>) -> Result<(), NoMemory>
    ensures { OnOk result (text.new ≡ text.old ++ new_order_row w d o) }
{
    if is_delivered(o) {
        return Ok(());
    }
    write_each(&[w, d], b",", text)?;
    write_number(o, text)?;
    text.append(b"\n")
}

fn is_delivered(o: u32) -> bool
    ensures { result ≡ is_delivered o }
{
    o < 22
}

pub(crate) fn write_order(w: u32, d: u32, o: u32, text: &mut List<u8>) -> Result<(), NoMemory>
    requires order { o ≤ 30 }
    ensures { OnOk result (text.new ≡ text.old ++ orders_row w d o) }
{
    let customer = 7 * o % 30 + 1;
    let carrier = if is_delivered(o) { 1 + o % 10 } else { 0 };
    write_each(
        &[w, d, o, customer, OPENING_DATE, carrier, 5 + o % 11],
        b",",
        text,
    )?;
    text.append(b"1\n")
}

pub(crate) fn write_order_line(
    w: u32,
    d: u32,
    o: u32,
    j: u32,
    text: &mut List<u8>,
) -> Result<(), NoMemory>
    requires order { o ≤ 30 }
    requires line { j ≤ 15 }
    ensures { OnOk result (text.new ≡ text.old ++ order_line_row w d o j) }
{
    let item = (10 * o + j) % 1000 + 1;
    write_each(&[w, d, o, j, item, w, delivery_date(o), 5], b",", text)?;
    write_number(amount(o, j), text)?;
    text.append(b"\n")
}

fn delivery_date(o: u32) -> u32
    ensures { result ≡ delivery_date o }
{
    if is_delivered(o) { OPENING_DATE } else { 0 }
}

fn amount(o: u32, j: u32) -> u32
    requires { j ≤ 15 }
    ensures { result ≡ amount o j }
{
    if is_delivered(o) { 0 } else { 100 * j }
}

pub(crate) fn write_item(i: u32, text: &mut List<u8>) -> Result<(), NoMemory>
    requires item { i ≤ 1000 }
    ensures { OnOk result (text.new ≡ text.old ++ item_row i) }
{
    write_number(i, text)?;
    text.append(b",item")?;
    write_each(&[i, 100 + 37 * i % 9901], b",", text)?;
    text.append(original(i))?;
    text.append(b"\n")
}

pub(crate) fn write_stock(w: u32, i: u32, text: &mut List<u8>) -> Result<(), NoMemory>
    requires warehouse { w ≤ 16 }
    requires item { i ≤ 1000 }
    ensures { OnOk result (text.new ≡ text.old ++ stock_row w i) }
{
    write_each(&[w, i, 10 + i % 91], b",", text)?;
    text.append(b"0,0,0,")?;
    text.append(original(w + i))?;
    text.append(b"\n")
}

/// The data of one item in ten, and of the others.
fn original(number: u32) -> &'static [u8]
    ensures { result.now ≡ original number }
{
    if number % 10 == 0 {
        b"ORIGINAL"
    } else {
        b"plain"
    }
}
