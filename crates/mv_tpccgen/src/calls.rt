//! The text of calls.

ghost use Rattle.std.specs.Prelude.{◌≡◌, ◌++◌, List as Seq, [], ◌∷◌, OnOk, codes, decimal};
ghost use Rattle.std.specs.List.{flat_map};
ghost use Rattle.mv_tpccgen.specs.Calls.{call_text, customer_name, customer_number, line_text, lines_text};
ghost use Rattle.mv_tpccgen.specs.declared.request.Request.TheVariants.{NewOrder, Payment, OrderStatus, Delivery, StockLevel};

use crate::names::write_last_name;
use crate::request::{Customer, District, Line, Request};
use crate::writing::{write_each, write_number};
use mv_values::list::List;
use mv_values::memory::NoMemory;

/// Adds a call.
pub(crate) fn write_call(request: &Request, text: &mut List<u8>) -> Result<(), NoMemory>
    ensures { OnOk result (text.new ≡ text.old ++ call_text request.now) }
{
    match request {
        Request::NewOrder {
            district,
            customer,
            lines,
        } => write_new_order(*district, *customer, lines, text),
        Request::Payment {
            district,
            home,
            customer,
            amount,
            entry,
        } => write_payment(*district, *home, *customer, *amount, *entry, text),
        Request::OrderStatus { district, customer } => {
            write_order_status(*district, *customer, text)
        }
        Request::Delivery { warehouse, carrier } => write_delivery(*warehouse, *carrier, text),
        Request::StockLevel {
            district,
            threshold,
        } => write_stock_level(*district, *threshold, text),
    }
}

fn write_new_order(
    district: District,
    customer: u32,
    lines: &List<Line>,
    text: &mut List<u8>,
) -> Result<(), NoMemory>
    ensures { OnOk result (text.new ≡ text.old ++ call_text (NewOrder district customer lines.now)) }
{
    text.append(b"CALL new_order(")?;
    write_each(
        &[district.warehouse, district.number, customer],
        b", ",
        text,
    )?;
    text.append(b"20170515, ROWS (")?;
    write_lines(lines.as_slice(), text)?;
    text.append(b"));\n")
}

fn write_payment(
    district: District,
    home: District,
    customer: Customer,
    amount: u32,
    entry: u32,
    text: &mut List<u8>,
) -> Result<(), NoMemory>
    ensures { OnOk result (text.new ≡ text.old ++ call_text (Payment district home customer amount entry)) }
{
    text.append(b"CALL payment(")?;
    write_each(
        &[
            district.warehouse,
            district.number,
            home.warehouse,
            home.number,
        ],
        b", ",
        text,
    )?;
    write_customer(customer, text)?;
    text.append(b", ")?;
    write_number(amount, text)?;
    text.append(b", 20170515, ")?;
    write_number(entry, text)?;
    text.append(b");\n")
}

fn write_order_status(
    district: District,
    customer: Customer,
    text: &mut List<u8>,
) -> Result<(), NoMemory>
    ensures { OnOk result (text.new ≡ text.old ++ call_text (OrderStatus district customer)) }
{
    text.append(b"CALL order_status(")?;
    write_each(&[district.warehouse, district.number], b", ", text)?;
    write_customer(customer, text)?;
    text.append(b");\n")
}

fn write_delivery(warehouse: u32, carrier: u32, text: &mut List<u8>) -> Result<(), NoMemory>
    ensures { OnOk result (text.new ≡ text.old ++ call_text (Delivery warehouse carrier)) }
{
    text.append(b"CALL delivery(")?;
    write_each(&[warehouse, carrier], b", ", text)?;
    text.append(b"20170515);\n")
}

fn write_stock_level(
    district: District,
    threshold: u32,
    text: &mut List<u8>,
) -> Result<(), NoMemory>
    ensures { OnOk result (text.new ≡ text.old ++ call_text (StockLevel district threshold)) }
{
    text.append(b"CALL stock_level(")?;
    write_each(&[district.warehouse, district.number], b", ", text)?;
    write_number(threshold, text)?;
    text.append(b");\n")
}

/// Adds the two arguments that tell a customer: a number or 0, and a last name or no text.
fn write_customer(customer: Customer, text: &mut List<u8>) -> Result<(), NoMemory>
    ensures { OnOk result (text.new ≡ text.old ++ (customer_number customer ++ (codes ", " ++ customer_name customer))) }
{
    match customer {
        Customer::ByNumber(number) => {
            write_number(number, text)?;
            text.append(b", ''")
        }
        Customer::ByName(name) => {
            text.append(b"0, '")?;
            write_last_name(name, text)?;
            text.append(b"'")
        }
    }
}

fn write_lines(lines: &[Line], text: &mut List<u8>) -> Result<(), NoMemory>
    ensures { OnOk result (text.new ≡ text.old ++ lines_text lines.now) }
{
    match lines {
        [] => Ok(()),
        [first, others @ ..] => {
            write_line(*first, text)?;
            write_more_lines(others, text)
        }
    }
}

fn write_more_lines(lines: &[Line], text: &mut List<u8>) -> Result<(), NoMemory>
    ensures { OnOk result (text.new ≡ text.old ++ flat_map (λ line. codes ", " ++ line_text line) lines.now) }
{
    for line in lines {
        text.append(b", ")?;
        write_line(*line, text)?;
    }
    Ok(())
}

fn write_line(line: Line, text: &mut List<u8>) -> Result<(), NoMemory>
    ensures { OnOk result (text.new ≡ text.old ++ line_text line) }
{
    text.append(b"(")?;
    write_each(&[line.item, line.supplier], b", ", text)?;
    write_number(line.quantity, text)?;
    text.append(b")")
}
