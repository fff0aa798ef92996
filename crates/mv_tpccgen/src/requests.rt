//! Draws of calls.

ghost use Rattle.std.specs.Prelude.{◌≡◌, ◌<◌, ◌≤◌, ◌+◌, ◌==◌, ◌&&◌, IfOk};
ghost use Rattle.mv_tpccgen.specs.Calls.{supplier, order_line, new_order, home, customer, payment, order_status, delivery, stock_level, request};
ghost use Rattle.mv_tpccgen.specs.Draws.{IsDrawn, each};

use crate::draws::{draw, draw_nurand, draw_other};
use crate::request::{Customer, District, Line, Request};
use mv_values::list::List;
use mv_values::memory::NoMemory;
use rand_xoshiro::SplitMix64;
use std::alloc::Global;

/// Draws call `k`.
pub(crate) fn draw_request(
    alloc: Global,
    warehouses: u32,
    k: u32,
    words: &mut SplitMix64,
) -> Result<Request, NoMemory>
    requires some { 1 ≤ warehouses }
    requires few { warehouses ≤ 16 }
    requires call { k < 40000 }
    ensures { IfOk result (λ it. IsDrawn (request warehouses k) it words.old words.new) }
{
    let w = draw(1, warehouses, words);
    let t = draw(1, 100, words);
    if t <= 45 {
        draw_new_order(alloc, warehouses, w, words)
    } else if t <= 88 {
        Ok(draw_payment(warehouses, w, k, words))
    } else if t <= 92 {
        Ok(draw_order_status(w, words))
    } else if t <= 96 {
        Ok(draw_delivery(w, words))
    } else {
        Ok(draw_stock_level(w, words))
    }
}

fn draw_new_order(
    alloc: Global,
    warehouses: u32,
    w: u32,
    words: &mut SplitMix64,
) -> Result<Request, NoMemory>
    requires few { warehouses ≤ 16 }
    requires first { 1 ≤ w }
    requires last { w ≤ warehouses }
    ensures { IfOk result (λ it. IsDrawn (new_order warehouses w) it words.old words.new) }
{
    let number = draw(1, 10, words);
    let customer = draw_nurand(1023, 1, 30, words);
    let count = draw(5, 15, words);
    let z = draw(1, 100, words);
    let lines = draw_lines(alloc, warehouses, w, count, z, words)?;
    Ok(Request::NewOrder {
        district: District {
            warehouse: w,
            number,
        },
        customer,
        lines,
    })
}

/// Draws the lines of an order. Where `z` is 1 the last of them has no valid item.
fn draw_lines(
    alloc: Global,
    warehouses: u32,
    w: u32,
    count: u32,
    z: u32,
    words: &mut SplitMix64,
) -> Result<List<Line>, NoMemory>
    requires few { warehouses ≤ 16 }
    requires first { 1 ≤ w }
    requires last { w ≤ warehouses }
    requires short { count ≤ 15 }
    ensures { IfOk result (λ lines. IsDrawn (each (λ j. order_line warehouses w ((z == 1) && (j + 1 == count))) count) lines words.old words.new) }
{
    let mut lines = List::new(alloc);
    for j in 0..count {
        let invalid = is_invalid(z, j, count);
        lines.push(draw_line(warehouses, w, invalid, words))?;
    }
    Ok(lines)
}

/// Whether a line of an order has no valid item.
fn is_invalid(z: u32, j: u32, count: u32) -> bool
    requires { j < count }
    ensures { result ≡ ((z == 1) && (j + 1 == count)) }
{
    z == 1 && j + 1 == count
}

fn draw_line(warehouses: u32, w: u32, invalid: bool, words: &mut SplitMix64) -> Line
    requires few { warehouses ≤ 16 }
    requires first { 1 ≤ w }
    requires last { w ≤ warehouses }
    ensures { IsDrawn (order_line warehouses w invalid) result words.old words.new }
{
    let item = draw_nurand(8191, 1, 1000, words);
    let supplier = draw_supplier(warehouses, w, words);
    let quantity = draw(1, 10, words);
    Line {
        item: if invalid { 1001 } else { item },
        supplier,
        quantity,
    }
}

fn draw_supplier(warehouses: u32, w: u32, words: &mut SplitMix64) -> u32
    requires few { warehouses ≤ 16 }
    requires first { 1 ≤ w }
    requires last { w ≤ warehouses }
    ensures { IsDrawn (supplier warehouses w) result words.old words.new }
{
    let y = draw(1, 100, words);
    if y == 1 && warehouses > 1 {
        draw_other(warehouses, w, words)
    } else {
        w
    }
}

fn draw_payment(warehouses: u32, w: u32, k: u32, words: &mut SplitMix64) -> Request
    requires few { warehouses ≤ 16 }
    requires first { 1 ≤ w }
    requires last { w ≤ warehouses }
    requires call { k < 40000 }
    ensures { IsDrawn (payment warehouses w k) result words.old words.new }
{
    let number = draw(1, 10, words);
    let district = District {
        warehouse: w,
        number,
    };
    let home = draw_home(warehouses, district, words);
    let customer = draw_customer(words);
    let amount = draw(100, 500000, words);
    Request::Payment {
        district,
        home,
        customer,
        amount,
        entry: 1000000 + k,
    }
}

fn draw_home(warehouses: u32, district: District, words: &mut SplitMix64) -> District
    requires few { warehouses ≤ 16 }
    requires first { 1 ≤ district.warehouse }
    requires last { district.warehouse ≤ warehouses }
    ensures { IsDrawn (home warehouses district) result words.old words.new }
{
    let x = draw(1, 100, words);
    if x > 85 && warehouses > 1 {
        let warehouse = draw_other(warehouses, district.warehouse, words);
        let number = draw(1, 10, words);
        District { warehouse, number }
    } else {
        district
    }
}

fn draw_customer(words: &mut SplitMix64) -> Customer
    ensures { IsDrawn customer result words.old words.new }
{
    let y = draw(1, 100, words);
    if y <= 60 {
        Customer::ByName(draw_nurand(255, 0, 9, words))
    } else {
        Customer::ByNumber(draw_nurand(1023, 1, 30, words))
    }
}

fn draw_order_status(w: u32, words: &mut SplitMix64) -> Request
    ensures { IsDrawn (order_status w) result words.old words.new }
{
    let number = draw(1, 10, words);
    let customer = draw_customer(words);
    Request::OrderStatus {
        district: District {
            warehouse: w,
            number,
        },
        customer,
    }
}

fn draw_delivery(warehouse: u32, words: &mut SplitMix64) -> Request
    ensures { IsDrawn (delivery warehouse) result words.old words.new }
{
    Request::Delivery {
        warehouse,
        carrier: draw(1, 10, words),
    }
}

fn draw_stock_level(w: u32, words: &mut SplitMix64) -> Request
    ensures { IsDrawn (stock_level w) result words.old words.new }
{
    let number = draw(1, 10, words);
    let threshold = draw(10, 20, words);
    Request::StockLevel {
        district: District {
            warehouse: w,
            number,
        },
        threshold,
    }
}
