//! Whether the final tables agree.

ghost use Rattle.std.specs.Prelude.{◌≡◌, ◌&&◌, ◌-ℤ◌, ◌+ℤ◌, ℕ, IfOk, Some, map, pos};
ghost use Rattle.std.specs.List.{list_all};
ghost use Rattle.std.specs.Option.{option_copied};
ghost use Rattle.std.specs.Ordering.{int_eq};
ghost use Rattle.mv_table.specs.Entries.{item_of};
ghost use Rattle.mv_tpccsum.specs.Tables.{entries};
ghost use Rattle.mv_tpccsum.specs.Consistent.{agrees, books, warehouse_agrees, district_agrees};
ghost use Rattle.mv_tpccsum.specs.Grouping.{IsGroups, IsOrders, entries_of, is_sum, orders_agree, ends_at, queues, sum_at, count_at};

use crate::columns::{Numbers, Tables, key_at, number_at};
use crate::totals::{Totals, totals_of};
use mv_table::key_map::KeyMap;
use mv_values::memory::NoMemory;
use mv_values::value::Key;
use std::alloc::Global;

/// The groups by district of what is compared with a district's `d_next_o_id`.
#[derive(Drop)]
pub(crate) struct Orders {
    pub(crate) orders: KeyMap<Totals>,
    pub(crate) new_orders: KeyMap<Totals>,
    pub(crate) counts: KeyMap<Totals>,
    pub(crate) lines: KeyMap<Totals>,
}

/// Whether the tables agree. The time for each row is logarithmic in the number of districts.
#[tactic(auto, unfolding(crate::specs::Consistent::agrees))]
pub(crate) fn agrees(alloc: Global, tables: Tables<'_>) -> Result<bool, NoMemory>
    ensures { IfOk result (λ b. b ≡ agrees (books tables.entry.infos.now tables.entry.database.now)) }
{
    let warehouses = warehouses_agree(alloc, tables)?;
    let districts = districts_agree(alloc, tables)?;
    Ok(warehouses && districts)
}

/// Whether each warehouse's `w_ytd` is the sum of its `d_ytd`.
fn warehouses_agree(alloc: Global, tables: Tables<'_>) -> Result<bool, NoMemory>
    ensures { IfOk result (λ b. b ≡ list_all (warehouse_agrees (books tables.entry.infos.now tables.entry.database.now)) (books tables.entry.infos.now tables.entry.database.now).warehouses) }
{
    let warehouses = tables.numbers(alloc, "warehouse", &["w_id"], "w_ytd")?;
    let districts = tables.numbers(alloc, "district", &["d_w_id"], "d_ytd")?;
    let shares = totals_of(alloc, &districts)?;
    each_is_sum(alloc, &warehouses, &shares)
}

/// Whether each number is the sum of the group with its key.
fn each_is_sum(
    alloc: Global,
    numbers: &Numbers<'_>,
    groups: &KeyMap<Totals>,
) -> Result<bool, NoMemory>
    ensures { IfOk result (λ b. b ≡ list_all (is_sum groups.now) (entries_of numbers.now)) }
{
    for item in numbers.rows {
        let key = key_at(alloc, item.row.as_slice(), numbers.key.as_slice())?;
        let number = number_at(item.row.as_slice(), numbers.place);
        if !is_sum(groups, &key, number) {
            return Ok(false);
        }
    }
    Ok(true)
}

fn is_sum(groups: &KeyMap<Totals>, key: &Key, number: i64) -> bool
    ensures { result ≡ is_sum groups.now (key.now, number) }
{
    number as i128 == sum_in(groups, key)
}

/// Whether the orders of each district agree with its `d_next_o_id`.
fn districts_agree(alloc: Global, tables: Tables<'_>) -> Result<bool, NoMemory>
    ensures { IfOk result (λ b. b ≡ list_all (district_agrees (books tables.entry.infos.now tables.entry.database.now)) (books tables.entry.infos.now tables.entry.database.now).districts) }
{
    let districts = tables.numbers(alloc, "district", &["d_w_id", "d_id"], "d_next_o_id")?;
    let orders = Orders::of(alloc, tables)?;
    each_agrees(alloc, &districts, &orders)
}

/// Whether the orders of each district agree with its number.
fn each_agrees(alloc: Global, districts: &Numbers<'_>, orders: &Orders) -> Result<bool, NoMemory>
    ensures { IfOk result (λ b. b ≡ list_all (orders_agree orders.now) (entries_of districts.now)) }
{
    for item in districts.rows {
        let key = key_at(alloc, item.row.as_slice(), districts.key.as_slice())?;
        let next = number_at(item.row.as_slice(), districts.place);
        if !orders.agree(&key, next) {
            return Ok(false);
        }
    }
    Ok(true)
}

impl Orders {
    /// Returns the orders of the tables.
    fn of(alloc: Global, tables: Tables<'_>) -> Result<Orders, NoMemory>
        ensures { IfOk result (IsOrders (books tables.entry.infos.now tables.entry.database.now)) }
    {
        let orders = grouped(alloc, tables, "orders", ["o_w_id", "o_d_id"], "o_id")?;
        let new_orders = grouped(
            alloc,
            tables,
            "new_order",
            ["no_w_id", "no_d_id"],
            "no_o_id",
        )?;
        let counts = grouped(alloc, tables, "orders", ["o_w_id", "o_d_id"], "o_ol_cnt")?;
        let lines = grouped(
            alloc,
            tables,
            "order_line",
            ["ol_w_id", "ol_d_id"],
            "ol_d_id",
        )?;
        Ok(Orders {
            orders,
            new_orders,
            counts,
            lines,
        })
    }

    /// Whether the orders of a district agree with its `d_next_o_id`.
    fn agree(&self, district: &Key, next: i64) -> bool
        ensures { result ≡ orders_agree self.now (district.now, next) }
    {
        let last = before(next);
        let ends = ends_at(last, self.orders.get(district));
        let queues = queues(last, self.new_orders.get(district));
        let counts = is_count(
            sum_in(&self.counts, district),
            count_in(&self.lines, district),
        );
        all(ends, queues, counts)
    }
}

fn before(number: i64) -> i128
    ensures { result ≡ number -ℤ pos 1 }
{
    number as i128 - 1
}

fn all(ends: bool, queues: bool, counts: bool) -> bool
    ensures { result ≡ (ends && (queues && counts)) }
{
    ends && queues && counts
}

/// Returns the groups of a column's numbers by two other columns.
fn grouped(
    alloc: Global,
    tables: Tables<'_>,
    table: &str,
    key: [&str; 2],
    column: &str,
) -> Result<KeyMap<Totals>, NoMemory>
    ensures { IfOk result (λ groups. (n : ℕ) × IsGroups n (entries tables.entry.infos.now tables.entry.database.now table.now (map (λ k. k.now) key.entry) column.now) groups) }
{
    let numbers = tables.numbers(alloc, table, &key, column)?;
    totals_of(alloc, &numbers)
}

/// Whether the largest number of a group is this one. An empty group has none.
fn ends_at(number: i128, group: Option<&Totals>) -> bool
    ensures { result ≡ ends_at number (option_copied group.entry) }
{
    match group {
        Some(totals) => number == totals.most as i128,
        None => false,
    }
}

/// Whether a group is empty, or ends at this number and has no gap.
fn queues(last: i128, group: Option<&Totals>) -> bool
    ensures { result ≡ queues last (option_copied group.entry) }
{
    match group {
        Some(totals) => is_queue(last, totals),
        None => true,
    }
}

fn is_queue(last: i128, totals: &Totals) -> bool
    ensures { result ≡ queues last (Some totals.now) }
{
    last == totals.most as i128 && is_dense(totals)
}

/// Whether a group has as many numbers as there are from its smallest to its largest.
fn is_dense(totals: &Totals) -> bool
    ensures { result ≡ int_eq (totals.now.most -ℤ totals.now.least +ℤ pos 1) (pos totals.now.count) }
{
    is_count(width(totals), totals.count)
}

/// Returns how many numbers there are from a group's smallest to its largest.
fn width(totals: &Totals) -> i128
    ensures { result ≡ totals.now.most -ℤ totals.now.least +ℤ pos 1 }
{
    totals.most as i128 - totals.least as i128 + 1
}

fn is_count(number: i128, count: usize) -> bool
    ensures { result ≡ int_eq number (pos count) }
{
    number == count as i128
}

/// Returns the sum of a group.
fn sum_in(groups: &KeyMap<Totals>, key: &Key) -> i128
    ensures { result ≡ sum_at (item_of groups.now key.now) }
{
    match groups.get(key) {
        Some(totals) => totals.sum,
        None => 0,
    }
}

/// Returns how many numbers a group has.
fn count_in(groups: &KeyMap<Totals>, key: &Key) -> usize
    ensures { result ≡ count_at (item_of groups.now key.now) }
{
    match groups.get(key) {
        Some(totals) => totals.count,
        None => 0,
    }
}
