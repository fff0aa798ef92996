//! Random histories of one row, compared with the plain row after each commit.

ghost use Rattle.std.specs.Prelude.{◌≡◌, Some};
ghost use Rattle.mv_chain.specs.Versions.{row_at};

use crate::cases::ensure_at;
use crate::values::row;
use mv_chain::chain::Chain;
use mv_values::list::List;
use mv_values::memory::NoMemory;
use mv_values::patch::{Assign, Patch};
use mv_values::value::{Row, Value};
use rand_core::{Rng, SeedableRng};
use rand_xoshiro::SplitMix64;
use std::alloc::Global;
use std::test::Fail;

/// A row of two numbers.
type Numbers = [i64; 2];

type Plain = Option<Numbers>;

#[derive(Clone, Copy)]
enum Change {
    Insert(Numbers),
    Set(u8, i64),
    Delete,
}

fn with_column(row: Numbers, column: u8, number: i64) -> Numbers {
    let [first, second] = row;
    if column == 0 {
        [number, second]
    } else {
        [first, number]
    }
}

fn changed(change: &Change, was: Plain) -> Plain {
    match change {
        Change::Insert(row) => Some(*row),
        Change::Set(column, number) => match was {
            Some(row) => Some(with_column(row, *column, *number)),
            None => None,
        },
        Change::Delete => None,
    }
}

fn patch_of(alloc: Global, change: &Change) -> Result<Patch, NoMemory> {
    match change {
        Change::Insert(numbers) => Ok(Patch::Insert(row(alloc, numbers)?)),
        Change::Set(column, number) => {
            let value = Value::Int(*number);
            let mut items = List::new(alloc);
            items.push(Assign {
                column: *column,
                value,
            })?;
            Ok(Patch::Set(items))
        }
        Change::Delete => Ok(Patch::Delete),
    }
}

/// A chain, the rows after each commit, and the uncommitted changes.
#[derive(Drop)]
struct History {
    chain: Chain,
    rows: Vec<Plain>,
    own: Vec<(u32, Change)>,
    low: u32,
}

fn byte(random: &mut SplitMix64) -> u8 {
    (random.next_u64() % 256) as u8
}

/// Returns a number of commits.
fn number(commits: usize) -> u32 {
    commits.min(1000) as u32
}

fn any_change(random: &mut SplitMix64) -> Change {
    let number = byte(random) as i64;
    match byte(random) % 6 {
        0 => Change::Delete,
        1 => Change::Insert([number, 0]),
        2 | 3 => Change::Set(0, number),
        _ => Change::Set(1, number),
    }
}

fn newest(rows: &[Plain]) -> Plain {
    match rows.last() {
        Some(row) => *row,
        None => None,
    }
}

fn put(alloc: Global, history: &mut History, call: u32, change: Change) -> Result<(), Fail> {
    history.chain.put(call, patch_of(alloc, &change)?)?;
    history.own.push((call, change))?;
    Ok(())
}

fn stamp(history: &mut History, call: u32) -> Result<(), Fail> {
    let mut row = newest(history.rows.as_slice());
    for (of, change) in history.own.as_slice() {
        if *of == call {
            row = changed(change, row);
        }
    }
    let n = number(history.rows.len());
    if !history.chain.is_next(n) {
        return Err("a number that isn't next".into());
    }
    history.chain.stamp(call, n);
    history.rows.push(row)?;
    history.own.retain(|(of, _)| *of != call);
    Ok(())
}

fn step(alloc: Global, history: &mut History, random: &mut SplitMix64) -> Result<(), Fail> {
    let call = byte(random) as u32 % 3;
    match byte(random) % 8 {
        0 => {
            history.chain.drop_of(call);
            history.own.retain(|(of, _)| *of != call);
        }
        1 => {
            let newest = number(history.rows.len().saturating_sub(1));
            history.low = history.low.max(byte(random) as u32 % 32).min(newest);
            history.chain.collect(history.low);
        }
        2 | 3 => stamp(history, call)?,
        _ => put(alloc, history, call, any_change(random))?,
    }
    Ok(())
}

fn has_numbers(row: &Row, numbers: Numbers) -> bool {
    match row.as_slice() {
        [Value::Int(first), Value::Int(second)] => { *first == numbers[0] && *second == numbers[1] }
        _ => false,
    }
}

/// Whether the chain has this row after n commits, read whole and by columns.
fn reads(alloc: Global, chain: &Chain, n: u32, want: Plain) -> Result<bool, NoMemory> {
    let row = chain.row_at(alloc, n)?;
    match (row, want) {
        (Some(row), Some(numbers)) => {
            Ok(has_numbers(row.get(), numbers) && chain.exists_at(n) && lends(chain, n, row.get()))
        }
        (None, None) => Ok(!chain.exists_at(n)),
        _ => Ok(false),
    }
}

/// Whether the chain lends the second column of the row after n commits.
fn lends(chain: &Chain, n: u32, row: &Row) -> bool
    requires { row_at chain.now n ≡ Some row.now }
{
    1 < row.len() && chain.value_at(n, 1) == row.as_slice().get(1)
}

fn reads_all(alloc: Global, history: &History) -> Result<bool, NoMemory> {
    for (n, want) in history.rows.iter().enumerate() {
        if history.low as usize <= n && !reads(alloc, &history.chain, number(n), *want)? {
            return Ok(false);
        }
    }
    Ok(true)
}

/// Whether the chain reads as the plain rows after each step.
fn goes_right(alloc: Global, seed: u64) -> Result<bool, Fail> {
    let mut random = SplitMix64::seed_from_u64(seed);
    let mut rows = Vec::new(alloc);
    rows.push(Some([1, 2]))?;
    let mut history = History {
        chain: Chain::new(alloc, Some(row(alloc, &[1, 2])?)),
        rows,
        own: Vec::new(alloc),
        low: 0,
    };
    for _ in 0..60u32 {
        step(alloc, &mut history, &mut random)?;
        if !reads_all(alloc, &history)? {
            return Ok(false);
        }
    }
    Ok(true)
}

#[test]
fn random_histories_are_read_at_every_number(rt: HostRuntime) -> Result<(), Fail> {
    for seed in 0..300 {
        ensure_at(rt.alloc(), goes_right(rt.alloc(), seed)?, seed as usize)?;
    }
    Ok(())
}
