//! A reader beside workers. Each start that it takes shows what the commits up to it have left, then and later. The horizon
//! keeps all of them.

ghost use Rattle.std.specs.Prelude.{◌≡◌, ◌≢◌, None};
ghost use Rattle.mv_script.specs.Scripts.{IsCompiledScript};
ghost use Rattle.mv_shards.specs.Scripts.{script_in};

use crate::scripts::prepared;
use crate::starts::blank_of;
use crate::watched::{Reading, all_rows, readings_beside};
use mv_cases::ensure::ensure;
use mv_edge::pace::NoPace;
use mv_gate::gate::{Gate, run_all};
use mv_grace::grace::{GraceBlank, Naming};
use mv_journal::outcome::HistoryLine;
use mv_script::script::CompiledScript;
use mv_seats::board::{Blank, Making};
use mv_top::script::CompiledProgram;
use mv_values::calls::Options;
use mv_values::rows::Keyed;
use mv_values::value::{Value, are_same};
use std::alloc::Global;
use std::marker::Brand;
use std::sync::Wait;
use std::test::*;
use std::thread::Threads;

/// Five accounts, each in a shard of its own. A move writes to two of them.
const MOVES: &str = "CREATE TABLE acc (id INT, bal INT, PRIMARY KEY (id))
  VALUES (0, 100), (1, 100), (2, 100), (3, 100), (4, 100);
CREATE PROCEDURE move (:a INT, :c INT, :x INT) BEGIN
  UPDATE acc SET bal = bal - :x WHERE id = :a;
  UPDATE acc SET bal = bal + :x WHERE id = :c;  END;
";

const ACCOUNTS: u32 = 5;

/// The number of calls.
const CALLS: u32 = 60;

/// The number of workers.
const WORKERS: u32 = 3;

/// Returns the account from which a call moves an amount, the account to which it moves it, and the amount.
fn move_of(call: u32) -> (u32, u32, i64) {
    let hop = call / ACCOUNTS % 4;
    let to = (call % ACCOUNTS + 1 + hop) % ACCOUNTS;
    (call % ACCOUNTS, to, i64::from(call))
}

/// Returns the script of all moves.
fn script_of(alloc: Global) -> Result<String, Fail> {
    let mut text = String::from_str(alloc, MOVES)?;
    for call in 0..CALLS {
        let (from, to, amount) = move_of(call);
        write!(text, "CALL move({from}, {to}, {amount});\n")?;
    }
    Ok(text)
}

/// Returns what is left in an account after so many commits.
fn balance_after(history: &[HistoryLine], commits: usize, account: u32) -> i64 {
    let mut balance = 100i64;
    for (number, line) in history.iter().enumerate() {
        if number >= commits {
            return balance;
        }
        let (from, to, amount) = move_of(line.call);
        if account == from {
            balance = balance.saturating_sub(amount);
        }
        if account == to {
            balance = balance.saturating_add(amount);
        }
    }
    balance
}

/// Whether a row is that of an account with this balance.
fn is_account(item: &Keyed, account: u32, balance: i64) -> bool {
    let row = item.row.as_slice();
    match (row.get(0), row.get(1)) {
        (Some(Value::Int(id)), Some(Value::Int(found))) => {
            *id == i64::from(account) && *found == balance
        }
        _ => false,
    }
}

/// Whether the rows are those of all accounts after so many commits.
fn are_accounts_after(rows: &[Keyed], history: &[HistoryLine], commits: usize) -> bool {
    let mut account = 0u32;
    for item in rows {
        if !is_account(item, account, balance_after(history, commits, account)) {
            return false;
        }
        account = account.saturating_add(1);
    }
    account == ACCOUNTS
}

/// Whether the rows are the same, one after another.
fn same_rows(found: &[Keyed], wanted: &[Keyed]) -> bool {
    let mut wanted = wanted.iter();
    for item in found {
        match wanted.next() {
            Some(want) if are_same(item.row.as_slice(), want.row.as_slice()) => {}
            _ => return false,
        }
    }
    wanted.next().is_none()
}

/// Whether each start still shows what it has shown.
fn still_show<N: Making + Naming, R: Wait>(
    rt: &R,
    alloc: Global,
    gate: &Gate<N>,
    readings: &mut [Reading<N>],
) -> bool
    requires { N.script.options.horizon ≢ None }
{
    for reading in readings.iter_mut() {
        let Ok(rows) = all_rows(rt, alloc, gate, &mut reading.start) else {
            return false;
        };
        if !same_rows(rows.as_slice(), reading.rows.as_slice()) {
            return false;
        }
    }
    true
}

/// Checks that no reading goes back, and that each shows the accounts after its commits. Returns how many starts differ.
fn count_starts<N: Making>(
    alloc: Global,
    readings: &[Reading<N>],
    history: &[HistoryLine],
) -> Result<u32, Fail> {
    let mut last = 0u32;
    let mut count = 0u32;
    for reading in readings {
        let number = reading.start.number();
        ensure(alloc, last <= number, "a start before one that was taken")?;
        let right = are_accounts_after(reading.rows.as_slice(), history, number as usize);
        ensure(alloc, right, "rows that no prefix of the commits leaves")?;
        if last < number {
            count = count.saturating_add(1);
        }
        last = number;
    }
    ensure(alloc, last == CALLS, "no start after all commits")?;
    Ok(count)
}

/// Runs all moves by three workers beside a reader. Returns how many starts it has taken that differ.
fn starts_beside<N: Making + Naming + Send + Sync, R: Threads + Wait + Sync>(
    rt: &R,
    alloc: Global,
    blank: Blank,
    grace: GraceBlank,
    script: CompiledScript,
) -> Result<u32, Fail>
    requires board { blank.board ≡ N.board }
    requires word { grace ≡ N.word }
    requires named { blank.script ≡ N.script }
    requires shards { N.script.shards ≡ 8 }
    requires script { script ≡ script_in N.script }
    requires horizon { N.script.options.horizon ≢ None }
    requires sound { IsCompiledScript script }
{
    let (gate, mut pass) = Gate::<N>::new(alloc, blank, grace, script)?;
    let mine = pass.note(gate.board())?;
    let mut readings = readings_beside(rt, alloc, &gate, mine, WORKERS)?;
    let same = still_show(rt, alloc, &gate, readings.as_mut_slice());
    ensure(alloc, same, "a start that shows other rows later")?;
    let outcome = run_all(rt, alloc, gate, pass, 1, &NoPace)?;
    count_starts(alloc, readings.as_slice(), outcome.history.as_slice())
}

/// Between a commit and the reading that its worker waits for, each other worker commits once at most. So a third of all
/// numbers of commits are read at least.
#[test]
fn a_reader_beside_workers_reads_prefixes(rt: HostRuntime) -> Result<(), Fail> {
    let alloc = rt.alloc();
    let text = script_of(alloc)?;
    let options = Options {
        rounds: 3,
        horizon: Some(CALLS),
    };
    let CompiledProgram { script, .. } = prepared(alloc, text.as_str(), options)?;
    let blank = blank_of(alloc, &script)?;
    let grace = GraceBlank::new(alloc)?;
    let count = starts_beside::<Brand, _>(&rt, alloc, blank, grace, script)?;
    ensure(
        alloc,
        count >= CALLS / WORKERS,
        "few starts between commits",
    )
}
