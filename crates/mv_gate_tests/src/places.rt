//! Runs over rows that lie in many ways among the shards, by many workers, and the replays of their journals.

ghost use Rattle.std.specs.Prelude.{◌<◌, ◌≤◌};

use crate::scripts::prepared;
use mv_cases::ensure::ensure;
use mv_core::runs::replay;
use mv_edge::pace::NoPace;
use mv_gate::gate;
use mv_journal::outcome::Outcome;
use mv_report::render::render;
use mv_shards::parts::{SHARDS, shard_of};
use mv_top::script::CompiledProgram;
use mv_values::calls::Options;
use mv_values::list::List;
use mv_values::rows::{Database, Rows};
use std::alloc::Global;
use std::sync::Wait;
use std::test::Fail;
use std::thread::Threads;

/// A table whose key is a number. `flip` inserts a row or deletes it, and the values of all rows have the sum 0 after each
/// `move`.
const NUMBERS: &str = "CREATE TABLE t (k INT, v INT, PRIMARY KEY (k));
CREATE PROCEDURE up (:k INT) BEGIN UPDATE t SET v = v + 1 WHERE k = :k; END;
CREATE PROCEDURE flip (:k INT) DECLARE :v = 0; BEGIN
  SELECT v INTO :v FROM t WHERE k = :k;  PRINT :v;
  IF :found THEN DELETE FROM t WHERE k = :k; ELSE INSERT INTO t VALUES (:k, 0); END IF;  END;
CREATE PROCEDURE move (:a INT, :b INT) BEGIN
  UPDATE t SET v = v - 1 WHERE k = :a;  UPDATE t SET v = v + 1 WHERE k = :b;  END;
CREATE PROCEDURE total () DECLARE :n = 0; BEGIN
  SELECT COUNT(*) INTO :n FROM t;  PRINT :n;
  SELECT SUM(v) INTO :n FROM t;  PRINT :n;
  FOR :r IN SELECT k FROM t WHERE v > 0 DO PRINT :r.k; END FOR;  END;
COPY t <<
";

/// A table whose key is a text.
const WORDS: &str = "CREATE TABLE t (k TEXT(4), v INT, PRIMARY KEY (k));
CREATE PROCEDURE up (:k TEXT(4)) BEGIN UPDATE t SET v = v + 1 WHERE k = :k; END;
CREATE PROCEDURE flip (:k TEXT(4)) DECLARE :v = 0; BEGIN
  SELECT v INTO :v FROM t WHERE k = :k;  PRINT :v;
  IF :found THEN DELETE FROM t WHERE k = :k; ELSE INSERT INTO t VALUES (:k, 0); END IF;  END;
CREATE PROCEDURE total () DECLARE :n = 0; BEGIN
  SELECT SUM(v) INTO :n FROM t WHERE k >= 'b';  PRINT :n;  END;
COPY t <<
";

/// Two tables, whose keys are a text and a number.
const PAIRS: &str = "CREATE TABLE t (s TEXT(4), k INT, v INT, PRIMARY KEY (s, k));
CREATE TABLE u (s TEXT(4), k INT, v INT, PRIMARY KEY (s, k)) VALUES ('a', 1, 0);
CREATE PROCEDURE up (:s TEXT(4), :k INT) BEGIN
  UPDATE t SET v = v + 1 WHERE s = :s AND k = :k;
  UPDATE u SET v = v + 1 WHERE k = :k;  END;
CREATE PROCEDURE total (:s TEXT(4)) DECLARE :n = 0; BEGIN
  SELECT SUM(v) INTO :n FROM t WHERE s = :s;  PRINT :n;
  SELECT v INTO :n FROM u WHERE s = 'a';  PRINT :n;  END;
COPY t <<
";

/// What a case shows, its tables and procedures, the rows of the first table, a text of calls that is repeated 14 times, and
/// how many shards have rows at the end.
type Case = (&'static str, &'static str, &'static str, &'static str, u32);

const CASES: &[Case] = &[
    (
        "keys without a number",
        WORDS,
        "a,0\nb,0\nc,0\n",
        "CALL up('a'); CALL flip('d'); CALL up('c'); CALL total(); CALL up('a');\n",
        1,
    ),
    (
        "a text before the number of a key",
        PAIRS,
        "a,1,0\nb,1,0\na,2,0\n",
        "CALL up('a', 1); CALL up('b', 1); CALL total('a'); CALL up('a', 2);\n",
        2,
    ),
    (
        "negative keys",
        NUMBERS,
        "-1,0\n-2,0\n-3,0\n-4,0\n-8,0\n-9,0\n",
        "CALL move(-1, -8); CALL move(-9, -2); CALL total(); CALL flip(-16); CALL up(-3);\n",
        5,
    ),
    (
        "the least and the greatest key",
        NUMBERS,
        "-9223372036854775808,0\n9223372036854775807,0\n",
        "CALL up(9223372036854775807); CALL flip(9223372036854775806); CALL up(9223372036854775807); CALL total();\n",
        2,
    ),
    (
        "all keys in one shard",
        NUMBERS,
        "-8,0\n0,0\n8,0\n16,0\n",
        "CALL move(0, 8); CALL move(16, -8); CALL total(); CALL flip(24); CALL up(8);\n",
        1,
    ),
    (
        "scans beside commits into two shards",
        NUMBERS,
        "0,0\n1,0\n2,0\n3,0\n4,0\n5,0\n6,0\n7,0\n",
        "CALL move(0, 7); CALL total(); CALL move(3, 1); CALL move(6, 2); CALL total();\n",
        8,
    ),
];

const KEEP_ALL: Options = Options {
    rounds: 3,
    horizon: None,
};

/// With a horizon of one commit, calls with older starts may move.
const KEEP_ONE: Options = Options {
    rounds: 0,
    horizon: Some(1),
};

/// Returns the script of a case.
fn script_of(alloc: Global, case: &Case) -> Result<String, Fail> {
    let (_, tables, rows, calls, _) = *case;
    let mut script = String::from_str(alloc, tables)?;
    script.push_str(rows)?;
    script.push_str(">>\n")?;
    for _ in 0..14 {
        script.push_str(calls)?;
    }
    Ok(script)
}

/// Whether one of the rows of a table is in a shard.
fn has_row(table: u8, rows: &Rows, shard: u32) -> bool {
    rows.as_slice()
        .iter()
        .any(|item| shard_of(table, &item.key) == shard)
}

/// Whether a shard has rows of these tables.
fn has_rows(tables: &Database, shard: u32) -> bool {
    for (table, rows) in (0u8..).zip(tables.as_slice()) {
        if has_row(table, rows, shard) {
            return true;
        }
    }
    false
}

/// Returns how many shards have rows of these tables.
fn shards_of(tables: &Database) -> u32 {
    let mut count = 0u32;
    for shard in 0..SHARDS {
        if has_rows(tables, shard) {
            count = count.saturating_add(1);
        }
    }
    count
}

/// Returns the outcome of a journal, and its text.
fn replayed(
    alloc: Global,
    script: &str,
    options: Options,
    outcome: &Outcome,
) -> Result<List<u8>, Fail> {
    let CompiledProgram { script, tables } = prepared(alloc, script, options)?;
    let events = outcome.journal.as_slice();
    if events.len() > 1_000_000 {
        return Err("many events".into());
    }
    let Ok(again) = replay(alloc, script, events) else {
        return Err("a journal is refused".into());
    };
    Ok(render(alloc, &tables, &again)?)
}

/// Checks that so many workers leave rows in as many shards as a case says, and a journal whose replay leaves the same text.
fn replays<R: Threads + Wait + Sync>(
    rt: &R,
    alloc: Global,
    workers: u32,
    options: Options,
    case: &Case,
) -> Result<(), Fail>
    requires { (0 < workers) × (workers ≤ 64) }
{
    let (name, _, _, _, shards) = *case;
    let text = script_of(alloc, case)?;
    let CompiledProgram { script, tables } = prepared(alloc, text.as_str(), options)?;
    let outcome = gate::run(rt, alloc, script, workers, &NoPace)?;
    ensure(alloc, shards_of(&outcome.tables) == shards, name)?;
    let left = render(alloc, &tables, &outcome)?;
    let again = replayed(alloc, text.as_str(), options, &outcome)?;
    ensure(alloc, again.as_slice() == left.as_slice(), name)
}

#[test]
fn runs_are_replayed_wherever_their_rows_lie(rt: HostRuntime) -> Result<(), Fail> {
    for case in CASES {
        replays(&rt, rt.alloc(), 8, KEEP_ALL, case)?;
    }
    Ok(())
}

#[test]
fn runs_that_drop_old_rows_are_replayed_wherever_those_lie(rt: HostRuntime) -> Result<(), Fail> {
    for case in CASES {
        replays(&rt, rt.alloc(), 64, KEEP_ONE, case)?;
    }
    Ok(())
}
