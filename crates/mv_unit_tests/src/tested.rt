//! The columns that procedures test with `=`, and those that are indexed.

use crate::cases::ensure_at;
use mv_accept::accept::accept;
use mv_compile::compile::compile;
use mv_script::columns::indexed_columns;
use mv_script::script::CompiledScript;
use mv_values::calls::Options;
use mv_values::list::List;
use mv_values::tested::Tested;
use std::alloc::Global;
use std::test::Fail;

const SCRIPT: &str = "CREATE TABLE acc (id INT, bal INT, owner TEXT(5), PRIMARY KEY (id));
CREATE TABLE pays (a INT, n INT, amount INT, PRIMARY KEY (a, n));
CREATE PROCEDURE none () BEGIN UPDATE acc SET bal = 1 WHERE id > 2; END;
CREATE PROCEDURE some (:a INT) DECLARE :n = 0; BEGIN
  SELECT n INTO :n FROM pays WHERE n = 3 AND a >= 1 AND n = 4;
  FOR :r IN SELECT id FROM acc WHERE bal = 7 DO
    IF :n = 2 THEN DELETE FROM pays WHERE a = :r.id AND n = 2; END IF;
  END FOR;
  UPDATE acc SET bal = 0 WHERE owner = 'x' AND bal = :a;
END;
";

/// The columns of each procedure, each with the number of its table.
const TESTED: &[&[(u8, u8)]] = &[&[], &[(1, 1), (0, 1), (1, 0), (0, 2)]];

fn are_these(tested: &[Tested], columns: &[(u8, u8)]) -> bool {
    tested.len() == columns.len()
        && tested.iter().zip(columns).all(|(one, (table, column))| one.table == *table
            && one.column == *column)
}

#[test]
fn each_column_that_is_tested_is_told_once(rt: HostRuntime) -> Result<(), Fail> {
    let alloc = rt.alloc();
    let program = accept(alloc, SCRIPT.as_bytes()).or(Err("refused"))?;
    let graphs = compile(alloc, &program.resolved)?;
    for (i, graph) in graphs.as_slice().iter().enumerate() {
        let is_told = match TESTED.get(i) {
            Some(columns) => are_these(graph.tested(), columns),
            None => false,
        };
        ensure_at(alloc, is_told, i)?;
    }
    Ok(())
}

/// Scripts, and the columns of each that are indexed. The first one tests no column but the first of a key. The others
/// delete parents whose children are found by an index, by their key, or not at all.
const INDEXED: &[(&str, &[(u8, u8)])] = &[
    (
        "CREATE TABLE acc (id INT, bal INT, PRIMARY KEY (id));
CREATE PROCEDURE p (:a INT) BEGIN UPDATE acc SET bal = 1 WHERE id = :a; END;
",
        &[],
    ),
    (SCRIPT, &[(1, 1), (0, 1), (0, 2)]),
    (
        "CREATE TABLE acc (id INT, up INT REFERENCES acc, PRIMARY KEY (id));
CREATE TABLE pays (a INT, n INT REFERENCES acc, tag INT, PRIMARY KEY (a, n));
CREATE TABLE own (a INT REFERENCES acc, n INT, PRIMARY KEY (a, n));
CREATE PROCEDURE p () BEGIN UPDATE pays SET tag = 2 WHERE tag = 1; END;
CREATE PROCEDURE d (:a INT) BEGIN IF :a > 0 THEN DELETE FROM acc WHERE id = :a; END IF; END;
CREATE PROCEDURE q () BEGIN UPDATE pays SET tag = 1 WHERE n = 1; END;
",
        &[(1, 2), (0, 1), (1, 1)],
    ),
    (
        "CREATE TABLE acc (id INT, PRIMARY KEY (id));
CREATE TABLE pays (a INT, n INT REFERENCES acc, PRIMARY KEY (a, n));
CREATE PROCEDURE d (:a INT) BEGIN DELETE FROM pays WHERE a = :a; END;
",
        &[],
    ),
];

fn indexed(alloc: Global, text: &str) -> Result<List<Tested>, Fail> {
    let program = accept(alloc, text.as_bytes()).or(Err("refused"))?;
    let script = CompiledScript {
        graphs: compile(alloc, &program.resolved)?,
        calls: List::new(alloc),
        opening: program.opening,
        options: Options {
            rounds: 0,
            horizon: None,
        },
    };
    Ok(indexed_columns(alloc, &script)?)
}

#[test]
fn columns_by_which_rows_are_looked_up_are_indexed(rt: HostRuntime) -> Result<(), Fail> {
    let alloc = rt.alloc();
    for (i, (text, columns)) in INDEXED.iter().enumerate() {
        let all = indexed(alloc, text)?;
        ensure_at(alloc, are_these(all.as_slice(), columns), i)?;
    }
    Ok(())
}
