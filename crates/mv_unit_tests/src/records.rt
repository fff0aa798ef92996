//! The records of calls that are executed, adopted, or both in turn, worked out by hand from the rules of the language.

ghost use Rattle.std.specs.Prelude.{◌≡◌, ◌≤◌, IfOk, OnOk, All, length};
ghost use Rattle.mv_graph.specs.Nodes.{IsSound};
ghost use Rattle.mv_record.specs.Databases.{IsDatabaseOf, IsProgram};
ghost use Rattle.mv_exec.specs.Running.{IsRunning, IsTaskOf};

use crate::cases::between;
use crate::walks::{is_adopted, next_number, run, run_and_walk};
use mv_accept::accept::accept;
use mv_cases::ensure::ensure;
use mv_catalog::resolved::Program;
use mv_compile::compile::compile;
use mv_eval::line::line_from;
use mv_exec::ahead::Ahead;
use mv_exec::running::{adopt, peek};
use mv_exec::step::Stepped;
use mv_exec::task::Task;
use mv_graph::graph::{Edges, Graph};
use mv_log::record_ref::RecordRef;
use mv_log::records::Records;
use mv_log::var_read::VarRead;
use mv_record::record::Slot;
use mv_values::calls::{Call, End};
use mv_values::list::List;
use mv_values::patch::{Assign, Patch, Write};
use mv_values::rows::Database;
use mv_values::txt::Txt;
use mv_values::value::{Key, Row, Value};
use std::alloc::Global;
use std::slice;
use std::test::Fail;

/// The text before the statements of a case. The variables have the numbers 0 for `:rows`, 1 for `:n`, 2 for `:s`, 3
/// for `:found`, and from 4 on those of the loops.
const FRONT: &str = "CREATE TABLE t (id INT, n INT, x TEXT(3), PRIMARY KEY (id))
  VALUES (1, 5, 'b'), (2, 7, 'a'), (3, 5, 'a'), (4, 1, 'c');
CREATE PROCEDURE p (:rows ROWS (a INT, b INT)) DECLARE :n = 7; DECLARE :s = 'q'; BEGIN
";

/// The same with rows that have parents. The variables have the same numbers.
const FAMILY: &str =
    "CREATE TABLE t (id INT, up INT REFERENCES t, d INT REFERENCES u, PRIMARY KEY (id))
  VALUES (1, 1, 5), (2, 1, 5), (3, 2, 6);
CREATE TABLE u (d INT, PRIMARY KEY (d)) VALUES (5), (6), (7);
CREATE PROCEDURE p (:rows ROWS (a INT, b INT)) DECLARE :n = 7; DECLARE :s = 'q'; BEGIN
";

/// The text after them.
const BACK: &str = "
END;
CALL p(ROWS ((9, 1), (4, 2)));
";

/// What a statement has to do with another that isn't there.
const NO_EDGES: Edges = Edges {
    control: false,
    variable: false,
    table: false,
};

/// Statements, and the records that they leave. A record has the number of its statement with the turns around it, the
/// record that holds it, each variable that it reads with the record that set it, how many predicates it has, what it
/// sets, the rows of a FOR, its writes, its line and its end.
const CASES: &[(&str, &str)] = &[
    ("", ""),
    (
        "SELECT n, x INTO :n, :s FROM t WHERE id > 1 OFFSET 1; PRINT :n, :s, :n;",
        "1 asks 1 sets 1=5 2='a' 3=1; 2 reads 1<0 2<0 line 5,'a',5; ",
    ),
    (
        "SELECT id, n INTO :n, :n FROM t WHERE id = 3;",
        "1 asks 1 sets 1=5 3=1; ",
    ),
    (
        "SELECT n INTO :n FROM t WHERE id = 9; PRINT :n, :found;",
        "1 asks 1 sets 3=0; 2 reads 1< 3<0 line 7,0; ",
    ),
    (
        "SELECT n INTO :n FROM t WHERE id > 1 ORDER BY n DESC OFFSET :n - 5;",
        "1 reads 1< asks 1 sets 1=1 3=1; ",
    ),
    (
        "SELECT n INTO :n FROM t OFFSET 1 / 0;",
        "1 ends division by zero; ",
    ),
    (
        "SELECT MIN(n) INTO :n FROM t WHERE id = 9; SELECT SUM(n) INTO :n FROM t WHERE id = 9;",
        "1 asks 1 sets 3=0; 2 asks 1 sets 1=0 3=0; ",
    ),
    (
        "INSERT INTO t VALUES (5, 9223372036854775807, ''); SELECT SUM(n) INTO :n FROM t;",
        "1 asks 1 sets 3=1 puts 5: 5,9223372036854775807,''; 2 asks 1 ends overflow; ",
    ),
    (
        "INSERT INTO t VALUES (:n, 1, 'd'); SELECT COUNT(*) INTO :n FROM t;",
        "1 reads 1< asks 1 sets 3=1 puts 7: 7,1,'d'; 2 asks 1 sets 1=5 3=1; ",
    ),
    (
        "INSERT INTO t VALUES (1, 5, ''); PRINT 1;",
        "1 asks 1 ends duplicate key; ",
    ),
    (
        "INSERT INTO t VALUES (1, 5, 'abcd');",
        "1 ends text too long; ",
    ),
    (
        "UPDATE t SET x = x || :s WHERE n = 5; SELECT x INTO :s FROM t WHERE id = 3;",
        "1 reads 2< asks 1 sets 3=1 puts 1 2='bq' puts 3 2='aq'; 2 asks 1 sets 2='aq' 3=1; ",
    ),
    (
        "UPDATE t SET x = TEXTOF(8 / (n - 7)) WHERE n >= 5;",
        "1 asks 1 ends division by zero; ",
    ),
    (
        "DELETE FROM t WHERE n = 5; SELECT COUNT(*) INTO :n FROM t WHERE n = 5; INSERT INTO t VALUES (1, 5, 'n');",
        "1 asks 1 sets 3=1 takes 1 takes 3; 2 asks 1 sets 1=0 3=0; 3 asks 1 sets 3=1 puts 1: 1,5,'n'; ",
    ),
    (
        "FOR :r IN SELECT id FROM t WHERE n = 5 DO SET :n = :n + :r.id; END FOR; PRINT :n;",
        "1 asks 1 sets 3=1 rows 1|3|; 2@1 in 0 reads 1< 4<0 sets 1=8; 2@2 in 0 reads 1<1 4<0 sets 1=11; 3 reads 1<2 line 11; ",
    ),
    (
        "FOR :r IN SELECT id FROM t WHERE n > 4 DO DELETE FROM t; END FOR;",
        "1 asks 1 sets 3=1 rows 1|2|3|; 2@1 in 0 asks 1 sets 3=1 takes 1 takes 2 takes 3 takes 4; 2@2 in 0 asks 1 sets 3=0; 2@3 in 0 asks 1 sets 3=0; ",
    ),
    (
        "FOR :r IN :rows DO
  IF :r.b = 2 THEN FOR :q IN SELECT DISTINCT x FROM t WHERE n = 5 DO PRINT :q.x; END FOR; ELSE SET :s = 'z'; END IF;
END FOR;",
        "1 sets 3=1 rows 9,1|4,2|; 2@1 in 0 reads 4<0; 5@1 in 1 sets 2='z'; 2@2 in 0 reads 4<0; 3@2 in 3 asks 1 sets 3=1 rows 'a'|'b'|; 4@2.1 in 4 reads 5<4 line 'a'; 4@2.2 in 4 reads 5<4 line 'b'; ",
    ),
    (
        "SET :n = 1; IF :n THEN DELETE FROM t; ROLLBACK 'no'; END IF; PRINT 1;",
        "1 sets 1=1; 2 reads 1<0; 3 in 1 asks 1 sets 3=1 takes 1 takes 2 takes 3 takes 4; 4 in 1 ends 'no'; ",
    ),
    (
        "IF :n / 0 THEN PRINT 1; END IF;",
        "1 reads 1< ends division by zero; ",
    ),
    (
        "PRINT :s, 9223372036854775807 + :n;",
        "1 reads 2< 1< ends overflow; ",
    ),
];

/// Statements that look for parents and children, and the records that they leave.
const FAMILY_CASES: &[(&str, &str)] = &[
    (
        "INSERT INTO t VALUES (4, 3, 7);",
        "1 asks 3 sets 3=1 puts 4: 4,3,7; ",
    ),
    (
        "INSERT INTO t VALUES (4, 4, 7);",
        "1 asks 2 sets 3=1 puts 4: 4,4,7; ",
    ),
    (
        "INSERT INTO t VALUES (4, 9, 7);",
        "1 asks 2 ends missing parent; ",
    ),
    (
        "INSERT INTO t VALUES (4, 3, 9);",
        "1 asks 3 ends missing parent; ",
    ),
    (
        "INSERT INTO t VALUES (3, 9, 9);",
        "1 asks 1 ends duplicate key; ",
    ),
    (
        "UPDATE t SET up = id, d = 7 WHERE id >= 2;",
        "1 asks 5 sets 3=1 puts 2 1=2 2=7 puts 3 1=3 2=7; ",
    ),
    (
        "UPDATE t SET up = id + 1;",
        "1 asks 4 ends missing parent; ",
    ),
    (
        "UPDATE t SET up = 4 / (3 - id);",
        "1 asks 3 ends missing parent; ",
    ),
    (
        "UPDATE t SET up = 2 / (2 - id);",
        "1 asks 2 ends division by zero; ",
    ),
    ("UPDATE t SET up = 9 WHERE id = 9;", "1 asks 1 sets 3=0; "),
    ("DELETE FROM t WHERE id = 3;", "1 asks 2 sets 3=1 takes 3; "),
    (
        "DELETE FROM t WHERE id >= 2;",
        "1 asks 3 sets 3=1 takes 2 takes 3; ",
    ),
    (
        "DELETE FROM t WHERE id <= 2;",
        "1 asks 3 ends has children; ",
    ),
    ("DELETE FROM t WHERE id = 9;", "1 asks 1 sets 3=0; "),
    (
        "DELETE FROM u WHERE d >= 6;",
        "1 asks 2 ends has children; ",
    ),
    (
        "DELETE FROM u WHERE d = 7; INSERT INTO t VALUES (4, 4, 7);",
        "1 asks 2 sets 3=1 takes 7; 2 asks 2 ends missing parent; ",
    ),
    (
        "INSERT INTO u VALUES (8); INSERT INTO t VALUES (4, 4, 8); DELETE FROM u WHERE d = 8;",
        "1 asks 1 sets 3=1 puts 8: 8; 2 asks 2 sets 3=1 puts 4: 4,4,8; 3 asks 2 ends has children; ",
    ),
];

// Records as text

fn tell_text(out: &mut String, bytes: &[u8]) -> Result<(), Fail> {
    Ok(out.push_str(str::from_utf8(bytes).or(Err("no text"))?)?)
}

fn tell_values(alloc: Global, out: &mut String, values: &[Value]) -> Result<(), Fail> {
    let line = line_from(alloc, values)?;
    tell_text(out, line.as_slice())
}

fn tell_key(alloc: Global, out: &mut String, key: &Key) -> Result<(), Fail> {
    let values = key.values(alloc)?;
    tell_values(alloc, out, values.as_slice())
}

/// Adds a text and a value.
fn tell_value(alloc: Global, out: &mut String, front: &str, value: &Value) -> Result<(), Fail> {
    out.push_str(front)?;
    tell_values(alloc, out, slice::from_ref(value))
}

fn tell_turns(out: &mut String, turns: &[u32]) -> Result<(), Fail> {
    let mut front = "@";
    for turn in turns {
        write!(out, "{front}{turn}")?;
        front = ".";
    }
    Ok(())
}

fn tell_parent(out: &mut String, parent: Option<u32>) -> Result<(), Fail> {
    match parent {
        Some(parent) => Ok(write!(out, " in {parent}")?),
        None => Ok(()),
    }
}

fn tell_read(out: &mut String, front: &str, read: &VarRead) -> Result<(), Fail> {
    write!(out, "{front} {}<", read.slot())?;
    match read.definer() {
        Some(definer) => Ok(write!(out, "{definer}")?),
        None => Ok(()),
    }
}

fn tell_reads(out: &mut String, reads: &[VarRead]) -> Result<(), Fail> {
    let mut front = " reads";
    for read in reads {
        tell_read(out, front, read)?;
        front = "";
    }
    Ok(())
}

/// Adds a place, a controller and definers.
fn tell_place(
    out: &mut String,
    statement: u16,
    turns: &[u32],
    parent: Option<u32>,
    reads: &[VarRead],
) -> Result<(), Fail> {
    write!(out, "{statement}")?;
    tell_turns(out, turns)?;
    tell_parent(out, parent)?;
    tell_reads(out, reads)
}

fn tell_asks(out: &mut String, asks: usize) -> Result<(), Fail> {
    if asks > 0 {
        write!(out, " asks {asks}")?;
    }
    Ok(())
}

fn tell_sets(alloc: Global, out: &mut String, sets: &[Slot]) -> Result<(), Fail> {
    let mut front = " sets";
    for set in sets {
        write!(out, "{front} {}", set.slot)?;
        tell_value(alloc, out, "=", &set.value)?;
        front = "";
    }
    Ok(())
}

fn tell_rows(alloc: Global, out: &mut String, rows: &[Row]) -> Result<(), Fail> {
    let mut front = " rows ";
    for row in rows {
        out.push_str(front)?;
        tell_values(alloc, out, row.as_slice())?;
        front = "";
        out.push_str("|")?;
    }
    Ok(())
}

fn tell_items(alloc: Global, out: &mut String, items: &[Assign]) -> Result<(), Fail> {
    for item in items {
        write!(out, " {}", item.column)?;
        tell_value(alloc, out, "=", &item.value)?;
    }
    Ok(())
}

fn tell_write(alloc: Global, out: &mut String, write: &Write) -> Result<(), Fail> {
    let word = match &write.patch {
        Patch::Delete => " takes ",
        _ => " puts ",
    };
    out.push_str(word)?;
    tell_key(alloc, out, &write.key)?;
    match &write.patch {
        Patch::Delete => Ok(()),
        Patch::Insert(row) => {
            out.push_str(": ")?;
            tell_values(alloc, out, row.as_slice())
        }
        Patch::Set(items) => tell_items(alloc, out, items.as_slice()),
    }
}

fn tell_writes(alloc: Global, out: &mut String, writes: &[Write]) -> Result<(), Fail> {
    for write in writes {
        tell_write(alloc, out, write)?;
    }
    Ok(())
}

fn tell_line(out: &mut String, line: Option<&Txt>) -> Result<(), Fail> {
    match line {
        Some(line) => {
            out.push_str(" line ")?;
            tell_text(out, line.as_slice())
        }
        None => Ok(()),
    }
}

fn tell_end(out: &mut String, end: &End) -> Result<(), Fail> {
    out.push_str(" ends ")?;
    let word = match end {
        End::Own(reason) => {
            out.push_str("'")?;
            tell_text(out, reason.as_slice())?;
            "'"
        }
        End::Duplicate => "duplicate key",
        End::Overflow => "overflow",
        End::ZeroDivisor => "division by zero",
        End::TooLong => "text too long",
        End::MissingParent => "missing parent",
        End::HasChildren => "has children",
    };
    Ok(out.push_str(word)?)
}

/// Adds the place, controller and definers of a record.
fn tell_place_of(out: &mut String, record: &RecordRef<'_>) -> Result<(), Fail> {
    tell_place(
        out,
        record.statement(),
        record.turns(),
        record.parent(),
        record.reads(),
    )
}

fn tell_record(alloc: Global, out: &mut String, record: &RecordRef<'_>) -> Result<(), Fail> {
    tell_place_of(out, record)?;
    tell_asks(out, record.preds().len())?;
    tell_sets(alloc, out, record.sets())?;
    tell_rows(alloc, out, record.rows())?;
    tell_writes(alloc, out, record.writes())?;
    tell_line(out, record.line())?;
    if let Some(end) = record.end() {
        tell_end(out, end)?;
    }
    Ok(out.push_str("; ")?)
}

fn tell_records(alloc: Global, out: &mut String, records: &Records<'_>) -> Result<(), Fail> {
    for number in 0..records.len() {
        tell_record(alloc, out, &records.get(number))?;
    }
    Ok(())
}

/// Checks that records have this text.
fn are_told(alloc: Global, records: &Records<'_>, want: &str) -> Result<(), Fail> {
    let mut out = String::new(alloc);
    tell_records(alloc, &mut out, records)?;
    ensure(alloc, out.as_str() == want, out.as_str())
}

/// Returns the variables that a record ahead reads.
fn reads_of(alloc: Global, ahead: &Ahead<'_>) -> Result<List<VarRead>, Fail> {
    let mut reads = List::new(alloc);
    for at in 0..ahead.reads() {
        reads.push(ahead.read(at))?;
    }
    Ok(reads)
}

/// Checks that a record is where `peek` showed it.
fn is_peeked(alloc: Global, record: &RecordRef<'_>, ahead: &Ahead<'_>) -> Result<(), Fail> {
    let mut stands = String::new(alloc);
    tell_place_of(&mut stands, record)?;
    let mut peeked = String::new(alloc);
    tell_place(
        &mut peeked,
        ahead.statement(),
        ahead.turns(alloc)?.as_slice(),
        ahead.parent(),
        reads_of(alloc, ahead)?.as_slice(),
    )?;
    let turns = record.turns();
    ensure(alloc, ahead.is_in(turns), "other turns are ahead")?;
    ensure(alloc, stands.as_str() == peeked.as_str(), peeked.as_str())
}

// Running calls

/// Adopts the record of the run before the repair that has the next number. `peek` must show its place.
fn adopt_next(alloc: Global, graph: &Graph, task: &mut Task) -> Result<(), Fail>
    requires sound { IsSound graph.now }
    requires running { IsRunning graph.now task.old }
    requires rises { task.old.log.kept ≤ length task.old.log.records }
    ensures running { IsRunning graph.now task.new }
    ensures rises { OnOk result (task.new.log.kept ≤ length task.new.log.records) }
{
    let Some(ahead) = peek(graph, task) else {
        return Err("nothing is ahead".into());
    };
    let number = next_number(task)?;
    if number as usize >= task.past().len() {
        return Err("no record is left".into());
    }
    is_peeked(alloc, &task.past().get(number as usize), &ahead)?;
    let stepped = adopt(alloc, graph, task, number)?;
    let ended = stepped == Stepped::Ended;
    ensure(alloc, ended == task.ended(), "a step that tells no end")?;
    Ok(())
}

/// Adopts all records of the run before the repair.
fn adopt_all(alloc: Global, graph: &Graph, task: &mut Task) -> Result<(), Fail>
    requires sound { IsSound graph.now }
    requires running { IsRunning graph.now task.old }
    requires rises { task.old.log.kept ≤ length task.old.log.records }
{
    for _ in 0..task.past().len() {
        adopt_next(alloc, graph, task)?;
    }
    Ok(())
}

/// Returns how many records a walk executes.
fn executed_by_walk(len: usize, first: usize) -> usize {
    let mut executed: usize = 0;
    for number in 0..len {
        if !is_adopted(number, first) {
            executed = executed.saturating_add(1);
        }
    }
    executed
}

/// Checks that a call has these records, and that it executed so many of them.
fn has_left(alloc: Global, task: &Task, executed: usize, want: &str) -> Result<(), Fail> {
    ensure(
        alloc,
        task.executed() == executed,
        "another number of executed records",
    )?;
    are_told(alloc, &task.records(), want)
}

/// Checks that a call leaves these records if it runs, begins anew, and adopts its first ones and every other one
/// after.
fn walks(
    alloc: Global,
    graph: &Graph,
    call: &Call,
    database: &Database,
    len: usize,
    first: usize,
    want: &str,
) -> Result<(), Fail>
    requires sound { IsSound graph.now }
    requires arguments { length call.now.arguments ≡ length graph.now.procedure.params }
    requires database { IsDatabaseOf graph.now.tables database.now }
{
    let task = run_and_walk(alloc, graph, call, database, first).or(Err("no end"))?;
    has_left(alloc, &task, executed_by_walk(len, first), want)
}

/// Checks that a call that has run to its end leaves these records if it adopts them all, each where `peek` showed it.
fn adopts(alloc: Global, graph: &Graph, call: &Call, mut task: Task, want: &str) -> Result<(), Fail>
    requires sound { IsSound graph.now }
    requires call { IsTaskOf graph.now call.now task }
{
    task.begin_repair();
    adopt_all(alloc, graph, &mut task)?;
    has_left(alloc, &task, 0, want)
}

/// Checks that a call leaves these records, whether all are executed, all are adopted, or the first ones are adopted
/// and others are executed.
fn check(
    alloc: Global,
    graph: &Graph,
    call: &Call,
    database: &Database,
    want: &str,
) -> Result<(), Fail>
    requires sound { IsSound graph.now }
    requires arguments { length call.now.arguments ≡ length graph.now.procedure.params }
    requires database { IsDatabaseOf graph.now.tables database.now }
{
    let Ok(task) = run(alloc, graph, call, database) else {
        return Err("no end".into());
    };
    let len = task.records().len();
    has_left(alloc, &task, len, want)?;
    adopts(alloc, graph, call, task, want)?;
    for first in 0..=len {
        walks(alloc, graph, call, database, len, first, want)?;
    }
    Ok(())
}

fn accepted(alloc: Global, script: &str) -> Result<Program, Fail>
    ensures { IfOk result IsProgram }
{
    Ok(accept(alloc, script.as_bytes()).or(Err("refused"))?)
}

/// Whether a graph has no edge from a statement before the first one, and none to one after the last.
fn has_edges_inside_alone(graph: &Graph) -> bool {
    let last = graph.nodes.len().min(1000) as u16;
    graph.edge(0, 1) == NO_EDGES && graph.edge(last, last.saturating_add(1)) == NO_EDGES
}

fn check_only(alloc: Global, program: &Program, graphs: &[Graph], want: &str) -> Result<(), Fail>
    requires sound { All IsSound graphs.now }
    requires databases { All (λ graph. IsDatabaseOf graph.tables program.now.opening) graphs.now }
{
    let calls = program.resolved.calls.as_slice();
    let ([graph], [call]) = (graphs, calls) else {
        return Err("no call".into());
    };
    ensure(
        alloc,
        has_edges_inside_alone(graph),
        "an edge to no statement",
    )?;
    if call.arguments.len() != graph.procedure.params.len() {
        return Err("another number of arguments".into());
    }
    check(alloc, graph, call, &program.opening, want)
}

/// Checks that the only call of a program leaves these records.
fn leaves(alloc: Global, program: &Program, want: &str) -> Result<(), Fail>
    requires { IsProgram program.now }
{
    let graphs = compile(alloc, &program.resolved)?;
    check_only(alloc, program, graphs.as_slice(), want)
}

fn script_leaves(alloc: Global, script: &str, want: &str) -> Result<(), Fail> {
    let program = accepted(alloc, script)?;
    leaves(alloc, &program, want)
}

/// Checks that the call of a procedure with the statements of each case leaves the records of the case.
fn leave_as_told(alloc: Global, front: &str, cases: &[(&str, &str)]) -> Result<(), Fail> {
    for (statements, want) in cases {
        let script = between(alloc, front, statements, BACK)?;
        script_leaves(alloc, script.as_str(), want)?;
    }
    Ok(())
}

#[test]
fn records_are_executed_or_adopted(rt: HostRuntime) -> Result<(), Fail> {
    leave_as_told(rt.alloc(), FRONT, CASES)
}

#[test]
fn parents_and_children_are_looked_for(rt: HostRuntime) -> Result<(), Fail> {
    leave_as_told(rt.alloc(), FAMILY, FAMILY_CASES)
}
