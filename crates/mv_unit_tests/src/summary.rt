//! Summaries of small outcomes, worked out by hand.

use crate::cases::ensure_at;
use mv_accept::accept::accept;
use mv_cases::ensure::ensure;
use mv_journal::outcome::Outcome;
use mv_tpccgen::load::Load;
use mv_tpccsum::summary::summary;
use mv_values::calls::{End, Reply};
use mv_values::list::List;
use mv_values::memory::NoMemory;
use std::alloc::Global;
use std::test::Fail;

/// Tables of which the summary asks whether they agree, and rows that do.
const TABLES: [(&str, &str); 5] = [
    (
        "CREATE TABLE warehouse (w_id INT, w_ytd INT, PRIMARY KEY (w_id)) VALUES ",
        "(1, 30)",
    ),
    (
        "CREATE TABLE district (d_w_id INT, d_id INT, d_ytd INT, d_next_o_id INT, PRIMARY KEY (d_w_id, d_id)) VALUES ",
        "(1, 1, 10, 5), (1, 2, 20, 2)",
    ),
    (
        "CREATE TABLE orders (o_w_id INT, o_d_id INT, o_id INT, o_ol_cnt INT, PRIMARY KEY (o_w_id, o_d_id, o_id)) VALUES ",
        "(1, 1, 1, 0), (1, 1, 2, 2), (1, 1, 3, 0), (1, 1, 4, 1), (1, 2, 1, 1)",
    ),
    (
        "CREATE TABLE new_order (no_w_id INT, no_d_id INT, no_o_id INT, PRIMARY KEY (no_w_id, no_d_id, no_o_id)) VALUES ",
        "(1, 1, 3), (1, 1, 4)",
    ),
    (
        "CREATE TABLE order_line (ol_w_id INT, ol_d_id INT, ol_o_id INT, ol_number INT, PRIMARY KEY (ol_w_id, ol_d_id, ol_o_id, ol_number)) VALUES ",
        "(1, 1, 2, 1), (1, 1, 2, 2), (1, 1, 4, 1), (1, 2, 1, 1)",
    ),
];

/// Other rows for one of the tables, and whether they agree with the rows of the others.
const CASES: [(usize, &str, &str); 9] = [
    (0, "(1, 30)", "yes"),
    (0, "(1, 31)", "no"),
    (0, "(1, 30), (2, 1)", "no"),
    (1, "(1, 1, 10, 6), (1, 2, 20, 2)", "no"),
    (2, "(1, 1, 4, 3)", "no"),
    (3, "(1, 1, 3)", "no"),
    (3, "(1, 1, 2), (1, 1, 4)", "no"),
    (4, "(1, 1, 2, 1), (1, 1, 2, 2), (1, 1, 3, 1)", "no"),
    (
        4,
        "(1, 1, 4, 1), (1, 1, 4, 2), (1, 1, 4, 3), (1, 2, 1, 7)",
        "yes",
    ),
];

const CALLS: &str =
    "CREATE TABLE stock (s_id INT, s_ytd INT, s_order_cnt TEXT(5), PRIMARY KEY (s_id))
VALUES (1, 9223372036854775807, '7'), (2, 9223372036854775807, '7'), (3, 2, '7');
CREATE PROCEDURE payment () BEGIN PRINT 1; END;
CREATE PROCEDURE new_order () BEGIN ROLLBACK 'no'; END;
CALL payment(); CALL new_order(); CALL new_order();
";

const TEXT: &str = "tpcc warehouses 2 calls 3 seed 7
new_order 2 rolled back 1
payment 1
order_status 0
delivery 0
stock_level 0
orders 0
order_lines 0
sum w_ytd 0
sum h_amount 0
sum s_ytd 18446744073709551616
sum s_order_cnt 0
sum s_remote_cnt 0
consistent yes
end
";

/// Returns the script of the tables in which one has these rows.
fn script(alloc: Global, changed: usize, rows: &str) -> Result<String, Fail> {
    let mut script = String::new(alloc);
    for (at, (table, agreeing)) in TABLES.iter().enumerate() {
        script.push_str(table)?;
        script.push_str(if at == changed { rows } else { agreeing })?;
        script.push_str(";\n")?;
    }
    Ok(script)
}

/// Returns whether each call was rolled back, as replies.
fn replies(alloc: Global, ends: &[bool]) -> Result<List<Reply>, NoMemory> {
    let mut replies = List::new(alloc);
    for end in ends {
        replies.push(Reply {
            lines: List::new(alloc),
            end: if *end { Some(End::Duplicate) } else { None },
        })?;
    }
    Ok(replies)
}

/// Returns the summary of a script's rows.
fn summary_of(alloc: Global, script: &str, ends: &[bool]) -> Result<List<u8>, Fail> {
    let load = Load {
        warehouses: 2,
        calls: 3,
        seed: 7,
    };
    let program = accept(alloc, script.as_bytes()).or(Err("refused"))?;
    let outcome = Outcome {
        replies: replies(alloc, ends)?,
        history: List::new(alloc),
        journal: List::new(alloc),
        tables: program.opening,
    };
    Ok(summary(alloc, &load, &program.resolved, &outcome)?)
}

#[test]
fn tables_agree_as_wanted(rt: HostRuntime) -> Result<(), Fail> {
    let alloc = rt.alloc();
    for (case, (changed, rows, answer)) in CASES.iter().enumerate() {
        let script = script(alloc, *changed, rows)?;
        let text = summary_of(alloc, script.as_str(), &[])?;
        let wanted = format!(in alloc; "consistent {answer}\nend\n")?;
        let holds = text.as_slice().ends_with(wanted.as_bytes());
        ensure_at(alloc, holds, case)?;
    }
    Ok(())
}

#[test]
fn a_summary_is_as_wanted(rt: HostRuntime) -> Result<(), Fail> {
    let text = summary_of(rt.alloc(), CALLS, &[false, true, false])?;
    ensure(
        rt.alloc(),
        text.as_slice() == TEXT.as_bytes(),
        "another summary",
    )
}
