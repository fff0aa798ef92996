//! Prints of scripts, worked out by hand.

use crate::cases::between;
use crate::parsing::read;
use mv_cases::accounts::{ADD, OTHERS};
use mv_cases::ensure::ensure;
use mv_print::print::print_script;
use std::alloc::Global;
use std::test::Fail;

fn prints(alloc: Global, script: &str, want: &str) -> Result<(), Fail> {
    let Ok(tree) = read(alloc, script)? else {
        return Err("no script".into());
    };
    let text = print_script(alloc, &tree, script.as_bytes())?;
    ensure(alloc, text.as_slice() == want.as_bytes(), want)
}

/// The texts before and after a case, and their prints.
type Frame = [&'static str; 4];

fn prints_within(alloc: Global, frame: &Frame, written: &str, want: &str) -> Result<(), Fail> {
    let script = between(alloc, frame[0], written, frame[1])?;
    let want = between(alloc, frame[2], want, frame[3])?;
    prints(alloc, script.as_str(), want.as_str())
}

fn print_as_told(alloc: Global, frame: &Frame, cases: &[(&str, &str)]) -> Result<(), Fail> {
    for (written, want) in cases {
        prints_within(alloc, frame, written, want)?;
    }
    Ok(())
}

const EXPRESSIONS: &[(&str, &str)] = &[
    ("((1 + 2)) * 3", "( 1 + 2 ) * 3"),
    ("3 + (1 * 2)", "3 + 1 * 2"),
    ("(1 - 2) - 3", "1 - 2 - 3"),
    ("3 || (1 - 2)", "3 || ( 1 - 2 )"),
    ("3 OR (1 OR 2)", "3 or ( 1 or 2 )"),
    ("(1 OR 2) AND 3", "( 1 or 2 ) and 3"),
    ("(1 < 2) = 3", "( 1 < 2 ) = 3"),
    ("LEFT(3, (1 OR 2))", "left ( 3 , 1 or 2 )"),
    ("-(1 * 2)", "- ( 1 * 2 )"),
    ("-(-1)", "- - 1"),
    ("NOT (1 <> 2)", "not 1 <> 2"),
    (
        "CONTAINS('it''s', TEXTOF(7))",
        "contains ( 'it''s' , textof ( 7 ) )",
    ),
    (":R.C % :x / a", ":r . c % :x / a"),
];

const PRINTED: Frame = [
    "CREATE PROCEDURE p () BEGIN PRINT ",
    "; END;",
    "create procedure p ( ) begin print ",
    " ;\nend ;\n",
];

/// How operators bind. The second of two expressions has all parentheses, and the same print as the first.
const BINDING: &[(&str, &str)] = &[
    ("a - b - c", "a - b - c"),
    ("((a - b) - c)", "a - b - c"),
    ("a - b * c % d", "a - b * c % d"),
    ("(a - ((b * c) % d))", "a - b * c % d"),
    ("(a - (b - c)) / -1", "( a - ( b - c ) ) / - 1"),
    ("((a - (b - c)) / (-1))", "( a - ( b - c ) ) / - 1"),
    (
        "NOT a = b AND c < 1 OR 'x' >= :Y",
        "not a = b and c < 1 or 'x' >= :y",
    ),
    (
        "(((NOT (a = b)) AND (c < 1)) OR ('x' >= :Y))",
        "not a = b and c < 1 or 'x' >= :y",
    ),
    ("1 OR 2 AND 3 OR 4", "1 or 2 and 3 or 4"),
    ("((1 OR (2 AND 3)) OR 4)", "1 or 2 and 3 or 4"),
    ("- -A || 'it''s'", "- - a || 'it''s'"),
    ("((-(-A)) || 'it''s')", "- - a || 'it''s'"),
    ("NOT NOT :R . Id", "not not :r . id"),
    ("(NOT (NOT (:R . Id)))", "not not :r . id"),
    (
        "LEFT(TEXTOF(-007), 2) <> ''",
        "left ( textof ( - 7 ) , 2 ) <> ''",
    ),
    (
        "(LEFT((TEXTOF((-(007)))), (2)) <> (''))",
        "left ( textof ( - 7 ) , 2 ) <> ''",
    ),
    (
        "CONTAINS('''', (((1)))) = :select",
        "contains ( '''' , 1 ) = :select",
    ),
    (
        "(CONTAINS((''''), (1)) = (:select))",
        "contains ( '''' , 1 ) = :select",
    ),
];

const STATEMENTS: &[(&str, &str)] = &[
    (
        "SELECT a, b INTO :x, :y FROM t WHERE id = (1 OR 2) + 3 AND b < 'c' ORDER BY id DESC, b OFFSET 2;",
        "select a , b into :x , :y from t where id = ( 1 or 2 ) + 3 and b < 'c' order by id desc , b offset 2 ;\n",
    ),
    (
        "SELECT COUNT(DISTINCT a) INTO :x FROM t;",
        "select count ( distinct a ) into :x from t ;\n",
    ),
    (
        "SELECT COUNT(*) INTO :x FROM t;",
        "select count ( * ) into :x from t ;\n",
    ),
    (
        "FOR :r IN SELECT DISTINCT a FROM t DO SET :x = 1; END FOR;",
        "for :r in select distinct a from t do set :x = 1 ;\nend for ;\n",
    ),
    (
        "FOR :r IN :m DO PRINT 1, 2; END FOR;",
        "for :r in :m do print 1 , 2 ;\nend for ;\n",
    ),
    (
        "IF 1 THEN ELSE SET :x = 1; END IF;",
        "if 1 then else set :x = 1 ;\nend if ;\n",
    ),
    (
        "INSERT INTO t VALUES (1, 'a');",
        "insert into t values ( 1 , 'a' ) ;\n",
    ),
    (
        "UPDATE t SET a = 1, b = a WHERE id = 3;",
        "update t set a = 1 , b = a where id = 3 ;\n",
    ),
    (
        "DELETE FROM t WHERE id >= 3;",
        "delete from t where id >= 3 ;\n",
    ),
    ("ROLLBACK 'no';", "rollback 'no' ;\n"),
];

const BODY: Frame = [
    "CREATE PROCEDURE p () BEGIN ",
    " END;",
    "create procedure p ( ) begin ",
    "end ;\n",
];

const ITEMS: &[(&str, &str)] = &[
    (
        "CREATE TABLE T (a INT, b TEXT(2), PRIMARY KEY (a, b)) VALUES (-7, 'a'), (7, '');",
        "create table t ( a int , b text ( 2 ) , primary key ( a , b ) ) values ( - 7 , 'a' ) , ( 7 , '' ) ;\n",
    ),
    (
        "CREATE TABLE t (a INT REFERENCES T, b TEXT(2) REFERENCES u, PRIMARY KEY (a));",
        "create table t ( a int references t , b text ( 2 ) references u , primary key ( a ) ) ;\n",
    ),
    (
        "CREATE PROCEDURE p (:b ROWS (a TEXT(20)), :c INT) DECLARE :x = 0; DECLARE :y = ''; BEGIN END;",
        "create procedure p ( :b rows ( a text ( 20 ) ) , :c int ) declare :x = 0 ; declare :y = '' ; begin end ;\n",
    ),
    (
        "CALL p(1, ROWS ((-7, 'a')), ROWS ());",
        "call p ( 1 , rows ( ( - 7 , 'a' ) ) , rows ( ) ) ;\n",
    ),
    ("COPY t <<\n1,2\n>>\n", "copy t <<\n1,2\n>>\n"),
    // An open block extends to the end.
    ("JOURNAL <<\nB 0\n", "journal <<\nB 0\n"),
];

const SCRIPT: Frame = ["", "", "", ""];

/// A script with each kind of item and of statement.
pub(crate) const EVERYTHING: &str = "
create TABLE acc (id INT REFERENCES acc, note TEXT(20), PRIMARY KEY (id, note)) VALUES (1, 'it''s'), (-2, '');
COPY acc <<
7,x
>>
CREATE PROCEDURE p (:a INT, :t TEXT(4), :r ROWS (id INT, note TEXT(20)))
  DECLARE :x = -1; DECLARE :y = ''; BEGIN
  SET :x = :a + 1;
  SELECT id, note INTO :x, :y FROM acc WHERE id = :a AND note <> '' ORDER BY note DESC, id ASC, id OFFSET :x;
  SELECT COUNT(DISTINCT note) INTO :x FROM acc WHERE id < 5;
  FOR :l IN SELECT id FROM acc ORDER BY id DO PRINT :l.id; END FOR;
  FOR :l IN SELECT DISTINCT note FROM acc DO END FOR;
  FOR :l IN :r DO ROLLBACK ''; PRINT 1; END FOR;
  IF :x > 1 THEN PRINT 1; ELSE PRINT 2; PRINT 3; END IF;
  INSERT INTO acc VALUES (:x, 'b');
  UPDATE acc SET note = 'c', id = id + 1 WHERE id = 1;
  DELETE FROM acc;
  PRINT :x, 2, 3;
  ROLLBACK 'no';
END;
CALL p(1, 'a', ROWS ((1, 'x'), (2, 'y')));
JOURNAL <<
B 0
";

/// Its print.
const EVERYTHING_PRINTED: &str =
    "create table acc ( id int references acc , note text ( 20 ) , primary key ( id , note ) ) values ( 1 , 'it''s' ) , ( - 2 , '' ) ;
copy acc <<
7,x
>>
create procedure p ( :a int , :t text ( 4 ) , :r rows ( id int , note text ( 20 ) ) ) declare :x = - 1 ; declare :y = '' ; begin set :x = :a + 1 ;
select id , note into :x , :y from acc where id = :a and note <> '' order by note desc , id , id offset :x ;
select count ( distinct note ) into :x from acc where id < 5 ;
for :l in select id from acc order by id do print :l . id ;
end for ;
for :l in select distinct note from acc do end for ;
for :l in :r do rollback '' ;
print 1 ;
end for ;
if :x > 1 then print 1 ;
else print 2 ;
print 3 ;
end if ;
insert into acc values ( :x , 'b' ) ;
update acc set note = 'c' , id = id + 1 where id = 1 ;
delete from acc ;
print :x , 2 , 3 ;
rollback 'no' ;
end ;
call p ( 1 , 'a' , rows ( ( 1 , 'x' ) , ( 2 , 'y' ) ) ) ;
journal <<
B 0
";

/// Calls among comments and empty lines.
const CALLS: &str = "-- Calls
CALL add(1, 5); -- 1, 2, 3, 4

CALL transfer (1, 2, -7);                                         -- 5
";

/// The print of the script of accounts with these calls.
const ACCOUNTS_PRINTED: &str =
    "create table acc ( id int , bal int , note text ( 20 ) , primary key ( id ) ) values ( 0 , 0 , '' ) , ( 1 , 100 , '' ) , ( 2 , 100 , '' ) , ( 3 , 100 , '' ) , ( 4 , 100 , '' ) ;
create procedure add ( :a int , :x int ) declare :b = 0 ; begin select bal into :b from acc where id = :a ;
set :b = :b + :x ;
update acc set bal = :b where id = :a ;
print :b ;
end ;
create procedure transfer ( :a int , :c int , :x int ) declare :b = 0 ; begin select bal into :b from acc where id = :a ;
if :b < :x then rollback 'no funds' ;
end if ;
update acc set bal = bal - :x where id = :a ;
update acc set bal = bal + :x where id = :c ;
update acc set bal = bal + 1 where id = 0 ;
end ;
create procedure mark ( :a int , :t text ( 20 ) ) begin update acc set note = :t where id = :a ;
end ;
create procedure put ( :k int , :v int ) begin insert into acc values ( :k , :v , '' ) ;
end ;
create procedure rich ( ) declare :n = 0 ; begin select count ( * ) into :n from acc where bal >= 100 ;
print :n ;
end ;
create procedure tell ( ) declare :b = 0 ; declare :x = 0 ; declare :z = 0 ; begin select bal into :b from acc where id = 1 ;
if :b > 100 then set :x = 1 ;
end if ;
select bal into :z from acc where id = 2 ;
print :x ;
print :z ;
end ;
call add ( 1 , 5 ) ;
call transfer ( 1 , 2 , - 7 ) ;
";

/// Whole scripts and their prints. A print is its own print.
const WHOLE: &[(&str, &str)] = &[
    (EVERYTHING, EVERYTHING_PRINTED),
    (EVERYTHING_PRINTED, EVERYTHING_PRINTED),
    (ACCOUNTS_PRINTED, ACCOUNTS_PRINTED),
    (" -- nothing\n", ""),
];

/// The frames of scripts, and what is written in each.
const TABLES: &[(Frame, &[(&str, &str)])] = &[
    (PRINTED, EXPRESSIONS),
    (PRINTED, BINDING),
    (BODY, STATEMENTS),
    (SCRIPT, ITEMS),
    (SCRIPT, WHOLE),
];

#[test]
fn scripts_are_printed(rt: HostRuntime) -> Result<(), Fail> {
    for (frame, cases) in TABLES {
        print_as_told(rt.alloc(), frame, cases)?;
    }
    let accounts = between(rt.alloc(), ADD, OTHERS, CALLS)?;
    prints(rt.alloc(), accounts.as_str(), ACCOUNTS_PRINTED)
}
