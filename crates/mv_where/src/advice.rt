//! What to say of a refusal, and what to write in place of what isn't in the language, as data.

use crate::advice::Wanted::{Among, Anything, Only};

/// What may stand in place of a token at which no script goes on.
#[derive(Clone, Copy)]
pub(crate) enum Wanted {
    Anything,
    /// This, and more.
    Among(&'static str),
    /// This alone.
    Only(&'static str),
}

/// What the token before one is, what it is itself, what may stand there, and what to say. A word in capitals and a sign are
/// themselves. A `name`, `number`, `text`, `variable` and `end` (of the script) are kinds. No words are any token.
pub(crate) type Advice = (&'static str, &'static str, Wanted, &'static str);

/// What to say where no script goes on with a token. The first that fits is said.
pub(crate) const SYNTAX: &[Advice] = &[
    (
        "",
        "JOIN INNER OUTER CROSS",
        Anything,
        "JOIN isn't in the language: use a FOR with a SELECT by key in it",
    ),
    (
        "",
        ",",
        Among("WHERE"),
        "a statement reads one table: use a FOR with a SELECT by key in it",
    ),
    (
        "",
        "LEFT",
        Among("WHERE"),
        "JOIN isn't in the language: use a FOR with a SELECT by key in it",
    ),
    (
        "",
        "GROUP HAVING",
        Anything,
        "GROUP BY isn't in the language: use a FOR over a SELECT DISTINCT with a SELECT SUM in it",
    ),
    (
        "",
        "OR",
        Among("AND"),
        "the tests of a WHERE are joined by AND alone: test in an IF in a FOR",
    ),
    (
        "",
        "BETWEEN",
        Anything,
        "BETWEEN isn't in the language: write one test by >= and one by <=",
    ),
    (
        "",
        "LIKE",
        Anything,
        "LIKE isn't in the language: use CONTAINS in an IF",
    ),
    (
        "",
        "IN",
        Anything,
        "IN goes with FOR alone: join comparisons by OR in an IF",
    ),
    (
        "",
        "LIMIT FETCH TOP",
        Anything,
        "LIMIT isn't in the language: a SELECT takes one row, and OFFSET says which",
    ),
    (
        "",
        "IS",
        Anything,
        "there is no NULL: compare with a value, as 0 or ''",
    ),
    (
        "",
        "AS",
        Anything,
        "AS isn't in the language: tables and columns have one name",
    ),
    (
        "SELECT",
        "*",
        Anything,
        "a SELECT names its columns: * is for COUNT alone",
    ),
    (
        "SELECT",
        "DISTINCT",
        Anything,
        "DISTINCT is for a FOR and for COUNT",
    ),
    (
        "AVG",
        "(",
        Anything,
        "AVG isn't in the language: divide a SUM by a COUNT",
    ),
    (
        "",
        "(",
        Among("INTO"),
        "the aggregates are COUNT, SUM, MIN and MAX",
    ),
    (
        "",
        "+ - * / % ||",
        Among("INTO"),
        "a SELECT lists columns alone: compute by a SET after it",
    ),
    (
        "",
        "name",
        Among("*"),
        "COUNT takes * or DISTINCT with a column",
    ),
    (
        "",
        "FROM",
        Among("INTO"),
        "a SELECT puts a row INTO variables: PRINT shows them",
    ),
    (
        "WHERE AND",
        "number text variable NOT (",
        Among("a column"),
        "a test is a column, a comparison and a value, in this order",
    ),
    (
        "",
        "ELSIF ELSEIF ELIF",
        Anything,
        "ELSIF isn't in the language: put an IF into the ELSE",
    ),
    (
        "",
        "WHILE LOOP REPEAT EXIT BREAK CONTINUE LEAVE",
        Anything,
        "a FOR over rows is the only loop, and it goes over all of them",
    ),
    (
        "",
        "RETURN",
        Anything,
        "a call ends with its procedure, or by ROLLBACK",
    ),
    (
        "",
        "COMMIT TRANSACTION",
        Anything,
        "a call commits at its end by itself",
    ),
    (
        "CASE",
        "WHEN",
        Anything,
        "CASE isn't in the language: use IF",
    ),
    ("=", "=", Anything, "two values are compared by one ="),
    (
        "",
        "= <> < <= > >=",
        Among("an operator"),
        "comparisons don't chain: join two by AND",
    ),
    (
        "",
        "NOT",
        Among("an expression"),
        "NOT needs brackets here: (NOT 1)",
    ),
    (
        "",
        "(",
        Among("VALUES"),
        "an INSERT names no columns: it gives a value for each, in their order",
    ),
    (
        "",
        "SELECT",
        Among("VALUES"),
        "an INSERT adds one row of VALUES: put it into a FOR over the SELECT",
    ),
    (
        ")",
        ",",
        Only(";"),
        "an INSERT adds one row: write another INSERT",
    ),
    (
        "number",
        ".",
        Anything,
        "numbers have no fraction: count in the smallest unit, as cents",
    ),
    (
        "ROLLBACK",
        "",
        Anything,
        "a ROLLBACK gives its reason as a text: ROLLBACK 'too few';",
    ),
    (
        "",
        "CALL",
        Among("a statement"),
        "a procedure calls no other, and ends by END;",
    ),
    (
        "",
        "DECLARE",
        Among("a statement"),
        "DECLARE comes before the BEGIN of its procedure",
    ),
    (
        "variable",
        "INT TEXT name",
        Only("="),
        "a variable is declared with its first value, which says its type: DECLARE :x = 0;",
    ),
    (
        "",
        "; BEGIN DECLARE",
        Only("("),
        "a procedure and a CALL have brackets, also around nothing: p()",
    ),
    (
        "",
        "variable name",
        Among("a literal"),
        "a literal stands here: a number, or a text in single quotes",
    ),
    (
        "",
        "+ - * / % ||",
        Among(")"),
        "a literal stands alone here: compute in a procedure",
    ),
    (
        "",
        "/",
        Anything,
        "a comment begins with -- and goes to the end of its line",
    ),
    (
        "",
        "PRIMARY",
        Only(","),
        "the key comes after all columns: , PRIMARY KEY (id)",
    ),
    (
        "",
        "PRIMARY",
        Among("REFERENCES"),
        "the key comes after all columns: , PRIMARY KEY (id)",
    ),
    (
        "",
        ")",
        Among("REFERENCES"),
        "a table ends with its key: , PRIMARY KEY (id)",
    ),
    (
        "name",
        ")",
        Only(","),
        "a table ends with its key: , PRIMARY KEY (id)",
    ),
    (
        "INT )",
        "REFERENCES",
        Anything,
        "REFERENCES is for the columns of a table alone",
    ),
    (
        "FOREIGN",
        "KEY",
        Anything,
        "REFERENCES comes after the type of its column: dept INT REFERENCES depts",
    ),
    (
        "name",
        "(",
        Only(","),
        "REFERENCES names a table, and means its key",
    ),
    (
        "name",
        "ON",
        Only(","),
        "a row with children stays, and a key is never set: delete the children first",
    ),
    (
        "INT )",
        "NOT NULL DEFAULT UNIQUE CHECK",
        Anything,
        "a column is a name and a type, and may have REFERENCES: it has no NULL, no default and no further rule",
    ),
    ("", "name", Among("INT"), "the types are INT and TEXT(n)"),
    (
        "TEXT",
        "",
        Only("("),
        "a TEXT says how many bytes it takes: TEXT(4000)",
    ),
    ("END", "", Only("IF"), "this END closes an IF: END IF;"),
    ("END", "", Only("FOR"), "this END closes a FOR: END FOR;"),
    (
        "",
        "number",
        Among("SELECT"),
        "a FOR goes over rows: those of a SELECT or of a ROWS parameter",
    ),
    (
        "",
        "INDEX",
        Among("TABLE"),
        "there are no indexes: rows are found by the first columns of their key",
    ),
    (
        "",
        "SELECT INSERT UPDATE DELETE SET PRINT",
        Among("CREATE"),
        "statements stand in a procedure; rows come by VALUES or COPY",
    ),
    (
        "",
        "DROP ALTER TRUNCATE",
        Anything,
        "tables stay as they are created",
    ),
    (
        "",
        ";",
        Among("CREATE"),
        "no ; comes after a block or after another ;",
    ),
    (
        "",
        "",
        Only("a block"),
        "COPY and JOURNAL have a block: <<, its lines, and a line that is >>",
    ),
    (
        "",
        "(",
        Among("an operator"),
        "the functions are LEFT, TEXTOF and CONTAINS",
    ),
    (
        "",
        "name",
        Among("a variable"),
        "a variable begins with a colon",
    ),
    (
        "",
        "end",
        Among(";"),
        "a ; ends each table, procedure and call",
    ),
];

/// What to say where no token begins with these bytes.
pub(crate) const SIGNS: &[(&str, &str)] = &[
    ("\"", "a text stands in single quotes"),
    (
        "'",
        "this text has no end on its line; a quote inside a text is doubled",
    ),
    ("!", "<> says that two values differ"),
    (":=", "SET gives a value by ="),
    (":", "a variable is a colon and a word directly after it"),
    ("<<", "<< begins a block, and the rest of its line is blank"),
    ("|", "two bars join texts"),
    ("&", "write AND"),
    ("@", "a variable begins with a colon"),
    ("#", "a comment begins with --"),
    ("`", "a name stands without quotes"),
    ("", "no token begins with this byte"),
];

/// What to say where these words are no columns.
pub(crate) const VALUES: &[(&str, &str)] = &[
    (
        "NULL DEFAULT",
        "there is no NULL: write a value, as 0 or ''",
    ),
    ("TRUE FALSE", "truth is a number: 1 or 0"),
    (
        "NOW CURRENT_TIMESTAMP CURRENT_DATE SYSDATE",
        "there is no clock: a CALL gives the time as a number",
    ),
];

/// What to say where a limit is passed.
pub(crate) const LIMITS: &[(&str, &str)] = &[
    (
        "depth",
        "at most 32 of (, BEGIN, IF and FOR are open at a time",
    ),
    (
        "stretch",
        "at most 1,000 tokens come in a row without ; or , or a block",
    ),
    ("name", "a name has at most 64 bytes"),
    ("literal", "a number is at most 9,223,372,036,854,775,807"),
    (
        "text",
        "a text has at most 4,000 bytes, and the n of TEXT(n) is from 1 to 4,000",
    ),
    ("tables", "a script has at most 64 tables"),
    ("procedures", "a script has at most 256 procedures"),
    (
        "columns",
        "a table, a row and a list of a statement have at most 32 columns, values or items",
    ),
    ("key", "a key has at most 8 columns"),
    ("parameters", "a procedure has at most 16 parameters"),
    ("variables", "a procedure declares at most 64 variables"),
    ("statements", "a procedure has at most 1,000 statements"),
    ("calls", "a script has at most 1,000,000 calls"),
    ("rows", "a ROWS argument has at most 1,000 rows"),
];

/// What to say of each other refusal.
pub(crate) const REFUSALS: &[(u32, &str)] = &[
    (1, "a script has at most 16,777,216 bytes"),
    (2, "a script has tabs, LF, CR and the bytes from 32 to 126"),
    (4, "no script goes on with this token"),
    (6, "nothing has this name"),
    (7, "this name is taken already"),
    (
        8,
        "an operand, a value, a condition, an OFFSET or a side of a comparison has another type than its place",
    ),
    (
        9,
        "a key column is never set: DELETE the row, and INSERT another",
    ),
    (
        10,
        "tables come first, then procedures, copies, calls, and one journal at the end",
    ),
    (
        11,
        "an INT is digits within 64 bits, with or without a - before them; a TEXT(n) has at most n bytes, each from 32 to 126",
    ),
    (
        12,
        "this record has another number of fields than its table has columns",
    ),
    (13, "an earlier row has this key"),
    (
        14,
        "the block has no end, which is a line with >> and nothing else",
    ),
    (
        15,
        "an event is B, S, C, A, X, M or R, a space and the number of a call, or G alone",
    ),
    (
        16,
        "calls begin in the order of the script, and all other events are of a live call; an S needs a statement left in its first round",
    ),
    (
        17,
        "a commit since its start hits this call: a repair A or a move M comes first",
    ),
    (
        18,
        "no commit since its start hits this call: it commits by C",
    ),
    (
        19,
        "A is for a call with a round left by --rounds, and X for one without",
    ),
    (20, "this call is stale: it moves by M first"),
    (
        21,
        "at the end of the journal this call has neither committed nor been answered",
    ),
    (
        23,
        "the table after REFERENCES has no row of this key; rows are numbered in the order of their keys, from 1",
    ),
    (24, "a READ ONLY procedure has no INSERT, UPDATE or DELETE"),
    (
        25,
        "a call of a READ ONLY procedure is answered by R, and any other one commits by C or X",
    ),
    (
        26,
        "the input of audit is the number of the script's bytes, in 1 to 8 digits, an LF, the script and a report: ./audit makes it of two files",
    ),
];
