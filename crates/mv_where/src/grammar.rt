//! The grammar, as data.

/// The parts of a script, each with its alternatives and with what stands for them where it is told what may go on.
///
/// In an alternative a word in capitals and a sign are themselves, and another word is a part, or one of these tokens: a
/// `table`, `parent` (a table after REFERENCES), `column`, `procedure`, `field` (a loop's column) or `bare` (a column in an
/// expression) is a name; a `new`, `target`, `read` or `looped` (gone over) is a variable; and there are `number`, `text`,
/// `block`, `operator` and `comparison`. An alternative begins with a token, but for the last one, which is taken where no other fits.
pub(crate) const GRAMMAR: &[(&str, &str, &[&str])] = &[
    (
        "script",
        "",
        &[
            "CREATE created script",
            "COPY table block script",
            "CALL procedure ( arguments script",
            "JOURNAL block script",
            "",
        ],
    ),
    (
        "created",
        "",
        &[
            "TABLE table ( column type refers , columns opening",
            "PROCEDURE procedure ( parameters kind",
        ],
    ),
    (
        "columns",
        "",
        &[
            "PRIMARY KEY ( column keys )",
            "column type refers , columns",
        ],
    ),
    ("refers", "", &["REFERENCES parent", ""]),
    ("keys", "", &[", column keys", ")"]),
    ("opening", "", &["VALUES row rows", ";"]),
    ("rows", "", &[", row rows", ";"]),
    ("row", "", &["( literal literals"]),
    ("literals", "", &[", literal literals", ")"]),
    ("literal", "a literal", &["- number", "number", "text"]),
    ("type", "", &["INT", "TEXT ( number )"]),
    ("parameters", "", &["new sort parameters_on", ")"]),
    ("parameters_on", "", &[", new sort parameters_on", ")"]),
    ("sort", "", &["ROWS ( column type row_columns", "type"]),
    ("row_columns", "", &[", column type row_columns", ")"]),
    ("kind", "", &["READ ONLY body", "body"]),
    (
        "body",
        "",
        &["DECLARE new = literal ; body", "BEGIN statements END ;"],
    ),
    ("arguments", "", &[") ;", "argument arguments_on"]),
    ("arguments_on", "", &[", argument arguments_on", ") ;"]),
    ("argument", "", &["ROWS ( argument_rows", "literal"]),
    ("argument_rows", "", &[")", "row argument_rows_on"]),
    ("argument_rows_on", "", &[", row argument_rows_on", ")"]),
    (
        "statements",
        "a statement",
        &[
            "SET target = expression ; statements",
            "SELECT selected statements",
            "FOR new IN source DO statements END FOR ; statements",
            "IF expression THEN statements otherwise END IF ; statements",
            "INSERT INTO table VALUES ( expression values ; statements",
            "UPDATE table SET column = expression assignments where ; statements",
            "DELETE FROM table where ; statements",
            "PRINT expression printed ; statements",
            "ROLLBACK text ; statements",
            "",
        ],
    ),
    (
        "selected",
        "",
        &[
            "COUNT ( counted ) total",
            "SUM ( column ) total",
            "MIN ( column ) total",
            "MAX ( column ) total",
            "column columns_on INTO target targets FROM table where order offset ;",
        ],
    ),
    ("counted", "", &["*", "DISTINCT column"]),
    ("total", "", &["INTO target FROM table where ;"]),
    ("columns_on", "", &[", column columns_on", ""]),
    ("targets", "", &[", target targets", ""]),
    ("offset", "", &["OFFSET expression", ""]),
    ("source", "", &["SELECT source_rows", "looped"]),
    (
        "source_rows",
        "",
        &[
            "DISTINCT column columns_on FROM table where",
            "column columns_on FROM table where order",
        ],
    ),
    ("otherwise", "", &["ELSE statements", ""]),
    ("values", "", &[", expression values", ")"]),
    (
        "assignments",
        "",
        &[", column = expression assignments", ""],
    ),
    ("printed", "", &[", expression printed", ""]),
    ("where", "", &["WHERE test tests", ""]),
    ("test", "", &["column comparison operand sum"]),
    ("tests", "", &["AND test tests", ""]),
    ("sum", "an operator", &["operator operand sum", ""]),
    ("order", "", &["ORDER BY column direction orders", ""]),
    ("direction", "", &["ASC", "DESC", ""]),
    ("orders", "", &[", column direction orders", ""]),
    (
        "expression",
        "an expression",
        &["NOT expression", "operand tail"],
    ),
    (
        "operand",
        "an expression",
        &[
            "- operand",
            "number",
            "text",
            "read dotted",
            "bare",
            "( expression )",
            "LEFT ( expression , expression )",
            "TEXTOF ( expression )",
            "CONTAINS ( expression , expression )",
        ],
    ),
    ("dotted", "an operator", &[". field", ""]),
    (
        "tail",
        "an operator",
        &[
            "operator operand tail",
            "comparison operand compared",
            "AND expression",
            "OR expression",
            "",
        ],
    ),
    (
        "compared",
        "an operator",
        &[
            "operator operand compared",
            "AND expression",
            "OR expression",
            "",
        ],
    ),
];

pub(crate) const OPERATORS: &str = "+ - * / % ||";

pub(crate) const COMPARISONS: &str = "= <> < <= > >=";

/// The words that begin an item, and are nowhere else.
pub(crate) const ITEMS: &str = "CREATE COPY CALL JOURNAL";

/// The words that are no names.
pub(crate) const KEYWORDS: &[&str] = &[
    "AND ASC BEGIN BY CALL CONTAINS COPY COUNT CREATE DECLARE DELETE DESC DISTINCT DO ELSE END FOR",
    "FROM IF IN INDEX INSERT INT INTO JOURNAL KEY LEFT MAX MIN NOT OFFSET ONLY OR ORDER PRIMARY PRINT",
    "PROCEDURE READ REFERENCES ROLLBACK ROWS SELECT SET SUM TABLE TEXT TEXTOF THEN UPDATE VALUES WHERE",
];
