//! Random scripts of two tables, in some with REFERENCES, with procedures that read and write a few rows, and a READ ONLY one.

use mv_values::list::List;
use mv_values::memory::NoMemory;
use rand_core::Rng;
use rand_xoshiro::SplitMix64;
use std::alloc::Global;

/// Two tables, and their copies: without REFERENCES, with it in one table, to the same table, and in a circle.
const TABLES: &[(&[u8], &[u8])] = &[
    (
        b"CREATE TABLE t (k INT, n INT, m INT, PRIMARY KEY (k));
CREATE TABLE u (k INT, n INT, PRIMARY KEY (k));
",
        b"COPY t <<
1,#,0
2,#,0
3,#,0
4,#,0
>>
COPY u <<
1,#
2,#
>>
",
    ),
    (
        b"CREATE TABLE t (k INT, n INT, m INT, PRIMARY KEY (k));
CREATE TABLE u (k INT, n INT REFERENCES t, PRIMARY KEY (k));
",
        b"COPY t <<
1,#,0
2,#,0
3,#,0
4,#,0
>>
COPY u <<
1,!
2,!
>>
",
    ),
    (
        b"CREATE TABLE t (k INT, n INT REFERENCES t, m INT, PRIMARY KEY (k));
CREATE TABLE u (k INT, n INT, PRIMARY KEY (k));
",
        b"COPY t <<
1,!,0
2,!,0
3,!,0
4,!,0
>>
COPY u <<
1,#
2,#
>>
",
    ),
    (
        b"CREATE TABLE t (k INT, n INT REFERENCES u, m INT, PRIMARY KEY (k));
CREATE TABLE u (k INT, n INT REFERENCES t, PRIMARY KEY (k));
",
        b"COPY t <<
1,\",0
2,\",0
3,\",0
4,\",0
>>
COPY u <<
1,!
2,!
>>
",
    ),
];

/// Four procedures.
const PROCEDURES: &[u8] =
    b"CREATE PROCEDURE p0(:a INT, :x INT) DECLARE :b = 0; DECLARE :c = 0; BEGIN % PRINT :b, :c; END;
CREATE PROCEDURE p1(:a INT, :x INT) DECLARE :b = 0; DECLARE :c = 0; BEGIN % PRINT :b, :c; END;
CREATE PROCEDURE p2(:a INT, :x INT) DECLARE :b = 0; DECLARE :c = 0; BEGIN % PRINT :b, :c; END;
CREATE PROCEDURE p3(:a INT, :x INT) READ ONLY DECLARE :b = 0; DECLARE :c = 0; BEGIN { PRINT :b, :c; END;
";

/// The texts for `|`: calls.
const CALLS: &[&[u8]] = &[b"~~~", b"~~~~", b"~~~~~", b"~~~~~~"];

/// The texts for `~`: a call.
const CALL: &[&[u8]] = &[
    b"CALL p0(!, #);\n",
    b"CALL p1(!, #);\n",
    b"CALL p2(!, #);\n",
    b"CALL p3(!, #);\n",
];

/// The texts for `%`: the body of a procedure.
const BODIES: &[&[u8]] = &[b"$$$$$", b"$$$$$$", b"$$$$$$$", b"$$$$$$$$"];

/// The texts for `{`: the body of a READ ONLY procedure.
const READING_BODIES: &[&[u8]] = &[b"[[[", b"[[[[", b"[[[[["];

/// The texts for `[`: a statement that changes no table.
const READING: &[&[u8]] = &[
    b"SELECT n INTO :b FROM t WHERE k = :a; ",
    b"SELECT m, n INTO :b, :c FROM t WHERE k > :b OFFSET 1; ",
    b"SELECT SUM(n) INTO :c FROM t WHERE k >= :a; ",
    b"SELECT COUNT(*) INTO :c FROM u WHERE n < :x; ",
    b"IF ^ THEN SELECT n INTO :c FROM u WHERE k = :x; ELSE SET :c = :b; END IF; ",
    b"IF :b > 9 THEN ROLLBACK 'much'; END IF; ",
    b"FOR :r IN SELECT k, n FROM t WHERE n >= :x DO SET :b = :b + :r.n; PRINT :r.k; END FOR; ",
];

/// The texts for `$`: a FOR, an IF, or another statement.
const STATEMENTS: &[&[u8]] = &[
    b"&",
    b"&",
    b"&",
    b"&",
    b"&",
    b"&",
    b"FOR :r IN SELECT k, n FROM t WHERE n >= :x DO @@END FOR; ",
    b"&",
    b"&",
    b"&",
    b"&",
    b"&",
    b"&",
    b"FOR :r IN SELECT k, n FROM t WHERE k <= 2 ORDER BY n DO @@END FOR; ",
    b"&",
    b"&",
    b"&",
    b"&",
    b"&",
    b"&",
    b"FOR :r IN SELECT DISTINCT n, k FROM u WHERE k <> :a DO @@END FOR; ",
];

/// The texts for `&`: an IF, or another statement.
const BRANCHES: &[&[u8]] = &[
    b"?",
    b"?",
    b"?",
    b"IF ^ THEN ?END IF; ",
    b"IF ^ THEN ??ELSE ?END IF; ",
];

/// The texts for `@`: an IF in a FOR, or another statement.
const BRANCHES_IN_LOOP: &[&[u8]] = &[
    b"`",
    b"`",
    b"`",
    b"IF ^ THEN `END IF; ",
    b"IF ^ THEN `ELSE `END IF; ",
];

/// The texts for `^`: a condition.
const CONDITIONS: &[&[u8]] = &[
    b":b > :c",
    b":found",
    b":c = 0",
    b":b < :x AND :a > 1",
    b"NOT :found",
];

/// The texts for `?`: a statement without others.
const PLAIN: &[&[u8]] = &[
    b"SELECT n INTO :b FROM t WHERE k = :a; ",
    b"SELECT n INTO :c FROM t WHERE n >= :x ORDER BY n DESC; ",
    b"SELECT m, n INTO :b, :c FROM t WHERE k > :b OFFSET 1; ",
    b"SELECT COUNT(*) INTO :b FROM t WHERE n > :x; ",
    b"SELECT COUNT(*) INTO :c FROM t WHERE n >= 1; ",
    b"SELECT SUM(m) INTO :c FROM t WHERE k >= :a; ",
    b"SELECT MAX(n) INTO :b FROM u WHERE n < 9; ",
    b"SELECT n INTO :c FROM u WHERE k = :x; ",
    b"SET :b = :b + :x; ",
    b"SET :c = :b * 2 - :c; ",
    b"SET :c = :found; ",
    b"UPDATE t SET n = :b WHERE k = :a; ",
    b"UPDATE t SET n = :x WHERE k = :a; ",
    b"UPDATE t SET m = m + 1 WHERE n > :x; ",
    b"UPDATE t SET n = n + 1, m = :c WHERE k = 1; ",
    b"UPDATE u SET n = :c WHERE k = :a; ",
    b"DELETE FROM t WHERE k = :x; ",
    b"DELETE FROM u WHERE n = :b; ",
    b"INSERT INTO t VALUES (:x + 4, :b, :c); ",
    b"INSERT INTO u VALUES (:a + 2, :x); ",
    b"PRINT :b, :c; ",
    b"PRINT :c; ",
    b"PRINT :found; ",
    b"IF :b > 9 THEN ROLLBACK 'much'; END IF; ",
];

/// The texts for a back quote: a statement in a FOR.
const IN_LOOP: &[&[u8]] = &[
    b"?",
    b"?",
    b"?",
    b"?",
    b"SET :b = :b + :r.n; ",
    b"UPDATE t SET m = :r.n WHERE k = :r.k; ",
    b"UPDATE u SET n = n + :b WHERE k = :r.k; ",
    b"DELETE FROM t WHERE k = :r.n; ",
    b"INSERT INTO u VALUES (:r.k + 3, :r.n); ",
    b"PRINT :r.k, :r.n, :b; ",
    b"SELECT n INTO :c FROM u WHERE k = :r.k; ",
    b"FOR :q IN SELECT k FROM u WHERE n = :r.k DO SET :c = :c + :q.k; END FOR; ",
    b"FOR :q IN SELECT n FROM t WHERE k < :r.n DO PRINT :q.n; UPDATE t SET n = :c WHERE k = :q.n; END FOR; ",
];

/// The texts for `!`: a key.
const KEYS: &[&[u8]] = &[b"1", b"2", b"3"];

/// The texts for `"`: a key of the second table.
const OTHER_KEYS: &[&[u8]] = &[b"1", b"2"];

/// The texts for `#`: a number.
const NUMBERS: &[&[u8]] = &[b"0", b"1", b"2", b"3", b"4"];

/// The letters that stand for texts, and these texts.
const LETTERS: &[(u8, &[&[u8]])] = &[
    (b'|', CALLS),
    (b'~', CALL),
    (b'%', BODIES),
    (b'{', READING_BODIES),
    (b'[', READING),
    (b'$', STATEMENTS),
    (b'&', BRANCHES),
    (b'@', BRANCHES_IN_LOOP),
    (b'^', CONDITIONS),
    (b'?', PLAIN),
    (b'`', IN_LOOP),
    (b'!', KEYS),
    (b'"', OTHER_KEYS),
    (b'#', NUMBERS),
];

/// Returns the texts that a letter stands for. There are none if it stands for itself.
fn texts_of(letter: u8) -> &'static [&'static [u8]] {
    for (from, texts) in LETTERS {
        if *from == letter {
            return texts;
        }
    }
    &[]
}

/// Returns a random byte.
pub(crate) fn byte(random: &mut SplitMix64) -> u8 {
    (random.next_u64() % 256) as u8
}

/// Returns a text with one of its texts for each letter.
fn expanded(alloc: Global, random: &mut SplitMix64, text: &[u8]) -> Result<List<u8>, NoMemory> {
    let mut all = List::new(alloc);
    for letter in text {
        let texts = texts_of(*letter);
        match texts.get(byte(random) as usize % texts.len().max(1)) {
            Some(text) => all.append(text)?,
            None => all.push(*letter)?,
        }
    }
    Ok(all)
}

/// Returns a script of three to six calls.
pub(crate) fn any_script(alloc: Global, random: &mut SplitMix64) -> Result<List<u8>, NoMemory> {
    let mut text = List::new(alloc);
    if let Some((tables, copies)) = TABLES.get(byte(random) as usize % TABLES.len().max(1)) {
        text.append(tables)?;
        text.append(PROCEDURES)?;
        text.append(copies)?;
        text.push(b'|')?;
    }
    for _ in 0..7 {
        text = expanded(alloc, random, text.as_slice())?;
    }
    Ok(text)
}
