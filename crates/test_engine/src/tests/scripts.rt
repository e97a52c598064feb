//! Scripts of each kind, with the expected reply to each statement. Written by hand from docs/LANGUAGE.md.
use std::alloc::{AllocError, Global};

/// The statements of a script in order, each up to its `;`, with their replies. The last one may have no `;`.
pub type Script = &'static [(&'static [u8], &'static str)];

/// The reply to a text that no `;` ends.
const UNFINISHED: &str = "REFUSED E12 unfinished statement\n";

const NOT_UTF8: &str = "REFUSED E11 not UTF-8\n";

/// Tables and queries, with a `;` in quotes and in a comment.
const TABLES: Script = &[
    (
        b"CREATE TABLE log (x INTEGER, t VARCHAR(9), s TIMESTAMP GENERATED ALWAYS AS ROW START, e TIMESTAMP
  GENERATED ALWAYS AS ROW END, PERIOD FOR SYSTEM_TIME (s, e)) WITH SYSTEM VERSIONING;",
        "CREATE TABLE\n",
    ),
    (
        b"\n-- the clock; it's set\nAT TIMESTAMP '2011-01-01 00:00:00';",
        "AT\n",
    ),
    (
        b"INSERT INTO log VALUES (7, 'it''s;'), (8, '\xc3\xa4--');",
        "INSERT 2\n",
    ),
    (
        b" SELECT x AS \"a;b\", t FROM log ORDER BY 1 DESC;",
        "\"a;b\"|T\n8|'ä--'\n7|'it''s;'\n(2 rows)\n",
    ),
    (b"DROP TABLE log;", "DROP TABLE\n"),
    (b" -- the end; ", ""),
];

/// Transactions, one of which is rolled back.
const TRANSACTIONS: Script = &[
    (b"CREATE TABLE t (x INTEGER);", "CREATE TABLE\n"),
    (b"START TRANSACTION;", "START TRANSACTION\n"),
    (b"INSERT INTO t VALUES (1), (2);", "INSERT 2\n"),
    (b"COMMIT WORK;", "COMMIT\n"),
    (b"START TRANSACTION;", "START TRANSACTION\n"),
    (b"DELETE FROM t WHERE x = 1;", "DELETE 1\n"),
    (b"SELECT COUNT(*) FROM t;", "C1\n1\n(1 rows)\n"),
    (b"ROLLBACK;", "ROLLBACK\n"),
    (b"UPDATE t SET x = x + 1;", "UPDATE 2\n"),
    (b"SELECT * FROM t;", "X\n2\n3\n(2 rows)\n"),
    (b"COMMIT;", "REFUSED E40 not in this transaction state\n"),
    (b"SELECT x FROM", UNFINISHED),
];

/// Portions, keys and references.
const PORTIONS: Script = &[
    (
        b"CREATE TABLE p (k INTEGER, PRIMARY KEY (k));",
        "CREATE TABLE\n",
    ),
    (
        b"CREATE TABLE r (k INTEGER, a DATE, b DATE, PERIOD FOR ep (a, b), PRIMARY KEY (k, ep WITHOUT OVERLAPS),
  FOREIGN KEY (k) REFERENCES p (k));",
        "CREATE TABLE\n",
    ),
    (b"INSERT INTO p VALUES (1);", "INSERT 1\n"),
    (
        b"INSERT INTO r VALUES (1, DATE '2011-01-01', DATE '2011-02-01');",
        "INSERT 1\n",
    ),
    (
        b"INSERT INTO r VALUES (1, DATE '2011-01-31', DATE '2011-03-01');",
        "REFUSED E35 duplicate key\n",
    ),
    (
        b"INSERT INTO r VALUES (2, DATE '2011-01-01', DATE '2011-02-01');",
        "REFUSED E36 reference not met\n",
    ),
    (
        b"DELETE FROM r FOR PORTION OF ep FROM DATE '2011-01-10' TO DATE '2011-01-20';",
        "DELETE 1\n",
    ),
    (
        b"SELECT * FROM r;",
        "K|A|B\n1|2011-01-01|2011-01-10\n1|2011-01-20|2011-02-01\n(2 rows)\n",
    ),
    (b"DELETE FROM p;", "REFUSED E36 reference not met\n"),
    (b"\n\t", ""),
];

/// Refusals of each stage: bytes, nesting, form, width, transaction, tables, names, kinds, forms, values, rows.
const REFUSALS: Script = &[
    (b"SELECT '\xff' FROM t;", NOT_UTF8),
    (
        b"SELECT (((((((((((((((((((((((((((((((((((((((((((((((((((((((((((((((((x FROM t;",
        "REFUSED E14 nested too deep\n",
    ),
    (b"DROP t;", "REFUSED E10 not a statement\n"),
    (
        b"SELECT 1 FROM t,t,t,t,t,t,t,t,t;",
        "REFUSED E15 too many columns or tables\n",
    ),
    (b"ROLLBACK;", "REFUSED E40 not in this transaction state\n"),
    (
        b"DROP TABLE t;",
        "REFUSED E20 table unknown or already there\n",
    ),
    (
        b"CREATE TABLE t (x INTEGER NOT NULL, CHECK (x < 9));",
        "CREATE TABLE\n",
    ),
    (
        b"SELECT y FROM t;",
        "REFUSED E21 name unknown, ambiguous or repeated\n",
    ),
    (
        b"INSERT INTO t VALUES ('1');",
        "REFUSED E22 types do not fit\n",
    ),
    (
        b"SELECT x FROM t WHERE COUNT(*) > 1;",
        "REFUSED E23 form not allowed here\n",
    ),
    (
        b"INSERT INTO t VALUES (9223372036854775808);",
        "REFUSED E30 value out of range\n",
    ),
    (
        b"INSERT INTO t VALUES (NULL);",
        "REFUSED E32 null not allowed\n",
    ),
    (b"INSERT INTO t VALUES (9);", "REFUSED E34 check failed\n"),
    (b"\xc3", NOT_UTF8),
];

/// A quoted text that is never closed, so everything after it belongs to it.
const OPEN: Script = &[
    (b"CREATE TABLE t (x INTEGER);", "CREATE TABLE\n"),
    (
        b" --\n SELECT 'it''s; DROP TABLE t; -- \nSELECT * FROM t;",
        UNFINISHED,
    ),
];

/// The scripts.
pub static SCRIPTS: [Script; 5] = [TABLES, TRANSACTIONS, PORTIONS, REFUSALS, OPEN];

/// Returns the bytes of a script from a statement on.
pub fn bytes_from(alloc: Global, script: Script, first: usize) -> Result<Vec<u8>, AllocError> {
    let mut bytes = Vec::new(alloc);
    for (statement, _) in script.iter().skip(first) {
        bytes.extend_from_slice(statement)?;
    }
    Ok(bytes)
}

/// Returns the replies to a script from a statement on.
pub fn text_from(alloc: Global, script: Script, first: usize) -> Result<Vec<u8>, AllocError> {
    let mut text = Vec::new(alloc);
    for (_, reply) in script.iter().skip(first) {
        text.extend_from_slice(reply.as_bytes())?;
    }
    Ok(text)
}

/// Whether a text contains more than blanks and comments.
fn has_text(rest: &[u8]) -> bool {
    let mut is_comment = false;
    for (at, byte) in rest.iter().enumerate() {
        if is_comment {
            is_comment = *byte != b'\n';
        } else if *byte == b'-' && rest.get(at.saturating_add(1)) == Some(&b'-') {
            is_comment = true;
        } else if !b" \t\r\n".contains(byte) {
            return true;
        }
    }
    false
}

/// Returns the reply to a text that no `;` ends; empty if it is only blanks and comments.
fn rest_text(rest: &[u8]) -> &'static str {
    match str::from_utf8(rest) {
        _ if !has_text(rest) => "",
        Ok(_) => UNFINISHED,
        Err(_) => NOT_UTF8,
    }
}

/// The replies to a prefix of a script.
#[derive(Drop)]
pub struct Cut {
    /// The replies to the complete statements, and the number of these statements.
    pub text: Vec<u8>,
    pub count: usize,
    /// The reply to the rest if the input ends there.
    pub rest: &'static str,
}

/// Returns the replies to the first `length` bytes of a script.
pub fn cut_at(alloc: Global, script: Script, length: usize) -> Result<Cut, AllocError> {
    let mut cut = Cut {
        text: Vec::new(alloc),
        count: 0,
        rest: "",
    };
    let mut left = length;
    for (statement, reply) in script.iter() {
        if left < statement.len() || !statement.ends_with(b";") || *reply == UNFINISHED {
            cut.rest = rest_text(statement.get(..left).unwrap_or(statement));
            return Ok(cut);
        }
        cut.text.extend_from_slice(reply.as_bytes())?;
        cut.count = cut.count.saturating_add(1);
        left = left.saturating_sub(statement.len());
    }
    Ok(cut)
}

/// Returns the same, with the reply to the rest if the input ends there.
pub fn cut_with_rest(alloc: Global, script: Script, length: usize) -> Result<Cut, AllocError> {
    let mut cut = cut_at(alloc, script, length)?;
    let rest = cut.rest;
    cut.text.extend_from_slice(rest.as_bytes())?;
    Ok(cut)
}

/// Returns the number of replies that are complete in the first `length` bytes of the replies to a script.
pub fn replies_in(script: Script, length: usize) -> usize {
    let mut left = length;
    let mut count = 0usize;
    for (_, reply) in script.iter() {
        if left < reply.len() {
            return count;
        }
        left = left.saturating_sub(reply.len());
        count = count.saturating_add(1);
    }
    count
}
