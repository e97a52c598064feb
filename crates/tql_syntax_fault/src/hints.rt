//! Habits from other systems, and what to write instead: one table, in four parts.
//!
//! A hint is help only: no clause mentions it, and a statement with a hint stays refused. It is found by the tokens
//! before the place where reading stopped and by the text from there on. The first hint that fits is shown, so a
//! special case comes before the general one.
//!
//! One rule holds for every hint: none replaces a statement that keeps all rows by one that changes or deletes rows. If
//! nothing here does the same, the hint says what is missing. If the advice reaches further, the hint says so.
use crate::matching::{begin_alike, end_with, fits, is_near, is_plain};
use tql_lex::token::Token;

/// A habit: the tokens before the place where reading stopped, the beginning of the text from there on, and the hint.
///
/// The tokens before the place are words and symbols in upper case, separated by single blanks; the last one is next to
/// the place. `^` is the beginning of the statement, `_` any name, `#` any number, `'` any text in quotes. A token in
/// front of `..` may be anywhere before the others. The text from the place on begins with tokens, a name `_`, or
/// characters with which no token begins; there `^` is the end of the statement. If one of the two is empty, anything
/// fits.
struct Hint(&'static str, &'static str, &'static str);

const ALL_MOMENTS: &str = "write BETWEEN, with the first and the last moment";

const ALL_ROWS: &str = "there is no limit: see RECIPES, The first rows";

const A_COMMA: &str = "write a comma in place of AND";

const AT_ONCE: &str = "leave it out: each statement is checked at once";

const BETWEEN_AND: &str = "write AND in place of TO: BETWEEN includes both ends";

const BOUNDS: &str = "AND and the upper bound are missing";

const CENTS: &str = "write BIGINT, in the smallest unit: whole cents";

const FOREIGN: &str = "write FOREIGN KEY (x) REFERENCES t (x)";

const FROM_TO: &str = "write FROM .. TO ..: the second point is not included";

const FROM_SELECT: &str = "write CREATE TABLE, then INSERT from SELECT";

const INSERT_MISSING: &str = "write UPDATE, then INSERT what is missing";

const IN_LIST: &str = "write the values in parentheses";

const IN_PERIOD: &str = "for a period write its name first, then CONTAINS";

const IN_KEY: &str = "write a key, as UNIQUE (x), in CREATE TABLE";

const LAST_COMMA: &str = "leave the comma before it out";

const LISTED: &str = "write the columns in parentheses";

const LEAVE: &str = "press Ctrl-D to leave";

const LENGTH: &str = "write VARCHAR(n), with n up to 65,535";

const MISSING_KEYS: &str = "there is no ON CONFLICT: INSERT only rows with new keys";

pub(crate) const DAY: &str = "write DATE 'YYYY-MM-DD'";

pub(crate) const MOMENT: &str = "write a moment: TIMESTAMP 'YYYY-MM-DD HH:MM:SS'";

const NAMES: &str = "write names in double quotes";

const NOTHING_OUTLASTS: &str = "write CREATE TABLE: nothing outlasts the run";

const NO_ACTION: &str = "only NO ACTION is supported";

const NO_ALIAS: &str = "a changed table takes no other name";

const NO_BOOLEAN: &str = "write INTEGER, with 0 and 1";

const NO_CASE: &str = "there is no CASE: choose in your program";

const NO_CLOCK: &str = "there is no clock to read: write DATE '..' or TIMESTAMP '..'";

const NO_INDEX: &str = "leave it out: keys and references are indexed";

const NO_JOINED_TEXT: &str = "there is no operator for texts: join them in your program";

const NO_LENGTH: &str = "leave the length out";

const NO_LIMIT: &str = "there is no LIMIT: choose the rows by WHERE";

const NO_LISTING: &str = "there is no list of tables and columns";

const NO_PARTITIONS: &str = "leave it out: there are no partitions";

const NO_PATTERN: &str = "there is no pattern match: filter in your program";

const NO_POINT: &str = "a point is no period: write CONTAINS";

const NO_PORTION: &str = "write WHERE, and that the period CONTAINS the day";

const NO_PREPARED: &str = "there are no prepared statements";

const NO_QUOTIENT: &str = "there is no division: see RECIPES, Averages";

const NO_SUBQUERY: &str = "write a join, or several queries";

const NO_USERS: &str = "there are no users";

const NO_VARIABLE: &str = "there are no variables: write the value";

const NO_VIEW: &str = "write the query itself";

const NO_ZONES: &str = "write TIMESTAMP alone: there are no time zones";

const NULL_APART: &str = "write OR x IS NULL";

const NUMBERS: &str = "write the number in each INSERT";

const ON_MISSING: &str = "ON and a condition are missing (CROSS JOIN has none)";

const ONLY_ROW: &str = "only ROW START and ROW END are generated";

const ONLY_SQL: &str = "only SQL statements are read here";

const ORDERED: &str = "write columns by name; ORDER BY also takes a position";

const OWN_TABLE: &str = "UPDATE reads its own table only";

const PERIOD_BEFORE: &str = "write PERIOD before the parenthesis";

pub(crate) const POINT: &str = "write DATE '..' or TIMESTAMP '..'";

const PRIMARY: &str = "write it after a comma: PRIMARY KEY (x)";

const PRUNING: &str = "write PRUNE HISTORY BEFORE TIMESTAMP '..', for all tables";

const READER_MISSING: &str = "the name of the reader is missing";

const ROW_LISTED: &str = "write each row in parentheses";

const ROW_END: &str = "write GENERATED ALWAYS AS ROW END";

const SERIAL: &str = "write INTEGER, and the number in each INSERT";

const SHOWN: &str = "leave it out: every column is shown";

const SPAN_FIRST: &str = "write it before the table's other name";

const STRAIGHT: &str = "write straight quotes: 'text'";

const SYSTEM: &str = "write PERIOD FOR SYSTEM_TIME (s, e)";

const TO_MISSING: &str = "TO and the second point are missing";

const TWO_QUERIES: &str =
    "write two queries: a LEFT JOIN, and the other table's rows without a partner";

const TYPES: &str = "the types are INTEGER, VARCHAR(n), DATE and TIMESTAMP";

const UNLISTED: &str = "leave the parentheses out";

const UNORDERED: &str = "leave ORDER BY out: it has no effect here";

const VALUES_MISSING: &str = "VALUES is missing before the parenthesis";

const WHOLE: &str = "only the whole transaction can be rolled back";

const WRITE_COLUMNS: &str = "write the columns";

/// The habits of whole statements.
static STATEMENTS: &[Hint] = &[
    // The beginning of a statement.
    Hint("^", "\u{feff}", "remove the byte order mark"),
    Hint("^", "BEGIN", "write START TRANSACTION"),
    Hint("^", "END", "write COMMIT"),
    Hint("^ START", "", "write START TRANSACTION"),
    Hint("^ COMMIT", "", "write COMMIT or COMMIT WORK"),
    Hint("^ ROLLBACK", "TO", WHOLE),
    Hint("^ ROLLBACK WORK", "TO", WHOLE),
    Hint("^ ROLLBACK", "", "write ROLLBACK or ROLLBACK WORK"),
    Hint("^", "SAVEPOINT", WHOLE),
    Hint("^", "RELEASE", WHOLE),
    Hint("^", "SHOW", NO_LISTING),
    Hint("^", "DESCRIBE", NO_LISTING),
    Hint("^", "DESC", NO_LISTING),
    Hint("^", "EXPLAIN", "run tql with --plans"),
    Hint("^", "SET", "there are no settings"),
    Hint("^", "PREPARE", NO_PREPARED),
    Hint("^", "EXECUTE", NO_PREPARED),
    Hint("^", "DEALLOCATE", NO_PREPARED),
    Hint("^", "DECLARE", NO_VARIABLE),
    Hint("^", "HELP", "read docs/LANGUAGE.md"),
    Hint("^", "QUIT", LEAVE),
    Hint("^", "EXIT", LEAVE),
    Hint("^", ".", ONLY_SQL),
    Hint("^", "\\", ONLY_SQL),
    Hint("^", "ALTER", "create a new table, and INSERT from a SELECT"),
    Hint("^", "TRUNCATE", "write DELETE FROM"),
    Hint("^", "MERGE", "write UPDATE and INSERT in one transaction"),
    Hint("^", "REPLACE", "write DELETE and INSERT in one transaction"),
    Hint("^", "WITH", NO_SUBQUERY),
    Hint(
        "^",
        "PRAGMA",
        "there are no settings, and no list of columns",
    ),
    Hint("^", "VALUES", "VALUES is a part of INSERT only"),
    Hint("^", "GRANT", NO_USERS),
    Hint("^", "REVOKE", NO_USERS),
    Hint("^ OPEN", "_", "write OPEN READER and a name"),
    Hint("^ CLOSE", "_", "write CLOSE READER and a name"),
    Hint("^ OPEN READER", "", READER_MISSING),
    Hint("^ CLOSE READER", "", READER_MISSING),
    Hint("^ READ", "", READER_MISSING),
    Hint("^ READ _", "", "write a query after the name of the reader"),
    Hint("^ AT", "", MOMENT),
    Hint("^ PRUNE HISTORY BEFORE", "", MOMENT),
    Hint("^ PRUNE", "", PRUNING),
    Hint("^ PRUNE HISTORY", "", PRUNING),
    // DELETE, INSERT, UPDATE and DROP.
    Hint("^ DELETE", "HISTORY", PRUNING),
    Hint("^ DELETE", "_", "write DELETE FROM"),
    Hint("^ DELETE", "*", "write DELETE FROM"),
    Hint("", "RETURNING", "write a SELECT after it"),
    Hint("DELETE ..", "USING", "DELETE reads its own table only"),
    Hint("DELETE ..", "LIMIT", NO_LIMIT),
    Hint("UPDATE ..", "LIMIT", NO_LIMIT),
    Hint("^ DELETE FROM _", "AS", NO_ALIAS),
    Hint("^ DELETE FROM _", "_", NO_ALIAS),
    Hint("^ UPDATE _", "AS", NO_ALIAS),
    Hint("^ UPDATE", "SET", "the table is missing before SET"),
    Hint("^ UPDATE _", "_ =", "SET is missing before the column"),
    Hint("^ UPDATE _", "_", NO_ALIAS),
    Hint("^ UPDATE _", "JOIN", OWN_TABLE),
    Hint("FOR PORTION", "", "write FOR PORTION OF, then the period"),
    Hint("PORTION OF _", "BETWEEN", FROM_TO),
    Hint("PORTION OF _", "(", FROM_TO),
    Hint("PORTION OF _ FROM DATE '", "", TO_MISSING),
    Hint("PORTION OF _ FROM TIMESTAMP '", "", TO_MISSING),
    Hint(
        "UPDATE ..",
        "FOR PORTION",
        "write FOR PORTION OF before SET",
    ),
    Hint(
        "DELETE ..",
        "FOR PORTION",
        "write FOR PORTION OF before WHERE",
    ),
    Hint("SET", "(", "write SET x = .., one column at a time"),
    Hint("SET _ = '", "AND", A_COMMA),
    Hint("SET _ = #", "AND", A_COMMA),
    Hint("SET _ = _", "AND", A_COMMA),
    Hint("UPDATE ..", "FROM", OWN_TABLE),
    Hint("^ INSERT", "", "write INSERT INTO"),
    Hint("^ INSERT INTO _", "SET", "write the columns, then VALUES"),
    Hint("^ INSERT INTO _ (", "SELECT", UNLISTED),
    Hint("^ INSERT INTO _ (", "#", VALUES_MISSING),
    Hint("^ INSERT INTO _ (", "'", VALUES_MISSING),
    Hint("INSERT .. )", "( SELECT", UNLISTED),
    Hint("VALUES .. )", "(", "a comma is missing between the rows"),
    Hint("INSERT .. )", "(", VALUES_MISSING),
    Hint("VALUES", "#", ROW_LISTED),
    Hint("VALUES", "'", ROW_LISTED),
    Hint("VALUES", "_", ROW_LISTED),
    Hint("VALUES ..", "PERIOD", "write the two ends, as two values"),
    Hint(
        "VALUES .. ) ,",
        "^",
        "a row is missing, or leave the last comma out",
    ),
    Hint("INSERT ..", "ON DUPLICATE", INSERT_MISSING),
    Hint("INSERT ..", "ON CONFLICT", MISSING_KEYS),
    Hint("INSERT ..", "ORDER", UNORDERED),
    Hint("INSERT ..", "WITH", NO_SUBQUERY),
    Hint("^ DROP TABLE _", ",", "write one DROP TABLE for each table"),
    Hint("^ DROP TABLE _", "CASCADE", "leave CASCADE out"),
    Hint("IF", "NOT", "leave IF NOT EXISTS out"),
    Hint("IF", "EXISTS", "leave IF EXISTS out"),
];

/// The habits of CREATE TABLE and its columns.
static TABLES: &[Hint] = &[
    // CREATE.
    Hint("^ CREATE", "OR REPLACE VIEW", NO_VIEW),
    Hint("^ CREATE", "OR", "leave OR REPLACE out"),
    Hint("^ CREATE", "VIEW", NO_VIEW),
    Hint("^ CREATE", "MATERIALIZED", NO_VIEW),
    Hint("^ CREATE", "UNIQUE", IN_KEY),
    Hint("^ CREATE", "INDEX", IN_KEY),
    Hint("^ CREATE", "TEMPORARY", NOTHING_OUTLASTS),
    Hint("^ CREATE", "TEMP", NOTHING_OUTLASTS),
    Hint("^ CREATE TABLE _", "LIKE", WRITE_COLUMNS),
    Hint("CREATE .. (", "LIKE", WRITE_COLUMNS),
    Hint("CHECK ..", "SELECT", "a CHECK reads its own row only"),
    Hint("CREATE .. (", "SELECT", WRITE_COLUMNS),
    Hint("^ CREATE TABLE _", "AS", FROM_SELECT),
    Hint("^ CREATE TABLE _", "_", LISTED),
    Hint("CREATE .. )", "AS SELECT", FROM_SELECT),
    // The columns of a table.
    Hint("ALWAYS AS", "IDENTITY", NUMBERS),
    Hint("AS ROW", "BEGIN", "write ROW START"),
    Hint("AS ROW", "", "write ROW START or ROW END"),
    Hint("GENERATED", "", ONLY_ROW),
    Hint("ALWAYS AS", "", ONLY_ROW),
    Hint("CREATE ..", "AS ROW END", ROW_END),
    Hint("CREATE ..", "AS ROW", "write GENERATED ALWAYS AS ROW START"),
    Hint("CREATE ..", "INVISIBLE", SHOWN),
    Hint("CREATE ..", "HIDDEN", SHOWN),
    Hint("CREATE ..", "IMPLICITLY", SHOWN),
    Hint("CREATE .. INT", "(", NO_LENGTH),
    Hint("CREATE .. INTEGER", "(", NO_LENGTH),
    Hint("CREATE .. BIGINT", "(", NO_LENGTH),
    Hint("CREATE ..", "TEXT", LENGTH),
    Hint("CREATE ..", "CHAR", LENGTH),
    Hint("CREATE ..", "CHARACTER", LENGTH),
    Hint("CREATE ..", "NVARCHAR", LENGTH),
    Hint("CREATE ..", "STRING", LENGTH),
    Hint("VARCHAR", "", LENGTH),
    Hint("VARCHAR (", "", LENGTH),
    Hint("CREATE ..", "DECIMAL", CENTS),
    Hint("CREATE ..", "NUMERIC", CENTS),
    Hint("CREATE ..", "FLOAT", CENTS),
    Hint("CREATE ..", "REAL", CENTS),
    Hint("CREATE ..", "DOUBLE", CENTS),
    Hint("CREATE ..", "SMALLINT", "write INTEGER"),
    Hint("CREATE ..", "TINYINT", "write INTEGER"),
    Hint("CREATE ..", "BOOLEAN", NO_BOOLEAN),
    Hint("CREATE ..", "BOOL", NO_BOOLEAN),
    Hint("CREATE ..", "DATETIME", "write TIMESTAMP"),
    Hint("TIMESTAMP", "WITH", NO_ZONES),
    Hint("CREATE .. )", "WITH TIME", NO_ZONES),
    Hint("CREATE ..", "SERIAL", SERIAL),
    Hint("CREATE ..", "AUTO_INCREMENT", NUMBERS),
    Hint("CREATE ..", "AUTOINCREMENT", NUMBERS),
    Hint("CREATE ..", "IDENTITY", NUMBERS),
    Hint("", "DEFAULT", "write the value in each INSERT"),
    Hint("CREATE ..", "NULL", "leave NULL out"),
];

/// The habits of keys, references, checks, periods and moments.
static ELEMENTS: &[Hint] = &[
    // Keys, references, checks and periods.
    Hint("ON DELETE", "", NO_ACTION),
    Hint("ON UPDATE", "", NO_ACTION),
    Hint("ON DELETE NO", "", NO_ACTION),
    Hint("ON UPDATE NO", "", NO_ACTION),
    Hint("CREATE ..", "DEFERRABLE", AT_ONCE),
    Hint("REFERENCES _", "", "write the columns: REFERENCES t (x)"),
    Hint("CREATE ..", "REFERENCES", FOREIGN),
    Hint("CREATE ..", "PRIMARY", PRIMARY),
    Hint("UNIQUE", "KEY", "write UNIQUE (x)"),
    Hint("UNIQUE", "INDEX", "write UNIQUE (x)"),
    Hint("UNIQUE", "_", LISTED),
    Hint("PRIMARY KEY", "_", LISTED),
    Hint("FOREIGN KEY", "_", LISTED),
    Hint(
        "( _",
        "WITHOUT",
        "write a column before the period: (x, p WITHOUT OVERLAPS)",
    ),
    Hint("CREATE ..", "UNIQUE", "write it after a comma: UNIQUE (x)"),
    Hint("CREATE ..", "CHECK", "write it after a comma: CHECK (..)"),
    Hint("CREATE ..", "INDEX", NO_INDEX),
    Hint("CREATE ..", "KEY", NO_INDEX),
    Hint("PERIOD", "SYSTEM_TIME", SYSTEM),
    Hint("CREATE .. PERIOD", "_", "write PERIOD FOR and its name"),
    Hint("PERIOD FOR", "(", "the name of the period is missing"),
    Hint("CREATE ..", "PARTITION", NO_PARTITIONS),
    Hint("CREATE ..", "ENGINE", "leave ENGINE out"),
    Hint("^ CREATE TABLE _ ( _", "_", TYPES),
    Hint("CREATE .. INTEGER , _", "_", TYPES),
    Hint("CREATE .. INT , _", "_", TYPES),
    Hint("CREATE .. BIGINT , _", "_", TYPES),
    Hint("CREATE .. DATE , _", "_", TYPES),
    Hint("CREATE .. TIMESTAMP , _", "_", TYPES),
    Hint("CREATE .. NULL , _", "_", TYPES),
    Hint("CREATE .. ) , _", "_", TYPES),
    // Moments and periods.
    Hint("SYSTEM_TIME", "ALL", ALL_MOMENTS),
    Hint("SYSTEM_TIME AS OF", "", MOMENT),
    Hint("SYSTEM_TIME FROM", "", MOMENT),
    Hint("SYSTEM_TIME FROM TIMESTAMP ' TO", "", MOMENT),
    Hint("SYSTEM_TIME BETWEEN", "", MOMENT),
    Hint("SYSTEM_TIME BETWEEN TIMESTAMP ' AND", "", MOMENT),
    Hint("PORTION OF _ FROM", "", POINT),
    Hint("PORTION OF _ FROM DATE ' TO", "", POINT),
    Hint("PORTION OF _ FROM TIMESTAMP ' TO", "", POINT),
    Hint("SELECT .. _", "FOR SYSTEM_TIME", SPAN_FIRST),
    Hint("FOR", "SYSTEM TIME", "write SYSTEM_TIME, in one word"),
    Hint(
        "SYSTEM_TIME",
        "AS",
        "write FOR SYSTEM_TIME AS OF after the table",
    ),
    Hint("WHERE ..", "AS OF", "write CONTAINS in place of AS OF"),
    Hint("AS OF", "", "write FOR SYSTEM_TIME AS OF TIMESTAMP '..'"),
    Hint("FOR", "UPDATE", "leave FOR UPDATE out"),
    Hint("SELECT .. FOR", "_", NO_PORTION),
    Hint("DATE", "#", DAY),
    Hint("DATE", "\"", DAY),
    Hint("TIMESTAMP", "#", MOMENT),
    Hint("TIMESTAMP", "\"", MOMENT),
    Hint("INTERVAL", "", "there is no arithmetic of days and moments"),
];

/// The habits of queries, expressions and conditions.
static QUERIES: &[Hint] = &[
    // Queries.
    Hint("", "LIMIT", ALL_ROWS),
    Hint("", "OFFSET", ALL_ROWS),
    Hint("", "FETCH", ALL_ROWS),
    Hint("TOP", "", ALL_ROWS),
    Hint(
        "DISTINCT",
        "ON",
        "there is no DISTINCT ON: write MIN or MAX, with GROUP BY",
    ),
    Hint("COUNT (", ")", "write COUNT(*)"),
    Hint("COUNT ( _", ",", "COUNT takes one column, or *"),
    Hint("(", "DISTINCT", "write SELECT DISTINCT, and count its rows"),
    Hint("(", "SELECT", NO_SUBQUERY),
    Hint("FROM", "(", NO_SUBQUERY),
    Hint("JOIN", "(", NO_SUBQUERY),
    Hint("", "EXISTS", NO_SUBQUERY),
    Hint("UNION", "", NO_SUBQUERY),
    Hint("EXCEPT", "", NO_SUBQUERY),
    Hint("INTERSECT", "", NO_SUBQUERY),
    Hint("", "UNION", NO_SUBQUERY),
    Hint("", "EXCEPT", NO_SUBQUERY),
    Hint("", "INTERSECT", NO_SUBQUERY),
    Hint("SELECT ..", "USING", "write ON, and the columns"),
    Hint("", "FULL", TWO_QUERIES),
    Hint("", "RIGHT", "write LEFT JOIN, with the tables swapped"),
    Hint("ORDER", "", "BY is missing after ORDER"),
    Hint("GROUP", "", "BY is missing after GROUP"),
    Hint("BY ..", "NULLS", "NULL sorts first, with DESC last"),
    Hint("ORDER BY _", ".", "write the column's heading alone"),
    Hint("BY", "", ORDERED),
    Hint("BY ..", "+", ORDERED),
    Hint("BY ..", "-", ORDERED),
    Hint("", "OVER", "there are no window functions"),
    Hint(",", "JOIN", LAST_COMMA),
    Hint(",", "LEFT", LAST_COMMA),
    Hint(",", "INNER", LAST_COMMA),
    Hint(",", "CROSS", LAST_COMMA),
    Hint(",", "FROM", LAST_COMMA),
    Hint(",", ")", LAST_COMMA),
    // Expressions and conditions.
    Hint("=", "NULL", "write IS NULL"),
    Hint("<>", "NULL", "write IS NOT NULL"),
    Hint("IN (", "NULL", NULL_APART),
    Hint("IN .. ,", "NULL", NULL_APART),
    Hint("IS", "TRUE", "write the condition alone"),
    Hint("IS", "FALSE", "write NOT before the condition"),
    Hint("IS", "#", "write = in place of IS"),
    Hint("IS", "'", "write = in place of IS"),
    Hint("IS NOT", "#", "write <> in place of IS NOT"),
    Hint("IS NOT", "'", "write <> in place of IS NOT"),
    Hint("CASE", "", NO_CASE),
    Hint("", "WHEN", NO_CASE),
    Hint("", "LIKE", NO_PATTERN),
    Hint("", "ILIKE", NO_PATTERN),
    Hint("#", ".", "write whole numbers, in the smallest unit"),
    Hint("", "/*", "write -- to the end of the line"),
    Hint("", "/", NO_QUOTIENT),
    Hint("", "%", NO_QUOTIENT),
    Hint("", "!=", "write <>"),
    Hint("=", "=", "write = once"),
    Hint("=", ">", "write >="),
    Hint("=", "<", "write <="),
    Hint("", "||", NO_JOINED_TEXT),
    Hint("", "&&", "write OVERLAPS for periods, AND for conditions"),
    Hint("", "@>", "write CONTAINS"),
    Hint("", "`", NAMES),
    Hint("", "[", NAMES),
    Hint(".", "*", "write the columns, or * alone"),
    Hint("", "::", "there are no casts"),
    Hint("", "@", NO_VARIABLE),
    Hint("", "?", NO_VARIABLE),
    Hint("", "$", NO_VARIABLE),
    Hint("", ":", NO_VARIABLE),
    Hint("NATURAL ..", "", "write JOIN, and ON with the columns"),
];

/// Slips in queries, expressions and conditions: what is missing, and what was probably meant.
static SLIPS: &[Hint] = &[
    // Periods and moments.
    Hint("=", "PERIOD", "write EQUALS in place of ="),
    Hint("<>", "PERIOD", "write NOT before it, and EQUALS"),
    Hint("OVERLAPS", "(", PERIOD_BEFORE),
    Hint("EQUALS", "(", PERIOD_BEFORE),
    Hint("PRECEDES", "(", PERIOD_BEFORE),
    Hint("SUCCEEDS", "(", PERIOD_BEFORE),
    Hint("OVERLAPS", "DATE", NO_POINT),
    Hint("OVERLAPS", "TIMESTAMP", NO_POINT),
    Hint("EQUALS", "DATE", NO_POINT),
    Hint("EQUALS", "TIMESTAMP", NO_POINT),
    Hint("DATE ' IN", "_", IN_PERIOD),
    Hint("TIMESTAMP ' IN", "_", IN_PERIOD),
    Hint("_ IN", "_", IN_LIST),
    Hint("IN", "'", IN_LIST),
    Hint("IN", "#", IN_LIST),
    Hint("BETWEEN DATE '", "TO", BETWEEN_AND),
    Hint("BETWEEN TIMESTAMP '", "TO", BETWEEN_AND),
    Hint("BETWEEN #", "TO", BETWEEN_AND),
    Hint("", "NOW (", NO_CLOCK),
    Hint("", "CURRENT_DATE", NO_CLOCK),
    Hint("", "CURRENT_TIMESTAMP", NO_CLOCK),
    // Signs.
    Hint("", "\u{2018}", STRAIGHT),
    Hint("", "\u{2019}", STRAIGHT),
    Hint("", "\u{201c}", STRAIGHT),
    Hint("", "\u{201d}", STRAIGHT),
    Hint("#", ", #", "write the number without a comma"),
    Hint("SELECT .. _ _", ".", "is a comma missing before the name?"),
    Hint("^ SELECT _", "_ _", "is a comma missing before the name?"),
    // The end of a statement, and ON.
    Hint("BETWEEN # AND", "^", "the upper bound is missing"),
    Hint("BETWEEN _ AND", "^", "the upper bound is missing"),
    Hint("BETWEEN DATE ' AND", "^", "the upper bound is missing"),
    Hint("BETWEEN TIMESTAMP ' AND", "^", "the upper bound is missing"),
    Hint("AND", "^", "a condition is missing after AND"),
    Hint("OR", "^", "a condition is missing after OR"),
    Hint("WHERE", "^", "a condition is missing after WHERE"),
    Hint("HAVING", "^", "a condition is missing after HAVING"),
    Hint("ON", "^", "a condition is missing after ON"),
    Hint("IS", "^", "NULL is missing"),
    Hint("IS NOT", "^", "NULL is missing"),
    Hint("NOT", "^", "a condition is missing after NOT"),
    Hint("BETWEEN #", "^", BOUNDS),
    Hint("BETWEEN DATE '", "^", BOUNDS),
    Hint("BETWEEN TIMESTAMP '", "^", BOUNDS),
    Hint("DATE ' BETWEEN _", "^", IN_PERIOD),
    Hint("TIMESTAMP ' BETWEEN _", "^", IN_PERIOD),
    Hint("BETWEEN _", "^", BOUNDS),
    Hint("WHERE _", "^", "a comparison is missing"),
    Hint("NOT _", "^", "a comparison is missing"),
    Hint("OR _", "^", "a comparison is missing"),
    Hint("OR #", "^", "write the column and the sign again"),
    Hint("OR '", "^", "write the column and the sign again"),
    Hint("JOIN _", "^", ON_MISSING),
    Hint("JOIN _", "WHERE", ON_MISSING),
    Hint("JOIN _ _", "^", ON_MISSING),
    Hint("JOIN _ _", "WHERE", ON_MISSING),
    Hint("JOIN _ AS _", "^", ON_MISSING),
    Hint("JOIN _ AS _", "WHERE", ON_MISSING),
];

/// Keywords, each with the tokens before it and the question for a word that is nearly the same. A word that begins a
/// statement has the first letter of the keyword, so that SELETE is not taken for DELETE.
static KEYWORDS: &[Hint] = &[
    Hint("^", "SELECT", "did you mean SELECT?"),
    Hint("^", "INSERT", "did you mean INSERT?"),
    Hint("^", "UPDATE", "did you mean UPDATE?"),
    Hint("^", "DELETE", "did you mean DELETE?"),
    Hint("^", "CREATE", "did you mean CREATE?"),
    Hint("^", "COMMIT", "did you mean COMMIT?"),
    Hint("^", "ROLLBACK", "did you mean ROLLBACK?"),
    Hint("^ CREATE", "TABLE", "did you mean TABLE?"),
    Hint("^ DROP", "TABLE", "did you mean TABLE?"),
    Hint("INSERT ..", "VALUES", "did you mean VALUES?"),
    Hint("SELECT ..", "FROM", "did you mean FROM?"),
    Hint("FROM ..", "JOIN", "did you mean JOIN?"),
    Hint("FROM ..", "WHERE", "did you mean WHERE?"),
    Hint("SET ..", "WHERE", "did you mean WHERE?"),
    Hint("FROM ..", "GROUP", "did you mean GROUP?"),
    Hint("FROM ..", "ORDER", "did you mean ORDER?"),
    Hint("FROM ..", "HAVING", "did you mean HAVING?"),
    Hint("", "TIMESTAMP", "did you mean TIMESTAMP?"),
];

/// Returns the hint of the first of these habits that fits.
fn first_hint(
    hints: &[Hint],
    before: &[Token<'_>],
    behind: &[Token<'_>],
    rest: &str,
) -> Option<&'static str> {
    for hint in hints {
        if fits(before, hint.0, behind, rest, hint.1) {
            return Some(hint.2);
        }
    }
    None
}

/// Returns the hint of the first habit that fits, if any: by the tokens before the place where reading stopped, those
/// from there on, and the text from there on.
pub(crate) fn habit_hint(
    before: &[Token<'_>],
    behind: &[Token<'_>],
    rest: &str,
) -> Option<&'static str> {
    if let Some(says) = first_hint(STATEMENTS, before, behind, rest) {
        return Some(says);
    }
    if let Some(says) = first_hint(TABLES, before, behind, rest) {
        return Some(says);
    }
    if let Some(says) = first_hint(ELEMENTS, before, behind, rest) {
        return Some(says);
    }
    if let Some(says) = first_hint(QUERIES, before, behind, rest) {
        return Some(says);
    }
    first_hint(SLIPS, before, behind, rest)
}

/// Returns the question for the keyword that was probably meant by the first word of `behind`, if it is nearly one that
/// these tokens may precede.
pub(crate) fn keyword_hint(before: &[Token<'_>], behind: &[Token<'_>]) -> Option<&'static str> {
    let [word, ..] = behind else {
        return None;
    };
    if !is_plain(word) {
        return None;
    }
    for hint in KEYWORDS {
        let may_differ = hint.0 != "^" || begin_alike(word.text, hint.1);
        if may_differ && end_with(before, hint.0) && is_near(word.text, hint.1) {
            return Some(hint.2);
        }
    }
    None
}
