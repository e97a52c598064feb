//! The access paths of queries.
ghost use Rattle.std.specs.Prelude.{◌≤◌, All, IfOk, length};
ghost use Rattle.tql_bound.specs.Placed.{IsPlacedQuery};
ghost use Rattle.tql_bound.specs.Queries.{bound_query_of};
ghost use Rattle.tql_catalog.specs.Tables.{definitions_of};

use std::alloc::AllocError;
use std::process::Abort;
use std::test::Fail;
use tql_bind::binder::bind;
use tql_bind::limits::Limits;
use tql_bind_table::create::new_table;
use tql_bound::bound::Bound;
use tql_bound::query::BoundQuery;
use tql_catalog::catalog::Catalog;
use tql_memory::{Memory, memory};
use tql_plan::counts::Counts;
use tql_planner::planner::plan;
use tql_syntax::text::read_text;
use tql_syntax_tree::statement::Statement;
use tql_syntax_tree::width::is_too_wide;
use tql_value::calendar::FIRST_MOMENT;
use tql_value::table::TableId;

/// A table of one column without a key.
const NUMBERS: &str = "CREATE TABLE z (y INTEGER)";

/// A table with a key over an application period.
const EMPLOYEES: &str = "CREATE TABLE emp (eno INTEGER, dept VARCHAR(10), estart DATE, eend DATE, \
                         PERIOD FOR ep (estart, eend), PRIMARY KEY (eno, ep WITHOUT OVERLAPS))";

/// Tables, queries, and in how many places their plans find rows by an equality, by a key, and by a period.
static QUESTIONS: [(&str, &str, (usize, usize, usize)); 3] = [
    (
        NUMBERS,
        "SELECT COUNT(*) FROM z a JOIN z b ON a.y = b.y",
        (1, 0, 0),
    ),
    (EMPLOYEES, "SELECT dept FROM emp WHERE eno = 1", (0, 1, 0)),
    (
        EMPLOYEES,
        "SELECT eno FROM emp WHERE ep CONTAINS DATE '2011-06-01'",
        (0, 0, 1),
    ),
];

/// Returns the catalog with the table that a statement creates.
fn catalog_of(rt: &impl Abort, memory: Memory, text: &str) -> Result<Catalog, Fail>
    ensures { IfOk result (λ c. All (λ d. length d.columns ≤ 64) (definitions_of c)) }
{
    let mut tables = Catalog::new(memory);
    let tree = read_text(memory, text.as_bytes())?;
    let Statement::Create(create) = &tree.statement else {
        panic!(rt; "no table")
    };
    let Some(id) = TableId::new(0) else {
        panic!(rt; "no number")
    };
    let definition = new_table(memory, &tables, create)?;
    assert!(rt; definition.columns().len() <= 64 && definition.references().is_empty());
    tables.create(definition, id)?;
    Ok(tables)
}

/// Returns in how many places the plan of a query finds rows without comparing all of them.
fn planned(memory: Memory, tables: &Catalog, query: &BoundQuery) -> Result<Counts, AllocError>
    requires { IsPlacedQuery (definitions_of tables.now) (bound_query_of query.now) }
{
    let plan = plan(memory, tables, query)?;
    Ok(plan.counts())
}

/// Returns the same for the text of a query.
fn counts_of(rt: &impl Abort, memory: Memory, tables: &Catalog, text: &str) -> Result<Counts, Fail>
    requires { All (λ d. length d.columns ≤ 64) (definitions_of tables.now) }
{
    let tree = read_text(memory, text.as_bytes())?;
    assert!(rt; !is_too_wide(&tree.statement));
    let limits = Limits {
        horizon: FIRST_MOMENT,
        readers: &[],
    };
    match bind(memory, tables, &tree.statement, &limits) {
        Ok(Bound::AnswerQuery(query)) => Ok(planned(memory, tables, &query)?),
        _ => panic!(rt; "no query"),
    }
}

#[test]
fn finds_rows_by_what_a_question_says(rt: HostRuntime) -> Result<(), Fail> {
    let memory = memory(rt.alloc(), u64::MAX)?;
    for &(table, question, found) in &QUESTIONS {
        let tables = catalog_of(&rt, memory, table)?;
        let counts = counts_of(&rt, memory, &tables, question)?;
        assert!(rt; (counts.maps, counts.keys, counts.intervals) == found);
    }
    Ok(())
}
