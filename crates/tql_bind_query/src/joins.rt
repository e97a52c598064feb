//! The joins of a chain of FROM.
ghost use Rattle.std.specs.Prelude.{◌≡◌, ◌<◌, ◌≤◌, All, IfOk, length, map};
ghost use Rattle.tql_spec.specs.Definition.{no_table};
ghost use Rattle.tql_catalog.specs.Tables.{definitions_of};
ghost use Rattle.tql_expr.specs.Meaning.{cond, HasCond, Stays};
ghost use Rattle.tql_syntax_tree.specs.Statements.{join_of, ref_of};
ghost use Rattle.tql_bind_expr.specs.Gathered.{Gathers};
ghost use Rattle.tql_bind_expr.specs.Scopes.{scope_of};
ghost use Rattle.tql_bind_query.specs.From.{kind_in, name_in, on_in, reference_in, AddsJoin, HasJoins, IsPlaced};

use crate::from::Linked;
use crate::sources::bound_source;
use std::alloc::AllocError;
use tql_bind_cond::conjuncts::plain_conjuncts;
use tql_bind_expr::faults::Faults;
use tql_bind_expr::scope::Known;
use tql_bound::query::{Join, JoinKind};
use tql_catalog::catalog::Catalog;
use tql_catalog::table_def::TableDef;
use tql_expr::terms::{CondId, Terms};
use tql_memory::Memory;
use tql_syntax_tree::statement::{JoinTree, RefTree};

/// Returns the table reference that the join adds.
pub(crate) fn joined_reference<'a>(join: &JoinTree<'a>) -> RefTree<'a>
    ensures { ref_of result ≡ reference_in (join_of join.now) }
{
    match join {
        JoinTree::Inner(joined) => joined.reference,
        JoinTree::Left(joined) => joined.reference,
        JoinTree::Cross(reference) => **reference,
    }
}

/// Returns the kind of the join.
fn join_kind(join: &JoinTree<'_>) -> JoinKind
    ensures { result ≡ kind_in (join_of join.now) }
{
    match join {
        JoinTree::Inner(_) => JoinKind::Inner,
        JoinTree::Left(_) => JoinKind::Left,
        JoinTree::Cross(_) => JoinKind::Cross,
    }
}

/// Binds the conjuncts of the join's ON; none if it has no ON.
fn on(
    memory: Memory,
    scope: &[Known<'_>],
    join: &JoinTree<'_>,
    terms: &mut Terms,
    faults: &mut Faults,
) -> Result<Vec<CondId, Memory>, AllocError>
    ensures bound { IfOk result
        (λ v. Gathers (on_in (scope_of scope.now) (join_of join.now)) faults.old faults.new
        (map (cond terms.new) v.items)) }
    ensures stays { Stays terms.old terms.new }
    ensures held { IfOk result (λ v. All (HasCond terms.new) v.items) }
{
    match join {
        JoinTree::Inner(joined) => plain_conjuncts(memory, scope, &joined.condition, terms, faults),
        JoinTree::Left(joined) => plain_conjuncts(memory, scope, &joined.condition, terms, faults),
        JoinTree::Cross(_) => Ok(Vec::new(memory)),
    }
}

/// Binds a join and adds it to its chain. Its reference is known by this name. Its ON sees the references of the chain
/// so far and the one that is joined.
pub(crate) fn add_join<'a>(
    memory: Memory,
    catalog: &'a Catalog,
    nothing: &'a TableDef,
    name: &'a str,
    join: &JoinTree<'_>,
    linked: &mut Linked<'a>,
    terms: &mut Terms,
    faults: &mut Faults,
) -> Result<(), AllocError>
    requires nothing { nothing.now ≡ no_table }
    requires named { name.now ≡ name_in (reference_in (join_of join.now)) }
    requires few { length linked.old.scope.items < 8 }
    requires narrow { All (λ d. length d.columns ≤ 64) (definitions_of catalog.now) }
    requires held { HasJoins terms.old linked.old }
    requires placed { IsPlaced linked.old }
    ensures adds { IfOk result
        (λ _. AddsJoin (definitions_of catalog.now) (join_of join.now) faults.old faults.new terms.old
        terms.new linked.old linked.new) }
    ensures stays { Stays terms.old terms.new }
{
    let source = bound_source(
        memory,
        catalog,
        nothing,
        name,
        linked.width,
        joined_reference(join),
        faults,
    )?;
    linked.scope.push(source.known)?;
    let on = on(memory, &linked.scope, join, terms, faults)?;
    linked.chain.joins.push(Join {
        kind: join_kind(join),
        reference: source.reference,
        on,
    })?;
    linked.width += source.reference.width;
    Ok(())
}
