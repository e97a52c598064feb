//! The references of all chains of a query in scope.
ghost use Rattle.std.specs.Prelude.{◌≡◌, ◌<◌, ◌≤◌, ◌+◌, ◌++◌, ◌^◌, All, IfOk, length, map, string_bytes, sum_by};
ghost use Rattle.tql_spec.specs.Binding as binding;
ghost use Rattle.tql_spec.specs.Creation as creation;
ghost use Rattle.tql_spec.specs.Names as names;
ghost use Rattle.tql_bind_expr.specs.Scopes.{known_of, scope_of};
ghost use Rattle.tql_bind_query.specs.From.{IsPlaced, IsWhole};

use crate::from::Linked;
use std::alloc::AllocError;
use tql_bind_expr::about::{About, Cause};
use tql_bind_expr::repeats::repeated;
use tql_bind_expr::scope::Known;
use tql_memory::Memory;

/// Returns the reference with `before` more columns before its own.
fn moved<'a>(known: &Known<'a>, before: usize) -> Known<'a>
    requires { before + (known.now.offset + length known.now.columns.now) < 2 ^ 64 }
    ensures { known_of result ≡ binding.moved before (known_of known.now) }
{
    Known {
        name: known.name,
        columns: known.columns,
        applications: known.applications,
        system: known.system,
        offset: before + known.offset,
        start: known.start,
    }
}

/// Adds references to a scope, with `before` more columns before theirs.
fn push_moved<'a>(
    known: &[Known<'a>],
    before: usize,
    scope: &mut Vec<Known<'a>, Memory>,
) -> Result<(), AllocError>
    requires { All (λ k. before + (k.offset + length k.columns.now) < 2 ^ 64) known.now }
    ensures { IfOk result
        (λ _. scope_of scope.new.items ≡ scope_of scope.old.items
        ++ map (binding.moved before) (scope_of known.now)) }
{
    for reference in known {
        scope.push(moved(reference, before))?;
    }
    Ok(())
}

/// Returns all references of a query. The columns of each chain are numbered after those of the chains before it. The
/// only error is a refused allocation.
pub fn whole_scope<'a>(
    memory: Memory,
    linked: &[Linked<'a>],
) -> Result<Vec<Known<'a>, Memory>, AllocError>
    requires placed { All IsPlaced linked.now }
    requires narrow { sum_by (λ l. l.width) linked.now ≤ 512 }
    ensures { IfOk result (λ v. IsWhole linked.now v.items) }
{
    let mut scope: Vec<Known<'a>, Memory> = Vec::new(memory);
    let mut width = 0;
    for chain in linked {
        push_moved(&chain.scope, width, &mut scope)?;
        width += chain.width;
    }
    Ok(scope)
}

/// Whether two references are known by the same name.
#[tactic(auto, using(crate::proofs::ScopeLaws::known_names))]
pub fn repeats_names(scope: &[Known<'_>]) -> bool
    ensures { result ≡ creation.repeats (map (λ (k : names.Known). k.name) (scope_of scope.now)) }
{
    repeated(scope).is_some()
}

/// Returns the cause and place of the fault of two table references with one name.
pub fn same_reference(scope: &[Known<'_>]) -> About {
    match repeated(scope) {
        Some(known) => About::at(Cause::SameReference, known.start),
        None => About::unknown(),
    }
}
