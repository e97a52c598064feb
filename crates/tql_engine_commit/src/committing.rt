//! Changes of the store, in the open transaction or in one of their own, which is rolled back if an allocation is
//! refused.
ghost use Rattle.std.specs.Prelude.{◌≡◌, ◌<ℤ◌, map, IsNone, IsTrue, IfOk, OnOk, OnErr, IfErr};
ghost use Rattle.tql_spec.specs.Calendar.{high};
ghost use Rattle.tql_store.specs.StoreModel.{has_table, AreRemovable};
ghost use Rattle.tql_versions.specs.Changes.{Under};
ghost use Rattle.tql_value.specs.declared.refusal.Refusal.TheVariants.{OutOfMemory};
ghost use Rattle.tql_engine_state.specs.Committing.{CommitsRows, Undoes, ChangesRows, KeepsRows};

use tql_index::index::IntervalIndex;
use tql_store::store::{Delta, Store};
use tql_value::refusal::Refusal;

/// Applies a change in a transaction of its own at this moment. The only error is a refused allocation, and the store
/// is unchanged then.
fn commit_rows<I: IntervalIndex>(
    store: &mut Store<I>,
    moment: i64,
    delta: Delta,
) -> Result<(), Refusal>
    requires closed { IsNone store.old.working }
    requires later { Under store.old.last moment }
    requires below { moment <ℤ high }
    requires present { IsTrue (has_table store.old delta.table) }
    requires removable { AreRemovable store.old delta.table delta.removed.items }
    ensures ok { OnOk result
        (CommitsRows moment delta.table delta.removed.items
        delta.added.items store.old store.new) }
    ensures err { OnErr result (Undoes moment store.old store.new) }
    ensures memory { IfErr result (λ e. e ≡ OutOfMemory) }
{
    store.begin(moment);
    match store.apply(delta) {
        Ok(()) => {
            store.commit();
            Ok(())
        }
        Err(refusal) => {
            store.rollback();
            Err(refusal)
        }
    }
}

/// Applies a change in the open transaction, or in one of its own at the clock's moment, and returns the clock's moment
/// after it. The only error is a refused allocation, and the store is unchanged then.
pub fn change_rows<I: IntervalIndex>(
    store: &mut Store<I>,
    clock: i64,
    delta: Delta,
) -> Result<i64, Refusal>
    requires later { Under store.old.last clock }
    requires below { IsNone store.old.working → clock <ℤ high }
    requires present { IsTrue (has_table store.old delta.table) }
    requires removable { AreRemovable store.old delta.table delta.removed.items }
    ensures ok { IfOk result
        (λ next. ChangesRows store.old.working clock next delta.table delta.removed.items
        delta.added.items store.old store.new) }
    ensures err { OnErr result (KeepsRows store.old.working clock store.old store.new) }
    ensures memory { IfErr result (λ e. e ≡ OutOfMemory) }
{
    if store.has_transaction() {
        return match store.apply(delta) {
            Ok(()) => Ok(clock),
            Err(refusal) => Err(refusal),
        };
    }
    match commit_rows(store, clock, delta) {
        Ok(()) => Ok(clock + 1),
        Err(refusal) => Err(refusal),
    }
}
