//! tql_store: the memory that a change takes.
ghost use Rattle.tql_store.specs.StoreModel.{AreRemovable};

use crate::tests::prunings::{add, change};
use crate::tests::stores::renewal;
use std::process::Abort;
use std::test::Fail;
use tql_memory::{Memory, memory};
use tql_store::store::{Delta, Store};
use tql_tree_index::tree_index::TreeIndex;
use tql_versions::version::HIGH;

/// Makes a change in a transaction, and returns how many bytes of the store's memory it took. The change is then rolled
/// back.
fn taken_by(
    rt: &impl Abort,
    own: Memory,
    store: &mut Store<TreeIndex>,
    moment: i64,
    delta: Delta,
) -> usize
    requires { AreRemovable store.old delta.table delta.removed.items }
{
    assert!(rt; !store.has_transaction() && store.has_table(delta.table));
    assert!(rt; store.is_later(moment) && moment < HIGH);
    store.begin(moment);
    let before = own.in_use();
    let made = store.apply(delta).is_ok();
    let taken = own.in_use().saturating_sub(before);
    store.rollback();
    assert!(rt; made);
    taken
}

/// Returns how many bytes a removal of a hundred rows takes in a store without tables.
fn taken_by_removal(
    rt: &impl Abort,
    (own, all): (Memory, Memory),
    store: &mut Store<TreeIndex>,
) -> Result<usize, Fail> {
    let table = add(rt, all, store, false)?;
    change(rt, all, store, table, &[7; 100], 10)?;
    assert!(rt; store.has_table(table));
    let delta = renewal(all, store, table, Vec::new(all))?;
    Ok(taken_by(rt, own, store, 20, delta))
}

#[test]
fn a_removal_notes_the_position_of_each_row_once(rt: HostRuntime) -> Result<(), Fail> {
    let own = memory(rt.alloc(), u64::MAX)?;
    let all = memory(rt.alloc(), u64::MAX)?;
    let mut store: Store<TreeIndex> = Store::new(own);
    assert!(rt; taken_by_removal(&rt, (own, all), &mut store)? == 800);
    Ok(())
}
