//! tql_index: entries that were added before memory ran out are there, and refused ones are not; and the depth of the
//! tree.
use std::alloc::AllocError;
use std::test::Fail;
use tql_index::index::IntervalIndex;
use tql_list_index::list_index::ListIndex;
use tql_memory::{Memory, memory};
use tql_period::period::Period;
use tql_tree_index::tree_index::TreeIndex;

/// Returns the period of a step. There are few starts and lengths, so that periods nest and meet. Some periods reach to
/// the least or the greatest number.
fn period_of(step: u64) -> Option<Period> {
    let start = (step.wrapping_mul(7919) % 61) as i64 - 30;
    let length = (step.wrapping_mul(104_729) % 13) as i64 + 1;
    match step % 50 {
        0 => Period::new(i64::MIN, i64::MAX),
        1 => Period::new(i64::MIN, start),
        2 => Period::new(start, i64::MAX),
        _ => Period::new(start, start + length),
    }
}

/// Returns the number of entries that are added before the first is refused. None if a later one is accepted.
fn added<I: IntervalIndex>(index: &mut I) -> Option<u64> {
    let mut added = 0u64;
    for step in 0u64..20 {
        match index.add(period_of(step)?, 7) {
            Ok(()) if added == step => added = step + 1,
            Ok(()) => return None,
            Err(AllocError) => {}
        }
    }
    Some(added)
}

/// Whether exactly the entries of the first `added` steps are there, once each. This is tested by `remove`, which takes
/// no memory.
fn has_just<I: IntervalIndex>(index: &mut I, added: u64) -> Option<bool> {
    for step in 0u64..20 {
        let period = period_of(step)?;
        let found = (
            index.remove(period, 8),
            index.remove(period, 7),
            index.remove(period, 7),
        );
        if found != (false, step < added, false) {
            return Some(false);
        }
    }
    Some(true)
}

/// Returns the number of entries that an index accepts in this memory. None if it does not keep them.
fn kept<I: IntervalIndex>(memory: Memory) -> Option<u64> {
    let mut index = I::new(memory);
    let added = added(&mut index)?;
    let is_right = match index.stab(0) {
        Ok(ids) => ids.len() as u64 <= added,
        Err(AllocError) => true,
    };
    if has_just(&mut index, added)? && is_right {
        Some(added)
    } else {
        None
    }
}

#[test]
fn each_growth_is_refused_in_turn(rt: HostRuntime) -> Result<(), Fail> {
    let mut most = (Some(0), Some(0));
    let mut rises = true;
    for granted in 0u64..40 {
        let list = kept::<ListIndex>(memory(rt.alloc(), granted)?);
        let tree = kept::<TreeIndex>(memory(rt.alloc(), granted)?);
        rises = rises && most.0 <= list && most.1 <= tree;
        most = (list, tree);
    }
    assert!(rt; rises && most == (Some(20), Some(20)));
    Ok(())
}

/// Adds this number of periods of one point, whose starts rise.
fn fill<I: IntervalIndex>(index: &mut I, count: i64) -> Option<()> {
    for start in 0..count {
        index.add(Period::new(start, start + 1)?, 0).ok()?;
    }
    Some(())
}

/// With rising starts each branch is filled with 31 entries, and 2^5 - 1 branches make a full tree of five levels.
#[test]
fn the_tree_stays_shallow(rt: HostRuntime) -> Result<(), Fail> {
    let memory = memory(rt.alloc(), u64::MAX)?;
    let mut tree = TreeIndex::new(memory);
    let mut list = ListIndex::new(memory);
    let empty = (tree.is_empty(), tree.depth(), list.is_empty());
    let filled = (fill(&mut tree, 961), fill(&mut list, 1));
    let found = (tree.len(), tree.depth(), list.len());
    let is_right = empty == (true, 0, true)
        && filled == (Some(()), Some(()))
        && found == (961, 5, 1);
    assert!(rt; is_right);
    Ok(())
}
