//! tql_memory: the number of allocations that are granted, and the number of bytes.
use indexmap::IndexMap;
use smallvec::SmallVec;
use std::alloc::{AllocError, Global};
use std::collections::BTreeMap;
use std::hash::{BuildHasherDefault, FoldHasher};
use std::test::Fail;
use tql_memory::{Memory, memory, memory_within};

type Map = IndexMap<u64, u64, BuildHasherDefault<FoldHasher>, Memory>;

#[derive(Clone, Copy)]
enum Held {
    InABox,
    Text,
    List(u64),
    ShortList(u64),
    Tree,
    Map,
}

fn one_box(memory: Memory) -> Result<(), AllocError> {
    let _ = Box::new(memory, 7u64)?;
    Ok(())
}

fn one_text(memory: Memory) -> Result<(), AllocError> {
    let _ = String::from_str(memory, "abc")?;
    Ok(())
}

fn list_of(memory: Memory, count: u64) -> Result<(), AllocError> {
    let mut list = Vec::new(memory);
    for number in 0..count {
        list.push(number)?;
    }
    Ok(())
}

fn short_list_of(memory: Memory, count: u64) -> Result<(), AllocError> {
    let mut list: SmallVec<u64, 4, Memory> = SmallVec::new(memory);
    for number in 0..count {
        list.push(number)?;
    }
    Ok(())
}

fn three_in_a_tree(memory: Memory) -> Result<(), AllocError> {
    let mut tree = BTreeMap::new(memory);
    for number in 0..3u64 {
        tree.insert(number, number)?;
    }
    Ok(())
}

fn one_in_a_map(memory: Memory) -> Result<(), AllocError> {
    let mut map: Map = IndexMap::new(memory);
    map.insert(7, 1)?;
    Ok(())
}

fn fill(held: Held, memory: Memory) -> Result<(), AllocError> {
    match held {
        Held::InABox => one_box(memory),
        Held::Text => one_text(memory),
        Held::List(count) => list_of(memory, count),
        Held::ShortList(count) => short_list_of(memory, count),
        Held::Tree => three_in_a_tree(memory),
        Held::Map => one_in_a_map(memory),
    }
}

/// The number of blocks for each. For a map: its keys, values, buckets and groups of marks.
static TAKEN: [(Held, u64); 8] = [
    (Held::InABox, 1),
    (Held::Text, 1),
    (Held::List(3), 1),
    (Held::List(5), 2),
    (Held::ShortList(3), 0),
    (Held::ShortList(5), 1),
    (Held::Tree, 1),
    (Held::Map, 4),
];

/// Whether something takes exactly this number of blocks.
fn is_refused_in_turn(alloc: Global, held: Held, growths: u64) -> Result<bool, AllocError> {
    let mut is_right = true;
    for granted in 0..=growths {
        let memory = memory(alloc, granted)?;
        let filled = fill(held, memory).is_ok();
        is_right = is_right && filled == (granted == growths) && memory.left() == 0;
    }
    Ok(is_right)
}

#[test]
fn each_growth_is_refused_in_turn(rt: HostRuntime) -> Result<(), Fail> {
    for (number, &(held, growths)) in TAKEN.iter().enumerate() {
        let is_right = is_refused_in_turn(rt.alloc(), held, growths)?;
        assert!(rt; is_right, "case {number}");
    }
    Ok(())
}

/// Returns how many of ten boxes can be allocated, each of which is freed at once, and the sum of the numbers of those
/// that cannot.
fn boxes(memory: Memory) -> (u64, u64) {
    let mut granted = 0u64;
    let mut refused = 0u64;
    for number in 0u64..10 {
        match one_box(memory) {
            Ok(()) => granted = granted.saturating_add(1),
            Err(AllocError) => refused = refused.saturating_add(number),
        }
    }
    (granted, refused)
}

/// Tests that `grant` replaces what was left, and that freeing a block restores no grant.
#[test]
fn grants_are_set_anew(rt: HostRuntime) -> Result<(), Fail> {
    let memory = memory(rt.alloc(), 0)?;
    for granted in [2u64, 1, 0, 3] {
        memory.grant(u64::MAX);
        memory.grant(granted);
        let counts = [
            memory.left(),
            boxes(memory).0,
            memory.left(),
            boxes(memory).0,
        ];
        assert!(rt; counts == [granted, granted, 0, 0]);
    }
    Ok(())
}

/// Whether a list of four numbers that cannot grow is unchanged, has the same bytes in use and leaves this number of
/// allocations; and whether it grows after one more is granted only if it should.
fn is_kept(memory: Memory, left: u64, grows: bool) -> Result<bool, AllocError> {
    let mut list = Vec::new(memory);
    for number in 0..4u64 {
        list.push(number)?;
    }
    let is_refused = list.push(4).is_err() && list.as_slice() == [0, 1, 2, 3].as_slice();
    let is_counted = memory.in_use() == 32 && memory.left() == left;
    memory.grant(1);
    let is_grown = list.push(4).is_ok() && list.as_slice() == [0, 1, 2, 3, 4].as_slice();
    Ok(is_refused && is_counted && is_grown == grows)
}

/// Tests a list for whose growth no allocation is left, and one that would exceed the bound.
#[test]
fn a_failed_growth_leaves_the_list_as_it_was(rt: HostRuntime) -> Result<(), Fail> {
    let granted = is_kept(memory(rt.alloc(), 1)?, 0, true)?;
    let bounded = is_kept(memory_within(rt.alloc(), 63)?, u64::MAX - 1, false)?;
    assert!(rt; granted && bounded);
    Ok(())
}

/// Tests that exactly one block is refused, and all later ones are granted.
#[test]
fn one_block_is_refused_alone(rt: HostRuntime) -> Result<(), Fail> {
    let memory = memory(rt.alloc(), u64::MAX)?;
    let mut are_right = true;
    for before in 0..3u64 {
        memory.refuse_one_behind(before);
        are_right = are_right && boxes(memory) == (9, before);
    }
    memory.refuse_one_behind(0);
    memory.grant(0);
    assert!(rt; are_right && boxes(memory).0 == 0);
    Ok(())
}

/// Returns the bytes in use after a list of five numbers has grown, and after it was shrunk to them.
fn bytes_of_list(memory: Memory) -> Result<(usize, usize), AllocError> {
    let mut list = Vec::new(memory);
    for number in 0..5u64 {
        list.push(number)?;
    }
    let grown = memory.in_use();
    list.shrink_to_fit();
    Ok((grown, memory.in_use()))
}

/// Returns the bytes in use while a text exists: at first, after a list has grown, after it was shrunk, after it was
/// freed, and after another text was freed.
fn bytes_with_text(memory: Memory) -> Result<[usize; 5], AllocError> {
    let text = String::from_str(memory, "abc")?;
    let before = memory.in_use();
    let (grown, shrunk) = bytes_of_list(memory)?;
    let after = memory.in_use();
    one_text(memory)?;
    let last = memory.in_use().saturating_sub(text.len());
    Ok([before, grown, shrunk, after, last])
}

/// Tests that the bytes of a text and of a list are in use while these exist. For a list that grows or shrinks they are
/// those of its new size.
#[test]
fn bytes_are_counted(rt: HostRuntime) -> Result<(), Fail> {
    let bytes = bytes_with_text(memory(rt.alloc(), u64::MAX)?)?;
    assert!(rt; bytes == [3, 3 + 64, 3 + 40, 3, 0]);
    Ok(())
}

/// Bounds, and whether they are enough for a list of five numbers.
static BOUNDS: [(usize, bool); 5] = [(0, false), (31, false), (63, false), (64, true), (65, true)];

/// Tests that an allocation beyond the bound fails and uses no bytes, and that freed bytes can be allocated again.
#[test]
fn bytes_beyond_the_bound_are_refused(rt: HostRuntime) -> Result<(), Fail> {
    for &(most, is_enough) in &BOUNDS {
        let memory = memory_within(rt.alloc(), most)?;
        let filled = [list_of(memory, 5).is_ok(), list_of(memory, 5).is_ok()];
        assert!(rt; filled == [is_enough; 2] && memory.in_use() == 0);
    }
    Ok(())
}

/// Tests that what is kept back of the bound refuses blocks that grow, and none that shrink; and that a new bound
/// counts what is in use.
#[test]
fn bytes_are_kept_back(rt: HostRuntime) -> Result<(), Fail> {
    let memory = memory_within(rt.alloc(), 100)?;
    let mut list = Vec::new(memory);
    for number in 0..5u64 {
        list.push(number)?;
    }
    memory.keep_back(90);
    let kept = [one_box(memory).is_ok(), list_of(memory, 1).is_ok()];
    list.shrink_to_fit();
    let shrunk = memory.in_use();
    memory.keep_back(52);
    let beside = [one_box(memory).is_ok(), list_of(memory, 1).is_ok()];
    memory.bound(80);
    memory.keep_back(0);
    let bounded = [list_of(memory, 4).is_ok(), list_of(memory, 5).is_ok()];
    assert!(rt; kept == [false; 2] && shrunk == 40);
    assert!(rt; beside == [true, false] && bounded == [true, false]);
    Ok(())
}

/// Tests which bytes are promised: those that fit into what is kept back, and all where nothing is.
#[test]
fn bytes_are_promised(rt: HostRuntime) -> Result<(), Fail> {
    let memory = memory_within(rt.alloc(), 100)?;
    let free = memory.promise(1000).is_ok();
    memory.keep_back(60);
    let kept = [memory.promise(60).is_ok(), memory.promise(61).is_ok()];
    assert!(rt; free && kept == [true, false] && memory.in_use() == 0);
    Ok(())
}
