//! The memory of the whole engine: one handle, which forwards each call and counts the blocks and bytes that it grants.
//! It is proved that a block is only granted, resized and freed as the inner allocator says, and how bytes are added
//! up. No contract can describe the contents of a cell, so the numbers of granted blocks and bytes are only tested.
#![tactic(auto)]

ghost use Rattle.std.specs.Prelude.{◌≡◌, ◌+◌, ◌-◌, ◌*◌, IfOk};
ghost use Rattle.tql_memory.specs.Bytes.{at_most, may_reach, can_promise};

use std::alloc::{AllocError, Allocator, Global};
use std::cell::Cell;

/// Returns the number of bytes in use after a block of `new` values replaces one of `old` values, where each value
/// takes `each` bytes. Returns `None` if the number is more than `most`.
fn bytes_with(in_use: usize, old: usize, new: usize, each: usize, most: usize) -> Option<usize>
    ensures { result ≡ at_most most (in_use - old * each + new * each) }
{
    let kept = in_use.saturating_sub(old.saturating_mul(each));
    let bytes = kept.checked_add(new.checked_mul(each)?)?;
    if bytes <= most { Some(bytes) } else { None }
}

/// Returns how many bytes may be in use after a block of `new` values replaces one of `old` values: `most` less what is
/// kept back, if the block grows. A block that does not grow is never refused for its bytes.
fn may_reach(most: usize, kept_back: usize, old: usize, new: usize) -> usize
    ensures { result ≡ may_reach most kept_back old new }
{
    if new > old {
        most.saturating_sub(kept_back)
    } else {
        usize::MAX
    }
}

/// Whether `bytes` bytes fit into what is kept back, so that they are granted when all other memory is in use. Where
/// nothing is kept back, nothing is promised.
fn can_promise(kept_back: usize, bytes: usize) -> bool
    ensures { result ≡ can_promise kept_back bytes }
{
    kept_back == 0 || bytes <= kept_back
}

/// The allocation budget.
#[derive(Drop)]
struct Grants {
    /// The number of blocks to grant before one is refused.
    blocks: Cell<u64>,
    /// The number of blocks to grant after a refusal, before the next one.
    later: Cell<u64>,
    /// The number of bytes that the blocks in use take.
    in_use: Cell<usize>,
    /// The greatest number of bytes that they may take.
    most: Cell<usize>,
    /// The number of these bytes that are kept back.
    kept_back: Cell<usize>,
}

impl Grants {
    /// Creates a budget of `blocks` blocks, and of at most `most` bytes in use.
    fn new(blocks: u64, most: usize) -> Grants {
        Grants {
            blocks: Cell::new(blocks),
            later: Cell::new(0),
            in_use: Cell::new(0),
            most: Cell::new(most),
            kept_back: Cell::new(0),
        }
    }

    /// Uses up the grant of a block. Returns whether there was one.
    fn take_block(&self) -> bool {
        match self.blocks.get().checked_sub(1) {
            Some(rest) => {
                self.blocks.set(rest);
                true
            }
            None => {
                self.blocks.set(self.later.get());
                false
            }
        }
    }

    /// Requests a block of `new` values of `each` bytes in place of one of `old` values. Returns whether it is granted,
    /// and counts it if it is. A refusal because of bytes changes nothing.
    fn take(&self, old: usize, new: usize, each: usize) -> bool {
        let most = may_reach(self.most.get(), self.kept_back.get(), old, new);
        match bytes_with(self.in_use.get(), old, new, each, most) {
            Some(bytes) if self.take_block() => {
                self.in_use.set(bytes);
                true
            }
            _ => false,
        }
    }

    /// Counts a block of `new` values of `each` bytes in place of one of `old` values, without a request.
    fn count(&self, old: usize, new: usize, each: usize) {
        if let Some(bytes) = bytes_with(self.in_use.get(), old, new, each, usize::MAX) {
            self.in_use.set(bytes);
        }
    }
}

/// An allocator that forwards its calls to another one, and grants only a limited number of blocks or bytes.
///
/// Each request for a block uses up one grant: the first block of a collection, and each reallocation to a larger or
/// smaller size. This is so even if the inner allocator leaves the block in place. Once no grant is left, every later
/// request is refused until new grants are set, except after `refuse_one_behind`. Freeing a block returns no grant. A
/// request that the inner allocator refuses has used up its grant.
///
/// The bytes of a block are in use until it is freed; after a reallocation, those of its new size are in use. A request
/// for more bytes that would exceed the limit, less what is kept back of it, is refused, and uses up nothing.
#[derive(Drop)]
pub struct Counting<B: Allocator> {
    inner: B,
    grants: Grants,
}

impl<B: Allocator> Counting<B> {
    /// Creates an allocator over `inner` that grants `granted` blocks. No run requests as many as `u64::MAX`.
    pub fn new(inner: B, granted: u64) -> Counting<B>
        ensures inner { result.inner ≡ inner }
    {
        Counting {
            inner,
            grants: Grants::new(granted, usize::MAX),
        }
    }

    /// Creates an allocator over `inner` that grants blocks as long as no more than `most` bytes are in use.
    pub fn within(inner: B, most: usize) -> Counting<B>
        ensures inner { result.inner ≡ inner }
    {
        Counting {
            inner,
            grants: Grants::new(u64::MAX, most),
        }
    }

    /// Returns the number of blocks to grant before one is refused.
    pub fn left(&self) -> u64 {
        self.grants.blocks.get()
    }

    /// Sets the greatest number of bytes in use from now on. Blocks that take more already stay as they are.
    pub fn bound(&self, most: usize) {
        self.grants.most.set(most);
    }

    /// Sets how many bytes of the limit are kept back from now on: requests are refused as if the limit were less by
    /// as many. Without a limit it changes nothing.
    pub fn keep_back(&self, bytes: usize) {
        self.grants.kept_back.set(bytes);
    }

    /// Fails if what is kept back has no room for `bytes` bytes, so that a later request for them may be refused even
    /// though what is kept back is granted by then. Takes no memory. Never fails where nothing is kept back.
    pub fn promise(&self, bytes: usize) -> Result<(), AllocError> {
        if can_promise(self.grants.kept_back.get(), bytes) {
            Ok(())
        } else {
            Err(AllocError)
        }
    }

    /// Returns the number of bytes of the blocks that were granted and not freed.
    pub fn in_use(&self) -> usize {
        self.grants.in_use.get()
    }

    /// Sets the number of blocks to grant from now on, whatever was left, and also after a refusal. All later requests
    /// are refused.
    pub fn grant(&self, granted: u64) {
        self.grants.blocks.set(granted);
        self.grants.later.set(0);
    }

    /// Restores the number of blocks to grant to `left`, as if none had been granted since then.
    pub fn uncount(&self, left: u64) {
        self.grants.blocks.set(left);
    }

    /// Sets the number of blocks to grant from now on. The next request after these is refused, and all later ones are
    /// granted.
    pub fn refuse_one_behind(&self, granted: u64) {
        self.grants.blocks.set(granted);
        self.grants.later.set(u64::MAX);
    }
}

unsafe impl<B: Allocator> Allocator for Counting<B> {
    ghost dealloc_token = { λ heap ty ptr. B.dealloc_token heap.inner ty ptr };

    fn allocate(&self, size: usize, align: usize) -> Result<*mut u8, AllocError> {
        if !self.grants.take(0, size, 1) {
            return Err(AllocError);
        }
        let answer = self.inner.allocate(size, align);
        match answer {
            Ok(_) => {}
            Err(_) => self.grants.count(size, 0, 1),
        }
        answer
    }

    unsafe fn deallocate(&self, ptr: *mut u8, size: usize, align: usize) {
        self.inner.deallocate(ptr, size, align);
        self.grants.count(size, 0, 1);
    }

    unsafe fn grow<T>(
        &self,
        ptr: *mut T,
        len: usize,
        old_cap: usize,
        new_cap: usize,
    ) -> Result<*mut T, AllocError> {
        if !self.grants.take(old_cap, new_cap, size_of::<T>()) {
            return Err(AllocError);
        }
        let answer = self.inner.grow(ptr, len, old_cap, new_cap);
        match answer {
            Ok(_) => {}
            Err(_) => self.grants.count(new_cap, old_cap, size_of::<T>()),
        }
        answer
    }

    unsafe fn shrink<T>(
        &self,
        ptr: *mut T,
        len: usize,
        old_cap: usize,
        new_cap: usize,
    ) -> Result<*mut T, AllocError> {
        if !self.grants.take(old_cap, new_cap, size_of::<T>()) {
            return Err(AllocError);
        }
        let answer = self.inner.shrink(ptr, len, old_cap, new_cap);
        match answer {
            Ok(_) => {}
            Err(_) => self.grants.count(new_cap, old_cap, size_of::<T>()),
        }
        answer
    }
}

/// The handle that every type of the engine keeps. It is `Copy`, and an allocator.
pub type Memory = &'static Counting<Global>;

/// Creates a handle that grants `granted` blocks. A program passes `u64::MAX`, and a test passes a small number.
///
/// The allocator of the handle takes one block of `alloc`, which is not counted and never freed, so a program makes
/// only one. Fails with `AllocError` if `alloc` refuses the block.
pub fn memory(alloc: Global, granted: u64) -> Result<Memory, AllocError> {
    let heap = Box::new(alloc, Counting::new(alloc, granted))?;
    Ok(Box::leak(heap))
}

/// Creates a handle that grants blocks as long as no more than `most` bytes are in use. As in `memory`, it takes one
/// block of `alloc`, which is not counted and never freed.
pub fn memory_within(alloc: Global, most: usize) -> Result<Memory, AllocError> {
    let heap = Box::new(alloc, Counting::within(alloc, most))?;
    Ok(Box::leak(heap))
}

/// Returns one more than a count of objects in memory. Fails if the count fills its 64 bits; no memory has room for
/// that many objects.
pub fn one_more(count: usize) -> Result<usize, AllocError>
    ensures { IfOk result (λ next. next ≡ count + 1) }
{
    count.checked_add(1).ok_or(AllocError)
}
