//! An index of periods whose lookups all fail.
use std::alloc::AllocError;
use std::marker::Model;
use tql_index::index::{Id, IntervalIndex};
use tql_index::span::Span;
use tql_list_index::list_index::ListIndex;
use tql_memory::Memory;
use tql_period::period::Period;

/// An index that keeps its entries in a list. Each lookup fails with an allocation error.
#[derive(Drop)]
pub struct Mute {
    index: ListIndex,
}

impl Model for Mute {
    ghost use Rattle.std.specs.Prelude.{List};
    ghost use Rattle.tql_index.specs.Entry.{Entry};

    ghost Value = { List Entry };

    ghost view = { λ m. m.index };
}

impl IntervalIndex for Mute {
    ghost entries = { λ m. m };

    fn new(memory: Memory) -> Self {
        Mute {
            index: ListIndex::new(memory),
        }
    }

    fn add(&mut self, period: Period, id: Id) -> Result<(), AllocError> {
        self.index.add(period, id)
    }

    fn remove(&mut self, period: Period, id: Id) -> bool {
        self.index.remove(period, id)
    }

    fn stab(&self, _point: i64) -> Result<Vec<Id, Memory>, AllocError> {
        Err(AllocError)
    }

    fn overlapping(&self, _period: Period) -> Result<Vec<Id, Memory>, AllocError> {
        Err(AllocError)
    }

    fn add_span(&mut self, span: Span, id: Id) -> Result<(), AllocError> {
        self.index.add_span(span, id)
    }

    fn remove_span(&mut self, span: Span, id: Id) -> bool {
        self.index.remove_span(span, id)
    }

    fn sharing(&self, _span: Span) -> Result<Vec<Id, Memory>, AllocError> {
        Err(AllocError)
    }

    fn in_groups(&self, _low: i64, _high: i64) -> Result<Vec<Id, Memory>, AllocError> {
        Err(AllocError)
    }
}
