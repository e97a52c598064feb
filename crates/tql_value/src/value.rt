//! Values, owned or borrowed, their kinds, and the result tables of queries.
ghost use Rattle.std.specs.Prelude.{◌≡◌, MatchResult, option_map};
ghost use Rattle.tql_spec.specs.Datum.{kind_of, is_null as null_of};
ghost use Rattle.tql_value.specs.Views.{datum_of_value, datum_of_view, plain_kind};

use crate::refusal::Refusal;
use crate::text::Text;
use std::alloc::AllocError;
use tql_memory::Memory;

/// The kinds of values that are not NULL.
#[derive(Clone, Copy, PartialEq, Eq, Debug)]
pub enum Kind {
    /// A whole number of 64 bits. INTEGER, INT and BIGINT are one kind.
    Int,
    /// A text: VARCHAR.
    Text,
    /// A day: DATE.
    Day,
    /// A moment: TIMESTAMP.
    Moment,
}

/// A value that owns its memory.
#[derive(Default, Drop, Debug)]
pub enum Value {
    /// No value.
    #[default]
    Null,
    /// A whole number.
    Int(i64),
    /// A text.
    Text(Text),
    /// A day, as days since 1970-01-01.
    Day(i64),
    /// A moment, as microseconds since 1970-01-01 00:00:00.
    Moment(i64),
}

/// A value for reading, which borrows its text.
#[derive(Clone, Copy, Default, PartialEq, Eq, Debug)]
pub enum View<'a> {
    /// No value.
    #[default]
    Null,
    /// A whole number.
    Int(i64),
    /// A text.
    Text(&'a str),
    /// A day, as days since 1970-01-01.
    Day(i64),
    /// A moment, as microseconds since 1970-01-01 00:00:00.
    Moment(i64),
}

/// The result of a query: its headings, and its rows as lists of values.
#[derive(Debug)]
pub struct ResultTable {
    /// The heading of each column.
    pub headings: Vec<String<Memory>, Memory>,
    /// The rows, each as wide as the headings.
    pub rows: Vec<Vec<Value, Memory>, Memory>,
}

impl Drop for ResultTable {
    fn drop(self) {
        let ResultTable { headings, rows } = self;
        drop(headings);
        drop(rows);
    }
}

impl Value {
    /// Returns the value for reading. Allocates no memory.
    pub fn view(&self) -> View<'_>
        ensures { datum_of_view result ≡ datum_of_value self.now }
    {
        match self {
            Value::Null => View::Null,
            Value::Int(number) => View::Int(*number),
            Value::Text(text) => View::Text(text.as_str()),
            Value::Day(day) => View::Day(*day),
            Value::Moment(moment) => View::Moment(*moment),
        }
    }
}

impl<'a> View<'a> {
    /// Copies the value into memory of its own. Only a text is allocated: a refusal of its memory is the only error.
    pub fn to_value(self, memory: Memory) -> Result<Value, Refusal>
        ensures { MatchResult result
            (λ v. datum_of_value v ≡ datum_of_view self.entry)
            (λ e. e ≡ Refusal.OutOfMemory) }
    {
        match self {
            View::Null => Ok(Value::Null),
            View::Int(number) => Ok(Value::Int(number)),
            View::Text(text) => Ok(Value::Text(Text::copy_of(memory, text)?)),
            View::Day(day) => Ok(Value::Day(day)),
            View::Moment(moment) => Ok(Value::Moment(moment)),
        }
    }

    /// Returns the kind of the value, or `None` for NULL.
    pub fn kind(self) -> Option<Kind>
        ensures { option_map plain_kind result ≡ kind_of (datum_of_view self.entry) }
    {
        match self {
            View::Null => None,
            View::Int(_) => Some(Kind::Int),
            View::Text(_) => Some(Kind::Text),
            View::Day(_) => Some(Kind::Day),
            View::Moment(_) => Some(Kind::Moment),
        }
    }

    /// Whether the value is NULL.
    pub fn is_null(self) -> bool
        ensures { result ≡ null_of (datum_of_view self.entry) }
    {
        matches!(self, View::Null)
    }
}

impl Clone for Value {
    ghost use Rattle.std.specs.Prelude.{◌≡◌};
    ghost use Rattle.tql_value.specs.Views.{datum_of_value};

    ghost is_clone = { λ s t. datum_of_value t ≡ datum_of_value s };

    fn clone(&self) -> Result<Value, AllocError> {
        Ok(match self {
            Value::Null => Value::Null,
            Value::Int(number) => Value::Int(*number),
            Value::Text(text) => Value::Text(text.clone()?),
            Value::Day(day) => Value::Day(*day),
            Value::Moment(moment) => Value::Moment(*moment),
        })
    }
}
