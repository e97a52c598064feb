//! Scopes, in which names are looked up, and the things that a name can mean.
ghost use Rattle.std.specs.Prelude.{◌<◌, ◌+◌, ◌^◌, All, length};
ghost use Rattle.std.specs.Option.{ForSome};
ghost use Rattle.tql_bind_expr.specs.Within.{HasEnds, HasSystem};

use tql_catalog::definition::{Application, Column, System};
use tql_expr::terms::ExprId;
use tql_value::value::Kind;

/// A table reference in scope: its name, and the columns, application periods and system period of its table. `offset`
/// is the index of its first column among those of the scope, and `start` the byte offset of its name in the text. A
/// scope is a slice of these.
#[derive(Clone, Copy)]
pub struct Known<'a> {
    pub name: &'a str,
    pub columns: &'a [Column],
    pub applications: &'a [Application],
    pub system: Option<System>,
    pub offset: usize,
    pub start: u32,
    ghost numbered: { offset + length columns.now < 2 ^ 64 },
    ghost ends: { All (HasEnds (length columns.now)) applications.now },
    ghost generated: { ForSome system (HasSystem (length columns.now)) },
}

/// What a name can mean, by column indexes.
#[derive(Clone, Copy)]
pub enum Thing<'a> {
    /// A column with its index.
    Column(usize, &'a Column),
    /// An application period: the columns of its start and its end, and the type of its points.
    Period(usize, usize, Kind),
}

/// An expression in the arena of its statement, with its type if that is known, and its byte offset in the statement's
/// text.
#[derive(Clone, Copy)]
pub struct Typed {
    pub expr: ExprId,
    pub kind: Option<Kind>,
    pub start: u32,
}
