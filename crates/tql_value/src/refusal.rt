//! The reasons to refuse a statement, and the order in which they are reported.
ghost use Rattle.std.specs.Prelude.{◌≡◌, Some};
ghost use Rattle.tql_spec.specs.Refusal.{earlier as earlier_of, place as place_of};
ghost use Rattle.tql_spec.specs.Text.{number as number_of, wording};
ghost use Rattle.tql_value.specs.Refusals.{refusal_of};

use crate::arithmetic::Range;
use std::alloc::{AllocError, AllocFailed};
use std::error::Error;
use std::fmt;

/// Why a statement was refused. If there are several reasons, the first one in this order is reported.
#[derive(Clone, Copy, PartialEq, Eq, Debug)]
pub enum Refusal {
    /// The statement has more than 1,048,576 bytes.
    StatementTooLong,
    /// The statement's text is not UTF-8.
    NotUtf8,
    /// The input ended before the statement's `;`.
    UnfinishedStatement,
    /// More than 64 parentheses are open at once.
    NestedTooDeep,
    /// The text is not a sequence of tokens, or its tokens are not in the grammar.
    NotAStatement,
    /// A table of more than 64 columns, or a query of more than 8 references.
    TooManyColumnsOrTables,
    /// The statement needs an open transaction, or needs that none is open.
    NotInThisTransactionState,
    /// The clock cannot be set to this moment, or has no moment left.
    MomentNotAllowed,
    /// An open reader needs what the statement would remove.
    ReadersAreOpen,
    /// A table that does not exist, or one that already exists.
    TableUnknownOrAlreadyThere,
    /// A name that is unknown, ambiguous or repeated.
    NameUnknownAmbiguousOrRepeated,
    /// Kinds, lengths or numbers of cells that do not fit.
    TypesDoNotFit,
    /// A form that is not allowed in this place.
    FormNotAllowedHere,
    /// A table that another references.
    TableIsReferenced,
    /// The 1,001st table, or the 257th reader.
    TooManyTablesOrReaders,
    /// A moment whose versions are pruned.
    BeforeTheHorizon,
    /// A reader that does not exist, or cannot be used in this way.
    ReaderNotUsable,
    /// A literal, an evaluation or a text out of its range.
    ValueOutOfRange,
    /// A portion that does not start before it ends.
    PortionNotRising,
    /// A null where none is allowed.
    NullNotAllowed,
    /// An application-time period that does not start before it ends.
    PeriodNotRising,
    /// A CHECK that is false.
    CheckFailed,
    /// Two rows with the same key.
    DuplicateKey,
    /// A reference that matches no row.
    ReferenceNotMet,
    /// An allocation was refused.
    OutOfMemory,
}

impl Refusal {
    /// Returns the number that is printed after `E`.
    pub fn number(self) -> u32
        ensures { result ≡ number_of (refusal_of self) }
    {
        match self.text().as_bytes() {
            [_, tens, units, ..] => u32::from(tens - b'0') * 10 + u32::from(units - b'0'),
            _ => 0,
        }
    }

    /// Returns the position in the order of report, from 0.
    pub fn place(self) -> u32
        ensures { result ≡ place_of (refusal_of self) }
    {
        self as u32
    }

    /// Returns the one of the two that is reported first.
    pub fn earlier(self, other: Refusal) -> Refusal
        ensures { refusal_of result ≡ earlier_of (refusal_of self) (Some (refusal_of other)) }
    {
        if other.place() < self.place() {
            other
        } else {
            self
        }
    }

    /// Returns the number and the text, as they are printed.
    pub fn text(self) -> &'static str
        ensures { result.now ≡ wording (refusal_of self) }
    {
        match self {
            Refusal::StatementTooLong => "E13 statement too long",
            Refusal::NotUtf8 => "E11 not UTF-8",
            Refusal::UnfinishedStatement => "E12 unfinished statement",
            Refusal::NestedTooDeep => "E14 nested too deep",
            Refusal::NotAStatement => "E10 not a statement",
            Refusal::TooManyColumnsOrTables => "E15 too many columns or tables",
            Refusal::NotInThisTransactionState => "E40 not in this transaction state",
            Refusal::MomentNotAllowed => "E41 moment not allowed",
            Refusal::ReadersAreOpen => "E47 readers are open",
            Refusal::TableUnknownOrAlreadyThere => "E20 table unknown or already there",
            Refusal::NameUnknownAmbiguousOrRepeated => "E21 name unknown, ambiguous or repeated",
            Refusal::TypesDoNotFit => "E22 types do not fit",
            Refusal::FormNotAllowedHere => "E23 form not allowed here",
            Refusal::TableIsReferenced => "E24 table is referenced",
            Refusal::TooManyTablesOrReaders => "E16 too many tables or readers",
            Refusal::BeforeTheHorizon => "E45 before the horizon",
            Refusal::ReaderNotUsable => "E46 reader not usable",
            Refusal::ValueOutOfRange => "E30 value out of range",
            Refusal::PortionNotRising => "E31 portion not rising",
            Refusal::NullNotAllowed => "E32 null not allowed",
            Refusal::PeriodNotRising => "E33 period not rising",
            Refusal::CheckFailed => "E34 check failed",
            Refusal::DuplicateKey => "E35 duplicate key",
            Refusal::ReferenceNotMet => "E36 reference not met",
            Refusal::OutOfMemory => "E01 out of memory",
        }
    }
}

impl fmt::Display for Refusal {
    fn fmt<W: fmt::Write>(&self, f: &mut fmt::Formatter<W>) -> fmt::Result {
        f.write_str(self.text())
    }
}

impl Error for Refusal {}

impl From<AllocError> for Refusal {
    ghost use Rattle.std.specs.Prelude.{◌≡◌};
    ghost use Rattle.tql_value.specs.declared.refusal.Refusal.TheVariants.{OutOfMemory};

    ghost from_gives = { λ _ e. e ≡ OutOfMemory };

    fn from(_error: AllocError) -> Self {
        Refusal::OutOfMemory
    }
}

impl<T: Drop> From<AllocFailed<T>> for Refusal {
    ghost use Rattle.std.specs.Prelude.{◌≡◌};
    ghost use Rattle.tql_value.specs.declared.refusal.Refusal.TheVariants.{OutOfMemory};

    ghost from_gives = { λ _ e. e ≡ OutOfMemory };

    fn from(_failed: AllocFailed<T>) -> Self {
        Refusal::OutOfMemory
    }
}

impl From<Range> for Refusal {
    ghost use Rattle.std.specs.Prelude.{◌≡◌};
    ghost use Rattle.tql_value.specs.declared.refusal.Refusal.TheVariants.{ValueOutOfRange};

    ghost from_gives = { λ _ e. e ≡ ValueOutOfRange };

    fn from(_range: Range) -> Self {
        Refusal::ValueOutOfRange
    }
}
