//! The detail of a refused statement, by why it is refused.
use crate::held::Held;
use tql_detail::detail::Detail;
use tql_index::index::IntervalIndex;
use tql_syntax_fault::told::{depth_detail, syntax_detail};
use tql_syntax_fault::unfinished::unfinished_detail;
use tql_value::refusal::Refusal;

impl<I: IntervalIndex> Held<'_, I> {
    /// Returns the detail of a text that is refused for this reason. None if nothing more is known, or if an allocation
    /// is refused.
    pub fn detail(&self, text: &[u8], refusal: Refusal) -> Option<Detail> {
        match refusal {
            Refusal::NotAStatement => syntax_detail(self.memory, text),
            Refusal::NestedTooDeep => depth_detail(self.memory, text),
            Refusal::UnfinishedStatement => unfinished_detail(self.memory, text),
            Refusal::TableUnknownOrAlreadyThere
            | Refusal::NameUnknownAmbiguousOrRepeated
            | Refusal::TypesDoNotFit
            | Refusal::FormNotAllowedHere
            | Refusal::TableIsReferenced
            | Refusal::TooManyTablesOrReaders
            | Refusal::PortionNotRising => self.name_detail(text),
            Refusal::ValueOutOfRange => match self.name_detail(text) {
                Some(detail) => Some(detail),
                None => self.row_detail(text, refusal),
            },
            Refusal::NullNotAllowed
            | Refusal::PeriodNotRising
            | Refusal::CheckFailed
            | Refusal::DuplicateKey
            | Refusal::ReferenceNotMet => self.row_detail(text, refusal),
            Refusal::NotInThisTransactionState
            | Refusal::MomentNotAllowed
            | Refusal::BeforeTheHorizon
            | Refusal::ReaderNotUsable
            | Refusal::ReadersAreOpen => self.state_detail(text, refusal),
            _ => None,
        }
    }
}
