//! The line that reports a refused statement.
use std::fmt;
use tql_detail::detail::Detail;
use tql_value::refusal::Refusal;

/// A refused statement, to be written as one line: the statement number, the line, the column of the fault if known,
/// the refusal, and the words and the hint of its detail.
#[derive(Drop)]
pub struct Complaint<'a> {
    pub statement: u64,
    pub line: u64,
    pub refusal: Refusal,
    pub detail: Option<&'a Detail>,
}

impl fmt::Display for Complaint<'_> {
    fn fmt<W: fmt::Write>(&self, f: &mut fmt::Formatter<W>) -> fmt::Result {
        let statement = self.statement;
        let line = self.line;
        let text = self.refusal.text();
        let Some(detail) = self.detail else {
            return write!(f, "statement {statement}, line {line}: {text}");
        };
        match detail.place {
            Some(place) => {
                let line = place.line;
                let column = place.column;
                write!(
                    f,
                    "statement {statement}, line {line}, column {column}: {text}: {detail}"
                )
            }
            None => write!(f, "statement {statement}, line {line}: {text}: {detail}"),
        }
    }
}
