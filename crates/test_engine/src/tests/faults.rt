//! An output whose memory runs out.
use crate::tests::Engine;
use std::test::Fail;
use tql_engine::runner::run_bytes;
use tql_memory::memory;
use tql_run::runner::{Fault, Summary};

/// A table, its clock, a row, a query, and an unfinished statement.
const SCRIPT: &str = "CREATE TABLE log (x INTEGER, s TIMESTAMP GENERATED ALWAYS AS ROW START,
  e TIMESTAMP GENERATED ALWAYS AS ROW END,
  PERIOD FOR SYSTEM_TIME (s, e)) WITH SYSTEM VERSIONING;
AT TIMESTAMP '2011-01-01 00:00:00';
INSERT INTO log VALUES (7);
SELECT * FROM log FOR SYSTEM_TIME AS OF TIMESTAMP '2011-01-01 00:00:00';
INSERT INTO";

const WHOLE: &str = "CREATE TABLE\nAT\nINSERT 1\nX|S|E\n\
    7|2011-01-01 00:00:00|9999-12-31 23:59:59.999999\n(1 rows)\nREFUSED E12 unfinished statement\n";

/// The counts of a complete run of the script.
const COUNTED: Summary = Summary {
    statements: 5,
    refused: 1,
};

/// More allocations than the replies to the script make.
const MOST_GROWTHS: u64 = 20;

/// Whether an output is a beginning of the expected one that is not shorter than `least`, and the run ended
/// accordingly: with these counts if it is whole, or because a write failed.
fn is_beginning(end: Result<Summary, Fault>, text: &[u8], least: usize) -> bool {
    let is_whole = text.len() == WHOLE.len();
    let ends_well = match end {
        Ok(summary) => is_whole && summary == COUNTED,
        Err(fault) => fault == Fault::Write && !is_whole,
    };
    ends_well && least <= text.len() && WHOLE.as_bytes().starts_with(text)
}

#[test]
fn keeps_a_beginning_where_the_output_cannot_grow(rt: HostRuntime) -> Result<(), Fail> {
    let all = memory(rt.alloc(), u64::MAX)?;
    let mut last = 0;
    let mut are_right = true;
    for growths in 0..MOST_GROWTHS {
        let mut output = Vec::new(memory(rt.alloc(), growths)?);
        let end = run_bytes(&mut Engine::new(all), SCRIPT.as_bytes(), &mut output);
        let is_late = end.is_err() || growths > 0;
        are_right = are_right && is_late && is_beginning(end, &output, last);
        last = output.len();
    }
    assert!(rt; are_right && last == WHOLE.len());
    Ok(())
}
