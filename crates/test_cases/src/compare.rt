//! The first difference between an output and the expected one.
use std::alloc::AllocError;

/// The text shown in place of a line after the last one.
const END: &str = "(the end)";

/// A line at which two texts differ.
#[derive(Clone, Copy)]
struct Difference<'a> {
    line: u64,
    expected: &'a str,
    found: &'a str,
}

/// Returns the first line at which two texts differ. Texts with the same lines differ after the last one.
fn first_difference<'a>(expected: &'a str, found: &'a str) -> Difference<'a> {
    let mut line = 1u64;
    let mut lines = found.lines();
    for expected in expected.lines() {
        let found = lines.next().unwrap_or(END);
        if expected != found {
            return Difference {
                line,
                expected,
                found,
            };
        }
        line = line.saturating_add(1);
    }
    Difference {
        line,
        expected: END,
        found: lines.next().unwrap_or(END),
    }
}

/// Whether an output is the expected one. If not, writes where it first differs.
pub fn is_expected(fault: &mut String, listed: &[u8], found: &[u8]) -> Result<bool, AllocError> {
    if listed == found {
        return Ok(true);
    }
    let (Ok(listed), Ok(found)) = (str::from_utf8(listed), str::from_utf8(found)) else {
        fault.push_str("is not UTF-8")?;
        return Ok(false);
    };
    let Difference {
        line,
        expected,
        found,
    } = first_difference(listed, found);
    write!(
        fault,
        "differs at line {line}: expected {expected}, got {found}"
    )?;
    Ok(false)
}
