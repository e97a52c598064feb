//! What a host asks for, and what it is told: records of numbers that C can pass.
ghost use Rattle.std.specs.Prelude.{◌≡◌, option_map};
ghost use Rattle.tql_host_cells.specs.Requests.{asked_by, number_of};
ghost use Rattle.tql_host_cells.specs.Cells.{nothing};

/// A request: what is asked for, and the numbers that it needs. Unused ones are ignored.
#[repr(C)]
#[derive(Clone, Copy)]
pub struct Request {
    /// What is asked for: the number of an `Asked`.
    pub asked: u32,
    /// A column of the answer, or a place in a list, from 0.
    pub column: u32,
    /// A row of the answer, counted from the current one, the first byte of a text, or the first byte of values.
    pub start: u64,
    /// A number of rows or of values.
    pub count: u64,
}

/// The reply to a request.
#[repr(C)]
#[derive(Clone, Copy)]
pub struct Told {
    /// The kind of an answer or of a value.
    pub kind: u32,
    /// The number of a refusal.
    pub code: u32,
    /// A number: a cell, a count of rows, a line.
    pub number: i64,
    /// The number of bytes of the whole text, of which the room took as many as it has.
    pub length: u64,
}

impl Told {
    /// Returns a reply that says nothing.
    pub fn nothing() -> Told
        ensures { result ≡ nothing }
    {
        Told {
            kind: 0,
            code: 0,
            number: 0,
            length: 0,
        }
    }
}

/// What a host can ask for.
#[derive(Clone, Copy, PartialEq, Eq, Debug)]
pub enum Asked {
    /// Runs one statement.
    Step,
    /// Takes bytes of a script.
    Feed,
    /// Answers the next statement of the script that was fed.
    Next,
    /// Ends the script.
    Finish,
    /// The heading of a column.
    Heading,
    /// Goes to the next row.
    Row,
    /// A cell of the current row.
    Cell,
    /// A block of cells of a column.
    Block,
    /// Goes over rows.
    Skip,
    /// The words of what a statement did, or the number and the text of a refusal.
    Verb,
    /// What is wrong in a refused statement.
    Words,
    /// What to write instead.
    Hint,
    /// The constraint that a row violates.
    Constraint,
    /// A column of that constraint.
    FaultColumn,
    /// The line, the character and the row of a fault.
    Place,
    /// The kinds of a query's columns, without running it.
    Kinds,
    /// The answer as JSON.
    Json,
    /// Forgets what is left of a script.
    Forget,
    /// Makes an engine.
    Open,
    /// Ends the engine.
    Close,
    /// The number of bytes in use.
    InUse,
    /// Runs one statement with values.
    StepWith,
    /// The number of places for values in a statement.
    Places,
}

impl Asked {
    /// Returns what a number asks for.
    pub fn of(number: u32) -> Option<Asked>
        ensures { option_map number_of result ≡ asked_by number }
    {
        Some(match number {
            1 => Asked::Step,
            2 => Asked::Feed,
            3 => Asked::Next,
            4 => Asked::Finish,
            5 => Asked::Heading,
            6 => Asked::Row,
            7 => Asked::Cell,
            8 => Asked::Block,
            9 => Asked::Skip,
            10 => Asked::Verb,
            11 => Asked::Words,
            12 => Asked::Hint,
            13 => Asked::Constraint,
            14 => Asked::FaultColumn,
            15 => Asked::Place,
            16 => Asked::Kinds,
            17 => Asked::Json,
            18 => Asked::Forget,
            19 => Asked::Open,
            20 => Asked::Close,
            21 => Asked::InUse,
            22 => Asked::StepWith,
            23 => Asked::Places,
            _ => return None,
        })
    }
}
