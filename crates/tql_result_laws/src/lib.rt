//! Printed answers can be read back: equal texts come from equal answers. This crate has no executable code.
#![tactic(auto)]

ghost use Rattle.tql_result_laws.specs.CsvReadBack.{TablesReadBack};
ghost use Rattle.tql_result_laws.specs.JsonReadBack.{LinesReadBack};
ghost use Rattle.tql_result_laws.specs.JsonlReadBack.{RowsReadBack};
ghost use Rattle.tql_result_laws.specs.ReadBack.{AnswersReadBack};

/// Two answers with the same text are equal: no value can be mistaken for a row, a heading or a count.
pub fn answers_read_back()
    ensures { AnswersReadBack }
{}

/// Two tables with the same CSV text have the same headings and show the same values. NULL differs from an empty text.
/// The number 5 does not differ from the text '5', nor a date from a text that spells it.
pub fn csv_tables_read_back()
    ensures { TablesReadBack }
{}

/// Two equal lines of JSON have the same statement number, the same line number and the same answer. For a refusal, the
/// details of its fault are the same too. A date or a timestamp does not differ from a text that spells it.
pub fn json_lines_read_back()
    ensures { LinesReadBack }
{}

/// Two tables with the same JSON Lines text have the same rows, and the same headings if they have a row. A date or a
/// timestamp does not differ from a text that spells it.
pub fn jsonl_rows_read_back()
    ensures { RowsReadBack }
{}
