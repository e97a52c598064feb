//! The last answer of an engine, and how far its host has read it.
ghost use Rattle.std.specs.Prelude.{◌≡◌, min, take, drop, option_map, is_some, None, if◌then◌else◌};
ghost use Rattle.tql_value.specs.Views.{datum_of_view, rows_of};
ghost use Rattle.tql_host_cells.specs.Texts.{copied};
ghost use Rattle.tql_host_cells.specs.Cells.{nothing, told_cell, text_in};
ghost use Rattle.tql_host_cells.specs.Block.{block, column_of};
ghost use Rattle.tql_host_cursor.specs.Parts.{copied_known, told_known};
ghost use Rattle.tql_host_cursor.specs.Moves.{no_line, refused_memory};

use crate::details::detail_text;
use crate::json::json_shown;
use crate::parts::{heading, is_refused, is_table, rows_of, told_answer, told_fault, verb};
use crate::statement::statement_text;
use std::marker::Model;
use tql_detail::detail::Detail;
use tql_host_cells::block::put_block;
use tql_host_cells::cells::{cell_of, told_cell};
use tql_host_cells::requests::{Asked, Told};
use tql_host_cells::texts::{signed, told_text};
use tql_memory::Memory;
use tql_result::answer::Answer;
use tql_result::reply::Reply;
use tql_run::responder::Responder;
use tql_run::session::Session;
use tql_value::refusal::Refusal;
use tql_value::value::{Value, View};

/// The last answer of what answers statements, which a host reads part by part, and a script that the host feeds in
/// parts.
pub struct Cursor {
    memory: Memory,
    script: Option<Session>,
    answer: Option<Answer>,
    detail: Option<Detail>,
    /// The line of the last statement.
    line: u64,
    /// The number of rows that were gone to.
    gone: usize,
    /// The line of JSON of the answer, if it was asked for.
    text: Vec<u8, Memory>,
}

impl Drop for Cursor {
    fn drop(self) {
        let Cursor {
            memory: _,
            script,
            answer,
            detail,
            line: _,
            gone: _,
            text,
        } = self;
        drop(script);
        drop(answer);
        drop(detail);
        drop(text);
    }
}

impl Model for Cursor {
    ghost use Rattle.tql_host_cursor.specs.Cursors.{CursorModel, IsReadable};

    ghost Value = { CursorModel };

    ghost view = { λ c. record {
      script = c.script;
      answer = c.answer;
      detail = c.detail;
      line = c.line;
      gone = c.gone;
    } };

    ghost invariant = { λ c. IsReadable c.line c.answer c.detail c.text.items };
}

/// Returns the detail of the refusal of the statement with this text, which was the last one answered.
fn detail_of<R: Responder>(responder: &R, text: &[u8], answer: &Answer) -> Option<Detail> {
    match answer {
        Answer::Replied(Reply::Refused(refusal)) => responder.detail(text, *refusal),
        _ => None,
    }
}

/// Returns a copy of a detail. None if its memory is refused.
fn copy_of(memory: Memory, detail: Option<&Detail>) -> Option<Detail> {
    match detail?.copied(memory) {
        Ok(copy) => Some(copy),
        Err(_) => None,
    }
}

/// Tells that there is no memory.
fn no_memory() -> Told
    ensures { result ≡ refused_memory }
{
    let mut told = Told::nothing();
    told.kind = 3;
    told.code = 1;
    told
}

/// Tells that there is no memory for a line of JSON.
fn no_line() -> Told
    ensures { result ≡ no_line }
{
    let mut told = Told::nothing();
    told.code = 1;
    told
}

/// Tells a text, if it is known.
fn told_known(text: Option<&[u8]>, start: u64, room: &mut [u8]) -> Told
    ensures told { result ≡ told_known (option_map (λ t. t.now) text.entry) }
    ensures copied { room.new ≡ copied_known (option_map (λ t. t.now) text.entry) start room.old }
{
    match text {
        Some(text) => told_text(text, start, room),
        None => Told::nothing(),
    }
}

/// Returns the lesser of two counts.
fn least(count: u64, most: usize) -> usize
    ensures { result ≡ min count most }
{
    if count < most as u64 {
        count as usize
    } else {
        most
    }
}

/// Returns the rows without the first ones.
fn behind(rows: &[Vec<Value, Memory>], count: u64) -> &[Vec<Value, Memory>]
    ensures { result.now ≡ drop count rows.now }
{
    &rows[least(count, rows.len())..]
}

/// Returns the first rows.
fn front(rows: &[Vec<Value, Memory>], count: u64) -> &[Vec<Value, Memory>]
    ensures { result.now ≡ take count rows.now }
{
    &rows[..least(count, rows.len())]
}

impl Cursor {
    ghost use Rattle.tql_host_cursor.specs.Cursors.{forgotten, idle, shown, IsPrintableShown};
    ghost use Rattle.tql_host_cursor.specs.Parts.{cell_shown, gone_over, part_of, refused_as, rows_asked, rows_shown};
    ghost use Rattle.tql_host_cursor.specs.Parts.{table_of, told_answer, told_block, told_place, told_row, told_skip};
    ghost use Rattle.tql_host_cursor.specs.Parts.{with_block};
    ghost use Rattle.tql_host_cursor.specs.Moves.{AnswersText, AnswersScript, EndsScript, FeedsScript, ShowsJson};
    ghost use Rattle.tql_host_cursor.specs.Statements.{statement_text};

    /// Returns a cursor before the first answer.
    pub fn new(memory: Memory) -> Cursor
        ensures { result ≡ idle }
    {
        Cursor {
            memory,
            script: None,
            answer: None,
            detail: None,
            line: 1,
            gone: 0,
            text: Vec::new(memory),
        }
    }

    /// Forgets the last answer.
    fn forget(&mut self)
        ensures { self.new ≡ forgotten self.old }
    {
        self.detail = None;
        self.answer = None;
        self.gone = 0;
        self.text = Vec::new(self.memory);
    }

    /// Takes an answer, of which nothing is read yet, and tells it.
    fn show(&mut self, answer: Option<Answer>, detail: Option<Detail>, line: u64) -> Told
        requires { IsPrintableShown answer }
        ensures shown { self.new ≡ shown answer detail line self.old }
        ensures told { result ≡ told_answer line answer }
    {
        let told = told_answer(line, &answer);
        self.text.clear();
        self.gone = 0;
        self.line = line;
        self.detail = detail;
        self.answer = answer;
        told
    }

    /// Runs one statement, whose text may end with a `;` and blanks, and tells its answer.
    pub fn step<R: Responder>(&mut self, responder: &mut R, text: &[u8]) -> Told
        ensures answered { AnswersText R.answering (statement_text text.now) self.new.answer
            (R.stands responder.old) (R.stands responder.new) }
        ensures told { result ≡ told_answer 1 self.new.answer }
        ensures new { self.new ≡ shown self.new.answer self.new.detail 1 self.old }
    {
        self.forget();
        let text = statement_text(text);
        let answer = responder.answer(text);
        let detail = detail_of(responder, text, &answer);
        self.show(Some(answer), detail, 1)
    }

    /// Takes the answer that a statement is refused, and tells it.
    pub fn refuse(&mut self, refusal: Refusal) -> Told
        ensures told { result ≡ told_answer 1 (refused_as refusal) }
        ensures new { self.new ≡ shown (refused_as refusal) None 1 self.old }
    {
        self.show(Some(Answer::Replied(Reply::Refused(refusal))), None, 1)
    }

    /// Takes bytes of a script from the front, at most 65,536, and none while answers of it are left. Tells how many,
    /// or that there is no memory for a script.
    pub fn feed(&mut self, text: &[u8]) -> Told
        ensures { FeedsScript self.old self.new text.now result }
    {
        if self.script.is_none() {
            match Session::new(self.memory) {
                Ok(session) => self.script = Some(session),
                Err(_) => return no_memory(),
            }
        }
        let mut told = Told::nothing();
        if let Some(session) = &mut self.script {
            told.kind = 1;
            told.number = signed(session.feed(text) as u64);
        }
        told
    }

    /// Answers the next statement of the script that was fed, and tells its answer; nothing if there is none.
    pub fn next<R: Responder>(&mut self, responder: &mut R) -> Told
        ensures answered { AnswersScript R.answering self.old.script self.new
            (R.stands responder.old) (R.stands responder.new) }
        ensures told { result ≡ told_answer self.new.line self.new.answer }
        ensures gone { self.new.gone ≡ 0 }
    {
        self.forget();
        if let Some(session) = &mut self.script {
            let answer = session.next_answer(responder);
            let line = session.line();
            let detail = copy_of(self.memory, session.detail());
            return self.show(answer, detail, line);
        }
        Told::nothing()
    }

    /// Ends the script, so that a text without a `;` is refused, and answers its next statement as `next` does. After
    /// the last answer there is no script.
    pub fn finish<R: Responder>(&mut self, responder: &mut R) -> Told
        ensures answered { EndsScript R.answering self.old.script self.new result
            (R.stands responder.old) (R.stands responder.new) }
        ensures told { result ≡ told_answer self.new.line self.new.answer }
        ensures gone { self.new.gone ≡ 0 }
    {
        if let Some(session) = &mut self.script {
            session.finish();
        }
        let told = self.next(responder);
        if told.kind == 0 {
            self.script = None;
        }
        told
    }

    /// Forgets what was fed and not run. Tells nothing.
    pub fn forget_script(&mut self) -> Told
        ensures new { self.new ≡ record self.old { script = None } }
        ensures told { result ≡ nothing }
    {
        self.script = None;
        Told::nothing()
    }

    /// Goes to the next row. The kind is 1 if there is one; the length counts the rows behind it.
    pub fn row(&mut self) -> Told
        ensures moved { self.new ≡ gone_over 1 self.old }
        ensures told { result ≡ told_row self.old }
    {
        let mut told = Told::nothing();
        let count = rows_of(&self.answer).len();
        if self.gone < count {
            self.gone += 1;
            told.kind = 1;
            told.length = (count - self.gone) as u64;
        }
        told
    }

    /// Goes over rows. The number tells how many, the length counts the rows that are left.
    pub fn skip(&mut self, count: u64) -> Told
        ensures moved { self.new ≡ gone_over count self.old }
        ensures told { result ≡ told_skip count self.old }
    {
        let mut told = Told::nothing();
        let left = rows_of(&self.answer).len().saturating_sub(self.gone);
        let count = least(count, left);
        self.gone += count;
        told.kind = 1;
        told.number = signed(count as u64);
        told.length = (left - count) as u64;
        told
    }

    /// Returns a cell of the current row. Outside of the answer all cells are NULL.
    fn cell_shown(&self, column: usize) -> View<'_>
        ensures { datum_of_view result ≡ cell_shown column self.now }
    {
        match self.gone.checked_sub(1) {
            Some(place) => match rows_of(&self.answer).get(place) {
                Some(row) => cell_of(row, column),
                None => View::Null,
            },
            None => View::Null,
        }
    }

    /// Tells a cell of the current row, and copies its text from `start` on.
    pub fn cell(&self, column: usize, start: u64, room: &mut [u8]) -> Told
        ensures told { result ≡ told_cell (cell_shown column self.now) }
        ensures copied { room.new ≡ copied (text_in (cell_shown column self.now)) start room.old }
    {
        told_cell(self.cell_shown(column), start, room)
    }

    /// Returns the rows behind the current one without the first `start`, at most `count`.
    fn rows_asked(&self, start: u64, count: u64) -> &[Vec<Value, Memory>]
        ensures { rows_of result.now ≡ rows_asked start count self.now }
    {
        let rows = rows_of(&self.answer);
        let left = behind(rows, self.gone as u64);
        let rest = behind(left, start);
        front(rest, count)
    }

    /// Writes the block of a column of the rows behind the current one: `start` rows are left out, and `count` taken.
    /// The number tells how many there were, the length how many bytes the block needs.
    pub fn block(&self, column: usize, start: u64, count: u64, room: &mut [u8]) -> Told
        ensures told { result ≡ (if is_some (table_of self.now.answer)
            then told_block column (rows_asked start count self.now) else nothing) }
        ensures put { room.new ≡ (if is_some (table_of self.now.answer)
            then with_block (block (column_of column (rows_asked start count self.now))) room.old else room.old) }
    {
        let mut told = Told::nothing();
        if is_table(&self.answer) {
            let rows = self.rows_asked(start, count);
            told.kind = 1;
            told.number = signed(rows.len() as u64);
            told.length = put_block(rows, column, room);
        }
        told
    }

    /// Tells the answer as a line of JSON, from `start` on. The code is 1 if there is no memory for the line.
    pub fn json(&mut self, start: u64, room: &mut [u8]) -> Told
        ensures same { self.new ≡ self.old }
        ensures told { ShowsJson self.old start room.old room.new result }
    {
        if self.text.is_empty() {
            match json_shown(self.memory, self.line, &self.answer, &self.detail) {
                Some(text) => self.text = text,
                None => return no_line(),
            }
        }
        told_text(self.text.as_slice(), start, room)
    }

    /// Returns a text of the answer: a heading, the words of what was done, or a part of the detail of a refusal.
    fn part(&self, asked: Asked, place: usize) -> Option<&[u8]>
        ensures { option_map (λ t. t.now) result ≡ part_of asked place self.now }
    {
        match asked {
            Asked::Heading => heading(&self.answer, place),
            Asked::Verb => verb(&self.answer),
            _ => {
                if is_refused(&self.answer) {
                    detail_text(asked, place, &self.detail)
                } else {
                    None
                }
            }
        }
    }

    /// Tells a text of the answer from `start` on; nothing if it is not known.
    pub fn text(&self, asked: Asked, place: usize, start: u64, room: &mut [u8]) -> Told
        ensures told { result ≡ told_known (part_of asked place self.now) }
        ensures copied { room.new ≡ copied_known (part_of asked place self.now) start room.old }
    {
        told_known(self.part(asked, place), start, room)
    }

    /// Tells the line, the character and the row of a fault, as far as they are known.
    pub fn place(&self) -> Told
        ensures { result ≡ told_place self.now }
    {
        if is_refused(&self.answer) {
            told_fault(self.line, &self.detail)
        } else {
            Told::nothing()
        }
    }
}
