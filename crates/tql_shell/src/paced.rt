//! A reader that gives a script statement by statement, and writes its titles.
use crate::script::Script;
use crate::settings::Replies;
use std::alloc::AllocError;
use std::io::{self, Read, Write};
use tql_prompt::titles::{Title, is_shown, statement_end, title_after};
use tql_prompt::typed::{NOTHING_TYPED, Typed};

/// The number of bytes that are read at once.
const PART: usize = 65_536;

/// A reader that gives at most one statement at a time. So all replies to earlier statements have left before a
/// statement is answered, and what is written before its reply stands before it. It writes the titles of the script
/// where they stand, if they are wanted. What cannot be written is lost.
#[derive(Drop)]
pub struct Paced<'a> {
    script: Script<'a>,
    replies: Replies<'a>,
    has_titles: bool,
    /// The bytes that were read, and which of them were not yet given.
    part: Vec<u8>,
    start: usize,
    end: usize,
    typed: Typed,
    title: Title,
}

impl<'a> Paced<'a> {
    /// Returns a reader over a script. The only error is a refused allocation.
    pub fn new(
        rt: &HostRuntime,
        script: Script<'a>,
        replies: Replies<'a>,
        has_titles: bool,
    ) -> Result<Paced<'a>, AllocError> {
        Ok(Paced {
            script,
            replies,
            has_titles,
            part: vec![in rt.alloc(); 0u8; PART]?,
            start: 0,
            end: 0,
            typed: NOTHING_TYPED,
            title: Title::Absent,
        })
    }

    /// Reads more if all bytes were given.
    fn fill(&mut self) -> io::Result<()> {
        if self.start >= self.end {
            let count = self.script.read(self.part.as_mut_slice())?;
            self.start = 0;
            self.end = count;
        }
        Ok(())
    }

    /// Records a byte that is given, and writes it if it is part of a title.
    fn pass(&mut self, byte: u8) {
        if self.has_titles && is_shown(self.title, byte) {
            let _ = self.replies.write_all(&[byte]);
        }
        self.title = title_after(self.title, self.typed, byte);
        self.typed = self.typed.after(byte);
    }
}

impl Read for Paced<'_> {
    fn read(&mut self, buf: &mut [u8]) -> io::Result<usize> {
        self.fill()?;
        let left = match self.part.get(self.start..self.end) {
            Some(bytes) => statement_end(self.typed, bytes),
            None => 0,
        };
        let count = left.min(buf.len());
        for place in 0..count {
            let byte = self.part.get(self.start).copied().unwrap_or(b' ');
            if let Some(given) = buf.get_mut(place) {
                *given = byte;
            }
            self.pass(byte);
            self.start = self.start.saturating_add(1);
        }
        Ok(count)
    }
}
