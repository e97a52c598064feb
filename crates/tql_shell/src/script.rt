//! The scripts that a run reads.
use crate::prompts::Prompted;
use std::fs::File;
use std::io::{self, Cursor, Read, Stdin};

/// A script that is read: the standard input, without or with prompts, a file, or a text of the command line.
#[derive(Drop)]
pub enum Script<'a> {
    Standard(Stdin),
    Prompted(Prompted<'a, Stdin>),
    File(File),
    Text(Cursor<Vec<u8>>),
}

impl Read for Script<'_> {
    fn read(&mut self, buf: &mut [u8]) -> io::Result<usize> {
        match self {
            Script::Standard(reader) => reader.read(buf),
            Script::Prompted(reader) => reader.read(buf),
            Script::File(reader) => reader.read(buf),
            Script::Text(reader) => reader.read(buf),
        }
    }
}
