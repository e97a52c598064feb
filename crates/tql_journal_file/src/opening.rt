//! The start of a run with a journal.
use crate::fault::{Damage, JournalFault};
use crate::reading::{buffers, read_file, refuse_others};
use crate::replay::run_silently;
use std::fs::{File, TryLockError};
use std::io::{self, Read, Seek, SeekFrom, Write};
use std::os::unix::fs::OpenOptionsExt;
use std::path::Path;
use tql_journal::found::{Found, Rest};
use tql_journal::seal::HEAD;
use tql_journal_desk::journal::Journal;
use tql_journal_desk::log::FileLog;
use tql_journal_desk::out::StdOut;
use tql_journal_desk::sink::JournalSink;
use tql_run::responder::Responder;
use tql_run::runner::run_in;
use tql_run::silence::Silence;
use tql_run::slice_source::SliceSource;
use tql_run_forms::jsonl_form::JsonlForm;

/// The permissions of a new journal: its owner may read and write it.
const OWNER_ALONE: u32 = 0o600;

/// The sink of a run with a journal: the file, and where replies go.
pub type Kept<W> = JournalSink<FileLog, StdOut<W>>;

/// A journal with which a run goes on.
#[derive(Drop)]
pub struct Opened<W: Write + Drop> {
    /// The sink that keeps what is done from now on.
    pub sink: Kept<W>,
    /// The number of bytes that were cut off: a beginning of a statement that was never answered.
    pub torn: u64,
}

/// Opens a file, which is made if it is missing, and locks it as long as it is open.
fn open_locked(rt: &HostRuntime, path: &str) -> Result<File, JournalFault> {
    refuse_others(rt, path)?;
    let mut options = File::options();
    options
        .read(true)
        .append(true)
        .create(true)
        .mode(OWNER_ALONE);
    let file = options.open(rt, path)?;
    match file.try_lock() {
        Ok(()) => Ok(file),
        Err(TryLockError::WouldBlock) => Err(JournalFault::InUse),
        Err(TryLockError::Error(error)) => Err(JournalFault::System(error)),
    }
}

/// Runs the journal that the first bytes of a file are, and returns whether a transaction is open then.
fn run_first<R: Responder>(
    responder: &mut R,
    file: &mut File,
    end: u64,
) -> Result<bool, JournalFault> {
    file.seek(SeekFrom::Start(0))?;
    let ran = run_silently(responder, file.take(end))?;
    match (ran.refused, ran.unkept) {
        (Some((line, refusal)), _) => Err(JournalFault::Refused(line, refusal)),
        (None, Some(line)) => Err(JournalFault::Unkept(line)),
        (None, None) => Ok(ran.is_open),
    }
}

/// Makes the name of a file in its folder durable.
fn sync_folder(rt: &HostRuntime, path: &str) -> io::Result<()> {
    let folder = match Path::new(path).parent() {
        Some(folder) => folder.as_str(),
        None => "",
    };
    let folder = if folder.is_empty() { "." } else { folder };
    File::open(rt, folder)?.sync_all()
}

/// Cuts off what a crash left after the journal, begins a new journal, and makes the whole file durable.
fn mend(rt: &HostRuntime, path: &str, file: &mut File, found: &Found) -> io::Result<()> {
    if found.size > found.end {
        file.set_len(found.end)?;
    }
    if found.end == 0 {
        file.write_all(HEAD)?;
    }
    file.sync_all()?;
    sync_folder(rt, path)
}

/// Runs the journal in a file, and then mends the file. Returns whether a transaction is open.
fn run_and_mend<R: Responder>(
    rt: &HostRuntime,
    path: &str,
    responder: &mut R,
    file: &mut File,
    found: &Found,
) -> Result<bool, JournalFault> {
    if found.rest == Rest::Damaged {
        return Err(JournalFault::Damaged(Damage::of(found)));
    }
    let is_open = run_first(responder, file, found.end)?;
    mend(rt, path, file, found)?;
    Ok(is_open)
}

/// Returns the sink that goes on with a journal that is in the file and durable.
fn sink_after<W: Write + Drop>(
    rt: &HostRuntime,
    file: File,
    found: &Found,
    replies: W,
) -> Result<Kept<W>, JournalFault> {
    let memory = buffers(rt)?;
    let journal = Journal::new(FileLog::new(file), found.seal.copy(), memory)?;
    let sink = JournalSink::new(journal, StdOut::new(replies), memory)?;
    Ok(sink)
}

/// Ends the transaction that is open at the end of a journal, and keeps that.
fn roll_back<R: Responder, W: Write + Drop>(
    responder: &mut R,
    sink: &mut Kept<W>,
) -> Result<(), JournalFault> {
    let mut source = SliceSource::new(b"ROLLBACK;");
    match run_in(
        responder,
        &mut source,
        sink,
        &mut Silence,
        &mut JsonlForm,
        true,
    ) {
        Ok(_) => Ok(()),
        Err(fault) => Err(JournalFault::Unwritten(fault)),
    }
}

/// Returns what a run goes on with after the journal, without an open transaction.
fn closed<R: Responder, W: Write + Drop>(
    responder: &mut R,
    mut sink: Kept<W>,
    found: &Found,
    is_open: bool,
) -> Result<Opened<W>, JournalFault> {
    if is_open {
        roll_back(responder, &mut sink)?;
    }
    let torn = found.size.saturating_sub(found.end);
    Ok(Opened { sink, torn })
}

/// Goes on with a file in which a journal was found.
fn go_on<R: Responder, W: Write + Drop>(
    rt: &HostRuntime,
    path: &str,
    responder: &mut R,
    mut file: File,
    found: &Found,
    replies: W,
) -> Result<Opened<W>, JournalFault> {
    let is_open = run_and_mend(rt, path, responder, &mut file, found)?;
    let sink = sink_after(rt, file, found, replies)?;
    closed(responder, sink, found, is_open)
}

/// Opens a journal and has a new responder run it, without replies. A file that is missing is made. A statement that
/// was never answered is cut off at its end. A transaction that was open is rolled back, and that is kept. The file is
/// durable then. The sink that goes on with it sends replies to the writer `replies`.
///
/// # Errors
///
/// Why the file cannot be used. Until its statements have run, nothing is written to it.
pub fn open_journal<R: Responder, W: Write + Drop>(
    rt: &HostRuntime,
    path: &str,
    responder: &mut R,
    replies: W,
) -> Result<Opened<W>, JournalFault> {
    let mut file = open_locked(rt, path)?;
    let found = read_file(rt, &mut file, "")?;
    go_on(rt, path, responder, file, &found, replies)
}
