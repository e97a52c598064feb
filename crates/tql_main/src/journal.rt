//! What is said of a journal.
use tql_journal_file::fault::JournalFault;
use tql_journal_file::opening::{Kept, open_journal};
use tql_journal_file::reading::is_same_file;
use tql_options::options::Input;
use tql_run::runner::Fault;
use tql_shell::engine::Engine;
use tql_shell::progress::name_of;
use tql_shell::settings::Replies;
use tql_shell::shown::Shown;

/// Reports why a file cannot be used as a journal.
pub(crate) fn say_fault(rt: &impl Eprint, path: &str, fault: &JournalFault) {
    let path = Shown(path);
    let _ = eprintln!(rt; "tql: journal {path}{fault}");
}

/// Reports at a terminal whether what is done is kept.
pub(crate) fn say_kept(rt: &impl Eprint, journal: Option<&str>) {
    let _ = match journal {
        Some(path) => {
            let path = Shown(path);
            eprintln!(rt; "tql: the journal {path} keeps what is done")
        }
        None => eprintln!(rt; "tql: nothing is kept at the end; --journal FILE keeps it"),
    };
}

/// Reports that a journal could not be written.
pub(crate) fn say_unkept(rt: &impl Eprint, path: &str) {
    let path = Shown(path);
    let _ = eprintln!(rt;
        "tql: cannot write the journal {path}; what was not replied to may not be kept"
    );
}

/// Reports what was cut off the end of a file, if something was.
fn say_cut(rt: &impl Eprint, path: &str, torn: u64) {
    if torn != 0 {
        let path = Shown(path);
        let _ = eprintln!(rt;
            "tql: journal {path}: its last {torn} bytes, of a statement never answered, are cut off"
        );
    }
}

/// Opens a journal, runs it on a new engine, and returns the sink that keeps what is done from then on, and sends
/// replies to a writer. Reports what was cut off, or why the file cannot be used.
pub(crate) fn open_kept<'r>(
    rt: &'r HostRuntime,
    path: &str,
    engine: &mut Engine,
    replies: Replies<'r>,
) -> Result<Kept<Replies<'r>>, Fault> {
    match open_journal(rt, path, engine, replies) {
        Ok(opened) => {
            say_cut(rt, path, opened.torn);
            Ok(opened.sink)
        }
        Err(fault) => {
            say_fault(rt, path, &fault);
            Err(Fault::Read)
        }
    }
}

/// Whether an input is the journal itself, which is reported: what is kept would be read as more of the input.
pub(crate) fn is_journal(rt: &HostRuntime, journal: Option<&str>, input: Input<'_>) -> bool {
    let path = match input {
        Input::Standard => "/dev/stdin",
        Input::File(path) => path,
        Input::Text(_) => "",
    };
    let is_same = match journal {
        Some(journal) => is_same_file(rt, journal, path),
        None => false,
    };
    if is_same {
        let name = Shown(name_of(input));
        let _ = eprintln!(rt; "tql: cannot read {name}: it is the journal of this run");
    }
    is_same
}
