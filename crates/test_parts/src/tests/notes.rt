//! tql_run: the refused statements that are reported to a listener, and their positions.
use crate::tests::devices::Lengths;
use std::test::Fail;
use tql_detail::place::Place;
use tql_memory::memory;
use tql_result::vec_sink::VecSink;
use tql_run::note::{Note, Told};
use tql_run::notes::Notes;
use tql_run::runner::run;
use tql_run::slice_source::SliceSource;
use tql_value::refusal::Refusal;

/// A text over three lines, comments, empty pieces, and a statement that no `;` ends.
const SCRIPT: &[u8] = b"\n-- one; two\nab;no;\n'\n;\n'; -- \n -- no\n no;\n;;no\n;cd";

/// The refusals in it.
const NOTES: [Note; 3] = [
    Note {
        statement: 2,
        line: 3,
        refusal: Refusal::NotAStatement,
    },
    Note {
        statement: 4,
        line: 8,
        refusal: Refusal::NotAStatement,
    },
    Note {
        statement: 6,
        line: 10,
        refusal: Refusal::UnfinishedStatement,
    },
];

/// The refusal of a statement that begins a script.
const FIRST: Note = Note {
    statement: 1,
    line: 1,
    refusal: Refusal::NotAStatement,
};

/// The number of allocations for the notes and for the replies, and the number of bytes that are read at once.
#[derive(Clone, Copy)]
struct Setting {
    size: usize,
    notes: u64,
    replies: u64,
}

/// No limits.
const SOUND: Setting = Setting {
    size: usize::MAX,
    notes: u64::MAX,
    replies: u64::MAX,
};

/// Returns the notes of a run.
fn notes_of(rt: &impl AllocGlobal, script: &[u8], setting: Setting) -> Result<Notes, Fail> {
    let all = memory(rt.alloc(), u64::MAX)?;
    let replies = memory(rt.alloc(), setting.replies)?;
    let mut notes = Notes::new(memory(rt.alloc(), setting.notes)?);
    let mut source = SliceSource::in_pieces(script, setting.size);
    let mut sink = VecSink::new(Vec::new(replies));
    let _ = run(
        &mut Lengths { memory: all },
        &mut source,
        &mut sink,
        &mut notes,
    );
    Ok(notes)
}

/// Scripts, whether all their notes are kept, and the kept ones: in reads of each size; where no note can be kept; and
/// where the reply to a refused statement cannot be written.
static CASES: [(&[u8], Setting, bool, &[Note]); 5] = [
    (SCRIPT, Setting { size: 1, ..SOUND }, true, &NOTES),
    (SCRIPT, Setting { size: 3, ..SOUND }, true, &NOTES),
    (SCRIPT, SOUND, true, &NOTES),
    (SCRIPT, Setting { notes: 0, ..SOUND }, false, &[]),
    (
        b"no;no",
        Setting {
            replies: 0,
            ..SOUND
        },
        true,
        &[FIRST],
    ),
];

#[test]
fn tells_where_refused_statements_stand(rt: HostRuntime) -> Result<(), Fail> {
    for (number, &(script, setting, is_whole, kept)) in CASES.iter().enumerate() {
        let notes = notes_of(&rt, script, setting)?;
        let is_right = notes.is_whole() == is_whole && notes.kept.as_slice() == kept;
        assert!(rt; is_right, "case {number}");
    }
    Ok(())
}

/// The places that are reported with the refusals of the script, including that of its unfinished statement.
static PLACES: [Place; 3] = [
    Place { line: 3, column: 4 },
    Place { line: 8, column: 2 },
    Place {
        line: 10,
        column: 2,
    },
];

/// Whether these places are reported, and no others.
fn are_placed(told: &[Told], places: &[Place]) -> bool {
    let mut are_right = told.len() == places.len();
    for (told, place) in told.iter().zip(places) {
        are_right = are_right && told.detail.place == Some(*place);
    }
    are_right
}

#[test]
fn tells_where_what_is_told_beside_stands(rt: HostRuntime) -> Result<(), Fail> {
    let notes = notes_of(&rt, SCRIPT, SOUND)?;
    assert!(rt; are_placed(&notes.told, &PLACES));
    Ok(())
}
