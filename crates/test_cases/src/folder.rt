//! The names of a folder's files, and of the cases to which they belong.
use std::alloc::{AllocError, Global};
use std::rt::Files;
use std::{fs, io};

/// Returns the names in a folder, sorted by their bytes.
pub fn names_in(rt: &HostRuntime, folder: &str) -> io::Result<Vec<String>> {
    let mut names = Vec::new(rt.alloc());
    for entry in fs::read_dir(rt, folder)? {
        names.push(String::from_str(rt.alloc(), entry?.file_name())?)?;
    }
    names.sort_unstable();
    Ok(names)
}

/// Returns the case of a file: its name without the ending of a script or of an expected output. A file with another
/// ending is a case of its own, which has no script.
fn case_of(file: &str) -> &str {
    for ending in [".sql", ".check.out", ".out", ".err", ".marks"] {
        if let Some(case) = file.strip_suffix(ending) {
            return case;
        }
    }
    file
}

/// Returns the names of the cases of these files, each once. The names of the files must be sorted.
pub fn case_names(alloc: Global, files: &[String]) -> Result<Vec<&str>, AllocError> {
    let mut cases = Vec::new(alloc);
    for file in files {
        let case = case_of(file.as_str());
        if cases.last() != Some(&case) {
            cases.push(case)?;
        }
    }
    Ok(cases)
}
