//! One file for each subject; the others share `devices`.
mod devices;
mod indexes;
mod kept;
mod memories;
mod notes;
mod runs;
mod sessions;
mod sinks;
mod sources;
