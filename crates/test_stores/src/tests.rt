//! One file for each subject; the others share `stores`.
mod histories;
mod memory;
mod prunings;
mod stores;
