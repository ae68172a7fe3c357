//! The format of snapshots, and snapshots of maps and sets.

mod bytes;
mod faults;
mod kinds;
mod lists;
mod maps;
mod random;
mod values;
