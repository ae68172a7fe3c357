//! Tests of sets, of builders, of maps with hints and of snapshots, by public calls. There is nothing here but tests.
#![tactic(auto)]

#[cfg(test)]
mod tests;
