//! Tests of insertions, of deletions and of freed trees, by public calls. There are only tests here.
#![tactic(auto)]

#[cfg(test)]
mod tests;
