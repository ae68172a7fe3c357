//! Tests of runs, of clones and of the ends of a tree, by public calls. There are only tests here.
#![tactic(auto)]

#[cfg(test)]
mod tests;
