//! Tests of the map and of sets, by public calls. There are only tests here.
#![tactic(auto)]

#[cfg(test)]
mod tests;
