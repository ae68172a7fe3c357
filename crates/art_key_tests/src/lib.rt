//! Tests of keys that never conflict, by public calls. There are only tests here.
#![tactic(auto)]

#[cfg(test)]
mod tests;
