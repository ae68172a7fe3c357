//! Tests of lookups, of iterations and of examples, by public calls. There are only tests here.
#![tactic(auto)]

#[cfg(test)]
mod tests;
