//! Tests of tables of networks, by public calls. There is nothing here but tests.
#![tactic(auto)]

#[cfg(test)]
mod tests;
