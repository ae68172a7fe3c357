//! Tests of the engine over readers and writers in memory, by public calls. There are only tests here.
#![tactic(auto)]

#[cfg(test)]
mod tests;
