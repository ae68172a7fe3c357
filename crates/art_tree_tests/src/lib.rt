//! Tests of whole trees and of the stores that they are in, and of drawn commands compared with the oracle. There are
//! only tests here.
#![tactic(auto)]

#[cfg(test)]
mod tests;
