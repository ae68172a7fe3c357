//! Tests of folds of trees and of the check of trees, by public calls. There are only tests here.
#![tactic(auto)]

#[cfg(test)]
mod tests;
