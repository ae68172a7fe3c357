//! Key types: no key of a type is a prefix of another one, which is proved for each type.
#![tactic(auto)]

mod digits;
pub mod escaped;
pub mod fixed;
pub mod joined;
pub mod joined_array;
pub mod laws;
pub mod short_bytes;
pub mod signed;
pub mod terminated;
pub mod unsigned;
