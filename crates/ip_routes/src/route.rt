//! The lines of a table.
ghost use Rattle.std.specs.Prelude.{◌≡◌, ◌≢◌, ◌++◌, ◌∷◌, ◌-◌, ◌^◌, All, List, ℕ, IfErr, IfNone, IfOk, IfSome, min};
ghost use Rattle.std.specs.declared.net.ip_addr.IpAddr.{IpAddr};
ghost use Rattle.std.specs.Bool.{OnFalse, OnTrue};
ghost use Rattle.std.specs.Net.Grammar.{IsIpText};
ghost use Rattle.prefix_table.specs.Networks.{IsNetwork, version_of, width};
ghost use Rattle.ip_routes.specs.Written.{IsFaultOf, IsLength, IsNetworkText, IsWritten, IsWrittenAt, LeadsWithZero, StartsWith};

use prefix_table::network::{Network, address_of, version_of, width};
use std::net::IpAddr;
use thiserror::Error;

/// Why a line is not a route.
#[derive(Clone, Copy, PartialEq, Eq, Debug, Drop, Error)]
pub enum RouteError {
    #[error("not a route")]
    Form,
    #[error("the prefix is longer than an address")]
    Length,
    #[error("host bits are set")]
    HostBits,
}

/// Returns the network of a line: an address, perhaps with a slash and a length, and perhaps a space and a name. An
/// address alone is the network that has only this address.
pub fn parse_route(line: &[u8]) -> Result<Network, RouteError>
    ensures written { IfOk result (IsWritten line.now) }
    ensures network { IfOk result IsNetwork }
    ensures fault { IfErr result (IsFaultOf line.now) }
{
    let Some((address, length)) = read_route(line) else {
        return Err(RouteError::Form);
    };
    let start = address_of(&address);
    if length > u32::from(width(start.version)) {
        return Err(RouteError::Length);
    }
    match Network::new(&address, length as u8) {
        Some(network) => Ok(network),
        None => Err(RouteError::HostBits),
    }
}

// Returns the address and the length of a line. A great length may be cut.
fn read_route(line: &[u8]) -> Option<(IpAddr, u32)>
    ensures written { IfSome result (λ read. (length : ℕ) ×
        IsWrittenAt line.now read.0 length × (read.1 ≡ min length (2 ^ 32 - 1))) }
    ensures none { IfNone result ((address : IpAddr) (length : ℕ) →
        ¬ IsWrittenAt line.now address length) }
{
    read_network(network_text(line))
}

// Returns what is before the first space, or the whole line if it has none.
fn network_text(line: &[u8]) -> &[u8]
    ensures starts { StartsWith line.now result.now }
    ensures word { All (λ c. c ≢ 32) result.now }
{
    match split_at(line, b' ') {
        Some((text, _name)) => text,
        None => line,
    }
}

// Returns the address and the length of the text of a network.
fn read_network(text: &[u8]) -> Option<(IpAddr, u32)>
    ensures written { IfSome result (λ read. (length : ℕ) ×
        IsNetworkText text.now read.0 length × (read.1 ≡ min length (2 ^ 32 - 1))) }
    ensures none { IfNone result ((address : IpAddr) (length : ℕ) →
        ¬ IsNetworkText text.now address length) }
{
    match split_at(text, b'/') {
        Some((start, digits)) => read_prefix(start, digits),
        None => read_host(text),
    }
}

// Returns the address and the length of what is before and after a slash.
fn read_prefix(start: &[u8], digits: &[u8]) -> Option<(IpAddr, u32)>
    ensures written { IfSome result (λ read. IsIpText start.now read.0 ×
        ((length : ℕ) × IsLength digits.now length × (read.1 ≡ min length (2 ^ 32 - 1)))) }
    ensures none { IfNone result ((address : IpAddr) (length : ℕ) →
        IsIpText start.now address → ¬ IsLength digits.now length) }
{
    let Ok(address) = IpAddr::parse_ascii(start) else {
        return None;
    };
    let length = read_length(digits)?;
    Some((address, length))
}

// Returns an address, and how many bits it has.
fn read_host(text: &[u8]) -> Option<(IpAddr, u32)>
    ensures written { IfSome result (λ read. IsIpText text.now read.0 ×
        (read.1 ≡ width (version_of read.0))) }
    ensures none { IfNone result ((address : IpAddr) → ¬ IsIpText text.now address) }
{
    let Ok(address) = IpAddr::parse_ascii(text) else {
        return None;
    };
    Some((address, u32::from(width(version_of(&address)))))
}

// Returns the number that decimal digits write. A great one is cut. No zero leads it.
fn read_length(digits: &[u8]) -> Option<u32>
    ensures number { IfSome result (λ cut. (length : ℕ) × IsLength digits.now length ×
        (cut ≡ min length (2 ^ 32 - 1))) }
    ensures none { IfNone result ((length : ℕ) → ¬ IsLength digits.now length) }
{
    if digits.is_empty() || leads_with_zero(digits) {
        return None;
    }
    let mut length: u32 = 0;
    for byte in digits {
        let digit = char::from(*byte).to_digit(10)?;
        length = length.saturating_mul(10).saturating_add(digit);
    }
    Some(length)
}

// Returns whether a zero is before other digits.
fn leads_with_zero(digits: &[u8]) -> bool
    ensures yes { OnTrue result (LeadsWithZero digits.now) }
    ensures no { OnFalse result (¬ LeadsWithZero digits.now) }
{
    digits.len() > 1 && digits[0] == b'0'
}

// Returns what is before the first such byte, and what is after it; `None` if there is none.
fn split_at(bytes: &[u8], byte: u8) -> Option<(&[u8], &[u8])>
    ensures parts { IfSome result (λ parts. bytes.now ≡ parts.0.now ++ byte ∷ parts.1.now) }
    ensures first { IfSome result (λ parts. All (λ c. c ≢ byte) parts.0.now) }
    ensures none { IfNone result (All (λ c. c ≢ byte) bytes.now) }
{
    let at = bytes.iter().position(|&other| other == byte)?;
    let (before, rest) = bytes.split_at(at);
    Some((before, &rest[1..]))
}
