//! Steps to the longest network that covers an address, by searches for the last network up to another one in order.
ghost use Rattle.std.specs.Prelude.{◌≡◌, ℕ, ◌-◌, ◌≤◌, ◌<◌, true, false, IfSome};
ghost use Rattle.prefix_table.specs.Networks.{IsAddress, IsNetwork, cleared, covers_at, width};
ghost use Rattle.prefix_table.specs.Steps.{IsBound, IsUpToNetwork, cut};

use crate::network::{Address, Network, cleared, width};

/// Returns the network of the first `length` bits of an address.
pub fn cut(address: Address, length: u8) -> Network
    requires address { IsAddress address }
    requires fits { length ≤ width address.version }
    ensures network { result ≡ cut address length }
    ensures is { IsNetwork result }
{
    let open = width(address.version) - length;
    Network {
        number: cleared(address.number, open),
        version: address.version,
        length,
    }
}

/// Returns how long a network can be that covers an address and has at most `length` bits, if the last one up to `cut` of
/// these doesn't cover the address; `None` if there is no such network.
#[tactic(auto, using(crate::proofs::StepLemmas::is_shorter, crate::proofs::StepLemmas::shares_its_bits))]
pub fn next_length(last: Network, address: Address, length: u8) -> Option<u8>
    requires last { IsUpToNetwork last (cut address length) }
    requires fits { length ≤ width address.version }
    requires not_covering { covers_at last address ≡ false }
    ensures bound { (network : Network) → covers_at network address ≡ true → network.length ≤ length →
        IsUpToNetwork network last → IsBound result network.length }
    ensures less { IfSome result (λ next. next < length) }
{
    let shared = shared_length(last.number, address.number, width(address.version));
    if length == 0 {
        return None;
    }
    Some(shared.min(length - 1))
}

// Returns how many of their first bits two numbers of this width share.
#[tactic(auto, using(crate::proofs::StepLemmas::shares))]
fn shared_length(a: u128, b: u128, width: u8) -> u8
    requires { width ≤ 128 }
    ensures { (length : ℕ) → length ≤ width → cleared (width - length) a ≡ cleared (width - length) b →
        length ≤ result }
{
    let zeros = (a ^ b).leading_zeros() as u8;
    zeros.saturating_sub(128 - width)
}
