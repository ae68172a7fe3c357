//! Accounts by name. The contracts state what each holds after a change of many.
ghost use Rattle.std.specs.Prelude.{◌≡◌, ◌+◌, ◌-◌, ◌^◌, map, min, sum_by};
ghost use Rattle.std.specs.Cmp.Lexicographic.{slice_cmp};
ghost use Rattle.std.specs.Ordering.{nat_cmp};
ghost use Rattle.std.specs.declared.ops.Bound.TheVariants.{Excluded, Included};
ghost use Rattle.art_operations.specs.KeyedPairs.{keys_between, strings_below, strings_not_below};
ghost use Rattle.art_keyed.specs.KeyedParts.{keys_not_between};
ghost use Rattle.art_operations.specs.MapItems.{keys_of};
ghost use Rattle.uses.specs.Accounts.{after_fee, paid, with_interest};

use art_operations::keys::Terminated;
use art_operations::tree_map::TreeMap;
use std::ops::Bound;

/// What each account holds. The name of an account starts with that of its branch.
pub type Accounts = TreeMap<Terminated, u64, 16>;

/// Adds a hundredth to each account of a branch. An account stays at the greatest number.
pub fn add_interest(accounts: &mut Accounts, branch: &Terminated)
    ensures grown { strings_below (λ name. name) branch.now accounts.new ≡
        map with_interest (strings_below (λ name. name) branch.now accounts.old) }
    ensures others { strings_not_below (λ name. name) branch.now accounts.new ≡
        strings_not_below (λ name. name) branch.now accounts.old }
    ensures names { keys_of accounts.new ≡ keys_of accounts.old }
{
    accounts.for_each_mut_below(
        branch,
        &mut |_: &Terminated, held: &mut u64| {
            *held = held.saturating_add(*held / 100);
        },
    );
}

/// Adds a hundredth to each account from one name up to another, whose account gets none. An account stays at the
/// greatest number.
pub fn add_interest_between(accounts: &mut Accounts, from: &Terminated, to: &Terminated)
    ensures grown { keys_between (slice_cmp nat_cmp) (Included from.now) (Excluded to.now)
        accounts.new ≡ map with_interest (keys_between (slice_cmp nat_cmp)
        (Included from.now) (Excluded to.now) accounts.old) }
    ensures others { keys_not_between (slice_cmp nat_cmp) (Included from.now) (Excluded to.now)
        accounts.new ≡ keys_not_between (slice_cmp nat_cmp)
        (Included from.now) (Excluded to.now) accounts.old }
    ensures names { keys_of accounts.new ≡ keys_of accounts.old }
{
    accounts.for_each_mut_in(
        Bound::Included(from),
        Bound::Excluded(to),
        &mut |_: &Terminated, held: &mut u64| {
            *held = held.saturating_add(*held / 100);
        },
    );
}

/// Takes a fee from each account, or what it holds if that is less. Returns the sum of what was taken, or the greatest
/// number if the sum is greater.
pub fn take_fee(accounts: &mut Accounts, fee: u64) -> u64
    ensures accounts { accounts.new ≡ map (after_fee fee) accounts.old }
    ensures sum { result ≡ min (sum_by (paid fee) accounts.old) (2 ^ 64 - 1) }
{
    let mut sum = 0u64;
    accounts.for_each_mut_by_ref(
        &mut |_: &Terminated, held: &mut u64|
            ensures held { held.exit.now ≡ held.entry.now - min held.entry.now fee }
            ensures sum { sum.exit ≡ min (sum.entry + min held.entry.now fee) (2 ^ 64 - 1) }
        {
            let taken = fee.min(*held);
            *held -= taken;
            sum = sum.saturating_add(taken);
        },
    );
    sum
}
