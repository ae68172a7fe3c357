//! What a caller builds of maps by names: completions, accounts.
use art_operations::keys::Terminated;
use art_operations::tree_map::TreeMap;
use art_test_support::expected::same;
use std::alloc::Global;
use std::test::Fail;
use uses::accounts::{add_interest, add_interest_between, take_fee};
use uses::keys::completions;

type Names = TreeMap<Terminated, u64, 16>;

// The key of a text, or `None` if an allocation fails or there is a zero in the text.
fn name(alloc: Global, text: &[u8]) -> Option<Terminated> {
    Terminated::encode(alloc, text).ok()?
}

// Inserts "name" and a letter for each of twelve letters, and "none", with numbers from 0 on.
fn add_names(names: &mut Names, alloc: Global) -> Option<()> {
    let mut number = 0u64;
    for letter in *b"lkjihgfedcba" {
        let text = [b'n', b'a', b'm', b'e', letter];
        names.insert(name(alloc, text.as_slice())?, number).ok()?;
        number = number.saturating_add(1);
    }
    names.insert(name(alloc, b"none")?, number).ok()?;
    Some(())
}

// How many completions a text has, and the numbers of the first and the last one.
fn completed(names: &Names, text: &[u8]) -> (usize, Option<u64>, Option<u64>) {
    let (mut count, mut first, mut last) = (0usize, None, None);
    for (_, number) in completions(names, text) {
        count = count.saturating_add(1);
        last = Some(*number);
        if first.is_none() {
            first = last;
        }
    }
    (count, first, last)
}

#[test]
fn a_text_has_at_most_ten_completions(rt: HostRuntime) -> Result<(), Fail> {
    let mut names = TreeMap::new(rt.alloc());
    let added = add_names(&mut names, rt.alloc());
    same(
        (
            added,
            completed(&names, b"na"),
            completed(&names, b"no"),
            completed(&names, b"x"),
        ),
        (
            Some(()),
            (10, Some(11), Some(2)),
            (1, Some(12), Some(12)),
            (0, None, None),
        ),
    )
}

// Three accounts of a branch, and one of another.
fn open(accounts: &mut Names, alloc: Global) -> Option<()> {
    accounts.insert(name(alloc, b"lima")?, 100).ok()?;
    accounts.insert(name(alloc, b"lima/ana")?, 250).ok()?;
    accounts.insert(name(alloc, b"lima/bo")?, u64::MAX).ok()?;
    accounts.insert(name(alloc, b"oslo/cem")?, 500).ok()?;
    Some(())
}

// What each account holds.
fn held(accounts: &Names) -> [Option<u64>; 4] {
    let names: [&[u8]; 4] = [b"lima", b"lima/ana", b"lima/bo", b"oslo/cem"];
    names.map(|name| accounts.get_text(name).copied())
}

#[test]
fn accounts_of_a_branch_grow(rt: HostRuntime) -> Result<(), Fail> {
    let mut accounts = TreeMap::new(rt.alloc());
    let opened = open(&mut accounts, rt.alloc());
    if let Some(branch) = name(rt.alloc(), b"lima") {
        add_interest(&mut accounts, &branch);
    }
    same(
        (opened, held(&accounts)),
        (Some(()), [Some(101), Some(252), Some(u64::MAX), Some(500)]),
    )
}

// Adds interest to the accounts from one name up to another.
fn grow_between(accounts: &mut Names, alloc: Global, from: &[u8], to: &[u8]) -> Option<()> {
    add_interest_between(accounts, &name(alloc, from)?, &name(alloc, to)?);
    Some(())
}

#[test]
fn accounts_between_two_names_grow(rt: HostRuntime) -> Result<(), Fail> {
    let mut accounts = TreeMap::new(rt.alloc());
    let opened = open(&mut accounts, rt.alloc());
    let grown = grow_between(&mut accounts, rt.alloc(), b"lima/", b"oslo/cem");
    same(
        (opened, grown, held(&accounts)),
        (
            Some(()),
            Some(()),
            [Some(100), Some(252), Some(u64::MAX), Some(500)],
        ),
    )
}

#[test]
fn each_account_pays_a_fee(rt: HostRuntime) -> Result<(), Fail> {
    let mut accounts = TreeMap::new(rt.alloc());
    let opened = open(&mut accounts, rt.alloc());
    let first = take_fee(&mut accounts, 300);
    let left = held(&accounts);
    let second = take_fee(&mut accounts, u64::MAX);
    same(
        (opened, first, left, second, held(&accounts)),
        (
            Some(()),
            950,
            [Some(0), Some(0), Some(u64::MAX - 300), Some(200)],
            u64::MAX - 100,
            [Some(0), Some(0), Some(0), Some(0)],
        ),
    )
}
