//! What a caller builds: sessions in two maps, events by user and time, networks, a fold of a tree.
ghost use Rattle.std.specs.Prelude.{All, IfSome};
ghost use Rattle.prefix_table.specs.Networks.{IsNetwork};

use art_nodes::node::AsBytes;
use art_nodes::store::NodeStore;
use art_operations::tree_map::TreeMap;
use art_test_support::expected::same;
use art_test_support::trees::{Key, planted_all};
use prefix_table::network::Network;
use prefix_table::table::PrefixTable;
use route_map::map::RouteMap;
use std::alloc::Global;
use std::net::IpAddr;
use std::test::Fail;
use uses::events::{Events, count_between, event_at, events_of, first_event, place, put_event};
use uses::longest_key;
use uses::networks::{announce, build, target, withdraw};
use uses::sessions::Sessions;

// The bytes of the key of the session that is closed, and its end.
fn expired(sessions: &mut Sessions, alloc: Global, now: u64) -> Option<(usize, u64)> {
    match sessions.expire(alloc, now) {
        Ok(Some((token, end))) => Some((token.as_bytes().len(), end)),
        _ => None,
    }
}

// The earlier ends that calls return, one after another.
fn change(sessions: &mut Sessions, alloc: Global) -> Option<[Option<u64>; 7]> {
    Some([
        sessions.open(alloc, b"car", 10).ok()?,
        sessions.open(alloc, b"cart", 20).ok()?,
        sessions.open(alloc, b"", 30).ok()?,
        sessions.open(alloc, b"\0", 10).ok()?,
        sessions.open(alloc, b"car", 40).ok()?,
        sessions.touch(alloc, b"car", 25).ok()?,
        sessions.touch(alloc, b"ca", 25).ok()?,
    ])
}

// What is closed by its end, and what is left.
fn end(sessions: &mut Sessions, alloc: Global) -> ([Option<(usize, u64)>; 4], usize) {
    let ended = [
        expired(sessions, alloc, 20),
        expired(sessions, alloc, 20),
        expired(sessions, alloc, 20),
        expired(sessions, alloc, 25),
    ];
    (ended, sessions.len())
}

// What one session is asked once the others have ended.
fn close(sessions: &mut Sessions, alloc: Global) -> Option<[Option<u64>; 4]> {
    Some([
        sessions.end_of(b""),
        sessions.end_of(b"car"),
        sessions.close(alloc, b"").ok()?,
        sessions.close(alloc, b"").ok()?,
    ])
}

#[test]
fn sessions_end_in_order(rt: HostRuntime) -> Result<(), Fail> {
    let (alloc, mut sessions) = (rt.alloc(), Sessions::new(rt.alloc()));
    let changed = change(&mut sessions, alloc);
    let ended = end(&mut sessions, alloc);
    let closed = close(&mut sessions, alloc);
    same(
        (changed, ended, closed, sessions.len()),
        (
            Some([None, None, None, None, Some(10), Some(10), None]),
            ([Some((3, 10)), Some((5, 20)), None, Some((4, 25))], 1),
            Some([Some(30), None, Some(30), None]),
            0,
        ),
    )
}

// What users did.
static EVENTS: [(u64, i64, u32); 6] = [
    (2, 20, 100),
    (2, -5, 101),
    (1, 15, 102),
    (2, 10, 103),
    (3, -9, 104),
    (2, 20, 105),
];

// How many events were inserted.
fn fill(events: &mut Events) -> usize {
    let mut count = 0usize;
    for (user, time, event) in EVENTS.iter() {
        let is_put = put_event(events, place(*user, *time), *event).is_ok();
        count = count.saturating_add(is_put as usize);
    }
    count
}

#[test]
fn events_stand_by_user_and_time(rt: HostRuntime) -> Result<(), Fail> {
    let mut events = TreeMap::new(rt.alloc());
    let seen = (
        fill(&mut events),
        events_of(&events, 2).count(),
        count_between(&events, 2, -5, 20),
        first_event(&events, 2),
        event_at(&events, place(2, 20)),
        event_at(&events, place(1, 20)),
    );
    same(seen, (6, 3, 2, Some((-5, 101)), Some(105), None))
}

// Networks that stay, routes that come, and where they lead.
static STAYING: [(&'static str, u8, u32); 4] = [
    ("10.0.0.0", 8, 1),
    ("10.1.2.0", 24, 2),
    ("10.1.0.0", 16, 3),
    ("::", 0, 4),
];

static ROUTES: [(&'static str, u8, u32); 4] = [
    ("10.1.0.0", 17, 5),
    ("10.1.0.0", 16, 9),
    ("2001:db8::", 32, 7),
    ("10.1.0.0", 16, 6),
];

// Addresses, where they lead, and where once the longest routes of 10.1.2.3 and 2001:db8::1 are withdrawn.
static TARGETS: [(&'static str, Option<u32>, Option<u32>); 7] = [
    ("10.1.2.3", Some(2), Some(2)),
    ("10.1.3.3", Some(5), Some(6)),
    ("10.1.128.0", Some(6), Some(6)),
    ("10.2.0.0", Some(1), Some(1)),
    ("11.0.0.0", None, None),
    ("2001:db8::1", Some(7), Some(4)),
    ("2001:db9::1", Some(4), Some(4)),
];

fn network_of(text: &str, length: u8) -> Option<Network>
    ensures { IfSome result IsNetwork }
{
    let Ok(address) = text.parse::<IpAddr>() else {
        return None;
    };
    Network::new(&address, length)
}

fn table_of(alloc: Global) -> Option<PrefixTable<u32>> {
    let mut all = Vec::new(alloc);
    for route in STAYING.iter() {
        let (text, length, to) = *route;
        all.push((network_of(text, length)?, to)).ok()?;
    }
    build(alloc, &all)
}

// How many routes were announced.
fn announce_all(routes: &mut RouteMap<u32>) -> usize {
    let mut count = 0usize;
    for (text, length, to) in ROUTES.iter() {
        if let Some(network) = network_of(*text, *length) {
            count = count.saturating_add(announce(routes, network, *to).is_ok() as usize);
        }
    }
    count
}

// The length of the route that is withdrawn, and where it led.
fn withdrawn(routes: &mut RouteMap<u32>, text: &str) -> Option<(u8, u32)> {
    let Ok(address) = text.parse::<IpAddr>() else {
        return None;
    };
    let (network, to) = withdraw(routes, &address)?;
    Some((network.length, to))
}

fn leads(routes: &RouteMap<u32>, table: &PrefixTable<u32>, text: &str) -> Option<u32> {
    let Ok(address) = text.parse::<IpAddr>() else {
        return None;
    };
    Some(target(routes, table, &address)?.1)
}

// How many addresses lead where they have to.
fn count_right(routes: &RouteMap<u32>, table: &PrefixTable<u32>, are_withdrawn: bool) -> usize {
    let mut count = 0usize;
    for (text, before, after) in TARGETS.iter() {
        let expected = if are_withdrawn { *after } else { *before };
        count = count.saturating_add((leads(routes, table, *text) == expected) as usize);
    }
    count
}

fn announced_and_withdrawn(
    routes: &mut RouteMap<u32>,
    table: &PrefixTable<u32>,
) -> (usize, usize, [Option<(u8, u32)>; 3], usize) {
    (
        announce_all(routes),
        count_right(routes, table, false),
        [
            withdrawn(routes, "10.1.2.3"),
            withdrawn(routes, "2001:db8::1"),
            withdrawn(routes, "2001:db8::1"),
        ],
        count_right(routes, table, true),
    )
}

#[test]
fn addresses_lead_where_the_longest_network_does(rt: HostRuntime) -> Result<(), Fail> {
    let mut routes = RouteMap::new(rt.alloc());
    let seen = table_of(rt.alloc()).map(|table| announced_and_withdrawn(&mut routes, &table));
    same(seen, Some((4, 7, [Some((17, 5)), Some((32, 7)), None], 7)))
}

// The length of the longest key of the tree of these keys.
fn longest_of(store: &mut NodeStore<Key, u32, 2>, slices: &[&[u8]]) -> Option<usize> {
    let root = planted_all(store, slices).ok()??;
    Some(longest_key(store, root))
}

// The longest keys are neither the least nor the greatest.
#[test]
fn the_longest_key_is_found(rt: HostRuntime) -> Result<(), Fail> {
    let keys: [&[u8]; 4] = [&[1, 7], &[2, 7, 7, 7, 1], &[2, 7, 7, 7, 2], &[9]];
    let found = longest_of(&mut NodeStore::new(rt.alloc()), &keys);
    same(found, Some(5))
}
