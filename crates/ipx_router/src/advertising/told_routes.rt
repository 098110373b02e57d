//! The routes that a port advertises, one after the other by network: the networks of the other ports, merged with the
//! routes of the table, which aren't copied.
ghost use Rattle.std.specs.Prelude.{◌≡◌, ◌+◌, ◌<◌, ◌≤◌, false, not, List, ◌∷◌, ◌++◌, [], length, take, drop, map};
ghost use Rattle.std.specs.List.{AllByRecursion, prefix_len};
ghost use Rattle.ipx_router.specs.Facts.{offers};
ghost use Rattle.ipx_wire.specs.declared.rip.RipEntry.{RipEntry};
ghost use Rattle.ipx_router.specs.Numbers.{entries_a_page, most_ports};
ghost use Rattle.ipx_router.specs.Sorted.{put, put_all};
ghost use Rattle.ipx_router.specs.inside.Ended.{RoutesAscend};
ghost use Rattle.ipx_router.specs.inside.Sources.{waits_before};
ghost use Rattle.ipx_router.specs.Told.{by_network, direct, is_route_told, network_before, told_at};
ghost use Rattle.ipx_router.specs.inside.ToldRoutes.{routes_left};

use crate::advertising::hops::{direct_entry, entry_of, is_route_told, told_at};
use crate::advertising::pages::ENTRIES_A_PAGE;
use crate::port::Port;
use crate::ports::making::MOST_PORTS;
use crate::route_offer::RouteOffer;
use arrayvec::ArrayVec;
use ipx_table::Table;
use ipx_wire::RipEntry;
use std::marker::Model;

/// What is left of the routes that a port advertises. A clause sees them as they are advertised, by network.
#[derive(Drop)]
pub(crate) struct ToldRoutes<'a> {
    // the networks of the other ports as they are advertised, by network
    direct: &'a [RipEntry],
    // the routes of the table as they were heard, by network
    routes: &'a [RouteOffer],
    number: u8,
    cost: u16,
}

impl<'a> Model for ToldRoutes<'a> {
    ghost use Rattle.std.specs.Prelude.{List};
    ghost use Rattle.ipx_wire.specs.declared.rip.RipEntry.{RipEntry};
    ghost use Rattle.ipx_router.specs.inside.Ended.{RoutesAscend};
    ghost use Rattle.ipx_router.specs.inside.ToldRoutes.{routes_left};

    ghost Value = { List RipEntry };

    ghost view = { λ t. routes_left t.number t.cost t.direct.now t.routes.now };

    ghost invariant = { λ t. RoutesAscend t.routes.now };
}

impl<'a> ToldRoutes<'a> {
    /// All that a port of that number and cost advertises: `direct`, the networks of the other ports, and routes of the table.
    pub(crate) fn new<const R: usize>(
        direct: &'a [RipEntry],
        table: &'a Table<RouteOffer, R>,
        number: u8,
        cost: u16,
    ) -> ToldRoutes<'a>
        ensures { result ≡ routes_left number cost direct.now (offers table.now.records) }
    {
        ToldRoutes {
            direct,
            routes: table.offers(),
            number,
            cost,
        }
    }

    /// Fills a page with the next of them, and returns their number: fewer than a page holds only where none is left.
    pub(crate) fn fill(&mut self, page: &mut [RipEntry; ENTRIES_A_PAGE]) -> usize
        ensures few { result ≤ entries_a_page }
        ensures entries { self.old ≡ take result page.new ++ self.new }
        ensures last { result < entries_a_page → self.new ≡ [] }
    {
        let mut count = 0;
        while count < ENTRIES_A_PAGE {
            let Some(entry) = self.next() else {
                return count;
            };
            page[count] = entry;
            count = self.fill_run(page, count + 1);
        }
        count
    }

    /// Puts the routes of the table that come before the next network of a port into a page, behind the first `count` entries,
    /// as far as there is room. Returns how many entries the page has then.
    fn fill_run(&mut self, page: &mut [RipEntry; ENTRIES_A_PAGE], count: usize) -> usize
        requires { count ≤ entries_a_page }
        ensures more { count ≤ result }
        ensures few { result ≤ entries_a_page }
        ensures entries { take count page.old ++ self.old ≡ take result page.new ++ self.new }
    {
        let limit = limit_of(self.direct);
        let (rest, count) = put_run(self.routes, self.number, self.cost, limit, page, count);
        self.routes = rest;
        count
    }
}

impl<'a> Iterator for ToldRoutes<'a> {
    ghost use Rattle.std.specs.Iterator.{YieldsFirst, item_count};

    type Item = RipEntry;

    ghost next_gives = { YieldsFirst (λ rest. rest) };

    ghost remaining = { item_count (λ rest. rest) };

    fn next(&mut self) -> Option<RipEntry> {
        self.routes = seek(self.routes, self.number);
        if let Some((route, others)) = self.routes.split_first() {
            let learned = told_at(self.cost, entry_of(route));
            if !is_direct_next(self.direct, learned) {
                self.routes = others;
                return Some(learned);
            }
        }
        let (entry, others) = self.direct.split_first()?;
        self.direct = others;
        Some(*entry)
    }
}

/// The routes that are left, from the first on that the port advertises.
fn seek(routes: &[RouteOffer], number: u8) -> &[RouteOffer]
    ensures { result.now ≡ drop (prefix_len (λ route. not (is_route_told number route)) routes.now) routes.now }
{
    let mut rest = routes;
    while let Some((route, others)) = rest.split_first() {
        if is_route_told(number, route) {
            return rest;
        }
        rest = others;
    }
    &[]
}

/// The network where a run of routes ends: that of the first entry; behind all networks, where there is none.
fn limit_of(direct: &[RipEntry]) -> u64
    ensures { (entry : RipEntry) → entry.network.0 < result → waits_before network_before entry direct.now ≡ false }
{
    match direct.first() {
        None => u64::MAX,
        Some(entry) => u64::from(entry.network.0),
    }
}

/// Puts the told ones of a run of routes into a page, behind its first `count` entries, until it is full or the run ends.
/// Returns the routes that are left and how many entries the page has then. It is a function of its own, so that its loop keeps few
/// values.
fn put_run<'a>(
    routes: &'a [RouteOffer],
    number: u8,
    cost: u16,
    limit: u64,
    page: &mut [RipEntry; ENTRIES_A_PAGE],
    count: usize,
) -> (&'a [RouteOffer], usize)
    requires count { count ≤ entries_a_page }
    requires ascends { RoutesAscend routes.now }
    ensures ascends { RoutesAscend result.0.now }
    ensures more { count ≤ result.1 }
    ensures few { result.1 ≤ entries_a_page }
    ensures entries { (waiting : List RipEntry) → ((entry : RipEntry) → entry.network.0 < limit → waits_before network_before entry waiting ≡ false)
        → take count page.old ++ routes_left number cost waiting routes.now ≡ take result.1 page.new ++ routes_left number cost waiting result.0.now }
{
    let mut rest = routes;
    let mut next = count;
    while next < ENTRIES_A_PAGE {
        let Some((route, others)) = rest.split_first() else {
            return (rest, next);
        };
        if u64::from(route.network.0) >= limit {
            return (rest, next);
        }
        if is_route_told(number, route) {
            page[next] = told_at(cost, entry_of(route));
            next += 1;
        }
        rest = others;
    }
    (rest, next)
}

/// Whether the network of a port comes before that learned route.
fn is_direct_next(direct: &[RipEntry], learned: RipEntry) -> bool
    ensures { result ≡ waits_before network_before learned direct.now }
{
    match direct.first() {
        None => false,
        Some(entry) => learned.network >= entry.network,
    }
}

/// Fills an empty list with the networks of the other ports that are up, by network, as the port advertises them.
pub(crate) fn list_direct(
    entries: &mut ArrayVec<RipEntry, MOST_PORTS>,
    ports: &[Port],
    up: &[u8],
    number: u8,
    cost: u16,
)
    requires empty { entries.old.items ≡ [] }
    requires ports { AllByRecursion (λ j. j < length ports.now) up.now }
    requires few { length up.now ≤ most_ports }
    ensures { entries.new.items ≡ by_network (map (told_at cost) (direct ports.now up.now number)) }
{
    for &other in up {
        place_direct(entries, ports, number, other, cost);
    }
}

/// Places the network of a port, where it isn't that on which it is advertised.
fn place_direct(
    entries: &mut ArrayVec<RipEntry, MOST_PORTS>,
    ports: &[Port],
    number: u8,
    other: u8,
    cost: u16,
)
    requires port { other < length ports.now }
    requires room { length entries.old.items < most_ports }
    ensures items { entries.new.items ≡ put_all network_before entries.old.items (map (told_at cost) (direct ports.now (other ∷ []) number)) }
    ensures one { length entries.new.items ≤ length entries.old.items + 1 }
{
    if other != number {
        let entry = told_at(cost, direct_entry(ports, other));
        let place = place_of(entries, entry);
        entries.insert(place, entry);
    }
}

/// Where the first entry of a greater network stands.
fn place_of(entries: &[RipEntry], entry: RipEntry) -> usize
    ensures within { result ≤ length entries.now }
    ensures place { put network_before entry entries.now ≡ take result entries.now ++ entry ∷ drop result entries.now }
{
    for (index, other) in entries.iter().enumerate() {
        if entry.network < other.network {
            return index;
        }
    }
    entries.len()
}
