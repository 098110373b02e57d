//! What a table takes, keeps and ends, for two kinds of offers; and how often a search asks.

use crate::same::same;
use ipx_table::{Asked, Found, Held, Offer, Table, Taken, find};
use ipx_wire::{Network, Node};
use std::cmp::Ordering;

/// A way to a network; fewer ticks are better, then fewer hops.
#[derive(Clone, Copy, Debug, Default, PartialEq, Eq)]
struct Way {
    network: Network,
    hops: u16,
    ticks: u16,
    port: u8,
    node: Node,
}

impl Offer for Way {
    ghost use Rattle.std.specs.Prelude.{nat_le};
    ghost use Rattle.std.proofs.Common.{rules};

    type Key = Network;

    ghost reading = { record {
      key = λ way. way.network;
      source = λ way. (way.port, way.node);
      rank = λ way. (way.ticks, way.hops);
      is_down = λ way. nat_le 16 way.hops;
    } };

    fn key(&self) -> Network {
        self.network
    }

    fn source(&self) -> (u8, Node) {
        (self.port, self.node)
    }

    fn rank(&self) -> (u16, u16) {
        (self.ticks, self.hops)
    }

    fn is_down(&self) -> bool {
        16 <= self.hops
    }

    ghost alike = { Prim.search rules };
}

/// What a thing is called: a number, then letters.
#[derive(Clone, Copy, Debug, Default, PartialEq, Eq, PartialOrd, Ord)]
struct Label {
    kind: u16,
    letters: [u8; 3],
}

/// A thing that neighbours offer, the nearer the better.
#[derive(Clone, Copy, Debug, Default, PartialEq, Eq)]
struct Thing {
    label: Label,
    steps: u16,
    node: Node,
}

impl Offer for Thing {
    ghost use Rattle.std.specs.Prelude.{◌==◌};
    ghost use Rattle.std.proofs.Common.{rules};

    type Key = Label;

    ghost reading = { record {
      key = λ thing. thing.label;
      source = λ thing. (0, thing.node);
      rank = λ thing. (thing.steps, 0);
      is_down = λ thing. thing.steps == 99;
    } };

    fn key(&self) -> Label {
        self.label
    }

    fn source(&self) -> (u8, Node) {
        (0, self.node)
    }

    fn rank(&self) -> (u16, u16) {
        (self.steps, 0)
    }

    fn is_down(&self) -> bool {
        self.steps == 99
    }

    ghost alike = { Prim.search rules };
}

/// Numbers in ascending order, among which one is sought: how many are smaller, whether it is there, how many are
/// greater, and how often they were asked.
#[derive(Drop)]
struct Numbers {
    smaller: u16,
    held: bool,
    greater: u16,
    asks: u64,
}

impl Asked for Numbers {
    ghost answers = { λ n. record { below = n.smaller; held = n.held; above = n.greater } };

    ghost asks = { λ n. n.asks };

    fn len(&self) -> usize {
        usize::from(self.smaller) + usize::from(self.held) + usize::from(self.greater)
    }

    fn ask(&mut self, place: usize) -> Ordering {
        self.asks += 1;
        let smaller = usize::from(self.smaller);
        if place < smaller {
            Ordering::Less
        } else if self.held && place == smaller {
            Ordering::Equal
        } else {
            Ordering::Greater
        }
    }

    fn asks(&self) -> u64 {
        self.asks
    }
}

/// How often a search asks for a number that is not there.
fn asks_in_vain(smaller: u16, greater: u16) -> u64 {
    let mut numbers = Numbers {
        smaller,
        held: false,
        greater,
        asks: 0,
    };
    find(&mut numbers);
    numbers.asks()
}

fn way_by(port: u8, network: u32, node: u8, hops: u16, ticks: u16) -> Way {
    Way {
        network: Network(network),
        hops,
        ticks,
        port,
        node: Node([0, 0, 0, 0, 0, node]),
    }
}

fn way_to(network: u32, node: u8, hops: u16, ticks: u16) -> Way {
    way_by(1, network, node, hops, ticks)
}

fn thing_called(kind: u16, letters: [u8; 3], steps: u16) -> Thing {
    Thing {
        label: Label { kind, letters },
        steps,
        node: Node::default(),
    }
}

#[test]
fn ended_offers_come_by_key(rt: HostRuntime) {
    let mut table: Table<Way, 4> = Table::default();
    for number in [7, 3, 9, 5] {
        let way = way_to(number, 0xAA, 1, 1);
        same(&rt, table.offer(way), Taken::Admitted);
    }
    for _ in 0..179 {
        table.second();
    }
    let again = table.offer(way_to(5, 0xAA, 2, 1));
    same(&rt, again, Taken::Refreshed { changed: true });
    let ended = [
        way_to(3, 0xAA, 1, 1),
        way_to(7, 0xAA, 1, 1),
        way_to(9, 0xAA, 1, 1),
    ];
    same(&rt, table.second().as_slice(), ended.as_slice());
    same(&rt, table.len(), 1);
}

#[test]
fn no_place_and_one_place(rt: HostRuntime) {
    let mut none: Table<Way, 0> = Table::new();
    assert!(rt; none.is_full());
    same(&rt, none.offer(way_to(1, 0xAA, 1, 1)), Taken::Full);
    same(&rt, none.offer(way_to(1, 0xAA, 16, 1)), Taken::Nothing);
    assert!(rt; none.second().is_empty());
    let mut one: Table<Way, 1> = Table::new();
    same(&rt, one.offer(way_to(1, 0xAA, 1, 1)), Taken::Admitted);
    same(&rt, one.offer(way_to(2, 0xAA, 1, 1)), Taken::Full);
    same(&rt, one.offer(way_to(2, 0xAA, 16, 1)), Taken::Nothing);
    same(&rt, one.offer(way_to(1, 0xBB, 0, 1)), Taken::Replaced);
    same(&rt, one.offer(way_to(1, 0xBB, 16, 1)), Taken::Withdrawn);
    same(&rt, one.offer(way_to(2, 0xAA, 1, 1)), Taken::Admitted);
}

#[test]
fn things_stand_by_kind_then_letters(rt: HostRuntime) {
    let mut table: Table<Thing, 3> = Table::new();
    let files = thing_called(4, *b"abc", 2);
    let mail = thing_called(4, *b"abd", 1);
    let clock = thing_called(3, *b"zzz", 5);
    for offer in [mail, files, clock] {
        same(&rt, table.offer(offer), Taken::Admitted);
    }
    for (k, offer) in [clock, files, mail].into_iter().enumerate() {
        same(&rt, table.get_at(k), Some(Held { offer, age: 0 }));
    }
    let gone = thing_called(4, *b"abc", 99);
    same(&rt, table.offer(gone), Taken::Withdrawn);
    same(&rt, table.get(&files.label), None);
    let kept = Held {
        offer: mail,
        age: 0,
    };
    same(&rt, table.get(&mail.label), Some(kept));
}

#[test]
fn a_port_keeps_to_its_share(rt: HostRuntime) {
    let mut table: Table<Way, 50> = Table::with_shares(&[30, 20]);
    for number in 0x101..0x133 {
        table.offer(way_by(0, number, 0xAA, 1, 2));
    }
    same(&rt, table.count(0), 30);
    same(&rt, table.get(&Network(0x11F)), None);
    for number in 0x201..0x215 {
        table.offer(way_by(1, number, 0xBB, 1, 2));
    }
    same(&rt, table.count(1), 20);
    for _ in 0..10 {
        table.second();
    }
    let key = Network(0x101);
    same(&rt, table.offer(way_by(1, 0x101, 0xBB, 1, 1)), Taken::Full);
    let held = Held {
        offer: way_by(0, 0x101, 0xAA, 1, 2),
        age: 10,
    };
    same(&rt, table.get(&key), Some(held));
    same(&rt, table.offer(way_by(1, 0x101, 0xBB, 1, 2)), Taken::Worse);
    let nearer = way_by(1, 0x201, 0xCC, 1, 1);
    same(&rt, table.offer(nearer), Taken::Replaced);
    same(&rt, table.count(1), 20);
}

#[test]
fn the_end_of_a_port_leaves_the_others(rt: HostRuntime) {
    let mut table: Table<Way, 8> = Table::new();
    let stays = way_by(1, 5, 0xBB, 1, 1);
    for offer in [
        way_by(2, 7, 0xAA, 1, 1),
        stays,
        way_by(2, 3, 0xAA, 1, 1),
        way_by(3, 9, 0xCC, 1, 1),
    ] {
        same(&rt, table.offer(offer), Taken::Admitted);
    }
    table.second();
    let ended = [way_by(2, 3, 0xAA, 1, 1), way_by(2, 7, 0xAA, 1, 1)];
    same(&rt, table.end_port(2).as_slice(), ended.as_slice());
    let counts = (table.count(1), table.count(2), table.count(3));
    same(&rt, counts, (1, 0, 1));
    let held = Held {
        offer: stays,
        age: 1,
    };
    same(&rt, table.get_at(0), Some(held));
    assert!(rt; table.end_port(2).is_empty());
}

#[test]
fn what_ends_in_place_is_lent_by_key(rt: HostRuntime) {
    let mut table: Table<Way, 8> = Table::new();
    for number in [1, 2, 4, 5, 7, 8] {
        let way = way_by(0, number, 0xAA, 1, 1);
        same(&rt, table.offer(way), Taken::Admitted);
    }
    for number in [6, 3] {
        let way = way_by(1, number, 0xAA, 1, 1);
        same(&rt, table.offer(way), Taken::Admitted);
    }
    table.end_port_in_place(1);
    let ended = [way_by(1, 3, 0xAA, 1, 1), way_by(1, 6, 0xAA, 1, 1)];
    same(&rt, table.ended(), ended.as_slice());
    same(&rt, table.len(), 6);
    same(&rt, table.get(&Network(3)), None);
    table.clear_ended();
    assert!(rt; table.ended().is_empty());
    for _ in 0..179 {
        table.second_in_place();
    }
    same(
        &rt,
        table.offer(way_by(0, 4, 0xAA, 1, 1)),
        Taken::Refreshed { changed: false },
    );
    table.second_in_place();
    let expired = [
        way_by(0, 1, 0xAA, 1, 1),
        way_by(0, 2, 0xAA, 1, 1),
        way_by(0, 5, 0xAA, 1, 1),
        way_by(0, 7, 0xAA, 1, 1),
        way_by(0, 8, 0xAA, 1, 1),
    ];
    same(&rt, table.ended(), expired.as_slice());
    let held = Held {
        offer: way_by(0, 4, 0xAA, 1, 1),
        age: 1,
    };
    same(&rt, table.get_at(0), Some(held));
    same(&rt, table.get_at(1), None);
    same(&rt, table.offer(way_by(0, 2, 0xAA, 1, 1)), Taken::Admitted);
    same(&rt, table.len(), 2);
}

#[test]
fn a_record_is_renewed_at_its_place(rt: HostRuntime) {
    let mut table: Table<Way, 4> = Table::new();
    for number in [3, 5] {
        let way = way_to(number, 0xAA, 1, 1);
        same(&rt, table.offer(way), Taken::Admitted);
    }
    for _ in 0..100 {
        table.second();
    }
    assert!(rt; 1 < table.len());
    table.renew_at(1);
    table.seek_at(7);
    for _ in 0..80 {
        table.second();
    }
    let held = Held {
        offer: way_to(5, 0xAA, 1, 1),
        age: 80,
    };
    same(&rt, table.get_at(0), Some(held));
    same(&rt, table.get_at(1), None);
}

#[test]
fn a_search_asks_seldom(rt: HostRuntime) {
    same(&rt, asks_in_vain(0, 0), 0);
    same(&rt, asks_in_vain(0, 1), 1);
    same(&rt, asks_in_vain(2, 1), 2);
    same(&rt, asks_in_vain(0, 50), 6);
    same(&rt, asks_in_vain(65535, 0), 16);
    let mut numbers = Numbers {
        smaller: 20,
        held: true,
        greater: 29,
        asks: 0,
    };
    let found = Found {
        below: 20,
        held: true,
    };
    same(&rt, find(&mut numbers), found);
    assert!(rt; numbers.asks() <= 6);
}
