//! Many packets: forged offers that fill a table, and a million damaged ones.

use crate::damaged::given::PACKETS;
use crate::damaged::is_within_bounds;
use crate::same::same;
use crate::watched::{A, Watched, fifty};
use ipx_router::{Event, Outcome};
use std::test::Fail;

/// What a flooded router sends in a periodic second: the other network on port 0; on port 1 the fifty routes and the network of
/// port 0, in two packets.
const PERIODIC: [Option<(u8, usize)>; 4] = [Some((0, 40)), Some((1, 432)), Some((1, 40)), None];

#[test]
fn a_flood_of_offers_fills_the_table_once(rt: HostRuntime) -> Result<(), Fail> {
    let mut watched = Watched::started(rt.alloc())?;
    let (mut learned, mut sent) = (0u32, 0usize);
    for response in 0..200 {
        let outcome = watched.hear(0, A, &fifty(0x1000 + 50 * response))?;
        learned = learned.wrapping_add(u32::from(outcome == Outcome::Learned));
        sent = sent.wrapping_add(watched.outbox.len());
        if response == 0 {
            same(&rt, watched.sent(0), Some((1, 432)));
        }
    }
    same(&rt, (learned, sent, watched.router.routes()), (200, 1, 50));
    let mut silent = 0u32;
    for second in 1..=180 {
        watched.second()?;
        if second % 60 == 0 {
            let found = [
                watched.sent(0),
                watched.sent(1),
                watched.sent(2),
                watched.sent(3),
            ];
            same(&rt, found, PERIODIC);
        } else {
            silent = silent.wrapping_add(u32::from(watched.outbox.is_empty()));
        }
    }
    same(&rt, (silent, watched.router.routes()), (177, 0));
    Ok(())
}

/// How many packets are made.
const MADE: u32 = 1_000_000;

/// How many of them may still ask for memory.
const FIRST: u32 = 1000;

/// The longest of the packets that are damaged.
const MOST: usize = 480;

/// Numbers that look like chance, and are the same in each run (Knuth's linear congruences).
#[derive(Drop)]
struct Chance(u64);

impl Chance {
    /// A number below another one, of which there is one at least.
    fn below(&mut self, most: usize) -> usize {
        self.0 = self
            .0
            .wrapping_mul(6_364_136_223_846_793_005)
            .wrapping_add(1_442_695_040_888_963_407);
        (self.0 >> 33) as usize % most.max(1)
    }
}

/// A packet that is changed in one to three places, and its length.
fn damaged(chance: &mut Chance) -> ([u8; MOST], usize) {
    let mut bytes = [0; MOST];
    let packet = PACKETS[chance.below(PACKETS.len()).min(PACKETS.len() - 1)];
    let size = packet.len().min(MOST);
    bytes[..size].copy_from_slice(&packet[..size]);
    for _ in 0..=chance.below(3) {
        let place = chance.below(size).min(MOST - 1);
        bytes[place] = (chance.below(256) % 256) as u8;
    }
    (bytes, size)
}

/// From the thousandth on, no packet asks for memory: the outbox has room for the most that it may send.
#[test]
fn a_million_damaged_packets_break_no_bound(rt: HostRuntime) -> Result<(), Fail> {
    let mut watched = Watched::started(rt.alloc())?;
    let mut chance = Chance(1);
    let (mut wrong, mut dropped) = (0u32, 0u32);
    for number in 0..MADE {
        let (bytes, size) = damaged(&mut chance);
        let port = u8::from(chance.below(2) == 1);
        let bytes = &bytes[..size.min(MOST)];
        let need = watched.router.need(&Event::Packet { port, bytes });
        watched.outbox.clear();
        let has_room = watched.outbox.has_room(need);
        let outcome = watched.packet(port, bytes)?;
        let fits = watched.outbox.len() <= need.packets && is_within_bounds(&watched, bytes);
        if !fits || (number >= FIRST && !has_room) {
            wrong = wrong.wrapping_add(1);
        }
        if matches!(outcome, Outcome::Dropped(_)) {
            dropped = dropped.wrapping_add(1);
        }
    }
    same(&rt, wrong, 0);
    // (so both kinds were seen, thousands of times)
    assert!(rt; dropped > 10_000 && dropped < MADE - 10_000);
    Ok(())
}
