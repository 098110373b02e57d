//! An offer type of one's own, and a table of it; and a search by asking.

use anyhow::Result;
use ipx_table::{Asked, Exchanged, Found, Held, Offer, Table, Taken, find};
use ipx_wire::Node;
use std::cmp::Ordering;

/// A time server that a neighbour advertises: fewer steps from its clock are better, 16 mean that it is lost.
#[derive(Clone, Copy, Debug, Default, PartialEq, Eq)]
pub struct TimeServer {
    pub number: u32,
    pub steps: u16,
    pub port: u8,
    pub node: Node,
}

impl Offer for TimeServer {
    ghost use Rattle.std.specs.Prelude.{nat_le};
    ghost use Rattle.std.proofs.Common.{rules};

    type Key = u32;

    ghost reading = { record {
      key = λ server. server.number;
      source = λ server. (server.port, server.node);
      rank = λ server. (server.steps, 0);
      is_down = λ server. nat_le 16 server.steps;
    } };

    fn key(&self) -> u32 {
        self.number
    }

    fn source(&self) -> (u8, Node) {
        (self.port, self.node)
    }

    fn rank(&self) -> (u16, u16) {
        (self.steps, 0)
    }

    fn is_down(&self) -> bool {
        16 <= self.steps
    }

    ghost alike = { Prim.search rules };
}

/// A table, and an offer in it.
pub fn table(rt: &HostRuntime, server: TimeServer) -> Result<()> {
    let mut table = Table::<TimeServer, 8>::new();
    table.offer(server);
    table.second();
    for Held { offer, age } in table.entries() {
        println!(rt; "server {}, of age {age}", offer.number)?;
    }
    // prints server 7, of age 1
    Ok(())
}

/// An offer that takes the place of another.
pub fn exchanged(
    rt: &HostRuntime,
    table: &mut Table<TimeServer, 8>,
    nearer: TimeServer,
) -> Result<()> {
    let Exchanged { taken, before, .. } = table.exchange(nearer);
    match (taken, before) {
        (Taken::Replaced, Some(before)) => println!(rt; "{taken}: node {}", before.node)?,
        _ => println!(rt; "{taken}")?,
    }
    // prints replaced: node 000000000001
    Ok(())
}

/// Releases in their order: from one on they fail. How many are good, how many fail, and how many were tried.
#[derive(Drop)]
pub struct Releases {
    pub good: u8,
    pub failing: u8,
    pub tried: u64,
}

impl Asked for Releases {
    ghost use Rattle.std.specs.Prelude.{false};

    ghost answers = { λ r. record { below = r.good; held = false; above = r.failing } };

    ghost asks = { λ r. r.tried };

    fn len(&self) -> usize {
        usize::from(self.good) + usize::from(self.failing)
    }

    fn ask(&mut self, place: usize) -> Ordering {
        self.tried += 1;
        if place < usize::from(self.good) {
            Ordering::Less
        } else {
            Ordering::Greater
        }
    }

    fn asks(&self) -> u64 {
        self.tried
    }
}

/// A search by asking.
pub fn found(rt: &HostRuntime) -> Result<()> {
    let mut releases = Releases {
        good: 70,
        failing: 30,
        tried: 0,
    };
    let Found { below, .. } = find(&mut releases);
    println!(rt; "release {below} fails first, by {} trials", releases.tried)?;
    // prints release 70 fails first, by 7 trials
    Ok(())
}
