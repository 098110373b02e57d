//! What a client receives, and a link with frames.
ghost use Rattle.std.specs.Prelude.{◌≡◌, true};
ghost use Rattle.ipx_fair.specs.Meters.{metered};
ghost use Rattle.ipx_fair.specs.Tallies.{receiver_of};
ghost use Rattle.ipx_limits.specs.Receiving.{reads_of, Received, ReceivedAtAddress, HeardOfRouter, ReceivedOfRouter, Carried, for_both};

use crate::decision::Decision;
use crate::limits::{HouseholdLimits, Limits};
use crate::reader::{Reader, count};
use ipx_fair::{Meter, Receiver256};

impl Limits {
    /// Whether a client whose address has no limit receives a packet of somebody who has a queue there.
    pub fn receives(&self, client: &mut Reader, queue: u8, bytes: usize) -> Decision
        ensures { Received self.now queue bytes result (reads_of client.old) (reads_of client.new) }
    {
        let goes = self.received.has_room(client, queue, bytes, 1);
        self.received.count(goes, client, queue, bytes, 1);
        if goes {
            Decision::Passes
        } else {
            Decision::TooMuchForClient
        }
    }

    /// A client whose address has no limit receives a packet of the router, which has a queue there. It counts it if it has room.
    pub fn hears_router(&self, client: &mut Reader, queue: u8, bytes: usize)
        ensures { HeardOfRouter self.now queue bytes true (reads_of client.old) (reads_of client.new) }
    {
        let has_room = self.received.has_room(client, queue, bytes, 1);
        self.received.count(has_room, client, queue, bytes, 1);
    }

    /// Whether a link with frames gets a packet of somebody who has a queue there, in so many frames.
    pub fn carries(&self, link: &mut Reader, queue: u8, bytes: usize, frames: u32) -> Decision
        ensures { Carried self.now queue bytes frames result (reads_of link.old) (reads_of link.new) }
    {
        let goes = self.received.has_room(link, queue, bytes, frames);
        self.received.count(goes, link, queue, bytes, frames);
        if goes {
            Decision::Passes
        } else {
            Decision::TooMuchForLink
        }
    }
}

impl HouseholdLimits {
    /// Whether a client receives a packet of another address, which has a queue there, and one at the client's address.
    pub fn receives(
        &self,
        limits: &Limits,
        client: &mut Reader,
        address: &mut Receiver256,
        queue: u8,
        bytes: usize,
    ) -> Decision
        ensures { ReceivedAtAddress limits.now self.now queue queue bytes result (reads_of client.old) (reads_of client.new) (receiver_of address.old) (receiver_of address.new) }
    {
        let has_room = limits.received.has_room(client, queue, bytes, 1);
        let decision = for_both(has_room, address.hears(queue, self.packet));
        let goes = decision == Decision::Passes;
        limits.received.count(goes, client, queue, bytes, 1);
        count(goes, address, queue, self.packet);
        decision
    }

    /// Whether a client receives a packet of its own address, which has a queue there.
    pub fn receives_of_own(
        &self,
        limits: &Limits,
        client: &mut Reader,
        among: &mut Meter,
        queue: u8,
        bytes: usize,
    ) -> Decision
        ensures { ReceivedAtAddress limits.now self.now queue 0 bytes result (reads_of client.old) (reads_of client.new) (metered self.now.among among.old) (metered self.now.among among.new) }
    {
        let has_room = limits.received.has_room(client, queue, bytes, 1);
        let decision = for_both(has_room, among.has_room(self.among, self.packet));
        let goes = decision == Decision::Passes;
        limits.received.count(goes, client, queue, bytes, 1);
        if goes {
            let _ = among.lets(self.among, self.packet);
        }
        decision
    }

    /// Whether a client receives a packet of the router, which has a queue there, and one at the client's address. The client's limit doesn't
    /// drop it; it counts it if it has room.
    pub fn receives_of_router(
        &self,
        limits: &Limits,
        client: &mut Reader,
        address: &mut Receiver256,
        queue: u8,
        bytes: usize,
    ) -> Decision
        ensures { ReceivedOfRouter limits.now self.now queue bytes result (reads_of client.old) (reads_of client.new) (receiver_of address.old) (receiver_of address.new) }
    {
        let goes = address.says(queue, self.packet);
        let has_room = limits.received.has_room(client, queue, bytes, 1);
        limits
            .received
            .count(goes && has_room, client, queue, bytes, 1);
        if goes {
            Decision::Passes
        } else {
            Decision::TooMuchForAddress
        }
    }
}

/// What becomes of a packet that a client and its address have to hear.
fn for_both(client: bool, address: bool) -> Decision
    ensures { result ≡ for_both client address }
{
    if !client {
        Decision::TooMuchForClient
    } else if !address {
        Decision::TooMuchForAddress
    } else {
        Decision::Passes
    }
}
