//! What becomes of packets by limits that are metered.
ghost use Rattle.std.specs.Prelude.{◌≡◌, ◌&&◌, true};
ghost use Rattle.ipx_fair.specs.Tallies.{receiver_of};
ghost use Rattle.ipx_limits.specs.Deciding.{has_room, used_then, passes, is_ping, is_question, is_told, account, may_ask, may_tell, may_hand, hands, Pinged, PingedInFrame, Answered, Paged, Handed, FramesHanded};

use crate::decision::Decision;
use crate::kind::Kind;
use crate::limits::{Limit, Limits, told_each};
use crate::reader::count;
use crate::uses::{Address, Client};
use ipx_fair::{Meter, Receiver256};

impl Limit {
    /// Whether it has room for one more.
    fn has_room(&self, used: &Meter) -> bool
        ensures { result ≡ has_room self.now used.now }
    {
        used.has_room(self.burst, self.each)
    }

    /// Counts one for which there is room, if it counts.
    fn count(&self, counts: bool, used: &mut Meter)
        requires { counts ≡ true → has_room self.now used.old ≡ true }
        ensures { used.new ≡ used_then self.now counts used.old }
    {
        if counts {
            let _ = used.lets(self.burst, self.each);
        }
    }
}

impl Limits {
    /// What becomes of a packet that a client says to all others, or to some: pings to all have a limit, of the client's and of all clients
    /// of the network.
    pub fn says(&self, kind: Kind, client: &mut Client, all: &mut Meter) -> Decision
        ensures { Pinged self.now kind result client.old client.new all.old all.new }
    {
        if kind != Kind::Ping {
            return Decision::Passes;
        }
        let lets = self.pings.has_room(&client.pinged) && self.all_pings.has_room(all);
        self.pings.count(lets, &mut client.pinged);
        self.all_pings.count(lets, all);
        if lets {
            Decision::Passes
        } else {
            Decision::TooManyPings
        }
    }

    /// The same of a packet that came in a frame.
    pub fn frames_say(&self, kind: Kind, all: &mut Meter) -> Decision
        ensures { PingedInFrame self.now kind result all.old all.new }
    {
        let lets = kind != Kind::Ping || self.all_pings.has_room(all);
        self.all_pings.count(lets && kind == Kind::Ping, all);
        if lets {
            Decision::Passes
        } else {
            Decision::TooManyPings
        }
    }

    /// Whether the gateway answers a client that registers or pings, whose address has so many.
    pub fn answers(&self, clients: u32, client: &mut Client, address: &mut Address) -> Decision
        ensures { Answered self.now clients result client.old client.new address.old address.new }
    {
        let shared = self.answers.of_clients(clients);
        let lets = self.answers.has_room(&client.answered) && shared.has_room(&address.answered);
        self.answers.count(lets, &mut client.answered);
        shared.count(lets, &mut address.answered);
        if lets {
            Decision::Passes
        } else {
            Decision::TooManyAnswers
        }
    }

    /// Whether a client, whose address has so many, gets a packet by which the router answers what it asked, or somebody in its name.
    pub fn router_answers(
        &self,
        clients: u32,
        client: &mut Client,
        address: &mut Address,
    ) -> Decision
        ensures { Paged self.now clients result client.old client.new address.old address.new }
    {
        let shared = self.pages.of_clients(clients);
        let lets = self.pages.has_room(&client.paged) && shared.has_room(&address.paged);
        self.pages.count(lets, &mut client.paged);
        shared.count(lets, &mut address.paged);
        if lets {
            Decision::Passes
        } else {
            Decision::TooManyAnswers
        }
    }

    /// What becomes of a packet that a client, whose address has so many, hands to the router. Of what the router hears, and is told, the
    /// address uses so much.
    pub fn hands(
        &self,
        clients: u32,
        kind: Kind,
        client: &mut Client,
        address: &mut Address,
        handed: &mut Meter,
        advertised: &mut Meter,
    ) -> Decision
        ensures { Handed self.now clients kind result client.old client.new address.old address.new (account handed.old advertised.old) (account handed.new advertised.new) }
    {
        let shared = self.questions.of_clients(clients);
        let decision = if !self.may_ask(clients, kind, client, address) {
            Decision::TooManyQuestions
        } else if !self.may_tell(kind, advertised) {
            Decision::TooManyAdvertisements
        } else if !self.may_hand(kind, handed) {
            Decision::TooMuchForRouter
        } else {
            Decision::Passes
        };
        let lets = decision == Decision::Passes;
        self.questions
            .count(lets && kind == Kind::Question, &mut client.asked);
        shared.count(lets && kind == Kind::Question, &mut address.asked);
        self.advertisements
            .count(lets && kind == Kind::Told, advertised);
        self.handed.count(lets, handed);
        decision
    }

    fn may_ask(&self, clients: u32, kind: Kind, client: &Client, address: &Address) -> bool
        ensures { result ≡ may_ask self.now clients kind client.now address.now }
    {
        match kind {
            Kind::Question => {
                self.questions.has_room(&client.asked)
                    && self.questions.of_clients(clients).has_room(&address.asked)
            }
            _ => true,
        }
    }

    fn may_tell(&self, kind: Kind, advertised: &Meter) -> bool
        ensures { result ≡ may_tell self.now kind advertised.now }
    {
        match kind {
            Kind::Told => self.advertisements.has_room(advertised),
            _ => true,
        }
    }

    fn may_hand(&self, kind: Kind, handed: &Meter) -> bool
        ensures { result ≡ may_hand self.now kind handed.now }
    {
        match kind {
            Kind::Answer => {
                handed.has_room(self.handed_answers, self.handed.each)
                    && self.handed.has_room(handed)
            }
            _ => self.handed.has_room(handed),
        }
    }

    /// What becomes of a packet that a network of frames hands to the router. What it tells counts for all such networks, too: each has a
    /// queue there.
    pub fn frames_hand(
        &self,
        link: u8,
        kind: Kind,
        asked: &mut Meter,
        advertised: &mut Meter,
        links: &mut Receiver256,
    ) -> Decision
        ensures { FramesHanded self.now link kind result asked.old asked.new advertised.old advertised.new (receiver_of links.old) (receiver_of links.new) }
    {
        let each = told_each();
        let is_told_to = self.advertisements.has_room(advertised);
        let lets_tell = links.hears(link, each) && is_told_to;
        match kind {
            Kind::Question if !self.questions.has_room(asked) => Decision::TooManyQuestions,
            Kind::Told if !lets_tell => Decision::TooManyAdvertisements,
            _ => {
                self.questions.count(kind == Kind::Question, asked);
                self.advertisements.count(kind == Kind::Told, advertised);
                count(kind == Kind::Told, links, link, each);
                Decision::Passes
            }
        }
    }
}
