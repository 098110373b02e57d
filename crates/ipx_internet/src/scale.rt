//! What weights are made of, and what one packet weighs by them.
ghost use Rattle.std.specs.Prelude.{◌≡◌, ℕ, ◌+◌, ◌-◌, ◌==◌, ◌||◌, if◌then◌else◌};
ghost use Rattle.ipx_wire.specs.declared.address.Address.{Address as SomeAddress};
ghost use Rattle.ipx_router.specs.Heard.{HeardRip, HeardSap};
ghost use Rattle.ipx_router.specs.Numbers.{local_network, unreachable};
ghost use Rattle.ipx_router.specs.Port.{Port as SomePort};
ghost use Rattle.ipx_router.specs.Why.{is_propagated};
ghost use Rattle.ipx_internet.specs.Internet.{Internet};
ghost use Rattle.ipx_internet.specs.InternetWeight.{most_hearers, weight_in_reach, entry_weight, routes_weight, services_weight, request_weight, query_weight, message_weight, said_weight, packet_weight};
ghost use Rattle.ipx_internet.specs.Most.{most_of, most_ports, most_on_network};
ghost use Rattle.ipx_internet.specs.inside.Scales.{saturated, IsScale};

use ipx_wire::{
    Crossed, Header, Network, Node, Operation, Packet, Rip, RipEntry, Sap, SapEntries, SapEntry,
    Socket,
};

/// This many entries of routes are as long as one of services.
const ENTRIES_A_SERVICE: usize = SapEntry::SIZE / RipEntry::SIZE;

/// What the weights of an internet are made of.
#[derive(Clone, Copy)]
pub(crate) struct Scale {
    /// The most ports that hear what a router says of a record.
    pub hearers: usize,
    /// The most ports that receive a packet on its last network, and at least 1.
    pub receivers: usize,
    /// The most entries of an answer to a request.
    pub entries: usize,
    /// The most services that they are read as, where that is what the asker reads.
    pub misread: usize,
    /// The packets that they take.
    pub pages: usize,
    /// The most services of an answer to a query.
    pub services: usize,
}

/// The scale of an internet where a router has this many ports at most, and a network this many, and a router has room for
/// that many routes and services.
pub(crate) fn scale_of(ports: usize, on_network: usize, routes: usize, services: usize) -> Scale
    ensures { (net : Internet) → ports ≡ most_ports net → on_network ≡ most_on_network net → IsScale net routes services result }
{
    let others = ports.saturating_sub(1);
    let neighbours = on_network.saturating_sub(1);
    let hearers = others.saturating_mul(neighbours);
    let entries = routes.saturating_add(others);
    let all = routes as u128 + others as u128;
    let misread = (all / ENTRIES_A_SERVICE as u128) as usize;
    let pages = all.div_ceil(RipEntry::MOST as u128) as usize;
    Scale {
        hearers,
        receivers: neighbours.max(1),
        entries,
        misread,
        pages,
        services,
    }
}

/// The most receptions of a packet that is sent on to at most this many from each, at most this often.
fn tree(times: usize, degree: usize) -> usize
    ensures { (d : ℕ) → degree ≡ saturated d → result ≡ saturated (most_of d times) }
{
    let mut whole: usize = 1;
    for _ in 0..times {
        whole = degree.saturating_mul(whole).saturating_add(1);
    }
    whole
}

/// What an entry weighs that may be taken by this many routers, one behind the other.
fn reach(times: usize, hearers: usize) -> usize
    ensures { (net : Internet) → hearers ≡ saturated (most_hearers net) → result ≡ saturated (weight_in_reach net times) }
{
    let mut whole: usize = 0;
    for _ in 0..times {
        whole = hearers.saturating_mul(whole.saturating_add(2));
    }
    whole
}

impl Scale {
    /// What a packet weighs that comes to a port on a network.
    pub fn weight(self, network: Network, packet: &Packet<'_>) -> usize
        ensures { (net : Internet) (routes services : ℕ) (port : SomePort) → IsScale net routes services self → port.network ≡ network
            → result ≡ saturated (packet_weight net routes services port packet.now) }
    {
        let header = packet.header();
        if is_propagated(&header) {
            let times = usize::from(Crossed::PLACES.saturating_sub(header.control));
            return tree(times, self.hearers);
        }
        let said = self.said(packet);
        if is_local(network, header.destination.network) {
            return said;
        }
        let routers = usize::from(Header::MOST_ROUTERS.saturating_sub(header.control));
        self.receivers.saturating_mul(said).saturating_add(routers)
    }

    /// What a packet weighs by what it says.
    fn said(self, packet: &Packet<'_>) -> usize
        ensures { (net : Internet) (routes services : ℕ) → IsScale net routes services self → result ≡ saturated (said_weight net routes services packet.now) }
    {
        let header = packet.header();
        let asker = header.source.socket;
        if header.kind == Header::PROPAGATED {
            return 1;
        }
        if header.destination.socket == Socket::RIP {
            return match Rip::read(packet.payload()) {
                Ok(rip) => self.routing(&rip, asker),
                Err(_) => 1,
            };
        }
        if header.destination.socket == Socket::SAP {
            return match Sap::read(packet.payload()) {
                Ok(sap) => self.advertising(&sap, asker),
                Err(_) => 1,
            };
        }
        1
    }

    /// What routing information weighs.
    fn routing(self, rip: &Rip<'_>, asker: Socket) -> usize
        ensures { (net : Internet) (routes services : ℕ) (source : SomeAddress) → IsScale net routes services self → source.socket ≡ asker
            → result ≡ saturated (message_weight net routes services (HeardRip source rip.now)) }
    {
        match rip.operation() {
            Operation::Request => self.request(asker),
            Operation::Response => self.routes(rip).saturating_add(1),
        }
    }

    /// What service advertising weighs.
    fn advertising(self, sap: &Sap<'_>, asker: Socket) -> usize
        ensures { (net : Internet) (routes services : ℕ) (source : SomeAddress) → IsScale net routes services self → source.socket ≡ asker
            → result ≡ saturated (message_weight net routes services (HeardSap source sap.now)) }
    {
        match sap {
            Sap::Query { nearest, .. } => self.query(*nearest, asker),
            Sap::Response { nearest, entries } => self.response(*nearest, entries),
        }
    }

    /// What a response of services weighs.
    fn response(self, nearest: bool, entries: &SapEntries<'_>) -> usize
        ensures { (net : Internet) (routes services : ℕ) → IsScale net routes services self
            → result ≡ saturated (if nearest then 1 else 1 + services_weight net entries.now) }
    {
        if nearest {
            return 1;
        }
        self.offered(entries).saturating_add(1)
    }

    /// What an entry weighs, by its hops.
    fn entry(self, hops: u16) -> usize
        ensures { (net : Internet) (routes services : ℕ) → IsScale net routes services self → result ≡ saturated (entry_weight net hops) }
    {
        reach(in_reach(hops), self.hearers)
    }

    /// What the entries of routes weigh.
    fn routes(self, rip: &Rip<'_>) -> usize
        ensures { (net : Internet) (routes services : ℕ) → IsScale net routes services self → result ≡ saturated (routes_weight net rip.now.entries) }
    {
        let mut sum: usize = 0;
        for k in 0..rip.len() {
            let told = rip.entry(k);
            let weight = self.entry(told.hops);
            sum = sum.saturating_add(weight);
        }
        sum
    }

    /// What the entries of services weigh.
    fn offered(self, entries: &SapEntries<'_>) -> usize
        ensures { (net : Internet) (routes services : ℕ) → IsScale net routes services self → result ≡ saturated (services_weight net entries.now) }
    {
        let mut sum: usize = 0;
        for k in 0..entries.len() {
            let told = entries.entry(k);
            let weight = self.entry(told.hops);
            sum = sum.saturating_add(weight);
        }
        sum
    }

    /// What a request weighs, by the asker's socket.
    fn request(self, asker: Socket) -> usize
        ensures { (net : Internet) (routes services : ℕ) → IsScale net routes services self → result ≡ saturated (request_weight net routes asker.0) }
    {
        let packets = self.pages.saturating_add(1);
        if asker == Socket::RIP {
            let read = self.entries.saturating_mul(self.entry(1));
            return read.saturating_add(packets);
        }
        if asker == Socket::SAP {
            let read = self.misread.saturating_mul(self.entry(1));
            return read.saturating_add(packets);
        }
        packets
    }

    /// What a query weighs, by the asker's socket.
    fn query(self, nearest: bool, asker: Socket) -> usize
        ensures { (net : Internet) (routes services : ℕ) → IsScale net routes services self → result ≡ saturated (query_weight net services nearest asker.0) }
    {
        if nearest {
            return 2;
        }
        let packets = self.services.div_ceil(SapEntry::MOST).saturating_add(1);
        if asker == Socket::RIP {
            let short = self.services.min(SapEntry::MOST - 1);
            let read = (short * ENTRIES_A_SERVICE).saturating_mul(self.entry(0));
            return read.saturating_add(packets);
        }
        if asker == Socket::SAP {
            let read = self.services.saturating_mul(self.entry(1));
            return read.saturating_add(packets);
        }
        packets
    }
}

/// Whether a packet is propagated.
fn is_propagated(header: &Header) -> bool
    ensures { result ≡ is_propagated header.now }
{
    header.kind == Header::PROPAGATED && header.destination.node == Node::BROADCAST
}

/// Whether a number means a port's own network.
fn is_local(own: Network, network: Network) -> bool
    ensures { result ≡ ((network.0 == local_network) || (network.0 == own.0)) }
{
    network == Network::LOCAL || network == own
}

/// How many routers may take what is this many hops away, one behind the other.
fn in_reach(hops: u16) -> usize
    ensures { result ≡ unreachable - hops }
{
    usize::from(RipEntry::UNREACHABLE.saturating_sub(hops))
}
