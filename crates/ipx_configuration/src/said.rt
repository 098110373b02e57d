//! What lines say of networks and links, as memory of C has it.
ghost use Rattle.std.specs.Prelude.{◌≡◌, take};
ghost use Rattle.ipx_configuration.specs.Said.{has_socket, with_socket, with_range, with_origin, no_sockets, no_ranges, no_origins, no_internal, new_link};
ghost use Rattle.std.specs.List.{list_any};

use crate::carrier::Carrier;
use crate::peers::Peers;
use crate::rules::Rules;
use crate::statics::{StaticRoutes, StaticServices};
use ipx_settings::HostRange;

/// The most sockets that a network extends.
pub(crate) const MOST_SOCKETS: usize = 16;

/// The most ranges or origins of a list.
pub(crate) const MOST_RANGES: usize = 16;

/// The sockets that a network extends, in the order of their words.
///
/// See the example of [`Configuration`](crate::Configuration).
#[repr(C)]
#[derive(Clone, Copy, Debug, PartialEq, Eq)]
pub struct Sockets {
    pub list: [u16; 16],
    pub count: usize,
}

/// Ranges of addresses, in the order of their words.
///
/// See the example of [`Configuration`](crate::Configuration).
#[repr(C)]
#[derive(Clone, Copy, Debug, PartialEq, Eq)]
pub struct Ranges {
    pub list: [HostRange; 16],
    pub count: usize,
}

/// The origin of pages, with zeros behind it.
///
/// See the example of [`Configuration`](crate::Configuration).
#[repr(C)]
#[derive(Clone, Copy, Debug, PartialEq, Eq)]
pub struct OriginSaid {
    pub text: [u8; 89],
}

/// Origins, in the order of their words.
///
/// See the example of [`Configuration`](crate::Configuration).
#[repr(C)]
#[derive(Clone, Copy, Debug, PartialEq, Eq)]
pub struct Origins {
    pub list: [OriginSaid; 16],
    pub count: usize,
}

/// The router's node in its own network, where the line doesn't say one.
pub(crate) const USUAL_NODE: [u8; 6] = [0, 0, 0, 0, 0, 1];

/// What a line `clients` says. Where no line says it, the number of its line is 0; so it is with the others.
///
/// See the example of [`Configuration`](crate::Configuration).
#[repr(C)]
#[derive(Clone, Copy, Debug, PartialEq, Eq)]
pub struct ClientsSaid {
    pub line: usize,
    /// The most clients,
    pub all: u16,
    /// and the most of one address.
    pub of_address: u16,
}

/// What a line `rate` says. 0 is any number.
///
/// See the example of [`Configuration`](crate::Configuration).
#[repr(C)]
#[derive(Clone, Copy, Debug, PartialEq, Eq)]
pub struct RateSaid {
    pub line: usize,
    /// Packets a second that a client receives, or a link with frames of clients;
    pub rate: u32,
    /// those of a sender that says little;
    pub share: u32,
    /// and those that all clients of an address receive.
    pub household: u32,
}

/// What a line with one number says.
///
/// See the example of [`Configuration`](crate::Configuration).
#[repr(C)]
#[derive(Clone, Copy, Debug, PartialEq, Eq)]
pub struct NumberSaid {
    pub line: usize,
    pub number: u32,
}

/// What a line `internal` says: the router's own network, which no cable carries. Where no line says it, the number of its line is 0.
///
/// See the example of [`Configuration`](crate::Configuration).
#[repr(C)]
#[derive(Clone, Copy, Debug, PartialEq, Eq)]
pub struct InternalSaid {
    pub line: usize,
    /// Its number among networks.
    pub number: u32,
    /// The router's node there.
    pub node: [u8; 6],
}

/// A network, as its line says it, and those below that say more of it.
///
/// See the example of [`Configuration`](crate::Configuration).
#[repr(C)]
#[derive(Clone, Copy)]
pub struct NetworkSetting {
    /// The number of its line.
    pub line: usize,
    /// How many links stand above it: its own are those from here on.
    pub first: usize,
    /// It has a link.
    pub has_link: bool,
    /// Its own number.
    pub number: u32,
    /// Ticks.
    pub cost: u16,
    /// Bytes of the longest packet.
    pub longest: u16,
    /// The line says these two shares of the tables.
    pub has_shares: bool,
    pub routes: u16,
    pub services: u16,
    /// Its links stand in lines below it.
    pub is_of_several: bool,
    /// The line says the gateway's node there.
    pub has_node: bool,
    pub node: [u8; 6],
    pub sockets: Sockets,
    /// The number of the line that says that the router takes what comes from the cable as it is, or 0.
    pub adopt_line: usize,
    pub rules: Rules,
    /// Routes by way of nodes there that say nothing themselves,
    pub static_routes: StaticRoutes,
    /// and services.
    pub static_services: StaticServices,
    /// Its other places.
    pub peers: Peers,
}

/// A link, as its line says it, and the lines below.
///
/// See the example of [`Configuration`](crate::Configuration).
#[repr(C)]
#[derive(Clone, Copy)]
pub struct LinkSetting {
    /// The number of its line.
    pub line: usize,
    /// The number of its network among all of them, from 0.
    pub network: usize,
    pub carrier: Carrier,
    pub clients: ClientsSaid,
    pub rate: RateSaid,
    /// Datagrams a second for strangers; 0 is any number.
    pub strangers: NumberSaid,
    /// Of the line by which the clients are reached.
    pub kilobits: NumberSaid,
    /// Who may be a client; nobody is listed where all may.
    pub allowed: Ranges,
    /// Who may be one though he answers no ping.
    pub trusted: Ranges,
    /// The number of the line that says that the nodes of clients may be their addresses, or 0.
    pub nodes_line: usize,
    /// Where pages may come from whose programs are clients; only from where they ask, where none is listed.
    pub origins: Origins,
}

impl InternalSaid {
    pub(crate) fn none() -> InternalSaid
        ensures { result ≡ no_internal }
    {
        InternalSaid {
            line: 0,
            number: 0,
            node: [0; 6],
        }
    }
}

impl Sockets {
    pub(crate) fn none() -> Sockets
        ensures { result ≡ no_sockets }
    {
        Sockets {
            list: [0; 16],
            count: 0,
        }
    }

    fn listed(&self) -> &[u16]
        ensures { result.now ≡ take self.now.count self.now.list }
    {
        if self.count < MOST_SOCKETS {
            let (listed, _) = self.list.split_at(self.count);
            listed
        } else {
            &self.list
        }
    }

    pub(crate) fn has(&self, socket: u16) -> bool
        ensures { result ≡ has_socket self.now socket }
    {
        self.listed().iter().any(|other| *other == socket)
    }

    /// One more; all that there is room for stay as they are.
    pub(crate) fn with(self, socket: u16) -> Sockets
        ensures { result ≡ with_socket self socket }
    {
        let mut it = self;
        if it.count < MOST_SOCKETS {
            it.list[it.count] = socket;
            it.count += 1;
        }
        it
    }
}

impl Ranges {
    pub(crate) fn none() -> Ranges
        ensures { result ≡ no_ranges }
    {
        Ranges {
            list: [HostRange {
                first: [0; 4],
                bits: 0,
            }; 16],
            count: 0,
        }
    }

    /// One more, alike.
    pub(crate) fn with(self, range: HostRange) -> Ranges
        ensures { result ≡ with_range self range }
    {
        let mut it = self;
        if it.count < MOST_RANGES {
            it.list[it.count] = range;
            it.count += 1;
        }
        it
    }
}

impl Origins {
    pub(crate) fn none() -> Origins
        ensures { result ≡ no_origins }
    {
        Origins {
            list: [OriginSaid { text: [0; 89] }; 16],
            count: 0,
        }
    }

    /// One more, alike.
    pub(crate) fn with(self, text: [u8; 89]) -> Origins
        ensures { result ≡ with_origin self text }
    {
        let mut it = self;
        if it.count < MOST_RANGES {
            it.list[it.count] = OriginSaid { text };
            it.count += 1;
        }
        it
    }
}

/// A link of which its own line alone says something.
pub(crate) fn new_link(line: usize, network: usize, carrier: Carrier) -> LinkSetting
    ensures { result ≡ new_link line network carrier }
{
    LinkSetting {
        line,
        network,
        carrier,
        clients: ClientsSaid {
            line: 0,
            all: 0,
            of_address: 0,
        },
        rate: RateSaid {
            line: 0,
            rate: 0,
            share: 0,
            household: 0,
        },
        strangers: NumberSaid { line: 0, number: 0 },
        kilobits: NumberSaid { line: 0, number: 0 },
        allowed: Ranges::none(),
        trusted: Ranges::none(),
        nodes_line: 0,
        origins: Origins::none(),
    }
}
