//! The networks and links of a configuration, in memory of the caller.
ghost use Rattle.std.specs.Prelude.{◌≡◌};
ghost use Rattle.ipx_configuration.specs.Memory.{networks_in, links_in, last_network, last_link, with_network, with_link, with_last_network, with_last_link};

use crate::said::{LinkSetting, NetworkSetting};

/// The most networks of a configuration, and links of all of them together.
pub(crate) const MOST_NETWORKS: usize = 32;

pub(crate) const MOST_LINKS: usize = 64;

/// Networks, in the order of their lines.
///
/// See the example of [`Configuration`](crate::Configuration).
#[repr(C)]
#[derive(Clone, Copy)]
pub struct NetworkList {
    pub list: [NetworkSetting; 32],
    pub count: usize,
}

/// Links, in the order of their lines: those of one network stand behind each other.
///
/// See the example of [`Configuration`](crate::Configuration).
#[repr(C)]
#[derive(Clone, Copy)]
pub struct LinkList {
    pub list: [LinkSetting; 64],
    pub count: usize,
}

impl NetworkList {
    pub(crate) fn listed(&self) -> &[NetworkSetting]
        ensures { result.now ≡ networks_in self.now }
    {
        if self.count < MOST_NETWORKS {
            let (listed, _) = self.list.split_at(self.count);
            listed
        } else {
            &self.list
        }
    }

    pub(crate) fn last(&self) -> Option<NetworkSetting>
        ensures { result ≡ last_network self.now }
    {
        if self.count == 0 {
            return None;
        }
        match self.list.get(self.count - 1) {
            Some(network) => Some(*network),
            None => None,
        }
    }

    /// One more, if there is room.
    pub(crate) fn put(&mut self, network: NetworkSetting)
        ensures { self.new ≡ with_network self.old network }
    {
        if self.count < MOST_NETWORKS {
            self.list[self.count] = network;
            self.count += 1;
        }
    }

    /// Another in place of the last, if there is one.
    pub(crate) fn put_last(&mut self, network: NetworkSetting)
        ensures { self.new ≡ with_last_network self.old network }
    {
        if 0 < self.count && self.count <= MOST_NETWORKS {
            self.list[self.count - 1] = network;
        }
    }
}

impl LinkList {
    pub(crate) fn listed(&self) -> &[LinkSetting]
        ensures { result.now ≡ links_in self.now }
    {
        if self.count < MOST_LINKS {
            let (listed, _) = self.list.split_at(self.count);
            listed
        } else {
            &self.list
        }
    }

    pub(crate) fn last(&self) -> Option<LinkSetting>
        ensures { result ≡ last_link self.now }
    {
        if self.count == 0 {
            return None;
        }
        match self.list.get(self.count - 1) {
            Some(link) => Some(*link),
            None => None,
        }
    }

    /// One more, if there is room.
    pub(crate) fn put(&mut self, link: LinkSetting)
        ensures { self.new ≡ with_link self.old link }
    {
        if self.count < MOST_LINKS {
            self.list[self.count] = link;
            self.count += 1;
        }
    }

    /// Another in place of the last, if there is one.
    pub(crate) fn put_last(&mut self, link: LinkSetting)
        ensures { self.new ≡ with_last_link self.old link }
    {
        if 0 < self.count && self.count <= MOST_LINKS {
            self.list[self.count - 1] = link;
        }
    }
}
