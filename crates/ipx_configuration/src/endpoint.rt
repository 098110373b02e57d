//! Addresses of this machine and of others, each with a port.
ghost use Rattle.std.specs.Prelude.{◌≡◌};
ghost use Rattle.std.specs.List.{list_all};
ghost use Rattle.ipx_configuration.specs.Endpoints.{no_endpoint, endpoint_of, is_zero, is_all, is_of_one_kind, same_endpoint, overlap, is_surely_own};

use ipx_settings::{Address, Host};

/// An address with its port. What isn't said is 0.
///
/// See the example of [`Configuration`](crate::Configuration).
#[repr(C)]
#[derive(Clone, Copy, Debug, PartialEq, Eq)]
pub struct Endpoint {
    /// Of IPv4: its four numbers,
    pub four: [u8; 4],
    /// or of IPv6: its eight groups.
    pub six: [u16; 8],
    /// 0 where the system is to take a free one.
    pub port: u16,
    pub is_six: bool,
}

/// The first number of each address that every machine has for itself.
const LOOPBACK: u8 = 127;

/// And the one of IPv6.
const LOOPBACK_OF_SIX: [u16; 8] = [0, 0, 0, 0, 0, 0, 0, 1];

fn are_zero(numbers: &[u8]) -> bool
    ensures { result ≡ list_all is_zero numbers.now }
{
    numbers.iter().all(|number| *number == 0)
}

fn are_zero_groups(groups: &[u16]) -> bool
    ensures { result ≡ list_all is_zero groups.now }
{
    groups.iter().all(|group| *group == 0)
}

impl Endpoint {
    pub(crate) fn none() -> Endpoint
        ensures { result ≡ no_endpoint }
    {
        Endpoint {
            four: [0; 4],
            six: [0; 8],
            port: 0,
            is_six: false,
        }
    }

    pub(crate) fn of(address: Address) -> Endpoint
        ensures { result ≡ endpoint_of address }
    {
        match address.host {
            Host::Four(four) => Endpoint {
                four,
                six: [0; 8],
                port: address.port,
                is_six: false,
            },
            Host::Six(six) => Endpoint {
                four: [0; 4],
                six,
                port: address.port,
                is_six: true,
            },
        }
    }

    /// Whether it stands for all addresses of this machine of its kind: 0.0.0.0 or [::].
    fn is_all(&self) -> bool
        ensures { result ≡ is_all self.now }
    {
        are_zero(&self.four) && are_zero_groups(&self.six)
    }

    fn is_of_one_kind(&self, other: &Endpoint) -> bool
        ensures { result ≡ is_of_one_kind self.now other.now }
    {
        if self.is_six {
            other.is_six
        } else {
            !other.is_six
        }
    }

    pub(crate) fn is_same(&self, other: &Endpoint) -> bool
        ensures { result ≡ same_endpoint self.now other.now }
    {
        self.four == other.four
            && self.six == other.six
            && self.port == other.port
            && self.is_of_one_kind(other)
    }

    /// Whether one address of this machine is the other, or contains it.
    pub(crate) fn overlaps(&self, other: &Endpoint) -> bool
        ensures { result ≡ overlap self.now other.now }
    {
        self.port != 0
            && self.port == other.port
            && self.is_of_one_kind(other)
            && (self.is_all() || other.is_all() || self.is_same(other))
    }

    /// Whether every machine has this address for itself.
    pub(crate) fn is_surely_own(&self) -> bool
        ensures { result ≡ is_surely_own self.now }
    {
        self.is_all()
            || if self.is_six {
                self.six == LOOPBACK_OF_SIX
            } else {
                self.four[0] == LOOPBACK
            }
    }
}
