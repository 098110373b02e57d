//! The entries of a response of services, lent from its bytes, each by its number.
ghost use Rattle.ipx_wire.specs.Piece.{piece};
ghost use Rattle.ipx_wire.specs.SapEntries.{sap_entry_at, sap_entries_at};
ghost use Rattle.ipx_wire.specs.inside.Kept.{IsCounted};
ghost use Rattle.ipx_wire.specs.Numbers.{most_services};
ghost use Rattle.std.specs.Prelude.{◌≡◌, ◌<◌, ◌≤◌, length, slice_get, Some};

use crate::address::Address;
use crate::fields::{address_from, u16_at};
use crate::sap_iter::SapIter;
use crate::service_name::ServiceName;
use std::marker::Model;

/// A service as a response advertises it.
///
/// See the example of [`Sap`](crate::Sap).
#[derive(Clone, Copy, Debug, PartialEq, Eq, Hash)]
pub struct SapEntry {
    /// The type of the service, 0 to FFFFh.
    pub kind: u16,
    /// Its name; `None` if the name is empty or no zero ends it within its 48 bytes.
    pub name: Option<ServiceName>,
    /// The address where it is offered.
    pub address: Address,
    /// How many routers are on the way; 16 or more mean unreachable.
    pub hops: u16,
}

impl SapEntry {
    /// How many bytes an entry takes.
    pub const SIZE: usize = 64;

    /// The most entries that one packet has.
    pub const MOST: usize = 7;
}

/// The entries of a response, lent from the bytes that were read.
///
/// See the example of [`Sap`](crate::Sap).
#[derive(Debug, Drop)]
pub struct SapEntries<'a> {
    count: usize,
    body: &'a [u8],
}

impl<'a> Model for SapEntries<'a> {
    ghost use Rattle.ipx_wire.specs.Piece.{piece};
    ghost use Rattle.std.specs.Prelude.{List};
    ghost use Rattle.ipx_wire.specs.declared.sap_entries.SapEntry.{SapEntry};
    ghost use Rattle.ipx_wire.specs.SapEntries.{sap_entries_at};
    ghost use Rattle.ipx_wire.specs.inside.Kept.{IsCounted};
    ghost use Rattle.ipx_wire.specs.Numbers.{most_services};

    ghost Value = { List SapEntry };

    ghost view = { λ s. sap_entries_at s.count s.body.now };

    ghost invariant = { λ s. IsCounted 1 most_services 64 s.count s.body.now };
}

impl<'a> SapEntries<'a> {
    /// The first `count` entries of bytes that have as many.
    pub(crate) fn of(count: usize, body: &'a [u8]) -> SapEntries<'a>
        requires { IsCounted 1 most_services 64 count body.now }
        ensures { result ≡ sap_entries_at count body.entry.now }
    {
        SapEntries { count, body }
    }

    /// How many entries there are, 1 to 7.
    pub fn len(&self) -> usize
        ensures value { result ≡ length self.now }
        ensures some { 1 ≤ result }
        ensures most { result ≤ most_services }
    {
        self.count
    }

    /// Entry number `k`, counted from 0; `k` is below `len()`.
    pub fn entry(&self, k: usize) -> SapEntry
        requires { k < length self.now }
        ensures { slice_get self.now k ≡ Some result }
    {
        let (_, rest) = self.body.split_at(SapEntry::SIZE * k);
        entry_from(rest)
    }

    /// The bytes from entry number `k` on, counted from 0, as they were sent; `k` is below `len()`. An entry takes 64.
    ///
    /// [`Service::is_entry`](crate::Service::is_entry) and `cmp_entry` compare a service with them, which is faster than to read the
    /// entry.
    pub fn bytes_from(&self, k: usize) -> &[u8]
        requires { k < length self.now }
        ensures size { 64 ≤ length result.now }
        ensures entry { slice_get self.now k ≡ Some (sap_entry_at result.now) }
    {
        let (_, rest) = self.body.split_at(SapEntry::SIZE * k);
        rest
    }

    /// Entry number `k`, counted from 0, or `None` if there are no more than `k`.
    pub fn get(&self, k: usize) -> Option<SapEntry>
        ensures { result ≡ slice_get self.now k }
    {
        if k < self.len() {
            Some(self.entry(k))
        } else {
            None
        }
    }

    /// The entries in their order.
    pub fn entries(&self) -> SapIter<'a>
        ensures { result ≡ self.now }
    {
        SapIter::of(self.count, self.body)
    }
}

#[tactic(auto, unfolding(crate::specs::SapEntries::sap_entry_at))]
pub(crate) fn entry_from(bytes: &[u8]) -> SapEntry
    requires { 64 ≤ length bytes.now }
    ensures { result ≡ sap_entry_at bytes.now }
{
    let field = name_field_in(bytes);
    SapEntry {
        kind: u16_at(bytes, 0),
        name: ServiceName::read(&field),
        address: address_from(bytes, 50),
        hops: u16_at(bytes, 62),
    }
}

fn name_field_in(bytes: &[u8]) -> [u8; 48]
    requires { 64 ≤ length bytes.now }
    ensures { result ≡ piece bytes.now 2 48 }
{
    let mut field = [0; 48];
    field.copy_from_slice(&bytes[2..50]);
    field
}
