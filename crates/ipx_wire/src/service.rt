//! A service as it is written: type, name, address and hops.
ghost use Rattle.std.specs.Prelude.{◌≡◌, ◌≤◌, length, true};
ghost use Rattle.std.specs.Int.{from_be_bytes, w16};
ghost use Rattle.std.specs.Ordering.{nat_cmp, ordering_then};
ghost use Rattle.ipx_wire.specs.Name.{IsServiceName, name_field, name_order};
ghost use Rattle.ipx_wire.specs.Piece.{piece};
ghost use Rattle.ipx_wire.specs.SapEntries.{sap_entry_at};
ghost use Rattle.ipx_wire.specs.WriteServices.{entry_of};

use crate::address::Address;
use crate::fields::{address_from, u16_at};
use crate::service_name::{ServiceName, cmp_fields};
use std::cmp::Ordering;

/// A service as a router advertises it.
///
/// One is advertised, where `from` and `to` are addresses:
///
/// ```
/// let service = Service {
///     kind: 4,
///     name,
///     address: from,
///     hops: 1,
/// };
/// let mut out = [0; 96];
/// let size = write_sap(from, to, false, &[service], &mut out);
/// println!(rt; "{name} in a packet of {size} bytes")?;
/// // prints ACCOUNTS in a packet of 96 bytes
/// ```
#[derive(Clone, Copy, Debug, Default, PartialEq, Eq, Hash)]
pub struct Service {
    /// The type of the service, 0 to FFFFh.
    pub kind: u16,
    /// Its name, 1 to 47 bytes.
    pub name: ServiceName,
    /// The address where it is offered.
    pub address: Address,
    /// How many routers are on the way; 16 or more mean unreachable.
    pub hops: u16,
}

impl Service {
    /// How its type and its name compare with those of an entry, by the bytes of the entry, of which there are at least 64: by type,
    /// then by the 48 bytes in which the name is kept.
    pub fn cmp_entry(&self, bytes: &[u8]) -> Ordering
        requires { 64 ≤ length bytes.now }
        ensures order { result ≡ ordering_then (nat_cmp self.now.kind (from_be_bytes w16 (piece bytes.now 0 2)))
            (name_order (name_field self.now.name) (piece bytes.now 2 48)) }
        ensures named { IsServiceName self.now.name }
    {
        let field = self.name.as_field();
        let kind = u16_at(bytes, 0);
        if self.kind != kind {
            return self.kind.cmp(&kind);
        }
        cmp_fields(field, &bytes[2..50])
    }

    /// Whether an entry is this service, by the bytes of the entry, of which there are at least 64. An entry that keeps other bytes
    /// than zeros behind its name never is.
    #[tactic(auto, unfolding(crate::specs::SapEntries::sap_entry_at))]
    pub fn is_entry(&self, bytes: &[u8]) -> bool
        requires { 64 ≤ length bytes.now }
        ensures only { result ≡ true → sap_entry_at bytes.now ≡ entry_of self.now }
        ensures always { sap_entry_at bytes.now ≡ entry_of self.now → piece bytes.now 2 48 ≡ name_field self.now.name → result ≡ true }
        ensures zeros { result ≡ true → piece bytes.now 2 48 ≡ name_field self.now.name }
    {
        if self.hops != u16_at(bytes, 62) {
            return false;
        }
        if self.address != address_from(bytes, 50) {
            return false;
        }
        self.cmp_entry(bytes).is_eq()
    }
}
