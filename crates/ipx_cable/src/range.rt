//! Addresses that begin with the same bits.
ghost use Rattle.std.specs.Prelude.{◌≡◌, ◌↔◌, ◌<◌, ◌^◌, true};
ghost use Rattle.std.specs.List.{Any};
ghost use Rattle.ipx_cable.specs.Ranges.{number, front, Begins, IsFirst, behind};

/// Bits of an address.
const BITS: u8 = 32;

/// All addresses of IPv4 that begin with the same bits. All bytes 0, it has every address.
///
/// ```
/// let range = Range {
///     host: [192, 168, 1, 0],
///     bits: 24,
/// };
/// println!(rt; "192.168.1.7: {}", range.has([192, 168, 1, 7]))?;
/// println!(rt; "192.168.2.7: {}", range.has([192, 168, 2, 7]))?;
/// println!(rt; "its address is the first: {}", range.is_first())?;
/// // prints 192.168.1.7: true
/// // prints 192.168.2.7: false
/// // prints its address is the first: true
/// ```
#[repr(C)]
#[derive(Clone, Copy, Debug, Default, PartialEq, Eq)]
pub struct Range {
    /// One of them, its first byte first.
    pub host: [u8; 4],
    /// How many bits they have in common: at most 32; more are as many.
    pub bits: u8,
}

impl Range {
    /// Whether an address is one of them.
    pub fn has(&self, address: [u8; 4]) -> bool
        ensures { (result ≡ true) ↔ Begins self.now.bits self.now.host address }
    {
        front(number(self.host), self.bits) == front(number(address), self.bits)
    }

    /// Whether its own address is the first of them: no other bit of it is set.
    pub fn is_first(&self) -> bool
        ensures { (result ≡ true) ↔ IsFirst self.now.bits self.now.host }
    {
        number(self.host) % behind(self.bits) == 0
    }
}

/// Whether an address is in one of several ranges.
pub fn any_has(ranges: &[Range], address: [u8; 4]) -> bool
    ensures { (result ≡ true) ↔ Any (λ range. Begins range.bits range.host address) ranges.now }
{
    ranges.iter().any(|range| range.has(address))
}

/// The number that the first bits of an address are.
fn front(number: u64, bits: u8) -> u64
    ensures { result ≡ front number bits }
{
    number / behind(bits)
}

/// How many addresses there are with these bits in common.
fn behind(bits: u8) -> u64
    ensures value { result ≡ behind bits }
    ensures some { 0 < result }
{
    1 << (BITS - bits.min(BITS))
}

/// An address as a number.
#[tactic(auto, unfolding(crate::specs::Ranges::number))]
fn number(host: [u8; 4]) -> u64
    ensures value { result ≡ number host }
    ensures small { result < 2 ^ 32 }
{
    u64::from(u32::from_be_bytes(host))
}
