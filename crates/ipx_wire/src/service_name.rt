//! The name of a service: the bytes before the first zero of the 48 that a packet keeps for it.
ghost use Rattle.std.specs.Prelude.{◌≡◌, ◌+◌, ◌-◌, ◌≤◌, ◌==◌, List, ℕ, ◌++◌, length, take, replicate, codes, IfSome, IfNone, Some, refl};
ghost use Rattle.std.specs.Int.{from_be_bytes, w64};
ghost use Rattle.std.specs.List.{position_or_len};
ghost use Rattle.std.proofs.Common.{rules};
ghost use Rattle.std.specs.Cmp.{partial_equiv_from_equiv};
ghost use Rattle.std.specs.Cmp.Rules.{hashing};
ghost use Rattle.std.specs.Hash as fed;
ghost use Rattle.std.specs.Cmp.Lexicographic.{nat_list_eq_equiv, nat_list_cmp_total, texts_po, texts_ties};
ghost use Rattle.ipx_wire.specs.NameWord.{name_word};
ghost use Rattle.ipx_wire.specs.Piece.{piece};
ghost use Rattle.ipx_wire.specs.Name.{IsName, IsNoName, IsServiceName, name_of, name_field, name_order, same_name, default_name};

use crate::hex_text::write_ascii;
use crate::name_word::put_name;
use std::cmp::Ordering;
use std::fmt;
use std::hash::{Hash, Hasher};
use std::marker::Model;

/// The name of a service, 1 to 47 bytes without a zero. Names are compared byte by byte, and a proper prefix of a
/// name is smaller than that name.
///
/// ```
/// match ServiceName::read(field) {
///     Some(name) => println!(rt; "{name} has {} bytes", name.bytes().len())?,
///     None => println!(rt; "a name ends with a zero, and isn't empty")?,
/// }
/// // prints ACCOUNTS has 8 bytes
/// ```
#[derive(Clone, Copy)]
pub struct ServiceName {
    field: [u8; 48],
    count: u8,
}

impl Model for ServiceName {
    ghost use Rattle.std.specs.Prelude.{List, ℕ, length, take};
    ghost use Rattle.std.proofs.Common.{sym};
    ghost use Rattle.ipx_wire.specs.Name.{IsKeptName, name_field};

    ghost Value = { List ℕ };

    ghost view = { λ name. take name.count name.field };

    ghost invariant = { λ name. IsKeptName name.field (take name.count name.field) name.count };

    ghost inverse = { λ bytes. record { field = name_field bytes; count = length bytes } };

    ghost inverse_ok = { λ name kept i. record { field = sym kept.sent i; count = kept.counted i } };
}

impl ServiceName {
    /// How many bytes a packet keeps for a name.
    pub const SIZE: usize = 48;

    /// The most bytes that the word of a name has: three for each of 47.
    pub const LONGEST_WORD: usize = 141;

    /// The name in the field of a packet: the bytes before its first zero. If the field begins with a zero or has
    /// none, there is no name.
    #[tactic(auto, unfolding(crate::specs::Name::name_of))]
    pub fn read(field: &[u8; 48]) -> Option<ServiceName>
        ensures found { IfSome result (IsName field.now) }
        ensures only { (name : List ℕ) → IsName field.now name → result ≡ Some name }
        ensures refused { IfNone result (IsNoName field.now) }
        // The same as a function of the bytes.
        ensures value { result ≡ name_of field.now }
    {
        let count = before_zero(field);
        if count == 0 || count == ServiceName::SIZE {
            return None;
        }
        let mut sent = *field;
        clear_behind(&mut sent, count);
        Some(ServiceName {
            field: sent,
            count: count as u8,
        })
    }

    /// The bytes of the name.
    pub fn bytes(&self) -> &[u8]
        ensures value { result.now ≡ self.now }
        ensures name { IsServiceName self.now }
    {
        &self.field[..usize::from(self.count)]
    }

    /// The field of a packet that has this name: its bytes, then zeros.
    pub fn field(&self) -> [u8; 48]
        ensures value { result ≡ name_field self.now }
        ensures name { IsServiceName self.now }
    {
        self.field
    }

    /// The same field, where it lies.
    pub(crate) fn as_field(&self) -> &[u8; 48]
        ensures value { result.now ≡ name_field self.now }
        ensures name { IsServiceName self.now }
    {
        &self.field
    }

    /// Writes the name as one word into the front of `room`, as ASCII, and returns how many bytes it has.
    ///
    /// A byte that isn't visible ASCII, and the backslash, is written as a backslash and two upper-case hexadecimal digits.
    pub fn put_word(&self, room: &mut [u8; ServiceName::LONGEST_WORD]) -> usize
        ensures word { take result room.new ≡ name_word self.now }
        ensures most { result ≤ 141 }
    {
        put_name(room, self.bytes())
    }
}

/// The name as one word: a byte that isn't visible ASCII, and the backslash, as a backslash and two upper-case hexadecimal
/// digits, as in `PRINTER\\20A`.
impl fmt::Display for ServiceName {
    ghost output = { λ name. Some (name_word name) };

    fn fmt<W: fmt::Write>(&self, f: &mut fmt::Formatter<W>) -> fmt::Result {
        let mut room = [0; ServiceName::LONGEST_WORD];
        let count = self.put_word(&mut room);
        write_ascii(f, &room[..count])
    }
}

/// The word in brackets, as in `ServiceName(PRINTER\\20A)`.
impl fmt::Debug for ServiceName {
    ghost debug_output = { λ name. Some (codes "ServiceName(" ++ name_word name ++ codes ")") };

    fn fmt<W: fmt::Write>(&self, f: &mut fmt::Formatter<W>) -> fmt::Result {
        write!(f, "ServiceName({self})")
    }
}

/// The name `?`, for a place that has no service yet.
impl Default for ServiceName {
    ghost is_default = { λ name. name ≡ default_name };

    fn default() -> ServiceName {
        let mut field = [b'?'; 48];
        clear_behind(&mut field, 1);
        ServiceName { field, count: 1 }
    }
}

impl PartialEq for ServiceName {
    ghost eq = { same_name };

    ghost laws = { partial_equiv_from_equiv nat_list_eq_equiv };

    fn eq(&self, other: &ServiceName) -> bool {
        self.cmp(other).is_eq()
    }
}

impl Eq for ServiceName {
    ghost laws = { nat_list_eq_equiv };
}

impl PartialOrd for ServiceName {
    ghost partial_cmp = { λ a b. Some (name_order a b) };

    ghost laws = { texts_po };

    fn partial_cmp(&self, other: &ServiceName) -> Option<Ordering> {
        Some(self.cmp(other))
    }
}

impl Ord for ServiceName {
    ghost cmp = { name_order };

    ghost total = { nat_list_cmp_total };

    ghost matches_partial_cmp = { λ a b. refl };

    ghost matches_eq = { λ a b. texts_ties a b };

    fn cmp(&self, other: &ServiceName) -> Ordering {
        cmp_fields(&self.field, &other.field)
    }
}

impl Hash for ServiceName {
    ghost hash_input = { fed.slice fed.u8 };

    ghost respects_eq = { Prim.search (hashing, rules) };

    fn hash<H: Hasher>(&self, state: &mut H) {
        self.bytes().hash(state);
    }
}

/// How two fields compare, byte by byte. Eight bytes are compared at once, as a number whose highest byte is the first of them.
pub(crate) fn cmp_fields(a: &[u8], b: &[u8]) -> Ordering
    requires a { length a.now ≡ 48 }
    requires b { length b.now ≡ 48 }
    ensures { result ≡ name_order a.now b.now }
{
    for k in 0..6 {
        let (one, other) = (word_at(a, 8 * k), word_at(b, 8 * k));
        if one != other {
            return one.cmp(&other);
        }
    }
    Ordering::Equal
}

/// The number in eight bytes of a field.
fn word_at(field: &[u8], place: usize) -> u64
    requires { place + 8 ≤ length field.now }
    ensures { result ≡ from_be_bytes w64 (piece field.now place 8) }
{
    u64::from_be_bytes([
        field[place],
        field[place + 1],
        field[place + 2],
        field[place + 3],
        field[place + 4],
        field[place + 5],
        field[place + 6],
        field[place + 7],
    ])
}

/// How many bytes stand before the first zero; all of them, where there is none.
fn before_zero(bytes: &[u8]) -> usize
    ensures { result ≡ position_or_len (λ byte. byte == 0) bytes.now }
{
    bytes
        .iter()
        .position(|byte| *byte == 0)
        .unwrap_or(bytes.len())
}

/// Writes zeros behind the first `count` bytes.
fn clear_behind(bytes: &mut [u8], count: usize)
    requires { count ≤ length bytes.old }
    ensures { bytes.new ≡ take count bytes.old ++ replicate (length bytes.old - count) 0 }
{
    let (_, rest) = bytes.split_at_mut(count);
    rest.fill(0);
}
