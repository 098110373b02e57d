//! Which kind of frames each station uses on a link where any may be used.
ghost use Rattle.std.specs.Prelude.{◌≡◌, ◌<◌, map};
ghost use Rattle.std.specs.List.{list_any};
ghost use Rattle.ipx_cable.specs.Stations.{aged_bucket};
ghost use Rattle.ipx_cable.specs.Kinds.{nothing, bucket_of, is_everybody, station_at, kind_at, is_heard, word, second, lasts, later, is_used, speaks, speaks_to_all};

use crate::bucket::Bucket;
use crate::station::{Station, is_kind};

/// How many buckets there are.
const BUCKETS: u64 = 64;

/// Seconds for which a kind is in use after it was heard.
const KIND_LASTS: u16 = 3600;

/// What a link where any kind of frames may be used has heard: who uses which kind, and which kinds are in use. A kind is a number from 1 to
/// 4. All bytes 0, nothing was heard.
///
/// ```
/// let (station, hash) = ([2, 0, 0, 0, 0, 1], 7);
/// let mut kinds = Kinds::zeros();
/// let counts = kinds.hear(hash, station, 2, true);
/// let kind = kinds.kind_of(hash, station);
/// println!(rt; "it counts: {counts}, and its kind is {kind}")?;
/// let copy = kinds.hear(hash, station, 4, true);
/// println!(rt; "at once in another kind: {copy}")?;
/// let stranger = [2, 0, 0, 0, 0, 2];
/// let (second, fourth) = (kinds.speaks(9, stranger, 2), kinds.speaks(9, stranger, 4));
/// println!(rt; "a stranger is spoken to in kind 2: {second}, in kind 4: {fourth}")?;
/// // prints it counts: true, and its kind is 2
/// // prints at once in another kind: false
/// // prints a stranger is spoken to in kind 2: true, in kind 4: false
/// ```
#[repr(C)]
#[derive(Clone, Copy, Debug)]
pub struct Kinds {
    /// For how many seconds each kind is still in use, unless it is heard again: at most 3,600. At 0 it isn't.
    pub left: [u16; 4],
    /// The stations that are known, by the hash of their nodes.
    pub buckets: [Bucket; 64],
}

impl Kinds {
    /// Nothing was heard.
    pub fn zeros() -> Kinds
        ensures { result ≡ nothing }
    {
        Kinds {
            left: [0; 4],
            buckets: [Bucket {
                stations: [Station::default(); 8],
            }; 64],
        }
    }

    /// A second passes.
    pub fn second(&mut self)
        ensures { self.new ≡ second self.old }
    {
        pass(&mut self.left);
        pass_in_buckets(&mut self.buckets);
    }

    /// A station says a packet in a kind, to a node or to all. Returns whether that counts: not where it is for all, and the station spoke in
    /// another kind less than five seconds ago, since it is a copy then, or comes from somebody else with its node; and not where there is no
    /// such kind. If it doesn't count, nothing changes.
    pub fn hear(&mut self, hash: u64, node: [u8; 6], kind: u8, is_for_all: bool) -> bool
        ensures heard { result ≡ is_heard hash node kind is_for_all self.old }
        ensures kinds { self.new ≡ word hash node kind is_for_all self.old }
    {
        if !self.is_heard(hash, node, kind, is_for_all) {
            return false;
        }
        self.left[usize::from(kind - 1)] = KIND_LASTS;
        self.buckets[bucket_of(hash)].hear(node, kind);
        true
    }

    /// The kind of frames that a station uses, or 0 where it isn't known.
    pub fn kind_of(&self, hash: u64, node: [u8; 6]) -> u8
        ensures { result ≡ kind_at hash node self.now }
    {
        match self.station_of(hash, node) {
            Some(station) => station.kind,
            None => 0,
        }
    }

    /// Whether a kind was heard within the last hour.
    pub fn is_used(&self, kind: u8) -> bool
        ensures { result ≡ is_used kind self.now }
    {
        is_kind(kind) && lasts(self.left[usize::from(kind - 1)])
    }

    /// Whether a packet for a node, or for all, goes out in a kind.
    pub fn speaks(&self, hash: u64, node: [u8; 6], kind: u8) -> bool
        ensures { result ≡ speaks hash node kind self.now }
    {
        if is_everybody(node) {
            return self.speaks_to_all(kind);
        }
        match self.station_of(hash, node) {
            Some(station) => station.kind == kind,
            None => self.speaks_to_all(kind),
        }
    }

    /// Whether a packet for all goes out in a kind.
    fn speaks_to_all(&self, kind: u8) -> bool
        ensures { result ≡ speaks_to_all kind self.now }
    {
        is_kind(kind) && (self.is_used(kind) || !self.uses_any())
    }

    /// Whether any kind was heard within the last hour.
    fn uses_any(&self) -> bool
        ensures { result ≡ list_any lasts self.now.left }
    {
        self.left.iter().any(|left| lasts(*left))
    }

    /// The station with that node, if it is known.
    fn station_of(&self, hash: u64, node: [u8; 6]) -> Option<Station>
        ensures { result ≡ station_at hash node self.now }
    {
        self.buckets[bucket_of(hash)].station_of(node)
    }

    /// Whether what a station says counts.
    fn is_heard(&self, hash: u64, node: [u8; 6], kind: u8, is_for_all: bool) -> bool
        ensures { result ≡ is_heard hash node kind is_for_all self.now }
    {
        is_kind(kind) && !(is_for_all && self.buckets[bucket_of(hash)].has_another(node, kind))
    }
}

/// The bucket of a node's hash.
fn bucket_of(hash: u64) -> usize
    ensures bucket { result ≡ bucket_of hash }
    ensures small { result < 64 }
{
    (hash % BUCKETS) as usize
}

/// Whether a node means all.
fn is_everybody(node: [u8; 6]) -> bool
    ensures { result ≡ is_everybody node }
{
    node == [0xFF; 6]
}

/// Whether a kind with so many seconds left is in use.
fn lasts(left: u16) -> bool
    ensures { result ≡ lasts left }
{
    left > 0
}

/// A second passes for kinds.
fn pass(left: &mut [u16])
    ensures { left.new ≡ map later left.old }
{
    for kind in left.iter_mut() {
        *kind = later(*kind);
    }
}

/// What a kind has left a second later.
fn later(left: u16) -> u16
    ensures { result ≡ later left }
{
    left.saturating_sub(1)
}

/// A second passes for stations.
fn pass_in_buckets(buckets: &mut [Bucket])
    ensures { buckets.new ≡ map aged_bucket buckets.old }
{
    for bucket in buckets.iter_mut() {
        *bucket = bucket.later();
    }
}
