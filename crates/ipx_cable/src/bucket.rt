//! A few places for stations.
ghost use Rattle.std.specs.Prelude.{◌≡◌};
ghost use Rattle.std.specs.List.{position};
ghost use Rattle.ipx_cable.specs.Stations.{is_of, is_free, station_of, has_another, place, after_word, all_aged, aged_bucket};

use crate::station::Station;

/// How many stations a bucket has room for.
const IN_BUCKET: usize = 8;

/// The stations whose nodes have one hash, as far as there is room. All bytes 0, there are none.
///
/// See the example of [`Kinds`](crate::Kinds).
#[repr(C)]
#[derive(Clone, Copy, Debug)]
pub struct Bucket {
    /// Where a station is known, or nobody is.
    pub stations: [Station; 8],
}

impl Bucket {
    /// The station with that node, if it is known.
    pub(crate) fn station_of(&self, node: [u8; 6]) -> Option<Station>
        ensures { result ≡ station_of node self.now.stations }
    {
        match self.standing(node) {
            Some(index) => self.stations.get(index).copied(),
            None => None,
        }
    }

    /// Whether a station has another kind, in which it has just spoken.
    pub(crate) fn has_another(&self, node: [u8; 6], kind: u8) -> bool
        ensures { result ≡ has_another node kind self.now.stations }
    {
        match self.station_of(node) {
            Some(station) => station.kind != kind && station.has_just_spoken(),
            None => false,
        }
    }

    /// Where a station stands, or the first place that is free.
    fn place(&self, node: [u8; 6]) -> Option<usize>
        ensures { result ≡ place node self.now.stations }
    {
        match self.standing(node) {
            Some(index) => Some(index),
            None => self.free(),
        }
    }

    /// Where a station stands.
    fn standing(&self, node: [u8; 6]) -> Option<usize>
        ensures { result ≡ position (is_of node) self.now.stations }
    {
        self.stations.iter().position(|it| it.is_of(node))
    }

    /// The first place where nobody is known.
    fn free(&self) -> Option<usize>
        ensures { result ≡ position is_free self.now.stations }
    {
        self.stations.iter().position(|it| !it.is_known())
    }

    /// A station says something in a kind.
    pub(crate) fn hear(&mut self, node: [u8; 6], kind: u8)
        ensures { self.new.stations ≡ after_word node kind self.old.stations }
    {
        if self.has_another(node, kind) {
            return;
        }
        if let Some(index) = self.place(node) {
            self.stations[index] = Station::heard(node, kind);
        }
    }

    /// The same a second later.
    pub(crate) fn later(&self) -> Bucket
        ensures { result ≡ aged_bucket self.now }
    {
        let mut stations = self.stations;
        pass(&mut stations);
        Bucket { stations }
    }
}

/// A second passes at some places.
fn pass(stations: &mut [Station])
    ensures { stations.new ≡ all_aged stations.old }
{
    for station in stations.iter_mut() {
        *station = station.later();
    }
}
