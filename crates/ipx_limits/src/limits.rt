//! The limits of a network.
ghost use Rattle.std.specs.Prelude.{◌≡◌, ◌*◌, ◌<◌, ◌≤◌, ◌^◌};
ghost use Rattle.ipx_limits.specs.Numbers.{second, most_rate};
ghost use Rattle.ipx_limits.specs.Limits.{each_of, limit_of, rate_of, packet_of, setting_for, room_for, reserve_for, reading_on, questions_on, packets_of, told_at_once, advertisements_on, handed_each, limits_of, half_of, household_of, told_each, told_on_links, of_clients};

use crate::network::{Link, NetworkSetting};
use crate::reader::{LONGEST_PIECES, Reading};
use ipx_fair::Setting;

/// Nanoseconds of a second.
pub(crate) const SECOND: u64 = 1_000_000_000;

/// The most that counts of a rate or a share.
pub(crate) const MOST_RATE: u32 = 1_000_000;

/// Shares that a client receives a second beyond its rate.
const SHARES: u64 = 2;

/// Shares for which a client has room at once, and packets at least; and more, for those who say little. Each of these has one part in so
/// many of that.
const SHARES_AT_ONCE: u64 = 4;

const ROOM: u64 = 200;

const RESERVE: u64 = 50;

const RESERVE_PARTS: u64 = 8;

/// How many of the longest packets there may be at once, and how many frames one goes out in at most.
const LONGEST_AT_ONCE: u64 = 64;

const MOST_FRAMES: u64 = 4;

/// What somebody alone may say at once to all clients of an address: one part in so many of a second, and at least so many packets. There is
/// room for so many halves of that.
const HOUSEHOLD_PARTS: u64 = 8;

const HOUSEHOLD_LEAST: u64 = 500;

const HOUSEHOLD_HALVES: u64 = 4;

/// Clients of one address that may each ask and be answered.
const MOST_OF_HOUSEHOLD: u32 = 4;

/// Pings, questions, what routers tell, and answers: a second, where it isn't one; and at once.
const PINGS_AT_ONCE: u32 = 2;

const ALL_PINGS: u32 = 4;

const ALL_PINGS_AT_ONCE: u32 = 8;

const QUESTIONS_AT_ONCE: u32 = 4;

const LINK_QUESTIONS: u32 = 20;

const LINK_QUESTIONS_AT_ONCE: u32 = 80;

const ADVERTISEMENTS: u32 = 4;

const LEAST_ADVERTISEMENTS_AT_ONCE: u32 = 32;

const LINK_ADVERTISEMENTS: u32 = 100;

const LINK_ADVERTISEMENTS_AT_ONCE: u32 = 400;

const LINK_TELLS_AT_ONCE: u64 = 200;

const ANSWERS: u32 = 2;

const ANSWERS_AT_ONCE: u32 = 8;

const PAGES: u32 = 20;

/// What the router hears of an address: one part in so many of the rate; packets at once, and those of them that may be answers to pings.
const HANDED_PART: u64 = 2;

const HANDED_AT_ONCE: u64 = 64;

const ANSWERS_HANDED_AT_ONCE: u64 = 32;

/// The router's tables, and what one packet tells of them.
const MOST_ROUTES: u16 = 2048;

const MOST_SERVICES: u16 = 1024;

const ROUTES_IN_PACKET: u32 = 50;

const SERVICES_IN_PACKET: u32 = 7;

/// So much in so much time.
///
/// See the example of [`Limits`].
#[repr(C)]
#[derive(Clone, Copy, Debug, Default, PartialEq, Eq)]
pub struct Limit {
    /// Nanoseconds for each.
    pub each: u64,
    /// Nanoseconds for what comes at once.
    pub burst: u64,
}

impl Limit {
    /// So many in a second, and so many at once.
    fn of(a_second: u32, at_once: u32) -> Limit
        requires a_second { 0 < a_second }
        requires at_once { at_once ≤ 2 ^ 20 }
        ensures { result ≡ limit_of a_second at_once }
    {
        let each = each_of(u64::from(a_second));
        Limit {
            each,
            burst: times(each, u64::from(at_once)),
        }
    }

    /// The limit of an address with so many clients: as much as each of them may, up to four.
    pub fn of_clients(self, clients: u32) -> Limit
        ensures { result ≡ of_clients clients self }
    {
        Limit {
            each: self.each / u64::from(clients.min(MOST_OF_HOUSEHOLD).max(1)),
            burst: self.burst,
        }
    }
}

/// Nanoseconds for each of so many in a second.
pub(crate) fn each_of(count: u64) -> u64
    requires { 0 < count }
    ensures value { result ≡ each_of count }
    ensures most { result ≤ second }
{
    SECOND / count
}

/// The limits of a network. A number is nanoseconds.
///
/// ```
/// let setting = NetworkSetting {
///     link: Link::Tunnel,
///     rate: 800,
///     share: 50,
///     routes: 300,
///     services: 100,
/// };
/// let Some(limits) = Limits::of(setting) else {
///     return Ok(());
/// };
/// let (mut client, mut all) = (Client::default(), Meter::default());
/// let first = limits.says(Kind::Ping, &mut client, &mut all);
/// let second = limits.says(Kind::Ping, &mut client, &mut all);
/// let third = limits.says(Kind::Ping, &mut client, &mut all);
/// let both = first == Decision::Passes && second == Decision::Passes;
/// println!(rt; "two pings pass: {both}")?;
/// println!(rt; "a third is too much: {}", third == Decision::TooManyPings)?;
/// // prints two pings pass: true
/// // prints a third is too much: true
/// ```
#[repr(C)]
#[derive(Clone, Copy, Debug, Default, PartialEq, Eq)]
pub struct Limits {
    /// What a client receives of all who speak to it, or a link with frames of clients.
    pub received: Reading,
    /// What the router hears of an address.
    pub handed: Limit,
    /// How much of that may be used so that answers to pings are heard.
    pub handed_answers: u64,
    /// Pings of a client to all others.
    pub pings: Limit,
    /// Pings of all clients.
    pub all_pings: Limit,
    /// Questions of a client, or of a link with frames, to the router.
    pub questions: Limit,
    /// What else an address, or a link with frames, says to the router as routers do.
    pub advertisements: Limit,
    /// Answers of the gateway to a client.
    pub answers: Limit,
    /// Packets of the router's answers to what a client asks.
    pub pages: Limit,
}

impl Limits {
    /// The limits of a network, or none where its rate is 0.
    pub fn of(setting: NetworkSetting) -> Option<Limits>
        ensures { result ≡ limits_of setting }
    {
        if setting.rate == 0 {
            return None;
        }
        let each = handed_each(setting);
        Some(Limits {
            received: reading_on(setting),
            handed: Limit {
                each,
                burst: each * HANDED_AT_ONCE,
            },
            handed_answers: each * ANSWERS_HANDED_AT_ONCE,
            pings: Limit::of(1, PINGS_AT_ONCE),
            all_pings: Limit::of(ALL_PINGS, ALL_PINGS_AT_ONCE),
            questions: questions_on(setting.link),
            advertisements: advertisements_on(setting),
            answers: Limit::of(ANSWERS, ANSWERS_AT_ONCE),
            pages: Limit::of(PAGES, packets_of(MOST_ROUTES, MOST_SERVICES)),
        })
    }
}

/// What a client receives, or a link with frames.
fn reading_on(setting: NetworkSetting) -> Reading
    requires { 0 < setting.rate }
    ensures { result ≡ reading_on setting }
{
    let packet = packet_of(setting);
    let one = packet
        * match setting.link {
            Link::Tunnel => 1,
            Link::Frames => MOST_FRAMES,
        };
    let share = u64::from(setting.share.min(MOST_RATE));
    let room = (SHARES_AT_ONCE * share).max(ROOM);
    let reserve = share.max(RESERVE);
    Reading {
        packet,
        piece: packet / LONGEST_PIECES,
        packets: setting_for(one, times(packet, reserve), times(packet, room)),
        pieces: setting_for(one, 0, packet * LONGEST_AT_ONCE),
    }
}

/// Nanoseconds of a packet, however long it is.
fn packet_of(setting: NetworkSetting) -> u64
    requires { 0 < setting.rate }
    ensures value { result ≡ packet_of setting }
    ensures most { result ≤ second }
{
    let rate = u64::from(setting.rate.min(MOST_RATE));
    let share = u64::from(setting.share.min(MOST_RATE));
    each_of(rate + SHARES * share)
}

/// A receiver that may have so much at once.
fn setting_for(one: u64, reserve: u64, room: u64) -> Setting
    ensures { result ≡ setting_for one reserve room }
{
    Setting {
        one,
        own: one.max(reserve / RESERVE_PARTS),
        reserve,
        room,
    }
}

/// Nanoseconds for each packet that the router hears of an address.
fn handed_each(setting: NetworkSetting) -> u64
    requires { 0 < setting.rate }
    ensures value { result ≡ handed_each setting }
    ensures most { result ≤ 2 * second }
{
    HANDED_PART * SECOND / u64::from(setting.rate.min(MOST_RATE))
}

fn questions_on(link: Link) -> Limit
    ensures { result ≡ questions_on link }
{
    match link {
        Link::Tunnel => Limit::of(1, QUESTIONS_AT_ONCE),
        Link::Frames => Limit::of(LINK_QUESTIONS, LINK_QUESTIONS_AT_ONCE),
    }
}

fn advertisements_on(setting: NetworkSetting) -> Limit
    ensures { result ≡ advertisements_on setting.link setting }
{
    match setting.link {
        Link::Tunnel => Limit::of(ADVERTISEMENTS, told_at_once(setting)),
        Link::Frames => Limit::of(LINK_ADVERTISEMENTS, LINK_ADVERTISEMENTS_AT_ONCE),
    }
}

/// Packets that an address may tell at once: all that the tables take of its network, twice; where that is little, some more.
fn told_at_once(setting: NetworkSetting) -> u32
    ensures value { result ≡ told_at_once setting }
    ensures most { result ≤ 2 ^ 13 }
{
    (2 * packets_of(setting.routes, setting.services)).max(LEAST_ADVERTISEMENTS_AT_ONCE)
}

/// Packets that tell so many routes and services, or as many as the tables hold.
fn packets_of(routes: u16, services: u16) -> u32
    ensures value { result ≡ packets_of routes services }
    ensures most { result ≤ 2 ^ 10 }
{
    let routes = u32::from(routes.min(MOST_ROUTES)).div_ceil(ROUTES_IN_PACKET);
    let services = u32::from(services.min(MOST_SERVICES)).div_ceil(SERVICES_IN_PACKET);
    routes + services
}

/// What all clients of an address receive of others, on networks that say so much.
///
/// See the example of [`Limits`].
#[repr(C)]
#[derive(Clone, Copy, Debug, Default, PartialEq, Eq)]
pub struct HouseholdLimits {
    /// What they receive of each other address.
    pub received: Setting,
    /// What a packet takes of that.
    pub packet: u64,
    /// Nanoseconds for what they say to each other at once.
    pub among: u64,
}

impl HouseholdLimits {
    /// The limits for so many packets a second, or none where that is 0. At most 1,000,000 count.
    pub fn of(rate: u32) -> Option<HouseholdLimits>
        ensures { result ≡ household_of rate }
    {
        if rate == 0 {
            return None;
        }
        let rate = u64::from(rate.min(MOST_RATE));
        let packet = each_of(rate);
        let half = half_of(rate);
        Some(HouseholdLimits {
            received: setting_for(
                packet,
                times(packet, half),
                times(packet, HOUSEHOLD_HALVES * half),
            ),
            packet,
            among: times(packet, 2 * half),
        })
    }
}

/// Half of the packets that somebody alone may say at once.
fn half_of(rate: u64) -> u64
    requires { rate ≤ most_rate }
    ensures value { result ≡ half_of rate }
    ensures most { result ≤ 2 ^ 16 }
{
    (rate / HOUSEHOLD_PARTS).max(HOUSEHOLD_LEAST) / 2
}

/// What all networks of frames tell the router together: a receiver with a queue for each.
pub fn told_on_links() -> Setting
    ensures { result ≡ told_on_links }
{
    let each = told_each();
    let all = each * u64::from(LINK_ADVERTISEMENTS_AT_ONCE);
    Setting {
        one: each * LINK_TELLS_AT_ONCE,
        own: each * LINK_TELLS_AT_ONCE,
        reserve: all / 2,
        room: all * 2,
    }
}

/// Nanoseconds for each of it.
pub(crate) fn told_each() -> u64
    ensures value { result ≡ told_each }
    ensures most { result ≤ second }
{
    each_of(u64::from(LINK_ADVERTISEMENTS))
}

/// So many of so many nanoseconds.
pub(crate) fn times(each: u64, count: u64) -> u64
    requires each { each ≤ 8 * second }
    requires count { count ≤ 2 ^ 22 }
    ensures value { result ≡ each * count }
    ensures most { result ≤ 8 * second * 2 ^ 22 }
{
    each * count
}
