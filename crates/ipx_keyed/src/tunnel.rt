//! The tunnel.
ghost use Rattle.std.specs.Prelude.{◌≡◌, ℕ, ◌≤◌, List, ◌∷◌, [], ◌++◌, length};
ghost use Rattle.ipx_keyed.specs.Events.{Datagram, Second, Send, History};
ghost use Rattle.ipx_keyed.specs.Says.{said};
ghost use Rattle.ipx_keyed.specs.Tables.{Tables, admitted, remembered, second_later, clients, waiting};
ghost use Rattle.ipx_keyed.specs.Own.{own, pings_of, due_of};
ghost use Rattle.ipx_keyed.specs.Receivers.{receivers, is_heard, carried};
ghost use Rattle.ipx_keyed.specs.Stands.{State, Stands, leaving};

use crate::answering::{put_due, put_pings};
use crate::carrying::put_receivers;
use crate::changing::{fresh, lasts, pass, proves, put_leaving, refresh};
use crate::client::Client;
use crate::dispatch::Dispatch;
use crate::places::{is_kept, is_open, is_welcome};
use crate::reading::{node_in, said};
use crate::said::Said;
use crate::sender::Sender;
use crate::setting::Setting;
use arrayvec::ArrayVec;
use ipx_tunnel::Own;
use ipx_wire::Node;
use std::marker::Model;

/// For how many seconds somebody who registered is remembered.
const WAITS: u8 = 9;

/// A tunnel with at most `C` clients, which remembers at most `W` places that registered.
///
/// ```
/// let setting = Setting {
///     network: Network(0x10),
///     node: Node([0, 0, 0, 0, 0, 1]),
///     capacity: 64,
///     share: 16,
///     remembered: 128,
///     remembered_share: 16,
/// };
/// let mut tunnel = Tunnel::<64, 128>::new(setting);
/// let mut to = ArrayVec::new();
/// let dispatch = tunnel.hear(from, registration, &mut to);
/// for own in dispatch.own.iter() {
///     println!(rt; "{} is told its node {}", own.place, own.destination.node)?;
/// }
/// let dispatch = tunnel.hear(from, word, &mut to);
/// println!(rt; "the router hears its first word: {}", dispatch.is_heard)?;
/// for client in tunnel.clients() {
///     let seconds = client.seconds_left;
///     println!(rt; "{} stays for {seconds} seconds", client.node)?;
/// }
/// // prints 0A0000010852 is told its node 02A1B2C3D4E5
/// // prints the router hears its first word: true
/// // prints 02A1B2C3D4E5 stays for 30 seconds
/// ```
#[derive(Debug, Drop)]
pub struct Tunnel<const C: usize, const W: usize> {
    setting: Setting,
    clients: ArrayVec<Client, C>,
    waiting: ArrayVec<Client, W>,
}

impl<const C: usize, const W: usize> Model for Tunnel<C, W> {
    ghost use Rattle.std.specs.Prelude.{◌≤◌};
    ghost use Rattle.ipx_keyed.specs.Stands.{State};

    ghost Value = { State };

    ghost view = { λ t. record { setting = t.setting; tables = record { clients = t.clients.items; waiting = t.waiting.items } } };

    ghost invariant = { λ t. (t.setting.capacity ≤ C) × (t.setting.remembered ≤ W) };
}

impl<const C: usize, const W: usize> Tunnel<C, W> {
    /// A tunnel without clients.
    pub fn new(setting: Setting) -> Tunnel<C, W>
        requires capacity { setting.capacity ≤ C }
        requires remembered { setting.remembered ≤ W }
        ensures setting { result.setting ≡ setting }
        ensures stands { Stands result [] }
    {
        Tunnel {
            setting,
            clients: ArrayVec::new(),
            waiting: ArrayVec::new(),
        }
    }

    /// Its setting.
    pub fn setting(&self) -> Setting
        ensures { result ≡ self.now.setting }
    {
        self.setting
    }

    /// Its clients, in the order in which they came.
    pub fn clients(&self) -> &[Client]
        ensures value { result.now ≡ self.now.tables.clients }
        ensures fits { length result.now ≤ C }
    {
        &self.clients
    }

    /// The places that it remembers because they registered, in the order in which they did, each with the node that it was given.
    pub fn waiting(&self) -> &[Client]
        ensures value { result.now ≡ self.now.tables.waiting }
        ensures fits { length result.now ≤ W }
    {
        &self.waiting
    }

    /// Takes a datagram: its sender may become a client, or is remembered. Returns what must be sent, and fills `to`, which is emptied
    /// first, with the places of the clients that get the packet.
    pub fn hear<'a>(
        &mut self,
        from: Sender,
        bytes: &'a [u8],
        to: &mut ArrayVec<Node, C>,
    ) -> Dispatch<'a>
        ensures setting { self.new.setting ≡ self.old.setting }
        ensures stands { (h : History) → Stands self.old h → Stands self.new (Datagram from bytes.entry.now ∷ h) }
        ensures said { result.said ≡ said self.old.setting.network from bytes.entry.now }
        ensures own { (h : History) → Stands self.old h → result.own.items ≡ own self.old.setting (Datagram from bytes.entry.now ∷ h) }
        ensures packet { result.packet.now ≡ carried (Datagram from bytes.entry.now) }
        ensures to { (h : History) → Stands self.old h → to.new.items ≡ receivers self.old.setting (Datagram from bytes.entry.now ∷ h) }
        ensures heard { (h : History) → Stands self.old h → result.is_heard ≡ is_heard self.old.setting (Datagram from bytes.entry.now ∷ h) }
    {
        let said = said(self.setting.network, from, bytes);
        self.admit(from, said);
        self.remember(from, said);
        Dispatch::of(
            self.setting,
            &self.clients,
            &self.waiting,
            from,
            said,
            bytes,
            to,
        )
    }

    /// Whoever said something stays, or comes in where there is room, if it counts.
    fn admit(&mut self, from: Sender, said: Said)
        ensures setting { self.new.setting ≡ self.old.setting }
        ensures clients { self.new.tables.clients ≡ admitted self.old.setting from said self.old.tables }
        ensures waiting { self.new.tables.waiting ≡ self.old.tables.waiting }
    {
        let node = node_in(from, said);
        let is_new = proves(from, &self.waiting, said)
            && is_open(self.setting, from.place, node, &self.clients);
        refresh(&mut self.clients, from, said);
        if is_new {
            self.clients.push(fresh(from, node, lasts(from)));
        }
    }

    /// Whoever registers and is welcome is remembered, where there is room.
    fn remember(&mut self, from: Sender, said: Said)
        ensures setting { self.new.setting ≡ self.old.setting }
        ensures clients { self.new.tables.clients ≡ self.old.tables.clients }
        ensures waiting { self.new.tables.waiting ≡ remembered self.old.setting from said self.old.tables.clients self.old.tables.waiting }
    {
        if let Said::Registers = said {
            if is_welcome(self.setting, from, &self.clients)
                && is_kept(self.setting, from.place, &self.waiting)
            {
                self.waiting.push(fresh(from, from.node, WAITS));
            }
        }
    }

    /// Lets a second pass: clients that haven't been heard for too long leave. Fills three lists, which are emptied first: the pings of
    /// clients and the answers and pings of those who are remembered, all of which must be sent, and the clients that left.
    pub fn second(
        &mut self,
        pings: &mut ArrayVec<Own, C>,
        due: &mut ArrayVec<Own, W>,
        left: &mut ArrayVec<Client, C>,
    )
        ensures setting { self.new.setting ≡ self.old.setting }
        ensures stands { (h : History) → Stands self.old h → Stands self.new (Second ∷ h) }
        ensures own { (h : History) → Stands self.old h → pings.new.items ++ due.new.items ≡ own self.old.setting (Second ∷ h) }
        ensures pings { (h : History) → Stands self.old h
            → pings.new.items ≡ pings_of self.old.setting (clients self.old.setting (Second ∷ h)) (waiting self.old.setting (Second ∷ h)) }
        ensures due { (h : History) → Stands self.old h → due.new.items ≡ due_of self.old.setting (waiting self.old.setting (Second ∷ h)) }
        ensures left { (h : History) → Stands self.old h → left.new.items ≡ leaving (clients self.old.setting h) }
    {
        self.pass(left);
        self.age();
        put_pings(self.setting, &self.clients, &self.waiting, pings);
        put_due(self.setting, &self.waiting, due);
    }

    /// Each client has a second less, and those that have none left leave. Fills `left` with them.
    fn pass(&mut self, left: &mut ArrayVec<Client, C>)
        ensures setting { self.new.setting ≡ self.old.setting }
        ensures clients { self.new.tables.clients ≡ (second_later self.old.tables).clients }
        ensures waiting { self.new.tables.waiting ≡ self.old.tables.waiting }
        ensures left { left.new.items ≡ leaving self.old.tables.clients }
    {
        pass(&mut self.clients);
        put_leaving(&self.clients, left);
        self.clients.retain(|client| client.seconds_left > 0);
    }

    /// Those who are remembered have a second less, and are forgotten once they had none left.
    fn age(&mut self)
        ensures setting { self.new.setting ≡ self.old.setting }
        ensures clients { self.new.tables.clients ≡ self.old.tables.clients }
        ensures waiting { self.new.tables.waiting ≡ (second_later self.old.tables).waiting }
    {
        self.waiting.retain(|client| client.seconds_left > 0);
        pass(&mut self.waiting);
    }

    /// Fills `places`, which is emptied first, with the places that get a packet which the router sends to a node, or
    /// to all.
    pub fn send(&self, to: Node, places: &mut ArrayVec<Node, C>)
        ensures stands { (bytes : List ℕ) (h : History) → Stands self.now h → Stands self.now (Send to bytes ∷ h) }
        ensures to { (bytes : List ℕ) (h : History) → Stands self.now h → places.new.items ≡ receivers self.now.setting (Send to bytes ∷ h) }
    {
        put_receivers(to, self.setting.node, &self.clients, places);
    }
}
