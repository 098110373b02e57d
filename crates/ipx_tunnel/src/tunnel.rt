//! The tunnel.
ghost use Rattle.std.specs.Prelude.{◌≡◌, ℕ, ◌≤◌, List, ◌∷◌, [], not, length, map};
ghost use Rattle.std.specs.List.{filter};
ghost use Rattle.ipx_tunnel.specs.Events.{Datagram, Second, Send, History};
ghost use Rattle.ipx_tunnel.specs.Says.{said};
ghost use Rattle.ipx_tunnel.specs.Clients.{is_there, clients};
ghost use Rattle.ipx_tunnel.specs.Own.{own};
ghost use Rattle.ipx_tunnel.specs.Receivers.{receivers, is_heard, carried};
ghost use Rattle.ipx_tunnel.specs.Stands.{State, Stands};
ghost use Rattle.ipx_tunnel.specs.inside.Kept.{admitted, later, places_of, stays};

use crate::answering::put_pings;
use crate::carrying::put_receivers;
use crate::changing::{pass, put_leaving, refresh};
use crate::client::Client;
use crate::dispatch::Dispatch;
use crate::own::Own;
use crate::places::is_open;
use crate::reading::{lasts, said};
use crate::sender::Sender;
use crate::setting::Setting;
use arrayvec::ArrayVec;
use ipx_wire::Node;
use std::marker::Model;

/// A tunnel with at most `C` clients.
///
/// ```
/// let setting = Setting {
///     network: Network(0x10),
///     node: Node([0, 0, 0, 0, 0, 1]),
///     capacity: 64,
///     share: 16,
/// };
/// let mut tunnel = Tunnel::<64>::new(setting);
/// let mut to = ArrayVec::new();
/// let dispatch = tunnel.hear(from, registration, &mut to);
/// for own in dispatch.own.iter() {
///     println!(rt; "{} bytes to {}", own.bytes().len(), own.place)?;
/// }
/// tunnel.hear(from, answer, &mut to);
/// for client in tunnel.clients() {
///     let seconds = client.seconds_left;
///     println!(rt; "{} stays for {seconds} seconds", client.place)?;
/// }
/// // prints 30 bytes to 0A0000010852
/// // prints 30 bytes to 0A0000010852
/// // prints 0A0000010852 stays for 30 seconds
/// ```
#[derive(Debug, Drop)]
pub struct Tunnel<const C: usize> {
    setting: Setting,
    clients: ArrayVec<Client, C>,
}

impl<const C: usize> Model for Tunnel<C> {
    ghost use Rattle.std.specs.Prelude.{◌≤◌};
    ghost use Rattle.ipx_tunnel.specs.Stands.{State};

    ghost Value = { State };

    ghost view = { λ t. record { setting = t.setting; clients = t.clients.items } };

    ghost invariant = { λ t. t.setting.capacity ≤ C };
}

impl<const C: usize> Tunnel<C> {
    /// A tunnel without clients.
    pub fn new(setting: Setting) -> Tunnel<C>
        requires capacity { setting.capacity ≤ C }
        ensures setting { result.setting ≡ setting }
        ensures stands { Stands result [] }
    {
        Tunnel {
            setting,
            clients: ArrayVec::new(),
        }
    }

    /// Its setting.
    pub fn setting(&self) -> Setting
        ensures { result ≡ self.now.setting }
    {
        self.setting
    }

    /// Its clients, in the order in which they came.
    pub fn clients(&self) -> &[Client]
        ensures value { result.now ≡ self.now.clients }
        ensures fits { length result.now ≤ C }
    {
        &self.clients
    }

    /// Takes a datagram: its sender may become a client. Returns what must be sent, and fills `to`, which is emptied first, with the places
    /// of the clients that get the packet.
    pub fn hear<'a>(
        &mut self,
        from: Sender,
        bytes: &'a [u8],
        to: &mut ArrayVec<Node, C>,
    ) -> Dispatch<'a>
        ensures setting { self.new.setting ≡ self.old.setting }
        ensures stands { (h : History) → Stands self.old h → Stands self.new (Datagram from bytes.entry.now ∷ h) }
        ensures said { result.said ≡ said self.old.setting.network from bytes.entry.now }
        ensures own { (h : History) → Stands self.old h → result.own.items ≡ own self.old.setting (Datagram from bytes.entry.now ∷ h) }
        ensures packet { result.packet.now ≡ carried (Datagram from bytes.entry.now) }
        ensures to { (h : History) → Stands self.old h → to.new.items ≡ receivers self.old.setting (Datagram from bytes.entry.now ∷ h) }
        ensures heard { (h : History) → Stands self.old h → result.is_heard ≡ is_heard self.old.setting (Datagram from bytes.entry.now ∷ h) }
    {
        let said = said(self.setting.network, from, bytes);
        self.admit(from, lasts(from.is_trusted, said));
        Dispatch::of(self.setting, &self.clients, from, said, bytes, to)
    }

    /// What a place said counts for so many seconds, or not at all: it stays, or comes in where there is room.
    fn admit(&mut self, from: Sender, lasts: u8)
        ensures setting { self.new.setting ≡ self.old.setting }
        ensures clients { self.new.clients ≡ admitted self.old.setting from lasts self.old.clients }
    {
        if lasts == 0 {
            return;
        }
        let is_new = is_open(self.setting, from.place, &self.clients);
        refresh(&mut self.clients, from, lasts);
        if is_new {
            self.clients.push(Client {
                place: from.place,
                cookie: from.cookies.current,
                seconds_left: lasts,
            });
        }
    }

    /// Lets a second pass: clients that haven't been heard for too long leave. Fills two lists, which are emptied first: the pings that
    /// must be sent, and the places of the clients that left.
    pub fn second(&mut self, pings: &mut ArrayVec<Own, C>, left: &mut ArrayVec<Node, C>)
        ensures setting { self.new.setting ≡ self.old.setting }
        ensures stands { (h : History) → Stands self.old h → Stands self.new (Second ∷ h) }
        ensures pings { (h : History) → Stands self.old h → pings.new.items ≡ own self.old.setting (Second ∷ h) }
        ensures left { (h : History) → Stands self.old h
            → left.new.items ≡ filter (λ place. not (is_there self.old.setting place (Second ∷ h))) (clients self.old.setting h) }
    {
        self.pass(left);
        put_pings(self.setting.network, &self.clients, pings);
    }

    /// Each client has a second less, and those that have none left leave. Fills `left` with their places.
    fn pass(&mut self, left: &mut ArrayVec<Node, C>)
        ensures setting { self.new.setting ≡ self.old.setting }
        ensures clients { self.new.clients ≡ filter stays (map later self.old.clients) }
        ensures left { left.new.items ≡ places_of (filter (λ c. not (stays c)) (map later self.old.clients)) }
    {
        pass(&mut self.clients);
        put_leaving(&self.clients, left);
        self.clients.retain(|client| client.seconds_left > 0);
    }

    /// Fills `places`, which is emptied first, with the places that get a packet which the router sends to a node, or
    /// to all.
    pub fn send(&self, to: Node, places: &mut ArrayVec<Node, C>)
        ensures stands { (bytes : List ℕ) (h : History) → Stands self.now h → Stands self.now (Send to bytes ∷ h) }
        ensures to { (bytes : List ℕ) (h : History) → Stands self.now h → places.new.items ≡ receivers self.now.setting (Send to bytes ∷ h) }
    {
        put_receivers(to, self.setting.node, &self.clients, places);
    }
}
