//! The events without bytes: a start and a stop, a second, a port that goes down or comes up.
ghost use Rattle.std.specs.Prelude.{◌≡◌, ◌<◌, true, false, length};
ghost use Rattle.ipx_router.specs.inside.Following.{Follows, sends_between, outcome_at};
ghost use Rattle.ipx_router.specs.History.{Start as Started, Stop as Halted, Second as Passed, PortDown as Down, PortUp as Up};
ghost use Rattle.ipx_router.specs.Needs.{HasRoomFor};
ghost use Rattle.ipx_router.specs.Outbox.{Appends};
ghost use Rattle.ipx_router.specs.Port.{is_up};

use crate::advertising::introducing::{introduce_all, send_port_up};
use crate::advertising::stopping::send_stop;
use crate::outbox::Outbox;
use crate::outcome::Outcome;
use crate::ports::up_ports::{is_up, numbers_below, with_number, without_number};
use crate::route_offer::RouteOffer;
use crate::router::Router;
use crate::service_offer::ServiceOffer;
use crate::why::Why;
use crate::withdrawing::both_tables::{end_port, pass_second};

/// The seconds from one broadcast of all that is advertised to the next.
const PERIOD: u8 = 60;

impl<const P: usize, const R: usize, const S: usize> Router<P, R, S> {
    /// A start: of a router that runs already it does nothing.
    pub(crate) fn start(&mut self, outbox: &mut Outbox) -> Outcome
        requires room { HasRoomFor self.old Started outbox.old }
        ensures follows { Follows R S self.old self.new Started }
        ensures sends { Appends outbox.old outbox.new (sends_between self.old self.new Started) }
        ensures outcome { result ≡ outcome_at self.old Started }
    {
        if self.running {
            return Outcome::AlreadyRunning;
        }
        self.run(outbox);
        Outcome::Started
    }

    fn run(&mut self, outbox: &mut Outbox)
        requires stopped { self.old.running ≡ false }
        requires room { HasRoomFor self.old Started outbox.old }
        ensures follows { Follows R S self.old self.new Started }
        ensures sends { Appends outbox.old outbox.new (sends_between self.old self.new Started) }
    {
        crate::laws::bounds();
        let up = numbers_below(self.ports.len());
        introduce_all(outbox, &self.ports, &up, &self.routes, &self.services);
        self.running = true;
        self.up = up;
        self.seconds = 0;
    }

    /// A stop: a router that is stopped already drops it.
    pub(crate) fn stop(&mut self, outbox: &mut Outbox) -> Outcome
        requires room { HasRoomFor self.old Halted outbox.old }
        ensures follows { Follows R S self.old self.new Halted }
        ensures sends { Appends outbox.old outbox.new (sends_between self.old self.new Halted) }
        ensures outcome { result ≡ outcome_at self.old Halted }
    {
        if !self.running {
            return Outcome::Dropped(Why::NotRunning);
        }
        self.halt(outbox);
        Outcome::Stopped
    }

    // (out of line: no packet shall pay for its room on the stack)
    #[inline(never)]
    fn halt(&mut self, outbox: &mut Outbox)
        requires runs { self.old.running ≡ true }
        requires room { HasRoomFor self.old Halted outbox.old }
        ensures follows { Follows R S self.old self.new Halted }
        ensures sends { Appends outbox.old outbox.new (sends_between self.old self.new Halted) }
    {
        crate::laws::bounds();
        ipx_table::laws::next_facts::<RouteOffer>();
        ipx_table::laws::next_facts::<ServiceOffer>();
        send_stop(outbox, &self.ports, &self.up, &self.routes, &self.services);
        self.running = false;
        self.up.clear();
        self.routes.clear();
        self.services.clear();
    }

    /// A second passes: a stopped router drops it.
    pub(crate) fn second(&mut self, outbox: &mut Outbox) -> Outcome
        requires room { HasRoomFor self.old Passed outbox.old }
        ensures follows { Follows R S self.old self.new Passed }
        ensures sends { Appends outbox.old outbox.new (sends_between self.old self.new Passed) }
        ensures outcome { result ≡ outcome_at self.old Passed }
    {
        if !self.running {
            return Outcome::Dropped(Why::NotRunning);
        }
        self.tick(outbox);
        Outcome::Ticked
    }

    // (out of line: no packet shall pay for its room on the stack)
    #[inline(never)]
    fn tick(&mut self, outbox: &mut Outbox)
        requires runs { self.old.running ≡ true }
        requires room { HasRoomFor self.old Passed outbox.old }
        ensures follows { Follows R S self.old self.new Passed }
        ensures sends { Appends outbox.old outbox.new (sends_between self.old self.new Passed) }
    {
        crate::laws::bounds();
        ipx_table::laws::next_facts::<RouteOffer>();
        ipx_table::laws::next_facts::<ServiceOffer>();
        let seconds = (self.seconds + 1) % PERIOD;
        pass_second(
            outbox,
            &self.ports,
            &self.up,
            &mut self.routes,
            &mut self.services,
            seconds == 0,
        );
        self.seconds = seconds;
    }

    /// A port goes down: where it is down already, nothing is done.
    pub(crate) fn port_down(&mut self, port: u8, outbox: &mut Outbox) -> Outcome
        requires port { port < length self.old.ports }
        requires room { HasRoomFor self.old (Down port) outbox.old }
        ensures follows { Follows R S self.old self.new (Down port) }
        ensures sends { Appends outbox.old outbox.new (sends_between self.old self.new (Down port)) }
        ensures outcome { result ≡ outcome_at self.old (Down port) }
    {
        if !self.running {
            return Outcome::Dropped(Why::NotRunning);
        }
        if !is_up(&self.up, port) {
            return Outcome::AlreadyDown;
        }
        self.take_down(port, outbox);
        Outcome::WentDown
    }

    // (out of line: no packet shall pay for its room on the stack)
    #[inline(never)]
    fn take_down(&mut self, port: u8, outbox: &mut Outbox)
        requires port { port < length self.old.ports }
        requires runs { self.old.running ≡ true }
        requires up { is_up self.old.up port ≡ true }
        requires room { HasRoomFor self.old (Down port) outbox.old }
        ensures follows { Follows R S self.old self.new (Down port) }
        ensures sends { Appends outbox.old outbox.new (sends_between self.old self.new (Down port)) }
    {
        crate::laws::bounds();
        ipx_table::laws::next_facts::<RouteOffer>();
        ipx_table::laws::next_facts::<ServiceOffer>();
        self.up = without_number(&self.up, port);
        end_port(
            outbox,
            &self.ports,
            &self.up,
            &mut self.routes,
            &mut self.services,
            port,
        );
    }

    /// A port comes up: where it is up already, nothing is done.
    pub(crate) fn port_up(&mut self, port: u8, outbox: &mut Outbox) -> Outcome
        requires port { port < length self.old.ports }
        requires room { HasRoomFor self.old (Up port) outbox.old }
        ensures follows { Follows R S self.old self.new (Up port) }
        ensures sends { Appends outbox.old outbox.new (sends_between self.old self.new (Up port)) }
        ensures outcome { result ≡ outcome_at self.old (Up port) }
    {
        if !self.running {
            return Outcome::Dropped(Why::NotRunning);
        }
        if is_up(&self.up, port) {
            return Outcome::AlreadyUp;
        }
        self.bring_up(port, outbox);
        Outcome::CameUp
    }

    fn bring_up(&mut self, port: u8, outbox: &mut Outbox)
        requires port { port < length self.old.ports }
        requires runs { self.old.running ≡ true }
        requires down { is_up self.old.up port ≡ false }
        requires room { HasRoomFor self.old (Up port) outbox.old }
        ensures follows { Follows R S self.old self.new (Up port) }
        ensures sends { Appends outbox.old outbox.new (sends_between self.old self.new (Up port)) }
    {
        crate::laws::bounds();
        self.up = with_number(&self.up, port);
        send_port_up(
            outbox,
            &self.ports,
            &self.up,
            &self.routes,
            &self.services,
            port,
        );
    }
}
