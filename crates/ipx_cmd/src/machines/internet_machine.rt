//! The machine of an internet: the routers named so far, and then the internet that they make.
ghost use Rattle.std.specs.Prelude.{◌≡◌, ◌<◌, ◌++◌, ◌∷◌, [], ℕ, List, false, length, IsSome, IfErr, IfOk, OnOk, Ok, Some, None, option_map};
ghost use Rattle.ipx_internet.specs.Internet.{Internet};
ghost use Rattle.ipx_internet.specs.Moment.{StandsFor, net_at};
ghost use Rattle.ipx_internet.specs.Queue.{Queued};
ghost use Rattle.ipx_cmd.specs.inside.Acted.{Halted};
ghost use Rattle.ipx_cmd.specs.CommandMeaning.{values_of};
ghost use Rattle.ipx_cmd.specs.InternetMachine.{Standing, latest, nothing_yet, obeys, order_fault, order_text, ordered, past_of, port_fault, router_fault, with_port};
ghost use Rattle.ipx_cmd.specs.inside.InternetStands.{IsSame, IsStanding, Leads, Makes, reached};
ghost use Rattle.ipx_cmd.specs.Line.{Stops};
ghost use Rattle.ipx_cmd.specs.Making.{named_port};
ghost use Rattle.ipx_cmd.specs.OrderLine.{order_meaning};
ghost use Rattle.ipx_cmd.specs.OrderMeaning.{order_says};
ghost use Rattle.ipx_cmd.specs.inside.Said.{Says};
ghost use Rattle.ipx_cmd.specs.declared.ended.RunFault.TheVariants.{Memory};
ghost use Rattle.ipx_cmd.specs.declared.lines.halt.Halt.TheVariants.{Run};

use crate::ended::RunFault;
use crate::lines::command::NamedPort;
use crate::lines::fault::LineFault;
use crate::lines::halt::Halt;
use crate::lines::order::{Order, OrderStage, read_order_line};
use crate::making::internet::{ScriptInternet, internet_of};
use crate::making::router::{MOST_ROUTES, MOST_SERVICES, port_of};
use crate::player::Act;
use crate::texts::internet_text::{happen, pass, settle, show_routes_of, show_services_of, trace};
use ipx_internet::TraceRoom;
use ipx_router::{Event, Port};
use ipx_wire::Outlet;
use std::alloc::Global;
use std::io::Write;
use std::marker::Model;

/// The ports of a script's routers, and its internet once that is made.
#[derive(Drop)]
pub(crate) struct InternetMachine {
    alloc: Global,
    /// The ports of each router, as they were named.
    named: Vec<Vec<Port>>,
    internet: Option<ScriptInternet>,
    /// For the bytes of the packet that comes in.
    buffer: Vec<u8>,
    /// The memory of the last trace, for the next one.
    room: TraceRoom,
}

impl Model for InternetMachine {
    ghost use Rattle.std.specs.Prelude.{map};
    ghost use Rattle.ipx_cmd.specs.inside.InternetStands.{InternetMachine};

    ghost Value = { InternetMachine };

    ghost view = { λ m. record { net = map (λ ports. ports.items) m.named.items; internet = m.internet; buffer = m.buffer.items } };
}

impl InternetMachine {
    pub fn new(alloc: Global) -> InternetMachine
        ensures { IsStanding result nothing_yet }
    {
        InternetMachine {
            alloc,
            named: Vec::new(alloc),
            internet: None,
            buffer: Vec::new(alloc),
            room: TraceRoom::new(alloc),
        }
    }
}

impl Act for InternetMachine {
    ghost use Rattle.ipx_cmd.specs.InternetMachine.{Standing, acts};
    ghost use Rattle.ipx_cmd.specs.inside.InternetStands.{IsStanding};

    ghost State = { Standing };

    ghost acts = { acts };

    ghost stands = { IsStanding };

    fn act<W: Write>(
        &mut self,
        line: &[u8],
        text: &mut Vec<u8>,
        outlet: &mut Outlet<W>,
    ) -> Result<(), Halt> {
        let Some(order) = self.read(line)? else {
            return Ok(());
        };
        if let Order::Router = order {
            return self.name_router();
        }
        if let Order::Port(named) = order {
            return self.name_port(named);
        }
        self.make_internet()?;
        self.obey(order, text, outlet)
    }
}

impl InternetMachine {
    /// Reads a line; the bytes of a packet go into the buffer.
    fn read(&mut self, line: &[u8]) -> Result<Option<Order>, Halt>
        ensures order { IfOk result (λ order. order_meaning (reached self.old) line.now ≡ Ok (option_map (order_says self.new.buffer) order)) }
        ensures refused { IfErr result (Stops (order_meaning (reached self.old) line.now)) }
        ensures same { IsSame self.old self.new }
    {
        let stage = OrderStage {
            made: self.internet.is_some(),
            routers: self.named.len(),
            ports: self.latest(),
        };
        read_order_line(&mut self.buffer, line, stage)
    }

    /// How many ports the latest router has.
    fn latest(&self) -> usize
        ensures { result ≡ length (latest self.now.net) }
    {
        match self.named.last() {
            Some(ports) => ports.len(),
            None => 0,
        }
    }

    /// Begins the next router.
    fn name_router(&mut self) -> Result<(), Halt>
        ensures net { OnOk result (self.new.net ≡ self.old.net ++ [] ∷ []) }
        ensures internet { self.new.internet ≡ self.old.internet }
        ensures refused { IfErr result (λ halt. halt ≡ Run Memory) }
    {
        self.named.reserve(1)?;
        self.named.push_reserved(Vec::new(self.alloc));
        Ok(())
    }

    /// Keeps the next port of the latest router.
    fn name_port(&mut self, named: NamedPort) -> Result<(), Halt>
        requires { 0 < length self.old.net }
        ensures named { OnOk result (named_port (values_of named) ≡ Ok (values_of named)) }
        ensures net { OnOk result (self.new.net ≡ with_port self.old.net (values_of named)) }
        ensures internet { self.new.internet ≡ self.old.internet }
        ensures refused { IfErr result (Stops (named_port (values_of named))) }
    {
        let port = port_of(named)?;
        if let Some(mut latest) = self.named.pop() {
            latest.reserve(1)?;
            latest.push_reserved(port);
            self.named.push_reserved(latest);
        }
        Ok(())
    }

    /// Makes the internet of the routers named so far, where it isn't made yet.
    fn make_internet(&mut self) -> Result<(), Halt>
        ensures made { OnOk result (IsSome self.new.internet) }
        ensures stands { OnOk result ((standing : Standing) → IsStanding self.old standing → Makes self.new standing) }
        ensures buffer { self.new.buffer ≡ self.old.buffer }
        ensures refused { IfErr result (λ halt. (standing : Standing) → IsStanding self.old standing → Stops (past_of standing) halt) }
    {
        if self.internet.is_some() {
            return Ok(());
        }
        self.make()
    }

    /// Makes the internet, out of the way of the other lines.
    #[inline(never)]
    fn make(&mut self) -> Result<(), Halt>
        requires { self.old.internet ≡ None }
        ensures made { OnOk result (IsSome self.new.internet) }
        ensures stands { OnOk result ((standing : Standing) → IsStanding self.old standing → Makes self.new standing) }
        ensures buffer { self.new.buffer ≡ self.old.buffer }
        ensures refused { IfErr result (λ halt. (standing : Standing) → IsStanding self.old standing → Stops (past_of standing) halt) }
    {
        match internet_of(self.alloc, &self.named) {
            Ok(internet) => {
                self.internet = Some(internet);
                Ok(())
            }
            Err(halt) => Err(halt),
        }
    }

    /// Acts on an order once the internet is made.
    fn obey<W: Write>(
        &mut self,
        order: Order,
        text: &mut Vec<u8>,
        outlet: &mut Outlet<W>,
    ) -> Result<(), Halt>
        requires outlet { outlet.old.failed ≡ false }
        requires made { IsSome self.old.internet }
        ensures fine { OnOk result (outlet.new.failed ≡ false) }
        ensures acted { OnOk result ((net : Internet) (past : Queued) → IsStanding self.old (record { net = net; past = Some past })
            → Leads self.new (obeys net past (order_says self.old.buffer order)) outlet.old outlet.new text.old.items text.new.items) }
        ensures halted { IfErr result (λ halt. (net : Internet) (past : Queued) → IsStanding self.old (record { net = net; past = Some past })
            → Halted (obeys net past (order_says self.old.buffer order)) outlet.old outlet.new text.old.items text.new.items halt) }
    {
        match &mut self.internet {
            Some(internet) => {
                if let Err(fault) = check(internet, order) {
                    return Err(Halt::Line(fault));
                }
                match run(internet, &mut self.room, &self.buffer, order, text, outlet) {
                    Ok(()) => Ok(()),
                    Err(fault) => Err(Halt::Run(fault)),
                }
            }
            None => Ok(()),
        }
    }
}

/// Whether the router and the port that an order names are there, if it names them.
fn check(internet: &ScriptInternet, order: Order) -> Result<(), LineFault>
    ensures fine { OnOk result ((buffer : List ℕ) → order_fault (net_at internet.now) (order_says buffer order) ≡ None) }
    ensures fault { IfErr result (λ fault. (buffer : List ℕ) → order_fault (net_at internet.now) (order_says buffer order) ≡ Some fault) }
{
    match order {
        Order::Start { router }
        | Order::Stop { router }
        | Order::Routes { router }
        | Order::Services { router } => check_router(internet, router),
        Order::Packet { router, port }
        | Order::PortDown { router, port }
        | Order::PortUp { router, port }
        | Order::Trace { router, port, .. } => check_port(internet, router, port),
        _ => Ok(()),
    }
}

/// Whether there is such a router.
fn check_router(internet: &ScriptInternet, router: u8) -> Result<(), LineFault>
    ensures fine { OnOk result (router_fault (net_at internet.now) router ≡ None) }
    ensures fault { IfErr result (λ fault. router_fault (net_at internet.now) router ≡ Some fault) }
{
    if usize::from(router) < internet.len() {
        Ok(())
    } else {
        Err(LineFault::Router)
    }
}

/// Whether there is such a router, and it has such a port.
fn check_port(internet: &ScriptInternet, router: u8, port: u8) -> Result<(), LineFault>
    ensures fine { OnOk result (port_fault (net_at internet.now) router port ≡ None) }
    ensures fault { IfErr result (λ fault. port_fault (net_at internet.now) router port ≡ Some fault) }
{
    match internet.router(usize::from(router)) {
        Some(router) if router.has_port(port) => Ok(()),
        Some(_) => Err(LineFault::Port),
        None => Err(LineFault::Router),
    }
}

/// Acts on an order whose router and port are there.
fn run<W: Write>(
    internet: &mut ScriptInternet,
    room: &mut TraceRoom,
    buffer: &[u8],
    order: Order,
    text: &mut Vec<u8>,
    outlet: &mut Outlet<W>,
) -> Result<(), RunFault>
    requires there { order_fault (net_at internet.old) (order_says buffer.now order) ≡ None }
    requires outlet { outlet.old.failed ≡ false }
    ensures net { net_at internet.new ≡ net_at internet.old }
    ensures fine { OnOk result (outlet.new.failed ≡ false) }
    ensures stands { OnOk result ((q : Queued) → StandsFor MOST_ROUTES MOST_SERVICES internet.old q → StandsFor MOST_ROUTES MOST_SERVICES internet.new (ordered (net_at internet.old) q (order_says buffer.now order))) }
    ensures says { (q : Queued) → StandsFor MOST_ROUTES MOST_SERVICES internet.old q → Says outlet.old outlet.new text.old.items text.new.items (order_text (net_at internet.old) q (order_says buffer.now order)) result }
{
    match order {
        Order::Router | Order::Port(_) => Ok(()),
        Order::Start { router } => happen(internet, router, Event::Start, text, outlet),
        Order::Stop { router } => happen(internet, router, Event::Stop, text, outlet),
        Order::Second { count } => pass(internet, count),
        Order::Packet { router, port } => {
            let event = Event::Packet {
                port,
                bytes: buffer,
            };
            happen(internet, router, event, text, outlet)
        }
        Order::PortDown { router, port } => {
            happen(internet, router, Event::PortDown { port }, text, outlet)
        }
        Order::PortUp { router, port } => happen(
            internet,
            router,
            Event::PortUp { port },
            text,
            outlet,
        ),
        Order::Settle { limit } => settle(internet, limit, text, outlet),
        Order::Trace {
            router,
            port,
            limit,
        } => trace(internet, room, router, port, limit, buffer, text, outlet),
        Order::Routes { router } => show_routes_of(internet, router, text, outlet),
        Order::Services { router } => show_services_of(internet, router, text, outlet),
    }
}
