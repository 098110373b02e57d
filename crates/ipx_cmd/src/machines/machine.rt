//! The machine of one router: the ports named so far, and then the router that they make.
ghost use Rattle.std.specs.Prelude.{◌≡◌, ◌<◌, ◌++◌, ◌∷◌, [], ℕ, List, false, length, IsSome, IsTrue, IfErr, IfOk, OnOk, Ok, Err, Some, None, option_map};
ghost use Rattle.ipx_router.specs.History.{History};
ghost use Rattle.ipx_router.specs.Port.{Port as PortValues};
ghost use Rattle.ipx_router.specs.Stands.{StandsFor};
ghost use Rattle.ipx_cmd.specs.inside.Acted.{Halted};
ghost use Rattle.ipx_cmd.specs.CommandMeaning.{command_says, values_of};
ghost use Rattle.ipx_cmd.specs.Line.{Stops};
ghost use Rattle.ipx_cmd.specs.Machine.{Standing, command_text, events_of, has_ports, nothing_yet, obeys, past_of};
ghost use Rattle.ipx_cmd.specs.inside.MachineStands.{IsSame, IsStanding, Leads, Makes, reached};
ghost use Rattle.ipx_cmd.specs.Making.{named_port};
ghost use Rattle.ipx_cmd.specs.inside.Said.{Says};
ghost use Rattle.ipx_cmd.specs.Script.{line_meaning};

use crate::ended::RunFault;
use crate::lines::command::{Command, MOST_PORTS, NamedPort, Stage, read_line};
use crate::lines::fault::LineFault;
use crate::lines::halt::Halt;
use crate::making::router::{MOST_ROUTES, MOST_SERVICES, ScriptRouter, port_of, router_of};
use crate::player::Act;
use crate::texts::event_text::{happen, pass};
use crate::texts::table_text::{show_routes, show_services};
use arrayvec::ArrayVec;
use ipx_router::{Event, Outbox, Port};
use ipx_wire::Outlet;
use std::alloc::Global;
use std::io::Write;
use std::marker::Model;

/// The ports of a script, its router once that is made, and what the router sends.
#[derive(Drop)]
pub(crate) struct Machine {
    ports: ArrayVec<Port, MOST_PORTS>,
    router: Option<ScriptRouter>,
    outbox: Outbox,
    /// For the bytes of the packet that comes in.
    buffer: Vec<u8>,
}

impl Model for Machine {
    ghost use Rattle.ipx_cmd.specs.inside.MachineStands.{Machine};

    ghost Value = { Machine };

    ghost view = { λ m. record { ports = m.ports.items; router = m.router; buffer = m.buffer.items } };
}

impl Machine {
    pub fn new(alloc: Global) -> Machine
        ensures { IsStanding result nothing_yet }
    {
        Machine {
            ports: ArrayVec::new(),
            router: None,
            outbox: Outbox::new(alloc),
            buffer: Vec::new(alloc),
        }
    }
}

impl Act for Machine {
    ghost use Rattle.ipx_cmd.specs.Machine.{Standing, acts};
    ghost use Rattle.ipx_cmd.specs.inside.MachineStands.{IsStanding};

    ghost State = { Standing };

    ghost acts = { acts };

    ghost stands = { IsStanding };

    fn act<W: Write>(
        &mut self,
        line: &[u8],
        text: &mut Vec<u8>,
        outlet: &mut Outlet<W>,
    ) -> Result<(), Halt> {
        let Some(command) = self.read(line)? else {
            return Ok(());
        };
        if let Command::Port(named) = command {
            self.name_port(named)?;
            return Ok(());
        }
        self.make_router()?;
        self.obey(command, text, outlet)
    }
}

impl Machine {
    /// Reads a line; the bytes of a packet go into the buffer.
    fn read(&mut self, line: &[u8]) -> Result<Option<Command>, Halt>
        ensures command { IfOk result (λ command. line_meaning (reached self.old) line.now ≡ Ok (option_map (command_says self.new.buffer) command)) }
        ensures refused { IfErr result (Stops (line_meaning (reached self.old) line.now)) }
        ensures same { IsSame self.old self.new }
    {
        let stage = Stage {
            made: self.router.is_some(),
            ports: self.ports.len(),
        };
        read_line(&mut self.buffer, line, stage)
    }

    /// Keeps the next port.
    fn name_port(&mut self, named: NamedPort) -> Result<(), LineFault>
        requires { length self.old.ports < 8 }
        ensures named { OnOk result (named_port (values_of named) ≡ Ok (values_of named)) }
        ensures ports { OnOk result (self.new.ports ≡ self.old.ports ++ values_of named ∷ []) }
        ensures router { self.new.router ≡ self.old.router }
        ensures refused { IfErr result (λ fault. named_port (values_of named) ≡ Err fault) }
    {
        let port = port_of(named)?;
        self.ports.push(port);
        Ok(())
    }

    /// Makes the router of the ports named so far, where it isn't made yet.
    fn make_router(&mut self) -> Result<(), LineFault>
        ensures made { OnOk result (IsSome self.new.router) }
        ensures stands { OnOk result ((standing : Standing) → IsStanding self.old standing → Makes self.new standing) }
        ensures buffer { self.new.buffer ≡ self.old.buffer }
        ensures refused { IfErr result (λ fault. (standing : Standing) → IsStanding self.old standing → past_of standing ≡ Err fault) }
    {
        if self.router.is_some() {
            return Ok(());
        }
        self.make()
    }

    /// Makes the router. A router is large, so each other line would pay for the place of a new one, were this inlined.
    #[inline(never)]
    fn make(&mut self) -> Result<(), LineFault>
        requires { self.old.router ≡ None }
        ensures made { OnOk result (IsSome self.new.router) }
        ensures stands { OnOk result ((standing : Standing) → IsStanding self.old standing → Makes self.new standing) }
        ensures buffer { self.new.buffer ≡ self.old.buffer }
        ensures refused { IfErr result (λ fault. (standing : Standing) → IsStanding self.old standing → past_of standing ≡ Err fault) }
    {
        match router_of(&self.ports) {
            Ok(router) => {
                self.router = Some(router);
                Ok(())
            }
            Err(fault) => Err(fault),
        }
    }

    /// Acts on a command once the router is made.
    fn obey<W: Write>(
        &mut self,
        command: Command,
        text: &mut Vec<u8>,
        outlet: &mut Outlet<W>,
    ) -> Result<(), Halt>
        requires outlet { outlet.old.failed ≡ false }
        requires made { IsSome self.old.router }
        ensures fine { OnOk result (outlet.new.failed ≡ false) }
        ensures acted { OnOk result ((ports : List PortValues) (history : History) → IsStanding self.old (record { ports = ports; past = Some history })
            → Leads self.new (obeys ports history (command_says self.old.buffer command)) outlet.old outlet.new text.old.items text.new.items) }
        ensures halted { IfErr result (λ halt. (ports : List PortValues) (history : History) → IsStanding self.old (record { ports = ports; past = Some history })
            → Halted (obeys ports history (command_says self.old.buffer command)) outlet.old outlet.new text.old.items text.new.items halt) }
    {
        match &mut self.router {
            Some(router) => {
                if !has_ports(router, command) {
                    return Err(Halt::Line(LineFault::Port));
                }
                match run(
                    router,
                    &mut self.outbox,
                    &self.buffer,
                    command,
                    text,
                    outlet,
                ) {
                    Ok(()) => Ok(()),
                    Err(fault) => Err(Halt::Run(fault)),
                }
            }
            None => Ok(()),
        }
    }
}

/// Whether the router has the port that a command names, if it names one.
fn has_ports(router: &ScriptRouter, command: Command) -> bool
    ensures { (buffer : List ℕ) → result ≡ has_ports (length router.now.ports) (command_says buffer command) }
{
    match command {
        Command::Packet { port } | Command::PortDown { port } | Command::PortUp { port } =>
            router.has_port(port),
        _ => true,
    }
}

/// Acts on a command whose port the router has.
fn run<W: Write>(
    router: &mut ScriptRouter,
    outbox: &mut Outbox,
    buffer: &[u8],
    command: Command,
    text: &mut Vec<u8>,
    outlet: &mut Outlet<W>,
) -> Result<(), RunFault>
    requires port { IsTrue (has_ports (length router.old.ports) (command_says buffer.now command)) }
    requires outlet { outlet.old.failed ≡ false }
    ensures ports { router.new.ports ≡ router.old.ports }
    ensures fine { OnOk result (outlet.new.failed ≡ false) }
    ensures stands { OnOk result ((h : History) → StandsFor MOST_ROUTES MOST_SERVICES router.old h → StandsFor MOST_ROUTES MOST_SERVICES router.new (h ++ events_of (command_says buffer.now command))) }
    ensures says { (h : History) → StandsFor MOST_ROUTES MOST_SERVICES router.old h
        → Says outlet.old outlet.new text.old.items text.new.items (command_text router.old.ports h (command_says buffer.now command)) result }
{
    match command {
        Command::Port(_) => Ok(()),
        Command::Start => happen(router, outbox, Event::Start, text, outlet),
        Command::Stop => happen(router, outbox, Event::Stop, text, outlet),
        Command::Second { count } => pass(router, outbox, count, text, outlet),
        Command::Packet { port } => {
            let event = Event::Packet {
                port,
                bytes: buffer,
            };
            happen(router, outbox, event, text, outlet)
        }
        Command::PortDown { port } => happen(
            router,
            outbox,
            Event::PortDown { port },
            text,
            outlet,
        ),
        Command::PortUp { port } => happen(router, outbox, Event::PortUp { port }, text, outlet),
        Command::Routes => show_routes(router, text, outlet),
        Command::Services => show_services(router, text, outlet),
    }
}
