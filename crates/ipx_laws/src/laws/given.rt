//! What the proofs of these laws take from those of packets, of routers and of edges.
ghost use Rattle.ipx_internet.proofs.packets.ForwardsDiffer.{Routing};
ghost use Rattle.ipx_internet.proofs.packets.SentOnOrReply.{Layouts};
ghost use Rattle.ipx_laws.specs.inside.EdgeLaws.{Edge};

/// Packets are read as they were written, and each that a router sends has the layout of its kind.
pub(crate) fn layouts()
    ensures { Layouts }
{
    ipx_wire::laws::readings();
    ipx_wire::laws::service_readings();
    ipx_wire::laws::reread();
    ipx_router::laws::packets();
}

/// What routers send on, and by which routes.
pub(crate) fn routing()
    ensures { Routing }
{
    ipx_router::laws::relays();
    ipx_router::laws::tables();
    ipx_router::laws::packets();
}

/// What edges let in, and what they hold.
pub(crate) fn edge()
    ensures { Edge }
{
    ipx_edge::laws::names_its_network();
    ipx_edge::laws::holds_what_routers_carried();
    ipx_edge::laws::lets_all_else_in();
    ipx_edge::laws::hears_neighbours_alone();
}
