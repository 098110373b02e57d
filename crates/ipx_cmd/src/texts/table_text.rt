//! The lines of the tables of a script's router.
ghost use Rattle.std.specs.Prelude.{◌≡◌, ◌++◌, false, OnOk, ◌+◌, ◌<◌, ◌≤◌, length, OnErr};
ghost use Rattle.std.specs.Vec.{vec_capacity};
ghost use Rattle.std.specs.List.{flat_map};
ghost use Rattle.ipx_router.specs.History.{History};
ghost use Rattle.ipx_router.specs.Stands.{StandsFor};
ghost use Rattle.ipx_cmd.specs.inside.Said.{Says};
ghost use Rattle.ipx_cmd.specs.TableText.{route_held, routes_text, service_held, services_text};

use crate::ended::RunFault;
use crate::making::router::{MOST_ROUTES, MOST_SERVICES, ScriptRouter};
use crate::texts::output::{route_line, service_line};
use crate::texts::said::write_much;
use ipx_wire::Outlet;
use std::alloc::AllocError;
use std::io::Write;

/// Adds the lines of the routes in the table.
pub(crate) fn show_routes<W: Write>(
    router: &ScriptRouter,
    text: &mut Vec<u8>,
    outlet: &mut Outlet<W>,
) -> Result<(), RunFault>
    requires { outlet.old.failed ≡ false }
    ensures fine { OnOk result (outlet.new.failed ≡ false) }
    ensures says { (h : History) → StandsFor MOST_ROUTES MOST_SERVICES router.now h
        → Says outlet.old outlet.new text.old.items text.new.items (routes_text router.now.ports h) result }
{
    write_routes(router, text)?;
    write_much(text, outlet)
}

/// A line for each route in the table, by network.
fn write_routes(router: &ScriptRouter, text: &mut Vec<u8>) -> Result<(), AllocError>
    ensures text { OnOk result (text.new.items ≡ text.old.items ++ flat_map route_held router.now.routes) }
    ensures room { OnErr result (vec_capacity text.old < length text.old.items + length (flat_map route_held router.now.routes)) }
    ensures kept { vec_capacity text.old ≤ vec_capacity text.new }
{
    for place in 0..router.routes() {
        if let Some(held) = router.route_at(place) {
            route_line(text, &held.offer, held.age)?;
        }
    }
    Ok(())
}

/// Adds the lines of the services in the table.
pub(crate) fn show_services<W: Write>(
    router: &ScriptRouter,
    text: &mut Vec<u8>,
    outlet: &mut Outlet<W>,
) -> Result<(), RunFault>
    requires { outlet.old.failed ≡ false }
    ensures fine { OnOk result (outlet.new.failed ≡ false) }
    ensures says { (h : History) → StandsFor MOST_ROUTES MOST_SERVICES router.now h
        → Says outlet.old outlet.new text.old.items text.new.items (services_text router.now.ports h) result }
{
    write_services(router, text)?;
    write_much(text, outlet)
}

/// A line for each service in the table, by type and name.
fn write_services(router: &ScriptRouter, text: &mut Vec<u8>) -> Result<(), AllocError>
    ensures text { OnOk result (text.new.items ≡ text.old.items ++ flat_map service_held router.now.services) }
    ensures room { OnErr result (vec_capacity text.old < length text.old.items + length (flat_map service_held router.now.services)) }
    ensures kept { vec_capacity text.old ≤ vec_capacity text.new }
{
    for place in 0..router.services() {
        if let Some(held) = router.service_at(place) {
            service_line(text, &held.offer, held.age)?;
        }
    }
    Ok(())
}
