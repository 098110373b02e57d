//! What passes between a cable and the router, as C asks for it. The packet is changed where it lies, and nothing needs a handle.
ghost use Rattle.std.specs.Prelude.{◌≡◌, IfOk, IfErr};
ghost use Rattle.ipx_c.specs.Edges.{Enters, IsHeld, Numbers, IsLeft, IsUnfiltered, Filters, Claims, IsNeedless};

use crate::code::{DONE, fault_code};
use crate::fault::Fault;
use crate::making::port_of;
use crate::rule_values::{MOST_RULES, RuleValues, rules_of, way_of};
use crate::values::PortValues;
use ipx_edge::{claim, enter, filter, is_held, is_needless, number};

/// What C hears of a question.
const NO: i32 = 0;

const YES: i32 = 1;

/// Numbers what comes from a cable, unless it is held. Returns whether it comes in.
#[unsafe(no_mangle)]
pub extern "C" fn ipxr_edge_enter(port: &PortValues, bytes: &mut [u8]) -> i32
    ensures { Enters port.now bytes.old bytes.new result }
{
    match port_of(port) {
        Ok(port) => { if enter(&port, bytes) { YES } else { NO } }
        Err(fault) => fault_code(Fault::Port(fault)),
    }
}

/// Whether what comes from a cable is held.
#[unsafe(no_mangle)]
pub extern "C" fn ipxr_edge_is_held(port: &PortValues, bytes: &[u8]) -> i32
    ensures { IsHeld port.now bytes.now result }
{
    match port_of(port) {
        Ok(port) => { if is_held(&port, bytes) { YES } else { NO } }
        Err(fault) => fault_code(Fault::Port(fault)),
    }
}

/// Numbers what comes from a cable.
#[unsafe(no_mangle)]
pub extern "C" fn ipxr_edge_number(port: &PortValues, bytes: &mut [u8]) -> i32
    ensures { Numbers port.now bytes.old bytes.new result }
{
    match port_of(port) {
        Ok(port) => {
            number(&port, bytes);
            DONE
        }
        Err(fault) => fault_code(Fault::Port(fault)),
    }
}

/// Filters what comes from a cable, or goes out to it. Returns whether anything of it passes: the first bytes, as many as `passes` then says.
#[unsafe(no_mangle)]
pub extern "C" fn ipxr_edge_filter(
    way: u8,
    port: &PortValues,
    rules: &[RuleValues],
    bytes: &mut [u8],
    passes: &mut usize,
) -> i32
    ensures { Filters way port.now rules.now bytes.old bytes.new passes.old passes.new result }
{
    match left(way, port, rules, bytes) {
        Ok(Some(count)) => {
            *passes = count;
            YES
        }
        Ok(None) => {
            *passes = 0;
            NO
        }
        Err(fault) => fault_code(fault),
    }
}

/// How many bytes pass, if any do.
fn left(
    way: u8,
    port: &PortValues,
    rules: &[RuleValues],
    bytes: &mut [u8],
) -> Result<Option<usize>, Fault>
    ensures passes { IfOk result (IsLeft way port.now rules.now bytes.old bytes.new) }
    ensures fault { IfErr result (λ fault. IsUnfiltered way port.now rules.now fault × (bytes.new ≡ bytes.old)) }
{
    let way = way_of(way).ok_or(Fault::Way)?;
    let port = port_of(port).map_err(Fault::Port)?;
    if rules.len() > MOST_RULES {
        return Err(Fault::ManyRules);
    }
    let rules = rules_of(rules).ok_or(Fault::Rule)?;
    Ok(filter(way, &port, &rules, bytes))
}

/// Whether a neighbour claims another number for the cable: `network` says which, or 0.
#[unsafe(no_mangle)]
pub extern "C" fn ipxr_edge_claim(port: &PortValues, bytes: &[u8], network: &mut u32) -> i32
    ensures { Claims port.now bytes.now network.old network.new result }
{
    match port_of(port) {
        Ok(port) => match claim(&port, bytes) {
            Some(claimed) => {
                *network = claimed.0;
                YES
            }
            None => {
                *network = 0;
                NO
            }
        },
        Err(fault) => fault_code(Fault::Port(fault)),
    }
}

/// Whether what goes out answers a query for the nearest service with none that is nearer than this many hops.
#[unsafe(no_mangle)]
pub extern "C" fn ipxr_edge_is_needless(port: &PortValues, hops: u16, bytes: &[u8]) -> i32
    ensures { IsNeedless port.now hops bytes.now result }
{
    match port_of(port) {
        Ok(port) => {
            if is_needless(&port, hops, bytes) {
                YES
            } else {
                NO
            }
        }
        Err(fault) => fault_code(Fault::Port(fault)),
    }
}
