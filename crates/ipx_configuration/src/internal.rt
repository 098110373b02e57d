//! What a line says of the router's own network.
ghost use Rattle.std.specs.Prelude.{◌≡◌};
ghost use Rattle.ipx_configuration.specs.Internals.{internal_clash, internal_said};

use crate::fault::Fault;
use crate::said::{InternalSaid, USUAL_NODE};
use ipx_settings::InternalBegun;

/// What was expected where the router's own network has the number.
pub(crate) fn internal_clash(number: Option<u32>, internal: InternalSaid) -> Option<Fault>
    ensures { result ≡ internal_clash number internal }
{
    match number {
        Some(number) if internal.line > 0 && internal.number == number => {
            Some(Fault::OtherNetwork(internal.line))
        }
        _ => None,
    }
}

/// The router's own network, as its line says it.
pub(crate) fn internal_said(line: usize, begun: InternalBegun) -> InternalSaid
    ensures { result ≡ internal_said line begun }
{
    InternalSaid {
        line,
        number: begun.number().unwrap_or(0),
        node: begun.node().unwrap_or(USUAL_NODE),
    }
}
