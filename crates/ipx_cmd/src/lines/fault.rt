//! Why a line of a script is refused.
ghost use Rattle.std.specs.Prelude.{◌≡◌};
ghost use Rattle.ipx_cmd.specs.Fault.{fault_word};

/// What is wrong with a line of a script.
#[derive(Clone, Copy)]
pub(crate) enum LineFault {
    /// The line is too long.
    Long,
    /// A byte is neither a tab nor a printable ASCII character.
    Text,
    /// The first word is no command.
    Command,
    /// The command has another number of words.
    Words,
    /// A port is named after the router was made.
    Late,
    /// There are more ports than a router of the program has.
    Many,
    /// A network isn't eight hexadecimal digits.
    Network,
    /// A node isn't twelve hexadecimal digits.
    Node,
    /// A number isn't one to seven decimal digits, or is out of range.
    Number,
    /// Bytes are neither `-` nor pairs of hexadecimal digits.
    Hex,
    /// A port's longest packet is out of range.
    Longest,
    /// A port's cost is out of range.
    Cost,
    /// The router has no port.
    None,
    /// Two ports have one network.
    Same,
    /// The port doesn't exist.
    Port,
    /// The router doesn't exist.
    Router,
    /// There are more routers than an internet of the program has.
    Routers,
    /// Ports of two routers have one network and one node.
    SameNode,
}

impl LineFault {
    /// The one word that the output names the fault by.
    pub fn word(self) -> &'static str
        ensures { result.now ≡ fault_word self }
    {
        match self {
            LineFault::Long => "long",
            LineFault::Text => "text",
            LineFault::Command => "command",
            LineFault::Words => "words",
            LineFault::Late => "late",
            LineFault::Many => "many",
            LineFault::Network => "network",
            LineFault::Node => "node",
            LineFault::Number => "number",
            LineFault::Hex => "hex",
            LineFault::Longest => "longest",
            LineFault::Cost => "cost",
            LineFault::None => "none",
            LineFault::Same => "same",
            LineFault::Port => "port",
            LineFault::Router => "router",
            LineFault::Routers => "routers",
            LineFault::SameNode => "samenode",
        }
    }
}
