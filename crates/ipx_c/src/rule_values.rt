//! A rule of a filter, as C gives it: plain values, whose numbers the header names.
ghost use Rattle.std.specs.Prelude.{◌≡◌, ◌≤◌, length, Some};
ghost use Rattle.std.specs.Option.{option_map};
ghost use Rattle.ipx_c.specs.RuleValues.{most_rules, permits_of, way_of, kind_of, names_of, routes_of, services_of, what_of, rule_of, rules_of, way_number, names_number, names_field, nothing_named, values_of};

use arrayvec::ArrayVec;
use ipx_edge::{Names, Rule, Way, What};
use ipx_wire::laws::name_readings;
use ipx_wire::{Network, ServiceName, Socket};

/// How many rules a filter has at most.
pub(crate) const MOST_RULES: usize = 64;

/// A rule of a filter, as C gives it. What it names says which of its values count.
#[repr(C)]
#[derive(Clone, Copy)]
pub struct RuleValues {
    /// Whether it permits what it names: 1, or 0.
    pub permits: u8,
    /// What it names.
    pub what: u8,
    /// Of routes and services: which of them, those that come in or those that go out.
    pub way: u8,
    /// Of services: which names.
    pub names: u8,
    /// The type, of packets or of services.
    pub kind: u16,
    /// The socket of packets.
    pub socket: u16,
    /// Of routes: the first network of a range.
    pub from: u32,
    /// The last one.
    pub to: u32,
    /// Of services: their name, or what it begins with, then a zero, and anything behind.
    pub name: [u8; 48],
}

// ---- From values

/// The rules that have these values, where each is one.
pub(crate) fn rules_of(values: &[RuleValues]) -> Option<ArrayVec<Rule, MOST_RULES>>
    requires { length values.now ≤ most_rules }
    ensures { option_map (λ rules. rules.items) result ≡ rules_of values.now }
{
    let mut rules = ArrayVec::new();
    for value in values {
        rules.push(rule_of(value)?);
    }
    Some(rules)
}

/// The rule that has these values, if there is one.
fn rule_of(values: &RuleValues) -> Option<Rule>
    ensures { result ≡ rule_of values.now }
{
    let permits = permits_of(values.permits)?;
    let what = what_of(values)?;
    Some(Rule { permits, what })
}

fn permits_of(number: u8) -> Option<bool>
    ensures { result ≡ permits_of number }
{
    match number {
        0 => Some(false),
        1 => Some(true),
        _ => None,
    }
}

fn what_of(values: &RuleValues) -> Option<What>
    ensures { result ≡ what_of values.now }
{
    match values.what {
        1 => kind_of(values.kind),
        2 => Some(What::OnSocket(Socket(values.socket))),
        3 => Some(What::Nearest),
        4 => routes_of(values),
        5 => services_of(values),
        _ => None,
    }
}

/// Packets of a type, which is one byte of them.
fn kind_of(kind: u16) -> Option<What>
    ensures { result ≡ kind_of kind }
{
    if kind > 255 {
        return None;
    }
    Some(What::Kind(kind as u8))
}

fn routes_of(values: &RuleValues) -> Option<What>
    ensures { result ≡ routes_of values.now }
{
    let way = way_of(values.way)?;
    Some(What::Routes {
        way,
        from: Network(values.from),
        to: Network(values.to),
    })
}

fn services_of(values: &RuleValues) -> Option<What>
    ensures { result ≡ services_of values.now }
{
    let way = way_of(values.way)?;
    let names = names_of(values.names, &values.name)?;
    Some(What::Services {
        way,
        kind: values.kind,
        names,
    })
}

/// The way of a number.
pub(crate) fn way_of(number: u8) -> Option<Way>
    ensures { result ≡ way_of number }
{
    match number {
        1 => Some(Way::In),
        2 => Some(Way::Out),
        _ => None,
    }
}

fn names_of(number: u8, field: &[u8; 48]) -> Option<Names>
    ensures { result ≡ names_of number field.now }
{
    match number {
        0 => Some(Names::All),
        1 => Some(Names::Is(ServiceName::read(field)?)),
        2 => Some(Names::Begins(ServiceName::read(field)?)),
        _ => None,
    }
}

// ---- To values

/// The values of a rule; those that it doesn't need are 0.
pub(crate) fn values_of(rule: &Rule) -> RuleValues
    ensures values { result ≡ values_of rule.now }
    ensures again { rule_of result ≡ Some rule.now }
{
    let mut values = nothing_named(rule.permits);
    match &rule.what {
        What::Kind(kind) => {
            values.what = 1;
            values.kind = u16::from(*kind);
        }
        What::OnSocket(socket) => {
            values.what = 2;
            values.socket = socket.0;
        }
        What::Nearest => {
            values.what = 3;
        }
        What::Routes { way, from, to } => {
            values.what = 4;
            values.way = way_number(*way);
            values.from = from.0;
            values.to = to.0;
        }
        What::Services { way, kind, names } => {
            values.what = 5;
            values.way = way_number(*way);
            values.kind = *kind;
            values.names = names_number(names);
            values.name = names_field(names);
        }
    }
    values
}

fn nothing_named(permits: bool) -> RuleValues
    ensures { result ≡ nothing_named permits }
{
    RuleValues {
        permits: u8::from(permits),
        what: 0,
        way: 0,
        names: 0,
        kind: 0,
        socket: 0,
        from: 0,
        to: 0,
        name: [0; 48],
    }
}

fn way_number(way: Way) -> u8
    ensures { result ≡ way_number way }
{
    match way {
        Way::In => 1,
        Way::Out => 2,
    }
}

fn names_number(names: &Names) -> u8
    ensures { result ≡ names_number names.now }
{
    match names {
        Names::All => 0,
        Names::Is(_) => 1,
        Names::Begins(_) => 2,
    }
}

/// The name, with zeros behind, where there is one.
fn names_field(names: &Names) -> [u8; 48]
    ensures value { result ≡ names_field names.now }
    ensures again { names_of (names_number names.now) result ≡ Some names.now }
{
    name_readings();
    match names {
        Names::All => [0; 48],
        Names::Is(name) => name.field(),
        Names::Begins(name) => name.field(),
    }
}
