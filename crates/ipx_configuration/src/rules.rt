//! The rules of a network, as memory of C has them.
ghost use Rattle.std.specs.Prelude.{◌≡◌};
ghost use Rattle.ipx_configuration.specs.Rules.{permits_number, way_number, names_number, name_among, no_rule, rule_said, rule_in, no_rules, with_rule, more_rules, rule_fault, rule_taken};

use crate::clash::line_fault;
use crate::fault::Fault;
use crate::said::NetworkSetting;
use ipx_settings::{Expected, Names, RuleBegun, Way, What};

/// The most rules of a network.
const MOST_RULES: usize = 64;

/// A rule, which permits something or denies it, with the numbers that the edge of a cable has for it. Those that it doesn't need are 0.
///
/// See the example of [`Configuration`](crate::Configuration).
#[repr(C)]
#[derive(Clone, Copy)]
pub struct RuleSaid {
    /// 1 where it permits what it names.
    pub permits: u8,
    /// 1: packets of a type; 2: packets from a socket or to it; 3: queries for the nearest service; 4: routes; 5: services.
    pub what: u8,
    /// 1: in; 2: out.
    pub way: u8,
    /// 0: all names; 1: one; 2: those that begin so.
    pub names: u8,
    /// The type of packets, or of services.
    pub kind: u16,
    pub socket: u16,
    /// The first network of routes,
    pub from: u32,
    /// and the last.
    pub to: u32,
    /// The name of services, or what it begins with, with zeros behind it.
    pub name: [u8; 48],
}

/// Rules, in the order of their lines.
///
/// See the example of [`Configuration`](crate::Configuration).
#[repr(C)]
#[derive(Clone, Copy)]
pub struct Rules {
    pub list: [RuleSaid; 64],
    pub count: usize,
}

fn permits_number(permits: bool) -> u8
    ensures { result ≡ permits_number permits }
{
    if permits { 1 } else { 0 }
}

fn way_number(way: Way) -> u8
    ensures { result ≡ way_number way }
{
    match way {
        Way::In => 1,
        Way::Out => 2,
    }
}

fn names_number(names: Names) -> u8
    ensures { result ≡ names_number names }
{
    match names {
        Names::All => 0,
        Names::Is(_) => 1,
        Names::Begins(_) => 2,
    }
}

fn name_among(names: Names) -> [u8; 48]
    ensures { result ≡ name_among names }
{
    match names {
        Names::All => [0; 48],
        Names::Is(name) => name,
        Names::Begins(name) => name,
    }
}

fn no_rule() -> RuleSaid
    ensures { result ≡ no_rule }
{
    RuleSaid {
        permits: 0,
        what: 0,
        way: 0,
        names: 0,
        kind: 0,
        socket: 0,
        from: 0,
        to: 0,
        name: [0; 48],
    }
}

/// A rule, as its line says it.
fn rule_said(permits: bool, what: What) -> RuleSaid
    ensures { result ≡ rule_said permits what }
{
    let mut rule = no_rule();
    rule.permits = permits_number(permits);
    match what {
        What::Kind(kind) => {
            rule.what = 1;
            rule.kind = u16::from(kind);
        }
        What::OnSocket(socket) => {
            rule.what = 2;
            rule.socket = socket;
        }
        What::Nearest => {
            rule.what = 3;
        }
        What::Routes(way, from, to) => {
            rule.what = 4;
            rule.way = way_number(way);
            rule.from = from;
            rule.to = to;
        }
        What::Services(way, kind, names) => {
            rule.what = 5;
            rule.way = way_number(way);
            rule.names = names_number(names);
            rule.kind = kind;
            rule.name = name_among(names);
        }
    }
    rule
}

impl RuleSaid {
    /// The rule that a line says; all numbers are 0 where not all of its words were read.
    pub fn of(permits: bool, begun: RuleBegun) -> RuleSaid
        ensures { result ≡ rule_in permits begun }
    {
        match begun {
            RuleBegun::Whole(what) => rule_said(permits, what),
            _ => no_rule(),
        }
    }
}

impl Rules {
    pub(crate) fn none() -> Rules
        ensures { result ≡ no_rules }
    {
        Rules {
            list: [no_rule(); 64],
            count: 0,
        }
    }

    /// One more, if there is room.
    fn with(self, rule: RuleSaid) -> Rules
        ensures { result ≡ with_rule self rule }
    {
        let mut it = self;
        if it.count < MOST_RULES {
            it.list[it.count] = rule;
            it.count += 1;
        }
        it
    }

    fn with_line(self, permits: bool, begun: RuleBegun) -> Rules
        ensures { result ≡ more_rules self permits begun }
    {
        match begun {
            RuleBegun::Whole(what) => self.with(rule_said(permits, what)),
            _ => self,
        }
    }
}

fn rule_fault(rules: &Rules, own: Option<Expected>) -> Option<Fault>
    ensures { result ≡ rule_fault rules.now own }
{
    if rules.count >= MOST_RULES {
        return Some(Fault::ManyRules);
    }
    line_fault(own)
}

/// A network behind the line of a rule, and what is wrong with that.
pub(crate) fn rule_taken(
    network: NetworkSetting,
    permits: bool,
    begun: RuleBegun,
    own: Option<Expected>,
) -> (NetworkSetting, Option<Fault>)
    ensures { result ≡ rule_taken network permits begun own }
{
    let fault = rule_fault(&network.rules, own);
    let mut taken = network;
    if fault.is_none() {
        taken.rules = taken.rules.with_line(permits, begun);
    }
    (taken, fault)
}
