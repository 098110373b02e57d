//! The line of a NetBIOS packet.
ghost use Rattle.std.specs.Prelude.{◌≡◌, ◌==◌, ◌+◌, ◌<◌, ◌≤◌, ◌++◌, [], ◌∷◌, if◌then◌else◌, codes, length};
ghost use Rattle.hex.specs.Hex.{encode_upper};
ghost use Rattle.ipx_inside.specs.NetBiosText.{name_text, netbios_text, operation_word, session_text, shown};

use crate::line::Line;
use crate::netbios::{NetBios, Session};

/// How many bytes the text of a name has at most.
const LONGEST_NAME: usize = 55;

/// How many bytes of a name are no suffix.
const NAME: usize = 15;

/// Puts the line.
#[tactic(auto, unfolding(crate::specs::NetBiosText::netbios_text))]
pub(crate) fn put_netbios(line: &mut Line, netbios: &NetBios)
    requires { line.old ≡ [] }
    ensures { line.new ≡ netbios_text netbios.now }
{
    match *netbios {
        NetBios::Name {
            operation,
            flags,
            name,
        } => put_about_name(line, operation, flags, &name),
        NetBios::Session {
            operation,
            control,
            session,
        } => {
            line.put(operation_word(operation));
            line.put_byte_field(" control ", control);
            line.put(session_line(&session).as_str());
        }
        NetBios::Datagram { control, to, from } => {
            line.put_byte_field("netbios datagram control ", control);
            line.put(" to ");
            put_name(line, &to);
            line.put(" from ");
            put_name(line, &from);
        }
        NetBios::Other(operation) => {
            line.put(operation_word(operation));
            line.put_byte_field(" ", operation);
        }
    }
}

/// Puts the line of something about a name.
fn put_about_name(line: &mut Line, operation: u8, flags: u8, name: &[u8; 16])
    requires { line.old ≡ [] }
    ensures { line.new ≡ operation_word operation ++ codes " flags " ++ encode_upper (flags ∷ []) ++ codes " name " ++ name_text name.now }
{
    put_operation(line, operation);
    line.put_byte_field(" flags ", flags);
    line.put(" name ");
    put_name(line, name);
}

/// Puts the word of a type.
fn put_operation(line: &mut Line, operation: u8)
    requires { line.old ≡ [] }
    ensures text { line.new ≡ operation_word operation }
    ensures most { length line.new ≤ 40 }
{
    line.put(operation_word(operation));
}

fn operation_word(operation: u8) -> &'static str
    ensures word { result.now ≡ operation_word operation }
    ensures most { length result.now ≤ 40 }
{
    match operation {
        1 => "netbios find-name",
        2 => "netbios name-recognized",
        3 => "netbios check-name",
        4 => "netbios name-in-use",
        5 => "netbios deregister-name",
        6 => "netbios session-data",
        7 => "netbios session-end",
        8 => "netbios session-end-acknowledge",
        9 => "netbios status-query",
        10 => "netbios status-response",
        11 => "netbios datagram",
        _ => "netbios type",
    }
}

/// Puts a name and its suffix.
#[tactic(auto, unfolding(crate::specs::NetBiosText::name_text))]
fn put_name(line: &mut Line, name: &[u8; 16])
    requires { length line.old + LONGEST_NAME ≤ 256 }
    ensures text { line.new ≡ line.old ++ name_text name.now }
    ensures most { length line.new ≤ length line.old + LONGEST_NAME }
{
    let end = shown(name);
    line.put_name(&name[..end]);
    line.put_byte_field(" suffix ", name[NAME]);
}

/// How many bytes of a name are shown: all up to the last that is no blank, and always the first.
fn shown(name: &[u8; 16]) -> usize
    ensures size { result ≡ shown name.now 14 }
    ensures most { result ≤ 15 }
{
    let mut end = 1;
    for place in 0..NAME - 1 {
        end = shown_at(name[place + 1], place, end);
    }
    end
}

/// The same with the byte behind a place, where so many are shown up to it.
fn shown_at(byte: u8, place: usize, end: usize) -> usize
    requires { (end ≤ place + 1) × (place < 14) }
    ensures size { result ≡ (if byte == 0x20 then end else place + 2) }
    ensures most { result ≤ place + 2 }
{
    if byte == b' ' {
        return end;
    }
    place + 2
}

#[tactic(auto, unfolding(crate::specs::NetBiosText::session_text))]
fn session_line(session: &Session) -> Line
    ensures text { result ≡ session_text session.now }
    ensures most { length result ≤ 190 }
{
    let mut line = Line::new();
    line.put_word_field(" source ", session.source);
    line.put_word_field(" destination ", session.destination);
    line.put_field(" sequence ", u32::from(session.sequence));
    line.put_field(" total ", u32::from(session.total));
    line.put_field(" offset ", u32::from(session.offset));
    line.put_field(" length ", u32::from(session.length));
    line.put_field(" receive ", u32::from(session.receive));
    line.put_field(" received ", u32::from(session.received));
    line
}
