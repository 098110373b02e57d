//! The names of well-known sockets, and of types of services.
ghost use Rattle.std.specs.Prelude.{◌≡◌, ◌≤◌, length};
ghost use Rattle.ipx_inside.specs.Names.{service_name, socket_name};

use ipx_wire::Socket;

/// The name of a well-known socket; no text for any other.
pub fn socket_name(socket: Socket) -> &'static str
    ensures name { result.now ≡ socket_name socket.0 }
    ensures most { length result.now ≤ 40 }
{
    match socket.0 {
        0x0002 => "ping",
        0x0451 => "NCP",
        0x0452 => "SAP",
        0x0453 => "RIP",
        0x0455 => "NetBIOS",
        0x0456 => "diagnostics",
        0x0457 => "serialization",
        0x0550 => "NWLink SMB server",
        0x0551 => "NWLink SMB name query",
        0x0552 => "NWLink SMB redirector",
        0x0553 => "NWLink SMB mailslot datagram",
        0x0554 => "NWLink SMB messenger",
        0x0555 => "NWLink SMB browser",
        0x85BE => "EIGRP for IPX",
        0x9001 => "NetWare Link Services Protocol",
        0x9004 => "IPX WAN",
        0x900F => "SNMP agent",
        0x9010 => "SNMP sink",
        0x9086 => "Novell ping",
        0x9091 => "TCP tunnel",
        0x9092 => "UDP tunnel",
        _ => "",
    }
}

/// The name of a type of services as SAP advertises them; no text for any other.
pub fn service_name(kind: u16) -> &'static str
    ensures name { result.now ≡ service_name kind }
    ensures most { length result.now ≤ 40 }
{
    match kind {
        0x0001 => "user",
        0x0002 => "user group",
        0x0003 => "print queue",
        0x0004 => "file server",
        0x0005 => "job server",
        0x0006 => "gateway",
        0x0007 => "print server",
        0x0008 => "archive queue",
        0x0009 => "archive server",
        0x000A => "job queue",
        0x000B => "administration",
        0x0020 => "NetBIOS",
        0x0024 => "remote bridge",
        0x0047 => "advertising print server",
        0x0098 => "NetWare access server",
        0x0107 => "remote console",
        0x026B => "time synchronization",
        0x0278 => "directory server",
        0x030C => "HP JetDirect",
        0x0640 => "gateway services for NetWare",
        _ => "",
    }
}
