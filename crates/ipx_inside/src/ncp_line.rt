//! The line of an NCP packet.
ghost use Rattle.std.specs.Prelude.{◌≡◌, ◌+◌, ◌≤◌, ◌++◌, [], codes, length};
ghost use Rattle.ipx_inside.specs.NcpText.{burst_ends, burst_piece, caller_text, ncp_text, reply_text, request_text, sub_text};

use crate::line::Line;
use crate::ncp::{Burst, Caller, Ncp, Sub};
use crate::ncp_name::function_name;

/// How many bytes the longest text of a caller has.
const LONGEST_CALLER: usize = 80;

/// How many bytes the first part of a burst's line has at most.
const LONGEST_ENDS: usize = 130;

/// Puts the line.
#[tactic(auto, unfolding(crate::specs::NcpText::ncp_text))]
pub(crate) fn put_ncp(line: &mut Line, ncp: &Ncp)
    requires { line.old ≡ [] }
    ensures { line.new ≡ ncp_text ncp.now }
{
    match *ncp {
        Ncp::Create(caller) => put_caller(line, "ncp create", caller),
        Ncp::Request {
            caller,
            function,
            sub,
        } => put_request(line, caller, function, sub),
        Ncp::Reply {
            caller,
            completion,
            status,
        } => put_reply(line, caller, completion, status),
        Ncp::Destroy(caller) => put_caller(line, "ncp destroy", caller),
        Ncp::Burst(burst) => put_burst(line, &burst),
        Ncp::Busy(caller) => put_caller(line, "ncp busy", caller),
        Ncp::Other(kind) => line.put_word_field("ncp type ", kind),
    }
}

/// Puts a word and the caller.
#[tactic(auto, unfolding(crate::specs::NcpText::caller_text))]
fn put_caller(line: &mut Line, word: &str, caller: Caller)
    requires begun { line.old ≡ [] }
    requires word { length word.now ≤ 12 }
    ensures text { line.new ≡ caller_text word.now caller }
    ensures most { length line.new ≤ LONGEST_CALLER }
{
    line.put(word);
    line.put_field(" sequence ", u32::from(caller.sequence));
    line.put_field(" connection ", u32::from(caller.connection));
    line.put_field(" task ", u32::from(caller.task));
}

#[tactic(auto, unfolding(crate::specs::NcpText::request_text))]
fn put_request(line: &mut Line, caller: Caller, function: u8, sub: Sub)
    requires { line.old ≡ [] }
    ensures { line.new ≡ request_text caller function sub }
{
    put_caller(line, "ncp request", caller);
    line.put_field(" function ", u32::from(function));
    put_sub(line, sub);
    line.put_named(" ", function_name(function, sub));
}

#[tactic(auto, unfolding(crate::specs::NcpText::sub_text))]
fn put_sub(line: &mut Line, sub: Sub)
    requires { length line.old ≤ 120 }
    ensures text { line.new ≡ line.old ++ sub_text sub }
    ensures most { length line.new ≤ length line.old + 20 }
{
    match sub {
        Sub::Absent => {}
        Sub::Cut => line.put(" sub cut"),
        Sub::Number(number) => line.put_field(" sub ", u32::from(number)),
    }
}

#[tactic(auto, unfolding(crate::specs::NcpText::reply_text))]
fn put_reply(line: &mut Line, caller: Caller, completion: u8, status: u8)
    requires { line.old ≡ [] }
    ensures { line.new ≡ reply_text caller completion status }
{
    put_caller(line, "ncp reply", caller);
    line.put_byte_field(" completion ", completion);
    line.put_byte_field(" status ", status);
}

fn put_burst(line: &mut Line, burst: &Burst)
    requires { line.old ≡ [] }
    ensures { line.new ≡ burst_ends burst.now ++ burst_piece burst.now }
{
    put_burst_ends(line, burst);
    line.put(piece_line(burst).as_str());
}

#[tactic(auto, unfolding(crate::specs::NcpText::burst_ends))]
fn put_burst_ends(line: &mut Line, burst: &Burst)
    requires { line.old ≡ [] }
    ensures text { line.new ≡ burst_ends burst.now }
    ensures most { length line.new ≤ LONGEST_ENDS }
{
    line.put("ncp burst");
    line.put_byte_field(" flags ", burst.flags);
    line.put_byte_field(" stream ", burst.stream);
    line.put_field(" source ", burst.source);
    line.put_field(" destination ", burst.destination);
    line.put_field(" packet ", burst.packet);
    line.put_field(" delay ", burst.delay);
}

#[tactic(auto, unfolding(crate::specs::NcpText::burst_piece))]
fn piece_line(burst: &Burst) -> Line
    ensures text { result ≡ burst_piece burst.now }
    ensures most { length result ≤ 126 }
{
    let mut line = Line::new();
    line.put_field(" sequence ", u32::from(burst.sequence));
    line.put_field(" acknowledge ", u32::from(burst.acknowledge));
    line.put_field(" length ", burst.length);
    line.put_field(" offset ", burst.offset);
    line.put_field(" bytes ", u32::from(burst.bytes));
    line.put_field(" missing ", u32::from(burst.missing));
    line
}
