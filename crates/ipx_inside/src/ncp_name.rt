//! The names of the functions that NCP packets ask for most.
ghost use Rattle.std.specs.Prelude.{◌≡◌, ◌≤◌, length};
ghost use Rattle.ipx_inside.specs.NcpName.{directory_name, directory_services_name, file_name, function_name, message_name, plain_name, server_name, sub_name};

use crate::ncp::Sub;

/// The name of a function, by its number and its subfunction's; no text for any that isn't among these.
pub fn function_name(function: u8, sub: Sub) -> &'static str
    ensures name { result.now ≡ function_name function sub }
    ensures most { length result.now ≤ 40 }
{
    match sub {
        Sub::Absent => plain_name(function),
        Sub::Cut => "",
        Sub::Number(number) => sub_name(function, number),
    }
}

/// Of a function with subfunctions.
fn sub_name(function: u8, number: u8) -> &'static str
    ensures name { result.now ≡ sub_name function number }
    ensures most { length result.now ≤ 40 }
{
    match function {
        21 => message_name(number),
        22 => directory_name(number),
        23 => server_name(number),
        87 => file_name(number),
        104 => directory_services_name(number),
        _ => "",
    }
}

/// Of a function without subfunctions.
fn plain_name(function: u8) -> &'static str
    ensures name { result.now ≡ plain_name function }
    ensures most { length result.now ≤ 40 }
{
    match function {
        18 => "Get Volume Info with Number",
        20 => "Get File Server Date And Time",
        24 => "End of Job",
        25 => "Logout",
        33 => "Negotiate Buffer Size",
        64 => "Search for a File",
        65 => "Open File",
        66 => "Close File",
        67 => "Create File",
        68 => "Erase File",
        69 => "Rename File",
        70 => "Set File Attributes",
        71 => "Get Current Size of File",
        72 => "Read From A File",
        73 => "Write to a File",
        97 => "Get Big Packet NCP Max Packet Size",
        101 => "Packet Burst Connection Request",
        _ => "",
    }
}

/// Of messages to other clients.
fn message_name(number: u8) -> &'static str
    ensures name { result.now ≡ message_name number }
    ensures most { length result.now ≤ 40 }
{
    match number {
        0 => "Send Broadcast Message",
        1 => "Get Broadcast Message",
        _ => "",
    }
}

/// Of directories.
fn directory_name(number: u8) -> &'static str
    ensures name { result.now ≡ directory_name number }
    ensures most { length result.now ≤ 40 }
{
    match number {
        0 => "Set Directory Handle",
        1 => "Get Directory Path",
        3 => "Get Effective Directory Rights",
        5 => "Get Volume Number",
        6 => "Get Volume Name",
        10 => "Create Directory",
        11 => "Delete Directory",
        19 => "Alloc Temporary Directory Handle",
        20 => "Deallocate Directory Handle",
        21 => "Get Volume Info with Handle",
        30 => "Scan a Directory",
        _ => "",
    }
}

/// Of the server and its bindery.
fn server_name(number: u8) -> &'static str
    ensures name { result.now ≡ server_name number }
    ensures most { length result.now ≤ 40 }
{
    match number {
        17 => "Get File Server Information",
        20 => "Login Object",
        22 => "Get Station's Logged Info",
        23 => "Get Login Key",
        24 => "Keyed Object Login",
        26 => "Get Internet Address",
        28 => "Get Station's Logged Info",
        53 => "Get Bindery Object ID",
        54 => "Get Bindery Object Name",
        55 => "Scan Bindery Object",
        61 => "Read Property Value",
        70 => "Get Bindery Access Level",
        107 => "Get Queue Job List",
        _ => "",
    }
}

/// Of files and directories of any name space.
fn file_name(number: u8) -> &'static str
    ensures name { result.now ≡ file_name number }
    ensures most { length result.now ≤ 40 }
{
    match number {
        1 => "Open/Create File or Subdirectory",
        2 => "Initialize Search",
        3 => "Search for File or Subdirectory",
        6 => "Obtain File or SubDirectory Information",
        8 => "Delete a File or Subdirectory",
        _ => "",
    }
}

/// Of directory services.
fn directory_services_name(number: u8) -> &'static str
    ensures name { result.now ≡ directory_services_name number }
    ensures most { length result.now ≤ 40 }
{
    match number {
        1 => "Ping for NDS NCP",
        2 => "Send NDS Fragmented Request/Reply",
        _ => "",
    }
}
