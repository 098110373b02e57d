//! The words of each number that C hears: of what became of an event those by which an `Outcome` shows itself.
ghost use Rattle.std.specs.Prelude.{◌≡◌, ◌<◌, ◌∷◌, ◌++◌, ◌+◌, length, drop};
ghost use Rattle.ipx_c.specs.Words.{event_word, drop_word, fault_word, word_of, word_after};

/// The numbers from here on are those of drops.
const FIRST_DROP: u32 = 100;

/// Copies the words of a number into a buffer, with a zero behind, where all fit. Returns their length.
#[unsafe(no_mangle)]
pub extern "C" fn ipxr_word(answer: i32, buffer: &mut [u8]) -> usize
    ensures count { result ≡ length (word_of answer) }
    ensures word { buffer.new ≡ word_after (word_of answer) buffer.old }
{
    let word = word_of(answer).as_bytes();
    if word.len() < buffer.len() {
        put_word(buffer, word);
    }
    word.len()
}

/// Puts a word and a zero to the front of a buffer that has room for them.
fn put_word(buffer: &mut [u8], word: &[u8])
    requires { length word.now < length buffer.old }
    ensures { buffer.new ≡ word.now ++ 0 ∷ drop (length word.now + 1) buffer.old }
{
    let (front, rest) = buffer.split_at_mut(word.len());
    front.copy_from_slice(word);
    rest[0] = 0;
}

fn word_of(answer: i32) -> &'static str
    ensures { result.now ≡ word_of answer }
{
    let number = answer.unsigned_abs();
    if answer < 0 {
        fault_word(number)
    } else if number < FIRST_DROP {
        event_word(number)
    } else {
        drop_word(number)
    }
}

fn event_word(number: u32) -> &'static str
    ensures { result.now ≡ event_word number }
{
    match number {
        0 => "started",
        1 => "already running",
        2 => "stopped",
        3 => "ticked",
        4 => "learned",
        5 => "answered",
        6 => "forwarded",
        7 => "propagated",
        8 => "went down",
        9 => "came up",
        10 => "already down",
        11 => "already up",
        12 => "local",
        _ => "",
    }
}

fn drop_word(number: u32) -> &'static str
    ensures { result.now ≡ drop_word number }
{
    match number {
        100 => "drop NotRunning",
        201 => "drop Malformed:Short",
        202 => "drop Malformed:LengthSmall",
        203 => "drop Malformed:LengthBeyond",
        300 => "drop OwnEcho",
        400 => "drop BadSource",
        500 => "drop CrossedShort",
        600 => "drop CrossedFull",
        700 => "drop CrossedSeen",
        800 => "drop Elsewhere",
        900 => "drop OtherSocket",
        1000 => "drop NotNeighbour",
        1101 => "drop BadRip:Short",
        1102 => "drop BadRip:Operation",
        1103 => "drop BadRip:NoEntry",
        1104 => "drop BadRip:TooMany",
        1201 => "drop BadSap:Short",
        1202 => "drop BadSap:Operation",
        1203 => "drop BadSap:NoEntry",
        1204 => "drop BadSap:TooMany",
        1300 => "drop NearestReply",
        1400 => "drop TooManyRouters",
        1500 => "drop FarSide",
        1600 => "drop NoRoute",
        1700 => "drop TooLong",
        1800 => "drop DownPort",
        _ => "",
    }
}

/// Of a fault, by how far it is below 0.
fn fault_word(number: u32) -> &'static str
    ensures { result.now ≡ fault_word number }
{
    match number {
        1 => "no router",
        2 => "no such port",
        3 => "no such packet",
        4 => "no such record",
        5 => "short buffer",
        6 => "out of memory",
        7 => "no tunnel",
        8 => "no segment",
        9 => "no such link",
        10 => "bad link",
        11 => "bad longest packet",
        12 => "bad cost",
        13 => "bad network",
        14 => "bad node",
        15 => "no ports",
        16 => "too many ports",
        17 => "same network",
        18 => "too many clients",
        19 => "too many links",
        20 => "too many stations",
        21 => "bad operation",
        22 => "no entries",
        23 => "too many entries",
        24 => "bad name",
        25 => "packet too long",
        26 => "bad way",
        27 => "too many rules",
        28 => "bad rule",
        _ => "",
    }
}
