//! The gateway's node on a network.
ghost use Rattle.std.specs.Prelude.{◌≡◌};
ghost use Rattle.ipx_cable.specs.OwnNodes.{is_no_node, made_up, own_node};

/// Of DOSBox' tunnel: a node from which no datagram comes.
const OF_TUNNEL: [u8; 6] = [0, 0, 0, 0, 0, 1];

/// The first byte of a node that no manufacturer gave.
const LOCAL: u8 = 2;

/// The gateway's node on a network: of DOSBox' tunnel one from which no datagram comes; of a card its address, which is zeros where it isn't
/// known; else what is said, also where a network has several links. Where none of these is known, it is made of a hash of the machine and
/// of what the network is.
///
/// ```
/// let (card, nowhere) = ([0x52, 0x54, 0, 0x12, 0x34, 0x56], [0; 6]);
/// let said = Some([2, 0, 0, 0, 0, 9]);
/// let of_card = own_node(false, false, card, said, 7);
/// let of_several = own_node(false, true, card, said, 7);
/// println!(rt; "{of_card:?}, of several links: {of_several:?}")?;
/// let made_up = own_node(false, false, nowhere, None, 0x0605_0403_0201);
/// println!(rt; "made up: {made_up:?}")?;
/// // prints [82, 84, 0, 18, 52, 86], of several links: [2, 0, 0, 0, 0, 9]
/// // prints made up: [2, 2, 3, 4, 5, 6]
/// ```
pub fn own_node(
    is_tunnel: bool,
    is_of_several: bool,
    card: [u8; 6],
    said: Option<[u8; 6]>,
    hash: u64,
) -> [u8; 6]
    ensures { result ≡ own_node is_tunnel is_of_several card said hash }
{
    if is_tunnel && !is_of_several {
        return OF_TUNNEL;
    }
    if !is_no_node(card) && !is_of_several {
        return card;
    }
    said.unwrap_or(made_up(hash))
}

/// Whether a card's address isn't known.
fn is_no_node(card: [u8; 6]) -> bool
    ensures { result ≡ is_no_node card }
{
    card == [0; 6]
}

/// A node that no manufacturer gave, of a hash.
fn made_up(hash: u64) -> [u8; 6]
    ensures { result ≡ made_up hash }
{
    let bytes = hash.to_le_bytes();
    [LOCAL, bytes[1], bytes[2], bytes[3], bytes[4], bytes[5]]
}
