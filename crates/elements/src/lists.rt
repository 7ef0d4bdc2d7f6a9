// The second list: what a POWER9 guest is not offered of the first.
ghost use Rattle.std.specs.Prelude.{◌≡◌, ◌&&◌, leb, get_or};
ghost use Rattle.elements.specs.Later.{is_later, offer_of, offers};

use super::Offer;

// What came after POWER9: first ID, last ID. Pairs and tests of them by `|`: a `match`, `matches!` and a word of bits were tried, and each made the
// walk over a buffer take more stack than its deepest caller has, or more instructions for a POWER9 guest.
const LATER: [[u16; 2]; 6] = [
    [0x1031, 0x1031],
    [0x103E, 0x103E],
    [0x1041, 0x1041],
    [0x1042, 0x1042],
    [0x104E, 0x1051],
    [0x2006, 0x2006],
];

const POWER9: u32 = 0x0F00_0005;

fn in_row(row: [u16; 2], id: u16) -> bool
    ensures { result ≡ leb (get_or row 0 0) id && leb id (get_or row 1 0) }
{
    if id < row[0] {
        return false;
    }
    id <= row[1]
}

pub fn is_later(id: u16) -> bool
    ensures { result ≡ is_later id }
{
    let later = LATER;
    in_row(later[0], id)
        | in_row(later[1], id)
        | in_row(later[2], id)
        | in_row(later[3], id)
        | in_row(later[4], id)
        | in_row(later[5], id)
}

// Which list a guest with this logical PVR has.
pub fn offer_of(pvr: u32) -> Offer
    ensures { result ≡ offer_of pvr }
{
    if pvr == POWER9 {
        return Offer::Power9;
    }
    Offer::Full
}

// Whether a listed ID is on the list.
pub fn is_offered(offer: Offer, id: u16) -> bool
    ensures { result ≡ offers offer id }
{
    match offer {
        Offer::Full => true,
        Offer::Power9 => !is_later(id),
    }
}
