//! Texts that are cut.
ghost use Rattle.std.specs.Prelude.{◌≡◌, ◌<◌, length, IfSome};
ghost use Rattle.std.specs.List.{position};
ghost use Rattle.std.specs.Option.{option_map};
ghost use Rattle.ipx_settings.specs.Cutting.{is_byte, cut_at};

/// Where a byte stands first.
fn place_of(text: &[u8], byte: u8) -> Option<usize>
    ensures { result ≡ position (is_byte byte) text.now }
{
    text.iter().position(|other| *other == byte)
}

/// What stands before the first such byte, and behind it.
pub(crate) fn cut_at(text: &[u8], byte: u8) -> Option<(&[u8], &[u8])>
    ensures parts { option_map (λ found. (found.0.now, found.1.now)) result ≡ cut_at byte text.now }
    ensures shorter { IfSome result (λ found. length found.1.now < length text.now) }
{
    match place_of(text, byte) {
        Some(place) => {
            let (front, rest) = text.split_at(place);
            let (_, behind) = rest.split_at(1);
            Some((front, behind))
        }
        None => None,
    }
}
