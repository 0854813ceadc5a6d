ghost use Rattle.std.specs.Prelude.{◌≡◌};
ghost use Rattle.desk_text.specs.Picture.{fits, fits_place};

/// Whether the bytes fit the picture place by place: a letter stands for any digit, and any other byte for itself.
pub fn fits(picture: &[u8], bytes: &[u8]) -> bool
    ensures { result ≡ fits picture.now bytes.now }
{
    match (picture, bytes) {
        ([], []) => true,
        ([place, picture @ ..], [byte, bytes @ ..]) => fits_place(*place, *byte)
            && fits(picture, bytes),
        _ => false,
    }
}

fn fits_place(place: u8, byte: u8) -> bool
    ensures { result ≡ fits_place place byte }
{
    if place.is_ascii_alphabetic() {
        byte.is_ascii_digit()
    } else {
        byte == place
    }
}
