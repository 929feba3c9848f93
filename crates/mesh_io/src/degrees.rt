//! Whether coordinates are degrees, as far as that can be seen.
use decimal_numbers::Decimal;
use mesh_files::Drawing;

/// What columns of degrees are called.
static NAMES: [&str; 6] = ["lon", "lng", "long", "longitude", "lat", "latitude"];

/// Whether a header has a name for degrees.
pub fn names_degrees(line: &[u8]) -> bool {
    let text = str::from_utf8(line).unwrap_or("");
    text.split(|c: char| !c.is_ascii_alphabetic()).any(|word| NAMES
        .iter()
        .any(|name| word.eq_ignore_ascii_case(name)))
}

/// Whether a word stands in a text.
fn has_word(text: &[u8], word: &[u8]) -> bool {
    for start in 0..text.len() {
        if text[start..].starts_with(word) {
            return true;
        }
    }
    false
}

/// Whether GeoJSON that begins so names no reference system but that of degrees.
pub fn has_no_other_system(head: &[u8]) -> bool {
    !has_word(head, b"\"crs\"") || has_word(head, b"CRS84") || has_word(head, b"4326")
}

/// Whether a number is at most so far from 0.
fn is_within(number: &Decimal, reach: u64) -> bool {
    number.rounded_to(0).magnitude <= reach
}

/// Whether all points have coordinates as degrees have them.
pub fn look_like_degrees(drawing: &Drawing) -> bool {
    !drawing.spots.is_empty()
        && drawing.spots.iter().all(|spot| is_within(&spot.x.decimal, 180)
            && is_within(&spot.y.decimal, 90))
}
