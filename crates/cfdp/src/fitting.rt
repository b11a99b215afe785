//! Words that are cut where a picture has no room for them.

use std::alloc::{AllocError, Global};

/// How wide the characters from the space to the tilde are, in thousandths of the font size: each as in the widest
/// of the fonts that the style of a picture names.
const WIDTHS: [u16; 95] = [
    318, 401, 460, 838, 636, 950, 780, 275, 390, 390, 500, 838, 318, 361, 318, 337, 636, 636, 636,
    636, 636, 636, 636, 636, 636, 636, 337, 337, 838, 838, 838, 556, 1015, 684, 686, 722, 770, 667,
    611, 778, 752, 295, 500, 667, 557, 863, 748, 787, 667, 787, 722, 667, 611, 732, 684, 989, 685,
    667, 685, 390, 337, 390, 838, 556, 500, 613, 635, 550, 635, 615, 352, 635, 634, 278, 278, 579,
    278, 974, 634, 612, 635, 635, 411, 521, 392, 634, 592, 818, 592, 592, 525, 636, 337, 636, 838,
];

/// How wide an octet is that is shown as `%` and two digits.
const ESCAPED: u64 = 2_222;

/// What is shown after words that are cut.
const DOTS: &[u8] = b"..";

/// The room for words in a line.
#[derive(Clone, Copy)]
pub struct TextWidth {
    /// In pixels.
    pub width: u64,
    /// The size of the font, in pixels.
    pub font: u64,
}

/// How wide an octet is where it is shown, in thousandths of the font size.
fn width_of(octet: u8) -> u64 {
    let index = usize::from(octet.wrapping_sub(b' '));
    match WIDTHS.get(index) {
        Some(width) if octet != b'%' => u64::from(*width),
        _ => ESCAPED,
    }
}

/// How many octets fit, from the first one on, where there is room for this many thousandths of the font size.
fn count_within(words: &[u8], space: u64) -> usize {
    let mut left = space;
    for (index, octet) in words.iter().enumerate() {
        match left.checked_sub(width_of(*octet)) {
            Some(rest) => left = rest,
            None => return index,
        }
    }
    words.len()
}

/// Words, or as many octets of them as there is room for, with two dots.
pub fn fitted(alloc: Global, words: &[u8], space: TextWidth) -> Result<Vec<u8>, AllocError> {
    let units = space.width.saturating_mul(1_000) / space.font.max(1);
    if count_within(words, units) == words.len() {
        return Vec::from_slice(alloc, words);
    }
    let count = count_within(
        words,
        units.saturating_sub(width_of(b'.').saturating_mul(2)),
    );
    let mut text = Vec::from_slice(alloc, words.get(..count).unwrap_or(&[]))?;
    text.extend_from_slice(DOTS)?;
    Ok(text)
}
