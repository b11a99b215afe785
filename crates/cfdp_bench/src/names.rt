//! The names of files and directories.
ghost use Rattle.std.specs.Prelude.{◌≤◌};

use crate::fault::WorkloadFault;

/// How long paths are.
#[derive(Clone, Copy, PartialEq, Eq)]
pub enum Shape {
    /// Two short names.
    Short,
    /// Six names of up to 19 octets.
    Long,
}

/// The directories above those of the long shape, the outermost first.
static ABOVE: [&[u8]; 4] = [
    b"platform",
    b"platform/instruments",
    b"platform/instruments/spectrometer",
    b"platform/instruments/spectrometer/calibration",
];

impl Shape {
    /// How many directories are above all others.
    pub fn count_above(self) -> u32
        ensures { result ≤ 4 }
    {
        match self {
            Shape::Short => 0,
            Shape::Long => 4,
        }
    }

    /// The directories above all others, the outermost first.
    pub fn above(self) -> &'static [&'static [u8]] {
        match self {
            Shape::Short => &[],
            Shape::Long => &ABOVE,
        }
    }

    /// Spells a directory.
    pub fn directory(self, out: &mut Vec<u8>, directory: u32) -> Result<(), WorkloadFault> {
        out.clear();
        match self {
            Shape::Short => spell(out, b"d", directory, 1),
            Shape::Long => {
                out.extend_from_slice(b"platform/instruments/spectrometer/calibration/")?;
                spell(out, b"set-", directory, 7)
            }
        }
    }

    /// Spells a file of a directory.
    pub fn file(self, out: &mut Vec<u8>, directory: u32, number: u32) -> Result<(), WorkloadFault> {
        self.directory(out, directory)?;
        match self {
            Shape::Short => spell(out, b"/f", number, 1),
            Shape::Long => spell(out, b"/measurement-", number, 7),
        }
    }
}

/// Appends a word and a number of at least this many decimal digits.
pub fn spell(
    out: &mut Vec<u8>,
    word: &[u8],
    number: u32,
    digits: u32,
) -> Result<(), WorkloadFault> {
    out.extend_from_slice(word)?;
    push_decimal(out, number, digits)
}

/// Appends a number of at least this many decimal digits.
pub fn push_decimal(out: &mut Vec<u8>, number: u32, digits: u32) -> Result<(), WorkloadFault> {
    let mut weight = 1_000_000_000_u32;
    let mut has_begun = false;
    for left in 0..10_u32 {
        let digit = (number / weight.max(1) % 10) as u8;
        has_begun = has_begun || digit != 0 || left.saturating_add(digits) >= 10;
        if has_begun {
            out.push(b'0' + digit)?;
        }
        weight /= 10;
    }
    Ok(())
}
