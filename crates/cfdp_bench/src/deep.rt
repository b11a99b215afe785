//! Paths of four to eight names, each of 30 to 50 octets.
use crate::fault::WorkloadFault;
use crate::names::spell;

/// How deep the paths of a chain of directories are, and how long each of their names is. The names of a request have
/// at most 252 octets.
#[derive(Clone, Copy)]
pub struct Chain {
    /// How many names the path of a file has.
    pub depth: u32,
    /// How many octets each name has.
    pub octets: usize,
    /// The first one's number, so that no two chains have a name in common.
    number: u32,
}

/// The chains. A request on two files of the first one fits its TLV.
pub static CHAINS: [Chain; 6] = [
    Chain {
        depth: 4,
        octets: 30,
        number: 0,
    },
    Chain {
        depth: 4,
        octets: 50,
        number: 1,
    },
    Chain {
        depth: 5,
        octets: 49,
        number: 2,
    },
    Chain {
        depth: 6,
        octets: 41,
        number: 3,
    },
    Chain {
        depth: 7,
        octets: 35,
        number: 4,
    },
    Chain {
        depth: 8,
        octets: 30,
        number: 5,
    },
];

impl Chain {
    /// Spells the directory with this number of names.
    pub fn directory(&self, out: &mut Vec<u8>, names: u32) -> Result<(), WorkloadFault> {
        out.clear();
        for index in 0..names {
            if index > 0 {
                out.push(b'/')?;
            }
            self.name(out, b"archive-of-payload-", index)?;
        }
        Ok(())
    }

    /// Spells a file in the last directory.
    pub fn file(&self, out: &mut Vec<u8>, word: &[u8], number: u32) -> Result<(), WorkloadFault> {
        self.directory(out, self.depth.saturating_sub(1))?;
        out.push(b'/')?;
        self.name(out, word, number)
    }

    /// Appends a name of the length of this chain's names: a word, two numbers and letters.
    fn name(&self, out: &mut Vec<u8>, word: &[u8], number: u32) -> Result<(), WorkloadFault> {
        let start = out.len();
        spell(out, word, self.number, 1)?;
        spell(out, b"-", number, 4)?;
        for letter in 0..self.octets {
            if out.len().saturating_sub(start) >= self.octets {
                break;
            }
            out.push(b'a' + (letter % 26) as u8)?;
        }
        Ok(())
    }
}
