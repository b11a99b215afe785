//! Short sessions with small filestores, and the words and spaces of their lines.
use crate::digest::Digest;
use crate::fault::WorkloadFault;
use crate::names::spell;
use crate::pdus::{List, Sender};
use crate::pool::{Pool, push_hex};
use crate::random::Random;
use crate::script::ScriptText;
use cfdp_sim::replay_text;
use cfdp_status::Action;
use std::alloc::Global;

const SENDER: u16 = 8;

/// How many short sessions with each size of filestore a round has.
const SESSIONS: u32 = 6;

/// How many octets a File Data PDU has before its data.
const HEAD: u32 = 16;

/// What short sessions are written into.
#[derive(Drop)]
pub struct ShortScripts {
    alloc: Global,
    script: ScriptText,
    list: List,
    name: Vec<u8>,
}

impl ShortScripts {
    /// No session yet.
    pub fn new(alloc: Global) -> ShortScripts {
        ShortScripts {
            alloc,
            script: ScriptText::new(alloc),
            list: List::new(alloc),
            name: Vec::new(alloc),
        }
    }

    /// A round of sessions.
    pub fn run(
        &mut self,
        pool: &Pool,
        random: &mut Random,
        digest: &mut Digest,
        scale: u32,
    ) -> Result<(), WorkloadFault> {
        for number in 0..SESSIONS {
            for config in [
                b"config 2 64 2400 2 1000\n".as_slice(),
                b"config 2 4096 200000 2 1000\n",
            ] {
                self.begin(config)?;
                self.short_session(pool, random, number)?;
                self.replay(digest)?;
            }
        }
        self.begin(b"config 2 16384 1900000 4 1000\n")?;
        self.pieces_of_all_sizes(pool, random, scale)?;
        self.words_about_the_length_of_a_piece(pool, random)?;
        self.spaces(pool, random)?;
        self.replay(digest)
    }

    fn begin(&mut self, config: &[u8]) -> Result<(), WorkloadFault> {
        self.script.clear();
        self.script.line(config)
    }

    fn replay(&mut self, digest: &mut Digest) -> Result<(), WorkloadFault> {
        let text = replay_text(self.alloc, &self.script.text)?;
        digest.add_octets(&text);
        Ok(())
    }

    /// A short file is delivered into a directory and renamed, and all is listed.
    fn short_session(
        &mut self,
        pool: &Pool,
        random: &mut Random,
        number: u32,
    ) -> Result<(), WorkloadFault> {
        self.list.clear();
        self.list.one(Action::CreateDirectory, b"app")?;
        self.script.list(Sender::new(SENDER, 0), &self.list)?;
        self.list.clear();
        self.list
            .two(Action::RenameFile, b"app/new", b"app/program")?;
        let size = 600 + random.below(1_200);
        let pieces = pool.file(self.alloc, random, size, 200, 400)?;
        let sender = Sender::new(SENDER, number.wrapping_add(1));
        self.script
            .deliver(sender, pool, &pieces, b"app/new", &self.list)?;
        self.script.line(b"list\n")
    }

    /// Two files come: one in file data of 64 octets, and one in file data of 65,000 octets.
    fn pieces_of_all_sizes(
        &mut self,
        pool: &Pool,
        random: &mut Random,
        scale: u32,
    ) -> Result<(), WorkloadFault> {
        self.list.clear();
        for (number, octets, count) in [(100, 64, 1_000), (101, 65_000, 10)] {
            let size = octets * count / scale.max(1);
            let pieces = pool.file(self.alloc, random, size, octets, octets)?;
            self.name.clear();
            spell(&mut self.name, b"in-pieces-of-", octets, 1)?;
            let sender = Sender::new(SENDER, number);
            self.script
                .deliver(sender, pool, &pieces, &self.name, &self.list)?;
        }
        Ok(())
    }

    /// A file comes in PDUs of 2,040 to 2,056 octets: a word of that number of pairs of digits.
    fn words_about_the_length_of_a_piece(
        &mut self,
        pool: &Pool,
        random: &mut Random,
    ) -> Result<(), WorkloadFault> {
        let sender = Sender::new(SENDER, 102);
        let mut pieces = Vec::new(self.alloc);
        let mut offset = 0_u32;
        for turn in 0..68 {
            let len = 2_040 - HEAD + turn % 17;
            pieces.push(pool.piece(random, offset, len))?;
            offset = offset.saturating_add(len);
        }
        self.script
            .deliver(sender, pool, &pieces, b"words", &self.list)
    }

    /// A PDU comes with a space before each pair of digits, then a local event with many spaces between its words, and
    /// a line of spaces alone.
    fn spaces(&mut self, pool: &Pool, random: &mut Random) -> Result<(), WorkloadFault> {
        self.script.line(b"pdu")?;
        for octet in pool.octets(pool.piece(random, 0, 400)) {
            self.script.line(b" ")?;
            push_hex(&mut self.script.text, &[*octet])?;
        }
        self.script.line(b"\n")?;
        for word in [b"step".as_slice(), b"8", b"103", b"\n", b"\n"] {
            for _ in 0..1_000 {
                self.script.line(b" ")?;
            }
            self.script.line(word)?;
        }
        Ok(())
    }
}
