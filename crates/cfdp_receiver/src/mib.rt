//! What is left to the management of a receiving entity.

ghost use Rattle.std.specs.Prelude.{◌≡◌, ◌≤◌, IfNone};
ghost use Rattle.cfdp_receiver.specs.StateMachine.{IsMib, mib_fault};
ghost use Rattle.cfdp_receiver.specs.Turning.{most_nak_requests};

/// What is done at a fault (CCSDS 727.0-B-5, the fault handling procedures).
#[derive(Clone, Copy, Debug, PartialEq, Eq)]
pub enum Handler {
    /// The transaction is cancelled, with the condition code of the fault.
    Cancel,
    /// The user is notified, and the transaction goes on.
    Ignore,
    /// The transaction is abandoned: nothing more is sent.
    Abandon,
}

/// When lost segments are asked for (CCSDS 727.0-B-5, the lost segment procedures).
#[derive(Clone, Copy, Debug, PartialEq, Eq)]
pub enum NakMode {
    /// After the EOF PDU.
    Deferred,
    /// When a gap begins, and after the EOF PDU.
    Immediate,
}

/// A timer after which a PDU is sent again.
#[derive(Clone, Copy, Debug, PartialEq, Eq)]
pub struct Retries {
    /// How long it runs, 1 to 2^32 - 1 ticks.
    pub interval: u32,
    /// The expiry that is a fault, counted from 1: 1 to 1,000.
    pub limit: u32,
    /// What is done then.
    pub at_limit: Handler,
}

/// A timer after which something is looked after.
#[derive(Clone, Copy, Debug, PartialEq, Eq)]
pub struct Watch {
    /// How long it runs, 1 to 2^32 - 1 ticks.
    pub interval: u32,
    /// What is done at the fault.
    pub at_limit: Handler,
}

/// What the management of a receiving entity sets (the management information base of CCSDS 727.0-B-5, chapter 8).
/// Times are in ticks of the caller's clock.
#[derive(Clone, Copy, Debug, PartialEq, Eq)]
pub struct Mib {
    /// A Finished PDU is sent again after this time without its acknowledgement. At the limit: condition code 1.
    pub ack: Retries,
    /// What is missing after the EOF PDU is asked for again after this time without a new octet. At the limit:
    /// condition code 7.
    pub nak: Retries,
    /// The time between checks in unacknowledged mode. The limit is that of the core's configuration: condition code
    /// 10.
    pub check: Watch,
    /// Before the EOF PDU: this time without a PDU of the transaction is condition code 8.
    pub inactivity: Watch,
    /// Before the EOF PDU, in acknowledged mode: the time between Keep Alive PDUs, 1 to 2^32 - 1 ticks. `None`: none is
    /// sent.
    pub keep_alive: Option<u32>,
    /// When lost segments are asked for.
    pub nak_mode: NakMode,
    /// PDUs that are sent have a CRC.
    pub has_crc: bool,
    /// How many octets a NAK PDU has at most, 72 to 65,535, its CRC included.
    pub longest_nak: u16,
    /// The largest step that a moment may take past the latest one, 1 to 2^32 - 1 ticks. An input with a moment that
    /// is further ahead is answered with `Became::TooFarAhead`, and changes nothing. So call `expire` at least once
    /// in that many ticks, also where nothing comes and no timer is due. After a longer pause say the time by
    /// `move_clock`. `None`: there is no limit.
    pub most_ahead: Option<u32>,
}

/// Which value of the management information base is out of range.
#[derive(Clone, Copy, Debug, PartialEq, Eq)]
pub enum MibFault {
    /// An interval is 0, or how far ahead a moment may be.
    Interval,
    /// A limit is not 1 to 1,000.
    Limit,
    /// The longest NAK PDU has fewer than 72 octets.
    LongestNak,
}

impl Mib {
    /// What is wrong with the values, if anything, in the order of [`MibFault`].
    pub fn fault(&self) -> Option<MibFault>
        ensures fault { result ≡ mib_fault self.now }
        ensures none { IfNone result (IsMib self.now) }
    {
        let watched = self.check.interval == 0 || self.inactivity.interval == 0;
        if self.ack.interval == 0
            || self.nak.interval == 0
            || watched
            || self.keep_alive == Some(0)
            || self.most_ahead == Some(0)
        {
            return Some(MibFault::Interval);
        }
        let is_limit = |limit: u32| 1 <= limit && limit <= 1_000;
        if !is_limit(self.ack.limit) || !is_limit(self.nak.limit) {
            return Some(MibFault::Limit);
        }
        if self.longest_nak < 72 {
            return Some(MibFault::LongestNak);
        }
        None
    }

    /// How many segment requests a NAK PDU has at most: by the longest header of 28 octets, the directive code, a scope
    /// of 16 octets, requests of 16 octets each and a CRC of 2. There are never more than 34.
    pub fn most_requests(&self) -> usize
        ensures { result ≡ most_nak_requests self.now }
    {
        let room = usize::from(self.longest_nak).saturating_sub(47) / 16;
        room.min(34)
    }
}
