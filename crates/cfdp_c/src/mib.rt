//! The management information base of a receiver, as C gives it.
ghost use Rattle.std.specs.Prelude.{◌≡◌, Err, Ok};
ghost use Rattle.cfdp_c.specs.Mibs.{handler_in, interval_in, mib_answer, mib_in, nak_mode_in};

use crate::answer::CallAnswer;
use crate::numbers;
use cfdp_receiver::{Handler, Mib, MibFault, NakMode, Retries, Watch};

/// A C `struct cfdp_mib`. Times are in ticks of the caller's clock.
#[derive(Clone, Copy, Debug, PartialEq, Eq)]
#[repr(C)]
pub struct MibFields {
    /// The time after which a Finished PDU is sent again, from 1.
    pub ack_interval: u32,
    /// The expiry that is a fault, 1 to 1,000.
    pub ack_limit: u32,
    /// The handler of that fault.
    pub ack_handler: u32,
    /// The time after which what is missing is asked for again, from 1.
    pub nak_interval: u32,
    /// The expiry that is a fault, 1 to 1,000.
    pub nak_limit: u32,
    /// The handler of that fault.
    pub nak_handler: u32,
    /// The time between checks in unacknowledged mode, from 1.
    pub check_interval: u32,
    /// The handler of the fault at the check limit.
    pub check_handler: u32,
    /// The time without a PDU that is a fault, from 1.
    pub inactivity_interval: u32,
    /// The handler of that fault.
    pub inactivity_handler: u32,
    /// The time between Keep Alive PDUs; 0 where none is sent.
    pub keep_alive_interval: u32,
    /// When lost segments are asked for.
    pub nak_mode: u32,
    /// Whether PDUs that are sent have a CRC: 0 if not.
    pub has_crc: u32,
    /// How many octets a NAK PDU has at most, 72 to 65,535.
    pub longest_nak: u32,
    /// How far ahead of the latest moment another one may be; 0 where there is no limit.
    pub most_ahead: u32,
}

/// The fault handler of a number.
fn handler_of(number: u32) -> Result<Handler, CallAnswer>
    ensures { result ≡ handler_in number }
{
    match number {
        numbers::HANDLER_CANCEL => Ok(Handler::Cancel),
        numbers::HANDLER_IGNORE => Ok(Handler::Ignore),
        numbers::HANDLER_ABANDON => Ok(Handler::Abandon),
        _ => Err(CallAnswer::BadHandler),
    }
}

/// When lost segments are asked for, by its number.
fn nak_mode_of(number: u32) -> Result<NakMode, CallAnswer>
    ensures { result ≡ nak_mode_in number }
{
    match number {
        numbers::NAK_DEFERRED => Ok(NakMode::Deferred),
        numbers::NAK_IMMEDIATE => Ok(NakMode::Immediate),
        _ => Err(CallAnswer::BadNakMode),
    }
}

/// An interval that may be left out, where it is 0.
fn interval_of(ticks: u32) -> Option<u32>
    ensures { result ≡ interval_in ticks }
{
    if ticks == 0 { None } else { Some(ticks) }
}

/// The management information base that is given as a struct, or the first of its numbers that says nothing.
pub(crate) fn mib_of(fields: &MibFields) -> Result<Mib, CallAnswer>
    ensures { result ≡ mib_in fields.now }
{
    let ack = handler_of(fields.ack_handler)?;
    let nak = handler_of(fields.nak_handler)?;
    let check = handler_of(fields.check_handler)?;
    let inactivity = handler_of(fields.inactivity_handler)?;
    let nak_mode = nak_mode_of(fields.nak_mode)?;
    let Ok(longest_nak) = u16::try_from(fields.longest_nak) else {
        return Err(CallAnswer::BadLongestNak);
    };
    Ok(Mib {
        ack: Retries {
            interval: fields.ack_interval,
            limit: fields.ack_limit,
            at_limit: ack,
        },
        nak: Retries {
            interval: fields.nak_interval,
            limit: fields.nak_limit,
            at_limit: nak,
        },
        check: Watch {
            interval: fields.check_interval,
            at_limit: check,
        },
        inactivity: Watch {
            interval: fields.inactivity_interval,
            at_limit: inactivity,
        },
        keep_alive: interval_of(fields.keep_alive_interval),
        nak_mode,
        has_crc: fields.has_crc != 0,
        longest_nak,
        most_ahead: interval_of(fields.most_ahead),
    })
}

impl CallAnswer {
    /// What is returned for a value of the management information base that is out of range.
    pub(crate) fn of_mib(fault: MibFault) -> CallAnswer
        ensures { result ≡ mib_answer fault }
    {
        match fault {
            MibFault::Interval => CallAnswer::BadInterval,
            MibFault::Limit => CallAnswer::BadLimit,
            MibFault::LongestNak => CallAnswer::BadLongestNak,
        }
    }
}
