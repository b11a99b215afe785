//! What a worker is sent brings only events whose outcomes can be written.
ghost use Rattle.std.specs.Prelude.{◌≡◌, List, Some, map};
ghost use Rattle.std.specs.List.{AllByRecursion};
ghost use Rattle.cfdp_transactions.specs.declared.event.Event.{Event as EventOf};
ghost use Rattle.cfdp_transactions.specs.Writable.{IsReadable};
ghost use Rattle.cfdp_engine.specs.Working.{BringAll, Brings, event_in};
ghost use Rattle.cfdp_links.specs.Linked.{IsHeard};
ghost use Rattle.cfdp_links.specs.Links.{said_of};

use cfdp_engine::Message;
use cfdp_transactions::laws;

/// The event of octets that came may come from a PDU that was read. Does nothing.
fn octets_are_readable(octets: &[u8])
    ensures { (event : EventOf) → event_in octets.now ≡ Some event → IsReadable event }
{
    // Read for the contract alone: an octet is less than 256.
    let _octets = octets.len();
    laws::what_was_read_is_readable();
}

/// The events that a message brings may. Does nothing.
fn message_is_readable(message: &Message)
    requires { IsHeard (said_of message.now) }
    ensures { (events : List EventOf) → Brings message.now events → AllByRecursion IsReadable events }
{
    if let Message::Pdu(octets) = message {
        octets_are_readable(octets);
    }
}

/// Those that messages bring may. Does nothing.
pub fn messages_are_readable(messages: &[Message])
    requires { AllByRecursion IsHeard (map said_of messages.now) }
    ensures { (events : List EventOf) → BringAll messages.now events → AllByRecursion IsReadable events }
{
    for message in messages {
        message_is_readable(message);
    }
}
