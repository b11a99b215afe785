//! How far a transaction is.

ghost use Rattle.std.specs.Prelude.{◌≡◌};
ghost use Rattle.cfdp_receiver.specs.State.{at_phase};
ghost use Rattle.cfdp_receiver.specs.Due.{is_over, is_receiving_at};
ghost use Rattle.cfdp_receiver.specs.Turning.{takes_prompts};

use cfdp_transactions::Phase;

/// How far a transaction is, by its session and the core.
#[derive(Clone, Copy, Debug, PartialEq, Eq)]
pub enum JointPhase {
    /// Its EOF PDU is held until its Metadata PDU comes.
    Held,
    /// File data is taken, and no EOF PDU came.
    Receiving,
    /// The EOF PDU came and octets are missing; this many checks were made.
    Awaiting(u32),
    /// Its requests are performed.
    Executing,
    /// It is over, and its outcome is to be handed out.
    Over,
    /// Its Finished PDU was sent, and is not acknowledged yet.
    Waiting,
}

impl JointPhase {
    /// The phase of the core.
    pub(crate) fn of_phase(phase: Phase) -> JointPhase
        ensures { result ≡ at_phase phase }
    {
        match phase {
            Phase::Receiving => JointPhase::Receiving,
            Phase::Awaiting(made) => JointPhase::Awaiting(made),
            Phase::Executing(_) => JointPhase::Executing,
            Phase::Refused | Phase::Done | Phase::Ended(_) => JointPhase::Over,
        }
    }

    /// Whether file data is taken and no EOF PDU came.
    pub(crate) fn is_receiving(self) -> bool
        ensures { result ≡ is_receiving_at self }
    {
        matches!(self, JointPhase::Receiving)
    }

    /// Whether its outcome is to be handed out.
    pub(crate) fn is_over(self) -> bool
        ensures { result ≡ is_over self }
    {
        matches!(self, JointPhase::Over)
    }

    /// Whether a Prompt PDU is answered.
    pub(crate) fn takes_prompts(self) -> bool
        ensures { result ≡ takes_prompts self }
    {
        matches!(
            self,
            JointPhase::Held | JointPhase::Receiving | JointPhase::Awaiting(_)
        )
    }
}
