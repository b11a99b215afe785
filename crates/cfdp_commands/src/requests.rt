//! Filestore requests in lists, performed on one filestore (CCSDS 727.0-B-5, filestore procedures).
ghost use Rattle.std.specs.Prelude.{◌≡◌, ◌≤◌, ◌++◌, ℕ, List, false, length, Some, Ok, IfOk, OnOk, OnErr, Err};
ghost use Rattle.cfdp_commands.specs.Plain.{plain_blocks, performed_on, plain_answer};
ghost use Rattle.cfdp_lines.specs.declared.faults.LineFault.TheVariants.{Bad};

use crate::request_lines::{NoRequest, read_line, write_answer};
use cfdp_actions::{Filestore, Protected, perform};
use cfdp_lines::{LineFault, Script, decode_line};
use cfdp_status::Status;
use cfdp_tlv::FilestoreRequest;
use cfdp_verifier::parse_request;
use std::alloc::{AllocError, Global};
use std::mem;

/// Lists of filestore requests on one filestore.
#[derive(Drop)]
pub struct Requests<S: Filestore> {
    store: S,
    /// Whether a request of this list was not successful.
    stopped: bool,
    /// What the last line spelled: a buffer that is used again for the next one.
    octets: Vec<u8>,
    ghost capacity: { (S.state store).capacity ≡ plain_blocks },
}

impl<S: Filestore> Requests<S> {
    ghost use Rattle.cfdp_actions.specs.Store.{empty_store};
    ghost use Rattle.cfdp_tlv.specs.Grammar.{names_as_lv};
    ghost use Rattle.cfdp_commands.specs.Plain.{plain_state, answer_to, octets_answer};
    ghost use Rattle.cfdp_commands.specs.Scripts.{plain_state_of};

    /// No list has begun.
    pub fn new(alloc: Global, store: S) -> Self
        requires { (S.state store).capacity ≡ plain_blocks }
        ensures { plain_state_of S.state result ≡ plain_state (S.state store) false }
    {
        Requests {
            store,
            stopped: false,
            octets: Vec::new(alloc),
        }
    }

    /// Performs a request, or does not, where an earlier one of this list was not successful.
    fn perform(&mut self, alloc: Global, request: &FilestoreRequest) -> Result<Status, AllocError>
        ensures { IfOk result (λ status. performed_on (plain_state (S.state self.old.store) self.old.stopped)
            request.now
            ≡ (plain_state (S.state self.new.store) self.new.stopped, status)) }
    {
        if self.stopped {
            return Ok(Status::not_performed(request.action()));
        }
        let status = match parse_request(alloc, request)? {
            None => Status::not_allowed(request.action()),
            Some(request) => perform(&mut self.store, &Protected::new(), &request)?.status,
        };
        self.stopped = !status.is_successful();
        Ok(status)
    }

    /// Appends the line that answers a request, which is performed unless an earlier one of this list was not
    /// successful.
    fn answer(
        &mut self,
        alloc: Global,
        request: FilestoreRequest,
        out: &mut Vec<u8>,
    ) -> Result<(), AllocError>
        requires { length (names_as_lv request.first request.second) ≤ 253 }
        ensures ok { OnOk result ((line : List ℕ) × (answer_to (plain_state (S.state self.old.store) self.old.stopped)
            (Ok request)
            ≡ (plain_state (S.state self.new.store) self.new.stopped, line))
            × (out.new.items ≡ out.old.items ++ line)) }
        ensures kept { OnErr result (out.new.items ≡ out.old.items) }
    {
        let status = self.perform(alloc, &request)?;
        write_answer(alloc, request, status, out)
    }

    /// Appends the line that answers the octets of a line, where there are any; none begin a new list.
    fn answer_octets(
        &mut self,
        alloc: Global,
        octets: &[u8],
        out: &mut Vec<u8>,
    ) -> Result<(), AllocError>
        ensures ok { OnOk result ((line : List ℕ) × (octets_answer
            (plain_state (S.state self.old.store) self.old.stopped) octets.now
            ≡ (plain_state (S.state self.new.store) self.new.stopped, line))
            × (out.new.items ≡ out.old.items ++ line)) }
        ensures kept { OnErr result (out.new.items ≡ out.old.items) }
    {
        if octets.is_empty() {
            self.stopped = false;
            return Ok(());
        }
        match read_line(alloc, octets) {
            Ok(request) => self.answer(alloc, request, out),
            Err(NoRequest::Dropped(dropped)) => out.extend_from_slice(dropped.text()),
            Err(NoRequest::Memory) => Err(AllocError),
        }
    }
}

impl<S: Filestore> Script for Requests<S> {
    ghost use Rattle.cfdp_commands.specs.Plain.{PlainState, plain_answer};
    ghost use Rattle.cfdp_commands.specs.Scripts.{plain_state_of};

    ghost State = { PlainState };

    ghost state = { λ s. plain_state_of S.state s };

    ghost answer = { plain_answer };

    fn line(&mut self, alloc: Global, line: &[u8], out: &mut Vec<u8>) -> Result<(), LineFault> {
        let mut octets = mem::replace(&mut self.octets, Vec::new(alloc));
        decode_line(line, &mut octets)?;
        self.answer_octets(alloc, &octets, out)?;
        self.octets = octets;
        Ok(())
    }
}
