//! Refusals: offers whose packet failed a check, which are kept without a look at the words.
ghost use Rattle.std.specs.Prelude.{◌≡◌, ◌<◌, length};
ghost use Rattle.linear_spec.specs.declared.reply.Reply.TheVariants.{FailedCheck};
ghost use Rattle.linear_spec.specs.Passing.{IsFirstFailing};
ghost use Rattle.basis_core.specs.Calls.{KeptOffer};
ghost use Rattle.shared_basis.specs.Passes.{HasCalled, HasKept, IsFor, IsPassOf};

use crate::{Pass, SharedBasis};
use basis_core::{Answer, Call};
use linear_spec::{Packet, Reply};
use std::snapshot::Snapshot;

impl SharedBasis {
    /// Keeps an offer whose packet fails this check, and no earlier one, and answers it.
    pub fn refuse(&self, pass: &mut Pass, tag: u64, packet: &Packet, check: u8) -> Reply
        requires pass { IsPassOf self.now pass.old }
        requires packet { IsFor self.now.parameters packet.now }
        requires fails { IsFirstFailing self.now.parameters.equations.value packet.now check }
        requires room { 0 < pass.old.spare }
        ensures reply { result ≡ FailedCheck check (length pass.old.seen) }
        ensures call { HasCalled pass.old pass.new (KeptOffer tag packet.now result) }
        ensures kept { HasKept (record pass.old { calls = pass.new.calls; spare = pass.new.spare }) pass.new }
        ensures counts { (pass.new.moves ≡ pass.old.moves) × (pass.new.reads ≡ pass.old.reads) }
    {
        basis_core::laws::steps();
        let front = pass.desk.known.len() as u16;
        let reply = Reply::FailedCheck { check, front };
        pass.calls.put(Call {
            tag,
            answer: Answer::Offered(reply),
        });
        pass.offered.put(Snapshot::of(packet));
        pass.spare -= 1;
        reply
    }
}
