//! The sequential basis as a machine over events.
ghost use Rattle.std.specs.Prelude.{◌≡◌, ◌<◌, ◌≤◌, ◌^◌, ◌==◌, ℕ, [], ◌∷◌, ◌++◌, count_by, length, IfOk, IsTrue, MatchOption, OnOk, OnErr};
ghost use Rattle.std.specs.List.{All};
ghost use Rattle.linear_spec.specs.declared.reply.Reply.TheVariants.{FailedCheck};
ghost use Rattle.linear_spec.specs.Packet.{Fits};
ghost use Rattle.linear_spec.specs.SequentialBasis.{packets_of, IsCaseReply, recorded};
ghost use Rattle.basis_core.specs.Calls.{IsDrawnAt};
ghost use Rattle.basis_core.specs.Machine.{FitsEvent, IsAnswerTo, IsReplay, IsReplyAt, caller_of, calls_so_far, events_of, new_records};

use crate::{Answer, Event, Replayed};
use gf16::{Memory, Plain};
use linear_spec::{Case, Drawn, List, Packet, Record, Reply, examine};
use std::alloc::Global;
use std::marker::Model;

/// The sequential basis as a machine: it answers one event after the other, and keeps the records.
///
/// Contracts see its packets' lengths, the callers of the events so far, and the records. Beside each record it keeps a
/// row, which a packet is reduced by. No packet's generation is looked at.
#[derive(Debug, Drop)]
pub struct Core {
    alloc: Global,
    k: u16,
    s: u16,
    callers: List<u32>,
    records: List<Record>,
    rows: List<Packet>,
}

impl Model for Core {
    ghost use Rattle.basis_core.specs.Machine.{State, IsSound};

    ghost Value = { State };

    ghost view = { λ c. record { k = c.k; s = c.s; callers = c.callers.items; records = c.records.items } };

    ghost invariant = { λ c. IsSound c.k c.s c.records.items c.rows.items };
}

impl Core {
    /// The empty basis, for packets of K coefficients and S payload symbols. It takes no memory until the first event.
    pub fn new(alloc: Global, k: u16, s: u16) -> Core
        ensures { result ≡ record { k = k; s = s; callers = []; records = [] } }
    {
        linear_spec::laws::rows();
        Core {
            alloc,
            k,
            s,
            callers: List::new(alloc),
            records: List::new(alloc),
            rows: List::new(alloc),
        }
    }

    /// Answers an event, and records its packet where the answer is `Innovative`. On want of memory nothing changes.
    pub fn step(&mut self, event: &Event) -> Result<Answer, Memory>
        requires fits { FitsEvent self.old.k self.old.s event.now }
        requires room { calls_so_far self.old.callers (caller_of event.now) < 2 ^ 32 }
        ensures answer { IfOk result (λ answer. IsAnswerTo self.old.k self.old.s (packets_of self.old.records) event.now answer) }
        ensures records { IfOk result (λ answer. self.new.records ≡ self.old.records ++ new_records self.old.callers event.now answer) }
        ensures callers { OnOk result (self.new.callers ≡ self.old.callers ++ caller_of event.now ∷ []) }
        ensures same_shape { (self.new.k ≡ self.old.k) × (self.new.s ≡ self.old.s) }
        ensures err { OnErr result (self.new ≡ self.old) }
    {
        match event {
            Event::Offer {
                caller,
                failed,
                packet,
                ..
            } => {
                let reply = self.offer(*caller, *failed, packet)?;
                Ok(Answer::Offered(reply))
            }
            Event::Draw { caller, .. } => {
                let drawn = self.draw(*caller)?;
                Ok(Answer::Drew(drawn))
            }
        }
    }

    fn offer(&mut self, caller: u32, failed: Option<u8>, packet: &Packet) -> Result<Reply, Memory>
        requires fits { Fits self.old.k self.old.s packet.now }
        requires room { calls_so_far self.old.callers caller < 2 ^ 32 }
        ensures reply { IfOk result (IsReplyAt self.old.k self.old.s (packets_of self.old.records) failed packet.now) }
        ensures records { IfOk result (λ reply. self.new.records ≡ self.old.records
            ++ recorded (record { caller = caller; call = calls_so_far self.old.callers caller; packet = packet.now }) reply) }
        ensures callers { OnOk result (self.new.callers ≡ self.old.callers ++ caller ∷ []) }
        ensures same_shape { (self.new.k ≡ self.old.k) × (self.new.s ≡ self.old.s) }
        ensures err { OnErr result (self.new ≡ self.old) }
    {
        match failed {
            Some(check) => self.refuse(caller, check),
            None => self.judge(caller, packet),
        }
    }

    /// Answers an offer whose packet fails a check.
    fn refuse(&mut self, caller: u32, check: u8) -> Result<Reply, Memory>
        ensures reply { IfOk result (λ reply. reply ≡ FailedCheck check (length self.old.records)) }
        ensures records { self.new.records ≡ self.old.records }
        ensures callers { OnOk result (self.new.callers ≡ self.old.callers ++ caller ∷ []) }
        ensures same_shape { (self.new.k ≡ self.old.k) × (self.new.s ≡ self.old.s) }
        ensures err { OnErr result (self.new ≡ self.old) }
    {
        linear_spec::laws::rows();
        self.callers.push(caller)?;
        let front = self.records.len() as u16;
        Ok(Reply::FailedCheck { check, front })
    }

    /// Answers an offer whose packet passes.
    fn judge(&mut self, caller: u32, packet: &Packet) -> Result<Reply, Memory>
        requires fits { Fits self.old.k self.old.s packet.now }
        requires room { calls_so_far self.old.callers caller < 2 ^ 32 }
        ensures reply { IfOk result (IsCaseReply self.old.k self.old.s (packets_of self.old.records) packet.now) }
        ensures records { IfOk result (λ reply. self.new.records ≡ self.old.records
            ++ recorded (record { caller = caller; call = calls_so_far self.old.callers caller; packet = packet.now }) reply) }
        ensures callers { OnOk result (self.new.callers ≡ self.old.callers ++ caller ∷ []) }
        ensures same_shape { (self.new.k ≡ self.old.k) × (self.new.s ≡ self.old.s) }
        ensures err { OnErr result (self.new ≡ self.old) }
    {
        linear_spec::laws::rows();
        linear_spec::laws::decision();
        self.callers.reserve(1)?;
        self.records.reserve(1)?;
        self.rows.reserve(1)?;
        let front = self.records.len() as u16;
        match examine::<Plain>(self.alloc, &self.rows, packet)? {
            Case::Fresh(row) => {
                let call = calls_made(&self.callers, caller);
                let packet = packet.copy(self.alloc)?;
                self.callers.put(caller);
                self.records.put(Record {
                    caller,
                    call,
                    packet,
                });
                self.rows.put(row);
                Ok(Reply::Innovative { at: front })
            }
            Case::Within => {
                self.callers.put(caller);
                Ok(Reply::NotInnovative { front })
            }
            Case::Conflicting => {
                self.callers.put(caller);
                Ok(Reply::Conflicting { front })
            }
        }
    }

    fn draw(&mut self, caller: u32) -> Result<Drawn, Memory>
        ensures drawn { IfOk result (IsDrawnAt (packets_of self.old.records)) }
        ensures records { self.new.records ≡ self.old.records }
        ensures callers { OnOk result (self.new.callers ≡ self.old.callers ++ caller ∷ []) }
        ensures same_shape { (self.new.k ≡ self.old.k) × (self.new.s ≡ self.old.s) }
        ensures err { OnErr result (self.new ≡ self.old) }
    {
        linear_spec::laws::rows();
        self.callers.push(caller)?;
        let front = self.records.len() as u16;
        if front == 0 {
            return Ok(Drawn::Nothing);
        }
        Ok(Drawn::Sent { front })
    }
}

/// How many of the calls so far a caller made.
fn calls_made(callers: &List<u32>, caller: u32) -> u32
    requires { calls_so_far callers.now.items caller < 2 ^ 32 }
    ensures { result ≡ calls_so_far callers.now.items caller }
{
    let count = count_of(callers.as_slice(), caller);
    count as u32
}

fn count_of(callers: &[u32], caller: u32) -> usize
    ensures { result ≡ count_by (λ other. other == caller) callers.now }
{
    callers.iter().filter(|other| **other == caller).count()
}

/// Runs the events from the empty basis: their answers, and the records at the end.
pub fn replay(alloc: Global, k: u16, s: u16, events: &List<Event>) -> Result<Replayed, Memory>
    requires fit { All (FitsEvent k s) events.now.items }
    requires room { (caller : ℕ) → events_of events.now.items caller ≤ 2 ^ 32 }
    ensures { IfOk result (λ replayed. IsReplay k s events.now.items replayed.answers.items replayed.records.items) }
{
    let mut core = Core::new(alloc, k, s);
    let mut answers = List::new(alloc);
    let events = events.as_slice();
    for event in events {
        let answer = core.step(event)?;
        answers.push(answer)?;
    }
    Ok(Replayed {
        answers,
        records: core.records,
    })
}

/// Replays events that may not fit: `None` where one does not. They are 2^32 at most.
pub fn replay_if_fit(
    alloc: Global,
    k: u16,
    s: u16,
    events: &List<Event>,
) -> Result<Option<Replayed>, Memory>
    requires { length events.now.items ≤ 2 ^ 32 }
    ensures { IfOk result (λ found. MatchOption found (¬ All (FitsEvent k s) events.now.items)
        (λ replayed. All (FitsEvent k s) events.now.items × IsReplay k s events.now.items replayed.answers.items replayed.records.items)) }
{
    if !all_fit(k, s, events.as_slice()) {
        return Ok(None);
    }
    Ok(Some(replay(alloc, k, s, events)?))
}

/// Whether all events fit.
fn all_fit(k: u16, s: u16, events: &[Event]) -> bool
    ensures fit { IsTrue result → All (FitsEvent k s) events.now }
    ensures found { All (FitsEvent k s) events.now → IsTrue result }
{
    for event in events {
        if !fits(k, s, event) {
            return false;
        }
    }
    true
}

/// Whether the packet of an offer has these lengths. A draw has no packet.
fn fits(k: u16, s: u16, event: &Event) -> bool
    ensures fit { IsTrue result → FitsEvent k s event.now }
    ensures found { FitsEvent k s event.now → IsTrue result }
{
    match event {
        Event::Offer { packet, .. } => {
            linear_spec::laws::packet_fits(packet);
            packet.coeffs.len() == usize::from(k) && packet.payload.len() == usize::from(s)
        }
        Event::Draw { .. } => true,
    }
}
