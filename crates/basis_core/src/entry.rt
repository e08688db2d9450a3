//! The calls of a trace as events, each beside its answer.
ghost use Rattle.std.specs.Prelude.{◌≡◌, ◌++◌, ◌↔◌, IfOk, IsTrue, OnOk};
ghost use Rattle.basis_core.specs.declared.trace.Event.TheVariants.{Offer, Draw};
ghost use Rattle.basis_core.specs.Entries.{count_of_answer, entries_of, entries_of_caller, point_of_answer};

use crate::{Answer, CallerOffers, CallerTrace, Event};
use gf16::Memory;
use linear_spec::{Drawn, List, Packet, Reply};
use std::alloc::Global;

/// A call as an event, and its answer.
#[derive(Debug, Drop)]
pub struct Entry {
    pub event: Event,
    pub answer: Answer,
}

impl Event {
    /// An equal event.
    pub fn copy(&self, alloc: Global) -> Result<Event, Memory>
        ensures { IfOk result (λ event. event ≡ self.now) }
    {
        match self {
            Event::Offer {
                caller,
                tag,
                failed,
                packet,
            } => {
                let packet = packet.copy(alloc)?;
                Ok(Event::Offer {
                    caller: *caller,
                    tag: *tag,
                    failed: *failed,
                    packet,
                })
            }
            Event::Draw { caller, tag } => Ok(Event::Draw {
                caller: *caller,
                tag: *tag,
            }),
        }
    }
}

impl Answer {
    /// The number of records that the answer speaks of.
    pub fn point(&self) -> u16
        ensures { result ≡ point_of_answer self.now }
    {
        match self {
            Answer::Offered(Reply::FailedCheck { front, .. }) => *front,
            Answer::Offered(Reply::Innovative { at }) => *at,
            Answer::Offered(Reply::NotInnovative { front }) => *front,
            Answer::Offered(Reply::Conflicting { front }) => *front,
            Answer::Drew(Drawn::Sent { front }) => *front,
            Answer::Drew(Drawn::Nothing) => 0,
        }
    }

    /// Whether the call recorded its packet.
    pub fn is_recording(&self) -> bool
        ensures { IsTrue result ↔ (count_of_answer self.now ≡ 1) }
    {
        matches!(self, Answer::Offered(Reply::Innovative { .. }))
    }
}

/// The calls of callers, in the order in which the callers stand, each offer with its packet.
pub fn entries(
    alloc: Global,
    callers: &List<CallerTrace>,
    offers: &List<CallerOffers>,
) -> Result<List<Entry>, Memory>
    ensures { IfOk result (λ entries. entries.items ≡ entries_of callers.now.items offers.now.items) }
{
    let mut entries = List::new(alloc);
    let callers = callers.as_slice();
    let mut offers = offers.as_slice();
    for caller in callers {
        let [own, after @ ..] = offers else {
            return Ok(entries);
        };
        push_calls(alloc, caller, own, &mut entries)?;
        offers = after;
    }
    Ok(entries)
}

/// Appends the calls of one caller, up to an offer for which there is no packet.
fn push_calls(
    alloc: Global,
    caller: &CallerTrace,
    offers: &CallerOffers,
    out: &mut List<Entry>,
) -> Result<(), Memory>
    ensures { OnOk result (out.new.items ≡ out.old.items
        ++ entries_of_caller caller.now.number caller.now.calls.items offers.now.packets.items offers.now.failed.items) }
{
    let mut packets = offers.packets.as_slice();
    let mut failed = offers.failed.as_slice();
    let calls = caller.calls.as_slice();
    for call in calls {
        let answer = call.answer;
        match answer {
            Answer::Offered(_) => {
                let [packet, packets_after @ ..] = packets else {
                    return Ok(());
                };
                let [check, failed_after @ ..] = failed else {
                    return Ok(());
                };
                let packet = packet.copy(alloc)?;
                let event = offer_event(caller.number, call.tag, *check, packet);
                out.push(Entry { event, answer })?;
                packets = packets_after;
                failed = failed_after;
            }
            Answer::Drew(_) => {
                let event = draw_event(caller.number, call.tag);
                out.push(Entry { event, answer })?;
            }
        }
    }
    Ok(())
}

fn offer_event(caller: u32, tag: u64, failed: Option<u8>, packet: Packet) -> Event
    ensures { result ≡ Offer caller tag failed packet }
{
    Event::Offer {
        caller,
        tag,
        failed,
        packet,
    }
}

fn draw_event(caller: u32, tag: u64) -> Event
    ensures { result ≡ Draw caller tag }
{
    Event::Draw { caller, tag }
}
