//! Packets into the inboxes of workers.
ghost use Rattle.std.specs.Prelude.{◌<◌, ◌≤◌, ◌^◌, length, IfOk, OnOk};
ghost use Rattle.std.specs.List.{All};
ghost use Rattle.shared_reception.specs.Steps.{AreDealt, AreIdle};

use gf16::Memory;
use linear_spec::{List, Packet};
use receive_pass::{TaggedPacket, Worker};
use std::alloc::Global;

/// A worker for each caller. The first ones are the receivers, with their parts of the packets; the others get none.
pub(crate) fn deal(
    alloc: Global,
    packets: List<Packet>,
    receivers: u32,
    callers: u32,
) -> Result<List<Worker>, Memory>
    requires some { 1 ≤ receivers }
    requires callers { receivers ≤ callers }
    ensures { IfOk result (λ workers. AreDealt receivers callers packets.items workers.items) }
{
    let mut workers = idle_workers(alloc, callers)?;
    deal_out(packets, receivers, workers.as_mut_slice())?;
    Ok(workers)
}

/// A worker for each caller, with nothing to receive.
fn idle_workers(alloc: Global, callers: u32) -> Result<List<Worker>, Memory>
    ensures { IfOk result (λ workers. AreIdle callers workers.items) }
{
    let mut workers = List::new(alloc);
    for caller in 0..callers {
        workers.push(Worker {
            caller,
            passes: List::new(alloc),
            inbox: List::new(alloc),
        })?;
    }
    Ok(workers)
}

/// Gives each packet with its place as its tag to the next receiver in turn.
fn deal_out(mut packets: List<Packet>, receivers: u32, workers: &mut [Worker]) -> Result<(), Memory>
    requires some { 1 ≤ receivers }
    requires callers { receivers ≤ length workers.old }
    requires idle { AreIdle (length workers.old) workers.old }
    ensures { OnOk result (AreDealt receivers (length workers.old) packets.items workers.new) }
{
    packets.as_mut_slice().reverse();
    for tag in 0..packets.len() {
        let packet = packets.pop().unwrap();
        let receiver = tag % receivers as usize;
        let tag = tag as u64;
        workers[receiver].inbox.push(TaggedPacket { tag, packet })?;
    }
    Ok(())
}

/// A number of packets that no inbox exceeds.
pub(crate) fn longest_inbox(workers: &[Worker]) -> u32
    requires { All (λ worker. length worker.inbox.items < 2 ^ 32) workers.now }
    ensures { All (λ worker. length worker.inbox.items ≤ result) workers.now }
{
    let mut longest = 0;
    for worker in workers {
        longest = longest.max(worker.inbox.len() as u32);
    }
    longest
}
