//! Workers at once, and answers by check first.
use super::*;
use basis_core::{Answer, Call};
use linear_spec::{List, Packet, Reply};
use making::{basis_with, make_equations, make_inbox, make_worker, make_workers};
use std::hint::spin_loop;
use std::sync::atomic::{AtomicBool, AtomicU32, Ordering};
use std::test::Fail;

mod history;
mod making;

/// Holds each worker at its first packet until two are there at once, or its patience is over.
#[derive(Drop)]
struct MeetingGate {
    inside: AtomicU32,
    met: AtomicBool,
}

const PATIENCE: u64 = 100_000_000;

impl Gate for MeetingGate {
    fn before(&self, _caller: u32, call: u32) {
        if self.inside.fetch_add(1, Ordering::SeqCst) == 1 {
            self.met.store(true, Ordering::SeqCst);
        }
        for _turn in 0..PATIENCE {
            if call > 0 || self.met.load(Ordering::SeqCst) {
                return;
            }
            spin_loop();
        }
    }

    fn after(&self, _caller: u32, _call: u32) {
        self.inside.fetch_sub(1, Ordering::SeqCst);
    }
}

#[test]
fn workers_overlap(rt: HostRuntime) -> Result<(), Fail> {
    let alloc = rt.alloc();
    let gate = MeetingGate {
        inside: AtomicU32::new(0),
        met: AtomicBool::new(false),
    };
    let equations = make_equations(alloc, 0, 2, 1, &[], &[])?;
    let (bases, passes) = basis_with(alloc, &equations, 2, 1)?;
    let mut inboxes = List::new(alloc);
    inboxes.push(make_inbox(alloc, &[([1, 1], 0x0262)])?)?;
    inboxes.push(make_inbox(alloc, &[([1, 2], 0xA762)])?)?;
    let mut workers = make_workers(alloc, &equations, &bases, passes, inboxes)?;
    receive_all(&rt, &gate, &bases, &equations, &mut workers);
    assert!(rt; gate.met.load(Ordering::SeqCst));
    Ok(())
}

/// Packets of two blocks, 0x6162 and 0x6300, or with a wrong payload.
const OFFERED: [([u16; 2], u16); 6] = [
    ([1, 0], 0x6163),
    ([1, 0], 0x6162),
    ([1, 0], 0x6163),
    ([1, 1], 0x0262),
    ([2, 2], 0x04C4),
    ([0, 1], 0x6301),
];

const REPLIES: [Reply; 6] = [
    Reply::FailedCheck { check: 0, front: 0 },
    Reply::Innovative { at: 0 },
    Reply::FailedCheck { check: 0, front: 1 },
    Reply::Innovative { at: 1 },
    Reply::NotInnovative { front: 2 },
    Reply::FailedCheck { check: 0, front: 2 },
];

#[test]
fn answers_by_check_first(rt: HostRuntime) -> Result<(), Fail> {
    let alloc = rt.alloc();
    let equations = make_equations(alloc, 1, 2, 1, &[1], &[0x6162, 0x6300])?;
    let (bases, mut passes) = basis_with(alloc, &equations, 1, 6)?;
    let pass = passes.pop().ok_or("a pass")?;
    let inbox = make_inbox(alloc, &OFFERED)?;
    let mut worker = make_worker(alloc, &equations, &bases, pass, inbox)?;
    receive_inbox(&NoGate, &bases, &equations, &mut worker);
    let pass = worker.passes.get(0).ok_or("a pass")?;
    assert_eq!(rt; pass.calls().len(), 6);
    for (place, call) in pass.calls().as_slice().iter().enumerate() {
        let reply = *REPLIES.get(place).ok_or("a reply")?;
        assert_eq!(rt;
            *call,
            Call {
                tag: place as u64,
                answer: Answer::Offered(reply)
            }
        );
    }
    Ok(())
}
