//! How many exchanges the passes of a shared basis tried, and how many they lost.
//!
//! An exchange that a pass wins appends the pass's own record, and one that it loses shows it the record of another caller that
//! came in between. A pass that only offers packets, all of which pass the checks, sees records in no other way. So it tried as
//! many exchanges as it has seen records, and won as many as its calls were answered `Innovative`.
ghost use Rattle.std.specs.Prelude.{◌≡◌, ◌+◌, ◌*◌, ◌≤◌, length};
ghost use Rattle.std.specs.List.{All};
ghost use Rattle.basis_core.specs.Entries.{count_of_answer};
ghost use Rattle.benchmarks.specs.Exchanges.{HasOnePass, seen_by_all, wins_in, wins_of, wins_of_all};

use basis_core::{Answer, Call};
use linear_spec::{Equations, List, Reply};
use receive_pass::Worker;
use shared_basis::Pass;

/// Exchanges of passes.
#[derive(Clone, Copy, Debug, PartialEq, Eq)]
pub struct Exchanges {
    pub tried: u64,
    /// Those of the tried ones that another caller's record came before.
    pub lost: u64,
}

/// The exchanges of workers that have one pass each. Their passes have offered packets, and done nothing else.
#[tactic(auto, using(crate::proofs::ExchangeLemmas::one_sum, std::proofs::lemmas::List::Sums::sum_by_more))]
pub fn exchanges_of(equations: &Equations, workers: &List<Worker>) -> Exchanges
    requires workers { All (HasOnePass equations.now) workers.now.items }
    requires few { length workers.now.items ≤ 16 }
    ensures tried { result.tried ≡ seen_by_all workers.now.items }
    ensures lost { result.lost + wins_of_all workers.now.items ≡ result.tried }
    ensures few { result.tried ≤ length workers.now.items * equations.now.k }
{
    let _ = equations;
    let mut tried = 0;
    let mut won = 0;
    for worker in workers.as_slice() {
        let pass = &worker.passes.as_slice()[0];
        pass.has_seen();
        tried += u64::from(pass.seen());
        won += wins_of(pass);
    }
    Exchanges {
        tried,
        lost: tried - won,
    }
}

/// How many exchanges a pass won.
fn wins_of(pass: &Pass) -> u64
    ensures wins { result ≡ wins_of pass.now }
    ensures seen { result ≤ length pass.now.seen }
{
    pass.is_legal();
    wins_in(pass.calls().as_slice())
}

/// How many of the calls recorded their packet.
#[tactic(auto, using(std::proofs::lemmas::List::Sums::sum_by_more))]
fn wins_in(calls: &[Call]) -> u64
    ensures { result ≡ wins_in calls.now }
{
    let mut wins = 0;
    for call in calls {
        wins += wins_told(call.answer);
    }
    wins
}

/// 1 where the answer says that the packet was recorded, and else 0.
fn wins_told(answer: Answer) -> u64
    ensures count { result ≡ count_of_answer answer }
    ensures one { result ≤ 1 }
{
    match answer {
        Answer::Offered(Reply::Innovative { .. }) => 1,
        _ => 0,
    }
}
