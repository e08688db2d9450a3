//! Whole frames judged, field by field.
ghost use Rattle.std.specs.Prelude.{◌≡◌, ◌≤◌, ◌==◌, ◌++◌, false, length, if◌then◌else◌, nat_le};
ghost use Rattle.std.specs.List.{list_any};
ghost use Rattle.packet_wire.specs.Judgements.{body_judgements, head_judgements, manifest_judgements, packet_judgements};
ghost use Rattle.packet_wire.specs.Judgements.{check_counts, fault_at, first_failure, fits_kind, is_kind, may_follow, may_have_version};
ghost use Rattle.packet_wire.specs.Judgements.{shape_in, ticket_judgements, unless_fault};
ghost use Rattle.packet_wire.specs.Judgements.{packet_len as packet_len_of, ticket_len as ticket_len_of};
ghost use Rattle.generation.specs.Shape.{generations_of};

use crate::fault::{FaultKind, WireFault};
use crate::fields::{number16_at, number32_at, number64_at};
use crate::frame::Kind;
use crate::phase::Phase;
use generation::Shape;

const VERSION: u8 = 1;

const MANIFEST_LEN: u32 = 44;

const MAX_CHECKS: u8 = 8;

const CHECK_COUNTS: [u8; 9] = [0, 1, 2, 3, 4, 5, 6, 7, 8];

const MAX_LEN: u64 = 16_777_216;

const MAX_K: u16 = 64;

const MAX_BLOCK: u16 = 4096;

const MAX_GENERATIONS: u64 = 256;

/// The fault that the last of these bytes of a frame brings, with its place in the frame.
#[tactic(auto, using(crate::proofs::Judging::head_then_body), unfolding(crate::specs::Judgements::judgements))]
pub(crate) fn judge(phase: &Phase, held: &[u8]) -> Option<WireFault>
    ensures { result ≡ fault_at phase.now held.now }
{
    match phase {
        Phase::Ended => unless(held.len() != 1, FaultKind::AfterEnd, 0),
        _ => judge_frame(phase, held),
    }
}

/// The judgements of the head, and then those of the body.
#[tactic(auto, using(crate::proofs::Judging::first_of_both, crate::proofs::Judging::second_of_both))]
fn judge_frame(phase: &Phase, held: &[u8]) -> Option<WireFault>
    ensures { result ≡ first_failure (head_judgements phase.now held.now ++ body_judgements phase.now held.now)
        (length held.now) }
{
    match judge_head(phase, held) {
        Some(fault) => Some(fault),
        None => judge_body(phase, held),
    }
}

/// No fault where a judgement passes, else this one.
fn unless(passes: bool, kind: FaultKind, offset: u64) -> Option<WireFault>
    ensures { result ≡ unless_fault passes kind offset }
{
    if passes {
        None
    } else {
        Some(WireFault { offset, kind })
    }
}

#[tactic(auto, unfolding(crate::specs::Judgements::head_judgements))]
fn judge_head(phase: &Phase, held: &[u8]) -> Option<WireFault>
    ensures { result ≡ first_failure (head_judgements phase.now held.now) (length held.now) }
{
    match held.len() {
        1 => unless(held[0] == b'A', FaultKind::BadMagic, 0),
        2 => unless(held[1] == b'V', FaultKind::BadMagic, 1),
        3 => unless(held[2] == b'L', FaultKind::BadMagic, 2),
        4 => unless(held[3] == b'N', FaultKind::BadMagic, 3),
        5 => unless(has_version(phase, held[4]), FaultKind::BadVersion, 4),
        6 => judge_kind(phase, held[5]),
        10 => unless(
            fits(phase, held[5], number32_at(held, 6)),
            FaultKind::BadLength,
            6,
        ),
        _ => None,
    }
}

/// The kind is one that there is, and then one that may follow.
fn judge_kind(phase: &Phase, kind: u8) -> Option<WireFault>
    ensures { result ≡ (if is_kind phase.now kind then unless_fault (may_follow phase.now kind) FaultKind.OutOfOrder 5
        else unless_fault false FaultKind.BadKind 5) }
{
    if !is_kind(phase, kind) {
        return unless(false, FaultKind::BadKind, 5);
    }
    unless(follows(phase, kind), FaultKind::OutOfOrder, 5)
}

/// Whether a frame may have this version.
fn has_version(phase: &Phase, version: u8) -> bool
    ensures { result ≡ may_have_version phase.now version }
{
    match phase {
        Phase::Ended => false,
        _ => version == VERSION,
    }
}

/// Whether there is this kind of frame.
fn is_kind(phase: &Phase, kind: u8) -> bool
    ensures { result ≡ is_kind phase.now kind }
{
    match phase {
        Phase::Ended => false,
        _ => (1..=4).contains(&kind),
    }
}

/// Whether a frame of this kind may follow.
fn follows(phase: &Phase, kind: u8) -> bool
    ensures { result ≡ may_follow phase.now kind }
{
    match phase {
        Phase::BeforeManifest => kind == Kind::Manifest as u8,
        Phase::BeforeTicket(_) => kind == Kind::Ticket as u8,
        Phase::BeforeEnd(_) => kind == Kind::Packet as u8 || kind == Kind::End as u8,
        Phase::Ended => false,
    }
}

/// Whether the body of a frame of this kind may have this length.
fn fits(phase: &Phase, kind: u8, len: u32) -> bool
    ensures { result ≡ fits_kind phase.now kind len }
{
    match phase {
        Phase::BeforeManifest => len == MANIFEST_LEN,
        Phase::BeforeTicket(shape) => fits_ticket(shape, len),
        Phase::BeforeEnd(shape) if kind == Kind::Packet as u8 => len == packet_len(shape),
        Phase::BeforeEnd(_) => len == 0,
        Phase::Ended => false,
    }
}

fn fits_ticket(shape: &Shape, len: u32) -> bool
    ensures { result ≡ list_any (λ checks. len == ticket_len_of shape.now checks) check_counts }
{
    CHECK_COUNTS
        .iter()
        .any(|checks| len == ticket_len(shape, *checks))
}

/// The length of the body of a ticket.
fn ticket_len(shape: &Shape, checks: u8) -> u32
    ensures { result ≡ ticket_len_of shape.now checks }
{
    let sums = u32::from(checks) * u32::from(shape.generations()) * u32::from(shape.k());
    33 + 2 * sums
}

/// The length of the body of a packet.
fn packet_len(shape: &Shape) -> u32
    ensures { result ≡ packet_len_of shape.now }
{
    2 + 2 * u32::from(shape.k()) + 2 * u32::from(shape.symbols_per_block())
}

#[tactic(auto, unfolding(crate::specs::Judgements::body_judgements))]
fn judge_body(phase: &Phase, held: &[u8]) -> Option<WireFault>
    ensures { result ≡ first_failure (body_judgements phase.now held.now) (length held.now) }
{
    match phase {
        Phase::BeforeManifest => judge_manifest(held),
        Phase::BeforeTicket(shape) => judge_ticket(shape, held),
        Phase::BeforeEnd(shape) => judge_packet(shape, held),
        Phase::Ended => None,
    }
}

fn judge_manifest(held: &[u8]) -> Option<WireFault>
    ensures { result ≡ first_failure (manifest_judgements held.now) (length held.now) }
{
    match held.len() {
        18 => unless(number64_at(held, 10) <= MAX_LEN, FaultKind::BadField, 10),
        20 => {
            let k = number16_at(held, 18);
            unless((1..=MAX_K).contains(&k), FaultKind::BadField, 18)
        }
        22 => {
            let block = number16_at(held, 20);
            let fits = block % 2 == 0 && (2..=MAX_BLOCK).contains(&block);
            unless(fits && has_few_generations(held), FaultKind::BadField, 20)
        }
        _ => None,
    }
}

/// Whether a file of these numbers has few enough generations.
#[tactic(auto, unfolding(generation::specs::Shape::generations_of))]
fn has_few_generations(held: &[u8]) -> bool
    requires { 22 ≤ length held.now }
    ensures { result ≡ nat_le (generations_of (shape_in held.now)) 256 }
{
    let unit = u64::from(number16_at(held, 18)) * u64::from(number16_at(held, 20));
    unit == 0 || number64_at(held, 10).div_ceil(unit) <= MAX_GENERATIONS
}

fn judge_ticket(shape: &Shape, held: &[u8]) -> Option<WireFault>
    ensures { result ≡ first_failure (ticket_judgements shape.now held.now) (length held.now) }
{
    if held.len() != 43 {
        return None;
    }
    let checks = held[42];
    let agrees = checks <= MAX_CHECKS && number32_at(held, 6) == ticket_len(shape, checks);
    unless(agrees, FaultKind::BadField, 42)
}

fn judge_packet(shape: &Shape, held: &[u8]) -> Option<WireFault>
    ensures { result ≡ first_failure (packet_judgements shape.now held.now) (length held.now) }
{
    if held.len() != 12 {
        return None;
    }
    let generation = number16_at(held, 10);
    unless(generation < shape.generations(), FaultKind::BadField, 10)
}
