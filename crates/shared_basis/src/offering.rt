//! One offer, with no lock: the packet is reduced by the rows that were seen, and what is left is drafted and put to one exchange
//! of the next directory word. Won, it is recorded; lost, the record that came first is learnt, and reduced by too, and so on.
ghost use Rattle.std.specs.Prelude.{◌≡◌, ◌<◌, ◌≤◌, ◌+◌, ◌*◌, length, ◌≢◌, ◌⊎◌, ◌^◌, ℕ, List, Some, [], ◌∷◌, map, replicate, slice_index, slice_index_or, vec_len, IfSome, IfNone};
ghost use Rattle.gf16.specs.Field.{product_of};
ghost use Rattle.gf16.specs.Sums.{scaled};
ghost use Rattle.linear_spec.specs.declared.reply.Reply.TheVariants.{Conflicting, NotInnovative};
ghost use Rattle.linear_spec.specs.Passing.{Passes};
ghost use Rattle.linear_spec.specs.declared.packet.Packet.{Packet as packet_type};
ghost use Rattle.linear_spec.specs.Cases.{IsFresh};
ghost use Rattle.linear_spec.specs.Packet.{vector_of};
ghost use Rattle.linear_spec.specs.Rows.{first_nonzero, pivot_of, remainder_of};
ghost use Rattle.basis_core.specs.Calls.{KeptOffer, point_of_reply};
ghost use Rattle.basis_core.specs.Legal.{IsAnsweredOver};
ghost use Rattle.table_rows.specs.Views.{width_of, IsReadWhole};
ghost use Rattle.table_rows.specs.Good.{IsNextRegion};
ghost use Rattle.table_rows.specs.Layout.{call_in, caller_in, region_for, region_length};
ghost use Rattle.table_rows.specs.Seats.{IsCallerAt, IsExchanged};
ghost use Rattle.table_rows.specs.Steps.{IsSoundView};
ghost use Rattle.shared_basis.specs.Passes.{HasCalled, IsAtFront, IsFor, IsPassOf, SeesOn};
ghost use Rattle.shared_basis.specs.Bases.{AreParameters};
ghost use Rattle.shared_basis.specs.Desks.{HasLengths, IsDesk, IsLeftOf};
ghost use Rattle.shared_basis.specs.Regions.{HasFound, HasReread, HasSettled, packets_seen, record_at, regions_seen, rows_seen};

use crate::columns::pivot_again;
use crate::desk::Desk;
use crate::looking::{learn, row_again};
use crate::{Pass, SharedBasis};
use basis_core::{Answer, Call};
use gf_lanes::Lanes;
use gf16::Gf;
use linear_spec::{Packet, Reply, inverse_of_first, is_zero, place_of_first, reduce_by};
use std::snapshot::Snapshot;
use table_rows::{BasisTable, CallerSeat, Exchanged, lay_out, take_row};

impl SharedBasis {
    /// Answers a packet that passes the equations: it is reduced by the rows that were seen, and recorded, or reduced by the
    /// next row that another caller recorded before. The reply is the one of the sequential basis at the front that it names.
    pub fn offer(&self, pass: &mut Pass, tag: u64, packet: &Packet) -> Reply
        requires pass { IsPassOf self.now pass.old }
        requires packet { IsFor self.now.parameters packet.now }
        requires passes { Passes self.now.parameters.equations.value packet.now }
        requires room { 0 < pass.old.spare }
        ensures prefix { SeesOn pass.old pass.new }
        ensures call { HasCalled pass.old pass.new (KeptOffer tag packet.now result) }
        ensures answered { IsAnsweredOver self.now.parameters.equations.value pass.new.seen (KeptOffer tag packet.now result) }
        ensures point { length pass.old.seen ≤ point_of_reply result }
        ensures front { IsAtFront pass.old pass.new packet.now result }
        ensures moves { pass.new.moves ≤ pass.old.moves + self.now.parameters.k + 1 }
        ensures reads { pass.new.reads ≤ pass.old.reads + length pass.new.seen * width_of self.now.parameters }
    {
        basis_core::laws::histories();
        basis_core::laws::steps();
        table_rows::laws::records();
        let call = pass.calls.len() as u32;
        let reply = settle(
            &self.table,
            self.passes,
            &mut pass.desk,
            pass.number,
            call,
            packet,
        );
        pass.calls.put(Call {
            tag,
            answer: Answer::Offered(reply),
        });
        pass.offered.put(Snapshot::of(packet));
        pass.spare -= 1;
        reply
    }
}

/// Answers a passing packet as the call of this number: it is reduced by all rows that were seen, and then appended, or reduced
/// by the row that came in between, until it is appended or refused.
fn settle(
    table: &BasisTable,
    passes: u32,
    desk: &mut Desk,
    number: u32,
    call: u32,
    packet: &Packet,
) -> Reply
    requires parameters { AreParameters table.now.parameters × (passes ≡ table.now.parameters.passes) }
    requires desk { IsDesk desk.old }
    requires seat { IsCallerAt table.now desk.old.seat }
    requires number { number ≡ desk.old.seat.view.number }
    requires packet { IsFor table.now.parameters packet.now × Passes table.now.parameters.equations.value packet.now }
    ensures desk { IsDesk desk.new }
    ensures seat { IsCallerAt table.now desk.new.seat }
    ensures view { (reads : ℕ) × (reads ≤ desk.old.seat.view.reads + length desk.old.known.items * width_of table.now.parameters)
        × HasSettled call packet.now (record desk.old.seat.view { reads = reads }) desk.new.seat.view result }
{
    copy_symbols(packet, &mut desk.left);
    reduce_by_seen(table, desk);
    race(table, passes, desk, number, call, packet)
}

/// Reduces what is left by the rows that were seen.
fn reduce_by_seen(table: &BasisTable, desk: &mut Desk)
    requires parameters { AreParameters table.now.parameters }
    requires desk { IsDesk desk.old }
    requires seat { IsCallerAt table.now desk.old.seat }
    ensures desk { IsDesk desk.new }
    ensures seat { IsCallerAt table.now desk.new.seat }
    ensures view { HasReread (length desk.old.known.items * width_of table.now.parameters) desk.old.seat.view desk.new.seat.view }
    ensures left { vector_of desk.new.left ≡ remainder_of (rows_seen desk.old.seat.view) (vector_of desk.old.left) }
    ensures known { desk.new.known ≡ desk.old.known }
{
    linear_spec::laws::reduction();
    for n in 0..desk.known.len() {
        reduce_by_row(table, desk, n);
    }
}

/// Reduces what is left by row `n`. Where nothing is left at its pivot, that alone is read of it.
fn reduce_by_row(table: &BasisTable, desk: &mut Desk, n: usize)
    requires parameters { AreParameters table.now.parameters }
    requires desk { IsDesk desk.old }
    requires seat { IsCallerAt table.now desk.old.seat }
    requires known { n < length desk.old.known.items }
    ensures desk { IsDesk desk.new }
    ensures seat { IsCallerAt table.now desk.new.seat }
    ensures view { HasReread (width_of table.now.parameters) desk.old.seat.view desk.new.seat.view }
    ensures left { (row : packet_type) → vector_of desk.new.left ≡ remainder_of (slice_index_or (rows_seen desk.old.seat.view) n row ∷ []) (vector_of desk.old.left) }
    ensures known { desk.new.known ≡ desk.old.known }
{
    gf16::laws::field();
    table_rows::laws::records();
    let pivot = pivot_again(table, desk, n);
    if desk.left.coeffs.as_slice()[pivot] == 0 {
        return;
    }
    row_again(table, desk, n);
    reduce_by::<Lanes<16>>(&mut desk.left, &desk.row);
}

/// Tries what is left until the packet is refused or recorded.
fn race(
    table: &BasisTable,
    passes: u32,
    desk: &mut Desk,
    number: u32,
    call: u32,
    packet: &Packet,
) -> Reply
    requires parameters { AreParameters table.now.parameters × (passes ≡ table.now.parameters.passes) }
    requires desk { IsDesk desk.old }
    requires seat { IsCallerAt table.now desk.old.seat }
    requires number { number ≡ desk.old.seat.view.number }
    requires packet { IsFor table.now.parameters packet.now × Passes table.now.parameters.equations.value packet.now }
    requires left { IsLeftOf packet.now desk.old }
    ensures desk { IsDesk desk.new }
    ensures seat { IsCallerAt table.now desk.new.seat }
    ensures view { HasSettled call packet.now desk.old.seat.view desk.new.seat.view result }
{
    loop {
        if let Some(reply) = attempt(table, passes, desk, number, call, packet) {
            return reply;
        }
    }
}

/// Tries what is left once. `None` where another caller's record came in between: then it is reduced by that row too.
fn attempt(
    table: &BasisTable,
    passes: u32,
    desk: &mut Desk,
    number: u32,
    call: u32,
    packet: &Packet,
) -> Option<Reply>
    requires parameters { AreParameters table.now.parameters × (passes ≡ table.now.parameters.passes) }
    requires desk { IsDesk desk.old }
    requires seat { IsCallerAt table.now desk.old.seat }
    requires number { number ≡ desk.old.seat.view.number }
    requires packet { IsFor table.now.parameters packet.now × Passes table.now.parameters.equations.value packet.now }
    requires left { IsLeftOf packet.now desk.old }
    ensures desk { IsDesk desk.new }
    ensures seat { IsCallerAt table.now desk.new.seat }
    ensures lost { IfNone result ((region : List ℕ) × HasFound (region ∷ []) desk.old.seat.view desk.new.seat.view × IsLeftOf packet.now desk.new) }
    ensures room { IfNone result (length desk.old.known.items < table.now.parameters.k) }
    ensures settled { IfSome result (HasSettled call packet.now desk.old.seat.view desk.new.seat.view) }
{
    linear_spec::laws::reduction();
    table_rows::laws::filling();
    table_rows::laws::records();
    let front = desk.known.len() as u16;
    let Some(inverse) = inverse_of_first(desk.left.coeffs.as_slice()) else {
        return Some(refuse(desk, packet, front));
    };
    draft_record(desk, number, call, packet, inverse);
    match publish(table, desk, front, call) {
        Exchanged::Won => {
            desk.known.put(desk.draft);
            desk.draft = u64::from(passes) + u64::from(front) + 1;
            Some(Reply::Innovative { at: front })
        }
        Exchanged::Lost { region } => {
            learn(table, desk, region);
            take_row(desk.words.as_slice(), &mut desk.row);
            reduce_by::<Lanes<16>>(&mut desk.left, &desk.row);
            None
        }
    }
}

/// Writes the desk's words into the draft, and tries to append it.
fn publish(table: &BasisTable, desk: &mut Desk, front: u16, call: u32) -> Exchanged
    requires seat { IsCallerAt table.now desk.old.seat }
    requires draft { desk.old.draft ≡ desk.old.seat.view.draft }
    requires words { vec_len desk.old.words ≡ width_of table.now.parameters }
    requires narrow { width_of table.now.parameters < 2 ^ 32 }
    requires front { (front ≡ length desk.old.seat.view.sight.front.known) × (front < table.now.parameters.k) }
    requires named { (caller_in desk.old.words.items ≡ desk.old.seat.view.number) × (call_in desk.old.words.items ≡ call) }
    requires read { IsReadWhole desk.old.seat.view.sight.front }
    requires good { IsNextRegion table.now.parameters (regions_seen desk.old.seat.view) desk.old.words.items }
    ensures seat { IsCallerAt table.now desk.new.seat }
    ensures view { IsExchanged (record desk.old.seat.view { written = map Some desk.old.words.items }) desk.new.seat.view result }
    ensures sound { IsSoundView desk.new.seat.view }
    ensures draft { desk.new.draft ≡ desk.old.draft }
    ensures known { desk.new.known ≡ desk.old.known }
    ensures words { desk.new.words ≡ desk.old.words }
    ensures left { desk.new.left ≡ desk.old.left }
    ensures row { desk.new.row ≡ desk.old.row }
{
    table_rows::laws::filling();
    write_draft(table, &mut desk.seat, desk.draft, desk.words.as_slice());
    // a draft survives a loss: no other seat writes its region before it is won, so the next try writes over it
    table.append(&mut desk.seat, desk.draft, front, call)
}

/// Writes all words of the seat's own draft.
fn write_draft(table: &BasisTable, seat: &mut CallerSeat, draft: u64, words: &[u64])
    requires seat { IsCallerAt table.now seat.old }
    requires draft { draft ≡ seat.old.view.draft }
    requires words { length words.now ≡ width_of table.now.parameters }
    requires narrow { width_of table.now.parameters < 2 ^ 32 }
    ensures seat { IsCallerAt table.now seat.new }
    ensures view { seat.new.view ≡ record seat.old.view { written = map Some words.now } }
    ensures sound { IsSoundView seat.new.view }
{
    table_rows::laws::filling();
    seat.is_caller();
    for place in 0..words.len() {
        table.write(seat, draft, place as u32, words[place]);
    }
}

/// Makes the words of the record that a packet gives of which a coefficient is left, with the inverse of the first such: it is
/// fresh, and its record may come next.
fn draft_record(desk: &mut Desk, number: u32, call: u32, packet: &Packet, inverse: Gf)
    requires desk { IsDesk desk.old }
    requires packet { IsFor desk.old.seat.view.sight.parameters packet.now × Passes desk.old.seat.view.sight.parameters.equations.value packet.now }
    requires left { IsLeftOf packet.now desk.old }
    requires inverse { product_of (slice_index desk.old.left.coeffs (first_nonzero desk.old.left.coeffs)) inverse.0 ≡ 1 }
    ensures fresh { IsFresh desk.old.seat.view.sight.parameters.k (packets_seen desk.old.seat.view) packet.now }
    ensures room { length desk.old.known.items < desk.old.seat.view.sight.parameters.k }
    ensures named { record_at desk.old.seat.view.sight.parameters desk.new.words.items ≡ record { caller = number; call = call; packet = packet.now } }
    ensures next { IsNextRegion desk.old.seat.view.sight.parameters (regions_seen desk.old.seat.view) desk.new.words.items }
    ensures row { HasLengths desk.old.seat.view.sight.parameters desk.new.row }
    ensures words { vec_len desk.new.words ≡ vec_len desk.old.words }
    ensures seat { desk.new.seat ≡ desk.old.seat }
    ensures draft { desk.new.draft ≡ desk.old.draft }
    ensures known { desk.new.known ≡ desk.old.known }
    ensures left { desk.new.left ≡ desk.old.left }
{
    gf16::laws::field();
    linear_spec::laws::decision();
    table_rows::laws::records();
    table_rows::laws::region();
    make_draft(desk, number, call, packet, inverse);
}

/// Makes the row of what is left, and the words of the record.
fn make_draft(desk: &mut Desk, number: u32, call: u32, packet: &Packet, inverse: Gf)
    requires lengths { (length desk.old.row.coeffs ≡ length packet.now.coeffs) × (length desk.old.row.payload ≡ length packet.now.payload)
        × (length desk.old.left.coeffs ≡ length packet.now.coeffs) × (length desk.old.left.payload ≡ length packet.now.payload) }
    requires words { vec_len desk.old.words ≡ region_length (length packet.now.coeffs) (length packet.now.payload) }
    requires inverse { product_of (slice_index desk.old.left.coeffs (first_nonzero desk.old.left.coeffs)) inverse.0 ≡ 1 }
    ensures coeffs { desk.new.row.coeffs ≡ scaled inverse.0 desk.old.left.coeffs }
    ensures payload { desk.new.row.payload ≡ scaled inverse.0 desk.old.left.payload }
    ensures words { desk.new.words.items ≡ region_for (record { caller = number; call = call; packet = packet.now }) (pivot_of desk.new.row) desk.new.row }
    ensures length { vec_len desk.new.words ≡ vec_len desk.old.words }
    ensures seat { desk.new.seat ≡ desk.old.seat }
    ensures draft { desk.new.draft ≡ desk.old.draft }
    ensures known { desk.new.known ≡ desk.old.known }
    ensures left { desk.new.left ≡ desk.old.left }
{
    gf16::laws::field();
    desk.left.coeffs.is_vector();
    copy_symbols(&desk.left, &mut desk.row);
    desk.row.scale::<Lanes<16>>(inverse);
    let pivot = match place_of_first(desk.row.coeffs.as_slice()) {
        Some(pivot) => pivot as u64,
        None => 0,
    };
    lay_out(
        number,
        call,
        packet,
        pivot,
        &desk.row,
        desk.words.as_mut_slice(),
    );
}

/// Copies coefficients and payload into a packet of the same lengths.
fn copy_symbols(packet: &Packet, out: &mut Packet)
    requires coeffs { length out.old.coeffs ≡ length packet.now.coeffs }
    requires payload { length out.old.payload ≡ length packet.now.payload }
    ensures coeffs { out.new.coeffs ≡ packet.now.coeffs }
    ensures payload { out.new.payload ≡ packet.now.payload }
{
    out.coeffs
        .as_mut_slice()
        .copy_from_slice(packet.coeffs.as_slice());
    out.payload
        .as_mut_slice()
        .copy_from_slice(packet.payload.as_slice());
}

/// The reply to a packet of which no coefficient is left.
fn refuse(desk: &Desk, packet: &Packet, front: u16) -> Reply
    requires desk { IsDesk desk.now }
    requires packet { IsFor desk.now.seat.view.sight.parameters packet.now × Passes desk.now.seat.view.sight.parameters.equations.value packet.now }
    requires left { IsLeftOf packet.now desk.now }
    requires none { desk.now.left.coeffs ≡ replicate (length desk.now.left.coeffs) 0 }
    requires front { front ≡ length desk.now.known.items }
    ensures { (call : ℕ) → HasSettled call packet.now desk.now.seat.view desk.now.seat.view result }
{
    gf16::laws::field();
    linear_spec::laws::decision();
    table_rows::laws::records();
    table_rows::laws::region();
    let _ = packet;
    refused(desk.left.payload.as_slice(), front)
}

/// The reply to a packet of which no coefficient is left, by what is left of its payload.
fn refused(payload: &[u16], front: u16) -> Reply
    ensures { ((payload.now ≡ replicate (length payload.now) 0) × (result ≡ NotInnovative front))
        ⊎ ((payload.now ≢ replicate (length payload.now) 0) × (result ≡ Conflicting front)) }
{
    if is_zero(payload) {
        Reply::NotInnovative { front }
    } else {
        Reply::Conflicting { front }
    }
}
