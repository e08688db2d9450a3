//! The words of one basis, and the steps of seats at them. Each step loads, stores or exchanges one word.
ghost use Rattle.std.specs.Prelude.{ℕ, Some, ◌≡◌, ◌≢◌, ◌+◌, ◌*◌, ◌^◌, ◌<◌, ◌≤◌, [], ◌∷◌, length, slice_index, replicate, IfOk};
ghost use Rattle.table_rows.specs.declared.view.View.TheVariants.{Founder};
ghost use Rattle.linear_spec.specs.Passing.{AreEquations};
ghost use Rattle.table_rows.specs.Good.{IsNextRegion};
ghost use Rattle.table_rows.specs.Layout.{basis_length, call_in, caller_in, place_of};
ghost use Rattle.table_rows.specs.Rule.{TableRule};
ghost use Rattle.table_rows.specs.Seats.{IsCallerAt, IsExchanged, IsFounderAt, IsMadeWith, IsTable, TableValue};
ghost use Rattle.table_rows.specs.Steps.{IsSoundView, draft_words, after_empty, after_found, after_number, after_read, after_write};
ghost use Rattle.table_rows.specs.Views.{IsReadWhole, IsWhole, first_founder, new_caller, width_of, word_read, words_read};

use crate::exchange::Exchanged;
use crate::layout::{words_of_basis, words_of_region};
use crate::rule::{BasisRule, Exchange, Look, Number, Read, Write};
use crate::seats::{CallerSeat, FounderSeat};
use crate::view::{Parameters, View};
use atomic_table::Table;
use gf16::Memory;
use linear_spec::Equations;
use std::alloc::Global;
use std::marker::Model;
use std::snapshot::Snapshot;

/// The words of one basis, which threads share by `&`.
#[derive(Drop)]
pub struct BasisTable {
    pub(crate) table: Table<(), View, Parameters, BasisRule, Global>,
    k: u16,
    s: u16,
}

impl Model for BasisTable {
    ghost Value = { TableValue };

    ghost view = { λ t. record { table = t.table.shared.table_id; parameters = t.table.shared.key } };

    ghost invariant = { λ t. IsTable t.table.shared.table_id t.table.shared.key t.k t.s };
}

/// A table that was made, and the seat of its founder.
#[derive(Drop)]
pub struct Opened {
    pub table: BasisTable,
    pub founder: FounderSeat,
}

impl BasisTable {
    /// A table of words that are all 0, for so many callers, and its founder, who has numbered nobody.
    pub fn make(
        alloc: Global,
        generation: u16,
        k: u16,
        s: u16,
        passes: u32,
        equations: &Equations,
    ) -> Result<Opened, Memory>
        requires passes { (1 ≤ passes) × (passes ≤ 16) }
        requires shape { (1 ≤ k) × (k ≤ 64) × (k ≡ equations.now.k) × (s ≡ equations.now.s) }
        requires equations { AreEquations equations.now × (generation < equations.now.generations) }
        ensures parameters { IfOk result (λ o. IsMadeWith o.table.parameters generation k s passes equations.now) }
        ensures founder { IfOk result (λ o. (o.founder.table ≡ o.table.table) × (o.founder.view ≡ first_founder o.table.parameters)) }
        ensures rule { IfOk result (λ o. TableRule o.table.parameters (replicate (basis_length k s passes) 0) (Founder o.founder.view ∷ [])) }
    {
        let parameters = Parameters {
            generation,
            k,
            s,
            passes,
            equations: Snapshot::of(equations),
        };
        let count = words_of_basis(k, s, passes) as usize;
        let words = Vec::from_elem(alloc, 0u64, count)?;
        let (table, seat) = Table::<(), View, Parameters, BasisRule, Global>::of_words(
            alloc,
            words.as_slice(),
            &parameters,
        )?;
        Ok(Opened {
            table: BasisTable { table, k, s },
            founder: FounderSeat { seat },
        })
    }

    /// The place of a word of a region.
    fn place(&self, region: u64, place: u32) -> usize
        requires region { (1 ≤ region) × (region ≤ self.now.parameters.passes + self.now.parameters.k) }
        requires place { place < width_of self.now.parameters }
        ensures value { result ≡ place_of self.now.parameters.k self.now.parameters.s region place }
        ensures within { result < self.now.table.words }
    {
        let start = u64::from(self.k) + (region - 1) * words_of_region(self.k, self.s);
        (start + u64::from(place)) as usize
    }

    /// Loads word `n` of the directory, and answers it: the region there, or 0. It is a move.
    pub fn look(&self, seat: &mut CallerSeat, n: u16) -> u64
        requires seat { IsCallerAt self.now seat.old }
        requires next { (n ≡ length seat.old.view.sight.front.known) × (n < self.now.parameters.k) }
        ensures seat { IsCallerAt self.now seat.new }
        ensures found { result ≢ 0 → seat.new.view ≡ after_found seat.old.view result }
        ensures empty { result ≡ 0 → seat.new.view ≡ after_empty seat.old.view }
        ensures sound { IsSoundView seat.new.view }
    {
        let at = usize::from(n);
        self.table.shared.load::<Look>(&mut seat.seat, at)
    }

    /// Loads the word at a place of region `n` of the directory, and answers it: the same as ever. It is a read.
    pub fn read(&self, seat: &mut CallerSeat, n: u16, region: u64, place: u32) -> u64
        requires seat { IsCallerAt self.now seat.old }
        requires known { (n < length seat.old.view.sight.front.known) × (region ≡ slice_index seat.old.view.sight.front.known n) }
        requires place { place < width_of self.now.parameters }
        ensures seat { IsCallerAt self.now seat.new }
        ensures read { seat.new.view ≡ after_read seat.old.view n place result }
        ensures again { (word : ℕ) → word_read seat.old.view.sight.front.read n place ≡ Some word → result ≡ word }
        ensures sound { IsSoundView seat.new.view }
    {
        let own = &mut seat.seat;
        let at = self.place(region, place);
        self.table.shared.load::<Read>(own, at)
    }

    /// Stores a word at a place of the seat's own draft. It raises no count.
    pub fn write(&self, seat: &mut CallerSeat, draft: u64, place: u32, word: u64)
        requires seat { IsCallerAt self.now seat.old }
        requires draft { draft ≡ seat.old.view.draft }
        requires place { place < width_of self.now.parameters }
        ensures seat { IsCallerAt self.now seat.new }
        ensures written { seat.new.view ≡ after_write seat.old.view place word }
        ensures sound { IsSoundView seat.new.view }
    {
        let own = &mut seat.seat;
        let at = self.place(draft, place);
        self.table.shared.store::<Write>(own, at, word);
    }

    /// Exchanges word `n` of the directory from 0 to the seat's own draft, which has a whole record with the caller's number and
    /// this number of its call. Won where the word was 0: the record is the next one, and the seat has another draft. Lost
    /// where it was not: the region there is known. It is a move. The number of the call is for the contract alone.
    pub fn append(&self, seat: &mut CallerSeat, draft: u64, n: u16, call: u32) -> Exchanged
        requires seat { IsCallerAt self.now seat.old }
        requires draft { (draft ≡ seat.old.view.draft) × IsWhole seat.old.view.written }
        requires next { (n ≡ length seat.old.view.sight.front.known) × (n < self.now.parameters.k) }
        requires named { (caller_in (draft_words seat.old.view) ≡ seat.old.view.number) × (call_in (draft_words seat.old.view) ≡ call) }
        requires read { IsReadWhole seat.old.view.sight.front }
        requires good { IsNextRegion self.now.parameters (words_read seat.old.view.sight.front) (draft_words seat.old.view) }
        ensures seat { IsCallerAt self.now seat.new }
        ensures exchanged { IsExchanged seat.old.view seat.new.view result }
        ensures sound { IsSoundView seat.new.view }
    {
        let _ = call;
        let found = self
            .table
            .shared
            .compare_exchange::<Exchange>(&mut seat.seat, usize::from(n), 0, draft);
        if found == 0 {
            Exchanged::Won
        } else {
            Exchanged::Lost { region: found }
        }
    }

    /// Gives the next number to a new caller.
    pub fn number(&self, founder: &mut FounderSeat) -> CallerSeat
        requires seat { IsFounderAt self.now founder.old }
        requires left { length founder.old.view.joined < self.now.parameters.passes }
        ensures founder { IsFounderAt self.now founder.new × (founder.new.view ≡ after_number founder.old.view) }
        ensures caller { IsCallerAt self.now result × (result.view ≡ new_caller self.now.parameters (length founder.old.view.joined)) }
    {
        let seat = self.table.shared.split_seat::<Number>(&mut founder.seat);
        CallerSeat { seat }
    }
}
