//! Looks: the directory read on, and each region that is found read whole. And regions and rows that are read again.
ghost use Rattle.std.specs.Prelude.{◌≡◌, ◌<◌, ◌≤◌, ◌+◌, ◌^◌, [], ◌∷◌, ◌++◌, length, slice_index_or, vec_len, ◌*◌, ℕ, List, Some, drop, map, slice_index};
ghost use Rattle.std.specs.Bool.{OnTrue, OnFalse};
ghost use Rattle.table_rows.specs.Layout.{row_in, words_for};
ghost use Rattle.table_rows.specs.Seats.{IsCallerAt};
ghost use Rattle.table_rows.specs.Steps.{IsSoundView, after_empty, after_reads};
ghost use Rattle.table_rows.specs.Views.{width_of, IsReadWhole, words_read};
ghost use Rattle.shared_basis.specs.Desks.{IsDesk};
ghost use Rattle.shared_basis.specs.Regions.{HasFound, HasLookedOn, regions_seen};
ghost use Rattle.shared_basis.specs.Passes.{HasLooked, HasNotCalled, IsPassOf, SeesOn};

use crate::desk::Desk;
use crate::{Pass, SharedBasis};
use table_rows::{BasisTable, CallerSeat, take_symbols};

impl SharedBasis {
    /// Looks at the directory until a word is empty or all K records were seen, and answers how many were seen.
    pub fn look(&self, pass: &mut Pass) -> u16
        requires pass { IsPassOf self.now pass.old }
        ensures seen { result ≡ length pass.new.seen }
        ensures prefix { SeesOn pass.old pass.new }
        ensures calls { HasNotCalled pass.old pass.new }
        ensures looked { HasLooked pass.old pass.new }
        ensures moves { pass.new.moves ≤ pass.old.moves + self.now.parameters.k + 1 }
        ensures reads { pass.new.reads ≤ pass.old.reads + length pass.new.seen * width_of self.now.parameters }
    {
        basis_core::laws::histories();
        basis_core::laws::steps();
        table_rows::laws::records();
        look_on(&self.table, &mut pass.desk, self.params.k);
        pass.desk.known.len() as u16
    }
}

/// Takes in a region that a step has just found, and reads it: its words are the desk's afterwards.
pub(crate) fn learn(table: &BasisTable, desk: &mut Desk, region: u64)
    requires seat { IsCallerAt table.now desk.old.seat }
    requires known { desk.old.seat.view.sight.front.known ≡ desk.old.known.items ++ region ∷ [] }
    requires few { length desk.old.known.items < 64 }
    requires room { 0 < desk.old.known.spare }
    requires words { vec_len desk.old.words ≡ width_of table.now.parameters }
    requires narrow { width_of table.now.parameters < 2 ^ 32 }
    ensures seat { IsCallerAt table.now desk.new.seat }
    ensures view { desk.new.seat.view ≡ after_reads desk.old.seat.view (length desk.old.known.items) desk.new.words.items }
    ensures sound { IsSoundView desk.new.seat.view }
    ensures known { desk.new.known.items ≡ desk.old.known.items ++ region ∷ [] }
    ensures room { desk.new.known.spare + 1 ≡ desk.old.known.spare }
    ensures words { vec_len desk.new.words ≡ vec_len desk.old.words }
    ensures draft { desk.new.draft ≡ desk.old.draft }
    ensures left { desk.new.left ≡ desk.old.left }
    ensures row { desk.new.row ≡ desk.old.row }
{
    let n = desk.known.len() as u16;
    desk.known.put(region);
    read_region(table, &mut desk.seat, n, region, desk.words.as_mut_slice());
}

/// Looks at the word behind those that are known, and answers whether there was a region. That is read then, and its words are
/// the desk's.
fn look_once(table: &BasisTable, desk: &mut Desk) -> bool
    requires desk { IsDesk desk.old }
    requires seat { IsCallerAt table.now desk.old.seat }
    requires more { length desk.old.known.items < table.now.parameters.k }
    requires few { table.now.parameters.k ≤ 64 }
    ensures desk { IsDesk desk.new }
    ensures seat { IsCallerAt table.now desk.new.seat }
    ensures found { OnTrue result (HasFound (desk.new.words.items ∷ []) desk.old.seat.view desk.new.seat.view) }
    ensures empty { OnFalse result (desk.new.seat.view ≡ after_empty desk.old.seat.view) }
    ensures left { desk.new.left ≡ desk.old.left }
{
    table_rows::laws::filling();
    let n = desk.known.len() as u16;
    let region = table.look(&mut desk.seat, n);
    if region == 0 {
        return false;
    }
    learn(table, desk, region);
    true
}

/// Looks on until a word is empty, or all K records are known.
pub(crate) fn look_on(table: &BasisTable, desk: &mut Desk, k: u16)
    requires desk { IsDesk desk.old }
    requires seat { IsCallerAt table.now desk.old.seat }
    requires k { (k ≡ table.now.parameters.k) × (k ≤ 64) }
    ensures desk { IsDesk desk.new }
    ensures seat { IsCallerAt table.now desk.new.seat }
    ensures looked { HasLookedOn k desk.old.seat.view desk.new.seat.view }
{
    while desk.known.len() < usize::from(k) {
        if !look_once(table, desk) {
            return;
        }
    }
}

/// Reads a region again that was read before: its words are the desk's afterwards.
pub(crate) fn read_again(table: &BasisTable, desk: &mut Desk, n: usize)
    requires desk { IsDesk desk.old }
    requires seat { IsCallerAt table.now desk.old.seat }
    requires known { n < length desk.old.known.items }
    requires few { table.now.parameters.k ≤ 64 }
    ensures desk { IsDesk desk.new }
    ensures seat { IsCallerAt table.now desk.new.seat }
    ensures view { desk.new.seat.view ≡ record desk.old.seat.view { reads = desk.old.seat.view.reads + width_of table.now.parameters } }
    ensures words { desk.new.words.items ≡ slice_index_or (regions_seen desk.old.seat.view) n [] }
    ensures known { desk.new.known ≡ desk.old.known }
    ensures left { desk.new.left ≡ desk.old.left }
    ensures row { desk.new.row ≡ desk.old.row }
{
    table_rows::laws::filling();
    let region = desk.known.as_slice()[n];
    read_region(
        table,
        &mut desk.seat,
        n as u16,
        region,
        desk.words.as_mut_slice(),
    );
}

/// Reads the row of a region again that was read before: it is the desk's row afterwards, but for the generation, which stays.
pub(crate) fn row_again(table: &BasisTable, desk: &mut Desk, n: usize)
    requires desk { IsDesk desk.old }
    requires seat { IsCallerAt table.now desk.old.seat }
    requires known { n < length desk.old.known.items }
    requires few { table.now.parameters.k ≤ 64 }
    ensures desk { IsDesk desk.new }
    ensures seat { IsCallerAt table.now desk.new.seat }
    ensures view { desk.new.seat.view ≡ record desk.old.seat.view {
      reads = desk.old.seat.view.reads + (words_for table.now.parameters.k + words_for table.now.parameters.s);
    } }
    ensures row { desk.new.row ≡ row_in desk.old.row.generation (length desk.old.row.coeffs) (length desk.old.row.payload)
        (slice_index_or (regions_seen desk.old.seat.view) n []) }
    ensures known { desk.new.known ≡ desk.old.known }
    ensures left { desk.new.left ≡ desk.old.left }
{
    let region = desk.known.as_slice()[n];
    // behind the first two words, packet and row take as many words each
    let start = desk.words.len() / 2 + 1;
    let words = &mut desk.words.as_mut_slice()[start..];
    read_rest(table, &mut desk.seat, n as u16, region, start as u32, words);
    take_symbols(words, &mut desk.row);
}

/// Reads all words of a region that is known.
fn read_region(table: &BasisTable, seat: &mut CallerSeat, n: u16, region: u64, words: &mut [u64])
    requires seat { IsCallerAt table.now seat.old }
    requires known { (n < length seat.old.view.sight.front.known) × (region ≡ slice_index seat.old.view.sight.front.known n) }
    requires words { length words.old ≡ width_of table.now.parameters }
    requires narrow { width_of table.now.parameters < 2 ^ 32 }
    ensures seat { IsCallerAt table.now seat.new }
    ensures view { seat.new.view ≡ after_reads seat.old.view n words.new }
    ensures again { (before : List ℕ) → slice_index_or seat.old.view.sight.front.read n [] ≡ map Some before → words.new ≡ before }
    ensures sound { IsSoundView seat.new.view }
{
    table_rows::laws::filling();
    seat.is_caller();
    for place in 0..words.len() {
        words[place] = table.read(seat, n, region, place as u32);
    }
}

/// Reads the words of a region from a place on, where all known regions were read before.
fn read_rest(
    table: &BasisTable,
    seat: &mut CallerSeat,
    n: u16,
    region: u64,
    from: u32,
    words: &mut [u64],
)
    requires seat { IsCallerAt table.now seat.old }
    requires known { (n < length seat.old.view.sight.front.known) × (region ≡ slice_index seat.old.view.sight.front.known n) }
    requires words { from + length words.old ≡ width_of table.now.parameters }
    requires narrow { width_of table.now.parameters < 2 ^ 32 }
    requires whole { IsReadWhole seat.old.view.sight.front }
    requires sound { IsSoundView seat.old.view }
    ensures seat { IsCallerAt table.now seat.new }
    ensures view { seat.new.view ≡ record seat.old.view { reads = seat.old.view.reads + length words.old } }
    ensures words { words.new ≡ drop from (slice_index_or (words_read seat.old.view.sight.front) n []) }
    ensures sound { IsSoundView seat.new.view }
{
    table_rows::laws::reading();
    seat.is_caller();
    for place in 0..words.len() {
        words[place] = table.read(seat, n, region, from + place as u32);
    }
}
