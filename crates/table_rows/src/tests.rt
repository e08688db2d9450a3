//! Tables of a few words, by one caller and by two on threads of their own.
ghost use Rattle.std.specs.Prelude.{◌≡◌, ◌<◌, [], ◌∷◌, Some, length, map, slice_index, IfOk};
ghost use Rattle.linear_spec.specs.Passing.{AreEquations};
ghost use Rattle.table_rows.specs.Good.{IsNextRegion};
ghost use Rattle.table_rows.specs.Layout.{call_in, caller_in};
ghost use Rattle.table_rows.specs.Seats.{IsCallerAt, IsExchanged};
ghost use Rattle.table_rows.specs.Views.{first_founder, new_caller, width_of};
ghost use Rattle.table_rows.specs.Worked.{IsSmall, with_row};

use super::{BasisTable, CallerSeat, Exchanged, Opened, pack, unpack, words_of_basis};
use gf16::Memory;
use linear_spec::{Equations, List, SymVec, laws};
use std::alloc::Global;
use std::test::Fail;
use std::thread::join;

// Equations with no checks, for one generation.
fn no_checks(alloc: Global, k: u16, s: u16) -> Result<Equations, Memory>
    ensures equations { IfOk result AreEquations }
    ensures shape { IfOk result (λ e. (e.k ≡ k) × (e.s ≡ s) × (e.generations ≡ 1) × (e.checks ≡ 0)) }
{
    Ok(Equations {
        checks: 0,
        k,
        s,
        generations: 1,
        weights: SymVec::zeros(alloc, 0)?,
        sums: SymVec::zeros(alloc, 0)?,
    })
}

// A table for packets of two coefficients and one symbol, and for two callers.
fn small_table(alloc: Global) -> Result<Opened, Memory>
    ensures small { IfOk result (λ o. IsSmall o.table.parameters) }
    ensures founder { IfOk result (λ o. (o.founder.table ≡ o.table.table) × (o.founder.view ≡ first_founder o.table.parameters)) }
{
    let equations = no_checks(alloc, 2, 1)?;
    BasisTable::make(alloc, 0, 2, 1, 2, &equations)
}

// A record of the first caller, packet (1, 0 | 0x6162), and one of the second, packet (0, 1 | 0x6300). Each row is its packet.
const FIRST: [u64; 6] = [
    0,
    0,
    0x0001_0000_0000_0000,
    0x6162_0000_0000_0000,
    0x0001_0000_0000_0000,
    0x6162_0000_0000_0000,
];

const SECOND: [u64; 6] = [
    0x0000_0001_0000_0000,
    1,
    0x0000_0001_0000_0000,
    0x6300_0000_0000_0000,
    0x0000_0001_0000_0000,
    0x6300_0000_0000_0000,
];

// Writes the whole draft, word after word.
fn write_all(table: &BasisTable, seat: &mut CallerSeat, draft: u64, words: &[u64])
    requires seat { IsCallerAt table.now seat.old }
    requires draft { draft ≡ seat.old.view.draft }
    requires words { (length words.now ≡ width_of table.now.parameters) × (length words.now ≡ 6) }
    ensures seat { IsCallerAt table.now seat.new }
    ensures written { seat.new.view ≡ record seat.old.view { written = map Some words.now } }
{
    seat.is_caller();
    for place in 0..6 {
        table.write(seat, draft, place, words[place as usize]);
    }
}

// Reads a whole region that is known, word after word.
fn read_all(table: &BasisTable, seat: &mut CallerSeat, n: u16, region: u64, words: &mut [u64])
    requires seat { IsCallerAt table.now seat.old }
    requires known { (n < length seat.old.view.sight.front.known) × (region ≡ slice_index seat.old.view.sight.front.known n) }
    requires words { (length words.old ≡ width_of table.now.parameters) × (length words.old ≡ 6) }
    ensures seat { IsCallerAt table.now seat.new }
    ensures read { seat.new.view ≡ with_row seat.old.view n words.new }
{
    seat.is_caller();
    for place in 0..6 {
        words[place as usize] = table.read(seat, n, region, place);
    }
}

// Puts a record in, first or after the other one, and answers its position.
fn put_in(
    table: &BasisTable,
    mut seat: CallerSeat,
    draft: u64,
    mine: &[u64; 6],
    other: &[u64; 6],
) -> (u16, CallerSeat)
    requires seat { IsCallerAt table.now seat × IsSmall table.now.parameters }
    requires new { (seat.view ≡ new_caller table.now.parameters seat.view.number) × (draft ≡ seat.view.draft) }
    requires named { (caller_in mine.now ≡ seat.view.number) × (call_in mine.now ≡ 0) }
    requires first { IsNextRegion table.now.parameters [] mine.now }
    requires second { IsNextRegion table.now.parameters (other.now ∷ []) mine.now }
    ensures seat { IsCallerAt table.now result.1 × (result.1.view.number ≡ seat.view.number) }
{
    write_all(table, &mut seat, draft, mine);
    let Exchanged::Lost { region } = table.append(&mut seat, draft, 0, 0) else {
        return (0, seat);
    };
    let mut found = [0; 6];
    read_all(table, &mut seat, 0, region, &mut found);
    if found != *other {
        return (9, seat);
    }
    let Exchanged::Won = table.append(&mut seat, draft, 1, 0) else {
        return (9, seat);
    };
    (1, seat)
}

// Puts the first caller's record in.
fn put_first(table: &BasisTable, seat: CallerSeat) -> (u16, CallerSeat)
    requires seat { IsCallerAt table.now seat × IsSmall table.now.parameters }
    requires new { seat.view ≡ new_caller table.now.parameters 0 }
    ensures seat { IsCallerAt table.now result.1 × (result.1.view.number ≡ 0) }
{
    gf16::laws::field();
    laws::decision();
    laws::rows();
    put_in(table, seat, 1, &FIRST, &SECOND)
}

// Puts the second caller's record in.
fn put_second(table: &BasisTable, seat: CallerSeat) -> (u16, CallerSeat)
    requires seat { IsCallerAt table.now seat × IsSmall table.now.parameters }
    requires new { seat.view ≡ new_caller table.now.parameters 1 }
    ensures seat { IsCallerAt table.now result.1 × (result.1.view.number ≡ 1) }
{
    gf16::laws::field();
    laws::decision();
    laws::rows();
    put_in(table, seat, 2, &SECOND, &FIRST)
}

// Appends the first caller's record to a directory of which nothing is known.
fn append_first(table: &BasisTable, seat: &mut CallerSeat) -> Exchanged
    requires seat { IsCallerAt table.now seat.old × IsSmall table.now.parameters }
    requires new { seat.old.view ≡ new_caller table.now.parameters 0 }
    ensures seat { IsCallerAt table.now seat.new }
    ensures exchanged { IsExchanged (record seat.old.view { written = map Some FIRST }) seat.new.view result }
{
    gf16::laws::field();
    laws::decision();
    laws::rows();
    write_all(table, seat, 1, &FIRST);
    table.append(seat, 1, 0, 0)
}

#[test]
fn counts_the_words_of_a_basis(rt: HostRuntime) -> Result<(), Fail> {
    assert_eq!(rt; words_of_basis(2, 1, 1), 20);
    assert_eq!(rt; words_of_basis(64, 512, 8), 20_944);
    assert_eq!(rt; words_of_basis(32, 512, 4), 9_896);
    assert_eq!(rt; words_of_basis(64, 512, 4), 19_784);
    Ok(())
}

#[test]
fn packs_the_first_symbol_highest(rt: HostRuntime) -> Result<(), Fail> {
    assert_eq!(rt; pack(&[1, 2, 3, 4]), 0x0001_0002_0003_0004);
    assert_eq!(rt; pack(&[1]), 0x0001_0000_0000_0000);
    let mut symbols = [0u16; 3];
    unpack(0x0001_0002_0003_0004, &mut symbols);
    assert!(rt; symbols == [1, 2, 3]);
    Ok(())
}

#[test]
fn new_callers_find_nothing(rt: HostRuntime) -> Result<(), Fail> {
    let Opened { table, mut founder } = small_table(rt.alloc())?;
    let mut first = table.number(&mut founder);
    let mut second = table.number(&mut founder);
    table.write(&mut first, 1, 0, 7);
    assert_eq!(rt; table.look(&mut first, 0), 0);
    assert_eq!(rt; table.look(&mut second, 0), 0);
    Ok(())
}

#[test]
fn reads_back_what_it_appended(rt: HostRuntime) -> Result<(), Fail> {
    let Opened { table, mut founder } = small_table(rt.alloc())?;
    let mut seat = table.number(&mut founder);
    let Exchanged::Won = append_first(&table, &mut seat) else {
        return Err(Fail::from("the directory was empty"));
    };
    let mut words = [0; 6];
    read_all(&table, &mut seat, 0, 1, &mut words);
    assert!(rt; words == FIRST);
    assert_eq!(rt; table.look(&mut seat, 1), 0);
    Ok(())
}

#[test]
fn one_thread_wins_and_the_other_comes_next(rt: HostRuntime) -> Result<(), Fail> {
    let Opened { table, mut founder } = small_table(rt.alloc())?;
    let first = table.number(&mut founder);
    let second = table.number(&mut founder);
    let ((one, first), (two, second)) = join(
        &rt,
        || put_first(&table, first),
        || put_second(&table, second),
    );
    assert!(rt; (one == 0 && two == 1) || (one == 1 && two == 0));
    table.join_caller(&mut founder, first);
    table.join_caller(&mut founder, second);
    let mut words = List::new(rt.alloc());
    words.reserve(26)?;
    table.close(founder, &mut words);
    let words = words.as_slice();
    let directory = if one == 0 { [1, 2] } else { [2, 1] };
    assert!(rt; words.len() == 26 && words.starts_with(&directory));
    assert!(rt; &words[2..8] == FIRST.as_slice() && &words[8..14] == SECOND.as_slice());
    assert!(rt; words[14..].iter().all(|word| *word == 0));
    Ok(())
}

#[test]
fn a_note_tells_what_was_seen(rt: HostRuntime) -> Result<(), Fail> {
    let Opened { table, mut founder } = small_table(rt.alloc())?;
    let mut first = table.number(&mut founder);
    let mut second = table.number(&mut founder);
    let Exchanged::Won = append_first(&table, &mut first) else {
        return Err(Fail::from("the directory was empty"));
    };
    let note = table.note(&mut first);
    table.join_note(&mut second, note);
    assert_eq!(rt; table.read(&mut second, 0, 1, 3), FIRST[3]);
    assert_eq!(rt; table.look(&mut second, 1), 0);
    Ok(())
}
