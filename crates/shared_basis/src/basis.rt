//! A basis, and how it is made with its passes.
ghost use Rattle.std.specs.Prelude.{◌≡◌, ◌<◌, ◌≤◌, ◌^◌, length, IfOk};
ghost use Rattle.linear_spec.specs.Passing.{AreEquations};
ghost use Rattle.table_rows.specs.Seats.{IsMadeWith};
ghost use Rattle.table_rows.specs.Views.{first_founder, new_caller};
ghost use Rattle.shared_basis.specs.Bases.{AreParameters, HasFounder, IsBasis};
ghost use Rattle.shared_basis.specs.Passes.{AreNewPasses, IsNewPass};

use crate::desk::Desk;
use crate::{Created, Params, Pass};
use gf16::Memory;
use linear_spec::{Equations, List, Packet, SymVec};
use std::alloc::Global;
use std::marker::Model;
use table_rows::{BasisTable, CallerSeat, FounderSeat, Opened, words_of_region};

/// The basis of one generation at one peer, which threads share by `&`.
#[derive(Drop)]
pub struct SharedBasis {
    pub(crate) table: BasisTable,
    pub(crate) params: Params,
    pub(crate) passes: u32,
}

impl Model for SharedBasis {
    ghost use Rattle.shared_basis.specs.Bases.{BasisValue, IsBasis};

    ghost Value = { BasisValue };

    ghost view = { λ b. record { table = b.table.table; parameters = b.table.parameters; peer = b.params.peer } };

    ghost invariant = { λ b. IsBasis b.table b.params b.passes };
}

impl SharedBasis {
    /// An empty basis for packets that these equations test, and its passes, numbered from 0, each with room for `room` calls.
    pub fn create(
        alloc: Global,
        params: &Params,
        equations: &Equations,
        passes: u32,
        room: u32,
    ) -> Result<Created, Memory>
        requires passes { (1 ≤ passes) × (passes ≤ 16) }
        requires shape { (1 ≤ params.now.k) × (params.now.k ≤ 64) × (params.now.k ≡ equations.now.k) × (params.now.s ≡ equations.now.s) }
        requires equations { AreEquations equations.now × (params.now.generation < equations.now.generations) }
        ensures parameters { IfOk result (λ c. IsMadeWith c.basis.parameters params.now.generation params.now.k params.now.s passes equations.now) }
        ensures peer { IfOk result (λ c. c.basis.peer ≡ params.now.peer) }
        ensures passes { IfOk result (λ c. AreNewPasses c.basis passes room c.passes.items) }
    {
        let Opened { table, founder } = BasisTable::make(
            alloc,
            params.generation,
            params.k,
            params.s,
            passes,
            equations,
        )?;
        let list = number_passes(alloc, params, &table, founder, passes, room)?;
        let basis = SharedBasis {
            table,
            params: *params,
            passes,
        };
        Ok(Created {
            basis,
            passes: list,
        })
    }

    /// What the basis was made with.
    pub fn params(&self) -> Params
        ensures peer { result.peer ≡ self.now.peer }
        ensures generation { result.generation ≡ self.now.parameters.generation }
        ensures k { result.k ≡ self.now.parameters.k }
        ensures s { result.s ≡ self.now.parameters.s }
    {
        self.params
    }

    /// A law: what the parameters of every basis are.
    pub fn is_basis(&self)
        ensures { AreParameters self.now.parameters }
    {
        let _ = &self.params;
    }
}

/// The passes of a table, numbered from 0. The last one takes the founder's seat along.
fn number_passes(
    alloc: Global,
    params: &Params,
    table: &BasisTable,
    mut founder: FounderSeat,
    passes: u32,
    room: u32,
) -> Result<List<Pass>, Memory>
    requires basis { IsBasis table.now params.now passes }
    requires founder { (founder.table ≡ table.now.table) × (founder.view ≡ first_founder table.now.parameters) }
    ensures { IfOk result (λ list. AreNewPasses (record { table = table.now.table; parameters = table.now.parameters; peer = params.now.peer }) passes room list.items) }
{
    let mut list = List::new(alloc);
    for number in 0..passes - 1 {
        let seat = table.number(&mut founder);
        list.push(new_pass(alloc, params, passes, seat, None, number, room)?)?;
    }
    let seat = table.number(&mut founder);
    let last = new_pass(alloc, params, passes, seat, Some(founder), passes - 1, room)?;
    list.push(last)?;
    Ok(list)
}

/// A pass that has seen nothing and made no call.
fn new_pass(
    alloc: Global,
    params: &Params,
    passes: u32,
    seat: CallerSeat,
    founder: Option<FounderSeat>,
    number: u32,
    room: u32,
) -> Result<Pass, Memory>
    requires basis { IsBasis (record { table = seat.table; parameters = seat.view.sight.parameters }) params.now passes }
    requires seat { seat.view ≡ new_caller seat.view.sight.parameters number }
    requires number { number < passes }
    requires founder { HasFounder seat.table seat.view.sight.parameters number founder }
    requires room { room < 2 ^ 32 }
    ensures { IfOk result (IsNewPass (record { table = seat.table; parameters = seat.view.sight.parameters; peer = params.now.peer }) number room) }
{
    basis_core::laws::histories();
    let mut known = List::new(alloc);
    known.reserve(usize::from(params.k))?;
    let width = words_of_region(params.k, params.s) as usize;
    let words = Vec::from_elem(alloc, 0u64, width)?;
    let left = zero_packet(alloc, params)?;
    let row = zero_packet(alloc, params)?;
    let mut calls = List::new(alloc);
    calls.reserve(room as usize)?;
    let mut offered = List::new(alloc);
    offered.reserve(room as usize)?;
    let desk = Desk {
        seat,
        draft: u64::from(number) + 1,
        known,
        words,
        left,
        row,
    };
    Ok(Pass {
        desk,
        founder,
        number,
        calls,
        offered,
        spare: room,
    })
}

/// A packet of zeros.
pub(crate) fn zero_packet(alloc: Global, params: &Params) -> Result<Packet, Memory>
    ensures lengths { IfOk result (λ packet. (length packet.coeffs ≡ params.now.k) × (length packet.payload ≡ params.now.s)) }
    ensures generation { IfOk result (λ packet. packet.generation ≡ params.now.generation) }
{
    Ok(Packet {
        generation: params.generation,
        coeffs: SymVec::zeros(alloc, usize::from(params.k))?,
        payload: SymVec::zeros(alloc, usize::from(params.s))?,
    })
}
