//! Packets, and what is done with one as a vector.
ghost use Rattle.std.specs.Prelude.{◌≡◌, ◌<◌, length, replicate, IfOk, MatchOption};
ghost use Rattle.gf16.specs.Sums.{plus_scaled, scaled};
ghost use Rattle.linear_spec.specs.Packet.{zeros_of};
ghost use Rattle.linear_spec.specs.Rows.{pivot_of};

use crate::SymVec;
use crate::reduction::place_of_first;
use gf16::{Gf, Kernel, Memory};
use std::alloc::Global;

/// A combination of the blocks of one generation: K coefficients, and the payload of S symbols that they combine to.
#[derive(Debug, Drop)]
pub struct Packet {
    pub generation: u16,
    pub coeffs: SymVec,
    pub payload: SymVec,
}

impl Packet {
    /// The packet of a generation whose K coefficients and S payload symbols are all 0.
    pub fn zeros(alloc: Global, k: usize, s: usize, generation: u16) -> Result<Packet, Memory>
        ensures { IfOk result (λ packet. packet ≡ zeros_of k s generation) }
    {
        let coeffs = SymVec::zeros(alloc, k)?;
        let payload = SymVec::zeros(alloc, s)?;
        Ok(Packet {
            generation,
            coeffs,
            payload,
        })
    }

    /// The packet of these coefficients and this payload.
    pub fn from_slices(
        alloc: Global,
        generation: u16,
        coeffs: &[u16],
        payload: &[u16],
    ) -> Result<Packet, Memory>
        ensures { IfOk result (λ packet. packet ≡ record { generation = generation; coeffs = coeffs.now; payload = payload.now }) }
    {
        let coeffs = SymVec::from_slice(alloc, coeffs)?;
        let payload = SymVec::from_slice(alloc, payload)?;
        Ok(Packet {
            generation,
            coeffs,
            payload,
        })
    }

    /// An equal packet.
    pub fn copy(&self, alloc: Global) -> Result<Packet, Memory>
        ensures { IfOk result (λ packet. packet ≡ self.now) }
    {
        let coeffs = self.coeffs.copy(alloc)?;
        let payload = self.payload.copy(alloc)?;
        Ok(Packet {
            generation: self.generation,
            coeffs,
            payload,
        })
    }

    /// Sets each symbol to 0.
    pub fn clear(&mut self)
        ensures coeffs { self.new.coeffs ≡ replicate (length self.old.coeffs) 0 }
        ensures payload { self.new.payload ≡ replicate (length self.old.payload) 0 }
        ensures generation { self.new.generation ≡ self.old.generation }
    {
        self.coeffs.as_mut_slice().fill(0);
        self.payload.as_mut_slice().fill(0);
    }

    /// Adds another packet of its lengths times a factor.
    pub fn add_scaled<A: Kernel>(&mut self, factor: Gf, other: &Packet)
        requires coeffs { length other.now.coeffs ≡ length self.old.coeffs }
        requires payload { length other.now.payload ≡ length self.old.payload }
        ensures coeffs { self.new.coeffs ≡ plus_scaled self.old.coeffs factor.0 other.now.coeffs }
        ensures payload { self.new.payload ≡ plus_scaled self.old.payload factor.0 other.now.payload }
        ensures generation { self.new.generation ≡ self.old.generation }
    {
        A::add_scaled(self.coeffs.as_mut_slice(), factor, other.coeffs.as_slice());
        A::add_scaled(
            self.payload.as_mut_slice(),
            factor,
            other.payload.as_slice(),
        );
    }

    /// Multiplies each symbol by a factor.
    pub fn scale<A: Kernel>(&mut self, factor: Gf)
        ensures coeffs { self.new.coeffs ≡ scaled factor.0 self.old.coeffs }
        ensures payload { self.new.payload ≡ scaled factor.0 self.old.payload }
        ensures generation { self.new.generation ≡ self.old.generation }
    {
        A::scale(self.coeffs.as_mut_slice(), factor);
        A::scale(self.payload.as_mut_slice(), factor);
    }

    /// The column of the first coefficient that is not 0, or `None` where all are.
    pub fn pivot(&self) -> Option<usize>
        ensures { MatchOption result (self.now.coeffs ≡ replicate (length self.now.coeffs) 0)
            (λ pivot. (pivot ≡ pivot_of self.now) × (pivot < length self.now.coeffs)) }
    {
        place_of_first(self.coeffs.as_slice())
    }
}
