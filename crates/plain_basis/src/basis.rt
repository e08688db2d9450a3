//! The basis itself: what it records, and how it answers.
ghost use Rattle.std.specs.Prelude.{◌≡◌, ◌++◌, [], length, IfOk, OnErr};
ghost use Rattle.std.specs.List.{All};
ghost use Rattle.linear_spec.specs.Packet.{Fits, coefficients_of};
ghost use Rattle.linear_spec.specs.SequentialBasis.{IsCaseReply, recorded};
ghost use Rattle.linear_spec.specs.Solving.{Solves, IsOnlySolution};
ghost use Rattle.linear_spec.specs.Span.{HasRank};
ghost use Rattle.plain_basis.specs.Columns.{TellMissingColumns};

use crate::missing::mark_missing;
use crate::solve::solve_rows;
use gf16::{Memory, Plain};
use linear_spec::{Case, List, Packet, Reply, SymVec, examine};
use std::alloc::Global;
use std::marker::Model;

/// The basis of one generation: packets of K coefficients and S payload symbols, each of which told something new when it
/// was recorded. Beside each it keeps a row, which a packet is reduced by. No packet's generation is looked at.
#[derive(Debug, Drop)]
pub struct PlainBasis {
    alloc: Global,
    k: u16,
    s: u16,
    packets: List<Packet>,
    rows: List<Packet>,
}

impl Model for PlainBasis {
    ghost use Rattle.plain_basis.specs.Basis.{Basis, IsSound};

    ghost Value = { Basis };

    ghost view = { λ b. record { k = b.k; s = b.s; packets = b.packets.items } };

    ghost invariant = { λ b. IsSound b.k b.s b.packets.items b.rows.items };
}

impl PlainBasis {
    /// The empty basis, for packets of K coefficients and S payload symbols. It takes no memory until the first offer.
    pub fn new(alloc: Global, k: u16, s: u16) -> PlainBasis
        ensures { result ≡ record { k = k; s = s; packets = [] } }
    {
        linear_spec::laws::rows();
        PlainBasis {
            alloc,
            k,
            s,
            packets: List::new(alloc),
            rows: List::new(alloc),
        }
    }

    /// Answers the packet by its case, and records it where it tells something new. On want of memory nothing changes.
    pub fn offer(&mut self, packet: Packet) -> Result<Reply, Memory>
        requires { Fits self.old.k self.old.s packet }
        ensures reply { IfOk result (IsCaseReply self.old.k self.old.s self.old.packets packet) }
        ensures kept { IfOk result (λ reply. self.new.packets ≡ self.old.packets ++ recorded packet reply) }
        ensures same_shape { (self.new.k ≡ self.old.k) × (self.new.s ≡ self.old.s) }
        ensures err { OnErr result (self.new ≡ self.old) }
    {
        linear_spec::laws::rows();
        linear_spec::laws::decision();
        self.packets.reserve(1)?;
        self.rows.reserve(1)?;
        let case = examine::<Plain>(self.alloc, &self.rows, &packet)?;
        let front = self.packets.len() as u16;
        match case {
            Case::Fresh(row) => {
                self.packets.put(packet);
                self.rows.put(row);
                Ok(Reply::Innovative { at: front })
            }
            Case::Within => Ok(Reply::NotInnovative { front }),
            Case::Conflicting => Ok(Reply::Conflicting { front }),
        }
    }

    /// The number of records, which is the rank of their coefficients.
    pub fn rank(&self) -> u16
        ensures value { result ≡ length self.now.packets }
        ensures rank { HasRank self.now.k (coefficients_of self.now.packets) result }
    {
        linear_spec::laws::rows();
        self.packets.len() as u16
    }

    /// The packets that were recorded, in order.
    pub fn records(&self) -> &List<Packet>
        ensures items { result.now.items ≡ self.now.packets }
        ensures fit { All (Fits self.now.k self.now.s) self.now.packets }
    {
        &self.packets
    }

    /// Writes for each of the K columns whether it is missing: true exactly where no row has its pivot. Takes no memory.
    pub fn missing_columns(&self, out: &mut [bool])
        requires { length out.old ≡ self.now.k }
        ensures columns { TellMissingColumns self.now.k self.now.s self.now.packets out.new }
    {
        mark_missing(&self.rows, out);
    }

    /// The blocks that solve the records, K of S symbols: there are no others. They take memory of the basis's allocator.
    pub fn solve(&self) -> Result<List<SymVec>, Memory>
        requires full { length self.now.packets ≡ self.now.k }
        ensures solves { IfOk result (λ blocks. Solves self.now.k self.now.s self.now.packets blocks.items) }
        ensures only { IfOk result (λ blocks. IsOnlySolution self.now.k self.now.s self.now.packets blocks.items) }
    {
        linear_spec::laws::solving();
        let k = self.k as usize;
        let s = self.s as usize;
        solve_rows(self.alloc, k, s, &self.rows)
    }
}
