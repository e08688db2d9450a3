//! The decoder of a stream, fed in pieces of any length.
ghost use Rattle.std.specs.Prelude.{◌≡◌, ◌+◌, ◌^◌, ◌<◌, ◌≤◌, ◌↔◌, ℕ, List as list, [], ◌∷◌, length, OnOk, IsOk, IsErrOf, vec_len};
ghost use Rattle.packet_wire.specs.Faults.{IsPartOfFrame, NothingFails};
ghost use Rattle.packet_wire.specs.declared.fault.WireFault as faults;
ghost use Rattle.packet_wire.specs.declared.frame.Frame as declared;

use crate::admit::{Admitted, admit};
use crate::fault::{FaultKind, FeedError, WireFault};
use crate::frame::Frame;
use crate::make::next_phase;
use crate::phase::Phase;
use linear_spec::List;
use linear_spec::laws::bytes_spell_symbols;
use std::alloc::Global;

/// Reads a stream in pieces of any lengths, and gives each frame as soon as it is whole.
///
/// It holds back the bytes of one frame at most.
#[derive(Debug, Drop)]
pub struct Decoder {
    alloc: Global,
    phase: Phase,
    /// The place of the first byte that is held.
    start: u64,
    /// The bytes of a frame that is not whole.
    held: Vec<u8>,
    failure: Option<FeedError>,
    ghost counted: { start + vec_len held < 2 ^ 64 },
    ghost clean: { NothingFails phase held.items },
    ghost part: { IsPartOfFrame held.items },
}

impl Decoder {
    ghost use Rattle.packet_wire.specs.Stream.{Contents, IsStream};
    ghost use Rattle.packet_wire.specs.Faults.{IsFirstFault};
    ghost use Rattle.packet_wire.specs.Decoding.{AreStreamFrames, FailsIn, GivesFront, GoesOn, HasFailed, HasGrown, IfFault};
    ghost use Rattle.packet_wire.specs.Decoding.{IsAfter, IsFed, IsOutOfMemory, NothingFailsIn, ReadsOn, UnlessMemory};
    ghost use Rattle.packet_wire.specs.Decoding.{answer_of, joined, taken_by};

    /// A decoder that was fed nothing. It takes no memory.
    pub fn new(alloc: Global) -> Decoder
        ensures after { IsAfter result [] [] }
        ensures taken { taken_by result ≡ 0 }
    {
        Decoder {
            alloc,
            phase: Phase::BeforeManifest,
            start: 0,
            held: Vec::new(alloc),
            failure: None,
        }
    }

    /// Takes the next piece of the stream, and appends the frames that became whole. Ok exactly where nothing fails in the
    /// bytes so far.
    pub fn feed(&mut self, piece: &[u8], frames: &mut List<Frame>) -> Result<(), FeedError>
        requires { taken_by self.old + length piece.now < 2 ^ 64 }

        // It goes on from whatever bytes it was fed and frames it gave. The frames before a fault are appended too.
        ensures appended { HasGrown frames.old.items frames.new.items }
        ensures after { UnlessMemory result (GoesOn self.old piece.now self.new
            frames.old.items frames.new.items) }
        ensures ok { OnOk result (ReadsOn self.old piece.now frames.old.items frames.new.items) }
        ensures ok_only { OnOk result (NothingFailsIn self.old piece.now) }
        ensures fault { IfFault result (FailsIn self.old piece.now frames.old.items frames.new.items) }
        ensures taken { taken_by self.new ≤ taken_by self.old + length piece.now }

        // After a fault it stays there.
        ensures same_fault { (fault : faults.WireFault) → HasFailed self.old fault
            → IsErrOf result (FeedError.Fault fault) × (frames.new.items ≡ frames.old.items) }

        // For want of memory it stops for good, perhaps with some of the frames appended.
        ensures memory { IsErrOf result FeedError.Memory → IsOutOfMemory self.new }
        ensures front { GivesFront self.old piece.now frames.old.items frames.new.items }
        ensures stopped { IsOutOfMemory self.old
            → IsErrOf result FeedError.Memory × (frames.new.items ≡ frames.old.items) }
    {
        bytes_spell_symbols();
        self.take_bytes(piece, frames);
        self.answer()
    }

    /// Takes pieces one after another. What it gives and answers is what it would for all their bytes in one piece, so it
    /// does not depend on how they are cut.
    pub fn feed_all(&mut self, pieces: &[&[u8]], frames: &mut List<Frame>) -> Result<(), FeedError>
        requires { taken_by self.old + length (joined pieces.now) < 2 ^ 64 }

        // It goes on from whatever bytes it was fed and frames it gave. The frames before a fault are appended too.
        ensures appended { HasGrown frames.old.items frames.new.items }
        ensures after { UnlessMemory result (GoesOn self.old (joined pieces.now) self.new
            frames.old.items frames.new.items) }
        ensures ok { OnOk result (ReadsOn self.old (joined pieces.now) frames.old.items frames.new.items) }
        ensures ok_only { OnOk result (NothingFailsIn self.old (joined pieces.now)) }
        ensures fault { IfFault result (FailsIn self.old (joined pieces.now) frames.old.items frames.new.items) }
        ensures taken { taken_by self.new ≤ taken_by self.old + length (joined pieces.now) }

        // After a fault it stays there.
        ensures same_fault { (fault : faults.WireFault) → HasFailed self.old fault
            → IsErrOf result (FeedError.Fault fault) × (frames.new.items ≡ frames.old.items) }

        // For want of memory it stops for good, perhaps with some of the frames appended.
        ensures memory { IsErrOf result FeedError.Memory → IsOutOfMemory self.new }
        ensures front { GivesFront self.old (joined pieces.now) frames.old.items frames.new.items }
        ensures stopped { IsOutOfMemory self.old
            → IsErrOf result FeedError.Memory × (frames.new.items ≡ frames.old.items) }
    {
        bytes_spell_symbols();
        self.take_pieces(pieces, frames);
        self.answer()
    }

    /// Whether all bytes fed so far are a whole stream, and their first fault where they are none.
    pub fn finish(&self) -> Result<(), FeedError>
        ensures ok { OnOk result ((fed : list ℕ) (given : list declared.Frame)
            → IsAfter self.now fed given → AreStreamFrames fed given) }
        ensures stream { (fed : list ℕ) (given : list declared.Frame) (contents : Contents)
            → IsAfter self.now fed given → IsStream fed contents → IsOk result }
        ensures fault { (fed : list ℕ) (given : list declared.Frame) (fault : faults.WireFault)
            → IsAfter self.now fed given → (IsErrOf result (FeedError.Fault fault) ↔ IsFirstFault fed fault) }
        ensures memory { IsErrOf result FeedError.Memory ↔ IsOutOfMemory self.now }
    {
        bytes_spell_symbols();
        match self.failure {
            Some(error) => return Err(error),
            None => {}
        }
        match self.phase {
            Phase::Ended => Ok(()),
            _ => {
                let offset = self.start + self.held.len() as u64;
                let kind = FaultKind::Truncated;
                Err(FeedError::Fault(WireFault { offset, kind }))
            }
        }
    }

    /// Takes the pieces one by one.
    fn take_pieces(&mut self, pieces: &[&[u8]], frames: &mut List<Frame>)
        requires { taken_by self.old + length (joined pieces.now) < 2 ^ 64 }
        ensures { IsFed self.old (joined pieces.now) self.new frames.old.items frames.new.items }
    {
        for piece in pieces {
            self.take_bytes(piece, frames);
        }
    }

    /// Takes the bytes of a piece one by one.
    fn take_bytes(&mut self, piece: &[u8], frames: &mut List<Frame>)
        requires { taken_by self.old + length piece.now < 2 ^ 64 }
        ensures { IsFed self.old piece.now self.new frames.old.items frames.new.items }
    {
        for &byte in piece {
            self.take_byte(byte, frames);
        }
    }

    /// Takes one byte, unless something failed before. After a failure it holds no bytes.
    fn take_byte(&mut self, byte: u8, frames: &mut List<Frame>)
        requires { taken_by self.old + 1 < 2 ^ 64 }
        ensures { IsFed self.old (byte ∷ []) self.new frames.old.items frames.new.items }
    {
        if self.failure.is_some() {
            return;
        }
        match admit(self.alloc, &self.phase, &mut self.held, byte) {
            Admitted::Held => {}
            Admitted::Whole(frame) => {
                self.phase = next_phase(&self.phase, &frame);
                self.start += self.held.len() as u64;
                self.held.clear();
                if frames.push(frame).is_err() {
                    self.failure = Some(FeedError::Memory);
                }
            }
            Admitted::Failed(fault) => {
                let offset = self.start + fault.offset;
                let kind = fault.kind;
                self.held.clear();
                self.failure = Some(FeedError::Fault(WireFault { offset, kind }));
            }
            Admitted::Memory => {
                self.held.clear();
                self.failure = Some(FeedError::Memory);
            }
        }
    }

    /// What it answers: the failure, where there was one.
    fn answer(&self) -> Result<(), FeedError>
        ensures { result ≡ answer_of self.now.failure }
    {
        match self.failure {
            Some(error) => Err(error),
            None => Ok(()),
        }
    }
}
