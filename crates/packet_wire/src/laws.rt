//! The laws of streams: what holds of the definitions alone. A call of one brings it to a proof, and costs nothing.

ghost use Rattle.std.specs.Prelude.{◌≡◌, ◌≢◌, ◌≤◌, ◌⊎◌, ℕ, List, [], ◌++◌, length};
ghost use Rattle.linear_spec.specs.Symbols.{AreBytes};
ghost use Rattle.packet_wire.specs.declared.fault.FaultKind.TheVariants as kinds;
ghost use Rattle.packet_wire.specs.declared.fault.WireFault.{WireFault};
ghost use Rattle.packet_wire.specs.declared.frame.Frame.{Frame};
ghost use Rattle.packet_wire.specs.Stream.{AreContents, Contents, IsStream, spelling_of};
ghost use Rattle.packet_wire.specs.Frames.{BeginsWith, frames_of};
ghost use Rattle.packet_wire.specs.Faults.{FailsAfter, HasFailing, IsFirstFault, IsRead};
ghost use Rattle.packet_wire.specs.declared.decoder.Decoder.{Decoder};
ghost use Rattle.packet_wire.specs.Decoding.{IsAfter};

use linear_spec::laws::bytes_spell_symbols;

/// Each string of bytes is a stream or has a first fault, just one of the two, and in one way.
pub fn readings()
    ensures some { (bytes : List ℕ) → AreBytes bytes
        → ((contents : Contents) × IsStream bytes contents) ⊎ ((fault : WireFault) × IsFirstFault bytes fault) }
    ensures not_both { (bytes : List ℕ) (contents : Contents) (fault : WireFault)
        → IsStream bytes contents → IsFirstFault bytes fault → ⊥ }
    ensures one_contents { (bytes : List ℕ) (contents contents' : Contents)
        → IsStream bytes contents → IsStream bytes contents' → contents ≡ contents' }
    ensures read_or_failing { (bytes rest : List ℕ) (frames : List Frame) (fault : WireFault)
        → IsRead bytes frames rest → HasFailing bytes fault → ⊥ }
    ensures one_reading { (bytes rest rest' : List ℕ) (frames frames' : List Frame)
        → IsRead bytes frames rest → IsRead bytes frames' rest' → frames ≡ frames' }
    ensures one_fault { (bytes : List ℕ) (fault fault' : WireFault)
        → IsFirstFault bytes fault → IsFirstFault bytes fault' → fault ≡ fault' }
    ensures one_front { (bytes : List ℕ) (frames frames' : List Frame) (fault fault' : WireFault)
        → FailsAfter bytes frames fault → FailsAfter bytes frames' fault' → frames ≡ frames' }
{
    bytes_spell_symbols();
}

/// Two different streams give different frames, and what may stand in a stream spells one.
pub fn spellings()
    ensures differ { (bytes bytes' : List ℕ) (contents contents' : Contents)
        → IsStream bytes contents → IsStream bytes' contents' → bytes ≢ bytes'
        → frames_of contents ≢ frames_of contents' }
    ensures stream { (contents : Contents) → AreContents contents → IsStream (spelling_of contents) contents }
{}

/// A first fault other than a missing end stays the first fault, whatever comes after it, and so do the frames before it.
pub fn extensions()
    ensures fault { (bytes later : List ℕ) (fault : WireFault)
        → IsFirstFault bytes fault → fault.kind ≢ kinds.Truncated → IsFirstFault (bytes ++ later) fault }
    ensures frames { (bytes later : List ℕ) (frames : List Frame) (fault : WireFault)
        → FailsAfter bytes frames fault → FailsAfter (bytes ++ later) frames fault }
    ensures front { (bytes later : List ℕ) (frames : List Frame)
        → BeginsWith bytes frames → BeginsWith (bytes ++ later) frames }
{}

/// What fails in bytes is another fault than a missing end.
pub fn failures()
    ensures { (bytes : List ℕ) (fault : WireFault) → HasFailing bytes fault → fault.kind ≢ kinds.Truncated }
{}

/// A stream has no more packets than bytes.
pub fn sizes()
    ensures { (bytes : List ℕ) (contents : Contents) → IsStream bytes contents → length contents.packets ≤ length bytes }
{}

/// Frames at the front of bytes are the first of all that stand there, and those of a stream are all.
pub fn fronts()
    ensures read { (bytes rest : List ℕ) (frames all : List Frame)
        → BeginsWith bytes frames → IsRead bytes all rest → (more : List Frame) × (all ≡ frames ++ more) }
    ensures failing { (bytes : List ℕ) (frames all : List Frame) (fault : WireFault)
        → BeginsWith bytes frames → FailsAfter bytes all fault → (more : List Frame) × (all ≡ frames ++ more) }
    ensures stream { (bytes : List ℕ) (contents : Contents)
        → IsStream bytes contents → IsRead bytes (frames_of contents) [] }
{
    bytes_spell_symbols();
}

/// What a decoder has given for some bytes: all their frames before the first fault, however they were cut.
pub fn decoders()
    ensures meaning { (decoder : Decoder) (fed : List ℕ) (given : List Frame) → IsAfter decoder fed given
        → ((rest : List ℕ) × IsRead fed given rest) ⊎ ((fault : WireFault) × FailsAfter fed given fault) }
    ensures one_given { (decoder decoder' : Decoder) (fed : List ℕ) (given given' : List Frame)
        → IsAfter decoder fed given → IsAfter decoder' fed given' → given ≡ given' }
{
    bytes_spell_symbols();
}
