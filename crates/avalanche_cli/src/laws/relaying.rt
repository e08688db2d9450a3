//! The law of the streams that `relay` writes.
ghost use Rattle.std.specs.Prelude.{ℕ, List};
ghost use Rattle.std.specs.List.{All};
ghost use Rattle.packet_wire.specs.Stream.{Contents, IsStream};
ghost use Rattle.avalanche_args.specs.declared.command.RelayWords.{RelayWords};
ghost use Rattle.avalanche_cli.specs.declared.trace.Trace.{Trace};
ghost use Rattle.avalanche_cli.specs.Headline.{LiesInFront};
ghost use Rattle.avalanche_cli.specs.Packets.{AreTrueTo};
ghost use Rattle.avalanche_cli.specs.Relay.{IsTrulyRelayed, contents_of_relay, sending_of};
ghost use Rattle.avalanche_cli.specs.Trace.{IsLegalRelay};

/// What `relay` makes of a stream, whatever the schedule was: each packet sent lies in the span of its front and passes all checks of
/// the ticket, it is a stream, and where all records are true to some blocks, so are all packets sent. So where all packets that pass are true to some blocks,
/// those of the relayed stream are true to them too, through every relay.
pub fn relayed_streams()
    ensures lie { (bytes : List ℕ) (words : RelayWords) (contents : Contents) (trace : Trace) → IsStream bytes contents
        → IsLegalRelay words.receivers (sending_of words) contents trace
        → All (LiesInFront contents.manifest.shape (sending_of words).key trace.bases.items) trace.sends.items }
    ensures truly { (bytes : List ℕ) (words : RelayWords) (contents : Contents) (trace : Trace) → IsStream bytes contents
        → IsLegalRelay words.receivers (sending_of words) contents trace → IsTrulyRelayed words contents trace }
    ensures chain { (bytes : List ℕ) (words : RelayWords) (contents : Contents) (trace : Trace) (blocks : ℕ → List (List ℕ))
        → IsStream bytes contents → IsLegalRelay words.receivers (sending_of words) contents trace
        → AreTrueTo contents blocks → AreTrueTo (contents_of_relay words contents trace) blocks }
{
    basis_core::laws::callers();
    basis_core::laws::records();
    recode::laws::passing();
    recode::laws::spans();
    recode::laws::truth();
    src_check::laws::weights_and_sums();
}
