//! The top call.
ghost use Rattle.std.specs.Prelude.{◌≡◌, ◌⊎◌, ◌≤◌, ◌<◌, ℕ, List as list, Err, IfSome, false, length};
ghost use Rattle.std.specs.Io.KnownBytes.{Appends, IsAtEnd, Keeps};
ghost use Rattle.sha2.specs.Sha256.{sha256};
ghost use Rattle.swarm_io.specs.Counts.{Rose};
ghost use Rattle.swarm_io.specs.Moved.{AppendsPrefix, TakesAtMost};
ghost use Rattle.packet_wire.specs.Stream.{Contents};
ghost use Rattle.packet_wire.specs.declared.fault.WireFault.{WireFault as wire_fault};
ghost use Rattle.avalanche_args.specs.CommandOf.{command_of};
ghost use Rattle.avalanche_args.specs.declared.command.SeedWords.{SeedWords};
ghost use Rattle.avalanche_args.specs.declared.usage.WordClass.{WordClass as word_class};
ghost use Rattle.avalanche_cli.specs.Files.{IsFirstIncomplete, source_file};
ghost use Rattle.avalanche_cli.specs.Packets.{AreTrueTo, HasFullRank};
ghost use Rattle.avalanche_cli.specs.EmptyTrace.{IsEmptyTrace};
ghost use Rattle.avalanche_cli.specs.Fetch.{Gives, GivesPrefix, GivesSome, HasOtherDigest, HasReadSound, IsFetchable, IsTooLong, IsUnfetchable, LacksRank, stream_limit};
ghost use Rattle.avalanche_cli.specs.Delivery.{AppendsSome};
ghost use Rattle.avalanche_cli.specs.Relay.{RelaysTruly};
ghost use Rattle.avalanche_cli.specs.Seed.{GivesStream, GivesStreamPrefix, IsSeedable, seed_limit, stream_of_seed};
ghost use Rattle.avalanche_cli.specs.Headline.{IsHeadline};
ghost use Rattle.avalanche_cli.specs.Lines.{line_of};
ghost use Rattle.avalanche_cli.specs.Run.{IfFetch, IfReadsStream, IfRelay, IfSeed, IsFetchThat, IsKept, IsRefusal, ReadsStream, most_read};
ghost use Rattle.avalanche_cli.specs.RunSteps.{IsRun};

use crate::fetch::fetch;
use crate::line::write_line;
use crate::relay::relay;
use crate::seed::seed;
use crate::{End, Outcome, laws};
use avalanche_args::{Command, read_words};
use linear_spec::Words;
use receive_pass::Gate;
use std::alloc::Global;
use std::thread::Threads;
use swarm_io::{Sink, Source};

/// Runs the command of the words: `seed` reads a file and writes its stream, `fetch` reads a stream and writes its file, and
/// `relay` reads a stream and writes one of what it draws from its packets.
///
/// `words` are those after the program's name. For every end but Done one line is written to `errors`; that it was refused
/// changes nothing. `fetch` and `relay` let their receivers work in threads of their own where threads can be made, and each
/// passes the gate before and after each of its calls.
pub fn run<R: Threads + Sync, G: Gate, I: Source, O: Sink, E: Sink>(
    rt: &R,
    alloc: Global,
    gate: &G,
    words: &Words,
    input: &mut I,
    output: &mut O,
    errors: &mut E,
) -> Outcome
    // Usage: exactly where the words say no command. Nothing is read or written then.
    ensures usage { (class : word_class) → result.end ≡ End.Usage class → command_of words.now ≡ Err class }
    ensures no_command { (class : word_class) → command_of words.now ≡ Err class
        → ((result.end ≡ End.Usage class) ⊎ (result.end ≡ End.Memory)) × (input.new ≡ input.old) × (output.new ≡ output.old) }

    // The headline: one legal history of the calls on each basis, whatever the schedule was, packets sent that lie in the spans of
    // their fronts, and a file that is given only if its blocks solve the recorded equations and its digest matches.
    ensures headline { IsHeadline (command_of words.now) (I.remaining input.old) (O.contents output.old) (O.contents output.new)
        result.end result.trace }

    // The calls on the bases, and their records.
    ensures kept { IsKept (command_of words.now) result.end (I.remaining input.old) result.trace }

    // Done: the whole input was read. A `seed` gave the stream of the file that it read; a `fetch` gave the file of the bases,
    // which has the digest that the manifest says; a `relay` gave the manifest and the ticket that it read, with what it sent: a
    // stream whose packets pass the checks of its ticket, and where all records are true to some blocks, so are all packets sent.
    ensures done_reads_all { result.end ≡ End.Done → IsAtEnd (I.remaining input.new) }
    ensures done_of_seed { result.end ≡ End.Done → IfSeed (command_of words.now) (λ said.
        GivesStream said (I.remaining input.old) (O.contents output.old) (O.contents output.new)) }
    ensures done_of_fetch { result.end ≡ End.Done → IfFetch (command_of words.now) (λ said.
        Gives said.receivers (I.remaining input.old) result.trace (O.contents output.old) (O.contents output.new)) }
    ensures done_of_relay { result.end ≡ End.Done → IfRelay (command_of words.now) (λ said.
        RelaysTruly said (I.remaining input.old) result.trace (Appends (O.contents output.old) (O.contents output.new))) }

    // A file within the limit is seeded, unless a fault came or memory was wanted.
    ensures within_limit { IfSeed (command_of words.now) (λ said. IfSome (I.remaining input.old) (λ bytes. length bytes ≤ seed_limit said
        → ¬ Rose (I.faults input.old) (I.faults input.new) → ¬ Rose (O.faults output.old) (O.faults output.new)
        → (result.end ≡ End.Done) ⊎ (result.end ≡ End.Memory))) }

    // A `fetch` of a stream of full rank gives Done or Mismatch, unless a fault came or memory was wanted.
    ensures full_rank { IfFetch (command_of words.now) (λ said. IfSome (I.remaining input.old) (λ bytes. (contents : Contents)
        → IsFetchable bytes contents → HasFullRank contents
        → ¬ Rose (I.faults input.old) (I.faults input.new) → ¬ Rose (O.faults output.old) (O.faults output.new)
        → (result.end ≡ End.Done) ⊎ (((found : list ℕ) × (result.end ≡ End.Mismatch found)) ⊎ (result.end ≡ End.Memory)))) }

    // Where all its passing packets are true to the blocks of a file with the manifest's digest, it gives that file.
    ensures true_packets { IfFetch (command_of words.now) (λ said. IfSome (I.remaining input.old) (λ bytes. (contents : Contents)
        (blocks : ℕ → list (list ℕ)) (file : list ℕ)
        → IsFetchable bytes contents → HasFullRank contents → AreTrueTo contents blocks
        → file ≡ source_file contents.manifest.shape blocks
        → sha256 file ≡ contents.manifest.digest
        → ¬ Rose (I.faults input.old) (I.faults input.new) → ¬ Rose (O.faults output.old) (O.faults output.new)
        → ((result.end ≡ End.Done) × Appends (O.contents output.old) (O.contents output.new) file) ⊎ (result.end ≡ End.Memory))) }

    // So what a `seed` writes of a file, with its blocks, gives that file, unless draws take it beyond the limit.
    ensures seeded_stream { IfFetch (command_of words.now) (λ said. IfSome (I.remaining input.old) (λ bytes. (seed : SeedWords)
        (file : list ℕ) → IsSeedable seed file → seed.bare ≡ false → (seed.coded ≡ 0) ⊎ (length bytes ≤ stream_limit)
        → bytes ≡ stream_of_seed seed file
        → ¬ Rose (I.faults input.old) (I.faults input.new) → ¬ Rose (O.faults output.old) (O.faults output.new)
        → ((result.end ≡ End.Done) × Appends (O.contents output.old) (O.contents output.new) file) ⊎ (result.end ≡ End.Memory))) }

    // A stream is relayed, unless a fault came or memory was wanted.
    ensures relayed { IfRelay (command_of words.now) (λ said. IfSome (I.remaining input.old) (λ bytes. (contents : Contents)
        → IsFetchable bytes contents
        → ¬ Rose (I.faults input.old) (I.faults input.new) → ¬ Rose (O.faults output.old) (O.faults output.new)
        → (result.end ≡ End.Done) ⊎ (result.end ≡ End.Memory))) }

    // Mismatch: the file has another digest, which was found.
    ensures mismatch { (found : list ℕ) → result.end ≡ End.Mismatch found → IsFetchThat (command_of words.now) (λ said.
        HasOtherDigest said.receivers (I.remaining input.old) result.trace found) }

    // Incomplete: exactly where, in a `fetch`, a generation lacks rank, and with the first that does, unless a fault came or memory was wanted.
    ensures incomplete { (generation rank : ℕ) → result.end ≡ End.Incomplete generation rank
        → IsFetchThat (command_of words.now) (λ said. LacksRank (I.remaining input.old) generation rank) }
    ensures low_rank { IfFetch (command_of words.now) (λ said. IfSome (I.remaining input.old) (λ bytes. (contents : Contents)
        (generation rank : ℕ) → IsFetchable bytes contents → IsFirstIncomplete contents generation rank
        → ¬ Rose (I.faults input.old) (I.faults input.new)
        → (result.end ≡ End.Incomplete generation rank) ⊎ (result.end ≡ End.Memory))) }

    // BadStream: exactly where the input is to be a stream and is none, and with its first fault, unless a read failed or memory
    // was wanted.
    ensures bad_stream { (fault : wire_fault) → result.end ≡ End.BadStream fault → ReadsStream (command_of words.now)
        (IfSome (I.remaining input.old) (λ bytes. IsUnfetchable bytes fault)) }
    ensures unfetchable { IfReadsStream (command_of words.now) (IfSome (I.remaining input.old) (λ bytes. (fault : wire_fault)
        → IsUnfetchable bytes fault → ¬ Rose (I.faults input.old) (I.faults input.new)
        → (result.end ≡ End.BadStream fault) ⊎ (result.end ≡ End.Memory))) }

    // TooLarge: exactly where the input goes beyond the limit, and, if it is to be a stream, has no fault up to there.
    ensures too_large_of_seed { (limit : ℕ) → result.end ≡ End.TooLarge limit → IfSeed (command_of words.now) (λ said.
        (limit ≡ seed_limit said) × IfSome (I.remaining input.old) (λ bytes. seed_limit said < length bytes)) }
    ensures too_large_of_stream { (limit : ℕ) → result.end ≡ End.TooLarge limit → IfReadsStream (command_of words.now)
        ((limit ≡ stream_limit) × IfSome (I.remaining input.old) IsTooLong) }
    ensures beyond_limit { IfSeed (command_of words.now) (λ said. IfSome (I.remaining input.old) (λ bytes. seed_limit said < length bytes
        → ¬ Rose (I.faults input.old) (I.faults input.new)
        → (result.end ≡ End.TooLarge (seed_limit said)) ⊎ (result.end ≡ End.Memory))) }
    ensures too_long { IfReadsStream (command_of words.now) (IfSome (I.remaining input.old) (λ bytes. IsTooLong bytes
        → ¬ Rose (I.faults input.old) (I.faults input.new)
        → (result.end ≡ End.TooLarge stream_limit) ⊎ (result.end ≡ End.Memory))) }

    // Faults have their causes. What was read of a stream by then had no fault of its own.
    ensures read_fault { result.end ≡ End.ReadFault → Rose (I.faults input.old) (I.faults input.new) }
    ensures read_fault_of_stream { result.end ≡ End.ReadFault → IfReadsStream (command_of words.now)
        (HasReadSound (I.remaining input.old) (I.remaining input.new)) }
    ensures write_fault { result.end ≡ End.WriteFault → Rose (O.faults output.old) (O.faults output.new) }

    // What each end but Done leaves.
    ensures refusal_writes_nothing { IsRefusal result.end → output.new ≡ output.old }
    ensures write_fault_of_seed { result.end ≡ End.WriteFault → IfSeed (command_of words.now) (λ said.
        GivesStreamPrefix said (I.remaining input.old) (O.contents output.old) (O.contents output.new)) }
    ensures write_fault_of_fetch { result.end ≡ End.WriteFault → IfFetch (command_of words.now) (λ said.
        GivesPrefix said.receivers (I.remaining input.old) result.trace (O.contents output.old) (O.contents output.new)) }
    ensures write_fault_of_relay { result.end ≡ End.WriteFault → IfRelay (command_of words.now) (λ said.
        RelaysTruly said (I.remaining input.old) result.trace (AppendsPrefix (O.contents output.old) (O.contents output.new))) }
    ensures memory_of_seed { result.end ≡ End.Memory → IfSeed (command_of words.now) (λ said. (output.new ≡ output.old)
        ⊎ (GivesStreamPrefix said (I.remaining input.old) (O.contents output.old) (O.contents output.new)
        × Rose (O.wants output.old) (O.wants output.new))) }
    ensures memory_of_fetch { result.end ≡ End.Memory → IfFetch (command_of words.now) (λ said.
        (IsEmptyTrace result.trace × ((output.new ≡ output.old) ⊎ (Keeps (O.contents output.old) (O.contents output.new)
        × Rose (O.wants output.old) (O.wants output.new))))
        ⊎ (GivesSome said.receivers (I.remaining input.old) result.trace (O.contents output.old) (O.contents output.new)
        × Rose (O.wants output.old) (O.wants output.new))) }
    ensures memory_of_relay { result.end ≡ End.Memory → IfRelay (command_of words.now) (λ said.
        (IsEmptyTrace result.trace × ((output.new ≡ output.old) ⊎ (Keeps (O.contents output.old) (O.contents output.new)
        × Rose (O.wants output.old) (O.wants output.new))))
        ⊎ (RelaysTruly said (I.remaining input.old) result.trace (AppendsSome (O.contents output.old) (O.contents output.new))
        × Rose (O.wants output.old) (O.wants output.new))) }

    // Counts never fall, and no more is read than the command's limit and one byte.
    ensures input_faults { I.faults input.old ≤ I.faults input.new }
    ensures output_faults { O.faults output.old ≤ O.faults output.new }
    ensures output_wants { O.wants output.old ≤ O.wants output.new }
    ensures taken { TakesAtMost (I.remaining input.old) (I.remaining input.new) (most_read (command_of words.now)) }

    // The line of the end, which is none for Done: a prefix of it, and all of it unless the sink refused.
    ensures line { AppendsPrefix (E.contents errors.old) (E.contents errors.new) (line_of result.end) }
    ensures whole_line { ¬ Rose (E.faults errors.old) (E.faults errors.new) → ¬ Rose (E.wants errors.old) (E.wants errors.new)
        → Appends (E.contents errors.old) (E.contents errors.new) (line_of result.end) }
    ensures no_line { result.end ≡ End.Done → errors.new ≡ errors.old }
    ensures errors_faults { E.faults errors.old ≤ E.faults errors.new }
    ensures errors_wants { E.wants errors.old ≤ E.wants errors.new }
{
    let outcome = perform(rt, alloc, gate, words, input, output);
    write_line(&outcome.end, errors);
    packet_wire::laws::readings();
    laws::incomplete();
    laws::true_packets();
    laws::seeded_streams();
    laws::relayed_streams();
    laws::one_history();
    outcome
}

/// Runs the command of the words, and tells nobody how it ended.
fn perform<R: Threads + Sync, G: Gate, I: Source, O: Sink>(
    rt: &R,
    alloc: Global,
    gate: &G,
    words: &Words,
    input: &mut I,
    output: &mut O,
) -> Outcome
    ensures run { IsRun (I.remaining input.old) (I.remaining input.new) (O.contents output.old) (O.contents output.new)
        (input.new ≡ input.old) (output.new ≡ output.old)
        (Rose (I.faults input.old) (I.faults input.new)) (Rose (O.faults output.old) (O.faults output.new))
        (Rose (O.wants output.old) (O.wants output.new)) result (command_of words.now) }
    ensures done_reads_all { result.end ≡ End.Done → IsAtEnd (I.remaining input.new) }
    ensures input_faults { I.faults input.old ≤ I.faults input.new }
    ensures output_faults { O.faults output.old ≤ O.faults output.new }
    ensures output_wants { O.wants output.old ≤ O.wants output.new }
    ensures taken { TakesAtMost (I.remaining input.old) (I.remaining input.new) (most_read (command_of words.now)) }
{
    match read_words(words) {
        Ok(Command::Seed(said)) => Outcome::without_trace(alloc, seed(alloc, &said, input, output)),
        Ok(Command::Fetch(said)) => fetch(rt, alloc, gate, &said, input, output),
        Ok(Command::Relay(said)) => relay(rt, alloc, gate, &said, input, output),
        Err(error) => Outcome::without_trace(alloc, End::from(error)),
    }
}
