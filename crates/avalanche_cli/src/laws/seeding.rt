//! The law of the streams that `seed` writes.
ghost use Rattle.std.specs.Prelude.{◌≡◌, ◌*◌, ◌≤◌, ℕ, false, List, length};
ghost use Rattle.std.specs.List.{All, flat_map, range_with_len};
ghost use Rattle.linear_spec.specs.Passing.{Passes};
ghost use Rattle.avalanche_args.specs.declared.command.SeedWords.{SeedWords};
ghost use Rattle.generation.specs.Shape.{generations_of};
ghost use Rattle.generation.specs.Blocks.{file_of};
ghost use Rattle.src_check.specs.Tickets.{generation_blocks_of};
ghost use Rattle.packet_wire.specs.Stream.{IsStream};
ghost use Rattle.avalanche_cli.specs.Files.{source_file};
ghost use Rattle.avalanche_cli.specs.Headline.{DrawsLie};
ghost use Rattle.avalanche_cli.specs.Packets.{AreTrueTo, HasFullRank, equations_of};
ghost use Rattle.avalanche_cli.specs.Relay.{ArePacketsTrueTo};
ghost use Rattle.avalanche_cli.specs.Seed.{IsSeedable, contents_of_seed, packets_of_seed, seed_count_of, shape_of_seed, stream_of_seed, stream_room_of};

/// What `seed` writes of a file is a stream whose packets are all true to the blocks of the file and pass all checks of its ticket,
/// with as many bytes as it takes room; where no draws are asked for it is within the limit of `fetch`, and where the blocks are
/// not left out each generation has full rank. The draws lie in the span of the packets of their generation's blocks.
pub fn seeded_streams()
    ensures stream { (words : SeedWords) (file : List ℕ) → IsSeedable words file
        → IsStream (stream_of_seed words file) (contents_of_seed words file) }
    ensures room { (words : SeedWords) (file : List ℕ) → IsSeedable words file
        → length (stream_of_seed words file) ≡ stream_room_of (shape_of_seed words file) words.checks
        (generations_of (shape_of_seed words file) * seed_count_of words) }
    ensures within { (words : SeedWords) (file : List ℕ) → IsSeedable words file → words.coded ≡ 0
        → length (stream_of_seed words file) ≤ 67108864 }
    ensures rank { (words : SeedWords) (file : List ℕ) → IsSeedable words file → words.bare ≡ false
        → HasFullRank (contents_of_seed words file) }
    ensures packets { (words : SeedWords) (file : List ℕ) → IsSeedable words file
        → ArePacketsTrueTo (shape_of_seed words file) (packets_of_seed words file) (generation_blocks_of (shape_of_seed words file) file) }
    ensures pass { (words : SeedWords) (file : List ℕ) → IsSeedable words file
        → All (Passes (equations_of (contents_of_seed words file))) (packets_of_seed words file) }
    ensures truth { (words : SeedWords) (file : List ℕ) → IsSeedable words file
        → AreTrueTo (contents_of_seed words file) (generation_blocks_of (shape_of_seed words file) file) }
    ensures file { (words : SeedWords) (file : List ℕ) → IsSeedable words file
        → source_file (shape_of_seed words file) (generation_blocks_of (shape_of_seed words file) file) ≡ file }
    ensures lie { (words : SeedWords) (file : List ℕ) → IsSeedable words file → DrawsLie words file }
{
    gf16::laws::field();
    linear_spec::laws::bytes_spell_symbols();
    linear_spec::laws::combinations();
    linear_spec::laws::ranks();
    generation::laws::cut_and_join();
    recode::laws::spans();
    recode::laws::truth();
    src_check::laws::blocks_by_generation();
    src_check::laws::weights_and_sums();
    src_check::laws::true_packets_pass();
}
