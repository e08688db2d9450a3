//! The command `seed`: the stream of a file.
ghost use Rattle.std.specs.Prelude.{◌≡◌, ◌⊎◌, ◌≤◌, ◌<◌, ◌+◌, ◌*◌, ◌^◌, ◌++◌, ℕ, List as list, IfOk, IfErr, IfSome, OnOk, length};
ghost use Rattle.std.specs.List.{All, flat_map};
ghost use Rattle.std.specs.Io.KnownBytes.{IsAtEnd};
ghost use Rattle.linear_spec.specs.Packet.{Fits};
ghost use Rattle.linear_spec.specs.Symbols.{AreBytes};
ghost use Rattle.swarm_io.specs.Counts.{Rose};
ghost use Rattle.swarm_io.specs.Moved.{TakesAtMost};
ghost use Rattle.generation.specs.Shape.{generations_of, symbols_per_block};
ghost use Rattle.packet_wire.specs.Stream.{packet_frame, ticket_frame};
ghost use Rattle.avalanche_args.specs.Ranges.{AreSeedWords};
ghost use Rattle.avalanche_cli.specs.End.{end_of_read};
ghost use Rattle.avalanche_cli.specs.SendSteps.{FitsFrame};
ghost use Rattle.avalanche_cli.specs.Seed.{IsSeedEnd, IsSeedFile, IsSeedRefusal, IsStreamWritten};
ghost use Rattle.avalanche_cli.specs.Seed.{generation_packets_of, packets_of_seed, seed_count_of, seed_draws_of, seed_limit, seed_packets_of};
ghost use Rattle.avalanche_cli.specs.Seed.{shape_of_seed, stream_of_seed, ticket_of_seed};

use crate::End;
use crate::room::stream_room;
use avalanche_args::SeedWords;
use digest_file::digest;
use generation::Shape;
use gf16::Memory;
use linear_spec::{List, Packet, SymVec};
use packet_wire::{Manifest, write_end, write_manifest, write_packet, write_ticket};
use recode::{draw_plain, systematic};
use src_check::{make_ticket, number_key, ticket_key};
use std::alloc::Global;
use swarm_io::{ReadAllError, Sink, Source, read_all, write_all_of};

/// The most bytes that a file may have.
const MAX_FILE: u64 = 16_777_216;

/// The most generations that a file may have.
const MAX_GENERATIONS: u64 = 256;

/// Reads a file and writes its stream: the manifest, the ticket, for each generation a packet for each of its blocks unless
/// the words leave them out and then the draws over them all, and the end. The stream stands in memory before its first byte
/// is written.
pub(crate) fn seed<I: Source, O: Sink>(
    alloc: Global,
    words: &SeedWords,
    input: &mut I,
    output: &mut O,
) -> End
    requires words { AreSeedWords words.now }
    ensures end { IsSeedEnd words.now (I.remaining input.old) (O.contents output.old) (O.contents output.new)
        (output.new ≡ output.old) (Rose (I.faults input.old) (I.faults input.new))
        (Rose (O.faults output.old) (O.faults output.new))
        (Rose (O.wants output.old) (O.wants output.new)) result }
    ensures within { IfSome (I.remaining input.old) (λ file. length file ≤ seed_limit words.now
        → ¬ Rose (I.faults input.old) (I.faults input.new) → ¬ Rose (O.faults output.old) (O.faults output.new)
        → (result ≡ End.Done) ⊎ (result ≡ End.Memory)) }
    ensures past_limit { IfSome (I.remaining input.old) (λ file. seed_limit words.now < length file
        → ¬ Rose (I.faults input.old) (I.faults input.new)
        → (result ≡ End.TooLarge (seed_limit words.now)) ⊎ (result ≡ End.Memory)) }
    ensures done_reads_all { result ≡ End.Done → IsAtEnd (I.remaining input.new) }
    ensures taken { TakesAtMost (I.remaining input.old) (I.remaining input.new) (seed_limit words.now + 1) }
    ensures input_faults { I.faults input.old ≤ I.faults input.new }
    ensures output_faults { O.faults output.old ≤ O.faults output.new }
    ensures output_wants { O.wants output.old ≤ O.wants output.new }
{
    match stream_of_input(alloc, words, input) {
        Ok(stream) => write_stream(output, stream.as_slice()),
        Err(end) => end,
    }
}

/// The stream of the file that the input has.
fn stream_of_input<I: Source>(
    alloc: Global,
    words: &SeedWords,
    input: &mut I,
) -> Result<List<u8>, End>
    requires words { AreSeedWords words.now }
    ensures stream { IfOk result (λ stream. (file : list ℕ)
        × IsSeedFile words.now (I.remaining input.old) file × (stream.items ≡ stream_of_seed words.now file)) }
    ensures at_end { OnOk result (IsAtEnd (I.remaining input.new)) }
    ensures refusal { IfErr result (IsSeedRefusal words.now (I.remaining input.old)
        (Rose (I.faults input.old) (I.faults input.new))) }
    ensures taken { TakesAtMost (I.remaining input.old) (I.remaining input.new) (seed_limit words.now + 1) }
    ensures faults { I.faults input.old ≤ I.faults input.new }
{
    let file = file_of_input(alloc, words, input)?;
    let stream = stream_of_file(alloc, words, file.as_slice())?;
    Ok(stream)
}

/// The file that the input has.
fn file_of_input<I: Source>(
    alloc: Global,
    words: &SeedWords,
    input: &mut I,
) -> Result<List<u8>, End>
    requires { AreSeedWords words.now }
    ensures file { IfOk result (λ file. IsSeedFile words.now (I.remaining input.old) file.items) }
    ensures at_end { OnOk result (IsAtEnd (I.remaining input.new)) }
    ensures refusal { IfErr result (IsSeedRefusal words.now (I.remaining input.old)
        (Rose (I.faults input.old) (I.faults input.new))) }
    ensures taken { TakesAtMost (I.remaining input.old) (I.remaining input.new) (seed_limit words.now + 1) }
    ensures faults { I.faults input.old ≤ I.faults input.new }
{
    let limit = limit_of(words);
    match read_all(alloc, input, limit) {
        Ok(file) => {
            are_bytes(file.as_slice());
            Ok(file)
        }
        Err(error) => Err(end_of(limit, error)),
    }
}

/// A slice of bytes has bytes. It is a law for the proof: the call does nothing.
fn are_bytes(bytes: &[u8])
    ensures { AreBytes bytes.now }
{}

/// The end of a run whose input was not read whole.
fn end_of(limit: u64, error: ReadAllError) -> End
    ensures { result ≡ end_of_read limit error }
{
    match error {
        ReadAllError::ReadFault => End::ReadFault,
        ReadAllError::TooLarge => End::TooLarge { limit },
        ReadAllError::Memory => End::Memory,
    }
}

/// The most bytes that a file may have for these words.
fn limit_of(words: &SeedWords) -> u64
    ensures { result ≡ seed_limit words.now }
{
    let generation = u64::from(words.k) * u64::from(words.block);
    MAX_FILE.min(MAX_GENERATIONS * generation)
}

/// The stream of a file.
fn stream_of_file(alloc: Global, words: &SeedWords, file: &[u8]) -> Result<List<u8>, Memory>
    requires words { AreSeedWords words.now }
    requires within { length file.now ≤ seed_limit words.now }
    ensures { IfOk result (λ stream. stream.items ≡ stream_of_seed words.now file.now) }
{
    let shape = shape_of(words, file);
    let mut stream = List::new(alloc);
    stream.reserve(stream_room(&shape, words.checks, packet_count(words, &shape)))?;
    let manifest = Manifest {
        shape,
        digest: digest(file),
    };
    write_manifest(&manifest, &mut stream)?;
    append_ticket(alloc, words, &shape, file, &mut stream)?;
    append_packets(alloc, words, &shape, file, &mut stream)?;
    write_end(&mut stream)?;
    Ok(stream)
}

/// How the file is cut.
fn shape_of(words: &SeedWords, file: &[u8]) -> Shape
    requires words { AreSeedWords words.now }
    requires within { length file.now ≤ seed_limit words.now }
    ensures { result ≡ shape_of_seed words.now file.now }
{
    Shape::new(file.len() as u64, words.k, words.block).unwrap()
}

/// The number of packets of all generations.
fn packet_count(words: &SeedWords, shape: &Shape) -> usize
    requires words { AreSeedWords words.now }
    ensures count { result ≡ generations_of shape.now * seed_count_of words.now }
    ensures few { result < 2 ^ 32 }
{
    let blocks = if words.bare { 0 } else { words.k };
    usize::from(shape.generations()) * (usize::from(blocks) + words.coded as usize)
}

/// Appends the frame of the ticket.
fn append_ticket(
    alloc: Global,
    words: &SeedWords,
    shape: &Shape,
    file: &[u8],
    stream: &mut List<u8>,
) -> Result<(), Memory>
    requires words { AreSeedWords words.now }
    requires shape { shape.now ≡ shape_of_seed words.now file.now }
    ensures { OnOk result (stream.new.items ≡ stream.old.items ++ ticket_frame (ticket_of_seed words.now file.now)) }
{
    let key = ticket_key(words.key, u64::from(words.peer));
    let ticket = make_ticket(alloc, shape, file, key, words.checks)?;
    // A law for the proof: the call does nothing.
    let _shape = shape.generations();
    write_ticket(&ticket, stream)
}

/// Appends the frames of the packets that the words ask for, generation after generation.
fn append_packets(
    alloc: Global,
    words: &SeedWords,
    shape: &Shape,
    file: &[u8],
    stream: &mut List<u8>,
) -> Result<(), Memory>
    requires words { AreSeedWords words.now }
    requires shape { shape.now ≡ shape_of_seed words.now file.now }
    ensures { OnOk result (stream.new.items
        ≡ stream.old.items ++ flat_map packet_frame (packets_of_seed words.now file.now)) }
{
    for generation in 0..shape.generations() {
        append_generation(alloc, words, shape, file, generation, stream)?;
    }
    Ok(())
}

/// Appends the frames of the packets of a generation: of its blocks unless they are left out, and of the draws over them.
fn append_generation(
    alloc: Global,
    words: &SeedWords,
    shape: &Shape,
    file: &[u8],
    generation: u16,
    stream: &mut List<u8>,
) -> Result<(), Memory>
    requires words { AreSeedWords words.now }
    requires shape { shape.now ≡ shape_of_seed words.now file.now }
    requires generation { generation < generations_of shape.now }
    ensures { OnOk result (stream.new.items
        ≡ stream.old.items ++ flat_map packet_frame (seed_packets_of words.now file.now generation)) }
{
    let blocks = generation_packets(alloc, shape, file, generation)?;
    if !words.bare {
        append_all(&blocks, stream)?;
    }
    append_draws(alloc, words, shape, file, &blocks, generation, stream)
}

/// The packets of the blocks of a generation.
fn generation_packets(
    alloc: Global,
    shape: &Shape,
    file: &[u8],
    generation: u16,
) -> Result<List<Packet>, Memory>
    requires file { length file.now ≡ shape.now.len }
    requires generation { generation < generations_of shape.now }
    ensures packets { IfOk result (λ packets. packets.items ≡ generation_packets_of shape.now file.now generation) }
    ensures fit { IfOk result (λ packets. All (Fits shape.now.k (symbols_per_block shape.now)) packets.items) }
    ensures frames { IfOk result (λ packets. All FitsFrame packets.items) }
{
    let mut packets = List::new(alloc);
    packets.reserve(usize::from(shape.k()))?;
    for column in 0..shape.k() {
        packets.put(systematic(alloc, shape, file, generation, column)?);
    }
    Ok(packets)
}

/// Appends the frames of packets.
fn append_all(packets: &List<Packet>, stream: &mut List<u8>) -> Result<(), Memory>
    requires { All FitsFrame packets.now.items }
    ensures { OnOk result (stream.new.items ≡ stream.old.items ++ flat_map packet_frame packets.now.items) }
{
    for packet in packets.as_slice() {
        write_packet(packet, stream)?;
    }
    Ok(())
}

/// Appends the frames of the draws over all packets of a generation.
fn append_draws(
    alloc: Global,
    words: &SeedWords,
    shape: &Shape,
    file: &[u8],
    blocks: &List<Packet>,
    generation: u16,
    stream: &mut List<u8>,
) -> Result<(), Memory>
    requires words { AreSeedWords words.now }
    requires shape { shape.now ≡ shape_of_seed words.now file.now }
    requires generation { generation < generations_of shape.now }
    requires blocks { blocks.now.items ≡ generation_packets_of shape.now file.now generation }
    requires fit { All (Fits shape.now.k (symbols_per_block shape.now)) blocks.now.items }
    ensures { OnOk result (stream.new.items
        ≡ stream.old.items ++ flat_map packet_frame (seed_draws_of words.now file.now generation)) }
{
    // The file stands in the contract alone.
    let _ = file;
    let key = number_key(words.key);
    let mut packet = Packet {
        generation,
        coeffs: SymVec::zeros(alloc, usize::from(shape.k()))?,
        payload: SymVec::zeros(alloc, usize::from(shape.symbols_per_block()))?,
    };
    let first = u32::from(generation) * words.coded;
    for place in 0..words.coded {
        draw_plain(&key, 0, first + place, blocks, &mut packet);
        write_packet(&packet, stream)?;
    }
    Ok(())
}

/// Writes a stream, all of it.
fn write_stream<O: Sink>(output: &mut O, stream: &[u8]) -> End
    ensures end { IsStreamWritten stream.now (O.contents output.old) (O.contents output.new)
        (Rose (O.faults output.old) (O.faults output.new)) (Rose (O.wants output.old) (O.wants output.new)) result }
    ensures faults { O.faults output.old ≤ O.faults output.new }
    ensures wants { O.wants output.old ≤ O.wants output.new }
{
    match write_all_of(output, stream) {
        Ok(()) => End::Done,
        Err(error) => End::from(error),
    }
}

#[cfg(test)]
mod tests;
