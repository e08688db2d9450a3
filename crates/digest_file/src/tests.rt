//! Tests of digests and of checks of blocks.
ghost use Rattle.std.specs.Prelude.{◌≡◌, ◌≢◌, IfOk, IfErr, length};
ghost use Rattle.std.specs.List.{All};
ghost use Rattle.sha2.specs.Sha256.{sha256};
ghost use Rattle.linear_spec.specs.Symbols.{IsVector};
ghost use Rattle.generation.specs.Blocks.{AreBlocks, file_of};

use super::*;
use generation::Shape;
use gf16::Memory;
use linear_spec::{List, SymVec};
use packet_wire::Manifest;
use std::alloc::Global;
use std::test::Fail;

// The digests come from sha256sum.

const OF_NOTHING: [u8; 32] = [
    0xe3, 0xb0, 0xc4, 0x42, 0x98, 0xfc, 0x1c, 0x14, 0x9a, 0xfb, 0xf4, 0xc8, 0x99, 0x6f, 0xb9, 0x24,
    0x27, 0xae, 0x41, 0xe4, 0x64, 0x9b, 0x93, 0x4c, 0xa4, 0x95, 0x99, 0x1b, 0x78, 0x52, 0xb8, 0x55,
];

const OF_ABC: [u8; 32] = [
    0xba, 0x78, 0x16, 0xbf, 0x8f, 0x01, 0xcf, 0xea, 0x41, 0x41, 0x40, 0xde, 0x5d, 0xae, 0x22, 0x23,
    0xb0, 0x03, 0x61, 0xa3, 0x96, 0x17, 0x7a, 0x9c, 0xb4, 0x10, 0xff, 0x61, 0xf2, 0x00, 0x15, 0xad,
];

const OF_ABCDE: [u8; 32] = [
    0x36, 0xbb, 0xe5, 0x0e, 0xd9, 0x68, 0x41, 0xd1, 0x04, 0x43, 0xbc, 0xb6, 0x70, 0xd6, 0x55, 0x4f,
    0x0a, 0x34, 0xb7, 0x61, 0xbe, 0x67, 0xec, 0x9c, 0x4a, 0x8a, 0xd2, 0xc0, 0xc4, 0x4c, 0xa4, 0x2c,
];

/// Of the letter `a`, 131 times.
const OF_LETTERS: [u8; 32] = [
    0x3c, 0x29, 0x72, 0x50, 0x85, 0xc0, 0xe4, 0x86, 0x28, 0x27, 0x16, 0xb0, 0xea, 0xa7, 0x14, 0xc7,
    0xb1, 0xac, 0xfb, 0x3e, 0x5b, 0xc2, 0x9f, 0xe1, 0x5a, 0x43, 0x02, 0xb0, 0x26, 0xf1, 0x21, 0x94,
];

#[test]
fn digests_are_those_of_the_standard(rt: HostRuntime) {
    assert_eq!(rt; digest(b""), OF_NOTHING);
    assert_eq!(rt; digest(b"abc"), OF_ABC);
}

fn blocks_of_one_symbol(alloc: Global, symbols: &[u16]) -> Result<List<SymVec>, Memory>
    ensures count { IfOk result (λ blocks. length blocks.items ≡ length symbols.now) }
    ensures vectors { IfOk result (λ blocks. All (IsVector 1) blocks.items) }
{
    let mut blocks = List::new(alloc);
    for symbol in symbols {
        blocks.push(SymVec::from_slice(alloc, &[*symbol])?)?;
    }
    Ok(blocks)
}

#[test]
#[tactic(auto, unfolding(generation::specs::Shape::generations_of))]
fn blocks_match_the_digest_of_their_file_alone(rt: HostRuntime) -> Result<(), Fail> {
    let shape = Shape::new(5, 2, 2)?;
    let blocks = blocks_of_one_symbol(rt.alloc(), &[0x6162, 0x6364, 0x6500, 0x0000])?;
    let digest = OF_ABCDE;
    assert_eq!(rt;
        check_blocks(&Manifest { shape, digest }, &blocks),
        Checked::Match
    );
    let digest = OF_ABC;
    let found = OF_ABCDE;
    assert_eq!(rt;
        check_blocks(&Manifest { shape, digest }, &blocks),
        Checked::Mismatch { found }
    );
    Ok(())
}

#[test]
#[tactic(auto, unfolding(generation::specs::Shape::generations_of))]
fn an_empty_file_has_the_digest_of_nothing(rt: HostRuntime) -> Result<(), Fail> {
    let shape = Shape::new(0, 1, 2)?;
    let blocks = List::new(rt.alloc());
    let digest = OF_NOTHING;
    assert_eq!(rt;
        check_blocks(&Manifest { shape, digest }, &blocks),
        Checked::Match
    );
    let digest = OF_ABC;
    let found = OF_NOTHING;
    assert_eq!(rt;
        check_blocks(&Manifest { shape, digest }, &blocks),
        Checked::Mismatch { found }
    );
    Ok(())
}

fn one_block(alloc: Global, symbols: &[u16]) -> Result<List<SymVec>, Memory>
    ensures count { IfOk result (λ blocks. length blocks.items ≡ 1) }
    ensures vectors { IfOk result (λ blocks. All (IsVector (length symbols.now)) blocks.items) }
{
    let block = SymVec::from_slice(alloc, symbols)?;
    block.is_vector();
    let mut blocks = List::new(alloc);
    blocks.push(block)?;
    Ok(blocks)
}

#[test]
#[tactic(auto, unfolding(generation::specs::Shape::generations_of))]
fn a_long_block_is_cut_to_the_file(rt: HostRuntime) -> Result<(), Fail> {
    let shape = Shape::new(131, 1, 132)?;
    let blocks = one_block(rt.alloc(), &[0x6161; 66])?;
    let digest = OF_LETTERS;
    assert_eq!(rt;
        check_blocks(&Manifest { shape, digest }, &blocks),
        Checked::Match
    );
    Ok(())
}

/// The joined file, where it has the manifest's digest, and else the digest found: a caller knows of both with no lemma.
fn tested_file(
    alloc: Global,
    manifest: &Manifest,
    blocks: &List<SymVec>,
) -> Result<Result<List<u8>, [u8; 32]>, Memory>
    requires { AreBlocks manifest.now.shape blocks.now.items }
    ensures file { IfOk result (λ tested. IfOk tested (λ file. sha256 file.items ≡ manifest.now.digest)) }
    ensures found { IfOk result (λ tested. IfErr tested (λ found.
        found ≡ sha256 (file_of manifest.now.shape blocks.now.items))) }
    ensures differs { IfOk result (λ tested. IfErr tested (λ found. found ≢ manifest.now.digest)) }
{
    let file = manifest.shape.join_blocks(alloc, blocks)?;
    match check_blocks(manifest, blocks) {
        Checked::Match => Ok(Ok(file)),
        Checked::Mismatch { found } => Ok(Err(found)),
    }
}

#[test]
#[tactic(auto, unfolding(generation::specs::Shape::generations_of))]
fn a_joined_file_is_tested_by_its_blocks(rt: HostRuntime) -> Result<(), Fail> {
    let shape = Shape::new(5, 2, 2)?;
    let blocks = blocks_of_one_symbol(rt.alloc(), &[0x6162, 0x6364, 0x6500, 0x0000])?;
    let digest = OF_ABCDE;
    let file = tested_file(rt.alloc(), &Manifest { shape, digest }, &blocks)?
        .ok()
        .ok_or("a match")?;
    assert_eq!(rt; file.as_slice(), b"abcde".as_slice());
    Ok(())
}
