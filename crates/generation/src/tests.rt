//! Shapes at their limits, and a file cut and joined.
ghost use Rattle.std.specs.Prelude.{◌≡◌, IfOk, All, length};
ghost use Rattle.linear_spec.specs.Symbols.{IsVector};

use super::*;
use gf16::Memory;
use linear_spec::{List, SymVec};
use std::alloc::Global;
use std::test::Fail;

#[test]
fn a_shape_is_judged_in_order(rt: HostRuntime) {
    let cases = [
        (5, 2, 2, Ok(2)),
        (512, 1, 2, Ok(256)),
        (513, 1, 2, Err(ShapeError::TooManyGenerations)),
        (0, 1, 2, Ok(0)),
        (5, 0, 3, Err(ShapeError::BadK)),
        (5, 64, 2, Ok(1)),
        (5, 65, 2, Err(ShapeError::BadK)),
        (16_777_217, 2, 0, Err(ShapeError::BadBlock)),
        (5, 2, 3, Err(ShapeError::BadBlock)),
        (5, 2, 4098, Err(ShapeError::BadBlock)),
        (16_777_216, 64, 4096, Ok(64)),
        (16_777_217, 64, 4096, Err(ShapeError::TooLong)),
        (16_777_217, 1, 2, Err(ShapeError::TooLong)),
    ];
    for (len, k, block, want) in cases {
        let generations = Shape::new(len, k, block).map(|shape| shape.generations());
        assert_eq!(rt; generations, want, "at {len}, {k}, {block}");
    }
}

#[test]
fn the_errors_have_their_numbers(rt: HostRuntime) {
    assert_eq!(rt; ShapeError::BadK as u8, 1);
    assert_eq!(rt; ShapeError::BadBlock as u8, 2);
    assert_eq!(rt; ShapeError::TooManyGenerations as u8, 3);
    assert_eq!(rt; ShapeError::TooLong as u8, 4);
}

#[test]
#[tactic(auto, unfolding(crate::specs::Shape::generations_of))]
fn cuts_abcde_with_zeros_past_its_end(rt: HostRuntime) -> Result<(), Fail> {
    let shape = Shape::new(5, 2, 2)?;
    let last = shape.symbols(rt.alloc(), b"abcde", 1, 0)?;
    assert_eq!(rt; last.as_slice(), [0x6500].as_slice());
    let past = shape.symbols(rt.alloc(), b"abcde", 1, 1)?;
    assert_eq!(rt; past.as_slice(), [0x0000].as_slice());
    Ok(())
}

fn blocks_of_one_symbol(alloc: Global, symbols: &[u16]) -> Result<List<SymVec>, Memory>
    ensures count { IfOk result (λ blocks. length blocks.items ≡ length symbols.now) }
    ensures vectors { IfOk result (λ blocks. All (IsVector 1) blocks.items) }
{
    let mut blocks = List::new(alloc);
    for symbol in symbols {
        blocks.push(SymVec::from_slice(alloc, &[*symbol])?)?;
    }
    Ok(blocks)
}

#[test]
#[tactic(auto, unfolding(crate::specs::Shape::generations_of))]
fn joins_the_blocks_of_abcde(rt: HostRuntime) -> Result<(), Fail> {
    let alloc = rt.alloc();
    let shape = Shape::new(5, 2, 2)?;
    let blocks = blocks_of_one_symbol(alloc, &[0x6162, 0x6364, 0x6500, 0x0000])?;
    let file = shape.join_blocks(alloc, &blocks)?;
    assert_eq!(rt; file.as_slice(), b"abcde".as_slice());
    Ok(())
}
