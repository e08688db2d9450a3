//! Kernels at each width and at lengths around it.
ghost use Rattle.std.specs.Prelude.{◌≤◌};
ghost use Rattle.gf_lanes.specs.Lanes.{IsLaneCount};

use crate::{add_scaled, dot, scale};
use gf16::Gf;
use std::process::Abort;

// In the field 2 * 0x8000 = 0x100B and 0x8000 * 0x8000 = 0x8EFA; the sum of two symbols is their exclusive or.

fn adds_at<const LANES: usize>(rt: &impl Abort, len: usize)
    requires lanes { IsLaneCount LANES }
    requires len { len ≤ 33 }
{
    let src = [0x8000; 33];
    let mut dst = [0x0001; 33];
    add_scaled::<LANES>(&mut dst[..len], Gf(2), &src[..len]);
    for symbol in &dst[..len] {
        assert_eq!(rt; *symbol, 0x100A, "of {len}, {LANES} lanes");
    }
}

fn scales_at<const LANES: usize>(rt: &impl Abort, len: usize)
    requires lanes { IsLaneCount LANES }
    requires len { len ≤ 33 }
{
    let mut dst = [0x8000; 33];
    scale::<LANES>(&mut dst[..len], Gf(2));
    for symbol in &dst[..len] {
        assert_eq!(rt; *symbol, 0x100B, "of {len}, {LANES} lanes");
    }
}

/// The sum of `len` equal products, of which each two come to 0.
fn multiplies_at<const LANES: usize>(rt: &impl Abort, len: usize)
    requires lanes { IsLaneCount LANES }
    requires len { len ≤ 33 }
{
    let a = [0x0002; 33];
    let b = [0x8000; 33];
    let sum = if len % 2 == 1 { 0x100B } else { 0 };
    assert_eq!(rt;
        dot::<LANES>(&a[..len], &b[..len]),
        Gf(sum),
        "of {len}, {LANES} lanes"
    );
}

fn all_kernels_at<const LANES: usize>(rt: &impl Abort, len: usize)
    requires lanes { IsLaneCount LANES }
    requires len { len ≤ 33 }
{
    adds_at::<LANES>(rt, len);
    scales_at::<LANES>(rt, len);
    multiplies_at::<LANES>(rt, len);
}

fn all_lengths<const LANES: usize>(rt: &impl Abort)
    requires lanes { IsLaneCount LANES }
{
    all_kernels_at::<LANES>(rt, 0);
    all_kernels_at::<LANES>(rt, 1);
    all_kernels_at::<LANES>(rt, 31);
    all_kernels_at::<LANES>(rt, 32);
    all_kernels_at::<LANES>(rt, 33);
}

#[test]
fn equal_symbols_at_each_width_and_length(rt: HostRuntime) {
    all_lengths::<8>(&rt);
    all_lengths::<16>(&rt);
    all_lengths::<32>(&rt);
}

#[test]
fn each_place_has_its_own_product(rt: HostRuntime) {
    let mut symbols = [0x0002, 0x8000, 0x0001, 0x0000];
    add_scaled::<8>(&mut symbols, Gf(0x8000), &[0x0002, 0x8000, 0x0000, 0x0001]);
    assert_eq!(rt; symbols, [0x1009, 0x0EFA, 0x0001, 0x8000]);

    let mut symbols = [0x0002, 0x8000, 0x0001, 0x0000];
    scale::<8>(&mut symbols, Gf(0x8000));
    assert_eq!(rt; symbols, [0x100B, 0x8EFA, 0x8000, 0x0000]);

    let product = dot::<8>(&[0x0002, 0x8000], &[0x8000, 0x8000]);
    assert_eq!(rt; product, Gf(0x9EF1));
}
