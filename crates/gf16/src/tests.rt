//! Products and inverses against tables of another tool.
use crate::{Gf, Memory};
use std::alloc::AllocError;

#[test]
fn adds_by_exclusive_or(rt: HostRuntime) {
    assert_eq!(rt; Gf(0x8003).add(Gf(0x8005)), Gf(0x0006));
}

#[test]
fn multiplies_by_x_with_reduction(rt: HostRuntime) {
    assert_eq!(rt; Gf(0x8000).mul(Gf(0x0002)), Gf(0x100B));
    assert_eq!(rt; Gf(0x8000).mul(Gf(0x8000)), Gf(0x8EFA));
}

#[test]
fn inverts_x_and_not_zero(rt: HostRuntime) {
    assert_eq!(rt; Gf(2).inv(), Some(Gf(0x8805)));
    assert_eq!(rt; Gf(0).inv(), None);
}

// The products and inverses below come from a Python script written from the textbook: the product of two polynomials
// without carries, divided with remainder by 0x1100B, and the inverse by Euclid's algorithm over polynomials.

#[test]
fn multiplies_as_division_of_polynomials_does(rt: HostRuntime) {
    let cases = [
        (0x0000, 0x1234, 0x0000),
        (0x0001, 0xFFFF, 0xFFFF),
        (0xFFFF, 0xFFFF, 0x0733),
        (0x100B, 0x0003, 0x301D),
        (0x0100, 0x0100, 0x100B),
        (0x4000, 0x0004, 0x100B),
        (0xB919, 0xF03D, 0x4947),
        (0xF601, 0x91E2, 0x066F),
        (0xD57A, 0x740A, 0x6337),
        (0xE4BD, 0x02FF, 0x9394),
        (0xD1AC, 0x8488, 0xC569),
        (0x79C8, 0x71E2, 0x5374),
        (0x052F, 0x97DB, 0x253F),
        (0x9AA5, 0xAB8D, 0x0531),
        (0x48AD, 0x9EC6, 0xB35A),
        (0x0B5B, 0x70D1, 0x090F),
        (0x81CB, 0x0A6E, 0x6B96),
        (0x4ED3, 0x0E03, 0x5A37),
    ];
    for (a, b, product) in cases {
        assert_eq!(rt; Gf(a).mul(Gf(b)), Gf(product), "at {a:04X} * {b:04X}");
    }
}

#[test]
fn inverts_as_euclid_does(rt: HostRuntime) {
    let cases = [
        (0x0001, 0x0001),
        (0x0003, 0xF006),
        (0x8000, 0x345D),
        (0xFFFF, 0x0894),
        (0x100B, 0x922B),
        (0x76F9, 0xA156),
        (0x74F1, 0x1C4C),
        (0x9944, 0x13EA),
        (0xA073, 0xED26),
        (0xB41C, 0x5207),
        (0x4BD6, 0x6F84),
        (0xFC46, 0x422A),
        (0x396F, 0x70C0),
        (0xC85C, 0x72FE),
        (0x4F4F, 0x9B40),
        (0x5C9E, 0x54F2),
        (0x421C, 0x5FC3),
        (0x6B98, 0x2BD1),
        (0xC9AF, 0x1EF6),
    ];
    for (a, inverse) in cases {
        assert_eq!(rt; Gf(a).inv(), Some(Gf(inverse)), "at {a:04X}");
    }
}

#[test]
fn want_of_memory_says_so(rt: HostRuntime) -> Result<(), AllocError> {
    assert_eq!(rt;
        format!(in rt.alloc(); "{}", Memory)?.as_str(),
        "out of memory"
    );
    Ok(())
}
