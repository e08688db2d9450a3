//! Tests of the answers and of the columns that are missing.
use super::*;
use linear_spec::Reply;
use solving_tests::packet;
use std::test::Fail;

#[test]
fn each_packet_is_answered_by_its_case(rt: HostRuntime) -> Result<(), Fail> {
    let alloc = rt.alloc();
    let mut basis = PlainBasis::new(alloc, 2, 1);
    let cases = [
        ([0, 0], 0x0000, Reply::NotInnovative { front: 0 }),
        ([0, 0], 0x0001, Reply::Conflicting { front: 0 }),
        ([1, 0], 0x6162, Reply::Innovative { at: 0 }),
        ([2, 0], 0xC2C4, Reply::NotInnovative { front: 1 }),
        ([0, 1], 0x6300, Reply::Innovative { at: 1 }),
        ([1, 1], 0x0262, Reply::NotInnovative { front: 2 }),
        ([1, 1], 0x0263, Reply::Conflicting { front: 2 }),
    ];
    for (coeffs, symbol, reply) in cases {
        let offered = packet(alloc, &coeffs, &[symbol])?;
        let answer = basis.offer(offered)?;
        assert_eq!(rt; answer, reply);
    }
    assert_eq!(rt; basis.rank(), 2);
    let recorded = basis.records().get(1).ok_or("a record")?;
    assert_eq!(rt; recorded.payload.as_slice(), [0x6300].as_slice());
    Ok(())
}

#[test]
fn columns_are_missing_until_a_row_has_its_pivot_there(rt: HostRuntime) -> Result<(), Fail> {
    let alloc = rt.alloc();
    let mut missing = [false, false];
    let mut basis = PlainBasis::new(alloc, 2, 1);
    basis.missing_columns(&mut missing);
    assert_eq!(rt; missing, [true, true]);
    basis.offer(packet(alloc, &[1, 1], &[0x0262])?)?;
    basis.missing_columns(&mut missing);
    assert_eq!(rt; missing, [false, true]);
    basis.offer(packet(alloc, &[1, 2], &[0xA762])?)?;
    basis.missing_columns(&mut missing);
    assert_eq!(rt; missing, [false, false]);
    Ok(())
}

#[test]
fn a_first_row_may_have_its_pivot_in_the_second_column(rt: HostRuntime) -> Result<(), Fail> {
    let alloc = rt.alloc();
    let mut missing = [false, false];
    let mut basis = PlainBasis::new(alloc, 2, 1);
    basis.offer(packet(alloc, &[0, 1], &[0x6300])?)?;
    basis.missing_columns(&mut missing);
    assert_eq!(rt; missing, [true, false]);
    Ok(())
}
