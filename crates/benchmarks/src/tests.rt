//! Each job at small sizes, against values that were worked out by hand.
ghost use Rattle.std.specs.Prelude.{◌≤◌, length};

use crate::decoding::Decoding;
use crate::exchanges::Exchanges;
use crate::job::Job;
use crate::offers::Offers;
use crate::shared::SharedOffers;
use crate::tables::Tables;
use crate::work::Work;
use crate::zeros::Zeros;
use gf16::Memory;
use linear_spec::Words;
use std::alloc::Global;
use std::test::Fail;
use std::thread::Threads;

// The sums come from a Python script that multiplies polynomials without carries and divides by 0x1100B.

#[test]
fn kernels_leave_the_sums_of_the_field(rt: HostRuntime) -> Result<(), Fail> {
    let cases = [
        ("add_scaled", "8", "66", "3", 0x0020),
        ("add_scaled", "16", "1024", "5", 0xDE00),
        ("scale", "32", "66", "3", 0x00C0),
        ("dot", "8", "1024", "5", 0x85CE),
        ("dot", "16", "66", "3", 0x4ABC),
        ("xor", "8", "66", "3", 0xF820),
        ("xor", "32", "0", "2", 0x0000),
    ];
    for (kernel, lanes, bytes, turns, sum) in cases {
        let work = Work::named(kernel, lanes, bytes, turns).ok_or(kernel)?;
        assert_eq!(rt;
            work.sum_after(rt.alloc())?,
            sum,
            "{kernel} {lanes} {bytes} {turns}"
        );
    }
    Ok(())
}

// The stream of a file of three bytes: a manifest, a ticket, two packets and an end.
const ABC_STREAM: [u8; 143] =
    *b"AVLN\x01\x01\x00\x00\x00\x2C\x00\x00\x00\x00\x00\x00\x00\x03\x00\x02\x00\x02\
\xBA\x78\x16\xBF\x8F\x01\xCF\xEA\x41\x41\x40\xDE\x5D\xAE\x22\x23\xB0\x03\x61\xA3\x96\x17\x7A\x9C\xB4\x10\xFF\x61\xF2\x00\x15\xAD\
AVLN\x01\x02\x00\x00\x00\x21\x00\x00\x00\x00\x00\x00\x00\x01\x00\x00\x00\x00\x00\x00\x00\x01\
\x00\x00\x00\x00\x00\x00\x00\x00\x00\x00\x00\x00\x00\x00\x00\x00\x00\
AVLN\x01\x03\x00\x00\x00\x08\x00\x00\x00\x01\x00\x00ab\
AVLN\x01\x03\x00\x00\x00\x08\x00\x00\x00\x00\x00\x01c\x00\
AVLN\x01\x04\x00\x00\x00\x00";

#[test]
fn decodes_the_frames_of_a_stream(rt: HostRuntime) -> Result<(), Fail> {
    for (piece, turns, frames) in [
        ("1", "1", 5),
        ("7", "3", 15),
        ("143", "2", 10),
        ("65536", "4", 20),
    ] {
        let decoding = Decoding::named(piece, turns).ok_or(piece)?;
        let given = decoding.frames_given(rt.alloc(), &ABC_STREAM);
        assert_eq!(rt; given, Ok(frames), "{piece} {turns}");
        assert!(rt;
            decoding
                .frames_given(rt.alloc(), &ABC_STREAM[..142])
                .is_err()
        );
    }
    Ok(())
}

#[test]
fn plain_and_shared_bases_record_as_many(rt: HostRuntime) -> Result<(), Fail> {
    let cases = [
        ("2", "1", "4", "1", "3", 6),
        ("8", "3", "5", "2", "2", 10),
        ("8", "3", "20", "4", "2", 16),
        ("8", "0", "20", "16", "1", 8),
        ("8", "3", "0", "3", "2", 0),
        ("64", "4", "64", "2", "0", 0),
    ];
    for (k, s, count, passes, turns, records) in cases {
        let offers = Offers::named(k, s, count, turns).ok_or(k)?;
        let plain = offers.records_of_plain(rt.alloc())?;
        assert_eq!(rt; plain, records, "{k} {s} {count} {turns}");
        let shared = SharedOffers::named(k, s, count, passes, turns).ok_or(k)?;
        let of_shared = records_of_shared(&rt, rt.alloc(), &shared)?;
        assert_eq!(rt; of_shared, records, "{k} {s} {count} {passes} {turns}");
    }
    Ok(())
}

fn records_of_shared<R: Threads + Sync>(
    rt: &R,
    alloc: Global,
    shared: &SharedOffers,
) -> Result<u64, Memory> {
    Ok(shared.outcome(rt, alloc)?.records)
}

#[test]
fn exchanges_are_lost_to_other_passes_alone(rt: HostRuntime) -> Result<(), Fail> {
    let alone = SharedOffers::named("8", "3", "20", "1", "2").ok_or("one pass")?;
    let own = Exchanges { tried: 16, lost: 0 };
    assert_eq!(rt; alone.outcome(&rt, rt.alloc())?.exchanges, own);
    let rivals = SharedOffers::named("8", "3", "20", "4", "2").ok_or("four passes")?;
    let theirs = rivals.outcome(&rt, rt.alloc())?.exchanges;
    assert_eq!(rt; theirs.tried - theirs.lost, 16);
    Ok(())
}

#[test]
fn makes_the_words_of_tables(rt: HostRuntime) -> Result<(), Fail> {
    let cases = [
        ("2", "1", "1", "3", 60),
        ("64", "512", "4", "2", 39_568),
        ("64", "512", "4", "0", 0),
    ];
    for (k, s, passes, turns, words) in cases {
        let tables = Tables::named(k, s, passes, turns).ok_or(k)?;
        assert_eq!(rt;
            tables.words_made(rt.alloc())?,
            words,
            "{k} {s} {passes} {turns}"
        );
    }
    Ok(())
}

#[test]
fn zeros_have_no_sum(rt: HostRuntime) -> Result<(), Fail> {
    for (bytes, turns) in [("0", "1"), ("2", "1"), ("67", "3")] {
        let zeros = Zeros::named(bytes, turns).ok_or(bytes)?;
        assert_eq!(rt; zeros.sum_after(rt.alloc())?, 0, "{bytes} {turns}");
    }
    Ok(())
}

fn words_in(alloc: Global, line: &str) -> Result<Words, Memory> {
    let mut words = Words::new(alloc);
    for word in line.split_ascii_whitespace() {
        words.push(word)?;
    }
    Ok(words)
}

#[test]
fn words_name_jobs(rt: HostRuntime) -> Result<(), Fail> {
    let cases = [
        ("dot 8 66 3", true),
        ("add 8 66 3", false),
        ("dot 7 66 3", false),
        ("dot 8 -1 3", false),
        ("dot 8 66 often", false),
        ("dot 8 66", false),
        ("decode 65536 1", true),
        ("decode 65537 1", false),
        ("decode 0 1", false),
        ("decode 1 0", false),
        ("decode 1", false),
        ("offers plain 64 512 64 0", true),
        ("offers plain 0 512 64 1", false),
        ("offers plain 65 512 64 1", false),
        ("offers plain 64 512 64 4 1", false),
        ("offers shared 64 512 64 16 0", true),
        ("offers shared 64 512 64 17 1", false),
        ("offers shared 64 512 64 0 1", false),
        ("offers shared 64 512 64 1", false),
        ("offers mixed 64 512 64 1", false),
        ("offers", false),
        ("table 64 512 16 0", true),
        ("table 65 512 4 1", false),
        ("table 0 512 4 1", false),
        ("table 64 512 17 1", false),
        ("table 64 512 0 1", false),
        ("table 64 512 4", false),
        ("zeros 0 1", true),
        ("zeros 2 0", false),
        ("zeros 2 1 1", false),
        ("", false),
    ];
    for (line, known) in cases {
        let words = words_in(rt.alloc(), line)?;
        assert_eq!(rt; Job::named(&words).is_some(), known, "{line}");
    }
    Ok(())
}
