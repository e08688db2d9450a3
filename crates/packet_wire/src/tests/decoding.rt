//! Streams in pieces of every length, and their faults.
ghost use Rattle.std.specs.Prelude.{◌<◌};

use super::*;

/// What a decoder answers in the end to bytes that are fed in pieces of `size` bytes.
fn decode(
    alloc: Global,
    bytes: &[u8],
    size: usize,
    frames: &mut List<Frame>,
) -> Result<(), FeedError>
    requires { 0 < size }
{
    let _len = bytes.len();
    let mut decoder = Decoder::new(alloc);
    let mut rest = bytes;
    while !rest.is_empty() {
        let (piece, after) = rest.split_at(size.min(rest.len()));
        decoder.feed(piece, frames)?;
        rest = after;
    }
    decoder.finish()
}

/// Whether a decoder finds this fault, and gives so many frames, whole and in pieces of one and of seven bytes.
fn fails_at(alloc: Global, bytes: &[u8], kind: FaultKind, offset: u64, given: usize) -> bool {
    [1, 7, 4096].iter().all(|size| {
        let mut frames = List::new(alloc);
        let answer = decode(alloc, bytes, *size, &mut frames);
        answer == Err(FeedError::Fault(WireFault { offset, kind })) && frames.len() == given
    })
}

#[test]
fn finds_each_fault_of_abc_at_its_place(rt: HostRuntime) -> Result<(), Fail> {
    let bytes = abc_stream(rt.alloc())?;
    // A byte, its new value, the fault, its place, and the frames before it.
    let changes = [
        (2, 0x58, FaultKind::BadMagic, 2, 0),
        (4, 2, FaultKind::BadVersion, 4, 0),
        (5, 9, FaultKind::BadKind, 5, 0),
        (5, 0, FaultKind::BadKind, 5, 0),
        (5, 2, FaultKind::OutOfOrder, 5, 0),
        (9, 0x2D, FaultKind::BadLength, 6, 0),
        (14, 2, FaultKind::BadField, 10, 0),
        (19, 0, FaultKind::BadField, 18, 0),
        (19, 65, FaultKind::BadField, 18, 0),
        (21, 3, FaultKind::BadField, 20, 0),
        (21, 0, FaultKind::BadField, 20, 0),
        (15, 1, FaultKind::BadField, 20, 0),
        (54, 0, FaultKind::BadMagic, 54, 1),
        (59, 3, FaultKind::OutOfOrder, 59, 1),
        (63, 0x22, FaultKind::BadLength, 60, 1),
        (63, 0x25, FaultKind::BadField, 96, 1),
        (96, 1, FaultKind::BadField, 96, 1),
        (96, 9, FaultKind::BadField, 96, 1),
        (102, 1, FaultKind::OutOfOrder, 102, 2),
        (106, 0x0A, FaultKind::BadLength, 103, 2),
        (107, 1, FaultKind::BadField, 107, 2),
        (108, 1, FaultKind::BadField, 107, 2),
        (115, 0x42, FaultKind::BadMagic, 115, 3),
        (142, 1, FaultKind::BadLength, 139, 4),
    ];
    for (at, byte, kind, offset, given) in changes {
        let mut changed = bytes.clone()?;
        *changed.get_mut(at).ok_or("a byte")? = byte;
        assert!(rt;
            fails_at(rt.alloc(), &changed, kind, offset, given),
            "byte {at} = {byte}"
        );
    }
    Ok(())
}

#[test]
fn finds_where_abc_is_cut_short_or_goes_on(rt: HostRuntime) -> Result<(), Fail> {
    let alloc = rt.alloc();
    let bytes = abc_stream(alloc)?;
    for (len, given) in [(0, 0), (9, 0), (53, 0), (54, 1), (142, 4)] {
        let front = bytes.get(..len).ok_or("a front")?;
        let offset = len as u64;
        assert!(rt;
            fails_at(alloc, front, FaultKind::Truncated, offset, given),
            "{len} bytes"
        );
    }
    // What the length must be is asked at its fourth byte.
    let first_of_length = b"AVLN\x01\x01\xFF".as_slice();
    assert!(rt; fails_at(alloc, first_of_length, FaultKind::Truncated, 7, 0));
    let mut longer = bytes;
    longer.push(0x41)?;
    assert!(rt; fails_at(alloc, &longer, FaultKind::AfterEnd, 143, 5));
    Ok(())
}

#[test]
fn gives_the_frames_of_abc(rt: HostRuntime) -> Result<(), Fail> {
    let alloc = rt.alloc();
    let bytes = abc_stream(alloc)?;
    let manifest = abc_manifest().ok_or("a manifest")?;
    let mut frames = List::new(alloc);
    assert_eq!(rt; decode(alloc, &bytes, 1, &mut frames), Ok(()));
    assert_eq!(rt; frames.len(), 5);
    assert!(rt; matches!(frames.get(0), Some(Frame::Manifest(read)) if *read == manifest));
    let is_ticket = |ticket: &Ticket| {
        ticket.key.as_slice() == &TICKET[10..42] && ticket.checks == 0 && ticket.sums.len() == 0
    };
    assert!(rt; matches!(frames.get(1), Some(Frame::Ticket(ticket)) if is_ticket(ticket)));
    assert!(rt;
        matches!(frames.get(2), Some(Frame::Packet(p)) if is_packet(p, &[1, 0], &[0x6162]))
    );
    assert!(rt;
        matches!(frames.get(3), Some(Frame::Packet(p)) if is_packet(p, &[0, 1], &[0x6300]))
    );
    assert!(rt; matches!(frames.get(4), Some(Frame::End)));
    Ok(())
}

#[test]
fn takes_a_stream_in_four_pieces(rt: HostRuntime) -> Result<(), Fail> {
    let alloc = rt.alloc();
    let pieces: [&[u8]; 4] = [&MANIFEST, &TICKET, &PACKETS, &END];
    let mut frames = List::new(alloc);
    let mut decoder = Decoder::new(alloc);
    assert_eq!(rt; decoder.feed_all(&pieces, &mut frames), Ok(()));
    assert_eq!(rt; decoder.finish(), Ok(()));
    assert_eq!(rt; frames.len(), 5);
    Ok(())
}

#[test]
fn keeps_its_fault(rt: HostRuntime) -> Result<(), Fail> {
    let alloc = rt.alloc();
    let mut frames = List::new(alloc);
    let mut decoder = Decoder::new(alloc);
    let fault = FeedError::Fault(WireFault {
        offset: 4,
        kind: FaultKind::BadVersion,
    });
    let front: [&[u8]; 2] = [b"AVL", b"N\x02"];
    assert_eq!(rt; decoder.feed_all(&front, &mut frames), Err(fault));
    assert_eq!(rt; decoder.feed(&MANIFEST, &mut frames), Err(fault));
    assert_eq!(rt; decoder.feed(&[], &mut frames), Err(fault));
    assert_eq!(rt; decoder.finish(), Err(fault));
    assert_eq!(rt; frames.len(), 0);
    Ok(())
}

// The manifest of an empty file: the length is 0, and so there are no generations.
fn empty_manifest() -> [u8; 54] {
    let mut manifest = MANIFEST;
    manifest[17] = 0;
    manifest
}

#[test]
fn reads_the_stream_of_an_empty_file(rt: HostRuntime) -> Result<(), Fail> {
    let alloc = rt.alloc();
    // There are no sums, whatever the number of checks.
    for checks in [0, 8] {
        let mut ticket = TICKET;
        ticket[42] = checks;
        let mut bytes = Vec::new(alloc);
        bytes.extend_from_slice(&empty_manifest())?;
        bytes.extend_from_slice(&ticket)?;
        bytes.extend_from_slice(&END)?;
        assert_eq!(rt; bytes.len(), 107);
        let mut frames = List::new(alloc);
        assert_eq!(rt; decode(alloc, &bytes, 7, &mut frames), Ok(()));
        assert_eq!(rt; frames.len(), 3);
    }
    Ok(())
}

#[test]
fn finds_no_packet_of_an_empty_file(rt: HostRuntime) -> Result<(), Fail> {
    let mut bytes = Vec::new(rt.alloc());
    bytes.extend_from_slice(&empty_manifest())?;
    bytes.extend_from_slice(&TICKET)?;
    bytes.extend_from_slice(&PACKETS)?;
    assert!(rt; fails_at(rt.alloc(), &bytes, FaultKind::BadField, 107, 2));
    Ok(())
}

/// Writes frames one after another: `None` where one has more than a writer takes, or memory is out.
fn write_all(frames: &List<Frame>, out: &mut List<u8>) -> Option<()> {
    for frame in frames.as_slice() {
        match frame {
            Frame::Manifest(manifest) => write_manifest(manifest, out).ok()?,
            Frame::Ticket(ticket) if ticket.checks <= 8 && ticket.sums.len() <= 131_072 => {
                write_ticket(ticket, out).ok()?;
            }
            Frame::Packet(p) if p.coeffs.len() <= 64 && p.payload.len() <= 2048 => {
                write_packet(p, out).ok()?;
            }
            Frame::End => write_end(out).ok()?,
            _ => return None,
        }
    }
    Some(())
}

/// Whether the bytes are read in pieces of 1, 7 and 4,096 bytes, as so many frames which spell them again.
fn goes_round(alloc: Global, bytes: &[u8], count: usize) -> bool {
    [1, 7, 4096].iter().all(|size| {
        let mut frames = List::new(alloc);
        let answer = decode(alloc, bytes, *size, &mut frames);
        let mut out = List::new(alloc);
        let written = write_all(&frames, &mut out);
        answer.is_ok() && written.is_some() && frames.len() == count && out.as_slice() == bytes
    })
}

#[test]
fn reads_what_was_written_in_pieces(rt: HostRuntime) -> Result<(), Fail> {
    let bytes = abc_stream(rt.alloc())?;
    assert!(rt; goes_round(rt.alloc(), &bytes, 5));
    Ok(())
}

// One generation of one block, and eight checks: eight sums.
#[test]
fn reads_a_ticket_of_eight_checks(rt: HostRuntime) -> Result<(), Fail> {
    let alloc = rt.alloc();
    let shape = Shape::new(2, 1, 2).ok().ok_or("a shape")?;
    let digest = [0xD1; 32];
    let symbols = [1, 0x0203, 0x0405, 0x0607, 0x0809, 0x0A0B, 0x0C0D, 0xFFFE];
    let sums = SymVec::from_slice(alloc, &symbols)?;
    let key = [0x5A; 32];
    let checks = 8;
    let mut out = List::new(alloc);
    write_manifest(&Manifest { shape, digest }, &mut out)?;
    write_ticket(&Ticket { key, checks, sums }, &mut out)?;
    write_end(&mut out)?;
    assert_eq!(rt; out.len(), 54 + 59 + 10);
    let mut frames = List::new(alloc);
    assert_eq!(rt; decode(alloc, out.as_slice(), 1, &mut frames), Ok(()));
    let is_it = |ticket: &Ticket| {
        ticket.key == [0x5A; 32]
            && ticket.checks == 8
            && ticket.sums.as_slice() == symbols.as_slice()
    };
    assert!(rt; matches!(frames.get(1), Some(Frame::Ticket(ticket)) if is_it(ticket)));
    Ok(())
}

// 256 generations of 64 blocks, and eight checks: the frame of the ticket has 262,187 bytes.
#[test]
fn reads_the_largest_ticket(rt: HostRuntime) -> Result<(), Fail> {
    let alloc = rt.alloc();
    let shape = Shape::new(16_777_216, 64, 1024).ok().ok_or("a shape")?;
    let digest = [0xD1; 32];
    let sums = SymVec::zeros(alloc, 131_072)?;
    let key = [0x5A; 32];
    let checks = 8;
    let mut out = List::new(alloc);
    write_manifest(&Manifest { shape, digest }, &mut out)?;
    write_ticket(&Ticket { key, checks, sums }, &mut out)?;
    write_end(&mut out)?;
    assert_eq!(rt; out.len(), 54 + 262_187 + 10);
    assert!(rt; goes_round(alloc, out.as_slice(), 3));
    Ok(())
}

// K is 64 and B is 4096, so a packet's frame has 4236 bytes.
#[test]
fn reads_the_largest_packet(rt: HostRuntime) -> Result<(), Fail> {
    let alloc = rt.alloc();
    let shape = Shape::new(262_144, 64, 4096).ok().ok_or("a shape")?;
    let digest = [0xD1; 32];
    let sums = SymVec::zeros(alloc, 0)?;
    let key = [0x5A; 32];
    let checks = 0;
    let mut coeffs = [0x0102; 64];
    coeffs[63] = 0x8001;
    let mut payload = [0xFFFE; 2048];
    payload[2047] = 7;
    let mut out = List::new(alloc);
    write_manifest(&Manifest { shape, digest }, &mut out)?;
    write_ticket(&Ticket { key, checks, sums }, &mut out)?;
    write_packet(&packet(alloc, &coeffs, &payload)?, &mut out)?;
    write_end(&mut out)?;
    assert_eq!(rt; out.len(), 54 + 43 + 4236 + 10);
    let mut frames = List::new(alloc);
    assert_eq!(rt; decode(alloc, out.as_slice(), 4096, &mut frames), Ok(()));
    assert!(rt; matches!(frames.get(2), Some(Frame::Packet(p)) if is_packet(p, &coeffs, &payload)));
    assert!(rt; goes_round(alloc, out.as_slice(), 4));
    Ok(())
}
