//! The line on the error output.
ghost use Rattle.std.specs.Prelude.{◌≡◌, ◌⊎◌, ◌+◌, ◌<◌, ◌≤◌, ◌++◌, codes, decimal, length};
ghost use Rattle.std.specs.Io.KnownBytes.{Appends};
ghost use Rattle.hex.specs.Hex.{encode_lower};
ghost use Rattle.swarm_io.specs.Counts.{Rose};
ghost use Rattle.swarm_io.specs.Moved.{AppendsPrefix};
ghost use Rattle.avalanche_cli.specs.Lines.{line_of, name_of_kind, text_of_class, text_of_end};

use crate::End;
use arrayvec::ArrayVec;
use avalanche_args::WordClass;
use itoa::Buffer;
use packet_wire::{FaultKind, WireFault};
use swarm_io::{Sink, write_all_of};

/// The bytes of a line before its text.
const FRONT: usize = 11;

/// The bytes of the longest line, that of a digest.
const LONGEST: usize = 92;

/// A line, or its front, in a buffer of its own.
type Line = ArrayVec<u8, LONGEST>;

/// Writes the line of an end. A refusal of the sink is passed over. It takes no memory.
pub(crate) fn write_line<E: Sink>(end: &End, errors: &mut E)
    ensures prefix { AppendsPrefix (E.contents errors.old) (E.contents errors.new) (line_of end.now) }
    ensures whole { Appends (E.contents errors.old) (E.contents errors.new) (line_of end.now)
        ⊎ (Rose (E.faults errors.old) (E.faults errors.new) ⊎ Rose (E.wants errors.old) (E.wants errors.new)) }
    ensures done { end.now ≡ End.Done → errors.new ≡ errors.old }
    ensures faults { E.faults errors.old ≤ E.faults errors.new }
    ensures wants { E.wants errors.old ≤ E.wants errors.new }
{
    let line = line_of(end);
    let _passed_over = write_all_of(errors, line.as_slice());
}

/// The line of an end.
fn line_of(end: &End) -> Line
    ensures { result.items ≡ line_of end.now }
{
    let mut line = Line::new();
    if *end == End::Done {
        return line;
    }
    append(&mut line, "avalanche: ");
    append_end(&mut line, end);
    line.push(b'\n');
    line
}

/// Appends an end in words.
fn append_end(line: &mut Line, end: &End)
    requires { length line.old.items ≤ FRONT }
    ensures items { line.new.items ≡ line.old.items ++ text_of_end end.now }
    ensures room { length line.new.items < LONGEST }
{
    match end {
        End::Done => {}
        End::Usage(class) => append_usage(line, *class),
        End::ReadFault => append(line, "read fault"),
        End::WriteFault => append(line, "write fault"),
        End::TooLarge { limit } => append_limit(line, *limit),
        End::BadStream(fault) => append_fault(line, fault),
        End::Incomplete { generation, rank } => append_rank(line, *generation, *rank),
        End::Mismatch { found } => append_digest(line, found),
        End::Memory => append(line, "out of memory"),
    }
}

/// Appends what is wrong with words.
fn append_usage(line: &mut Line, class: WordClass)
    requires { length line.old.items ≤ FRONT }
    ensures items { line.new.items ≡ line.old.items ++ (codes "usage: " ++ text_of_class class) }
    ensures room { length line.new.items < LONGEST }
{
    append(line, "usage: ");
    match class {
        WordClass::NoCommand => append(line, "no command"),
        WordClass::UnknownCommand => append(line, "unknown command"),
        WordClass::BadWords => append(line, "bad words"),
        WordClass::BadNumber(option) => append_two(line, "bad number ", option.text()),
        WordClass::BadChoice(option) => append_two(line, "bad choice ", option.text()),
        WordClass::BadPair(option) => append_two(line, "bad pair ", option.text()),
    }
}

/// Appends the limit that an input is over.
fn append_limit(line: &mut Line, limit: u64)
    requires { length line.old.items ≤ FRONT }
    ensures items { line.new.items ≡ line.old.items ++ (codes "too large: limit " ++ (decimal limit ++ codes " bytes")) }
    ensures room { length line.new.items < LONGEST }
{
    append(line, "too large: limit ");
    append_number(line, limit);
    append(line, " bytes");
}

/// Appends the fault of a stream.
fn append_fault(line: &mut Line, fault: &WireFault)
    requires { length line.old.items ≤ FRONT }
    ensures items { line.new.items ≡ line.old.items
        ++ (codes "bad stream: " ++ (name_of_kind fault.now.kind ++ (codes " at " ++ decimal fault.now.offset))) }
    ensures room { length line.new.items < LONGEST }
{
    append(line, "bad stream: ");
    append(line, kind_name(fault.kind));
    append(line, " at ");
    append_number(line, fault.offset);
}

/// Appends the rank that a generation lacks.
fn append_rank(line: &mut Line, generation: u16, rank: u16)
    requires { length line.old.items ≤ FRONT }
    ensures items { line.new.items ≡ line.old.items
        ++ (codes "incomplete: generation " ++ (decimal generation ++ (codes " rank " ++ decimal rank))) }
    ensures room { length line.new.items < LONGEST }
{
    append(line, "incomplete: generation ");
    append_number(line, u64::from(generation));
    append(line, " rank ");
    append_number(line, u64::from(rank));
}

/// Appends the digest that was found.
fn append_digest(line: &mut Line, found: &[u8; 32])
    requires { length line.old.items ≤ FRONT }
    ensures items { line.new.items ≡ line.old.items ++ (codes "mismatch: found " ++ encode_lower found.now) }
    ensures room { length line.new.items < LONGEST }
{
    append(line, "mismatch: found ");
    append_bytes(line, &hex_digits(found));
}

/// The hexadecimal digits of a digest.
fn hex_digits(digest: &[u8; 32]) -> [u8; 64]
    ensures { result ≡ encode_lower digest.now }
{
    let mut digits = [0; 64];
    hex::encode_to_slice(*digest, &mut digits).unwrap();
    digits
}

/// The name of a kind of fault.
fn kind_name<'a>(kind: FaultKind) -> &'a str
    ensures name { result.now ≡ name_of_kind kind }
    ensures short { length result.now ≤ 10 }
{
    match kind {
        FaultKind::BadMagic => "BadMagic",
        FaultKind::BadVersion => "BadVersion",
        FaultKind::BadKind => "BadKind",
        FaultKind::BadLength => "BadLength",
        FaultKind::BadField => "BadField",
        FaultKind::OutOfOrder => "OutOfOrder",
        FaultKind::Truncated => "Truncated",
        FaultKind::AfterEnd => "AfterEnd",
    }
}

/// Appends a number in decimal digits.
fn append_number(line: &mut Line, number: u64)
    requires { length line.old.items + 20 ≤ LONGEST }
    ensures items { line.new.items ≡ line.old.items ++ decimal number }
    ensures room { length line.new.items ≤ length line.old.items + 20 }
{
    let mut buffer = Buffer::new();
    append(line, buffer.format(number));
}

/// Appends two texts.
fn append_two(line: &mut Line, first: &str, second: &str)
    requires { length line.old.items + length first.now + length second.now ≤ LONGEST }
    ensures { line.new.items ≡ line.old.items ++ (first.now ++ second.now) }
{
    append(line, first);
    append(line, second);
}

/// Appends a text.
fn append(line: &mut Line, text: &str)
    requires { length line.old.items + length text.now ≤ LONGEST }
    ensures { line.new.items ≡ line.old.items ++ text.now }
{
    append_bytes(line, text.as_bytes());
}

/// Appends bytes.
fn append_bytes(line: &mut Line, bytes: &[u8])
    requires { length line.old.items + length bytes.now ≤ LONGEST }
    ensures { line.new.items ≡ line.old.items ++ bytes.now }
{
    line.try_extend_from_slice(bytes).unwrap();
}

#[cfg(test)]
mod tests;
