//! The records and rows of a basis, out of its words.
ghost use Rattle.std.specs.Prelude.{◌≡◌, ◌≤◌, ◌+◌, ◌*◌, [], length};
ghost use Rattle.table_rows.specs.Layout.{record_in, records_of_words, region_length, region_of, row_in, rows_of_words};
ghost use Rattle.shared_basis.specs.Decoding.{AreBlanksFor, HaveRegions};

use crate::Params;
use linear_spec::{List, Packet, Record};
use table_rows::{take_packet, take_row, words_of_region};

/// Appends the records and the rows of words that have the regions of their directory. It fills the packets, the last one first.
pub(crate) fn decode_all(
    params: &Params,
    words: &[u64],
    packets: &mut List<Packet>,
    records: &mut List<Record>,
    rows: &mut List<Packet>,
)
    requires words { HaveRegions params.now.k params.now.s words.now }
    requires packets { AreBlanksFor params.now (2 * params.now.k) packets.old.items }
    requires records { (records.old.items ≡ []) × (params.now.k ≤ records.old.spare) }
    requires rows { (rows.old.items ≡ []) × (params.now.k ≤ rows.old.spare) }
    ensures records { records.new.items ≡ records_of_words params.now.generation params.now.k params.now.s words.now }
    ensures rows { rows.new.items ≡ rows_of_words params.now.generation params.now.k params.now.s words.now }
{
    for n in 0..usize::from(params.k) {
        if words[n] == 0 {
            return;
        }
        let region = region_at(params, words, words[n]);
        records.put(record_from(region, packets.pop().unwrap()));
        rows.put(row_from(region, packets.pop().unwrap()));
    }
}

/// The words of a region.
fn region_at<'a>(params: &Params, words: &'a [u64], region: u64) -> &'a [u64]
    requires from { 1 ≤ region }
    requires to { params.now.k + region * region_length params.now.k params.now.s ≤ length words.now }
    ensures count { length result.now ≡ region_length params.now.k params.now.s }
    ensures value { result.now ≡ region_of params.now.k params.now.s words.now region }
{
    let width = words_of_region(params.k, params.s) as usize;
    let start = usize::from(params.k) + (region as usize - 1) * width;
    &words[start..start + width]
}

/// The record in a region, with this packet filled.
fn record_from(region: &[u64], mut packet: Packet) -> Record
    requires { length region.now ≡ region_length (length packet.coeffs) (length packet.payload) }
    ensures { result ≡ record_in packet.generation (length packet.coeffs) (length packet.payload) region.now }
{
    take_packet(region, &mut packet);
    Record {
        caller: (region[0] / 0x1_0000_0000) as u32,
        call: (region[0] % 0x1_0000_0000) as u32,
        packet,
    }
}

/// The row in a region, in the place of this packet.
fn row_from(region: &[u64], mut row: Packet) -> Packet
    requires { length region.now ≡ region_length (length row.coeffs) (length row.payload) }
    ensures { result ≡ row_in row.generation (length row.coeffs) (length row.payload) region.now }
{
    take_row(region, &mut row);
    row
}
