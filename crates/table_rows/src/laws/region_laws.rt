//! Laws of the words of regions and of the records in them, of rows that are filled, and of fronts that are brought
//! together.
ghost use Rattle.table_rows.specs.RegionLaws.{FillingLaws, MeetingLaws, PackingLaws, ReadingLaw, RecordLaws, RegionLaws};

/// Symbols that are packed, with any words behind them, come back. Packing and unpacking go word by word.
pub fn packing()
    ensures { PackingLaws }
{}

/// A record, its row and the row's pivot come back from the words of their region.
pub fn region()
    ensures { RegionLaws }
{}

/// Good regions have packets that fit, pass and are fresh one after another, and rows that stand for them.
pub fn records()
    ensures { RecordLaws }
{}

/// Two sights that were brought together, each a part of what they make: the front is that of the one that knew as much or more,
/// where that was read whole.
pub fn meeting()
    ensures { MeetingLaws }
{}

/// A word that was read, and is read again, leaves a front as it is.
pub fn reading()
    ensures { ReadingLaw }
{}

/// A row that is filled word by word, from its first place on, by writes of a draft or by reads of a region that is
/// known: when all words are there, the row is whole, and they are its words.
pub fn filling()
    ensures { FillingLaws }
{}
