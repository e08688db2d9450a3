//! What the words ask to be timed.
use crate::decoding::Decoding;
use crate::offers::Offers;
use crate::shared::SharedOffers;
use crate::tables::Tables;
use crate::work::Work;
use crate::zeros::Zeros;
use linear_spec::Words;

/// What words ask for.
#[derive(Clone, Copy, Debug, PartialEq, Eq)]
pub enum Job {
    /// `KERNEL LANES BYTES TIMES`.
    Kernel(Work),
    /// `decode PIECE TIMES`.
    Decode(Decoding),
    /// `offers plain K S COUNT TIMES`.
    OffersPlain(Offers),
    /// `offers shared K S COUNT PASSES TIMES`.
    OffersShared(SharedOffers),
    /// `table K S PASSES TIMES`.
    Table(Tables),
    /// `zeros BYTES TIMES`.
    Zeros(Zeros),
}

impl Job {
    /// The job that words name, or `None` where they name none.
    pub fn named(words: &Words) -> Option<Job> {
        let first = words.get(0)?;
        match (first, words.len()) {
            ("decode", 3) => {
                let decoding = Decoding::named(words.get(1)?, words.get(2)?)?;
                Some(Job::Decode(decoding))
            }
            ("offers", _) => offers_named(words),
            ("table", 5) => {
                let tables = Tables::named(
                    words.get(1)?,
                    words.get(2)?,
                    words.get(3)?,
                    words.get(4)?,
                )?;
                Some(Job::Table(tables))
            }
            ("zeros", 3) => {
                let zeros = Zeros::named(words.get(1)?, words.get(2)?)?;
                Some(Job::Zeros(zeros))
            }
            (kernel, 4) => {
                let work = Work::named(kernel, words.get(1)?, words.get(2)?, words.get(3)?)?;
                Some(Job::Kernel(work))
            }
            _ => None,
        }
    }
}

/// The offers that words name, or `None` where they name none.
fn offers_named(words: &Words) -> Option<Job> {
    match (words.get(1)?, words.len()) {
        ("plain", 6) => {
            let offers = Offers::named(words.get(2)?, words.get(3)?, words.get(4)?, words.get(5)?)?;
            Some(Job::OffersPlain(offers))
        }
        ("shared", 7) => {
            let shared = SharedOffers::named(
                words.get(2)?,
                words.get(3)?,
                words.get(4)?,
                words.get(5)?,
                words.get(6)?,
            )?;
            Some(Job::OffersShared(shared))
        }
        _ => None,
    }
}
