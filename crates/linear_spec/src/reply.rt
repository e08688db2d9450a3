//! What an offer is answered.
/// What a receiver answers to an offered packet.
///
/// `at` and `front` are numbers of records: `at` those before this one was recorded, `front` those that were there.
#[derive(Clone, Copy, Debug, PartialEq, Eq)]
pub enum Reply {
    /// The packet fails the equation of this check, the first that it fails.
    FailedCheck { check: u8, front: u16 },
    /// The packet tells something new, and was recorded.
    Innovative { at: u16 },
    /// The packet follows from the records.
    NotInnovative { front: u16 },
    /// The coefficients follow from the records, and the payload is another.
    Conflicting { front: u16 },
}
