//! How far a stream has come.
use generation::Shape;

/// How far a stream has come: which frame may follow.
#[derive(Clone, Copy, Debug, PartialEq, Eq)]
pub(crate) enum Phase {
    BeforeManifest,
    BeforeTicket(Shape),
    BeforeEnd(Shape),
    Ended,
}
