//! The laws of draws: what a packet drawn has of the packets of its front.
ghost use Rattle.recode.specs.Laws.{DrawPassingLaw, DrawSpanLaws, DrawTruthLaws};

/// A packet drawn fits, and lies in the span of its front. With a polluted draw's change it fits still.
pub fn spans()
    ensures { DrawSpanLaws }
{
    gf16::laws::field();
    linear_spec::laws::combinations();
}

/// No check refuses a packet drawn over a front of one generation whose packets all pass.
pub fn passing()
    ensures { DrawPassingLaw }
{
    linear_spec::laws::checks();
}

/// Drawing keeps truth, and pollution breaks it: over a front whose packets are true to some blocks the packet drawn is true to
/// them too, and with a polluted draw's change, where there is a payload, it no longer is.
pub fn truth()
    ensures { DrawTruthLaws }
{
    gf16::laws::field();
    linear_spec::laws::combinations();
}
