//! The rule of the table, and what each kind of step tells.
ghost use Rattle.table_rows.specs.declared.view.View.TheVariants.{Founder, Spent};
ghost use Rattle.table_rows.specs.Views.{first_founder};
ghost use Rattle.table_rows.specs.Rule.{holds};
ghost use Rattle.table_rows.specs.Steps.{exchanged, join_caller_both, join_note_both, looked, note_left, note_right, number_left, number_right, was_read, wrote};

use crate::view::{Parameters, View};
use atomic_table::{Join, Play, Split, TableRule};

pub(crate) struct BasisRule;

impl TableRule<(), View, Parameters> for BasisRule {
    ghost holds = { holds };

    ghost first = { λ p. Founder (first_founder p) };
}

pub(crate) struct Look;

impl Play<(), View> for Look {
    ghost then = { looked };
}

pub(crate) struct Read;

impl Play<(), View> for Read {
    ghost then = { was_read };
}

pub(crate) struct Write;

impl Play<(), View> for Write {
    ghost then = { wrote };
}

pub(crate) struct Exchange;

impl Play<(), View> for Exchange {
    ghost then = { exchanged };
}

pub(crate) struct Number;

impl Split<View> for Number {
    ghost left = { number_left };

    ghost right = { number_right };
}

pub(crate) struct TakeNote;

impl Split<View> for TakeNote {
    ghost left = { note_left };

    ghost right = { note_right };
}

pub(crate) struct JoinNote;

impl Join<View> for JoinNote {
    ghost both = { join_note_both };

    ghost spent = { Spent };
}

pub(crate) struct JoinCaller;

impl Join<View> for JoinCaller {
    ghost both = { join_caller_both };

    ghost spent = { Spent };
}
