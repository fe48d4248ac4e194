//! The table of a session, with its rule and what its steps tell.

use crate::view::View;
use atomic_table::{Join, Play, Split, TableRule};
use std::marker::{Brand, PhantomData};

/// The rule of a session.
pub struct InSession;

impl TableRule<u8, View, u8> for InSession {
    ghost use Rattle.lk_session.specs.Rule.{IsSession, first_view};

    ghost holds = { λ key. IsSession };

    ghost first = { λ key. first_view };
}

/// Looking at the first word.
pub struct Looks;

impl Play<u8, View> for Looks {
    ghost use Rattle.lk_session.specs.Steps.{Looked};

    ghost then = { Looked };
}

/// Looking at the second word.
pub struct Tells;

impl Play<u8, View> for Tells {
    ghost use Rattle.lk_session.specs.Steps.{Told};

    ghost then = { Told };
}

/// Which call it is that is counted.
pub trait Call {
    ghost use Rattle.lk_session.specs.declared.view.Submission.{Submission};

    ghost call: { Submission };
}

impl Call for Brand {
    ghost use Rattle.std.specs.Prelude.{[]};

    ghost call = { record { tag = 0; text = [] } };
}

/// Counting a call: a fetch_add of 1 on the first word.
pub struct Counts<N: Call> {
    of: PhantomData<N>,
}

impl<N: Call> Play<u8, View> for Counts<N> {
    ghost use Rattle.lk_session.specs.Steps.{Counted};

    ghost then = { Counted N.call };
}

/// Counting a pass that is to come: a fetch_add of 1 on the second word.
pub struct Asks;

impl Play<u8, View> for Asks {
    ghost use Rattle.lk_session.specs.Steps.{Asked};

    ghost then = { Asked };
}

/// A caller's seat goes into the book's.
pub struct Meets;

impl Join<View> for Meets {
    ghost use Rattle.lk_session.specs.Steps.{met};
    ghost use Rattle.lk_session.specs.Rule.{spent_view};

    ghost both = { met };

    ghost spent = { spent_view };
}

/// It comes out again.
pub struct Parts;

impl Split<View> for Parts {
    ghost use Rattle.lk_session.specs.Steps.{left_alone, parted};

    ghost left = { left_alone };

    ghost right = { parted };
}

/// A pass comes.
pub struct Cuts;

impl Split<View> for Cuts {
    ghost use Rattle.lk_session.specs.Steps.{cut, newcomer};

    ghost left = { cut };

    ghost right = { newcomer };
}

/// One pass takes in another.
pub struct Merges;

impl Join<View> for Merges {
    ghost use Rattle.lk_session.specs.Steps.{both_views};
    ghost use Rattle.lk_session.specs.Rule.{spent_view};

    ghost both = { both_views };

    ghost spent = { spent_view };
}
