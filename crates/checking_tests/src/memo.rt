//! What a memo of one answer has.

use lk_ask::kept::Kept;
use lk_ask::query::{Answer, Query};
use lk_memo::PrivateMemo;
use std::test::Fail;

const KEPT: Kept = Kept {
    answer: Answer::Term(7),
    cost: 2,
    top: Some(4),
};

fn is_kept(found: Option<Kept>) -> bool {
    let Some(kept) = found else {
        return false;
    };
    matches!(kept.answer, Answer::Term(7)) && kept.cost == 2 && kept.top == Some(4)
}

#[test]
fn an_answer_is_found_until_all_is_forgotten(rt: HostRuntime) -> Result<(), Fail> {
    let mut memo = PrivateMemo::new(rt.alloc(), 1)?;
    memo.keep(Query::Core(3), KEPT)?;
    assert!(rt; is_kept(memo.find(Query::Core(3))));
    memo.clear();
    assert!(rt; memo.find(Query::Core(3)).is_none());
    Ok(())
}

#[test]
fn the_last_answer_stays(rt: HostRuntime) -> Result<(), Fail> {
    let mut memo = PrivateMemo::new(rt.alloc(), 1)?;
    memo.keep(Query::Core(3), KEPT)?;
    memo.keep(Query::Same(3, 4), KEPT)?;
    assert!(rt; memo.find(Query::Core(3)).is_none());
    assert!(rt; is_kept(memo.find(Query::Same(3, 4))));
    Ok(())
}

const LASTS: Kept = Kept {
    answer: Answer::Term(7),
    cost: 100,
    top: Some(4),
};

/// Whether an answer over the first ten terms, which looked at unit 4, is found at unit 6, after it
/// was kept at unit 5, and not at unit 4.
fn outlasts_its_unit(memo: &mut PrivateMemo) -> Result<bool, Fail> {
    memo.begin(10);
    memo.start(5);
    memo.keep(Query::Core(3), LASTS)?;
    memo.start(4);
    if memo.find(Query::Core(3)).is_some() {
        return Ok(false);
    }
    memo.start(6);
    Ok(memo.find(Query::Core(3)).is_some())
}

#[test]
fn an_answer_outlasts_its_unit(rt: HostRuntime) -> Result<(), Fail> {
    let mut memo = PrivateMemo::new(rt.alloc(), 65_536)?;
    assert!(rt; outlasts_its_unit(&mut memo)?);
    Ok(())
}
