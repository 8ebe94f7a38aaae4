//! What machines answer.

use crate::boards::{Act, Board, Reported};
use live_model::Level;
use std::test::Fail;

#[test]
fn the_fold_that_comes_second_is_overtaken(rt: HostRuntime) -> Result<(), Fail> {
    let acts = [
        Act::Hour(1, 1, 0),
        Act::Hour(1, 1, 5),
        Act::Hour(1, 2, 0),
        Act::Plan(0),
        Act::Plan(1),
        Act::Hour(1, 2, 1),
        Act::Commit(0),
        Act::Commit(1),
        Act::Commit(1),
        Act::Hour(1, 2, 1),
    ];
    let wanted = [
        Reported::Accepted(1),
        Reported::Accepted(2),
        Reported::Accepted(3),
        Reported::Planned(true),
        Reported::Planned(true),
        Reported::Accepted(4),
        Reported::Folded,
        Reported::Overtaken(1),
        Reported::NothingPlanned,
        Reported::Late(4, 2024010201),
    ];
    let mut answers = Vec::new(rt.alloc());
    let mut board = Board::town(rt.alloc())?;
    board.play(rt.alloc(), &acts, &mut answers)?;
    assert!(rt; answers.as_slice() == wanted.as_slice());
    Ok(())
}

#[test]
fn what_can_be_shrunk_need_not_be_what_is_folded_next(rt: HostRuntime) -> Result<(), Fail> {
    let acts = [
        Act::Hour(1, 1, 0),
        Act::Hour(2, 1, 0),
        Act::Hour(2, 1, 1),
        Act::Hour(3, 1, 0),
        Act::Shrink,
        Act::Shrink,
        Act::Plan(0),
        Act::Commit(0),
        Act::Plan(0),
    ];
    let wanted = [
        Reported::Accepted(1),
        Reported::Accepted(2),
        Reported::Accepted(3),
        Reported::Accepted(4),
        Reported::Folded,
        Reported::Planned(false),
        Reported::Planned(true),
        Reported::Folded,
        Reported::Planned(false),
    ];
    let mut answers = Vec::new(rt.alloc());
    let mut board = Board::town(rt.alloc())?;
    board.play(rt.alloc(), &acts, &mut answers)?;
    assert!(rt; answers.as_slice() == wanted.as_slice());
    let levels = [Level::Base, Level::Month, Level::Month, Level::Hour];
    assert!(rt; board.has_levels(&levels));
    Ok(())
}

#[test]
fn a_pass_asks_what_it_took(rt: HostRuntime) -> Result<(), Fail> {
    let acts = [
        Act::Ask(0),
        Act::Take(0),
        Act::Move(1),
        Act::Ask(0),
        Act::GiveBack(0),
        Act::Ask(0),
        Act::Tell(1, 0),
        Act::Take(0),
        Act::Ask(0),
    ];
    let wanted = [
        Reported::NotTaken,
        Reported::Done,
        Reported::Accepted(1),
        Reported::Rows(0, 0),
        Reported::Done,
        Reported::NotTaken,
        Reported::Done,
        Reported::Done,
        Reported::Rows(1, 1),
    ];
    let mut answers = Vec::new(rt.alloc());
    let mut board = Board::town(rt.alloc())?;
    board.play(rt.alloc(), &acts, &mut answers)?;
    assert!(rt; answers.as_slice() == wanted.as_slice());
    Ok(())
}
