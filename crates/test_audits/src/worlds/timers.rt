use std::test::Fail;
use world_state::timers::{NEVER, SlotTimer, Timers};

fn at(time: u64, rank: u8, slot: usize) -> Option<SlotTimer> {
    Some(SlotTimer { time, rank, slot })
}

#[test]
fn the_least_time_is_first(rt: HostRuntime) -> Result<(), Fail> {
    let mut timers = Timers::new(rt.alloc(), 5)?;
    timers.set(4, 30, 4);
    timers.set(1, 20, 4);
    timers.set(3, 40, 4);
    let least = timers.first();
    timers.set(1, 50, 4);
    assert!(rt; [least, timers.first()] == [at(20, 4, 1), at(30, 4, 4)]);
    Ok(())
}

#[test]
fn of_one_time_the_lowest_slot_is_first(rt: HostRuntime) -> Result<(), Fail> {
    let mut timers = Timers::new(rt.alloc(), 3)?;
    timers.set(2, 7, 4);
    timers.set(1, 7, 4);
    timers.set(0, 7, 4);
    let lowest = timers.first();
    timers.set(0, 8, 4);
    assert!(rt; [lowest, timers.first()] == [at(7, 4, 0), at(7, 4, 1)]);
    Ok(())
}

#[test]
fn of_one_time_the_lowest_rank_is_first(rt: HostRuntime) -> Result<(), Fail> {
    let mut timers = Timers::new(rt.alloc(), 2)?;
    timers.set(0, 7, 6);
    timers.set(1, 7, 4);
    let lowest = timers.first();
    timers.set(1, 8, 4);
    assert!(rt; [lowest, timers.first()] == [at(7, 4, 1), at(7, 6, 0)]);
    Ok(())
}

#[test]
fn none_is_due_where_no_time_is_set(rt: HostRuntime) -> Result<(), Fail> {
    let mut timers = Timers::new(rt.alloc(), 1)?;
    let unset = timers.first();
    timers.set(0, 0, 4);
    let set = timers.first();
    timers.set(0, NEVER, 4);
    assert!(rt; [unset, set, timers.first()] == [None, at(0, 4, 0), None]);
    Ok(())
}

#[test]
fn none_is_due_where_there_is_no_slot(rt: HostRuntime) -> Result<(), Fail> {
    let timers = Timers::new(rt.alloc(), 0)?;
    assert!(rt; timers.first() == None);
    Ok(())
}
