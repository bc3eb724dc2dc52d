use std::test::Fail;
use world_state::queue::{DueAt, UnderWay};

fn place(at: u64, rank: u32, device: u32, link: u32, cause: u64) -> DueAt {
    DueAt {
        at,
        rank,
        device,
        link,
        cause,
    }
}

/// Takes what is first, and tells its content.
fn takes(under_way: &mut UnderWay<u8>) -> Option<u8> {
    Some(under_way.take_first()?.content)
}

#[test]
fn what_is_first_in_place_comes_out_first(rt: HostRuntime) -> Result<(), Fail> {
    let mut under_way = UnderWay::new(rt.alloc());
    for (place, content) in [
        (place(10, 8, 0, 0, 0), 3),
        (place(11, 2, 0, 0, 0), 4),
        (place(10, 2, 1, 0, 9), 2),
        (place(10, 2, 1, 0, 8), 1),
    ] {
        under_way.reserve(1)?;
        assert!(rt; under_way.room() > 0);
        under_way.put(place, content);
    }
    assert!(rt; under_way.len() == 4);
    assert!(rt; under_way.first() == Some(place(10, 2, 1, 0, 8)));
    for content in [Some(1), Some(2), Some(3), Some(4), None] {
        assert!(rt; takes(&mut under_way) == content);
    }
    Ok(())
}

#[test]
fn room_is_kept_and_comes_back(rt: HostRuntime) -> Result<(), Fail> {
    let mut under_way = UnderWay::new(rt.alloc());
    under_way.reserve(2)?;
    let room = under_way.room();
    assert!(rt; room >= 2);
    under_way.put(place(5, 2, 0, 0, 1), "frame");
    let left = under_way.room();
    let entry = under_way.take_first().ok_or("none is first")?;
    assert!(rt; [left, under_way.room()] == [room - 1, room]);
    assert!(rt; entry.place == place(5, 2, 0, 0, 1));
    assert!(rt; entry.content == "frame");
    Ok(())
}

#[test]
fn nothing_is_first_where_nothing_is_under_way(rt: HostRuntime) {
    let mut under_way: UnderWay<u8> = UnderWay::new(rt.alloc());
    assert_eq!(rt; under_way.len(), 0);
    assert!(rt; under_way.first().is_none());
    assert!(rt; under_way.take_first().is_none());
}
