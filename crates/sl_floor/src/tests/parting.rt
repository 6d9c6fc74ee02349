// Seats that are split, bare and not, and joined in each order.
use super::*;

#[test]
fn a_bare_seat_has_no_pool_left(rt: HostRuntime) -> Result<(), Fail> {
    let alloc = rt.alloc();
    let instance = displaced_twice(alloc)?;
    assert!(rt; instance.pools() == 2);
    let contenders = Contenders::new(alloc, &instance)?;
    let (floor, mut first) = Floor::new(alloc, &instance, &contenders, &[], 4)?;
    let bare = floor.split(&mut first, Blank::new(alloc, &instance, 2)?, true);
    let other = floor.split(&mut first, Blank::new(alloc, &instance, 3)?, false);
    assert!(rt; !bare.any_left());
    assert!(rt; bare.next_left(A).is_none());
    assert!(rt; other.next_left(A) == Some(A));
    assert!(rt; other.next_left(B) == Some(B));
    assert!(rt; other.next_left(PoolId(2)).is_none());
    assert_eq!(rt;
        (bare.share(), other.share(), first.share()),
        (524_288, 262_144, 262_144)
    );
    assert_eq!(rt; (bare.room(), other.room()), (2, 3));
    Ok(())
}

// Three seats of one floor, joined into the first in one order, and then into the third in the other.
#[test]
fn seats_join_in_each_order(rt: HostRuntime) -> Result<(), Fail> {
    let alloc = rt.alloc();
    let instance = displaced_twice(alloc)?;
    assert!(rt; instance.pools() == 2);
    let contenders = Contenders::new(alloc, &instance)?;
    let (floor, mut first) = Floor::new(alloc, &instance, &contenders, &[], 4)?;
    let second = floor.split(&mut first, Blank::new(alloc, &instance, 4)?, false);
    let third = floor.split(&mut first, Blank::new(alloc, &instance, 5)?, true);
    let _blank = floor.join(&mut first, second);
    let blank = floor.join(&mut first, third);
    assert_eq!(rt; first.share(), WHOLE_SHARE);
    assert_eq!(rt; first.allowance(), FIRST_ALLOWANCE);
    let mut third = floor.split(&mut first, blank, true);
    let second = floor.split(&mut first, Blank::new(alloc, &instance, 4)?, false);
    let _blank = floor.join(&mut third, second);
    let _blank = floor.join(&mut third, first);
    assert!(rt; third.share() == WHOLE_SHARE);
    assert_eq!(rt; third.room(), 5);
    assert!(rt; third.is_left(A) && third.is_left(B));
    let mut words = [7, 7];
    let _receipt = floor.close(third, &mut words);
    assert_eq!(rt; words, [0, 0]);
    Ok(())
}
