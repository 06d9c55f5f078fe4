use crate::*;
use std::test::Fail;

#[test]
fn codes_and_values(rt: HostRuntime) -> Result<(), Fail> {
    let Some(plan) = Plan::new(15) else {
        return Err(Fail::new("15 is a plan"));
    };
    assert_eq!(rt; plan.code(), 15);
    let Some(order) = LinkOrder::from_code(11) else {
        return Err(Fail::new("11 closes link 5"));
    };
    assert!(rt; order.link() == 5 && order.is_closed());
    assert_eq!(rt; order.code(), 11);
    assert!(rt; Plan::new(16).is_none());
    assert!(rt; LinkOrder::from_code(12).is_none());
    Ok(())
}

#[test]
fn choices_take_members(rt: HostRuntime) -> Result<(), Fail> {
    assert_eq!(rt; Least.choose(0b1010), Some(1));
    assert_eq!(rt; Least.choose(0), None);
    let list = [13, 5, 2, 9, 3, 15, 10, 6, 14, 0, 11, 12, 7, 8, 1, 4];
    let ranked = Ranked::new(&list)?;
    assert_eq!(rt; ranked.choose(0b1010), Some(3));
    assert_eq!(rt; ranked.choose(0), None);
    assert!(rt; Ranked::new(&[0; 16]).is_err());
    assert!(rt; Ranked::new(&list[0..15]).is_err());
    Ok(())
}
