use crate::*;
use refusal::Numbered;
use std::test::Fail;

#[test]
fn settings_are_checked(rt: HostRuntime) -> Result<(), Fail> {
    assert_eq!(rt; Setting::new(2, 1)?.size(), 2);
    assert_eq!(rt; Setting::new(12, 11)?.tolerance(), 11);
    assert!(rt; Setting::new(13, 1).is_err());
    assert!(rt; Setting::new(4, 4).is_err());
    Ok(())
}

#[test]
fn rounds_are_quoted(rt: HostRuntime) {
    assert_eq!(rt; quote(6, 5, 2), Ok(6));
    assert_eq!(rt; quote(4, 2, 3), Ok(2));
    assert_eq!(rt; quote(1, 1, 1), Err(Refusal::Size));
    assert_eq!(rt; quote(4, 4, 4), Err(Refusal::Tolerance));
    assert_eq!(rt; quote(4, 2, 1), Err(Refusal::SoundCount));
    assert_eq!(rt; Refusal::SoundCount.number(), 14);
}
