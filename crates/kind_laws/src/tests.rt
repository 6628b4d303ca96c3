// One function over any kind, at both.
use crate::any::plus_constant;
use kinds::{Single, Whole};

#[test]
fn plus_one(rt: HostRuntime) {
    assert_eq!(rt; plus_constant::<Whole>(41, 1), Some(42));
    assert_eq!(rt; plus_constant::<Whole>(2147483647, 1), None);
    // 1 and 1 are 2; 16,777,217 is no constant of Single
    assert_eq!(rt; plus_constant::<Single>(0x3f80_0000, 1), Some(0x4000_0000));
    assert_eq!(rt; plus_constant::<Single>(0, 16777217), None);
}
