//! Bounds that pass and bounds that are refused.
use exchange::{Bound, Rule};
use std::test::Fail;

#[test]
fn two_to_sixteen_pass(rt: HostRuntime) -> Result<(), Fail> {
    for number in 2..=16usize {
        assert_eq!(rt; Bound::try_from(number)?.number(), number);
    }
    Ok(())
}

#[test]
fn other_numbers_are_refused(rt: HostRuntime) {
    for number in [0, 1, 17, 18, 255, 256, usize::MAX] {
        assert_eq!(rt; Bound::try_from(number), Err(Rule::WrongBound.at(number)));
    }
}
