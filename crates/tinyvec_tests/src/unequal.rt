//! A filter that takes an item or a key for equal to itself unasked would pass the check at numbers that are none: no clause
//! speaks of them.
use crate::steps::all_steps;
use std::test::Fail;
use tinyvec::ArrayVec;

#[test]
fn no_number_repeats(rt: HostRuntime) -> Result<(), Fail> {
    let mut v = ArrayVec::from_array([f64::NAN, f64::NAN, 1.0, 1.0, f64::NAN]);
    v.dedup();
    let is_kept = (v.len() == 4) & (v != v);
    v.dedup_by_key(|_| f64::NAN);
    all_steps(&[is_kept, v.len() == 4])
}
