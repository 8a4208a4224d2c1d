//! A move of a large item that the compiler builds wrong, or that needs too much of the stack, would pass the check: these are
//! larger than a page of memory.
use crate::steps::{all_right, first};
use std::test::Fail;
use tinyvec::ArrayVec;

// 8192 bytes.
type Page = [u64; 1024];

fn page(number: u64) -> Page {
    [number; 1024]
}

// Whether each page is full of its number.
fn hold(pages: &[Page], numbers: &[u64]) -> bool {
    pages.len() == numbers.len()
        && pages
            .iter()
            .zip(numbers)
            .all(|(page, number)| page.iter().all(|x| *x == *number))
}

#[test]
fn in_an_array(rt: HostRuntime) -> Result<(), Fail> {
    let mut v = ArrayVec::from_array_len([page(1), page(2), page(3), page(9)], 3);
    let mut wrong = 0;
    wrong = first(wrong, 1, v.try_insert(1, page(4)).is_none());
    wrong = first(wrong, 2, hold(v.as_slice(), &[1, 4, 2, 3]));
    if v.len() == 4 {
        wrong = first(wrong, 3, hold(&[v.remove(0), v.swap_remove(0)], &[1, 4]));
    }
    wrong = first(wrong, 4, hold(v.as_slice(), &[3, 2]));
    wrong = first(wrong, 5, v.splice(..1, [page(5), page(6)]).finish().is_ok());
    wrong = first(wrong, 6, v.drain(1..).next_back() == Some(page(2)));
    wrong = first(wrong, 7, hold(v.as_slice(), &[5]));
    wrong = first(wrong, 8, hold(v.grab_spare_slice(), &[0, 0, 0]));
    all_right(wrong)
}
