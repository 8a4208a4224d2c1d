//! A definition of the fields of a line that has the same mistake as the code would pass the check.
use example_fields::split;
use std::test::Fail;

#[test]
fn fields_of_a_line(rt: HostRuntime) -> Result<(), Fail> {
    let fields = split(b"a,bc,", b',').expect(&rt, "there are three fields");
    let mut ends = Vec::new(rt.alloc());
    for field in &fields {
        ends.push((field.start, field.end))?;
    }
    assert!(rt; ends.as_slice() == [(0, 1), (2, 4), (5, 5)].as_slice());
    Ok(())
}
