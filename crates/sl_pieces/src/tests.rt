use super::*;
use std::alloc::AllocError;
use std::test::Fail;

// The pieces of 33 numbers: 31 of one number, and one of two at the end.
#[test]
fn pieces_of_33(rt: HostRuntime) -> Result<(), Fail> {
    let pieces = make_by_pieces(
        &rt,
        rt.alloc(),
        33,
        |first: usize, end: usize| -> Result<(usize, usize), AllocError> { Ok((first, end)) },
    )?;
    assert_eq!(rt; pieces.len(), PIECES);
    assert_eq!(rt; pieces.first(), Some(&(0, 1)));
    assert_eq!(rt; pieces.get(16), Some(&(16, 17)));
    assert_eq!(rt; pieces.last(), Some(&(31, 33)));
    Ok(())
}
