// What fails a test.
use std::alloc::AllocError;
use std::process::Abort;
use std::test::Fail;

/// Fails where there is a wrong one, and tells its place.
pub fn check_none(rt: &impl Abort, wrong: Result<Option<usize>, AllocError>) -> Result<(), Fail> {
    assert_eq!(rt; wrong?, None);
    Ok(())
}
