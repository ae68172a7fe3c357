//! What a case has seen, and what was expected.
use std::fmt::Debug;
use std::test::Fail;

/// Returns a case's failure, with both values where what was seen, which comes first, isn't what was expected. There is
/// no value where the case could not be set up.
pub fn as_expected<T: PartialEq + Debug + Drop>(answer: Option<(T, T)>) -> Result<(), Fail> {
    let (seen, expected) = answer.ok_or("the case could not be set up")?;
    if seen == expected {
        return Ok(());
    }
    Err(Fail::new(format_args!("{:?} was seen, and {:?} expected", seen, expected)))
}

/// Returns a failure, with both values, where what was seen, which comes first, isn't what was expected.
pub fn same<T: PartialEq + Debug + Drop>(seen: T, expected: T) -> Result<(), Fail> {
    as_expected(Some((seen, expected)))
}
