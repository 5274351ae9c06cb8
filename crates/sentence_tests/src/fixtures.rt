//! What several modules of tests use.

use std::test::Fail;
use vocab::Name;

/// The name of these bytes.
pub fn name_of(bytes: &[u8]) -> Result<Name, Fail> {
    Ok(Name::new(bytes).ok_or("a name")?)
}
