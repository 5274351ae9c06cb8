//! What several modules of tests use.

use std::alloc::AllocError;
use vocab::Study;

/// Appends some bytes.
pub fn push_bytes(text: &mut String, bytes: &[u8]) -> Result<(), AllocError> {
    for byte in bytes {
        text.push(char::from(*byte))?;
    }
    Ok(())
}

/// Appends the names of the axioms, each after a blank.
pub fn push_names(text: &mut String, study: &Study) -> Result<(), AllocError> {
    for named in study.axioms().as_slice() {
        text.push(' ')?;
        push_bytes(text, named.name().bytes())?;
    }
    Ok(())
}
