use std::alloc::{AllocError, Global};

/// Appends parts to a text, one behind the other.
pub fn push_all(text: &mut String, parts: &[&str]) -> Result<(), AllocError> {
    for part in parts {
        text.push_str(part)?;
    }
    Ok(())
}

/// The parts of a text, one behind the other.
pub fn joined(alloc: Global, parts: &[&str]) -> Result<String, AllocError> {
    let mut text = String::new(alloc);
    push_all(&mut text, parts)?;
    Ok(text)
}
