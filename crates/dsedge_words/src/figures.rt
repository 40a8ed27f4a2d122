use itoa::Buffer;
use std::alloc::AllocError;

/// Appends a number with a comma before each three digits, as `23,060`.
pub fn push_figure(words: &mut String, number: u128) -> Result<(), AllocError> {
    let mut buffer = Buffer::new();
    let digits = buffer.format(number);
    let mut left = digits.len();
    for digit in digits.chars() {
        words.push(digit)?;
        left = left.saturating_sub(1);
        if left > 0 && left % 3 == 0 {
            words.push(',')?;
        }
    }
    Ok(())
}
