use std::alloc::{AllocError, Global};

/// A piece, repeated.
pub fn repeated(alloc: Global, piece: &[u8], times: usize) -> Result<Vec<u8>, AllocError> {
    let mut bytes = Vec::new(alloc);
    for _ in 0..times {
        bytes.extend_from_slice(piece)?;
    }
    Ok(bytes)
}

/// A text of up to nine of these characters, chosen by a number.
pub fn generated(
    alloc: Global,
    characters: &[char; 16],
    number: u32,
) -> Result<String, AllocError> {
    let mut text = String::new(alloc);
    let mut state = number;
    for _ in 0..number % 10 {
        state = state.wrapping_mul(1_664_525).wrapping_add(1_013_904_223);
        text.push(characters[(state >> 20) as usize % 16])?;
    }
    Ok(text)
}
