//! The words of a call: numbers, bytes and payloads.

use cb_lines::{LineFault, number_of};
use hex::FromHexError;
use std::alloc::Global;

/// Bytes in hexadecimal, repeated by the number after a `*`.
fn put_word(bytes: &mut Vec<u8>, word: &str) -> Result<(), LineFault> {
    match word.split_once('*') {
        Some((digits, count)) => {
            for _ in 0..number_of(count.as_bytes())? {
                put_digits(bytes, digits)?;
            }
            Ok(())
        }
        None => put_digits(bytes, word),
    }
}

fn put_digits(bytes: &mut Vec<u8>, digits: &str) -> Result<(), LineFault> {
    match hex::decode(*bytes.allocator(), digits) {
        Ok(more) => Ok(bytes.extend_from_slice(more.as_slice())?),
        Err(FromHexError::OutOfMemory) => Err(LineFault::NoMemory),
        Err(_) => Err(LineFault::NoLine),
    }
}

/// The bytes of these words, joined.
pub fn bytes_of(alloc: Global, words: &str) -> Result<Vec<u8>, LineFault> {
    let mut bytes = Vec::new(alloc);
    for word in words.split_whitespace() {
        put_word(&mut bytes, word)?;
    }
    Ok(bytes)
}

/// A payload: its text in quotation marks, or an `x` and its bytes.
pub fn payload_of(alloc: Global, word: &str) -> Result<Vec<u8>, LineFault> {
    match word.strip_prefix('x') {
        Some(digits) => bytes_of(alloc, digits),
        None => quoted(alloc, word),
    }
}

fn quoted(alloc: Global, word: &str) -> Result<Vec<u8>, LineFault> {
    let Some(opened) = word.strip_prefix('"') else {
        return Err(LineFault::NoLine);
    };
    let Some(text) = opened.strip_suffix('"') else {
        return Err(LineFault::NoLine);
    };
    Ok(Vec::from_slice(alloc, text.as_bytes())?)
}

/// A payload for each word.
pub fn payloads_of(alloc: Global, words: &str) -> Result<Vec<Vec<u8>>, LineFault> {
    let mut payloads = Vec::new(alloc);
    for word in words.split_whitespace() {
        payloads.push(payload_of(alloc, word)?)?;
    }
    Ok(payloads)
}

pub fn numbers_of(alloc: Global, words: &str) -> Result<Vec<u32>, LineFault> {
    let mut numbers = Vec::new(alloc);
    for word in words.split_whitespace() {
        numbers.push(number_of(word.as_bytes())?)?;
    }
    Ok(numbers)
}
