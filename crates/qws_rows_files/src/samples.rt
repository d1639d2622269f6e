//! Bytes of a length, and values as texts, by which two of them are compared.
use qws_base::Bytes;
use std::alloc::Global;
use std::fmt::Debug;
use std::test::Fail;

/// So many times the letter.
pub fn letters(alloc: Global, letter: u8, len: usize) -> Result<Bytes, Fail> {
    Ok(Bytes::of(vec![in alloc; letter; len]?))
}

/// The names and the values of all fields.
pub fn text_of<T: Debug>(alloc: Global, value: &T) -> Result<String, Fail> {
    Ok(format!(in alloc; "{value:?}")?)
}
