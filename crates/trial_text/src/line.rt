//! Lines: their kind, their name and their fields; numbers. What is read of them stands here as text, with vectors of the heap; in `bytes`, as the
//! trials read it.
mod bytes;

pub(crate) use self::bytes::fill;
pub use self::bytes::{
    Amount, Numbers, ROOM, amounts, amounts_for_all, digit, first_amount, repeated_bytes,
};
use std::alloc::{AllocError, Global};
use std::num::ParseIntError;
use std::str::FromStr;

// A line of the trials: `KIND NAME; FIELD; FIELD .. | ENDS / STORES`. What it leaves out is empty. All of it is bytes, as standard input is: each byte
// means something in each place.
#[derive(Clone, Copy)]
pub struct Line<'a> {
    pub kind: &'a [u8],
    pub name: &'a [u8],
    pub ends: &'a [u8],
    pub stores: &'a [u8],
    row: &'a [u8],
}

// A part of a line as text; empty where it is none. Each part of a line that was made of text is text.
pub(crate) fn text_of(part: &[u8]) -> &str {
    std::str::from_utf8(part).unwrap_or("")
}

impl<'a> Line<'a> {
    pub fn new(text: &'a str) -> Line<'a> {
        Line::of_bytes(text.as_bytes())
    }

    // The first word of the name.
    pub fn first_word(self) -> &'a str {
        text_of(self.first_word_bytes())
    }

    // Field k, counted from 1: what stands after the k-th ';'.
    pub fn field(self, k: usize) -> &'a str {
        text_of(self.field_bytes(k))
    }

    // The first number of field k; 0 where it has none.
    pub fn number<N: FromStr<Err = ParseIntError> + Default + Drop>(self, k: usize) -> N {
        first(self.field(k))
    }
}

// A decimal number; 0 where it is none.
fn number<N: FromStr<Err = ParseIntError> + Default + Drop>(word: &str) -> N {
    word.parse().unwrap_or_default()
}

// The first number of a text; 0 where it has none.
pub fn first<N: FromStr<Err = ParseIntError> + Default + Drop>(text: &str) -> N {
    number(text.split_whitespace().next().unwrap_or(""))
}

// A word `VxN` stands for N times V, one without an 'x' for itself.
pub fn repeated(word: &str) -> (&str, usize) {
    match word.split_once('x') {
        Some((value, times)) => (value, number(times)),
        None => (word, 1),
    }
}

// The numbers of a text.
pub fn numbers<N>(alloc: Global, text: &str) -> Result<Vec<N>, AllocError>
where
    N: FromStr<Err = ParseIntError> + Default + Copy,
{
    let mut numbers = Vec::new(alloc);
    for word in text.split_whitespace() {
        let (value, times) = repeated(word);
        let n = numbers.len().saturating_add(times);
        numbers.resize(n, number(value))?;
    }
    Ok(numbers)
}

// Likewise; one that stands alone stands for all n periods.
pub fn for_all<N>(alloc: Global, text: &str, n: usize) -> Result<Vec<N>, AllocError>
where
    N: FromStr<Err = ParseIntError> + Default + Copy,
{
    let mut numbers = numbers(alloc, text)?;
    if let [alone] = *numbers.as_slice() {
        numbers.resize(n, alone)?;
    }
    Ok(numbers)
}
