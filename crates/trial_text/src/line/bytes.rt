//! Lines as bytes, and their numbers in rooms of fixed size: the trials take no heap.
ghost use Rattle.std.specs.Prelude.{◌≡◌, ◌%◌, ◌<◌, []};

use super::Line;
use arrayvec::ArrayVec;

// What stands before and after the first such byte; all, and nothing, where there is none.
fn parted(text: &[u8], at: u8) -> (&[u8], &[u8]) {
    let mut parts = text.splitn(2, |byte| *byte == at);
    (parts.next().unwrap_or(&[]), parts.next().unwrap_or(&[]))
}

impl<'a> Line<'a> {
    pub fn of_bytes(text: &'a [u8]) -> Line<'a> {
        let (row, after) = parted(text, b'|');
        let (ends, stores) = parted(after, b'/');
        Line {
            ends,
            stores,
            ..Line::whole(row)
        }
    }

    // A line of a kind that has no day: a '|' is a byte like others there.
    pub fn whole(text: &'a [u8]) -> Line<'a>
        ensures { (result.ends.now ≡ []) × (result.stores.now ≡ []) }
    {
        let (head, _) = parted(text, b';');
        Line {
            kind: parted(text, b' ').0,
            name: parted(head, b' ').1,
            ends: &[],
            stores: &[],
            row: text,
        }
    }

    // The first word of the name.
    pub fn first_word_bytes(self) -> &'a [u8] {
        parted(self.name, b' ').0
    }

    // Field k, counted from 1: what stands after the k-th ';'.
    pub fn field_bytes(self, k: usize) -> &'a [u8] {
        self.row.split(|byte| *byte == b';').nth(k).unwrap_or(&[])
    }

    // The first number of field k; 0 where it has none.
    pub fn amount<N: Amount>(self, k: usize) -> N {
        first_amount(self.field_bytes(k))
    }
}

// What a line's numbers are read as.
pub trait Amount: Copy + Default {
    // The lowest bits of a number, as many as there are.
    fn low(n: u32) -> Self;
}

impl Amount for u16 {
    fn low(n: u32) -> u16
        ensures { result ≡ n % 65536 }
    {
        (n % 65536) as u16
    }
}

impl Amount for u32 {
    fn low(n: u32) -> u32 {
        n
    }
}

impl Amount for usize {
    fn low(n: u32) -> usize {
        n as usize
    }
}

// A digit's value, decimal or hexadecimal, of a large letter alone; 0 of any other byte.
pub fn digit(byte: u8) -> u8
    ensures { result < 16 }
{
    match byte {
        b'0'..=b'9' => byte - b'0',
        b'A'..=b'F' => byte - b'A' + 10,
        _ => 0,
    }
}

// A decimal number, modulo 2^32. Not by `parse`: no word is refused, and each byte counts.
fn low_number<N: Amount>(word: &[u8]) -> N {
    N::low(
        word.iter().fold(0, |n: u32, byte| {
            n.wrapping_mul(10).wrapping_add(u32::from(digit(*byte)))
        }),
    )
}

// The value of a text's first word; 0 where it has none.
pub fn first_amount<N: Amount>(text: &[u8]) -> N {
    text.split(|byte| *byte == b' ')
        .find(|word| !word.is_empty())
        .map_or(N::low(0), |word| low_number(repeated_bytes(word).0))
}

// A word `VxN` stands for N times V, one without an 'x' for itself.
pub fn repeated_bytes(word: &[u8]) -> (&[u8], usize) {
    if word.contains(&b'x') {
        let (value, times) = parted(word, b'x');
        (value, low_number(times))
    } else {
        (word, 1)
    }
}

// A table that is read from a line has room for more than the longest day, which has 96 periods. What comes after 128 numbers is passed over: a trial
// takes no heap, as the calls that it tries take none.
pub const ROOM: usize = 128;

pub type Numbers<N> = ArrayVec<N, ROOM>;

// So many times the same number behind those that are there, as far as there is room.
pub(crate) fn fill<N: Amount, const CAP: usize>(
    numbers: &mut ArrayVec<N, CAP>,
    value: N,
    n: usize,
) {
    for _ in 0..n {
        if numbers.try_push(value).is_err() {
            return;
        }
    }
}

// The numbers of a text, as far as there is room; here a word that says 0 times stands for itself.
pub fn amounts<N: Amount, const CAP: usize>(text: &[u8]) -> ArrayVec<N, CAP> {
    let mut numbers = ArrayVec::new();
    for word in text.split(|byte| *byte == b' ') {
        if !word.is_empty() {
            let (value, times) = repeated_bytes(word);
            fill(&mut numbers, low_number(value), times.max(1));
        }
    }
    numbers
}

// Likewise; one that stands alone stands for all n periods.
pub fn amounts_for_all<N: Amount, const CAP: usize>(text: &[u8], n: usize) -> ArrayVec<N, CAP> {
    let mut numbers = amounts(text);
    if let [alone] = *numbers.as_slice() {
        numbers.clear();
        fill(&mut numbers, alone, n);
    }
    numbers
}
