// Where two texts part, and bytes as text: to say in what two programs differ. No function has a clause (`naive` says why).
#![tactic(auto)]

use std::alloc::{AllocError, Global};

// The first line in which two texts differ: its number, and what each has there.
pub struct Parting<'a> {
    pub line: usize,
    pub first: &'a str,
    pub second: &'a str,
}

pub fn first_parting<'a>(first: &'a str, second: &'a str) -> Parting<'a> {
    let mut ours = first.lines();
    let mut others = second.lines();
    for line in 1..first.len().max(second.len()) {
        let (first, second) = (
            ours.next().unwrap_or("nothing"),
            others.next().unwrap_or("nothing"),
        );
        if first != second {
            return Parting {
                line,
                first,
                second,
            };
        }
    }
    Parting {
        line: 0,
        first: "nothing",
        second: "nothing",
    }
}

// Bytes in hexadecimal.
pub fn digits_of(heap: Global, bytes: &[u8]) -> Result<String, AllocError> {
    let mut digits = String::new(heap);
    for byte in bytes {
        write!(digits, "{byte:02X}")?;
    }
    Ok(digits)
}
