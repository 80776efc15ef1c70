// What a clock bank is asked.
use crate::reading::Raw;

// A node, and the raw number that its own clock counted.
#[derive(Clone, Copy, PartialEq, Eq, Debug)]
pub struct Sample {
    pub node: u8,
    pub raw: Raw,
}
