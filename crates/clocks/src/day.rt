// The longest that a setting in milliseconds may be.

// A day, in milliseconds.
pub const DAY_MILLIS: u32 = 86_400_000;
