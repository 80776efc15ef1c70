// Random numbers from a seed (splitmix64).

#[derive(Drop)]
pub struct Random {
    state: u64,
}

impl Random {
    pub fn new(seed: u64) -> Random {
        Random { state: seed }
    }

    pub fn next(&mut self) -> u64 {
        self.state = self.state.wrapping_add(0x9e37_79b9_7f4a_7c15);
        let mut mixed = self.state;
        mixed = (mixed ^ (mixed >> 30)).wrapping_mul(0xbf58_476d_1ce4_e5b9);
        mixed = (mixed ^ (mixed >> 27)).wrapping_mul(0x94d0_49bb_1331_11eb);
        mixed ^ (mixed >> 31)
    }

    // A number below the bound; 0 if the bound is 0.
    pub fn below(&mut self, bound: u64) -> u64 {
        self.next().checked_rem(bound).unwrap_or(0)
    }

    pub fn byte(&mut self) -> u8 {
        (self.next() & 0xff) as u8
    }

    pub fn byte_below(&mut self, bound: u8) -> u8 {
        self.byte().checked_rem(bound).unwrap_or(0)
    }

    pub fn number_32(&mut self) -> u32 {
        (self.next() & 0xffff_ffff) as u32
    }

    // True once in so many times.
    pub fn is_one_in(&mut self, times: u64) -> bool {
        self.below(times) == 0
    }

    // One of some numbers; 0 if there are none.
    pub fn one_of(&mut self, numbers: &[u64]) -> u64 {
        let place = self.below(numbers.len() as u64);
        numbers.get(place as usize).copied().unwrap_or(0)
    }
}
