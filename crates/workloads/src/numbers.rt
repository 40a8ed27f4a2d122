ghost use Rattle.std.specs.Prelude.{◌<◌};

/// Numbers without a pattern, the same ones for each seed (splitmix64: Steele, Lea and Flood 2014).
#[derive(Drop)]
pub(crate) struct Numbers {
    state: u64,
}

impl Numbers {
    pub(crate) fn new(seed: u64) -> Numbers {
        Numbers { state: seed }
    }

    pub(crate) fn next(&mut self) -> u64 {
        self.state = self.state.wrapping_add(0x9e37_79b9_7f4a_7c15);
        let first = (self.state ^ (self.state >> 30)).wrapping_mul(0xbf58_476d_1ce4_e5b9);
        let second = (first ^ (first >> 27)).wrapping_mul(0x94d0_49bb_1331_11eb);
        second ^ (second >> 31)
    }

    /// One that is less than `end`.
    pub(crate) fn below(&mut self, end: u64) -> u64
        requires { 0 < end }
        ensures { result < end }
    {
        self.next() % end
    }
}

/// An order of the numbers below `count` without a pattern.
pub(crate) fn shuffled(
    alloc: std::alloc::Global,
    numbers: &mut Numbers,
    count: u64,
) -> Result<Vec<u64>, std::alloc::AllocError> {
    let mut order = Vec::new(alloc);
    for number in 0..count {
        let behind = order.len() as u64 + 1;
        let place = numbers.below(behind) as usize;
        order.insert(place, number)?;
    }
    Ok(order)
}
