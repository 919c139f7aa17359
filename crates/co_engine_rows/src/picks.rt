//! Numbers that look random.
use rand_core::utils::NextWord;
use rand_pcg::Lcg64Xsh32;

/// Numbers that look random, by a permuted congruential generator (O'Neill, *PCG: a family of simple fast
/// space-efficient statistically good algorithms for random number generation*, 2014).
#[derive(Drop)]
pub(crate) struct Picks {
    generator: Lcg64Xsh32,
}

impl Picks {
    /// Numbers from a seed on.
    pub(crate) fn new(seed: u64) -> Picks {
        Picks {
            generator: Lcg64Xsh32::new(seed, 54),
        }
    }

    /// A number below a bound; 0 where the bound is 0.
    pub(crate) fn below(&mut self, bound: u64) -> u64 {
        let word: u32 = self.generator.next_word();
        u64::from(word) % bound.max(1)
    }

    /// One of some bytes.
    pub(crate) fn byte_of(&mut self, bytes: &[u8]) -> u8 {
        let place = self.below(bytes.len() as u64);
        bytes.get(place as usize).copied().unwrap_or(b'a')
    }

    /// One of some rows.
    pub(crate) fn row_of(&mut self, rows: &[&'static [u8]]) -> &'static [u8] {
        let place = self.below(rows.len() as u64);
        rows.get(place as usize).copied().unwrap_or(b"")
    }
}
