// A scheme that keeps one bit for each place.
ghost use Rattle.std.specs.Prelude.{◌≡◌, ◌<◌, ◌≤◌, false, Some, None, MatchResult};
ghost use Rattle.counting.specs.Lists.{tally};
ghost use Rattle.scheme.specs.Bits.{bit_at};
ghost use Rattle.scheme.specs.Counts.{uncounted};

use crate::counts::check_count;
use crate::refusals::Refusal;

mod marking;

/// A bit for each of up to 16,384 places, set once the place is signed. The mark of a place is the place plus 1.
// No library has a set of bits of fixed size, and no scheme has a heap. The tally spares `entries` a pass over the words.
#[derive(Debug, PartialEq, Eq, Drop)]
pub struct Grid {
    bits: [u64; 256],
    /// How many places are signed.
    signed: u32,
    count: u32,
    ghost few: { count ≤ 16384 },
    ghost tallied: { signed ≡ tally (bit_at bits) count },
}

impl Grid {
    ghost use Rattle.scheme.specs.Grids.{BitSet, Empty};

    /// A scheme of `count` places with none signed.
    pub fn new(count: u32) -> Result<Grid, Refusal>
        ensures { MatchResult result (λ g. (uncounted count ≡ None) × (g.count ≡ count) × Empty g) (λ e. uncounted count ≡ Some e) }
    {
        check_count(count)?;
        Ok(Grid {
            bits: [0; 256],
            signed: 0,
            count,
        })
    }

    /// Whether the bit of a place is set.
    fn has_bit(&self, place: u32) -> bool
        requires { place < 16384 }
        ensures { result ≡ bit_at self.now.bits place }
    {
        self.bits[(place / 64) as usize] >> (place % 64) & 1 == 1
    }

    /// Sets the bit of a place that is not signed.
    fn set_bit(&mut self, place: u32)
        requires below { place < self.old.count }
        requires unset { bit_at self.old.bits place ≡ false }
        ensures { BitSet self.old place self.new }
    {
        let word = (place / 64) as usize;
        self.bits[word] |= 1 << (place % 64);
        self.signed += 1;
    }
}
