// How many proper chains there are.
ghost use Rattle.std.specs.Prelude.{◌≡◌, ℕ, ◌+◌, ◌≤◌};
ghost use Rattle.chain.specs.OfRing.{many};
ghost use Rattle.chain.specs.Places.{Places};
ghost use Rattle.chain.specs.Ranks.{shorter};

use setting::Setting;

/// How many ways there are to write fewer than `count` different names out of `others`.
pub(crate) fn count_shorter(others: u32, count: u32) -> u32
    requires small { others ≤ 11 }
    requires few { count ≤ others + 1 }
    ensures { result ≡ shorter others count }
{
    // A `fold` would carry both numbers as a pair.
    let mut total = 0;
    let mut ways = 1;
    for used in 0..count {
        total += ways;
        ways *= others - used;
    }
    total
}

/// N, the number of proper chains of one order.
pub fn chains_per_order(setting: &Setting) -> u32
    ensures value { result ≡ many setting.now }
    ensures some { 1 ≤ result }
    ensures most { result ≤ 108505112 }
    ensures places { (lead : ℕ) → Places setting.now.size setting.now.tolerance lead }
{
    count_shorter(setting.size() - 1, setting.tolerance() + 1)
}
