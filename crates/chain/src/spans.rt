// The places of chains of one length.
ghost use Rattle.std.specs.Prelude.{◌≡◌, ℕ, ◌+◌, ◌-◌, ◌*◌, ◌≤◌, List, length, IfSome, MatchOption, OnSome, ◌≢◌};
ghost use Rattle.chain.specs.Chains.{Proper};
ghost use Rattle.chain.specs.OfRing.{many};
ghost use Rattle.chain.specs.Places.{Spans};
ghost use Rattle.chain.specs.Ranks.{shorter};

use crate::counts::{chains_per_order, count_shorter};
use order::Order;
use setting::Setting;

/// A range of places, from `start` up to and not including `end`. (Std's `Range` can't be copied.)
#[derive(Clone, Copy, Debug, PartialEq, Eq)]
pub struct Span {
    pub start: u32,
    pub end: u32,
}

/// The places of the chains of one order that have so many names. None if no proper chain has so many.
pub fn span_of<O: Order>(setting: &Setting, order: &O, count: u32) -> Option<Span>
    ensures value { IfSome result (λ s. (s.start ≡ O.Order.coded order.now * many setting.now + shorter (setting.now.size - 1) (count - 1)) × (s.end ≡ O.Order.coded order.now * many setting.now + shorter (setting.now.size - 1) count)) }
    ensures some { OnSome result ((1 ≤ count) × (count ≤ setting.now.tolerance + 1)) }
    ensures spans { MatchOption result ((lead : ℕ) (names : List ℕ) → Proper setting.now.size setting.now.tolerance lead names → length names ≢ count) (λ s. (lead : ℕ) → Spans setting.now.size setting.now.tolerance lead (O.Order.coded order.now) count s.start s.end) }
{
    if !(1..=setting.tolerance() + 1).contains(&count) {
        return None;
    }
    let others = setting.size() - 1;
    let first = order.code() * chains_per_order(setting);
    Some(Span {
        start: first + count_shorter(others, count - 1),
        end: first + count_shorter(others, count),
    })
}
