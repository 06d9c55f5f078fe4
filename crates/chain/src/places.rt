// The place number of a chain.
ghost use Rattle.std.specs.Prelude.{◌≡◌, ◌-◌, ◌*◌, ◌<◌, [], ◌∷◌, IfOk, Some, None, MatchResult};
ghost use Rattle.chain.specs.Examples.{Worked};
ghost use Rattle.chain.specs.OfRing.{many, IsChain, fault_in, place_in};
ghost use Rattle.chain.specs.Places.{within, Places};
ghost use Rattle.chain.specs.Ranks.{rank};

use crate::chains::Chains;
use crate::counts::{chains_per_order, count_shorter};
use crate::name_sets::NameSet;
use crate::refusals::Refusal;
use order::Order;

impl Chains {
    /// The place of a chain among all of its ring: N places for each code, by the number of names, then as in a dictionary.
    pub fn place<O: Order>(&self, order: &O, names: &[u32]) -> Result<u32, Refusal>
        ensures value { MatchResult result (λ p. (fault_in self.now names.now ≡ None) × (p ≡ place_in self.now (O.Order.coded order.now) names.now)) (λ e. fault_in self.now names.now ≡ Some e) }
        ensures below { IfOk result (λ p. p < O.Order.CODES * many self.now.setting) }
        ensures places { Places self.now.setting.size self.now.setting.tolerance self.now.lead }
        ensures worked { Worked }
    {
        self.check(names)?;
        Ok(order.code() * chains_per_order(&self.setting) + self.place_within(names))
    }

    /// The place of a proper chain among those of its order.
    fn place_within(&self, names: &[u32]) -> u32
        requires { IsChain self.now names.now }
        ensures { result ≡ within self.now.setting.size names.now }
    {
        match names {
            [_, rest @ ..] => count_shorter(self.setting.size() - 1, rest.len() as u32)
                + self.rank_of(rest),
            [] => 0,
        }
    }

    /// How many lists of as many names after the lead's come before this one in a dictionary.
    fn rank_of(&self, rest: &[u32]) -> u32
        requires { IsChain self.now (self.now.lead ∷ rest.now) }
        ensures { result ≡ rank (self.now.setting.size - 1) (self.now.lead ∷ []) rest.now }
    {
        let mut seen = NameSet::of(&[self.lead]);
        let mut free = self.setting.size() - 1;
        let mut rank = 0;
        // A `fold` would carry two numbers and the set.
        for name in rest {
            rank = rank * free + seen.missing_below(*name);
            seen.add(*name);
            free -= 1;
        }
        rank
    }
}
