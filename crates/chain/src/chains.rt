// The chains of a ring, and the one at a place.
ghost use Rattle.std.specs.Prelude.{◌≡◌, ℕ, ◌+◌, ◌-◌, ◌/◌, ◌<◌, ◌≤◌, List, [], ◌∷◌, IfSome, MatchOption};
ghost use Rattle.chain.specs.NameLists.{names_of};
ghost use Rattle.chain.specs.OfRing.{many, IsChain, place_in};
ghost use Rattle.chain.specs.Ranks.{ways, shorter, spelled};

use crate::counts::chains_per_order;
use crate::lists::Names;
use crate::name_sets::NameSet;
use order::Order;
use setting::Setting;

/// The chains of a ring under a lead. A lead outside the ring has none.
#[derive(Clone, Copy, Debug, PartialEq, Eq)]
pub struct Chains {
    pub setting: Setting,
    pub lead: u32,
}

/// Which of the chains with so many names after the lead.
#[derive(Clone, Copy, Debug)]
struct Among {
    others: u32,
    /// How many of these chains come before it.
    rank: u32,
    /// How many of these chains there are.
    ways: u32,
}

impl Chains {
    /// The chain of a place: its order and its names. None if no chain has this place, which is so from K × N up, where the
    /// code has no value in the kind of order, and where the lead is not of the ring.
    pub fn at<O: Order>(&self, place: u32) -> Option<(O, Names)>
        ensures chain { IfSome result (λ c. IsChain self.now (names_of c.1) × (place_in self.now (O.Order.coded c.0) (names_of c.1) ≡ place)) }
        ensures back { (v : O) (names : List ℕ) → IsChain self.now names → place_in self.now (O.Order.coded v) names ≡ place → MatchOption result ⊥ (λ c. (c.0 ≡ v) × (names_of c.1 ≡ names)) }
    {
        let chains = chains_per_order(&self.setting);
        let names = self.names_at(place)?;
        let order = O::from_code(place / chains)?;
        Some((order, names))
    }

    /// The names of the chain of a place, whatever its order. None exactly if the lead is not of the ring.
    pub fn names_at(&self, place: u32) -> Option<Names>
        ensures { MatchOption result (self.now.setting.size ≤ self.now.lead) (λ names. IsChain self.now (names_of names) × (place_in self.now (place / many self.now.setting) (names_of names) ≡ place)) }
    {
        if self.lead >= self.setting.size() {
            return None;
        }
        let index = place % chains_per_order(&self.setting);
        Some(self.spell(self.length_at(index)))
    }

    /// The number of names of the chain that has this many chains of its order before it.
    fn length_at(&self, index: u32) -> Among
        requires { index < many self.now.setting }
        ensures few { result.others ≤ self.now.setting.tolerance }
        ensures ways { result.ways ≡ ways (self.now.setting.size - 1) result.others }
        ensures rank { result.rank < result.ways }
        ensures whole { shorter (self.now.setting.size - 1) result.others + result.rank ≡ index }
    {
        let free = self.setting.size() - 1;
        let mut among = Among {
            others: 0,
            rank: index,
            ways: 1,
        };
        // As long as there is more than the chains of this length, these come before it. (A `scan` would carry all three.)
        while among.ways <= among.rank {
            among.rank -= among.ways;
            among.ways *= free - among.others;
            among.others += 1;
        }
        among
    }

    /// The names of a chain from its rank, digit by digit.
    fn spell(&self, among: Among) -> Names
        requires leads { self.now.lead < self.now.setting.size }
        requires few { among.others ≤ self.now.setting.tolerance }
        requires all { among.ways ≡ ways (self.now.setting.size - 1) among.others }
        requires below { among.rank < among.ways }
        ensures { names_of result ≡ self.now.lead ∷ spelled self.now.setting.size (self.now.setting.size - 1) (self.now.lead ∷ []) among.others among.rank }
    {
        let size = self.setting.size();
        let mut names = Names::of_lead(self.lead);
        let mut seen = NameSet::of(&[self.lead]);
        let mut free = size - 1;
        let mut ways = among.ways;
        let mut rank = among.rank;
        // Names, set, ways, rank and what is free all go on from digit to digit.
        for _ in 0..among.others {
            ways /= free;
            let name = seen.nth_missing(size, rank / ways);
            rank %= ways;
            names.push(name);
            seen.add(name);
            free -= 1;
        }
        names
    }
}
