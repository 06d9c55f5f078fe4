// The check of a chain's names.
ghost use Rattle.std.specs.Prelude.{◌≡◌, Some, None, MatchResult, OnOk};
ghost use Rattle.chain.specs.Chains.{Grows};
ghost use Rattle.chain.specs.Faults.{fault_of_name};
ghost use Rattle.chain.specs.NameSets.{in_set};
ghost use Rattle.chain.specs.OfRing.{IsChain, fault_in};

use crate::chains::Chains;
use crate::name_sets::NameSet;
use crate::refusals::Refusal;

impl Chains {
    /// Checks the names of a chain from the first to the last, and tells the first fault.
    pub fn check(&self, names: &[u32]) -> Result<(), Refusal>
        ensures value { MatchResult result (λ _. fault_in self.now names.now ≡ None) (λ e. fault_in self.now names.now ≡ Some e) }
        ensures proper { MatchResult result (λ _. IsChain self.now names.now) (λ _. IsChain self.now names.now → ⊥) }
        ensures grows { OnOk result (Grows self.now.setting.size self.now.setting.tolerance self.now.lead names.now) }
    {
        // Not `contains` of a range: with it the scan below is compiled to a quarter more steps (docs/DESIGN-PASS.md).
        if names.is_empty() || names.len() > self.setting.tolerance() as usize + 1 {
            return Err(Refusal::Length);
        }
        let mut seen = NameSet::new();
        // By index, and left at the first fault: a form that was asked for (docs/DECISIONS.md, 45).
        for (i, name) in names.iter().enumerate() {
            self.check_name(*name, i as u32 + 1, seen)?;
            seen.add(*name);
        }
        Ok(())
    }

    /// Checks the name at a place of a chain, where the names before it have been seen.
    fn check_name(&self, name: u32, place: u32, seen: NameSet) -> Result<(), Refusal>
        ensures { MatchResult result (λ _. fault_of_name self.now.setting.size self.now.lead place (in_set seen name) name ≡ None) (λ e. fault_of_name self.now.setting.size self.now.lead place (in_set seen name) name ≡ Some e) }
    {
        if name >= self.setting.size() {
            return Err(Refusal::Beyond(place));
        }
        if place == 1 && name != self.lead {
            return Err(Refusal::NotLead);
        }
        if seen.has(name) {
            return Err(Refusal::Repeated(place));
        }
        Ok(())
    }
}
