// A grid signs by setting a bit.
ghost use Rattle.std.specs.Prelude.{◌≡◌, ◌+◌, ◌<◌};
ghost use Rattle.scheme.specs.GridLawful.{grid_lawful};
ghost use Rattle.scheme.specs.Grids.{grid_marks};
ghost use Rattle.scheme.specs.Ledgers.{Signs};

use crate::grids::Grid;
use crate::ledgers::Scheme;

impl Scheme for Grid {
    ghost counted = { λ g. g.count };

    ghost ledger = { grid_marks };

    ghost lawful = { grid_lawful };

    fn count(&self) -> u32 {
        self.count
    }

    fn entries(&self) -> u32 {
        self.signed
    }

    fn check(&self, place: u32, mark: u32) -> bool {
        place < self.count && self.has_bit(place) && mark == place + 1
    }

    fn sign(&mut self, place: u32) -> u32
        ensures signs { Signs self.old.count (grid_marks self.old) (grid_marks self.new) place result }
        ensures count { self.new.count ≡ self.old.count }
        ensures mark { place < self.old.count → result ≡ place + 1 }
    {
        if place >= self.count {
            return 0;
        }
        if !self.has_bit(place) {
            self.set_bit(place);
        }
        place + 1
    }
}
