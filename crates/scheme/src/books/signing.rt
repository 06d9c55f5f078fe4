// A book signs by writing the next line, and checks by looking at one.
ghost use Rattle.std.specs.Prelude.{◌≡◌};
ghost use Rattle.scheme.specs.BookLawful.{book_lawful};
ghost use Rattle.scheme.specs.Books.{marks, Written};
ghost use Rattle.scheme.specs.Ledgers.{Signs};

use crate::books::Book;
use crate::ledgers::Scheme;

impl Scheme for Book<'_> {
    ghost counted = { λ b. b.count };

    ghost ledger = { marks };

    ghost lawful = { book_lawful };

    fn count(&self) -> u32 {
        self.count
    }

    fn entries(&self) -> u32 {
        self.used
    }

    fn check(&self, place: u32, mark: u32) -> bool {
        self.place_of(mark) == Some(place)
    }

    fn sign(&mut self, place: u32) -> u32
        ensures signs { Signs self.old.count (marks self.old) (marks self.new) place result }
        ensures count { self.new.count ≡ self.old.count }
        ensures line { Written self.old place self.new result }
    {
        if place >= self.count {
            return 0;
        }
        match self.mark_of(place) {
            Some(mark) => mark,
            None => self.write_next(place),
        }
    }
}
