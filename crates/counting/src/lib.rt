// Lists of different numbers and how many numbers pass a test. There is nothing to run here: the definitions are cited by
// the contracts of the crates above, and the laws by their proofs.
#![tactic(auto)]

ghost use Rattle.counting.specs.Laws.{Counted};

/// A list of different numbers below n has as many as there are numbers below n that stand in it, and so at most n; and
/// where more numbers pass one test than fail another, one passes both.
pub fn laws_hold()
    ensures { Counted }
{}
