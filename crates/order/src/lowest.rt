// The choice by number order.
ghost use Rattle.std.specs.Prelude.{◌≡◌, ℕ, ◌≤◌, true, IfSome};
ghost use Rattle.order.specs.Sets.{has, least};
ghost use Rattle.order.specs.Masks.{least_member};

use crate::choices::Choice;

/// Takes the smallest code.
#[derive(Clone, Copy, Debug, PartialEq, Eq)]
pub struct Least;

impl Choice for Least {
    ghost taken = { λ _ codes. least codes };

    ghost member = { λ c codes low. least_member codes low };

    fn choose(&self, codes: u16) -> Option<u32>
        ensures value { result ≡ least codes }
        ensures smallest { IfSome result (λ k. (j : ℕ) → has codes j ≡ true → k ≤ j) }
    {
        if codes == 0 {
            None
        } else {
            Some(codes.trailing_zeros())
        }
    }
}
