// Orders to a link of the ring: open it or close it.
ghost use Rattle.std.specs.Prelude.{◌≡◌, ◌+◌, ◌*◌, ◌<◌, ◌≤◌, MatchOption};
ghost use Rattle.order.specs.Links.{link_code};
ghost use Rattle.std.proofs.Common.{rules, arith};

use crate::kinds::Order;

/// An order to one of the links 0 to 5: each can be opened and closed, so the flag is a value of its own.
#[derive(Clone, Copy, Debug, PartialEq, Eq)]
pub struct LinkOrder {
    link: u32,
    closed: bool,
    ghost below: { link < 6 },
}

impl LinkOrder {
    /// The order to close or to open a link; none from link 6 up.
    pub fn new(link: u32, closed: bool) -> Option<LinkOrder>
        ensures { MatchOption result (6 ≤ link) (λ o. (o.link ≡ link) × (o.closed ≡ closed)) }
    {
        if link < 6 {
            Some(LinkOrder { link, closed })
        } else {
            None
        }
    }

    pub fn link(&self) -> u32
        ensures value { result ≡ self.now.link }
        ensures bound { result < 6 }
    {
        self.link
    }

    pub fn is_closed(&self) -> bool
        ensures { result ≡ self.now.closed }
    {
        self.closed
    }
}

impl Order for LinkOrder {
    const CODES: u32 = 12;

    ghost CODES = { 12 };

    ghost coded = { λ o. link_code o.link o.closed };

    ghost some = { Prim.search rules };

    ghost few = { Prim.search rules };

    ghost below = { Prim.search rules };

    ghost apart = { Prim.grind (arith, Self.row.coded.inj) };

    fn code(&self) -> u32 {
        2 * self.link + u32::from(self.closed)
    }

    fn from_code(code: u32) -> Option<LinkOrder> {
        LinkOrder::new(code / 2, code % 2 == 1)
    }
}
