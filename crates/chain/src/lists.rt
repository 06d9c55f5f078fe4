// The names of a chain as a value of their own.
ghost use Rattle.std.specs.Prelude.{◌≡◌, ◌-◌, ◌≤◌, length, drop, replicate};

/// The names of a chain, the lead's first. They are kept inside, so no memory is asked for. (The kit's `ArrayVec` can't be
/// copied. And no `impl Model`: what holds such a value can't be passed by value and used again.)
#[derive(Clone, Copy, Debug, PartialEq, Eq)]
pub struct Names {
    /// The names, and zeros after them.
    list: [u32; 12],
    count: usize,
    ghost few: { count ≤ 12 },
    ghost full: { length list ≡ 12 },
    ghost zeros: { drop count list ≡ replicate (12 - count) 0 },
}

impl Names {
    ghost use Rattle.std.specs.Prelude.{◌≡◌, ◌<◌, ◌≤◌, [], ◌∷◌, ◌++◌, length};
    ghost use Rattle.chain.specs.declared.lists.Names.{Names};
    ghost use Rattle.chain.specs.NameLists.{names_of};

    /// The chain of the lead alone.
    pub(crate) fn of_lead(lead: u32) -> Names
        ensures { names_of result ≡ lead ∷ [] }
    {
        let mut list = [0; 12];
        list[0] = lead;
        Names { list, count: 1 }
    }

    pub(crate) fn push(&mut self, name: u32)
        requires { length (names_of self.old) < 12 }
        ensures { names_of self.new ≡ names_of self.old ++ name ∷ [] }
    {
        self.list[self.count] = name;
        self.count += 1;
    }

    /// Values with the same names are one value.
    pub fn as_slice(&self) -> &[u32]
        ensures value { result.now ≡ names_of self.now }
        ensures short { length result.now ≤ 12 }
        ensures same { (other : Names) → names_of other ≡ names_of self.now → other ≡ self.now }
    {
        &self.list[..self.count]
    }
}
