// What a switch keeps of one chain.

/// One switch's record of the chain of one place. Its form is the memory that plants lend: 32 bits and a flag.
#[derive(Clone, Copy, Debug, PartialEq, Eq)]
pub struct Cell {
    /// The signature mark of the chain, 0 while it is unknown. (No `Option`: that form has 0 for it.)
    pub mark: u32,
    /// Whether the switch holds the chain.
    pub taken: bool,
}
