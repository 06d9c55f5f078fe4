// Refusals by number and position.
ghost use Rattle.std.specs.Prelude.{◌≡◌, ℕ};

/// A refusal. Its number and its position tell it from all others of its type.
pub trait Numbered: Sized {
    /// The number that a refusal is known by, in print and in the script.
    ghost numbered: { Self → ℕ };

    /// The place, from 1, of what is at fault in its list; 0 where nothing in a list is. (No `Option`: 0 is what is written.)
    ghost placed: { Self → ℕ };

    fn number(&self) -> u32
        ensures { result ≡ numbered self.now };

    fn position(&self) -> usize
        ensures { result ≡ placed self.now };

    ghost apart: { (e f : Self) → numbered e ≡ numbered f → placed e ≡ placed f → e ≡ f };
}
