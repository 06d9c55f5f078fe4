// For how many places a scheme is made, and over how many lines.
ghost use Rattle.std.specs.Prelude.{◌≡◌, ◌≤◌, Some, None, MatchResult};
ghost use Rattle.scheme.specs.Counts.{uncounted, unfit};

use crate::refusals::Refusal;

/// The most places that a scheme has.
const MOST_PLACES: u32 = 16_384;

/// Refuses a count that no scheme has.
pub(crate) fn check_count(count: u32) -> Result<(), Refusal>
    ensures { MatchResult result (λ _. (uncounted count ≡ None) × (count ≤ 16384)) (λ e. uncounted count ≡ Some e) }
{
    if !(1..=MOST_PLACES).contains(&count) {
        return Err(Refusal::Count);
    }
    Ok(())
}

/// Refuses a count that no book over so many lines has.
pub(crate) fn check_fit(count: u32, lines: usize) -> Result<(), Refusal>
    ensures { MatchResult result (λ _. (unfit count lines ≡ None) × (count ≤ 16384) × (count ≤ lines)) (λ e. unfit count lines ≡ Some e) }
{
    check_count(count)?;
    if lines < count as usize {
        return Err(Refusal::Lines);
    }
    Ok(())
}
