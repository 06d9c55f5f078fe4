// The round that plants set their stop times by.
ghost use Rattle.std.specs.Prelude.{◌≡◌, IfErr};
ghost use Rattle.setting.specs.Quotes.{quoted, Breaks, Lawful};
ghost use Rattle.setting.specs.Refused.{numbered, placed};

use crate::refusals::Refusal;
use crate::settings::Setting;

/// The round by whose close every sound switch has acted, where `sound` of a ring's switches are sound and the lead is
/// one of them.
pub fn quote(size: u32, tolerance: u32, sound: u32) -> Result<u32, Refusal>
    ensures value { result ≡ quoted size tolerance sound }
    ensures breaks { IfErr result (λ e. Breaks size tolerance sound (numbered e) (placed e)) }
    ensures laws { Lawful size tolerance sound result }
{
    let setting = Setting::new(size, tolerance)?;
    if !(setting.size() - setting.tolerance()..=setting.size()).contains(&sound) {
        return Err(Refusal::SoundCount);
    }
    Ok((setting.tolerance() + 3).saturating_sub(sound).max(2))
}
