// What the interface refuses of a call's own arguments, before any refusal of the table: 100 for a flag that is neither 0
// nor 1, 101 for a kind that is none of 0, 1, 2. Rust's types rule these out, C's do not.
ghost use Rattle.std.specs.Prelude.{◌≡◌};
ghost use Rattle.c_types.specs.Refusals.{settings_flags, settings_refusal, legend_refusal, use_refusal};

use crate::settings::LegendSettings;
use refusal::Refusal;

fn are_flags(settings: LegendSettings) -> bool
    ensures { result ≡ settings_flags settings }
{
    (settings.has_low < 2) & (settings.has_high < 2) & (settings.zero_is_nodata < 2)
}

// A builder's settings.
#[tactic(auto, unfolding(crate::specs::Refusals::settings_refusal))]
pub fn settings_refusal(settings: LegendSettings) -> Result<(), Refusal>
    ensures { result ≡ settings_refusal settings }
{
    if are_flags(settings) {
        return Ok(());
    }
    Err(Refusal::BadFlag)
}

// A legend: its flags, then its kind.
#[tactic(auto, unfolding(crate::specs::Refusals::legend_refusal))]
pub fn legend_refusal(settings: LegendSettings, kind: u32) -> Result<(), Refusal>
    ensures { result ≡ legend_refusal settings kind }
{
    settings_refusal(settings)?;
    if 2 < kind {
        return Err(Refusal::BadKind);
    }
    Ok(())
}

// A legend and the flag of a nodata value.
#[tactic(auto, unfolding(crate::specs::Refusals::use_refusal))]
pub fn use_refusal(settings: LegendSettings, kind: u32, given: u32) -> Result<(), Refusal>
    ensures { result ≡ use_refusal settings kind given }
{
    legend_refusal(settings, kind)?;
    if 1 < given {
        return Err(Refusal::BadFlag);
    }
    Ok(())
}
