// The banded legend: its record, its builders, and what the painters need of it (docs/RULES.md, "Banded").
#![tactic(auto)]

ghost use Rattle.std.specs.Prelude.{◌≡◌, []};
ghost use Rattle.colormap.specs.Positions.{ramp_colors};
ghost use Rattle.banded.specs.Record.{banded_of, counted, banded_refusal};
ghost use Rattle.banded.specs.Given.{given_refusal, with_bands_given};
ghost use Rattle.banded.specs.forms.OneByOne.{with_band, folded};
ghost use Rattle.banded.specs.EqualBands.{with_equal_bands};
ghost use Rattle.banded.specs.ManualRanges.{with_manual_ranges};
ghost use Rattle.banded.specs.Unmappable.{banded_unmappable};

use banded_columns::LegendBand;
use banded_lists::ValueRanges;
use colormapper::{MappingConfig, UnmappableColors};
use refusal::Refusal;

// The first `count` bands. Builders leave one blank band in the places after them.
#[repr(C)]
#[derive(Clone, Copy)]
pub struct Banded {
    pub bands: [LegendBand; 64],
    pub count: usize,
}

impl Banded {
    // How near to the outer edges a sample still gets the edge band's colour.
    pub const EDGE_TOLERANCE: f32 = 1e-4;

    // No bands.
    pub fn default() -> Banded
        ensures { result ≡ banded_of [] }
    {
        Banded {
            bands: banded_lists::no_bands(),
            count: 0,
        }
    }

    // Bands as given.
    #[tactic(auto, using(crate::proofs::GivenBands::given_refused, crate::proofs::GivenBands::given_made))]
    pub fn new(bands: &[LegendBand]) -> Result<Banded, Refusal>
        ensures { result ≡ with_bands_given bands.now }
    {
        given_refusal(bands.len())?;
        Ok(with_bands(Banded::default(), bands))
    }

    // Equal bands with the colours of a list.
    #[tactic(auto, using(banded_lists::proofs::Equal::equal_few, banded_lists::proofs::Equal::equal_same, crate::proofs::Equal::equal_refused, crate::proofs::Equal::equal_made))]
    pub fn with_equal_bands(
        count: usize,
        start: f32,
        end: f32,
        colors: &[u32],
    ) -> Result<Banded, Refusal>
        ensures { result ≡ with_equal_bands count start end colors.now }
    {
        banded_lists::equal_refusal(count, start, end, colors.len())?;
        Ok(Banded {
            bands: banded_lists::equal_bands(count, start, end, colormap::list_colors(colors)),
            count,
        })
    }

    // Equal bands with the colours of a ramp.
    // A function beside the list's: a ramp is never refused for its count of colours (9), and its colours are made after the refusals.
    #[tactic(auto, using(banded_lists::proofs::Equal::equal_few, banded_lists::proofs::Equal::equal_same, crate::proofs::Equal::ramp_count, crate::proofs::Equal::equal_refused, crate::proofs::Equal::equal_made))]
    pub fn with_equal_bands_from_ramp(
        count: usize,
        start: f32,
        end: f32,
        cmap: &[u32; 256],
    ) -> Result<Banded, Refusal>
        ensures { result ≡ with_equal_bands count start end (ramp_colors count cmap.now) }
    {
        banded_lists::equal_refusal(count, start, end, count)?;
        Ok(Banded {
            bands: banded_lists::equal_bands(count, start, end, colormap::ramp_colors(cmap, count)),
            count,
        })
    }

    // Bands with manual ranges and the colours of a list.
    #[tactic(auto, using(banded_lists::proofs::Manual::manual_few, banded_lists::proofs::Manual::manual_same, crate::proofs::Manual::manual_refused, crate::proofs::Manual::manual_made))]
    pub fn with_manual_ranges(values: ValueRanges, colors: &[u32]) -> Result<Banded, Refusal>
        ensures { result ≡ with_manual_ranges values colors.now }
    {
        banded_lists::manual_refusal(values, colors.len())?;
        let ranges = values.ranges;
        let count = values.count;
        let bands = banded_lists::range_bands(&ranges[..count], colormap::list_colors(colors));
        Ok(Banded { bands, count })
    }

    // Bands with manual ranges and the colours of a ramp.
    #[tactic(auto, using(banded_lists::proofs::Manual::manual_few, banded_lists::proofs::Manual::manual_same, crate::proofs::Equal::ramp_count, crate::proofs::Manual::manual_refused, crate::proofs::Manual::manual_made))]
    pub fn with_manual_ranges_from_ramp(
        values: ValueRanges,
        cmap: &[u32; 256],
    ) -> Result<Banded, Refusal>
        ensures { result ≡ with_manual_ranges values (ramp_colors values.count cmap.now) }
    {
        let count = values.count;
        banded_lists::manual_refusal(values, count)?;
        let ranges = values.ranges;
        let bands = banded_lists::range_bands(&ranges[..count], colormap::ramp_colors(cmap, count));
        Ok(Banded { bands, count })
    }
}

// ---- bands as given: a lent list of structs

// One band more, or the same where the record is full.
fn with_band(into: Banded, band: LegendBand) -> Banded
    ensures { result ≡ with_band into band }
{
    let at = into.count;
    let mut out = into;
    if at < 64 {
        out.bands[at] = band;
        out.count = at + 1;
    }
    out
}

// The bands of a list, one after the other.
#[tactic(auto, using(crate::proofs::Fold::one_more), unfolding(crate::specs::forms::OneByOne::folded))]
fn with_bands(into: Banded, bands: &[LegendBand]) -> Banded
    ensures { result ≡ folded with_band into bands.now }
{
    let mut out = into;
    for band in bands {
        out = with_band(out, *band);
    }
    out
}

// 8: more than 64 bands.
#[tactic(auto, unfolding(crate::specs::Given::given_refusal))]
fn given_refusal(count: usize) -> Result<(), Refusal>
    ensures { result ≡ given_refusal count }
{
    if count > 64 {
        return Err(Refusal::TooManyBands);
    }
    Ok(())
}

// ---- using a record

// Whether a record may be used: its stored count is at most 64.
pub fn banded_refusal(count: usize) -> Result<(), Refusal>
    ensures { result ≡ banded_refusal count }
{
    if count > 64 {
        return Err(Refusal::CountAboveCapacity);
    }
    Ok(())
}

// The settings' colours, with the outer bands' colours where low or high is absent.
pub fn unmappable_colors(banded: Banded, config: MappingConfig) -> UnmappableColors
    ensures { result ≡ banded_unmappable (counted banded) config }
{
    let nodata = config.nodata_color;
    let bands = &banded.bands[..banded_columns::at_most_64(banded.count)];
    let low = banded_columns::first_color(bands, nodata);
    let high = banded_columns::last_color(bands, nodata);
    colormapper::compute_unmappable_colors(config, low, high)
}
