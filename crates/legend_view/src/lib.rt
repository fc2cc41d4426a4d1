// A legend whose arrays are borrowed (docs/DECISIONS.md, "A legend's arrays are borrowed").
#![tactic(auto)]

ghost use Rattle.std.specs.Prelude.{◌≡◌};
ghost use Rattle.legend.specs.Record.{stored_refusal, simd_supported};
ghost use Rattle.legend_view.specs.Borrowed.{borrowed_legend};

use banded::Banded;
use colormapper::MappingConfig;
use legend::{Legend, LegendKind};
use refusal::Refusal;

// A legend whose arrays are borrowed.
#[derive(Clone, Copy)]
pub struct View<'a> {
    pub kind: LegendKind,
    pub start: f32,
    pub end: f32,
    pub cmap: &'a [u32; 256],
    pub banded: &'a Banded,
    pub keys: &'a [i64; 256],
    pub colors: &'a [u32; 256],
    pub count: usize,
    pub lookup: &'a [u32; 513],
    pub lookup_count: usize,
    pub mapping_config: MappingConfig,
}

impl<'a> View<'a> {
    // 16: what the stored record of the legend's kind is refused by.
    #[tactic(auto, unfolding(legend::specs::Record::stored_refusal))]
    pub fn stored_refusal(self) -> Result<(), Refusal>
        ensures { result ≡ stored_refusal (borrowed_legend self.entry) }
    {
        match self.kind {
            LegendKind::Linear => Ok(()),
            LegendKind::Banded => banded::banded_refusal(self.banded.count),
            LegendKind::CategoricNumeric => {
                catgegoric::categoric_refusal(self.count, self.lookup_count)
            }
        }
    }

    // Whether lanes have a rule of their own.
    #[tactic(auto, unfolding(legend::specs::Record::simd_supported))]
    pub fn simd_supported(self) -> bool
        ensures { result ≡ simd_supported (borrowed_legend self.entry) }
    {
        match self.kind {
            LegendKind::Linear => true,
            LegendKind::Banded => true,
            LegendKind::CategoricNumeric => 0 < self.lookup_count,
        }
    }
}

// The view of a legend whose arrays stand in it.
pub fn view_of(legend: &Legend) -> View<'_>
    ensures { borrowed_legend result ≡ legend.now }
{
    View {
        kind: legend.kind,
        start: legend.linear.start,
        end: legend.linear.end,
        cmap: &legend.linear.cmap,
        banded: &legend.banded,
        keys: &legend.categoric.keys,
        colors: &legend.categoric.colors,
        count: legend.categoric.count,
        lookup: &legend.categoric.lookup,
        lookup_count: legend.categoric.lookup_count,
        mapping_config: legend.mapping_config,
    }
}
