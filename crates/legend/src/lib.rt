// Legends of any kind: the record (docs/RULES.md).
#![tactic(auto)]

ghost use Rattle.std.specs.Prelude.{◌≡◌};
ghost use Rattle.legend.specs.Record.{kind_number, kind_numbered, linear_legend, banded_legend, categoric_legend, empty_legend, stored_refusal};

use banded::Banded;
use catgegoric::CategoricNumeric;
use colormapper::MappingConfig;
use linear::Linear;
use refusal::Refusal;

#[derive(Clone, Copy)]
pub enum LegendKind {
    Linear,
    Banded,
    CategoricNumeric,
}

impl LegendKind {
    // Its number wherever a legend is stored: 0, 1 or 2.
    pub fn number(self) -> u32
        ensures { result ≡ kind_number self }
    {
        match self {
            LegendKind::Linear => 0,
            LegendKind::Banded => 1,
            LegendKind::CategoricNumeric => 2,
        }
    }

    // The kind with a number. A number that is none of the three has been refused before.
    pub fn from_number(number: u32) -> LegendKind
        ensures { result ≡ kind_numbered number }
    {
        if number == 0 {
            return LegendKind::Linear;
        }
        if number == 1 {
            return LegendKind::Banded;
        }
        LegendKind::CategoricNumeric
    }
}

// A kind beside the three records, of which that of the kind alone counts, as C holds it: an enum would be taken apart at each call.
#[derive(Clone, Copy)]
pub struct Legend {
    pub kind: LegendKind,
    pub linear: Linear,
    pub banded: Banded,
    pub categoric: CategoricNumeric,
    pub mapping_config: MappingConfig,
}

impl Legend {
    // The empty legend: linear, from 0 to 0, over a ramp that is TRANSPARENT throughout.
    pub fn empty() -> Legend
        ensures { result ≡ empty_legend }
    {
        Legend::with_linear(Linear::default(), MappingConfig::default())
    }

    // A legend of a record, whoever made it: a count above capacity is refused (16) by whoever uses the legend.
    pub fn with_linear(linear: Linear, config: MappingConfig) -> Legend
        ensures { result ≡ linear_legend linear config }
    {
        Legend {
            kind: LegendKind::Linear,
            linear,
            banded: Banded::default(),
            categoric: CategoricNumeric::default(),
            mapping_config: config,
        }
    }

    pub fn with_banded(banded: Banded, config: MappingConfig) -> Legend
        ensures { result ≡ banded_legend banded config }
    {
        Legend {
            kind: LegendKind::Banded,
            linear: Linear::default(),
            banded,
            categoric: CategoricNumeric::default(),
            mapping_config: config,
        }
    }

    pub fn with_categoric(categoric: CategoricNumeric, config: MappingConfig) -> Legend
        ensures { result ≡ categoric_legend categoric config }
    {
        Legend {
            kind: LegendKind::CategoricNumeric,
            linear: Linear::default(),
            banded: Banded::default(),
            categoric,
            mapping_config: config,
        }
    }

    // 16: what the stored record of the legend's kind is refused by.
    #[tactic(auto, unfolding(crate::specs::Record::stored_refusal))]
    pub fn stored_refusal(&self) -> Result<(), Refusal>
        ensures { result ≡ stored_refusal self.now }
    {
        match self.kind {
            LegendKind::Linear => Ok(()),
            LegendKind::Banded => banded::banded_refusal(self.banded.count),
            LegendKind::CategoricNumeric => {
                catgegoric::categoric_refusal(self.categoric.count, self.categoric.lookup_count)
            }
        }
    }
}
