// A legend as C holds it.
ghost use Rattle.std.specs.Prelude.{◌≡◌, Err};
ghost use Rattle.c_records.specs.Records.{legend_from_c, record_to_c, made_to_c};

use banded::Banded;
use c_types::answer::LegendAnswer;
use c_types::settings::LegendSettings;
use c_types::{answer, settings};
use catgegoric::CategoricNumeric;
use legend::{Legend, LegendKind};
use linear::Linear;
use refusal::Refusal;

// The kind is 0 for linear, 1 for banded, 2 for categoric; of the three records that of the kind alone counts.
#[repr(C)]
#[derive(Clone, Copy)]
pub struct LegendRecord {
    pub kind: u32,
    pub settings: LegendSettings,
    pub linear: Linear,
    pub banded: Banded,
    pub categoric: CategoricNumeric,
}

// A legend that was asked for: the empty one beside a refusal.
#[repr(C)]
#[derive(Clone, Copy)]
pub struct LegendMade {
    pub answer: LegendAnswer,
    pub legend: LegendRecord,
}

#[tactic(auto, unfolding(crate::specs::Records::legend_from_c))]
pub fn legend_from_c(stored: LegendRecord) -> Legend
    ensures { result ≡ legend_from_c stored }
{
    let linear = stored.linear;
    let banded = stored.banded;
    let categoric = stored.categoric;
    let given = stored.settings;
    Legend {
        kind: LegendKind::from_number(stored.kind),
        linear,
        banded,
        categoric,
        mapping_config: settings::settings_from_c(given),
    }
}

#[tactic(auto, unfolding(crate::specs::Records::record_to_c))]
fn record_to_c(made: Legend) -> LegendRecord
    ensures { result ≡ record_to_c made }
{
    let kind = made.kind;
    let linear = made.linear;
    let banded = made.banded;
    let categoric = made.categoric;
    let config = made.mapping_config;
    LegendRecord {
        kind: kind.number(),
        settings: settings::settings_to_c(config),
        linear,
        banded,
        categoric,
    }
}

// The empty legend beside a refusal.
#[tactic(auto, unfolding(crate::specs::Records::made_to_c))]
fn refused(why: Refusal) -> LegendMade
    ensures { result ≡ made_to_c (Err why) (Err why) }
{
    LegendMade {
        answer: answer::to_c(Err(why)),
        legend: record_to_c(Legend::empty()),
    }
}

// What a builder made, the empty legend beside a refusal. The call's own arguments are refused by `first`, before anything else is. Inlined, for the stack.
#[inline(always)]
#[tactic(auto, unfolding(crate::specs::Records::made_to_c))]
pub fn made_to_c(first: Result<(), Refusal>, made: Result<Legend, Refusal>) -> LegendMade
    ensures { result ≡ made_to_c first made }
{
    match first {
        Ok(()) => match made {
            Ok(legend) => LegendMade {
                answer: answer::to_c(Ok(())),
                legend: record_to_c(legend),
            },
            Err(why) => refused(why),
        },
        Err(why) => refused(why),
    }
}
