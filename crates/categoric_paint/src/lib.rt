// Painting f32 samples by a categoric legend (docs/RULES.md, "Painting"): by its look-up table, or by its keys where it has none.
#![tactic(auto)]

pub mod keys;
pub mod table;

use colormapper::Exclusions;

// What a categoric legend is painted by, beside its table or its keys.
#[derive(Clone, Copy)]
pub struct CategoricPaint {
    pub nodata: u32,
    pub exclusions: Exclusions,
}
