// A legend as C lends it: its arrays beside the rest of it.
ghost use Rattle.std.specs.Prelude.{◌≡◌};
ghost use Rattle.legend_view.specs.Borrowed.{borrowed_legend};
ghost use Rattle.c_records.specs.Views.{view_from_c};

use banded::Banded;
use c_types::settings;
use c_types::settings::LegendSettings;
use legend::LegendKind;
use legend_view::View;

// What is neither an array nor the bands: those are passed beside it.
#[repr(C)]
#[derive(Clone, Copy)]
pub struct LegendView {
    pub kind: u32,
    pub settings: LegendSettings,
    pub start: f32,
    pub end: f32,
    pub count: usize,
    pub lookup_count: usize,
}

#[tactic(auto, unfolding(crate::specs::Views::view_from_c))]
pub fn view_from_c<'a>(
    given: LegendView,
    banded: &'a Banded,
    cmap: &'a [u32; 256],
    keys: &'a [i64; 256],
    colors: &'a [u32; 256],
    lookup: &'a [u32; 513],
) -> View<'a>
    ensures { borrowed_legend result ≡ view_from_c given banded.now cmap.now keys.now colors.now lookup.now }
{
    View {
        kind: LegendKind::from_number(given.kind),
        start: given.start,
        end: given.end,
        cmap,
        banded,
        keys,
        colors,
        count: given.count,
        lookup,
        lookup_count: given.lookup_count,
        mapping_config: settings::settings_from_c(given.settings),
    }
}
