// The bands of a list, lent by their columns and not as a slice of bands: the loops over lanes read the starts alone, and a proof fails where ends are
// given for starts (must-fail/block_indices_by_ends of `banded_search`, must-fail/places_by_ends of `banded_chunk`, must-fail/searched_by_starts_alone of
// `banded_paint`).
ghost use Rattle.std.specs.Prelude.{◌≤◌, ◌<◌, ◌-◌};

use banded_columns::LegendBand;

// The counted bands of a legend, borrowed by their columns. Whoever makes them has refused a larger count (16) before.
#[derive(Clone, Copy)]
pub struct Columns<'a> {
    pub starts: &'a [f32; 64],
    pub ends: &'a [f32; 64],
    pub colors: &'a [u32; 64],
    pub count: usize,
    pub ghost capacity: { count ≤ 64 },
}

impl Columns<'_> {
    ghost use Rattle.std.specs.Prelude.{◌≡◌};
    ghost use Rattle.banded_rule.specs.forms.Columns.{nth_band};

    pub fn band_at(self, i: usize) -> LegendBand
        requires { i < 64 }
        ensures { result ≡ nth_band self.entry i }
    {
        crate::band_at(self.starts, self.ends, self.colors, i)
    }

    pub fn first(self) -> LegendBand
        ensures { result ≡ nth_band self.entry 0 }
    {
        self.band_at(0)
    }

    pub fn last(self) -> LegendBand
        requires { 0 < self.count }
        ensures { result ≡ nth_band self.entry (self.entry.count - 1) }
    {
        self.band_at(self.count - 1)
    }
}
