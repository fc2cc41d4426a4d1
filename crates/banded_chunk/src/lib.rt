// The colours of sixteen samples, or of a chunk of as many as there are lanes, by a banded legend (docs/RULES.md, "Painting").
// Ascending disjoint bands are searched by index, others scanned, as the caller asks.
#![tactic(auto)]

ghost use Rattle.std.specs.Prelude.{◌≡◌, true, ◌+◌, ◌<◌, ◌≤◌, length, get_or, take};
ghost use Rattle.std.specs.Float.{nan};
ghost use Rattle.lists.specs.Lanes.{LanesOf};
ghost use Rattle.lists.specs.Padded.{padded};
ghost use Rattle.banded_columns.specs.Order.{ascending_disjoint};
ghost use Rattle.banded_rule.specs.forms.Columns.{bands_of};
ghost use Rattle.painting.specs.forms.ChunkOver.{chunk_over};
ghost use Rattle.painting.specs.Paintings.{lane_count};
ghost use Rattle.banded_chunk.specs.forms.Samples.{plain_sample, lane_chunk};
ghost use Rattle.banded_chunk.specs.forms.Searchable.{Searchable};

use banded_lanes::Scan;
use banded_rule::Columns;
use banded_search::indices;
use colormapper::{Exclusions, UnmappableColors};

// What a banded legend is painted by, beside its bands.
#[derive(Clone, Copy)]
pub struct BandedPaint {
    pub unmappable: UnmappableColors,
    pub exclusions: Exclusions,
}

// ---- sixteen words by the plain rule: of all bands, or of the one at each sample's index

fn words_plain(columns: Columns, p: BandedPaint, v: [f32; 16]) -> [u32; 16]
    ensures { LanesOf 0 16 (λ k. plain_sample (bands_of columns.entry) p (get_or v k nan)) result }
{
    let c = banded_rule::colors_for_numeric_values(columns, p.unmappable, v);
    p.exclusions.masked_simd(16, v, p.unmappable.nodata, c)
}

fn words_searched(columns: Columns, p: BandedPaint, v: [f32; 16]) -> [u32; 16]
    requires { ascending_disjoint (bands_of columns) ≡ true }
    ensures { LanesOf 0 16 (λ k. plain_sample (bands_of columns.entry) p (get_or v k nan)) result }
{
    let c = banded_search::colors_for_numeric_values(columns, p.unmappable, v);
    p.exclusions.masked_simd(16, v, p.unmappable.nodata, c)
}

// By a search where it is asked for: only of ascending disjoint bands.
pub fn words(columns: Columns, p: BandedPaint, search: bool, v: [f32; 16]) -> [u32; 16]
    requires { search ≡ true → ascending_disjoint (bands_of columns) ≡ true }
    ensures { LanesOf 0 16 (λ k. plain_sample (bands_of columns.entry) p (get_or v k nan)) result }
{
    if search {
        return words_searched(columns, p, v);
    }
    words_plain(columns, p, v)
}

// ---- the words of a chunk, in straight lines over a lane count that is a literal

// By a scan.
fn words_simd<const L: usize>(columns: Columns, p: BandedPaint, v: [f32; 16]) -> [u32; 16]
    requires { L ≤ 16 }
    ensures { result ≡ padded 0 16 (lane_chunk (bands_of columns.entry) p (take L v)) }
{
    let scan = banded_lanes::scanned(L, columns, p.unmappable.nodata, v);
    let c = banded_lanes::apply_lane_edges(L, columns, p.unmappable, v, scan);
    p.exclusions.masked_simd(L, v, p.unmappable.nodata, c)
}

// By a search: the scan is what stands at the lanes' indices.
fn words_searched_simd<const L: usize>(columns: Columns, p: BandedPaint, v: [f32; 16]) -> [u32; 16]
    requires { Searchable columns × (0 < L) × (L ≤ 16) }
    ensures { result ≡ padded 0 16 (lane_chunk (bands_of columns.entry) p (take L v)) }
{
    let indices = indices::band_indices(L, columns.starts, columns.count, v);
    let unheld = [p.unmappable.nodata; 16];
    let scan = Scan {
        colors: banded_search::colors_at(
            L,
            columns.starts,
            columns.ends,
            columns.colors,
            indices,
            v,
            unheld,
        ),
        finished: banded_search::all_held(L, columns.starts, columns.ends, indices, v),
    };
    let c = banded_lanes::apply_lane_edges(L, columns, p.unmappable, v, scan);
    p.exclusions.masked_simd(L, v, p.unmappable.nodata, c)
}

// ---- one chunk of a raster, in lanes

pub fn chunk(columns: Columns, p: BandedPaint, l: usize, src: &[f32], base: usize, out: &mut [u32])
    requires { (lane_count l ≡ true) × (base + l ≤ length src.now) × (base + l ≤ length out.old) }
    ensures { out.new ≡ chunk_over (lane_chunk (bands_of columns.entry) p) src.now out.old base l }
{
    match l {
        4 => chunk_simd::<4>(columns, p, src, base, out),
        8 => chunk_simd::<8>(columns, p, src, base, out),
        _ => chunk_simd::<16>(columns, p, src, base, out),
    }
}

fn chunk_simd<const L: usize>(
    columns: Columns,
    p: BandedPaint,
    src: &[f32],
    base: usize,
    out: &mut [u32],
)
    requires { (L ≤ 16) × (base + L ≤ length src.now) × (base + L ≤ length out.old) }
    ensures { out.new ≡ chunk_over (lane_chunk (bands_of columns.entry) p) src.now out.old base L }
{
    let v = painting::load(L, src, base);
    let words = words_simd::<L>(columns, p, v);
    painting::store(L, words, base, out);
}

pub fn chunk_searched(
    columns: Columns,
    p: BandedPaint,
    l: usize,
    src: &[f32],
    base: usize,
    out: &mut [u32],
)
    requires { Searchable columns × (lane_count l ≡ true) × (base + l ≤ length src.now) × (base + l ≤ length out.old) }
    ensures { out.new ≡ chunk_over (lane_chunk (bands_of columns.entry) p) src.now out.old base l }
{
    match l {
        4 => chunk_searched_simd::<4>(columns, p, src, base, out),
        8 => chunk_searched_simd::<8>(columns, p, src, base, out),
        _ => chunk_searched_simd::<16>(columns, p, src, base, out),
    }
}

fn chunk_searched_simd<const L: usize>(
    columns: Columns,
    p: BandedPaint,
    src: &[f32],
    base: usize,
    out: &mut [u32],
)
    requires { Searchable columns × (0 < L) × (L ≤ 16) × (base + L ≤ length src.now) × (base + L ≤ length out.old) }
    ensures { out.new ≡ chunk_over (lane_chunk (bands_of columns.entry) p) src.now out.old base L }
{
    let v = painting::load(L, src, base);
    let words = words_searched_simd::<L>(columns, p, v);
    painting::store(L, words, base, out);
}
