// Painting f32 samples by the look-up table of a categoric legend (docs/RULES.md, "Painting"), plainly and in lanes. The refusals are
// the caller's, who has seen to it that the counts are within capacity. Samples that fill no block are looked up as a block too, of
// which the first words are kept: one by one is slower.
ghost use Rattle.std.specs.Prelude.{◌≡◌, true, map, ◌++◌, ◌+◌, ◌≤◌, length, get_or, take, drop};
ghost use Rattle.std.specs.Float.{nan};
ghost use Rattle.lists.specs.Lanes.{LanesOf};
ghost use Rattle.painting.specs.Painted.{plain_painted, lane_painted};
ghost use Rattle.painting.specs.forms.ChunkOver.{chunk_over};
ghost use Rattle.painting.specs.Paintings.{lane_count};
ghost use Rattle.categoric_paint.specs.forms.TableSamples.{table_sample, table_chunk};

use crate::CategoricPaint;
use categoric_table::Table;

// ---- the words of a chunk of L lanes, in straight lines over the literal

fn words_simd<const L: usize>(table: Table, p: CategoricPaint, v: [f32; 16]) -> [u32; 16]
    requires { L ≤ 16 }
    ensures { LanesOf 0 L (λ k. table_sample table.entry.lookup.now table.entry.size p (get_or v k nan)) result }
{
    let words = table.gather(L, v);
    table.mask_missing(L, p.nodata, p.exclusions, v, words)
}

// ---- one chunk of a raster

fn block(table: Table, p: CategoricPaint, src: &[f32], base: usize, out: &mut [u32])
    requires { (base + 16 ≤ length src.now) × (base + 16 ≤ length out.old) }
    ensures { out.new ≡ chunk_over (map (table_sample table.entry.lookup.now table.entry.size p)) src.now out.old base 16 }
{
    let v = painting::load(16, src, base);
    painting::store(16, words_simd::<16>(table, p, v), base, out);
}

fn chunk(table: Table, p: CategoricPaint, l: usize, src: &[f32], base: usize, out: &mut [u32])
    requires { (lane_count l ≡ true) × (base + l ≤ length src.now) × (base + l ≤ length out.old) }
    ensures { out.new ≡ chunk_over (table_chunk table.entry.lookup.now table.entry.size p) src.now out.old base l }
{
    match l {
        4 => chunk_simd::<4>(table, p, src, base, out),
        8 => chunk_simd::<8>(table, p, src, base, out),
        _ => chunk_simd::<16>(table, p, src, base, out),
    }
}

fn chunk_simd<const L: usize>(
    table: Table,
    p: CategoricPaint,
    src: &[f32],
    base: usize,
    out: &mut [u32],
)
    requires { (L ≤ 16) × (base + L ≤ length src.now) × (base + L ≤ length out.old) }
    ensures { out.new ≡ chunk_over (table_chunk table.entry.lookup.now table.entry.size p) src.now out.old base L }
{
    let v = painting::load(L, src, base);
    painting::store(L, words_simd::<L>(table, p, v), base, out);
}

// The samples from base on, at most sixteen.
fn rest(table: Table, p: CategoricPaint, src: &[f32], base: usize, out: &mut [u32])
    requires { (base ≤ length src.now) × (length src.now ≤ base + 16) × (length out.old ≡ length src.now) }
    ensures { out.new ≡ take base out.old ++ map (table_sample table.entry.lookup.now table.entry.size p) (drop base src.now) }
{
    let m = src.len() - base;
    if m == 0 {
        return;
    }
    let v = painting::load(m, src, base);
    painting::store(m, words_simd::<16>(table, p, v), base, out);
}

// ---- a whole raster, with an output of its length

// Plain painting, in blocks of sixteen.
pub fn paint_by_table(table: Table, p: CategoricPaint, src: &[f32], out: &mut [u32])
    requires { length out.old ≡ length src.now }
    ensures { out.new ≡ plain_painted (table_sample table.entry.lookup.now table.entry.size p) src.now }
{
    let blocks = src.len() / 16;
    for k in 0..blocks {
        block(table, p, src, 16 * k, out);
    }
    rest(table, p, src, 16 * blocks, out);
}

// Lane painting: whole chunks of l samples, then the rest.
pub fn paint_by_table_simd(table: Table, p: CategoricPaint, l: usize, src: &[f32], out: &mut [u32])
    requires { (lane_count l ≡ true) × (length out.old ≡ length src.now) }
    ensures { out.new
        ≡ lane_painted l (table_chunk table.entry.lookup.now table.entry.size p) (table_sample table.entry.lookup.now table.entry.size p)
        src.now }
{
    let chunks = src.len() / l;
    for k in 0..chunks {
        chunk(table, p, l, src, l * k, out);
    }
    rest(table, p, src, l * chunks, out);
}
