// Painting f32 samples by the keys of a categoric legend (docs/RULES.md, "Painting"), plainly only. The refusals are the caller's, who
// has seen to it that the counts are within capacity. Samples that fill no block are looked up as a block too, of which the first
// words are kept: one by one is slower.
ghost use Rattle.std.specs.Prelude.{◌≡◌, map, ◌++◌, ◌+◌, ◌≤◌, length, take, drop};
ghost use Rattle.painting.specs.Painted.{plain_painted};
ghost use Rattle.painting.specs.forms.ChunkOver.{chunk_over};
ghost use Rattle.categoric_paint.specs.forms.KeySamples.{key_sample, search_sample};

use crate::CategoricPaint;
use categoric_keys::Keys;
use categoric_search::narrow;

// ---- by keys that can be searched: the words of a block, a block of a raster, the samples after the last block, and a raster

fn words_by_search(
    narrow: &[i32; 256],
    colors: &[u32; 256],
    p: CategoricPaint,
    v: [f32; 16],
) -> [u32; 16]
    ensures { take 16 result ≡ map (search_sample narrow.now colors.now p) (take 16 v) }
{
    let c = categoric_search::colors_for_numeric_values(narrow, colors, p.nodata, v);
    p.exclusions.masked_simd(16, v, p.nodata, c)
}

fn block_by_search(
    narrow: &[i32; 256],
    colors: &[u32; 256],
    p: CategoricPaint,
    src: &[f32],
    base: usize,
    out: &mut [u32],
)
    requires { (base + 16 ≤ length src.now) × (base + 16 ≤ length out.old) }
    ensures { out.new ≡ chunk_over (map (search_sample narrow.now colors.now p)) src.now out.old base
        16 }
{
    let v = painting::load(16, src, base);
    painting::store(16, words_by_search(narrow, colors, p, v), base, out);
}

fn rest_by_search(
    narrow: &[i32; 256],
    colors: &[u32; 256],
    p: CategoricPaint,
    src: &[f32],
    base: usize,
    out: &mut [u32],
)
    requires { (base ≤ length src.now) × (length src.now ≤ base + 16) × (length out.old ≡ length src.now) }
    ensures { out.new ≡ take base out.old ++ map (search_sample narrow.now colors.now p)
        (drop base src.now) }
{
    let m = src.len() - base;
    if m == 0 {
        return;
    }
    let v = painting::load(m, src, base);
    painting::store(m, words_by_search(narrow, colors, p, v), base, out);
}

fn paint_by_search(
    narrow: &[i32; 256],
    colors: &[u32; 256],
    p: CategoricPaint,
    src: &[f32],
    out: &mut [u32],
)
    requires { length out.old ≡ length src.now }
    ensures { out.new ≡ plain_painted (search_sample narrow.now colors.now p) src.now }
{
    let blocks = src.len() / 16;
    for k in 0..blocks {
        block_by_search(narrow, colors, p, src, 16 * k, out);
    }
    rest_by_search(narrow, colors, p, src, 16 * blocks, out);
}

// ---- by keys in any order: sample by sample

fn key_sample(keys: Keys, p: CategoricPaint, value: f32) -> u32
    ensures { result ≡ key_sample keys.entry.keys.now keys.entry.colors.now keys.entry.count p value }
{
    let color = keys.key_color(p.nodata, value);
    p.exclusions.masked(value, p.nodata, color)
}

fn paint_by_scan(keys: Keys, p: CategoricPaint, src: &[f32], out: &mut [u32])
    requires { length out.old ≡ length src.now }
    ensures { out.new ≡ plain_painted (key_sample keys.entry.keys.now keys.entry.colors.now keys.entry.count p) src.now }
{
    for i in 0..src.len() {
        out[i] = key_sample(keys, p, src[i]);
    }
}

// ---- by the keys: a whole raster, with an output of its length

// Keys as a builder leaves them are searched, and others scanned.
pub fn paint_by_keys(keys: Keys, p: CategoricPaint, src: &[f32], out: &mut [u32])
    requires { length out.old ≡ length src.now }
    ensures { out.new ≡ plain_painted (key_sample keys.entry.keys.now keys.entry.colors.now keys.entry.count p) src.now }
{
    let search = narrow::searchable(keys.keys, keys.count);
    if search {
        let narrow = narrow::narrowed(keys.keys, keys.count);
        paint_by_search(&narrow, keys.colors, p, src, out);
        return;
    }
    paint_by_scan(keys, p, src, out);
}
