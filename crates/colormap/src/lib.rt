// Ramps (docs/RULES.md, "Colours and ramps").
#![tactic(auto)]

ghost use Rattle.std.specs.Prelude.{◌≡◌, ◌+◌, ◌*◌, ◌≤◌, ◌<◌, length};
ghost use Rattle.colormap.specs.Spread.{channel, blend, spread_at, spread};
ghost use Rattle.lists.specs.Padded.{padded};
ghost use Rattle.colormap.specs.Positions.{step, position, ramp_colors};
ghost use Rattle.colormap.specs.Made.{list_refusal, empty_ramp, ramp_of_list, ramp_of_preset};

use color::Color;
use refusal::Refusal;

// A ramp: exactly 256 colours.
#[derive(Clone, Copy)]
pub struct ProcessedColorMap {
    pub cmap: [u32; 256],
}

impl ProcessedColorMap {
    pub fn default() -> ProcessedColorMap
        ensures { result ≡ empty_ramp }
    {
        ProcessedColorMap { cmap: [0u32; 256] }
    }
}

// ---- making ramps

// A ramp from a list of colours.
#[tactic(auto, using(crate::proofs::Making::enough, crate::proofs::Making::few), unfolding(crate::specs::Made::spread_unless))]
pub fn create(colors: &[u32]) -> Result<ProcessedColorMap, Refusal>
    ensures { result ≡ ramp_of_list colors.now }
{
    list_refusal(colors.len())?;
    Ok(ProcessedColorMap {
        cmap: from_color_list(colors),
    })
}

// A ramp from a palette's number.
#[tactic(auto, using(crate::proofs::Making::palette_refused, crate::proofs::Making::by_number))]
pub fn create_for_preset(number: usize) -> Result<ProcessedColorMap, Refusal>
    ensures { result ≡ ramp_of_preset number }
{
    let palette = palettes::palette_of(number)?;
    let colors = palette.colors;
    create(&colors[..palette.count])
}

#[tactic(auto, unfolding(crate::specs::Made::list_refusal))]
fn list_refusal(count: usize) -> Result<(), Refusal>
    ensures { result ≡ list_refusal count }
{
    if count < 2 {
        return Err(Refusal::TooFewColors);
    }
    if count > 256 {
        return Err(Refusal::TooManyColors);
    }
    Ok(())
}

// A list of 2 to 256 colours spread over a ramp: `create` refuses others.
fn from_color_list(colors: &[u32]) -> [u32; 256]
    requires { (2 ≤ length colors.now) × (length colors.now ≤ 256) }
    ensures { result ≡ spread colors.now }
{
    let mut cmap = [0u32; 256];
    for i in 0..256 {
        cmap[i] = spread_at(colors, i);
    }
    cmap
}

// Entry i of the ramp.
fn spread_at(colors: &[u32], i: usize) -> u32
    requires { (2 ≤ length colors.now) × (length colors.now ≤ 256) × (i < 256) }
    ensures { result ≡ spread_at colors.now i }
{
    let t = i * (colors.len() - 1);
    let k = t / 255;
    let r = t % 255;
    if r == 0 {
        return colors[k];
    }
    let next = k + 1;
    blended(
        r as u32,
        Color::from_bits(colors[k]),
        Color::from_bits(colors[next]),
    )
    .to_bits()
}

// Each channel at r / 255 of the way from x to y.
fn blended(r: u32, x: Color, y: Color) -> Color
    requires { r < 255 }
    ensures { result ≡ blend r x y }
{
    Color {
        r: blended_channel(r, x.r, y.r),
        g: blended_channel(r, x.g, y.g),
        b: blended_channel(r, x.b, y.b),
        a: blended_channel(r, x.a, y.a),
    }
}

fn blended_channel(r: u32, c: u8, d: u8) -> u8
    requires { r < 255 }
    ensures { result ≡ channel r c d }
{
    (((c as u32) * (255 - r) + (d as u32) * r + 127) / 255) as u8
}

// ---- the colours of a builder

// The colours that `count` bands or categories take from a ramp, then zeros. The builders refuse a larger count.
pub fn ramp_colors(cmap: &[u32; 256], count: usize) -> [u32; 256]
    requires { count ≤ 256 }
    ensures { result ≡ padded 0 256 (ramp_colors count cmap.now) }
{
    let step = color_step(count);
    let mut position = 0.0f32;
    let mut colors = [0u32; 256];
    for i in 0..count {
        colors[i] = lookup::get_color(cmap, position);
        position += step;
    }
    colors
}

// How far apart the positions of colours are.
fn color_step(count: usize) -> f32
    requires { count ≤ 256 }
    ensures { result ≡ step count }
{
    if count == 1 {
        return 0.0;
    }
    1.0 / (count as f32 - 1.0)
}

// The colours of a list, then zeros. The builders refuse a longer one.
pub fn list_colors(colors: &[u32]) -> [u32; 256]
    requires { length colors.now ≤ 256 }
    ensures { result ≡ padded 0 256 colors.now }
{
    let mut result = [0u32; 256];
    result[..colors.len()].copy_from_slice(colors);
    result
}
