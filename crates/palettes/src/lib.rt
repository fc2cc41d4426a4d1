// Palettes (docs/RULES.md, "Colours and ramps"): one table of colours, with an offset and a length for each number.
#![tactic(auto)]

mod table;

ghost use Rattle.std.specs.Prelude.{◌≡◌, ◌<◌, length, get_or};
ghost use Rattle.lists.specs.Padded.{padded};
ghost use Rattle.palettes.specs.Palettes.{palette, palette_table, offset};
ghost use Rattle.palettes.specs.Asked.{preset_refusal, palette_of};

use refusal::Refusal;
use table::{COLORS, LENGTHS, OFFSETS};

// A palette's colours: the first `count`, and 0 from there on.
#[derive(Clone, Copy)]
pub struct Palette {
    pub colors: [u32; 12],
    pub count: usize,
}

// The colours of a palette's number.
#[tactic(auto, unfolding(crate::specs::Asked::palette_of))]
pub fn palette_of(number: usize) -> Result<Palette, Refusal>
    ensures { result ≡ palette_of number }
{
    preset_refusal(number)?;
    Ok(Palette {
        colors: palette_colors(number),
        count: palette_length(number),
    })
}

#[tactic(auto, unfolding(crate::specs::Asked::preset_refusal))]
fn preset_refusal(number: usize) -> Result<(), Refusal>
    ensures { result ≡ preset_refusal number }
{
    if number > 31 {
        return Err(Refusal::NoSuchPalette);
    }
    Ok(())
}

fn palette_colors(number: usize) -> [u32; 12]
    ensures { result ≡ padded 0 12 (palette number) }
{
    let mut colors = [0u32; 12];
    for i in 0..12 {
        colors[i] = palette_color(number, i);
    }
    colors
}

// One colour of a palette, 0 beyond its end and for no palette.
pub fn palette_color(number: usize, index: usize) -> u32
    ensures { result ≡ get_or (palette number) index 0 }
{
    if index >= palette_length(number) {
        return 0;
    }
    table_color(offset_of(number) + index)
}

// Where a palette begins in the table.
fn offset_of(number: usize) -> usize
    requires { number < 32 }
    ensures { result ≡ offset number }
{
    OFFSETS[number]
}

fn table_color(at: usize) -> u32
    requires { at < 304 }
    ensures { result ≡ get_or palette_table at 0 }
{
    COLORS[at]
}

// How many colours a palette has, 0 for no palette.
pub fn palette_length(number: usize) -> usize
    ensures { result ≡ length (palette number) }
{
    if number > 31 {
        return 0;
    }
    LENGTHS[number]
}
