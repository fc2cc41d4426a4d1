// Hex text and palettes.
ghost use Rattle.std.specs.Prelude.{◌≡◌};
ghost use Rattle.c_answers.specs.Colors.{hex_to_c, palette_to_c};

use c_types::answer;
use c_types::answer::LegendAnswer;
use color::Color;
use palettes::Palette;
use refusal::Refusal;

// A colour's word, 0 beside a refusal.
#[repr(C)]
#[derive(Clone, Copy)]
pub struct LegendColor {
    pub answer: LegendAnswer,
    pub color: u32,
}

// A palette's colours: the first `count`, and 0 from there on. No colours beside a refusal.
#[repr(C)]
#[derive(Clone, Copy)]
pub struct LegendPalette {
    pub answer: LegendAnswer,
    pub colors: [u32; 12],
    pub count: usize,
}

pub fn hex_to_c(found: Result<Color, Refusal>) -> LegendColor
    ensures { result ≡ hex_to_c found }
{
    match found {
        Ok(color) => LegendColor {
            answer: answer::to_c(Ok(())),
            color: color.to_bits(),
        },
        Err(why) => LegendColor {
            answer: answer::to_c(Err(why)),
            color: 0,
        },
    }
}

pub fn palette_to_c(chosen: Result<Palette, Refusal>) -> LegendPalette
    ensures { result ≡ palette_to_c chosen }
{
    match chosen {
        Ok(palette) => {
            let colors = palette.colors;
            LegendPalette {
                answer: answer::to_c(Ok(())),
                colors,
                count: palette.count,
            }
        }
        Err(why) => LegendPalette {
            answer: answer::to_c(Err(why)),
            colors: [0u32; 12],
            count: 0,
        },
    }
}
