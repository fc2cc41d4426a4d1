// What a legend is used for: the colour of a sample, the whole range of its values, the list of its colours.
ghost use Rattle.std.specs.Prelude.{◌≡◌};
ghost use Rattle.c_answers.specs.Uses.{pixel_to_c, range_to_c, list_to_c};

use crate::colors::LegendColor;
use banded_lists::ValueRange;
use c_types::answer;
use c_types::answer::LegendAnswer;
use refusal::Refusal;

// The whole range of a legend's values, 0 and 0 beside a refusal.
#[repr(C)]
#[derive(Clone, Copy)]
pub struct LegendValueRange {
    pub answer: LegendAnswer,
    pub start: f32,
    pub end: f32,
}

// A legend's 256 colours from its lowest to its highest value, all 0 beside a refusal.
#[repr(C)]
#[derive(Clone, Copy)]
pub struct LegendColorList {
    pub answer: LegendAnswer,
    pub colors: [u32; 256],
}

// A call's own arguments are refused by `first`, before anything else is.

#[tactic(auto, unfolding(crate::specs::Uses::pixel_to_c))]
pub fn pixel_to_c(first: Result<(), Refusal>, pixel: Result<u32, Refusal>) -> LegendColor
    ensures { result ≡ pixel_to_c first pixel }
{
    match first.and(pixel) {
        Ok(color) => LegendColor {
            answer: answer::to_c(Ok(())),
            color,
        },
        Err(why) => LegendColor {
            answer: answer::to_c(Err(why)),
            color: 0,
        },
    }
}

#[tactic(auto, unfolding(crate::specs::Uses::range_to_c))]
pub fn range_to_c(
    first: Result<(), Refusal>,
    range: Result<ValueRange, Refusal>,
) -> LegendValueRange
    ensures { result ≡ range_to_c first range }
{
    match first.and(range) {
        Ok(found) => LegendValueRange {
            answer: answer::to_c(Ok(())),
            start: found.start,
            end: found.end,
        },
        Err(why) => LegendValueRange {
            answer: answer::to_c(Err(why)),
            start: 0.0,
            end: 0.0,
        },
    }
}

#[tactic(auto, unfolding(crate::specs::Uses::list_to_c))]
pub fn list_to_c(first: Result<(), Refusal>, list: Result<[u32; 256], Refusal>) -> LegendColorList
    ensures { result ≡ list_to_c first list }
{
    match first.and(list) {
        Ok(colors) => LegendColorList {
            answer: answer::to_c(Ok(())),
            colors,
        },
        Err(why) => {
            let colors = [0u32; 256];
            LegendColorList {
                answer: answer::to_c(Err(why)),
                colors,
            }
        }
    }
}
