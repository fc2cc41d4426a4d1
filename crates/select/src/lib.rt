// A choice between two words without a branch, for the loops over lanes.
#![tactic(auto)]

ghost use Rattle.std.specs.Prelude.{◌≡◌, cond};

// The first word where the flag is set, else the second: a select, which the compiler vectorises.
pub fn pick(flag: bool, x: u32, y: u32) -> u32
    ensures { result ≡ cond flag x y }
{
    if flag { x } else { y }
}
