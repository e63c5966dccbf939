// How wide a field is.
ghost use Rattle.std.specs.Prelude.{◌≡◌};
ghost use Rattle.fields.specs.Widths.{full};

use crate::FIELDS;

// The width of each field in bits, by its number.
const WIDTHS: [u8; FIELDS] = [16, 8, 16, 16, 8, 8, 32, 32, 16, 16, 8, 8, 8, 8];

// The greatest number of a field's width; 0 above the last field.
#[tactic(auto, unfolding(crate::specs::Widths::width, crate::specs::Widths::full))]
pub fn full_of(number: u32) -> u32
    ensures { result ≡ full number }
{
    let Some(width) = WIDTHS.get(number as usize) else {
        return 0;
    };
    ((1u64 << *width) - 1) as u32
}
