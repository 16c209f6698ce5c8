// The figures that bound everything, and the refusal of one outside its range.
//
// Each limit is the largest number allowed. This crate promises only the refusal's number, and uses no other crate.
#![tactic(auto)]

ghost use Rattle.std.specs.Prelude.{◌≡◌};
ghost use Rattle.figures.specs.Limits.{out_of_range_number};

// The largest value of a walk that a table holds, and the largest key of a queue.
pub const VALUE_LIMIT: u32 = 16_777_215;
// The largest cost of a leg and the largest bound of a hall.
pub const COST_LIMIT: u32 = 4_095;
// The longest dwell of a running time.
pub const DWELL_LIMIT: u32 = 1_000_000;
// The most cells that a queue works in.
pub const CELL_LIMIT: usize = 1_600;
// The most slots of a ring.
pub const SLOT_LIMIT: usize = 4_096;
// The widest compartment of a wheel.
pub const WIDTH_LIMIT: u32 = 4_096;

// A size, width, dwell or band outside its figures.
#[derive(Clone, Copy, PartialEq, Eq, Debug)]
pub struct OutOfRange;

// The refusal's number.
impl From<OutOfRange> for u32 {
    ghost from_gives = { λ _ n. n ≡ out_of_range_number };

    fn from(_refusal: OutOfRange) -> u32 {
        9
    }
}
