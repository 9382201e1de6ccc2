// The highest number of a restart: raised to the numbers in the slots, as on older packs.
ghost use Rattle.std.specs.Prelude.{◌≡◌};
ghost use Rattle.model.specs.Restart.{highest_of, raised};
ghost use Rattle.restarts.specs.Numbers.{numbered};

use leaves::cells::at;
use leaves::numbers::{HIGH, store_highest};
use model::sizes::Sizes;

// The highest of itself and of the slots' numbers that are still given.
fn highest_of(slots: usize, numbers: &[u32], highest: &[u32]) -> u32
    ensures { result ≡ highest_of (numbered numbers.now highest.now) slots }
{
    let mut top = at(highest, 0);
    for s in 0..slots {
        let number = at(numbers, s);
        if number < HIGH {
            top = top.max(number);
        }
    }
    top
}

// One store, a restart's own.
pub fn raise_highest(sizes: Sizes, numbers: &[u32], highest: &mut [u32])
    ensures { highest.new ≡ (raised sizes (numbered numbers.now highest.old)).highest }
{
    let top = highest_of(sizes.slots, numbers, highest);
    store_highest(highest, top);
}
