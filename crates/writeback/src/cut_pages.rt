// The pages of a slot from page k up lose their records.
ghost use Rattle.std.specs.Prelude.{◌≡◌, suc, ◌/◌, ◌%◌};
ghost use Rattle.tables.specs.Base.{at};
ghost use Rattle.tables.specs.Rule.{same, below, non, some, ◌and◌};
ghost use Rattle.tables.specs.Store.{store};
ghost use Rattle.model.specs.Lines.{RELEASED};
ghost use Rattle.model.specs.State.{all_pages};
ghost use Rattle.model.specs.Parts.{from_page};
ghost use Rattle.writeback.specs.Pages.{live_from};
ghost use Rattle.writeback.specs.Truncate.{Releasing};

use leaves::cells::at;
use leaves::states::move_record;
use model::lines::{LIVE, RELEASED};
use model::sizes::Sizes;

// Each address goes, and its record is released. How many of these pages had a live address.
pub fn cut_pages(
    sizes: Sizes,
    slot: usize,
    k: usize,
    addresses: &mut [u16],
    states: &mut [u8],
) -> usize
    requires { Releasing sizes slot k states.old addresses.old }
    ensures live { result ≡ live_from sizes.pages slot k addresses.old states.old }
    ensures states { states.new ≡ store states.old (λ r. some (all_pages sizes) λ i. from_page sizes slot k i and same (at addresses.old i) (suc r)) (λ r. RELEASED) }
    ensures addresses { addresses.new ≡ store addresses.old (λ i. same (i / sizes.pages) slot and non (below (i % sizes.pages) k)) (λ i. 0) }
{
    let pages = sizes.pages;
    let start = slot * pages;
    let mut n = 0;
    for i in start + k..start + pages {
        let address = addresses[i];
        if address != 0 {
            let r = address as usize - 1;
            if at(states, r) == LIVE {
                n += 1;
            }
            move_record(states, r, RELEASED);
            addresses[i] = 0;
        }
    }
    n
}
