// Update: a slot's map image is made, and the records that its design gives up leave.
ghost use Rattle.std.specs.Prelude.{◌≡◌, ◌+◌, ◌*◌, ◌/◌, ◌<◌, ◌≤◌, length};
ghost use Rattle.tables.specs.Base.{at};
ghost use Rattle.tables.specs.Questions.{first_no};
ghost use Rattle.tables.specs.Rule.{Holds, same};
ghost use Rattle.tables.specs.Store.{store, Split};
ghost use Rattle.model.specs.Laws.Own.{own};
ghost use Rattle.model.specs.Questions.{questions};
ghost use Rattle.model.specs.Refusals.{said, answered};
ghost use Rattle.model.specs.State.{all_pages};
ghost use Rattle.leaves.specs.Addresses.{live_address};
ghost use Rattle.leaves.specs.Packed.{unpacked, frames_in};
ghost use Rattle.writeback.specs.Needs.{Sized, Addressed};
ghost use Rattle.writeback.specs.Seen.{update, entered_update, asked_update};
ghost use Rattle.writeback.specs.Update.{leaving, PagesGiven, PagesLeft};

use leaves::addresses::live_address;
use leaves::asks::ask_idle;
use leaves::cells::{at, put};
use leaves::packed::frame_of;
use leaves::states::{move_all, move_record};
use model::lines::{LEAVING, NULLED, RELEASED};
use model::refusals::Refusal;
use model::sizes::Sizes;

// Questions 3, 4, 8 and 10.
fn ask_update(
    sizes: Sizes,
    slot: usize,
    numbers: &[u32],
    active: &[u8],
    updating: &[u8],
) -> Result<(), Refusal>
    ensures { said result ≡ first_no (questions sizes (asked_update numbers.now active.now updating.now) (update slot)) }
{
    ask_idle(slot < sizes.slots, slot, numbers, active, updating)
}

// The image lists the slot's live addresses, others 0.
fn fill_image(pages: usize, slot: usize, addresses: &[u16], states: &[u8], images: &mut [u16])
    requires { (0 < pages) × (slot * pages + pages ≤ length images.old) }
    ensures { images.new ≡ store images.old (λ i. same (i / pages) slot) (live_address addresses.now states.now) }
{
    let start = slot * pages;
    for i in start..start + pages {
        images[i] = live_address(addresses, states, i);
    }
}

// A page's address where its record is nulled and it is in no frame, else 0.
fn leaving_of(count: usize, frames: &[u64], addresses: &[u16], states: &[u8], i: usize) -> u16
    requires { (count < 65) × (i < 65535) }
    ensures { Split (Holds (leaving count (unpacked frames.now) addresses.now states.now i)) result (at addresses.now i) 0 }
{
    let address = at(addresses, i);
    if address == 0 {
        return 0;
    }
    if at(states, address as usize - 1) != NULLED {
        return 0;
    }
    if frame_of(frames, count, i) < count {
        return 0;
    }
    address
}

// These pages of the slot lose their address, and their records leave.
fn leave_pages(sizes: Sizes, slot: usize, frames: &[u64], addresses: &mut [u16], states: &mut [u8])
    requires { PagesGiven sizes slot addresses.old states.old }
    ensures { PagesLeft sizes slot (unpacked frames.now) addresses.old states.old addresses.new states.new }
{
    let pages = sizes.pages;
    let start = slot * pages;
    for i in start..start + pages {
        let address = leaving_of(sizes.frames, frames, addresses, states, i);
        if address != 0 {
            move_record(states, address as usize - 1, LEAVING);
            addresses[i] = 0;
        }
    }
}

pub fn update(
    sizes: Sizes,
    slot: usize,
    frames: &[u64],
    numbers: &[u32],
    addresses: &mut [u16],
    states: &mut [u8],
    owners: &[u8],
    active: &[u8],
    updating: &mut [u8],
    images: &mut [u16],
) -> Result<u32, Refusal>
    requires { Sized sizes × Addressed sizes addresses.old states.old × (length owners.now ≡ length states.old) × (length images.old ≡ all_pages sizes) }
    ensures answer { answered result ≡ (own sizes (entered_update (frames_in sizes frames.now) numbers.now addresses.old states.old owners.now active.now updating.old images.old) (update slot)).answer }
    ensures addresses { addresses.new ≡ (own sizes (entered_update (frames_in sizes frames.now) numbers.now addresses.old states.old owners.now active.now updating.old images.old) (update slot)).left.memory.held.addresses }
    ensures states { states.new ≡ (own sizes (entered_update (frames_in sizes frames.now) numbers.now addresses.old states.old owners.now active.now updating.old images.old) (update slot)).left.memory.held.states }
    ensures updating { updating.new ≡ (own sizes (entered_update (frames_in sizes frames.now) numbers.now addresses.old states.old owners.now active.now updating.old images.old) (update slot)).left.memory.slots.updating }
    ensures images { images.new ≡ (own sizes (entered_update (frames_in sizes frames.now) numbers.now addresses.old states.old owners.now active.now updating.old images.old) (update slot)).left.memory.slots.images }
{
    ask_update(sizes, slot, numbers, active, updating)?;
    put(updating, slot, 1);
    fill_image(sizes.pages, slot, addresses, states, images);
    leave_pages(sizes, slot, frames, addresses, states);
    move_all(states, owners, slot, RELEASED, LEAVING);
    Ok(0)
}
