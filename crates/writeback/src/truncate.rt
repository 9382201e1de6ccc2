// Truncate: the pages of a slot from page k up become zeros.
ghost use Rattle.std.specs.Prelude.{false, ◌≡◌, ◌<◌, IfOk};
ghost use Rattle.tables.specs.Base.{if};
ghost use Rattle.tables.specs.Questions.{first_no};
ghost use Rattle.tables.specs.Rule.{test};
ghost use Rattle.model.specs.Laws.Own.{own};
ghost use Rattle.model.specs.Questions.{questions};
ghost use Rattle.model.specs.Refusals.{said, answered};
ghost use Rattle.leaves.specs.Packed.{unpacked, frames_in};
ghost use Rattle.writeback.specs.ByPage.{modified_entry, charged_entry};
ghost use Rattle.writeback.specs.Needs.{Sized, Queues, Placed, Addressed, Releasable, Paid};
ghost use Rattle.writeback.specs.Pages.{charges_from};
ghost use Rattle.writeback.specs.Seen.{truncate, entered_truncate, asked_truncate};
ghost use Rattle.writeback.specs.Truncate.{ask_frames, NoneCut, CutGiven, FramesGiven, FramesLeft, ClearedLeft, used_left};

use crate::by_page::by_page;
use crate::charges::uncharge;
use crate::cut_pages::cut_pages;
use leaves::asks::ask_slot;
use leaves::cells::at;
use leaves::packed::{frame_at, put_frame};
use leaves::queue::{push_back, remove};
use model::frame::{NONE, no_frame};
use model::lines::LIVE;
use model::refusals::Refusal;
use model::sizes::Sizes;

// Questions 14 and 16, of the frames of the slot's pages from k up. Whether any of these pages is in a frame.
fn ask_frames(
    count: usize,
    pages: usize,
    slot: usize,
    k: usize,
    frames: &[u64],
) -> Result<bool, Refusal>
    requires { CutGiven count pages slot k }
    ensures answer { said result ≡ first_no (ask_frames count pages slot k (unpacked frames.now)) }
    ensures any { IfOk result (λ any. any ≡ false → NoneCut count pages slot k (unpacked frames.now)) }
{
    let start = slot * pages;
    let mut any = false;
    let mut wired = false;
    for f in 0..count {
        let frame = frame_at(frames, f);
        let page = frame.page as usize;
        if page > start + k && page <= start + pages {
            if frame.transfer != NONE {
                return Err(Refusal::InTransfer);
            }
            any = true;
            wired |= frame.wired == 1;
        }
    }
    if wired {
        return Err(Refusal::Wired);
    }
    Ok(any)
}

// Whether an entry names a modified frame.
fn is_modified(entry: usize, frames: &[u64]) -> bool
    ensures { result ≡ test (modified_entry entry (unpacked frames.now)) }
{
    entry != 0 && frame_at(frames, entry - 1).modified == 1
}

// Whether the page is charged, by the entry of its frame.
fn is_charged(entry: usize, frames: &[u64], addresses: &[u16], states: &[u8], i: usize) -> bool
    ensures { result ≡ test (charged_entry entry (unpacked frames.now) addresses.now states.now i) }
{
    if is_modified(entry, frames) {
        return true;
    }
    let address = at(addresses, i);
    address != 0 && at(states, address as usize - 1) == LIVE
}

// The frames of the slot's pages from k up, if there are any, lose their page and switches.
fn clear_frames(any: bool, count: usize, pages: usize, slot: usize, k: usize, frames: &mut [u64])
    requires { CutGiven count pages slot k × («any» ≡ false → NoneCut count pages slot k (unpacked frames.old)) }
    ensures { ClearedLeft count pages slot k (unpacked frames.old) (unpacked frames.new) }
{
    if !any {
        return;
    }
    let start = slot * pages;
    for f in 0..count {
        let old = frame_at(frames, f);
        let page = old.page as usize;
        if page > start + k && page <= start + pages {
            put_frame(frames, f, no_frame());
        }
    }
}

// The frames of the slot's pages from k up, if there are any, join the free queue's end, in page order, and leave the removal list. How many of these pages are charged then.
fn free_frames(
    any: bool,
    sizes: Sizes,
    slot: usize,
    k: usize,
    frames: &[u64],
    addresses: &[u16],
    states: &[u8],
    free_queue: &mut [u16],
    removal_list: &mut [u16],
) -> usize
    requires { FramesGiven sizes.frames sizes.pages slot k (unpacked frames.now) free_queue.old removal_list.old × («any» ≡ false → NoneCut sizes.frames sizes.pages slot k (unpacked frames.now)) }
    ensures charges { result ≡ if any (charges_from sizes.frames sizes.pages slot k (unpacked frames.now) addresses.now states.now) 0 }
    ensures queues { FramesLeft sizes.frames sizes.pages slot k (unpacked frames.now) free_queue.old removal_list.old free_queue.new removal_list.new }
{
    if !any {
        return 0;
    }
    let pages = sizes.pages;
    let start = slot * pages;
    let mut entries: [u8; 256] = [0; 256];
    by_page(sizes.frames, pages, slot, frames, &mut entries);
    let mut n = 0;
    for p in k..pages {
        let entry = usize::from(entries[p]);
        if is_charged(entry, frames, addresses, states, start + p) {
            n += 1;
        }
        if entry != 0 {
            push_back(free_queue, entry - 1);
            remove(removal_list, entry - 1);
        }
    }
    n
}

// Questions 3, 4, 8, 14 and 16. Whether any of the pages that are cut off is in a frame.
fn ask_truncate(
    sizes: Sizes,
    slot: usize,
    k: usize,
    frames: &[u64],
    numbers: &[u32],
    active: &[u8],
) -> Result<bool, Refusal>
    requires { (sizes.frames < 65) × (sizes.pages < 257) × (sizes.slots < 65) }
    ensures answer { said result ≡ first_no (questions sizes (asked_truncate (frames_in sizes frames.now) numbers.now active.now) (truncate slot k)) }
    ensures any { IfOk result (λ any. any ≡ false → NoneCut sizes.frames sizes.pages slot k (unpacked frames.now)) }
{
    let in_range = (slot < sizes.slots) & (k <= sizes.pages);
    ask_slot(in_range, slot, numbers, active)?;
    ask_frames(sizes.frames, sizes.pages, slot, k, frames)
}

pub fn truncate(
    sizes: Sizes,
    slot: usize,
    k: usize,
    frames: &mut [u64],
    numbers: &[u32],
    accounts: &[u16],
    limits: &[u16],
    parents: &[u16],
    free_queue: &mut [u16],
    removal_list: &mut [u16],
    addresses: &mut [u16],
    states: &mut [u8],
    active: &[u8],
    used: &mut [u16],
) -> Result<u32, Refusal>
    requires { Sized sizes × Queues sizes.frames free_queue.old removal_list.old × Placed sizes.frames (frames_in sizes frames.old) free_queue.old removal_list.old
        × Addressed sizes addresses.old states.old × Releasable sizes addresses.old states.old
        × Paid sizes (frames_in sizes frames.old) accounts.now limits.now parents.now addresses.old states.old used.old }
    ensures answer { answered result ≡ (own sizes (entered_truncate (frames_in sizes frames.old) numbers.now accounts.now limits.now parents.now free_queue.old removal_list.old addresses.old states.old active.now used.old) (truncate slot k)).answer }
    ensures frames { frames_in sizes frames.new ≡ (own sizes (entered_truncate (frames_in sizes frames.old) numbers.now accounts.now limits.now parents.now free_queue.old removal_list.old addresses.old states.old active.now used.old) (truncate slot k)).left.memory.core.frames }
    ensures free_queue { free_queue.new ≡ (own sizes (entered_truncate (frames_in sizes frames.old) numbers.now accounts.now limits.now parents.now free_queue.old removal_list.old addresses.old states.old active.now used.old) (truncate slot k)).left.memory.core.free_queue }
    ensures removal_list { removal_list.new ≡ (own sizes (entered_truncate (frames_in sizes frames.old) numbers.now accounts.now limits.now parents.now free_queue.old removal_list.old addresses.old states.old active.now used.old) (truncate slot k)).left.memory.core.removal_list }
    ensures addresses { addresses.new ≡ (own sizes (entered_truncate (frames_in sizes frames.old) numbers.now accounts.now limits.now parents.now free_queue.old removal_list.old addresses.old states.old active.now used.old) (truncate slot k)).left.memory.held.addresses }
    ensures states { states.new ≡ (own sizes (entered_truncate (frames_in sizes frames.old) numbers.now accounts.now limits.now parents.now free_queue.old removal_list.old addresses.old states.old active.now used.old) (truncate slot k)).left.memory.held.states }
    ensures used { used.new ≡ used_left sizes (entered_truncate (frames_in sizes frames.old) numbers.now accounts.now limits.now parents.now free_queue.old removal_list.old addresses.old states.old active.now used.old) slot k }
{
    let any = ask_truncate(sizes, slot, k, frames, numbers, active)?;
    let charges = free_frames(
        any,
        sizes,
        slot,
        k,
        frames,
        addresses,
        states,
        free_queue,
        removal_list,
    );
    clear_frames(any, sizes.frames, sizes.pages, slot, k, frames);
    let live = cut_pages(sizes, slot, k, addresses, states);
    let n = if any { charges } else { live };
    uncharge(used, accounts, limits, parents, slot, n);
    Ok(0)
}
