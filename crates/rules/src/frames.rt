// The rules of frames, one function a rule.
ghost use Rattle.std.specs.Prelude.{◌≡◌, true, ◌+◌, ◌*◌, ◌≤◌, ◌<◌, length, eqb};
ghost use Rattle.tables.specs.Base.{at, if};
ghost use Rattle.tables.specs.Rule.{same, below, non, ◌and◌, ◌then◌, each, named, test, Holds};
ghost use Rattle.model.specs.Sizes.{most_accounts};
ghost use Rattle.model.specs.State.{NONE, WRITING};
ghost use Rattle.model.specs.Rules.{fit};
ghost use Rattle.model.specs.Laws.Woven.{woven_page};
ghost use Rattle.leaves.specs.Packed.{unpacked};
ghost use Rattle.rules.specs.Passes.{switches, one_place, bare, active_page, held_page, frame_row, address_of, framed_page};
ghost use Rattle.rules.specs.Promises.{FramesGiven, frames_entered, FramesLeft};

use crate::clean::clean;
use crate::counts::live_one;
use crate::marks::mark_entry;
use leaves::packed::frame_at;
use model::frame::{Frame, NONE, READING, WRITING};
use model::lines::LIVE;
use model::sizes::Sizes;

// A frame's switches are 0 or 1, its transfer is one of three.
fn frame_fit(x: Frame) -> bool
    ensures { result ≡ test (switches x) }
{
    (x.used < 2) & (x.modified < 2) & (x.wired < 2) & (x.initial < 2) & (x.transfer < 3)
}

fn moving(transfer: u8) -> usize
    ensures { result ≡ if (eqb transfer NONE) 0 1 }
{
    usize::from(transfer != NONE)
}

// Each frame is in exactly one of free queue, removal list, wired, in transfer.
fn in_one_place(x: Frame, queued: u8, removing: u8) -> bool
    ensures { result ≡ test (one_place queued removing x) }
{
    queued as usize + removing as usize + x.wired as usize + moving(x.transfer) == 1
}

// A frame being written is modified.
fn writing_modified(x: Frame) -> bool
    ensures { result ≡ test (same x.transfer WRITING then same x.modified 1) }
{
    (x.transfer != WRITING) | (x.modified == 1)
}

// A free frame has no page and no switch on,
fn free_frame(x: Frame, queued: u8) -> bool
    ensures { result ≡ test (non (same queued 0) then bare x) }
{
    let bare = (x.page == 0)
        & (x.used == 0)
        & (x.modified == 0)
        & (x.wired == 0)
        & (x.initial == 0);
    (queued == 0) | bare
}

// any other has a page.
fn busy_frame(x: Frame, queued: u8) -> bool
    ensures { result ≡ test (same queued 0 then non (same x.page 0)) }
{
    (queued != 0) | (x.page != 0)
}

// An inactive slot has no frame.
fn frame_active(pages: usize, page: u16, active: &[u8]) -> bool
    requires { (0 < pages) × (page ≤ length active.now * pages) }
    ensures { result ≡ test (active_page pages (at active.now) page) }
{
    if page == 0 {
        return true;
    }
    let i = page as usize - 1;
    active[i / pages] == 1
}

// A page in a frame has an address (a reading one a live one).
fn framed_held(page: u16, transfer: u8, addresses: &[u16], states: &[u8]) -> bool
    requires { (page ≤ length addresses.now) × Holds (fit (length addresses.now) (length states.now) (at addresses.now)) }
    ensures { result ≡ test (held_page (at addresses.now) (at states.now) transfer page) }
{
    if page == 0 {
        return true;
    }
    let i = page as usize - 1;
    let a = addresses[i] as usize;
    if a == 0 {
        return false;
    }
    (transfer != READING) | (states[a - 1] == LIVE)
}

fn frame_ok(
    pages: usize,
    x: Frame,
    queued: u8,
    removing: u8,
    active: &[u8],
    addresses: &[u16],
    states: &[u8],
) -> bool
    requires { (0 < pages) × (x.page ≤ length active.now * pages) × (x.page ≤ length addresses.now) × Holds (fit (length addresses.now) (length states.now) (at addresses.now)) }
    ensures { result ≡ test (frame_row pages active.now addresses.now states.now queued removing x) }
{
    frame_fit(x)
        & in_one_place(x, queued, removing)
        & writing_modified(x)
        & free_frame(x, queued)
        & busy_frame(x, queued)
        & frame_active(pages, x.page, active)
        & framed_held(x.page, x.transfer, addresses, states)
}

// The entry of the page of a modified frame, or 0.
pub fn woven_page(x: Frame) -> u16
    ensures { result ≡ woven_page x }
{
    if x.modified == 1 {
        return x.page;
    }
    0
}

// The page of a modified frame counts as used by that where its address is not live: one more for its account.
pub fn charge(
    page: u16,
    pages: usize,
    totals: &mut [usize],
    accounts: &[u16],
    addresses: &[u16],
    states: &[u8],
)
    requires { (0 < pages) × (page ≤ length accounts.now * pages) × (page ≤ length addresses.now) × Holds (fit (length addresses.now) (length states.now) (at addresses.now)) × Holds (each (length accounts.now) (λ s. below (at accounts.now s) most_accounts)) × (length totals.old ≡ most_accounts) × Holds (each most_accounts (λ q. below (at totals.old q) 65536)) }
    ensures { Holds (each most_accounts (λ q. same (at totals.new q) (at totals.old q + if (test (framed_page pages q page (at accounts.now) (at addresses.now) (at states.now))) 1 0))) }
{
    if page == 0 {
        return;
    }
    let i = page as usize - 1;
    if live_one(addresses[i], states) == 0 {
        let q = accounts[i / pages] as usize;
        totals[q] += 1;
    }
}

// A frame's page is one of the pages.
fn page_fit(pages: usize, page: u16) -> bool
    ensures { result ≡ test (named page (λ i. below i pages)) }
{
    page as usize <= pages
}

// The address of a page, or 0 for none.
fn address_of(page: u16, addresses: &[u16]) -> u16
    requires { page ≤ length addresses.now }
    ensures { result ≡ address_of (at addresses.now) page }
{
    if page == 0 {
        return 0;
    }
    addresses[page as usize - 1]
}

// Every frame. The records of the pages in frames are marked, from marks that are off, so that none is in two; pages that count
// as used by their frames are counted.
pub fn frames_ok(
    z: Sizes,
    frames: &[u64],
    queued: [u8; Sizes::MOST_FRAMES],
    removing: [u8; Sizes::MOST_FRAMES],
    marks: &mut [u32],
    totals: &mut [usize],
    accounts: &[u16],
    active: &[u8],
    addresses: &[u16],
    states: &[u8],
    words: &[u32],
    records: &[u32],
) -> bool
    requires { FramesGiven z marks totals accounts active addresses states words records }
    ensures { (result ≡ test (frames_entered z (unpacked frames.now) queued removing active addresses states words records)) × (result ≡ true → FramesLeft z (unpacked frames.now) marks totals accounts addresses states) }
{
    let n = addresses.len();
    let most = states.len();
    for f in 0..z.frames {
        let x = frame_at(frames, f);
        if !page_fit(n, x.page) {
            return false;
        }
        if !mark_entry(address_of(x.page, addresses), most, marks) {
            return false;
        }
        if !(frame_ok(
            z.pages,
            x,
            queued[f],
            removing[f],
            active,
            addresses,
            states,
        ) & clean(z.words, x, f, words, records, addresses, states))
        {
            return false;
        }
        charge(woven_page(x), z.pages, totals, accounts, addresses, states);
    }
    true
}
