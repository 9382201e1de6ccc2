// Claim: the removal list is looked through for a frame to free or to write.
ghost use Rattle.std.specs.Prelude.{◌≡◌, false, not, ◌⊎◌, ◌+◌, ◌-◌, ◌*◌, ◌<◌, ◌≤◌, pred, eqb, length, set};
ghost use Rattle.tables.specs.Base.{at, all, if};
ghost use Rattle.leaves.specs.Packed.{frames_in};
ghost use Rattle.leaves.specs.Payers.{who_pays};
ghost use Rattle.model.specs.Lines.{NULLED, LIVE};
ghost use Rattle.model.specs.Writeback.{warm};
ghost use Rattle.model.specs.Laws.Own.{own};
ghost use Rattle.model.specs.Laws.Nulled.{nulled_by};
ghost use Rattle.writeback.specs.Claim.{used_left, LooksGiven, LooksLeft};
ghost use Rattle.writeback.specs.Needs.{Queues, Claimable};
ghost use Rattle.writeback.specs.Seen.{claim, entered_claim};

use crate::charges::uncharge;
use crate::names::{named, record_of};
use crate::switches::{cool, writing};
use leaves::cells::at;
use leaves::packed::{frame_at, put_frame};
use leaves::queue::{first, pop, push_back, rotate};
use leaves::states::move_record;
use leaves::words::all_zero;
use model::event::Answer;
use model::frame::{Frame, no_frame};
use model::lines::{LIVE, NULLED};
use model::refusals::Refusal;
use model::sizes::Sizes;

// What a claim hands back. nulled: the record of the modified page of zeros that it took + 1, or 0 for none.
#[derive(Drop)]
pub struct ClaimDone {
    pub nulled: u32,
    pub answer: Answer,
}

// A frame is taken, after so many looks.
fn claimed(nulled: u32, looks: u32) -> ClaimDone
    ensures { result ≡ record { nulled = nulled; answer = record { refusal = 0; result = looks } } }
{
    ClaimDone {
        nulled,
        answer: Answer {
            refusal: 0,
            result: looks,
        },
    }
}

// Whether initial or used is on.
fn is_warm(frame: Frame) -> bool
    ensures { result ≡ warm frame }
{
    frame.initial == 1 || frame.used == 1
}

// The first entry goes to the list's end, cooled, while it is warm; then it is the one to take.
fn turn(frames: &mut [u64], list: &mut [u16]) -> u32
    requires { LooksGiven list.old }
    ensures { LooksLeft frames.old list.old frames.new list.new result }
{
    let mut looks = 1;
    let mut f = first(list);
    let mut g = frame_at(frames, f);
    // How many turns it takes shows only as they are made.
    while is_warm(g) {
        put_frame(frames, f, cool(g));
        rotate(list);
        f = first(list);
        g = frame_at(frames, f);
        looks += 1;
    }
    looks
}

// Whether the frame is to be written: modified, and not all its words 0.
fn begins(size: usize, modified: u8, words: &[u32], f: usize) -> bool
    requires { f * size + size ≤ length words.now }
    ensures { result ≡ if (eqb modified 1) (not (all size (λ w. eqb (at words.now (f * size + w)) 0))) false }
{
    modified == 1 && !all_zero(words, size, f)
}

// A live record becomes nulled where the frame was modified.
fn make_nulled(states: &mut [u8], r: usize, modified: u8)
    requires { (at states.old r ≡ NULLED) ⊎ (at states.old r ≡ LIVE) }
    ensures { states.new ≡ if (eqb modified 1) (set states.old r NULLED) states.old }
{
    if modified == 1 && at(states, r) == LIVE {
        move_record(states, r, NULLED);
    }
}

// The entry of the page's record where the frame was modified, or 0.
fn entry_nulled(addresses: &[u16], page: u16, modified: u8) -> u32
    ensures { result ≡ if (eqb modified 1) (at addresses.now (pred page)) 0 }
{
    if modified == 1 {
        u32::from(at(addresses, named(page)))
    } else {
        0
    }
}

// One charge less for who pays for the slot where the frame was modified.
fn uncharge_modified(
    used: &mut [u16],
    modified: u8,
    accounts: &[u16],
    limits: &[u16],
    parents: &[u16],
    slot: usize,
)
    requires { modified ≡ 1 → 0 < at used.old (who_pays accounts.now limits.now parents.now slot) }
    ensures { used.new ≡ if (eqb modified 1) (set used.old (who_pays accounts.now limits.now parents.now slot) (at used.old (who_pays accounts.now limits.now parents.now slot) - 1)) used.old }
{
    if modified == 1 {
        uncharge(used, accounts, limits, parents, slot, 1);
    }
}

pub fn claim(
    sizes: Sizes,
    frames: &mut [u64],
    accounts: &[u16],
    limits: &[u16],
    parents: &[u16],
    words: &[u32],
    free_queue: &mut [u16],
    removal_list: &mut [u16],
    addresses: &[u16],
    states: &mut [u8],
    used: &mut [u16],
) -> ClaimDone
    requires { Queues sizes.frames free_queue.old removal_list.old
        × Claimable sizes (frames_in sizes frames.old) accounts.now limits.now parents.now words.now free_queue.old removal_list.old addresses.now states.old used.old }
    ensures nulled { result.nulled ≡ nulled_by sizes (entered_claim (frames_in sizes frames.old) accounts.now limits.now parents.now words.now free_queue.old removal_list.old addresses.now states.old used.old) claim }
    ensures answer { result.answer ≡ (own sizes (entered_claim (frames_in sizes frames.old) accounts.now limits.now parents.now words.now free_queue.old removal_list.old addresses.now states.old used.old) claim).answer }
    ensures frames { frames_in sizes frames.new ≡ (own sizes (entered_claim (frames_in sizes frames.old) accounts.now limits.now parents.now words.now free_queue.old removal_list.old addresses.now states.old used.old) claim).left.memory.core.frames }
    ensures free_queue { free_queue.new ≡ (own sizes (entered_claim (frames_in sizes frames.old) accounts.now limits.now parents.now words.now free_queue.old removal_list.old addresses.now states.old used.old) claim).left.memory.core.free_queue }
    ensures removal_list { removal_list.new ≡ (own sizes (entered_claim (frames_in sizes frames.old) accounts.now limits.now parents.now words.now free_queue.old removal_list.old addresses.now states.old used.old) claim).left.memory.core.removal_list }
    ensures states { states.new ≡ (own sizes (entered_claim (frames_in sizes frames.old) accounts.now limits.now parents.now words.now free_queue.old removal_list.old addresses.now states.old used.old) claim).left.memory.held.states }
    ensures used { used.new ≡ used_left sizes (entered_claim (frames_in sizes frames.old) accounts.now limits.now parents.now words.now free_queue.old removal_list.old addresses.now states.old used.old) }
{
    if at(removal_list, 0) == 0 {
        return ClaimDone {
            nulled: 0,
            answer: Answer::from(Refusal::NothingToClaim),
        };
    }
    let looks = turn(frames, removal_list);
    let f = first(removal_list);
    pop(removal_list);
    let old = frame_at(frames, f);
    if begins(sizes.words, old.modified, words, f) {
        put_frame(frames, f, writing(old));
        return claimed(0, looks);
    }
    let r = record_of(addresses, old.page);
    let nulled = entry_nulled(addresses, old.page, old.modified);
    make_nulled(states, r, old.modified);
    uncharge_modified(
        used,
        old.modified,
        accounts,
        limits,
        parents,
        named(old.page) / sizes.pages,
    );
    push_back(free_queue, f);
    put_frame(frames, f, no_frame());
    claimed(nulled, looks)
}
