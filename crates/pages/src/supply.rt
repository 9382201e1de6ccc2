// What a fault asks and takes: a record, a frame.
ghost use Rattle.std.specs.Prelude.{◌≡◌, true, suc, ◌*◌, ◌<◌, eqb, ltb, length, set};
ghost use Rattle.tables.specs.Base.{if, at};
ghost use Rattle.tables.specs.Queue.{size, queue, push_front};
ghost use Rattle.tables.specs.Questions.{first_no};
ghost use Rattle.tables.specs.Rule.{Holds};
ghost use Rattle.model.specs.Lines.{NULLED};
ghost use Rattle.model.specs.Parts.{set_part};
ghost use Rattle.model.specs.Pages.{awaiting, fresh};
ghost use Rattle.model.specs.Laws.Fit.{Within};
ghost use Rattle.model.specs.Refusals.{said};
ghost use Rattle.leaves.specs.Packed.{unpacked, frames_given, frames_entered};
ghost use Rattle.pages.specs.Needs.{Seats, Pooled};
ghost use Rattle.pages.specs.declared.supply.Way.{Way};
ghost use Rattle.pages.specs.Faults.{way_of, numbered, is_new, is_live_way, away_asked, supply_asked, cleared, chosen};

use leaves::cells::{at, put};
use leaves::marks::clear_mark;
use leaves::near::pick;
use leaves::packed::{frame_at, frame_of, put_frame};
use leaves::queue::push_front;
use leaves::states::move_record;
use leaves::words::clear_part;
use model::frame::{Frame, NONE, Pool, READING};
use model::lines::{LIVE, NULLED};
use model::refusals::Refusal;
use model::sizes::Sizes;

// What a fault finds of its page, and so what it does: see hold and serve.
#[derive(Clone, Copy)]
pub enum Way {
    // the page has no address
    New,
    // its address is not live
    Held,
    // its address is live
    Live,
}

// What says which way: the way itself, or its number, of which 0 is new, 2 live and any other held.
pub trait SaysWay: Copy {
    ghost says: { Self → Way };

    fn way(self) -> Way
        ensures { result ≡ says self };
}

impl SaysWay for Way {
    ghost says = { λ way. way };

    fn way(self) -> Way {
        self
    }
}

impl SaysWay for u8 {
    ghost says = { numbered };

    fn way(self) -> Way {
        match self {
            0 => Way::New,
            2 => Way::Live,
            _ => Way::Held,
        }
    }
}

pub fn way_of(page: usize, addresses: &[u16], states: &[u8]) -> Way
    ensures { result ≡ way_of addresses.now states.now page }
{
    let address = at(addresses, page);
    if address == 0 {
        return Way::New;
    }
    if at(states, address as usize - 1) == LIVE {
        return Way::Live;
    }
    Way::Held
}

// Questions 14 and 15.
pub fn ask_away(sizes: Sizes, frames: &[u64], page: usize) -> Result<(), Refusal>
    requires { Seats sizes (frames_given sizes frames) × (page < 65535) }
    ensures { said result ≡ first_no (away_asked sizes (frames_entered sizes frames) page) }
{
    let f = frame_of(frames, sizes.frames, page);
    if f >= sizes.frames {
        return Ok(());
    }
    let frame = frame_at(frames, f);
    if frame.transfer != NONE {
        return Err(Refusal::InTransfer);
    }
    Err(Refusal::PageIn)
}

// A record free, where there is no address.
fn supplied(address: u16, free: u32) -> bool
    ensures { result ≡ if (eqb address 0) (ltb 0 free) true }
{
    address != 0 || 0 < free
}

// Questions 19 and 20.
pub fn ask_supply(
    page: usize,
    free: u32,
    addresses: &[u16],
    free_queue: &[u16],
) -> Result<(), Refusal>
    ensures { said result ≡ first_no (supply_asked page addresses.now free free_queue.now) }
{
    let address = at(addresses, page);
    if !supplied(address, free) {
        return Err(Refusal::NoRecord);
    }
    if at(free_queue, 0) == 0 {
        return Err(Refusal::NoFrame);
    }
    Ok(())
}

// A page with no address takes a free record, near its neighbour's or by the hand. The result is that record + 1, or 0 where none is taken.
pub fn hold<W: SaysWay>(
    way: W,
    sizes: Sizes,
    slot: usize,
    page: usize,
    pool: Pool,
    addresses: &mut [u16],
    states: &mut [u8],
    owners: &mut [u8],
    free_map: &mut [u32],
) -> u32
    requires { Within sizes × (slot < 256) × (page < 65535) × Pooled sizes pool states.old free_map.old × ((is_new (W.says way) ≡ true) → 0 < pool.free) }
    ensures taken { result ≡ if (is_new (W.says way)) (suc (chosen sizes pool addresses.old states.old page)) 0 }
    ensures addresses { addresses.new ≡ if (is_new (W.says way)) (set addresses.old page (suc (chosen sizes pool addresses.old states.old page))) addresses.old }
    ensures states { states.new ≡ if (is_new (W.says way)) (set states.old (chosen sizes pool addresses.old states.old page) NULLED) states.old }
    ensures owners { owners.new ≡ if (is_new (W.says way)) (set owners.old (chosen sizes pool addresses.old states.old page) slot) owners.old }
    ensures map { free_map.new ≡ if (is_new (W.says way)) (cleared free_map.old (chosen sizes pool addresses.old states.old page)) free_map.old }
{
    let Way::New = way.way() else {
        return 0;
    };
    let record = pick(sizes, addresses, free_map, pool.hand as usize, page);
    let taken = record + 1;
    put(addresses, page, taken as u16);
    move_record(states, record, NULLED);
    put(owners, record, slot as u8);
    clear_mark(free_map, record);
    taken as u32
}

// A read begins for a live address; otherwise the frame is zeroed and stands at the removal list's front.
pub fn serve<W: SaysWay>(
    way: W,
    sizes: Sizes,
    page: usize,
    frame: usize,
    frames: &mut [u64],
    words: &mut [u32],
    removal_list: &mut [u16],
)
    requires { Within sizes × (page < 65535) × (frame < sizes.frames) × (length words.old ≡ sizes.frames * sizes.words) × Holds (queue (length removal_list.old) removal_list.old) × (size removal_list.old < length removal_list.old) }
    ensures frames { unpacked frames.new ≡ set (unpacked frames.old) frame (if (is_live_way (W.says way)) (awaiting page) (fresh page)) }
    ensures words { words.new ≡ if (is_live_way (W.says way)) words.old (set_part sizes frame (λ w. 0) words.old) }
    ensures list { removal_list.new ≡ if (is_live_way (W.says way)) removal_list.old (push_front removal_list.old frame) }
{
    let mut taken = Frame {
        page: (page + 1) as u16,
        used: 0,
        modified: 0,
        wired: 0,
        initial: 0,
        transfer: READING,
    };
    if let Way::Live = way.way() {
        put_frame(frames, frame, taken);
        return;
    }
    clear_part(words, sizes.words, frame);
    push_front(removal_list, frame);
    taken.initial = 1;
    taken.transfer = NONE;
    put_frame(frames, frame, taken)
}
