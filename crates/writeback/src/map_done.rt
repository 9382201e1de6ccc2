// Map done: an update of a slot's map has ended, good or failed.
ghost use Rattle.std.specs.Prelude.{◌≡◌};
ghost use Rattle.tables.specs.Base.{at};
ghost use Rattle.tables.specs.Questions.{first_no};
ghost use Rattle.model.specs.declared.frame.Pool.{Pool};
ghost use Rattle.model.specs.State.{free_count};
ghost use Rattle.model.specs.Pool.{deposited};
ghost use Rattle.model.specs.Questions.{questions};
ghost use Rattle.model.specs.Refusals.{said, refused};
ghost use Rattle.model.specs.Laws.Own.{own};
ghost use Rattle.model.specs.Lent.{no_pool};
ghost use Rattle.writeback.specs.Needs.{Mapped};
ghost use Rattle.writeback.specs.Seen.{map_done, entered_map_done, asked_map_done};

use leaves::cells::{at, put};
use leaves::records::free_leaving;
use leaves::slots::{clear_slot, copy_slot};
use leaves::states::move_all;
use model::event::Answer;
use model::lines::{LEAVING, RELEASED};
use model::refusals::Refusal;
use model::sizes::Sizes;

// What the work of map done hands back by value: how many records are free more, and the answer.
#[derive(Drop)]
pub struct Freed {
    pub deposited: u32,
    pub answer: Answer,
}

// A refused one frees nothing.
impl From<Refusal> for Freed {
    ghost from_gives = { λ no freed. freed ≡ record { deposited = 0; answer = refused no } };

    fn from(no: Refusal) -> Freed {
        Freed {
            deposited: 0,
            answer: Answer::from(no),
        }
    }
}

// Questions 3, 4, 8 and 22.
fn ask_map_done(
    sizes: Sizes,
    slot: usize,
    good: usize,
    numbers: &[u32],
    active: &[u8],
    updating: &[u8],
) -> Result<(), Refusal>
    ensures { said result ≡ first_no (questions sizes (asked_map_done numbers.now active.now updating.now) (map_done slot good)) }
{
    if slot >= sizes.slots || good > 1 {
        return Err(Refusal::NoRange);
    }
    if at(numbers, slot) == 0 {
        return Err(Refusal::NoDesign);
    }
    if at(active, slot) != 1 {
        return Err(Refusal::NotActive);
    }
    if at(updating, slot) != 1 {
        return Err(Refusal::NoTransfer);
    }
    Ok(())
}

pub fn map_done(
    sizes: Sizes,
    slot: usize,
    good: usize,
    numbers: &[u32],
    maps: &mut [u16],
    states: &mut [u8],
    owners: &mut [u8],
    free_map: &mut [u32],
    active: &[u8],
    updating: &mut [u8],
    images: &mut [u16],
) -> Freed
    requires { Mapped sizes maps.old states.old owners.old free_map.old images.old }
    ensures answer { result.answer ≡ (own sizes (entered_map_done no_pool numbers.now maps.old states.old owners.old free_map.old active.now updating.old images.old) (map_done slot good)).answer }
    ensures pool { (pool : Pool) → pool.free ≡ free_count sizes (at states.old)
        → deposited result.deposited pool ≡ (own sizes (entered_map_done pool numbers.now maps.old states.old owners.old free_map.old active.now updating.old images.old) (map_done slot good)).left.memory.held.pool }
    ensures maps { maps.new ≡ (own sizes (entered_map_done no_pool numbers.now maps.old states.old owners.old free_map.old active.now updating.old images.old) (map_done slot good)).left.disk.maps }
    ensures states { states.new ≡ (own sizes (entered_map_done no_pool numbers.now maps.old states.old owners.old free_map.old active.now updating.old images.old) (map_done slot good)).left.memory.held.states }
    ensures owners { owners.new ≡ (own sizes (entered_map_done no_pool numbers.now maps.old states.old owners.old free_map.old active.now updating.old images.old) (map_done slot good)).left.memory.held.owners }
    ensures free_map { free_map.new ≡ (own sizes (entered_map_done no_pool numbers.now maps.old states.old owners.old free_map.old active.now updating.old images.old) (map_done slot good)).left.memory.held.free_map }
    ensures updating { updating.new ≡ (own sizes (entered_map_done no_pool numbers.now maps.old states.old owners.old free_map.old active.now updating.old images.old) (map_done slot good)).left.memory.slots.updating }
    ensures images { images.new ≡ (own sizes (entered_map_done no_pool numbers.now maps.old states.old owners.old free_map.old active.now updating.old images.old) (map_done slot good)).left.memory.slots.images }
{
    if let Err(no) = ask_map_done(sizes, slot, good, numbers, active, updating) {
        return Freed::from(no);
    }
    put(updating, slot, 0);
    if good == 1 {
        copy_slot(images, maps, sizes.pages, slot);
        clear_slot(images, sizes.pages, slot);
        let count = free_leaving(sizes, states, owners, free_map, slot);
        return done(count);
    }
    clear_slot(images, sizes.pages, slot);
    move_all(states, owners, slot, LEAVING, RELEASED);
    done(0)
}

// It is carried out.
fn done(deposited: u32) -> Freed
    ensures { result ≡ record { deposited = deposited; answer = record { refusal = 0; result = 0 } } }
{
    Freed {
        deposited,
        answer: Answer {
            refusal: 0,
            result: 0,
        },
    }
}
