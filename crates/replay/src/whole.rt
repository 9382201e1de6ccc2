// The whole fields of the input that have come, carried out one after the other, and their lines.
ghost use Rattle.std.specs.Prelude.{◌≡◌, ◌≤◌, false, ◌&&◌, length};
ghost use Rattle.fields.specs.Fields.{field_at};
ghost use Rattle.model.specs.Calls.{frames_of};
ghost use Rattle.model.specs.Lent.{all_of};
ghost use Rattle.replay.specs.Input.{is_whole, room};
ghost use Rattle.replay.specs.Output.{Ran};

use crate::input::step_at;
use crate::machine::carry;
use model::applied::Pooled;

// Up to the place where the next field starts: so many bytes of lines, n events done, and what they left.
#[derive(Drop)]
pub struct Done {
    pub place: usize,
    pub size: usize,
    pub n: u64,
    pub held: Pooled,
}

// From a place on, as long as there are whole fields and their lines have room.
pub fn whole_fields(
    input: &[u8],
    from: usize,
    out: &mut [u8],
    count: u64,
    before: Pooled,
    records: &mut [u32; 8],
    numbers: &mut [u32; 2],
    accounts: &mut [u16; 2],
    maps: &mut [u16; 6],
    limits: &mut [u16; 1],
    parents: &[u16; 1],
    highest: &mut [u32; 1],
    frame_words: &mut [u32; 4],
    free_queue: &mut [u16; 2],
    removal_list: &mut [u16; 2],
    addresses: &mut [u16; 6],
    states: &mut [u8; 4],
    owners: &mut [u8; 4],
    free_map: &mut [u32; 1],
    active: &mut [u8; 2],
    updating: &mut [u8; 2],
    images: &mut [u16; 6],
    chip_words: &mut [u32; 4],
    chip_records: &mut [u16; 2],
    chip_next: &mut [u16; 1],
    line: &mut [u16; 32],
    used: &mut [u16; 1],
) -> Done
    requires { 4096 ≤ length out.old }
    ensures n_value { is_whole (field_at input.now result.place) && room result.size result.n ≡ false }
    ensures ran { Ran input.now out.old out.new from count
        (all_of (frames_of before.frames 2) before.pool records.old numbers.old accounts.old maps.old limits.old parents.now highest.old frame_words.old free_queue.old removal_list.old addresses.old states.old owners.old free_map.old active.old updating.old images.old chip_words.old chip_records.old chip_next.old line.old used.old)
        result.place result.size result.n
        (all_of (frames_of result.held.frames 2) result.held.pool records.new numbers.new accounts.new maps.new limits.new parents.now highest.new frame_words.new free_queue.new removal_list.new addresses.new states.new owners.new free_map.new active.new updating.new images.new chip_words.new chip_records.new chip_next.new line.new used.new) }
{
    let mut held = before;
    let mut place = from;
    let mut size = 0;
    let mut n = count;
    while let Ok(step) = step_at(input, place, size, n) {
        n += 1;
        let asked = step.asked;
        held = carry(
            asked,
            held,
            records,
            numbers,
            accounts,
            maps,
            limits,
            parents,
            highest,
            frame_words,
            free_queue,
            removal_list,
            addresses,
            states,
            owners,
            free_map,
            active,
            updating,
            images,
            chip_words,
            chip_records,
            chip_next,
            line,
            used,
        );
        let answer = held.answer;
        size = lines::event(out, size, n, asked.kind, answer.refusal, answer.result);
        place = step.next;
    }
    Done {
        place,
        size,
        n,
        held,
    }
}
