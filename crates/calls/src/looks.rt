// A page look in both its forms: as numbers, for a caller that cannot be handed a reference, and as a part of the lent words.
ghost use Rattle.std.specs.Prelude.{◌≡◌, ◌+◌, ◌≤◌, length};
ghost use Rattle.model.specs.Lent.{all_of, all_read};
ghost use Rattle.model.specs.Calls.{frames_of};
ghost use Rattle.model.specs.Step.{look};
ghost use Rattle.model.specs.Part.{part_of, word_at};

use crate::common::common;
use crate::packing::pack_all;
use model::applied::Part;
use model::frame::{Frame, Pool};
use model::lent::{DiskTables, MemoryTables};
use model::sizes::Sizes;
use pages::look::place;

// Where the part starts and how many words it has: within the lent words.
pub fn place_core(
    sizes: Sizes,
    slot: usize,
    page: usize,
    lent: usize,
    frames: [Frame; 64],
    pool: Pool,
    disk: DiskTables<'_>,
    memory: MemoryTables<'_>,
) -> Part
    ensures { (result ≡ part_of sizes (all_read (frames_of frames lent) pool disk.entry memory.entry) slot page)
        × (result.start + result.count ≤ length memory.entry.frame_words.now) }
{
    let packed = pack_all(frames);
    if let Err(no) = common(sizes, lent, &packed, pool, disk, memory) {
        return Part {
            refusal: no.number(),
            start: 0,
            count: 0,
        };
    }
    place(sizes, slot, page, &packed, disk.numbers, memory.active)
}

// The frame's own part of the lent words; refused, an empty part.
pub fn look_core<'a>(
    sizes: Sizes,
    slot: usize,
    page: usize,
    lent: usize,
    frames: [Frame; 64],
    pool: Pool,
    refusal: &mut u32,
    records: &[u32],
    numbers: &[u32],
    accounts: &[u16],
    maps: &[u16],
    limits: &[u16],
    parents: &[u16],
    highest: &[u32],
    frame_words: &'a [u32],
    free_queue: &[u16],
    removal_list: &[u16],
    addresses: &[u16],
    states: &[u8],
    owners: &[u8],
    free_map: &[u32],
    active: &[u8],
    updating: &[u8],
    images: &[u16],
    chip_words: &[u32],
    chip_records: &[u16],
    chip_next: &[u16],
    line: &[u16],
    used: &[u16],
) -> &'a [u32]
    ensures { let st = all_of (frames_of frames lent) pool records.now numbers.now accounts.now maps.now limits.now parents.now highest.now
        frame_words.now free_queue.now removal_list.now addresses.now states.now owners.now free_map.now active.now updating.now images.now chip_words.now chip_records.now chip_next.now line.now used.now in
        (result.now ≡ (look sizes st slot page).left)
        × ((refusal.new ≡ (look sizes st slot page).answer.refusal)
        × (result.ref_ptr ≡ word_at frame_words.entry.ref_ptr (part_of sizes st slot page).start)) }
{
    let disk = DiskTables {
        records,
        numbers,
        accounts,
        maps,
        limits,
        parents,
        highest,
    };
    let memory = MemoryTables {
        frame_words,
        free_queue,
        removal_list,
        addresses,
        states,
        owners,
        free_map,
        active,
        updating,
        images,
        chip_words,
        chip_records,
        chip_next,
        line,
        used,
    };
    let part = place_core(sizes, slot, page, lent, frames, pool, disk, memory);
    *refusal = part.refusal;
    let start = part.start;
    let end = start + part.count;
    &frame_words[start..end]
}
