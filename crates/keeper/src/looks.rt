// The page looks: by reference for Rattle, by place for firmware to link.
ghost use Rattle.std.specs.Prelude.{◌≡◌};
ghost use Rattle.model.specs.Lent.{all_of};
ghost use Rattle.model.specs.Part.{word_at, part_of};
ghost use Rattle.model.specs.Step.{look};

use crate::frames::load;
use model::applied::Part;
use model::frame::{Frame, Pool};
use model::lent::{DiskTables, MemoryTables};
use model::sizes::Sizes;

// A page look: the frame's own part of the lent words, and where it stands; refused, an empty part.
// Shut out: a part that starts one word later; the next frame's part with equal words.
pub fn page_look<'a>(
    sizes: Sizes,
    slot: usize,
    page: usize,
    frames: &[Frame],
    pool: Pool,
    refusal: &mut u32,
    records: &[u32],
    numbers: &[u32],
    accounts: &[u16],
    maps: &[u16],
    limits: &[u16],
    parents: &[u16],
    highest: &[u32],
    frame_words: &'a [u32],
    free_queue: &[u16],
    removal_list: &[u16],
    addresses: &[u16],
    states: &[u8],
    owners: &[u8],
    free_map: &[u32],
    active: &[u8],
    updating: &[u8],
    images: &[u16],
    chip_words: &[u32],
    chip_records: &[u16],
    chip_next: &[u16],
    line: &[u16],
    used: &[u16],
) -> &'a [u32]
    ensures { let st = all_of frames.now pool records.now numbers.now accounts.now maps.now limits.now parents.now highest.now
        frame_words.now free_queue.now removal_list.now addresses.now states.now owners.now free_map.now active.now updating.now images.now chip_words.now chip_records.now chip_next.now line.now used.now in
        (result.now ≡ (look sizes st slot page).left)
        × ((refusal.new ≡ (look sizes st slot page).answer.refusal)
        × (result.ref_ptr ≡ word_at frame_words.entry.ref_ptr (part_of sizes st slot page).start)) }
{
    let lent = frames.len();
    let values = load(frames);
    calls::looks::look_core(
        sizes,
        slot,
        page,
        lent,
        values,
        pool,
        refusal,
        records,
        numbers,
        accounts,
        maps,
        limits,
        parents,
        highest,
        frame_words,
        free_queue,
        removal_list,
        addresses,
        states,
        owners,
        free_map,
        active,
        updating,
        images,
        chip_words,
        chip_records,
        chip_next,
        line,
        used,
    )
}

// A page look for C, which cannot be handed a reference: which part of the lent words it is.
// Shut out: slot and page in each other's place; a count of W for a refused look.
#[unsafe(no_mangle)]
pub extern "C" fn keeper_page_look(
    sizes: Sizes,
    slot: usize,
    page: usize,
    frames: &[Frame],
    pool: Pool,
    records: &[u32],
    numbers: &[u32],
    accounts: &[u16],
    maps: &[u16],
    limits: &[u16],
    parents: &[u16],
    highest: &[u32],
    frame_words: &[u32],
    free_queue: &[u16],
    removal_list: &[u16],
    addresses: &[u16],
    states: &[u8],
    owners: &[u8],
    free_map: &[u32],
    active: &[u8],
    updating: &[u8],
    images: &[u16],
    chip_words: &[u32],
    chip_records: &[u16],
    chip_next: &[u16],
    line: &[u16],
    used: &[u16],
) -> Part
    ensures { result ≡ part_of sizes
        (all_of frames.now pool records.now numbers.now accounts.now maps.now limits.now parents.now highest.now
        frame_words.now free_queue.now removal_list.now addresses.now states.now owners.now free_map.now active.now updating.now images.now chip_words.now chip_records.now chip_next.now line.now used.now) slot page }
{
    let lent = frames.len();
    let values = load(frames);
    let disk = DiskTables {
        records,
        numbers,
        accounts,
        maps,
        limits,
        parents,
        highest,
    };
    let memory = MemoryTables {
        frame_words,
        free_queue,
        removal_list,
        addresses,
        states,
        owners,
        free_map,
        active,
        updating,
        images,
        chip_words,
        chip_records,
        chip_next,
        line,
        used,
    };
    calls::looks::place_core(sizes, slot, page, lent, values, pool, disk, memory)
}
