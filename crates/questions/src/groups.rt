// The rules by subject: the disk, the files in memory, the frames, the counts.
ghost use Rattle.std.specs.Prelude.{◌≡◌, true, ◌+◌, ◌*◌, ◌≤◌, length};
ghost use Rattle.tables.specs.Base.{at};
ghost use Rattle.tables.specs.Rule.{same, each, test, Holds};
ghost use Rattle.leaves.specs.Packed.{unpacked};
ghost use Rattle.rules.specs.Passes.{marked};
ghost use Rattle.questions.specs.Groups.{DiskLong, CountsLong};
ghost use Rattle.questions.specs.Promises.{disk_passed, FilesGiven, files_passed, files_counted, FramesGiven, frames_passed, frames_counted, counts_passed};

use model::frame::Pool;
use model::lent::{DiskTables, MemoryTables};
use model::sizes::Sizes;

// The words of a table with a mark for each record.
pub const RECORD_MARKS: usize = Sizes::MOST_RECORDS / 32;

// The disk rules; the listed records are marked, from marks that are off.
pub fn disk(z: Sizes, disk: DiskTables<'_>, listed: &mut [u32]) -> bool
    requires { DiskLong z disk.numbers.now disk.accounts.now disk.maps.now disk.parents.now × (z.records ≤ 32 * length listed.old) × Holds (each (length listed.old) (λ k. same (at listed.old k) 0)) }
    ensures { (result ≡ test (disk_passed z disk.entry)) × (result ≡ true → Holds (marked z.records (length disk.entry.maps.now) (at disk.entry.maps.now) listed.new)) }
{
    rules::marks::mark_all(disk.maps, z.records, listed)
        & rules::slots::disk_slots_ok(z.slots, z.accounts, disk.numbers, disk.accounts)
        & rules::slots::numbers_ok(z.slots, disk.numbers)
        & rules::pages::empty_maps_ok(z.slots, z.pages, disk.numbers, disk.maps)
        & rules::slots::parents_ok(z.accounts, disk.parents)
}

// The memory rules of pages, records and slots; listed: the marks of the listed records; payers: who pays for each slot. Each
// payer's pages that count as used by address or map are counted, from a table of zeros.
pub fn files(
    z: Sizes,
    totals: &mut [usize],
    listed: &[u32],
    payers: &[u16],
    disk: DiskTables<'_>,
    memory: MemoryTables<'_>,
) -> bool
    requires { FilesGiven z totals listed payers disk memory }
    ensures { (result ≡ test (files_passed z disk.entry memory.entry)) × (result ≡ true → Holds (files_counted z totals payers disk.entry memory.entry)) }
{
    let mut held: [u32; RECORD_MARKS] = [0; RECORD_MARKS];
    let mut imaged: [u32; RECORD_MARKS] = [0; RECORD_MARKS];
    if !rules::rows::pages_ok(
        z.slots,
        z.pages,
        z.records,
        &mut held,
        &mut imaged,
        totals,
        payers,
        memory.active,
        memory.updating,
        disk.maps,
        memory.addresses,
        memory.images,
        memory.states,
        memory.owners,
    ) {
        return false;
    }
    rules::slots::memory_slots_ok(z.slots, disk.numbers, memory.active, memory.updating)
        & rules::records::records_ok(
            z.records,
            z.slots,
            &held,
            listed,
            memory.states,
            memory.owners,
            memory.updating,
        )
}

// The memory rules of frames and of their queues. The pages that count as used by their frames are counted too.
pub fn frames(
    z: Sizes,
    frames: &[u64],
    totals: &mut [usize],
    payers: &[u16],
    disk: DiskTables<'_>,
    memory: MemoryTables<'_>,
) -> bool
    requires { FramesGiven z totals payers disk memory }
    ensures { (result ≡ test (frames_passed z (unpacked frames.now) disk.entry memory.entry)) × (result ≡ true → Holds (frames_counted z (unpacked frames.now) totals payers memory.entry)) }
{
    if !(rules::queues::queue(z.frames, z.frames, memory.free_queue)
        & rules::queues::queue(z.frames, z.frames, memory.removal_list))
    {
        return false;
    }
    let queued = rules::queues::places(memory.free_queue, [0; Sizes::MOST_FRAMES]);
    let removing = rules::queues::places(memory.removal_list, [0; Sizes::MOST_FRAMES]);
    let mut in_frames: [u32; RECORD_MARKS] = [0; RECORD_MARKS];
    rules::frames::frames_ok(
        z,
        frames,
        queued,
        removing,
        &mut in_frames,
        totals,
        payers,
        memory.active,
        memory.addresses,
        memory.states,
        memory.frame_words,
        disk.records,
    )
}

// The hand is below R; the free map and count agree with the states; used counts are the totals.
pub fn counts(z: Sizes, pool: Pool, totals: &[usize], memory: MemoryTables<'_>) -> bool
    requires { CountsLong z memory.states.now memory.free_map.now memory.used.now × (z.accounts ≤ length totals.now) }
    ensures { result ≡ test (counts_passed z pool totals memory.entry) }
{
    rules::counts::hand_fit(z.records, pool.hand)
        & (pool.free == rules::counts::free_count(z.records, memory.states))
        & rules::counts::free_map_ok(
            z.records,
            z.records.div_ceil(32),
            memory.free_map,
            memory.states,
        )
        & rules::counts::used_ok(z.accounts, totals, memory.used)
}
