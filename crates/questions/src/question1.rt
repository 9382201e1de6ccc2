// Question 1: sizes within limits, every slice of its exact length.
ghost use Rattle.std.specs.Prelude.{◌≡◌, List, length};
ghost use Rattle.tables.specs.Rule.{◌and◌, test, Holds};
ghost use Rattle.model.specs.declared.frame.Frame.{Frame};
ghost use Rattle.model.specs.declared.frame.Pool.{Pool};
ghost use Rattle.model.specs.Sizes.{sizes_fit};
ghost use Rattle.model.specs.Lent.{disk_read, memory_read, tables_read};
ghost use Rattle.model.specs.Step.{disk_lengths, table_lengths};
ghost use Rattle.model.specs.Laws.Apart.{tables_fit};

use model::lent::{DiskTables, MemoryTables};
use model::sizes::Sizes;

// Sizes within limits.
pub fn sizes_fit(z: Sizes) -> bool
    ensures { result ≡ test (sizes_fit z) }
{
    z.within()
}

// Every slice of the disk part of its exact length.
pub fn disk_lengths_fit(z: Sizes, disk: DiskTables<'_>) -> bool
    requires { Holds (sizes_fit z) }
    ensures { result ≡ test (disk_lengths z (disk_read disk.entry)) }
{
    (disk.records.len() == z.records * z.words)
        & (disk.numbers.len() == z.slots)
        & (disk.accounts.len() == z.slots)
        & (disk.maps.len() == z.slots * z.pages)
        & (disk.limits.len() == z.accounts)
        & (disk.parents.len() == z.accounts)
        & (disk.highest.len() == 1)
}

// Every slice of the memory part of its exact length, but for those of the chip and the line; `count` frames are lent.
pub fn memory_lengths_fit(z: Sizes, count: usize, memory: MemoryTables<'_>) -> bool
    requires { Holds (sizes_fit z) }
    ensures { (frames : List Frame) (pool : Pool) → length frames ≡ count → result ≡ test (table_lengths z (memory_read frames pool memory.entry)) }
{
    let pages = z.slots * z.pages;
    (count == z.frames)
        & (memory.frame_words.len() == z.frames * z.words)
        & (memory.free_queue.len() == z.frames)
        & (memory.removal_list.len() == z.frames)
        & (memory.addresses.len() == pages)
        & (memory.states.len() == z.records)
        & (memory.owners.len() == z.records)
        & (memory.free_map.len() == z.records.div_ceil(32))
        & (memory.active.len() == z.slots)
        & (memory.updating.len() == z.slots)
        & (memory.images.len() == pages)
        & (memory.used.len() == z.accounts)
}

// Question 1 of a call that is lent the disk part alone.
pub fn disk_fit(z: Sizes, disk: DiskTables<'_>) -> bool
    ensures { result ≡ test (sizes_fit z and disk_lengths z (disk_read disk.entry)) }
{
    if !sizes_fit(z) {
        return false;
    }
    disk_lengths_fit(z, disk)
}

// Question 1 of every other call, but for the chip and the line; `count` frames are lent.
pub fn all_fit(z: Sizes, count: usize, disk: DiskTables<'_>, memory: MemoryTables<'_>) -> bool
    ensures { (frames : List Frame) (pool : Pool) → length frames ≡ count → result ≡ test (tables_fit z (tables_read frames pool disk.entry memory.entry)) }
{
    if !sizes_fit(z) {
        return false;
    }
    disk_lengths_fit(z, disk) & memory_lengths_fit(z, count, memory)
}
