// Questions 1 and 2 of everything that is lent: those of the other tables, and the line's and the chip's own.
ghost use Rattle.std.specs.Prelude.{◌≡◌, List, length, take};
ghost use Rattle.tables.specs.Rule.{Holds, test};
ghost use Rattle.model.specs.declared.frame.Frame.{Frame};
ghost use Rattle.model.specs.declared.frame.Pool.{Pool};
ghost use Rattle.model.specs.Lent.{chip_of, all_read};
ghost use Rattle.model.specs.Rules.{all_rules};
ghost use Rattle.model.specs.Sizes.{sizes_fit};
ghost use Rattle.model.specs.Step.{chip_lengths, all_fit};
ghost use Rattle.leaves.specs.Packed.{unpacked};

use chips::ruled::chip_ruled;
use model::frame::Pool;
use model::lent::{DiskTables, MemoryTables};
use model::sizes::{LINE, Sizes};
use questions::question1::all_fit;
use questions::question2::all_rules;
use rules::queues::queue;

// The chip's three tables have their lengths.
fn chip_fit(sizes: Sizes, memory: MemoryTables<'_>) -> bool
    requires { Holds (sizes_fit sizes) }
    ensures { result ≡ test (chip_lengths sizes (chip_of memory.entry.chip_words.now memory.entry.chip_records.now memory.entry.chip_next.now)) }
{
    (memory.chip_words.len() == sizes.chip * sizes.words)
        & (memory.chip_records.len() == sizes.chip)
        & (memory.chip_next.len() == 1)
}

// Question 1; `lent` frames are lent.
pub fn lent_fit(sizes: Sizes, lent: usize, disk: DiskTables<'_>, memory: MemoryTables<'_>) -> bool
    ensures { (frames : List Frame) (pool : Pool) → length frames ≡ lent → result ≡ test (all_fit sizes (all_read frames pool disk.entry memory.entry)) }
{
    if !all_fit(sizes, lent, disk, memory) {
        return false;
    }
    (memory.line.len() == LINE) & chip_fit(sizes, memory)
}

// Question 2, where question 1 said yes.
pub fn lent_rules(
    sizes: Sizes,
    frames: &[u64],
    lent: usize,
    pool: Pool,
    disk: DiskTables<'_>,
    memory: MemoryTables<'_>,
) -> bool
    requires { Holds (all_fit sizes (all_read (take lent (unpacked frames.now)) pool disk memory)) }
    ensures { result ≡ test (all_rules sizes (all_read (take lent (unpacked frames.now)) pool disk.entry memory.entry)) }
{
    let pages = sizes.slots * sizes.pages;
    all_rules(sizes, frames, lent, pool, disk, memory)
        & queue(LINE, pages, memory.line)
        & chip_ruled(
            sizes,
            disk.records,
            memory.states,
            memory.chip_words,
            memory.chip_records,
            memory.chip_next,
        )
}
