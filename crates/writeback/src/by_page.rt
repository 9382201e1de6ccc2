// The frames of one slot's pages, as a table: one pass over the frames, so that no page searches them.
ghost use Rattle.std.specs.Prelude.{◌≡◌, ◌<◌, length};
ghost use Rattle.tables.specs.Base.{at};
ghost use Rattle.tables.specs.Rule.{Holds, same, each};
ghost use Rattle.leaves.specs.Packed.{unpacked};
ghost use Rattle.writeback.specs.ByPage.{ByPage};

use leaves::packed::frame_at;

// From a table of zeros.
pub fn by_page(count: usize, pages: usize, slot: usize, frames: &[u64], table: &mut [u8])
    requires { (count < 65) × (pages < 257) × (slot < 65) × (length table.old ≡ 256) × Holds (each 256 λ p. same (at table.old p) 0) }
    ensures { ByPage count pages slot (unpacked frames.now) table.new }
{
    let start = slot * pages;
    for f in 0..count {
        let frame = frame_at(frames, f);
        let page = frame.page as usize;
        if page > start && page <= start + pages {
            table[page - start - 1] = (f + 1) as u8;
        }
    }
}
