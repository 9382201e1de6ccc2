// Whole tables copied.
ghost use Rattle.std.specs.Prelude.{◌≡◌, ◌<◌, ◌≤◌, length};
ghost use Rattle.tables.specs.Base.{at, tab};
ghost use Rattle.tables.specs.Rule.{Holds, each, below};

use leaves::cells::at;

// Each entry of the table is that of the source, 0 past its end.
pub fn copy16(source: &[u16], table: &mut [u16])
    ensures { table.new ≡ tab (length table.old) (at source.now) 0 }
{
    for i in 0..table.len() {
        table[i] = at(source, i);
    }
}

// The counts as used counts, of 16 bits.
pub fn put_counts(totals: &[usize], used: &mut [u16])
    requires { (length used.old ≤ length totals.now) × Holds (each (length used.old) (λ q. below (at totals.now q) 65536)) }
    ensures { used.new ≡ tab (length used.old) (at totals.now) 0 }
{
    for q in 0..used.len() {
        used[q] = totals[q] as u16;
    }
}
