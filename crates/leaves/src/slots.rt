// The entries of one slot in a table of pages. These and the two of words.rt stay apart by width: their contracts speak of
// numbers (`store`), which a generic one could not.
ghost use Rattle.std.specs.Prelude.{◌≡◌, ◌+◌, ◌*◌, ◌/◌, ◌<◌, ◌≤◌, length};
ghost use Rattle.tables.specs.Base.{at};
ghost use Rattle.tables.specs.Rule.{same};
ghost use Rattle.tables.specs.Store.{store};
ghost use Rattle.tables.specs.StoreLoops.{between};

// The slot's entries become those of the other table.
pub fn copy_slot(from: &[u16], to: &mut [u16], pages: usize, slot: usize)
    requires { (0 < pages) × (slot * pages + pages ≤ length from.now) × (slot * pages + pages ≤ length to.old) }
    ensures { to.new ≡ store to.old (λ i. same (i / pages) slot) (at from.now) }
{
    let start = slot * pages;
    // No std copy: it asks how far addresses are apart, which means another number on another processor.
    for i in start..start + pages {
        to[i] = from[i];
    }
}

// The slot's entries become 0.
pub fn clear_slot(to: &mut [u16], pages: usize, slot: usize)
    requires { (0 < pages) × (slot * pages + pages ≤ length to.old) }
    ensures { to.new ≡ store to.old (λ i. same (i / pages) slot) (λ i. 0) }
{
    let start = slot * pages;
    to[start..start + pages].fill(0);
}
