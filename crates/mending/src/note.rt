// The list of changes: four numbers a place, slot, page, old entry and reason.
ghost use Rattle.std.specs.Prelude.{◌≡◌, [], ◌∷◌, ◌+◌, ◌*◌, ◌≤◌, ◌<◌, length};
ghost use Rattle.mending.specs.Passes.{noted};

// Lists a change at place n; how many are listed then.
pub fn note(changes: &mut [u32], n: usize, slot: usize, page: usize, old: u32, reason: u32) -> usize
    requires { (4 * n + 4 ≤ length changes.old) × (slot < 65536) × (page < 65536) }
    ensures list { changes.new ≡ noted changes.old n (record { slot = slot; page = page; old = old; reason = reason } ∷ []) }
    ensures count { result ≡ n + 1 }
{
    let at = 4 * n;
    changes[at] = slot as u32;
    changes[at + 1] = page as u32;
    changes[at + 2] = old;
    changes[at + 3] = reason;
    n + 1
}
