// The free queue of a restart: every frame stands in it.
ghost use Rattle.std.specs.Prelude.{◌≡◌, ◌<◌, length};
ghost use Rattle.tables.specs.Base.{tab};
ghost use Rattle.tables.specs.Queue.{packed};

// Frame k as entry k + 1.
pub fn fill_queue(q: &mut [u16])
    requires { length q.old < 65536 }
    ensures { q.new ≡ packed (length q.old) (tab (length q.old) (λ f. f) 0) }
{
    for (k, entry) in q.iter_mut().enumerate() {
        *entry = (k + 1) as u16;
    }
}
