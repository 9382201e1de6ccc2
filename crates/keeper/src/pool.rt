// The pool, the small record of the hand and the count of free records, updated in the caller's own copy.
ghost use Rattle.std.specs.Prelude.{◌≡◌};
ghost use Rattle.model.specs.Pool.{taken, deposited};

use model::frame::Pool;
use model::sizes::Sizes;

// Record `n` - 1 is taken out, or none where `n` is 0.
// Shut out: a hand that stays where it was; a count that stays.
pub fn take(pool: &mut Pool, sizes: Sizes, n: u32)
    ensures { pool.new ≡ taken sizes n pool.old }
{
    *pool = leaves::pool::take(sizes, n, *pool);
}

// `n` records are given back.
// Shut out: the caller's copy left as it was; a hand that moves.
pub fn deposit(pool: &mut Pool, n: u32)
    ensures { pool.new ≡ deposited n pool.old }
{
    *pool = leaves::pool::deposit(n, *pool);
}

// The pool set anew, as a restart leaves it.
// Shut out: the caller's copy left as it was; the hand stored and the count left.
pub fn renew(pool: &mut Pool, new: Pool)
    ensures { pool.new ≡ new }
{
    *pool = new;
}
