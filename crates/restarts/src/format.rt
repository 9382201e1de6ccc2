// The work of format: all of the disk part zeroed, but the parents.
ghost use Rattle.std.specs.Prelude.{◌≡◌, eqb, length, replicate};
ghost use Rattle.tables.specs.Base.{at, if, tab};

use leaves::cells::at;

// Each parent is the wanted one, account 0's 0.
fn store_parents(wanted: &[u16], parents: &mut [u16])
    ensures { parents.new ≡ tab (length parents.old) (λ a. if (eqb a 0) 0 (at wanted.now a)) 0 }
{
    for (a, parent) in parents.iter_mut().enumerate() {
        *parent = if a == 0 { 0 } else { at(wanted, a) };
    }
}

// Each other table becomes as many zeros as it is long.
pub fn format_tables(
    records: &mut [u32],
    numbers: &mut [u32],
    accounts: &mut [u16],
    maps: &mut [u16],
    limits: &mut [u16],
    wanted: &[u16],
    parents: &mut [u16],
    highest: &mut [u32],
)
    ensures records { records.new ≡ replicate (length records.old) 0 }
    ensures numbers { numbers.new ≡ replicate (length numbers.old) 0 }
    ensures accounts { accounts.new ≡ replicate (length accounts.old) 0 }
    ensures maps { maps.new ≡ replicate (length maps.old) 0 }
    ensures limits { limits.new ≡ replicate (length limits.old) 0 }
    ensures parents { parents.new ≡ tab (length parents.old) (λ a. if (eqb a 0) 0 (at wanted.now a)) 0 }
    ensures highest { highest.new ≡ replicate (length highest.old) 0 }
{
    records.fill(0);
    numbers.fill(0);
    accounts.fill(0);
    maps.fill(0);
    limits.fill(0);
    store_parents(wanted, parents);
    highest.fill(0);
}
