// The states of the records: every store of one goes along one of the lines, or leaves it as it was.
ghost use Rattle.std.specs.Prelude.{◌≡◌, true, ◌≤◌, T, length, set};
ghost use Rattle.tables.specs.Base.{at};
ghost use Rattle.tables.specs.Rule.{same, ◌and◌};
ghost use Rattle.tables.specs.Store.{Split, store};
ghost use Rattle.model.specs.Lines.{allowed};

// The record moves to another state, along a line.
pub fn move_record(states: &mut [u8], r: usize, to: u8)
    requires { T (allowed (at states.old r) to) }
    ensures { states.new ≡ set states.old r to }
{
    if r < states.len() {
        states[r] = to;
    }
}

// The state that is stored for a record in a pass: one line on, or its own, which is no move.
fn moved(state: u8, own: bool, from: u8, to: u8) -> u8
    requires { T (allowed from to) }
    ensures { Split ((own ≡ true) × (state ≡ from)) result to state }
{
    if own & (state == from) { to } else { state }
}

// Every record of the slot that is in one state moves to another. Each is stored to, so that no branch hangs on a record.
pub fn move_all(states: &mut [u8], owners: &[u8], slot: usize, from: u8, to: u8)
    requires { (length states.old ≤ length owners.now) × T (allowed from to) }
    ensures { states.new ≡ store states.old (λ r. same (at states.old r) from and same (at owners.now r) slot) (λ r. to) }
{
    if slot > 255 {
        return;
    }
    let owner = slot as u8;
    for r in 0..states.len() {
        states[r] = moved(states[r], owners[r] == owner, from, to);
    }
}
