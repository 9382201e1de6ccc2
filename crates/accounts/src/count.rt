// Each account's used count, worked out afresh from tables that keep the rules, whoever is to pay.
ghost use Rattle.std.specs.Prelude.{◌≡◌, ◌+◌, ◌*◌, ◌≤◌, length};
ghost use Rattle.tables.specs.Base.{at, if, count};
ghost use Rattle.tables.specs.Rule.{Holds};
ghost use Rattle.model.specs.Rules.{fit};
ghost use Rattle.rules.specs.Passes.{most_entries, used_page, used_table, framed_table};
ghost use Rattle.accounts.specs.Promises.{SlotsGiven, SlotsLeft, FramesGiven, FramesLeft, CountsGiven, CountsLeft};

use leaves::packed::frame_at;
use leaves::payer::fill_payers;
use model::sizes::Sizes;
use rules::counts::{listed_one, live_one};
use rules::frames::{charge, woven_page};

// 1 where a page counts by its address or its map.
fn used_one(active: u8, map: u16, address: u16, states: &[u8]) -> usize
    requires { address ≤ length states.now }
    ensures { result ≡ if (used_page active map address (at states.now)) 1 0 }
{
    if active == 1 {
        return live_one(address, states);
    }
    listed_one(map)
}

// The pages of one slot that count so.
fn count_row(
    pages: usize,
    s: usize,
    active: u8,
    maps: &[u16],
    addresses: &[u16],
    states: &[u8],
) -> usize
    requires { (s * pages + pages ≤ length maps.now) × (length addresses.now ≡ length maps.now) × (length maps.now ≤ most_entries) × Holds (fit (length addresses.now) (length states.now) (at addresses.now)) }
    ensures { result ≡ count pages (λ p. used_page active (at maps.now (s * pages + p)) (at addresses.now (s * pages + p)) (at states.now)) }
{
    let base = s * pages;
    let mut used = 0;
    for p in 0..pages {
        let i = base + p;
        used += used_one(active, maps[i], addresses[i], states);
    }
    used
}

// .. of every slot, for who pays, from a table of zeros.
fn count_slots(
    slots: usize,
    pages: usize,
    totals: &mut [usize],
    payers: &[u16],
    active: &[u8],
    maps: &[u16],
    addresses: &[u16],
    states: &[u8],
)
    requires { SlotsGiven slots pages totals payers active maps addresses states }
    ensures { SlotsLeft slots pages totals payers active maps addresses states }
{
    for s in 0..slots {
        let used = count_row(pages, s, active[s], maps, addresses, states);
        let q = payers[s] as usize;
        totals[q] += used;
    }
}

// .. and the pages that count by their modified frames.
fn count_frames(
    z: Sizes,
    frames: &[u64],
    totals: &mut [usize],
    payers: &[u16],
    addresses: &[u16],
    states: &[u8],
)
    requires { FramesGiven z frames totals payers addresses states }
    ensures { FramesLeft z frames totals payers addresses states }
{
    for f in 0..z.frames {
        charge(
            woven_page(frame_at(frames, f)),
            z.pages,
            totals,
            payers,
            addresses,
            states,
        );
    }
}

// All that count, for who pays by these limits, from a table of zeros.
pub fn count_used(
    z: Sizes,
    frames: &[u64],
    totals: &mut [usize],
    accounts: &[u16],
    maps: &[u16],
    limits: &[u16],
    parents: &[u16],
    addresses: &[u16],
    states: &[u8],
    active: &[u8],
)
    requires { CountsGiven z frames totals accounts maps addresses states active }
    ensures { CountsLeft z frames totals accounts maps limits parents addresses states active }
{
    let mut payers: [u16; Sizes::MOST_SLOTS] = [0; Sizes::MOST_SLOTS];
    fill_payers(parents, limits, accounts, &mut payers);
    count_slots(
        z.slots, z.pages, totals, &payers, active, maps, addresses, states,
    );
    count_frames(z, frames, totals, &payers, addresses, states);
}
