// The pass over all pages, slot by slot: it asks the rules of their entries, marks what they hold and list, and counts the used
// ones.
ghost use Rattle.std.specs.Prelude.{◌≡◌, true, ◌+◌, ◌*◌, ◌≤◌, ◌<◌, ltb, length, is_some, IfSome};
ghost use Rattle.tables.specs.Base.{at, count};
ghost use Rattle.tables.specs.Rule.{same, each, test, Holds};
ghost use Rattle.model.specs.Rules.{fit};
ghost use Rattle.rules.specs.Passes.{most_entries, held_row, HeldFit, ImagedFit, live_page, used_page};
ghost use Rattle.rules.specs.Promises.{MarkedTo, MarkedOn, held_entered, imaged_entered, PagesGiven, pages_entered, PagesLeft};

use crate::counts::{listed_one, live_one};
use crate::marks::mark_entry;
use crate::pages::{address_active, filed, held, image_zero, imaged, mapped};

// A row of an active slot. What its pages hold is marked.
fn active_row(
    pages: usize,
    s: usize,
    active: u8,
    records: usize,
    marks: &mut [u32],
    maps: &[u16],
    addresses: &[u16],
    states: &[u8],
    owners: &[u8],
) -> Option<usize>
    requires { (active ≡ 1) × (s * pages + pages ≤ length maps.now) × HeldFit records maps.now addresses.now states.now owners.now × MarkedTo records (length maps.now) addresses marks (s * pages) }
    ensures told { is_some result ≡ test (held_entered pages s active records maps addresses states owners) }
    ensures marked { IfSome result (λ _. MarkedOn records (length maps.now) addresses marks (s * pages + pages)) }
    ensures counted { IfSome result (λ used. used ≡ count pages (λ p. test (live_page (at addresses.now (s * pages + p)) (at states.now)))) }
{
    let base = s * pages;
    let mut used = 0;
    for p in 0..pages {
        let i = base + p;
        let a = addresses[i];
        if !mark_entry(a, records, marks) {
            return None;
        }
        if !(held(s, a, states, owners) & mapped(s, active, maps[i], a, states, owners)) {
            return None;
        }
        used += live_one(a, states);
    }
    Some(used)
}

// A row of an inactive slot.
fn inactive_row(
    pages: usize,
    s: usize,
    active: u8,
    maps: &[u16],
    addresses: &[u16],
    states: &[u8],
    owners: &[u8],
) -> Option<usize>
    requires { (active ≡ 1 → ⊥) × (s * pages + pages ≤ length maps.now) × (length addresses.now ≡ length maps.now) × (length maps.now ≤ most_entries) × (length owners.now ≡ length states.now) × Holds (fit (length maps.now) (length states.now) (at maps.now)) }
    ensures told { is_some result ≡ test (held_row pages s active maps.now addresses.now states.now owners.now) }
    ensures zero { IfSome result (λ _. Holds (each pages (λ p. same (at addresses.now (s * pages + p)) 0))) }
    ensures counted { IfSome result (λ used. used ≡ count pages (λ p. ltb 0 (at maps.now (s * pages + p)))) }
{
    let base = s * pages;
    if !address_active(pages, s, addresses) {
        return None;
    }
    let mut used = 0;
    for p in 0..pages {
        let m = maps[base + p];
        if !filed(s, active, m, states, owners) {
            return None;
        }
        used += listed_one(m);
    }
    Some(used)
}

fn row_ok(
    pages: usize,
    s: usize,
    active: u8,
    records: usize,
    marks: &mut [u32],
    maps: &[u16],
    addresses: &[u16],
    states: &[u8],
    owners: &[u8],
) -> Option<usize>
    requires { (s * pages + pages ≤ length maps.now) × HeldFit records maps.now addresses.now states.now owners.now × MarkedTo records (length maps.now) addresses marks (s * pages) }
    ensures told { is_some result ≡ test (held_entered pages s active records maps addresses states owners) }
    ensures marked { IfSome result (λ _. MarkedOn records (length maps.now) addresses marks (s * pages + pages)) }
    ensures counted { IfSome result (λ used. used ≡ count pages (λ p. used_page active (at maps.now (s * pages + p)) (at addresses.now (s * pages + p)) (at states.now))) }
{
    if active == 1 {
        return active_row(
            pages, s, active, records, marks, maps, addresses, states, owners,
        );
    }
    inactive_row(pages, s, active, maps, addresses, states, owners)
}

// A row of the image of an update under way. What it lists is marked.
fn image_row(
    pages: usize,
    s: usize,
    updating: u8,
    records: usize,
    marks: &mut [u32],
    addresses: &[u16],
    images: &[u16],
    states: &[u8],
    owners: &[u8],
) -> bool
    requires { (updating ≡ 1) × (s * pages + pages ≤ length addresses.now) × ImagedFit records addresses.now images.now states.now owners.now × MarkedTo records (length addresses.now) images marks (s * pages) }
    ensures { (result ≡ test (imaged_entered pages s updating records addresses images states owners)) × (result ≡ true → MarkedOn records (length addresses.now) images marks (s * pages + pages)) }
{
    let base = s * pages;
    for p in 0..pages {
        let i = base + p;
        let m = images[i];
        if !mark_entry(m, records, marks) {
            return false;
        }
        if !imaged(s, m, addresses[i], states, owners) {
            return false;
        }
    }
    true
}

fn image_ok(
    pages: usize,
    s: usize,
    updating: u8,
    records: usize,
    marks: &mut [u32],
    addresses: &[u16],
    images: &[u16],
    states: &[u8],
    owners: &[u8],
) -> bool
    requires { (s * pages + pages ≤ length addresses.now) × ImagedFit records addresses.now images.now states.now owners.now × MarkedTo records (length addresses.now) images marks (s * pages) }
    ensures { (result ≡ test (imaged_entered pages s updating records addresses images states owners)) × (result ≡ true → MarkedOn records (length addresses.now) images marks (s * pages + pages)) }
{
    if updating == 1 {
        return image_row(
            pages, s, updating, records, marks, addresses, images, states, owners,
        );
    }
    image_zero(pages, s, images)
}

// Every page, slot by slot. What pages hold and what images list is marked, from marks that are off; each account's used pages
// are counted, from a table of zeros.
pub fn pages_ok(
    slots: usize,
    pages: usize,
    records: usize,
    marks: &mut [u32],
    image_marks: &mut [u32],
    totals: &mut [usize],
    accounts: &[u16],
    active: &[u8],
    updating: &[u8],
    maps: &[u16],
    addresses: &[u16],
    images: &[u16],
    states: &[u8],
    owners: &[u8],
) -> bool
    requires { PagesGiven slots pages records marks image_marks totals accounts active updating maps addresses images states owners }
    ensures { (result ≡ test (pages_entered slots pages records active updating maps addresses images states owners)) × (result ≡ true → PagesLeft slots pages records marks image_marks totals accounts active maps addresses images states) }
{
    for s in 0..slots {
        let Some(counted) = row_ok(
            pages, s, active[s], records, marks, maps, addresses, states, owners,
        ) else {
            return false;
        };
        if !image_ok(
            pages,
            s,
            updating[s],
            records,
            image_marks,
            addresses,
            images,
            states,
            owners,
        ) {
            return false;
        }
        let q = accounts[s] as usize;
        totals[q] += counted;
    }
    true
}
