// The rules of a page's entries, one function a rule.
ghost use Rattle.std.specs.Prelude.{◌≡◌, ◌+◌, ◌*◌, ◌≤◌, ◌<◌, length};
ghost use Rattle.tables.specs.Base.{at};
ghost use Rattle.tables.specs.Rule.{same, each, named, test};
ghost use Rattle.rules.specs.Passes.{empty_row, empty_rows, filed_record, mapped_record, held_record, imaged_record};

use leaves::cells::all_zeros;
use model::lines::{FILED, LEAVING, LIVE, NULLED, RELEASED};

// An empty slot has a zero map.
fn empty_map(pages: usize, s: usize, number: u32, maps: &[u16]) -> bool
    requires { s * pages + pages ≤ length maps.now }
    ensures { result ≡ test (empty_row pages s number maps.now) }
{
    if number != 0 {
        return true;
    }
    all_zeros(maps, s * pages, pages)
}

pub fn empty_maps_ok(slots: usize, pages: usize, numbers: &[u32], maps: &[u16]) -> bool
    requires { (slots ≤ length numbers.now) × (slots * pages ≤ length maps.now) }
    ensures { result ≡ test (empty_rows slots pages numbers.now maps.now) }
{
    (0..slots).all(|s| empty_map(pages, s, numbers[s], maps))
}

// What an inactive design lists is filed, in that slot.
pub fn filed(s: usize, active: u8, map: u16, states: &[u8], owners: &[u8]) -> bool
    requires { (map ≤ length states.now) × (map ≤ length owners.now) }
    ensures { result ≡ test (named map (filed_record s (at states.now) (at owners.now) active)) }
{
    if map == 0 {
        return true;
    }
    if active == 1 {
        return true;
    }
    let r = map as usize - 1;
    (owners[r] as usize == s) & (states[r] == FILED)
}

// A record in an active design's stored map is held by that same page or is that slot's released or leaving record.
pub fn mapped(s: usize, active: u8, map: u16, address: u16, states: &[u8], owners: &[u8]) -> bool
    requires { (map ≤ length states.now) × (map ≤ length owners.now) }
    ensures { result ≡ test (named map (mapped_record s (at states.now) (at owners.now) active address)) }
{
    if map == 0 {
        return true;
    }
    if active != 1 {
        return true;
    }
    if address == map {
        return true;
    }
    let r = map as usize - 1;
    (owners[r] as usize == s) & ((states[r] == RELEASED) | (states[r] == LEAVING))
}

// What a page holds is nulled or live, in the page's slot.
pub fn held(s: usize, address: u16, states: &[u8], owners: &[u8]) -> bool
    requires { (address ≤ length states.now) × (address ≤ length owners.now) }
    ensures { result ≡ test (named address (held_record s (at states.now) (at owners.now))) }
{
    if address == 0 {
        return true;
    }
    let r = address as usize - 1;
    (owners[r] as usize == s) & ((states[r] == NULLED) | (states[r] == LIVE))
}

// An inactive slot has no address: asked of its row.
pub fn address_active(pages: usize, s: usize, addresses: &[u16]) -> bool
    requires { s * pages + pages ≤ length addresses.now }
    ensures { result ≡ test (each pages (λ p. same (at addresses.now (s * pages + p)) 0)) }
{
    all_zeros(addresses, s * pages, pages)
}

// A record in a begun image is held by that same page or is that slot's released record.
pub fn imaged(s: usize, image: u16, address: u16, states: &[u8], owners: &[u8]) -> bool
    requires { (image ≤ length states.now) × (image ≤ length owners.now) }
    ensures { result ≡ test (named image (imaged_record s (at states.now) (at owners.now) address)) }
{
    if image == 0 {
        return true;
    }
    if address == image {
        return true;
    }
    let r = image as usize - 1;
    (owners[r] as usize == s) & (states[r] == RELEASED)
}

// An image is zero unless its update is under way: asked of its row. The body of address_active: each rule has its function.
pub fn image_zero(pages: usize, s: usize, images: &[u16]) -> bool
    requires { s * pages + pages ≤ length images.now }
    ensures { result ≡ test (each pages (λ p. same (at images.now (s * pages + p)) 0)) }
{
    all_zeros(images, s * pages, pages)
}
