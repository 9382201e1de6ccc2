// The choice of a free record near another: the closest lower page's address, and the free record nearest to its record, by the map of one mark a record.
ghost use Rattle.std.specs.Prelude.{◌≡◌, ◌+◌, ◌*◌, ◌<◌, ◌≤◌, length};
ghost use Rattle.tables.specs.Base.{at, find};
ghost use Rattle.model.specs.Parts.{nearest, neighbour, pick};
ghost use Rattle.leaves.specs.FreeMap.{told_by};
ghost use Rattle.leaves.specs.Near.{Passed};
ghost use Rattle.leaves.specs.Search.{mark_around, Around};

use crate::cells::{all_zeros, at};
use crate::close::{ahead, behind};
use crate::pool::by_hand;
use crate::search::{first_mark, last_mark};
use model::sizes::Sizes;

// Pages below a page are passed, sixteen at once, as long as none of the sixteen has an address, of so many; the result is how far below the page that ends.
fn sixteens_passed(addresses: &[u16], page: usize, count: usize) -> usize
    requires { (count ≤ page) × (page < 65536) }
    ensures { (1 ≤ result) × Passed (at addresses.now) page result }
{
    let mut k = 1;
    if addresses.len() < page {
        return k;
    }
    // No `for`: a step takes sixteen pages and a test ends it, which is faster than one by one (docs/BENCHMARKS.md).
    while k + 15 <= count {
        if !all_zeros(addresses, page - 15 - k, 16) {
            return k;
        }
        k += 16;
    }
    k
}

// The address of the closest lower page of the page's design that has one, or 0.
pub fn neighbour(sizes: Sizes, addresses: &[u16], page: usize) -> u16
    requires { (0 < sizes.pages) × (page < 65536) }
    ensures { result ≡ neighbour sizes (at addresses.now) page }
{
    let place = page % sizes.pages;
    let start = sixteens_passed(addresses, page, place);
    for k in start..=place {
        let address = at(addresses, page - k);
        if address != 0 {
            return address;
        }
    }
    0
}

// How many words on both sides of word w, itself the first, are passed before one has a mark, of so many that both sides have.
fn words_passed(map: &[u32], w: usize, reach: usize) -> usize
    requires { (reach ≤ w + 1) × (w + reach ≤ length map.now) × (w < 2048) }
    ensures { result ≡ find reach (mark_around map.now w) 0 }
{
    for k in 0..reach {
        if map[w - k] != 0 || map[w + k] != 0 {
            return k;
        }
    }
    reach
}

// The free record nearest to another, where those from `below` up to `above`, which it lies between, are not free: first one word below, then above, then below as far as that.
fn beyond(sizes: Sizes, map: &[u32], record: usize, below: usize, above: usize) -> usize
    requires { (sizes.records ≤ 32 * length map.now) × (0 < sizes.records) × (sizes.records < 65536) × («record» < 65536) × Around sizes map.now «record» below above }
    ensures { result ≡ nearest sizes (told_by map.now) «record» }
{
    let records = sizes.records;
    let floor = below.saturating_sub(32);
    let low = last_mark(map, floor, below);
    if low > floor {
        let end = (record + (record + 1 - low)).min(records);
        let high = first_mark(map, above, end);
        if high < end {
            return high;
        }
        return low - 1;
    }
    let high = first_mark(map, above, records);
    if high < records {
        let far = record.saturating_sub(high - record);
        let low = last_mark(map, far, floor);
        if low > far {
            return low - 1;
        }
        return high;
    }
    let low = last_mark(map, 0, floor);
    if low > 0 {
        return low - 1;
    }
    (record + record + records + 1) % records
}

// The free record nearest to another, where none may be close: the words on both sides are passed in step.
fn far(sizes: Sizes, map: &[u32], record: usize) -> usize
    requires { (sizes.records ≤ 32 * length map.now) × (0 < sizes.records) × (sizes.records < 65536) × («record» < 65536) }
    ensures { result ≡ nearest sizes (told_by map.now) «record» }
{
    let records = sizes.records;
    if record >= records {
        return beyond(sizes, map, record, records, record);
    }
    let w = record / 32;
    // By div_ceil a choice of a record takes six instructions more (bench/run.py --search).
    let reach = (w + 1).min((records + 31) / 32 - w);
    let k = words_passed(map, w, reach);
    if k == 0 {
        return beyond(sizes, map, record, record + 1, record);
    }
    let below = (w + 1).saturating_sub(k) * 32;
    beyond(sizes, map, record, below, (w + k) * 32)
}

// The free record nearest to another, the lower of two equally near: first in its own word and those beside it, where each side shows 33 records or more.
pub fn nearest(sizes: Sizes, map: &[u32], record: usize) -> usize
    requires { (sizes.records ≤ 32 * length map.now) × (0 < sizes.records) × (sizes.records < 65536) × («record» < 65536) }
    ensures { result ≡ nearest sizes (told_by map.now) «record» }
{
    let records = sizes.records;
    if record < records {
        let down = behind(map, record);
        let up = ahead(map, record);
        if down <= up {
            if down <= 33 {
                return record - down;
            }
        } else if record + up < records {
            if up <= 32 + record % 32 {
                return record + up;
            }
            if record < 32 {
                return record + up;
            }
        }
    }
    far(sizes, map, record)
}

// The record that a page with no address takes: the free one nearest to its neighbour's, or by the hand where it has no neighbour.
pub fn pick(sizes: Sizes, addresses: &[u16], map: &[u32], hand: usize, page: usize) -> usize
    requires { (sizes.records ≤ 32 * length map.now) × (hand < sizes.records) × (sizes.records < 65536) × (0 < sizes.pages) × (page < 65536) }
    ensures { result ≡ pick sizes (at addresses.now) (told_by map.now) hand page }
{
    let near = neighbour(sizes, addresses, page);
    if near == 0 {
        return by_hand(sizes, map, hand);
    }
    nearest(sizes, map, near as usize - 1)
}
