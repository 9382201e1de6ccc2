// Where things are, for given sizes.
ghost use Rattle.std.specs.Prelude.{◌≡◌, ◌+◌, ◌<◌, ◌≤◌};
ghost use Rattle.tables.specs.Rule.{Holds};
ghost use Rattle.layout.specs.Rows.{per_row};
ghost use Rattle.layout.specs.Laid.{table, width, rows, before, sectors_of};
ghost use Rattle.disk.specs.Header.{disk_fits};
ghost use Rattle.disk.specs.Places.{room_of, place_of};

use crate::header::sizes_fit;
use model::sizes::Sizes;

// How many tables there are.
const TABLES: u32 = 7;

// Where a table is: its first home sector, how many rows it has, how many entries a row has, and how many sectors a row takes.
#[repr(C)]
#[derive(Drop)]
pub struct Place {
    pub begins: u32,
    pub rows: u32,
    pub width: u32,
    pub sectors: u32,
}

// How many entries a row of a table has. Tables by their order on the disk.
fn width_of(sizes: Sizes, t: usize) -> usize
    ensures { result ≡ width sizes (table t) }
{
    if t == 0 {
        return sizes.words;
    }
    if t == 1 {
        return sizes.pages;
    }
    if t < 4 {
        return sizes.slots;
    }
    if t < 6 {
        return sizes.accounts;
    }
    1
}

// How many rows it has.
fn rows_of(sizes: Sizes, t: usize) -> usize
    ensures { result ≡ rows sizes (table t) }
{
    if t == 0 {
        return sizes.records;
    }
    if t == 1 {
        return sizes.slots;
    }
    1
}

// How many sectors a row of n entries takes.
fn per_row(n: usize) -> usize
    requires { n < 4294967296 }
    ensures { result ≡ per_row n }
{
    (n + 127) / 128
}

// How many sectors a table takes.
fn sectors_of(sizes: Sizes, t: usize) -> usize
    requires { Holds (disk_fits sizes) }
    ensures { result ≡ sectors_of sizes (table t) }
{
    let width = width_of(sizes, t);
    let rows = rows_of(sizes, t);
    let one = per_row(width);
    rows * one
}

// How many sectors the header and the first `count` tables take.
fn before_table(sizes: Sizes, count: usize) -> usize
    requires { Holds (disk_fits sizes) × (count ≤ 7) }
    ensures { result ≡ before sizes count }
{
    let mut sum = 1;
    for t in 0..count {
        sum += sectors_of(sizes, t);
    }
    sum
}

// How many home sectors there are; 0 for sizes out of limits.
#[unsafe(no_mangle)]
pub extern "C" fn disk_room(sizes: Sizes) -> u32
    ensures { result ≡ room_of sizes }
{
    if sizes_fit(sizes) {
        let all = before_table(sizes, 7);
        return all as u32;
    }
    0
}

fn nowhere() -> Place
    ensures { result ≡ record { begins = 0; rows = 0; width = 0; sectors = 0 } }
{
    Place {
        begins: 0,
        rows: 0,
        width: 0,
        sectors: 0,
    }
}

// A table that is there.
fn place_of(sizes: Sizes, t: usize) -> Place
    requires { Holds (disk_fits sizes) × (t < 7) }
    ensures { result ≡ place_of sizes t }
{
    let begins = before_table(sizes, t) as u32;
    let rows = rows_of(sizes, t) as u32;
    let entries = width_of(sizes, t);
    let width = entries as u32;
    let sectors = per_row(entries) as u32;
    Place {
        begins,
        rows,
        width,
        sectors,
    }
}

// Where a table is: 0 the records, then maps, numbers, accounts, limits, parents, 6 the highest; zeros where there is none.
#[unsafe(no_mangle)]
pub extern "C" fn disk_table(sizes: Sizes, table: u32) -> Place
    ensures { result ≡ place_of sizes «table» }
{
    if table >= TABLES {
        return nowhere();
    }
    if sizes_fit(sizes) {
        return place_of(sizes, table as usize);
    }
    nowhere()
}
