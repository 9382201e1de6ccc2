// The journal's functions for C: areas of 125 sectors, structs of numbers for its cases, and no precondition.
ghost use Rattle.std.specs.Prelude.{◌≡◌};
ghost use Rattle.journal.specs.Layout.{next_sequence};
ghost use Rattle.journal.specs.Steps.{asked, looked, recovers};
ghost use Rattle.disk.specs.Journal.{most, step_of, recovery_of, refusal_number, found_of, area_of, home_of, commit_answer, commit_left};

use journal::{Ask, Committed, Refusal};

// How many sectors an area has: as many as a commit sector can name.
const MOST: u32 = 125;

// What is to be done next, and the number of the content that it is done with.
#[repr(C)]
#[derive(Drop)]
pub struct Step {
    pub what: u32,
    pub number: u32,
}

// What a recovery finds in the commit sector.
#[repr(C)]
#[derive(Drop)]
pub struct Found {
    pub what: u32,
    pub sequence: u32,
    pub count: u32,
}

// The numbers of each case.
fn step_numbers(ask: Ask) -> Step
    ensures { result ≡ step_of ask }
{
    match ask {
        Ask::Done => Step { what: 0, number: 0 },
        Ask::Content(i) => Step { what: 1, number: i },
        Ask::Sync => Step { what: 2, number: 0 },
        Ask::Commit => Step { what: 3, number: 0 },
        Ask::Home(i) => Step { what: 4, number: i },
    }
}

// What a store of `count` contents asks for next, once `at` operations are done.
#[unsafe(no_mangle)]
pub extern "C" fn disk_ask(count: u32, at: u32) -> Step
    ensures { result ≡ step_of (asked count at) }
{
    step_numbers(journal::journal_ask(count, at))
}

// The sequence number after n.
#[unsafe(no_mangle)]
pub extern "C" fn disk_next_sequence(n: u32) -> u32
    ensures { result ≡ next_sequence n }
{
    journal::journal_next_sequence(n)
}

// The device's sector of content i of store `sequence`; 0, the commit's, where an area has none.
// Shut out: one area for every store.
#[unsafe(no_mangle)]
pub extern "C" fn disk_area(sequence: u32, i: u32) -> u32
    ensures { result ≡ area_of sequence i }
{
    if i < MOST {
        return journal::journal_area(MOST, sequence, i);
    }
    0
}

// The device's sector of home sector x; 0, the commit's, where its number would pass 32 bits.
#[unsafe(no_mangle)]
pub extern "C" fn disk_home(x: u32) -> u32
    ensures { result ≡ home_of x }
{
    if x < 4294967045 {
        return journal::journal_home(MOST, x);
    }
    0
}

// The commit sector of store `sequence` with these home sectors; 1, and nothing is written, where they are more than 125.
#[unsafe(no_mangle)]
pub extern "C" fn disk_fill_commit(sequence: u32, homes: &[u32], words: &mut [u32; 128]) -> u32
    ensures { (result ≡ commit_answer homes.now) × (words.new ≡ commit_left sequence homes.now words.old) }
{
    if homes.len() <= 125 {
        journal::journal_commit(words, sequence, homes);
        return 0;
    }
    1
}

fn refusal_number(refusal: Refusal) -> u32
    ensures { result ≡ refusal_number refusal }
{
    match refusal {
        Refusal::Foreign => 1,
        Refusal::TooMany => 2,
        Refusal::NoHome => 3,
        Refusal::NotZero => 4,
    }
}

fn look_numbers(look: Result<Committed, Refusal>) -> Found
    ensures { result ≡ found_of look }
{
    match look {
        Ok(store) => Found {
            what: 0,
            sequence: store.sequence,
            count: store.count,
        },
        Err(refusal) => Found {
            what: refusal_number(refusal),
            sequence: 0,
            count: 0,
        },
    }
}

// The look at the commit sector, whatever it holds, for so many home sectors.
#[unsafe(no_mangle)]
pub extern "C" fn disk_look_commit(words: &[u32; 128], room: u32) -> Found
    ensures { result ≡ found_of (looked most room words.now) }
{
    look_numbers(journal::journal_look(words, MOST, room))
}

fn recovery_numbers(next: Option<u32>) -> Step
    ensures { result ≡ recovery_of next }
{
    match next {
        None => Step { what: 0, number: 0 },
        Some(i) => Step { what: 5, number: i },
    }
}

// What a recovery of a store of `count` contents asks for next, once `at` are home.
#[unsafe(no_mangle)]
pub extern "C" fn disk_recover(count: u32, at: u32) -> Step
    ensures { result ≡ recovery_of (recovers count at) }
{
    recovery_numbers(journal::journal_recover(count, at))
}
