// A journal that makes stores whole on a device whose sectors land in any mix: what is to be done next, and where things are.
#![tactic(auto)]

ghost use Rattle.std.specs.Prelude.{◌≡◌, ◌+◌, ◌<◌, ◌≤◌, length};
ghost use Rattle.tables.specs.Base.{at};
ghost use Rattle.tables.specs.Rule.{test};
ghost use Rattle.journal.specs.Layout.{next_sequence, area_at, home_at, commit_words, homes_there, zeros_behind};
ghost use Rattle.journal.specs.Steps.{asked, looked, recovers};

const MAGIC: u32 = 0x4A524E4C;
// how many home sectors a commit sector has words for
const MOST_HOMES: usize = 125;

// What the firmware is to do next for a store. Contents and home sectors are named by their number in the store.
#[derive(Drop)]
pub enum Ask {
    // write this content to its area
    Content(u32),
    // write the commit sector
    Commit,
    Sync,
    // write this content to its home sector
    Home(u32),
    // the store counts, and a read finds it home
    Done,
}

// A store of `count` contents, of which `at` operations are done.
pub fn journal_ask(count: u32, at: u32) -> Ask
    ensures { result ≡ asked count at }
{
    if at < count {
        return Ask::Content(at);
    }
    let past = at - count;
    if past == 0 {
        return Ask::Sync;
    }
    if past == 1 {
        return Ask::Commit;
    }
    if past == 2 {
        return Ask::Sync;
    }
    let home = past - 3;
    if home < count {
        return Ask::Home(home);
    }
    Ask::Done
}

// The sequence number after n; it begins again at 0.
pub fn journal_next_sequence(n: u32) -> u32
    ensures { result ≡ next_sequence n }
{
    std::num::wrapping_add_u32(n, 1)
}

// The sector of content i of store `sequence`; areas of `most` sectors.
pub fn journal_area(most: u32, sequence: u32, i: u32) -> u32
    requires { 1 + most + i < 4294967296 }
    ensures { result ≡ area_at most sequence i }
{
    if sequence % 2 == 1 {
        return 1 + most + i;
    }
    1 + i
}

// The sector of home sector x.
pub fn journal_home(most: u32, x: u32) -> u32
    requires { 1 + most + most + x < 4294967296 }
    ensures { result ≡ home_at most x }
{
    1 + most + most + x
}

// An entry, and 0 past the end.
fn entry_or_zero(entries: &[u32], i: usize) -> u32
    ensures { result ≡ at entries.now i }
{
    if i < entries.len() { entries[i] } else { 0 }
}

// The commit sector of store `sequence` with these home sectors, zeros behind the last. No std copy: the library for C would need memmove for it alone.
pub fn journal_commit(words: &mut [u32; 128], sequence: u32, homes: &[u32])
    requires { length homes.now ≤ 125 }
    ensures { words.new ≡ commit_words sequence homes.now }
{
    for i in 0..MOST_HOMES {
        words[3 + i] = entry_or_zero(homes, i);
    }
    words[0] = MAGIC;
    words[1] = sequence;
    words[2] = homes.len() as u32;
}

// What a recovery finds in the commit sector, once it has synced: a store that is whole in its area.
#[derive(Drop)]
pub struct Committed {
    pub sequence: u32,
    pub count: u32,
}

// Why the commit sector is refused, and nothing is to be written:
#[derive(Drop)]
pub enum Refusal {
    // no journal wrote this sector,
    Foreign,
    // .. it names more contents than an area has sectors, or than it has words for,
    TooMany,
    // .. a home sector that is not there,
    NoHome,
    // .. or a word behind the last home sector is not zero.
    NotZero,
}

// The home sectors that a commit sector names are there.
fn homes_there(words: &[u32; 128], count: usize, room: u32) -> bool
    requires { count ≤ 125 }
    ensures { result ≡ test (homes_there count room words.now) }
{
    words[3..3 + count].iter().all(|home| *home < room)
}

// Every word behind them is zero.
fn zeros_behind(words: &[u32; 128], count: usize) -> bool
    requires { count ≤ 125 }
    ensures { result ≡ test (zeros_behind count words.now) }
{
    words[3 + count..].iter().all(|word| *word == 0)
}

// The look at the commit sector, whatever it holds, for areas of `most` sectors and `room` home sectors.
pub fn journal_look(words: &[u32; 128], most: u32, room: u32) -> Result<Committed, Refusal>
    ensures { result ≡ looked most room words.now }
{
    let count = words[2];
    if words[0] != MAGIC {
        return Err(Refusal::Foreign);
    }
    if count > most {
        return Err(Refusal::TooMany);
    }
    if count > 125 {
        return Err(Refusal::TooMany);
    }
    if !homes_there(words, count as usize, room) {
        return Err(Refusal::NoHome);
    }
    if !zeros_behind(words, count as usize) {
        return Err(Refusal::NotZero);
    }
    Ok(Committed {
        sequence: words[1],
        count,
    })
}

// In a recovery of a store of `count` contents, of which `at` are home: the content that is to be read from its area and
// written to its home sector next; none once the journal is ready.
pub fn journal_recover(count: u32, at: u32) -> Option<u32>
    ensures { result ≡ recovers count at }
{
    if at < count {
        return Some(at);
    }
    None
}
