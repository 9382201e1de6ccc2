// What entries name.
ghost use Rattle.std.specs.Prelude.{◌≡◌, pred};
ghost use Rattle.tables.specs.Base.{at};

use leaves::cells::at;

// The number that an entry names.
pub fn named(entry: u16) -> usize
    ensures { result ≡ pred entry }
{
    usize::from(entry).saturating_sub(1)
}

// The record of the page that an entry names.
pub fn record_of(addresses: &[u16], page: u16) -> usize
    ensures { result ≡ pred (at addresses.now (pred page)) }
{
    named(at(addresses, named(page)))
}
