// The look-ups of the 600-record pack as C symbols (include/sectors.h): each is the function of its name in crate `sectors`, with the same clause.
#![tactic(auto)]

ghost use Rattle.std.specs.Prelude.{◌≡◌};
ghost use Rattle.sectors.specs.Pack.{start_of, record_of};

use model::event::Answer;

// The first sector of a record.
#[unsafe(no_mangle)]
pub extern "C" fn sectors_start_of(record: u32) -> Answer
    ensures { result ≡ start_of «record» }
{
    sectors::sectors_start_of(record)
}

// The record that a sector is in.
#[unsafe(no_mangle)]
pub extern "C" fn sectors_record_of(sector: u32) -> Answer
    ensures { result ≡ record_of sector }
{
    sectors::sectors_record_of(sector)
}
