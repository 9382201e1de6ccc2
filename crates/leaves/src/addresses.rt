// The address of a page.
ghost use Rattle.std.specs.Prelude.{◌≡◌};
ghost use Rattle.leaves.specs.Addresses.{live_address};

use crate::cells::at;
use model::lines::LIVE;

// What an update now would store for the page: its address, where its record is live.
pub fn live_address(addresses: &[u16], states: &[u8], i: usize) -> u16
    ensures { result ≡ live_address addresses.now states.now i }
{
    let address = at(addresses, i);
    if address == 0 {
        return 0;
    }
    if at(states, address as usize - 1) == LIVE {
        return address;
    }
    0
}
