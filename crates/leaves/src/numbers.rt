// Unique numbers on the disk: the stores that give one, each a function of its own.
ghost use Rattle.std.specs.Prelude.{◌≡◌, set};

use crate::cells::put;

// Numbers from here up are no longer given.
pub const HIGH: u32 = 2147483648;

// One store: the new highest number.
pub fn store_highest(highest: &mut [u32], number: u32)
    ensures { highest.new ≡ set highest.old 0 number }
{
    put(highest, 0, number);
}

// One store: a slot's number and account.
pub fn fill_slot(slot: usize, account: u16, number: u32, numbers: &mut [u32], accounts: &mut [u16])
    ensures numbers { numbers.new ≡ set numbers.old slot number }
    ensures accounts { accounts.new ≡ set accounts.old slot account }
{
    put(numbers, slot, number);
    put(accounts, slot, account);
}
