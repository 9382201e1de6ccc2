// The lent tables, to be read: those of the disk, and those of memory.
// Tables that are changed are lent one by one: a call that changes one and reads another, both out of one struct behind a reference,
// is not covered by Rattle's borrow checker yet.

#[derive(Clone, Copy)]
pub struct DiskTables<'a> {
    pub records: &'a [u32],
    pub numbers: &'a [u32],
    pub accounts: &'a [u16],
    pub maps: &'a [u16],
    pub limits: &'a [u16],
    pub parents: &'a [u16],
    pub highest: &'a [u32],
}

// All of memory but the frames, which are packed, and the pool, which is handed on by value.
#[derive(Clone, Copy)]
pub struct MemoryTables<'a> {
    pub frame_words: &'a [u32],
    pub free_queue: &'a [u16],
    pub removal_list: &'a [u16],
    pub addresses: &'a [u16],
    pub states: &'a [u8],
    pub owners: &'a [u8],
    pub free_map: &'a [u32],
    pub active: &'a [u8],
    pub updating: &'a [u8],
    pub images: &'a [u16],
    pub chip_words: &'a [u32],
    pub chip_records: &'a [u16],
    pub chip_next: &'a [u16],
    pub line: &'a [u16],
    pub used: &'a [u16],
}
