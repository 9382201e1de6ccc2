// What comes back by value: from an event, what concerns the pool and the answer; from the work of a call, the frames too, 64 of them whatever F is.
// Structs beside the answer, no Result: the frames and the pool come back on a refusal too, and what was taken or given back is told then as none.
// A record is told as the tables name it, record + 1 or 0 for none.
use crate::event::Answer;
use crate::frame::{Frame, Pool};

// Of an event. taken: the record taken out of the pool + 1, or 0 for none. deposited: how many records were given back. nulled: the record of the
// modified page of zeros that a claim took + 1, or 0 for none.
#[derive(Clone, Copy)]
pub struct Worked {
    pub taken: u32,
    pub deposited: u32,
    pub nulled: u32,
    pub answer: Answer,
}

// Of a request in one call.
#[derive(Clone, Copy)]
pub struct Applied {
    pub frames: [Frame; 64],
    pub taken: u32,
    pub deposited: u32,
    pub answer: Answer,
}

// Of a list of requests, and of a restart, which set the pool anew.
#[derive(Clone, Copy)]
pub struct Pooled {
    pub frames: [Frame; 64],
    pub pool: Pool,
    pub answer: Answer,
}

// Of a page look, for a caller that cannot be handed a reference: which part of the frames' words it is.
#[repr(C)]
#[derive(Clone, Copy)]
pub struct Part {
    pub refusal: u32,
    pub start: usize,
    pub count: usize,
}
