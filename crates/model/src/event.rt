// The events that a restarted keeper carries out, in five families, and what it answers.

// Events about a design.
#[derive(Clone, Copy)]
pub enum Design {
    Create {
        slot: usize,
        account: usize,
        number: u32,
    },
    Delete {
        slot: usize,
    },
    Activate {
        slot: usize,
    },
    Deactivate {
        slot: usize,
    },
}

// Events about an account. Move shifts pages of limit between an account and its parent.
#[derive(Clone, Copy)]
pub enum Account {
    Limit {
        account: usize,
        pages: usize,
    },
    Move {
        giver: usize,
        taker: usize,
        pages: usize,
    },
}

// Events about one page.
#[derive(Clone, Copy)]
pub enum Page {
    Fault {
        slot: usize,
        page: usize,
    },
    Read {
        slot: usize,
        page: usize,
        word: usize,
    },
    Write {
        slot: usize,
        page: usize,
        word: usize,
        value: u32,
    },
    Wire {
        slot: usize,
        page: usize,
    },
    Unwire {
        slot: usize,
        page: usize,
    },
}

// Events that free frames and records, or that move pages and maps to the disk.
#[derive(Clone, Copy)]
pub enum Writeback {
    Claim,
    Truncate { slot: usize, count: usize },
    Update { slot: usize },
    PageDone { frame: usize, good: usize },
    MapDone { slot: usize, good: usize },
}

// Events of the waiting line.
#[derive(Clone, Copy)]
pub enum Waiting {
    Join { slot: usize, page: usize },
    Turn,
}

#[derive(Clone, Copy)]
pub enum Event {
    Design(Design),
    Account(Account),
    Page(Page),
    Writeback(Writeback),
    Waiting(Waiting),
}

// refusal: 0, or the number of the first question that fails; result: 0 on every refusal.
#[repr(C)]
#[derive(Clone, Copy)]
pub struct Answer {
    pub refusal: u32,
    pub result: u32,
}
