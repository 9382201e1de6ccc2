// What the chip has to do with an event, told by the tables before it.
ghost use Rattle.std.specs.Prelude.{◌≡◌};
ghost use Rattle.leaves.specs.Packed.{unpacked};
ghost use Rattle.events.specs.Chores.{design_chore, page_chore, writeback_chore, waiting_chore, chore_of};

use chips::take::record_of;
use leaves::cells::at;
use leaves::packed::frame_at;
use leaves::queue::first;
use model::event::{Design, Event, Page, Waiting, Writeback};

// Rest: nothing. Take: the frame is in service at once if its record has a copy. Put: the record's words go in. Drop: copies of records that are not live go.
// Forget: the copy of the record that the event tells it made nulled goes.
#[derive(Drop)]
pub enum Chore {
    Rest,
    Take { frame: usize },
    Put { record: usize },
    Drop,
    Forget,
}

// A deactivate ends its records' being live.
fn design_chore(event: Design) -> Chore
    ensures { result ≡ design_chore event }
{
    match event {
        Design::Create { .. } | Design::Delete { .. } | Design::Activate { .. } => Chore::Rest,
        Design::Deactivate { .. } => Chore::Drop,
    }
}

// A fault takes the first queued frame.
fn page_chore(event: Page, free_queue: &[u16]) -> Chore
    ensures { result ≡ page_chore free_queue.now event }
{
    match event {
        Page::Fault { .. } => Chore::Take {
            frame: first(free_queue),
        },
        Page::Read { .. } | Page::Write { .. } | Page::Wire { .. } | Page::Unwire { .. } => {
            Chore::Rest
        }
    }
}

// A claim tells the record that it made nulled, a truncate may cut off many; a good transfer of a frame leaves its record's words.
fn writeback_chore(event: Writeback, frames: &[u64], addresses: &[u16]) -> Chore
    ensures { result ≡ writeback_chore (unpacked frames.now) addresses.now event }
{
    match event {
        Writeback::Claim => Chore::Forget,
        Writeback::Truncate { .. } => Chore::Drop,
        Writeback::Update { .. } => Chore::Rest,
        Writeback::PageDone { frame, good } => {
            if good == 1 {
                let old = frame_at(frames, frame);
                return Chore::Put {
                    record: record_of(addresses, old.page),
                };
            }
            Chore::Rest
        }
        Writeback::MapDone { .. } => Chore::Rest,
    }
}

// A turn may fault if a frame is queued, and claim if none is.
fn waiting_chore(event: Waiting, free_queue: &[u16]) -> Chore
    ensures { result ≡ waiting_chore free_queue.now event }
{
    match event {
        Waiting::Join { .. } => Chore::Rest,
        Waiting::Turn => {
            if at(free_queue, 0) == 0 {
                return Chore::Forget;
            }
            Chore::Take {
                frame: first(free_queue),
            }
        }
    }
}

pub fn chore_of(event: Event, frames: &[u64], free_queue: &[u16], addresses: &[u16]) -> Chore
    ensures { result ≡ chore_of (unpacked frames.now) free_queue.now addresses.now event }
{
    match event {
        Event::Design(e) => design_chore(e),
        Event::Account(_) => Chore::Rest,
        Event::Page(e) => page_chore(e, free_queue),
        Event::Writeback(e) => writeback_chore(e, frames, addresses),
        Event::Waiting(e) => waiting_chore(e, free_queue),
    }
}
