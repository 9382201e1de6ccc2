// A request as numbers, and the event that it asks for.
ghost use Rattle.std.specs.Prelude.{◌++◌, ◌≡◌};
ghost use Rattle.model.specs.Requests.{tagged, page_kinds, writeback_kinds, account_kinds, waiting_kinds, decoded, decoded_number, kind_answer};

use crate::event::{Account, Design, Event, Page, Waiting, Writeback};

// kind: the event program's tag, or from 17 up one that it does not have; then the event's values, in order. What a kind has
// no use for is ignored.
#[repr(C)]
#[derive(Clone, Copy)]
pub struct Request {
    pub kind: u32,
    pub first: u32,
    pub second: u32,
    pub third: u32,
    pub fourth: u32,
}

// The event that a request asks for; none where there is no such kind. Looks first among the kinds about a design.
pub fn decode(request: Request) -> Option<Event>
    ensures { (result ≡ decoded request) × (decoded_number result ≡ kind_answer request) }
{
    let kind = request.kind;
    let first = request.first as usize;
    let second = request.second as usize;
    let event = match kind {
        1 => Design::Create {
            slot: first,
            account: second,
            number: request.third,
        },
        2 => Design::Delete { slot: first },
        3 => Design::Activate { slot: first },
        4 => Design::Deactivate { slot: first },
        _ => return page(request),
    };
    Some(Event::Design(event))
}

// .. then among those about one page.
fn page(request: Request) -> Option<Event>
    ensures { result ≡ tagged request.kind (page_kinds request ++ writeback_kinds request ++ account_kinds request ++ waiting_kinds request) }
{
    let kind = request.kind;
    let slot = request.first as usize;
    let page = request.second as usize;
    let word = request.third as usize;
    let event = match kind {
        5 => Page::Fault { slot, page },
        6 => Page::Read { slot, page, word },
        7 => Page::Write {
            slot,
            page,
            word,
            value: request.fourth,
        },
        9 => Page::Wire { slot, page },
        10 => Page::Unwire { slot, page },
        _ => return writeback(request),
    };
    Some(Event::Page(event))
}

// .. then among those that free or move.
fn writeback(request: Request) -> Option<Event>
    ensures { result ≡ tagged request.kind (writeback_kinds request ++ account_kinds request ++ waiting_kinds request) }
{
    let kind = request.kind;
    let first = request.first as usize;
    let second = request.second as usize;
    let event = match kind {
        8 => Writeback::Claim,
        11 => Writeback::Truncate {
            slot: first,
            count: second,
        },
        12 => Writeback::Update { slot: first },
        13 => Writeback::PageDone {
            frame: first,
            good: second,
        },
        14 => Writeback::MapDone {
            slot: first,
            good: second,
        },
        _ => return account(request),
    };
    Some(Event::Writeback(event))
}

// .. then among those about an account.
fn account(request: Request) -> Option<Event>
    ensures { result ≡ tagged request.kind (account_kinds request ++ waiting_kinds request) }
{
    let kind = request.kind;
    let first = request.first as usize;
    let second = request.second as usize;
    let event = match kind {
        15 => Account::Limit {
            account: first,
            pages: second,
        },
        17 => Account::Move {
            giver: first,
            taker: second,
            pages: request.third as usize,
        },
        _ => return waiting(request),
    };
    Some(Event::Account(event))
}

// .. and last among those of the waiting line.
fn waiting(request: Request) -> Option<Event>
    ensures { result ≡ tagged request.kind (waiting_kinds request) }
{
    let kind = request.kind;
    let slot = request.first as usize;
    let page = request.second as usize;
    let event = match kind {
        18 => Waiting::Join { slot, page },
        19 => Waiting::Turn,
        _ => return None,
    };
    Some(Event::Waiting(event))
}
