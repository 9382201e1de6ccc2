// Join: a request for a page waits behind those that wait already.
ghost use Rattle.std.specs.Prelude.{◌≡◌, length};
ghost use Rattle.tables.specs.Queue.{queue_of};
ghost use Rattle.tables.specs.Rule.{Holds};
ghost use Rattle.model.specs.declared.event.Event.TheVariants as Event;
ghost use Rattle.model.specs.declared.event.Waiting.TheVariants as Waiting;
ghost use Rattle.model.specs.State.{LINE, all_pages};
ghost use Rattle.model.specs.Refusals.{answered};
ghost use Rattle.model.specs.Laws.Fit.{Within};
ghost use Rattle.model.specs.Laws.Own.{own};
ghost use Rattle.waiting.specs.Seen.{entered_line};

use leaves::queue::{push_back, size};
use model::refusals::Refusal;
use model::sizes::{LINE, Sizes};
use pages::asks::page_of;

// Nothing is asked of the slot or the page but that they are there.
pub fn join(sizes: Sizes, slot: usize, page: usize, line: &mut [u16]) -> Result<u32, Refusal>
    requires { Within sizes × (length line.old ≡ LINE) × Holds (queue_of LINE (all_pages sizes) line.old) }
    ensures answer { answered result ≡ (own sizes (entered_line line.old) (Event.Waiting (Waiting.Join slot page))).answer }
    ensures line { line.new ≡ (own sizes (entered_line line.old) (Event.Waiting (Waiting.Join slot page))).left.memory.line }
{
    let in_range = (slot < sizes.slots) & (page < sizes.pages);
    if !in_range {
        return Err(Refusal::NoRange);
    }
    if size(line) >= LINE {
        return Err(Refusal::LineFull);
    }
    let i = page_of(sizes, slot, page);
    push_back(line, i);
    Ok(0)
}
