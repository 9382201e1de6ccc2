// What an event hands back, put together with nothing taken or deposited.
ghost use Rattle.std.specs.Prelude.{◌≡◌};
ghost use Rattle.model.specs.Refusals.{answered};

use model::applied::Worked;
use model::event::Answer;
use model::refusals::Refusal;
use writeback::claim::ClaimDone;
use writeback::map_done::Freed;

// The pool stays.
pub fn told(found: Result<u32, Refusal>) -> Worked
    ensures { result ≡ record { taken = 0; deposited = 0; nulled = 0; answer = answered found } }
{
    Worked {
        taken: 0,
        deposited: 0,
        nulled: 0,
        answer: Answer::from(found),
    }
}

// .. and a claim tells what it nulled.
pub fn claimed(done: ClaimDone) -> Worked
    ensures { result ≡ record { taken = 0; deposited = 0; nulled = done.nulled; answer = done.answer } }
{
    let nulled = done.nulled;
    let answer = done.answer;
    Worked {
        taken: 0,
        deposited: 0,
        nulled,
        answer,
    }
}

// Nothing is taken.
pub fn freed(done: Freed) -> Worked
    ensures { result ≡ record { taken = 0; deposited = done.deposited; nulled = 0; answer = done.answer } }
{
    let deposited = done.deposited;
    let answer = done.answer;
    Worked {
        taken: 0,
        deposited,
        nulled: 0,
        answer,
    }
}
