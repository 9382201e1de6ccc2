// Requests and answers as numbers: five a request, two an answer.
ghost use Rattle.std.specs.Prelude.{◌≡◌, [], ◌∷◌, ◌+◌, ◌*◌, ◌<◌, ◌≤◌, length};
ghost use Rattle.model.specs.ApplyAll.{request_count, request_at, put_answer, refusals, last_refusal};

use model::event::Answer;
use model::request::Request;

// So many requests have room for their answers.
pub fn request_count(requests: usize, answers: usize) -> usize
    ensures { result ≡ request_count requests answers }
{
    (requests / 5).min(answers / 2)
}

// Request k.
pub fn request_at(requests: &[u32], k: usize) -> Request
    requires { 5 * k + 4 < length requests.now }
    ensures { result ≡ request_at requests.now k }
{
    let i = 5 * k;
    Request {
        kind: requests[i],
        first: requests[i + 1],
        second: requests[i + 2],
        third: requests[i + 3],
        fourth: requests[i + 4],
    }
}

// A request as numbers.
pub fn as_numbers(request: Request) -> [u32; 5]
    ensures { result ≡ request.kind ∷ request.first ∷ request.second ∷ request.third ∷ request.fourth ∷ [] }
{
    [
        request.kind,
        request.first,
        request.second,
        request.third,
        request.fourth,
    ]
}

// Answer k into its place.
pub fn put_answer(answers: &mut [u32], k: usize, answer: Answer)
    requires { 2 * k + 1 < length answers.old }
    ensures { answers.new ≡ put_answer k answer answers.old }
{
    let i = 2 * k;
    answers[i] = answer.refusal;
    answers[i + 1] = answer.result;
}

// The first n answers are this refusal, with result 0. The result is the last of them.
pub fn refuse_all(answers: &mut [u32], n: usize, refusal: u32) -> Answer
    requires { 2 * n ≤ length answers.old }
    ensures { (result ≡ last_refusal refusal n) × (answers.new ≡ refusals refusal answers.old n) }
{
    let mut last = Answer {
        refusal: 0,
        result: 0,
    };
    for k in 0..n {
        last = Answer { refusal, result: 0 };
        put_answer(answers, k, last);
    }
    last
}
