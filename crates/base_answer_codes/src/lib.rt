// What the open calls answer, each as one number of 64 bits: specs/Code.antt says where a refusal's number and the values stand, and how
// they are read back.
#![tactic(auto)]

ghost use Rattle.std.specs.Prelude.{◌≡◌, ℕ, ◌*◌, ◌<◌, ◌^◌};
ghost use Rattle.model.specs.Answers.{answered, outcome};
ghost use Rattle.base_answer_codes.specs.Code.{no_field, count_field, size_field, answer_field, test_field};
ghost use Rattle.base_answer_codes.specs.Code.{route_number, hub_number, verdict_number};
ghost use Rattle.base_answer_codes.specs.Code.{no_value, count_in, size_in, answer_in, test_in, IsCode};

use model::{Answer, Refusal, Route, Size, TestResult, Verdict};

// A value that a call answers, as a field of 48 bits above a refusal's 16.
pub trait Coded {
    ghost field: { Self → ℕ };

    // How the value is read back from the whole number.
    ghost value_in: { ℕ → Self };

    // Which values have room in the field.
    ghost Fits: { Self → Type 0 } = { λ _. Unit {0} };

    fn field(self) -> u64
        requires { Fits self }
        ensures value { result ≡ field self }
        ensures room { result < 2 ^ 48 }
        ensures back { value_in (65536 * result) ≡ self };
}

// A call's number: that of its refusal, or its value above the low 16 bits, which are 0.
pub fn code<T: Coded>(x: Result<T, Refusal>) -> u64
    requires { (y : T) → outcome x ≡ answered y → T.Fits y }
    ensures { IsCode T.field T.value_in (outcome x) result }
{
    match x {
        Ok(value) => 65536 * value.field(),
        Err(refusal) => base_refusals::refusal_number(refusal) as u64,
    }
}

impl Coded for () {
    ghost field = { no_field };

    ghost value_in = { no_value };

    fn field(self) -> u64 {
        0
    }
}

// A count.
impl Coded for usize {
    ghost field = { count_field };

    ghost value_in = { count_in };

    ghost Fits = { λ k. k < 2 ^ 48 };

    fn field(self) -> u64 {
        self as u64
    }
}

impl Coded for Size {
    ghost field = { size_field };

    ghost value_in = { size_in };

    ghost Fits = { λ s. (s.nodes < 65536) × (s.links < 65536) };

    fn field(self) -> u64 {
        self.nodes as u64 + 65536 * (self.links as u64)
    }
}

impl Coded for Answer {
    ghost field = { answer_field };

    ghost value_in = { answer_in };

    fn field(self) -> u64 {
        self.report as u64 + 65536 * (route_number(self.route) + 65536 * hub_number(self.route))
    }
}

impl Coded for TestResult {
    ghost field = { test_field };

    ghost value_in = { test_in };

    ghost Fits = { λ t. t.searches < 65536 };

    fn field(self) -> u64 {
        verdict_number(self.verdict) + 65536 * (self.searches as u64)
    }
}

// kept: a match, since a route that carries its hub leaves the variants without numbers of their own
pub fn route_number(x: Route) -> u64
    ensures value { result ≡ route_number x }
    ensures bounded { result < 5 }
{
    match x {
        Route::Itself => 0,
        Route::Low => 1,
        Route::Through(_) => 2,
        Route::NoRoute => 3,
        Route::Link => 4,
    }
}

// The hub that a route goes through, or 0.
pub fn hub_number(x: Route) -> u64
    ensures value { result ≡ hub_number x }
    ensures bounded { result < 65536 }
{
    match x {
        Route::Through(h) => h as u64,
        _ => 0,
    }
}

pub fn verdict_number(x: Verdict) -> u64
    ensures value { result ≡ verdict_number x }
    ensures bounded { result < 3 }
{
    x as u64
}
