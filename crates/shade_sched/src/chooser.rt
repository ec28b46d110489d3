//! A function that chooses, kept beside the fact that it may be asked and answers below the count.

ghost use Rattle.std.specs.Prelude.{◌≡◌, ℕ, ◌<◌, ◌≤◌};
ghost use Rattle.shade_sched.specs.Choosers.{Chooses};

use std::marker::Model;

/// What may be asked which of so many is chosen at a step. Each function of a step and a count is.
pub trait Choosing {
    /// That it may be asked at a step with a count.
    ghost may: { Self → ℕ → ℕ → Type 0 };

    /// That it may give this choice at a step with a count.
    ghost gives: { Self → ℕ → ℕ → ℕ → Type 0 };

    /// A choice at a step among so many.
    fn choose(&self, step: u64, count: u32) -> u32
        requires { may self.now step count }
        ensures { gives self.now step count result };
}

impl<F: Fn(u64, u32) -> u32> Choosing for F {
    ghost may = { λ f step count. F.pre f step count };

    ghost gives = { λ f step count choice. F.post f step count choice };

    fn choose(&self, step: u64, count: u32) -> u32 {
        self(step, count)
    }
}

/// A function from the number of a step and a count to a number below that count. It may be asked at every step, with
/// every count from 1 to 4,096.
#[derive(Drop)]
pub struct Chooser<F: Choosing> {
    function: F,
}

impl<F: Choosing> Model for Chooser<F> {
    ghost Value = { F };

    ghost view = { λ c. c.function };

    ghost invariant = { λ c. Chooses F.may F.gives c.function };
}

impl<F: Choosing> Chooser<F> {
    /// Keeps a function. Takes no memory.
    pub fn new(function: F) -> Chooser<F>
        requires { Chooses F.may F.gives function }
        ensures { result ≡ function }
    {
        Chooser { function }
    }

    /// The function's answer, which is below the count. Takes no memory.
    pub fn pick(&self, step: u64, count: u32) -> u32
        requires least { 1 ≤ count }
        requires most { count ≤ 4096 }
        ensures answer { F.gives self.now step count result }
        ensures below { result < count }
    {
        self.function.choose(step, count)
    }
}
