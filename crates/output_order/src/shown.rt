//! What of a unit's outcome decides about positions.

ghost use Rattle.std.specs.Prelude.{◌≡◌};
ghost use Rattle.output_order.specs.Shown.{shown_of};

use unit_outcomes::Outcome;

/// What decides about the place of a valid unit in output order.
#[derive(Clone, Copy, Debug, PartialEq, Eq)]
pub struct Shown {
    /// Its picture order count.
    pub order: i32,
    /// Whether a period begins with it.
    pub begins_period: bool,
}

impl Shown {
    /// That of a unit with this outcome; nothing where it isn't valid.
    pub fn of(outcome: &Outcome) -> Option<Shown>
        ensures { result ≡ shown_of outcome.now }
    {
        match outcome {
            Outcome::Plan(plan) => Some(Shown {
                order: plan.order,
                begins_period: plan.begins_period,
            }),
            Outcome::Fault(_) | Outcome::Empty => None,
        }
    }
}
