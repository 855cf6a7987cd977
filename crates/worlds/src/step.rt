// The steps of a ticket as the code keeps them, in place, so that a copy needs no memory.
use crate::few::Few;

// p says that condition p is true, -p that it is false.
pub type Literal = i16;

// A list of up to 32 literals. That no ticket has a literal beside its opposite in one is a law of the ticket.
pub type Term = Few<Literal, 32>;

#[derive(Clone, Copy)]
pub struct Effect {
    pub conditions: Few<Literal, 4>,
    pub result: Literal,
}

#[derive(Clone, Copy)]
pub struct Outcome {
    pub effects: Few<Effect, 4>,
}

#[derive(Clone, Copy)]
pub struct Action {
    pub class: u8,
    pub precondition: Term,
    pub outcomes: Few<Outcome, 4>,
}

#[derive(Clone, Copy)]
pub struct Sensing {
    pub class: u8,
    pub precondition: Term,
    pub sensed: Literal,
}

#[derive(Clone, Copy)]
pub enum Step {
    Action(Action),
    Sensing(Sensing),
}
