// What a call changes in its counter's record, by value: no bytes, no image. It knows the contracts of forms and nothing else.
#![tactic(auto)]

pub mod change;
