// What the desk answers and by which rules, document 01's "The desk": definitions in specs/, with its twelve proofs as one theorem, and the functions on
// an answer and on a verdict list, which ask nothing of their caller. It knows the contracts of forms, digest and validity and nothing else.
#![tactic(auto)]

pub mod answer;
pub mod verdicts;
