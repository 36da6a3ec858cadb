// Worked lists for the claims of `assurance`: lists in which their suppositions are met, with what each claim then says in figures, and lists in which
// one supposition is broken and the claim would be false. There is no code here, and nothing that a reader has to believe.

#![tactic(auto)]
