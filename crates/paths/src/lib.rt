// The feed table as least losses over chains (shortest paths), the search for it, and what is proved of both: a theory
// without code. The definitions and statements are in specs/, the proofs in proofs/.
#![tactic(auto)]
