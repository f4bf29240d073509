// The machine: specs/ says what every call does to memory and records, proofs/ what follows from that. No code; the types stand in `machine_types`.
#![tactic(auto)]
