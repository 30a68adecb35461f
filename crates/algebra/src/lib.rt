// Laws only, no code: whole numbers by differences, the ring normaliser and its certificates, machine numbers with
// ranges, fractions and the error calculus. The laws stand in proofs/, the definitions that statements cite in specs/.
#![tactic(auto)]
