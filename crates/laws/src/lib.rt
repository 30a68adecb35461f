// No code: the theorems that the library exists for. The statements stand in specs/ and proofs/.
#![tactic(auto)]
