// Theorems of the written rules of the calls, as the specs of admission, judging, state, run, l0 and tally state them: no code, and nothing that
// the calls' own proofs use.
#![tactic(auto)]
