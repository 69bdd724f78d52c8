// The shapes of promises that several crates make. Definitions alone: they stand in specs/.
#![tactic(auto)]
