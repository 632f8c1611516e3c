// What every call does with what it is lent before its own work: the tests behind refusals 1 to 7, the numbers made by checked entry, the runs of
// ties, and the moves, gathered in one array, brought into a step table.

#![tactic(auto)]

pub mod gathered;
pub mod numbers;
pub mod runs;
pub mod sets;
pub mod steps;
pub mod tests;
