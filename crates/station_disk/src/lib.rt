// A real disk or an image: opened, measured in sectors, collected as an extract.
// Scope: none, it is ours: the steps that demand 3 asks of a program.
// For the crates `station…` alone.
#![tactic(auto)]

pub mod first_sector;
pub mod gather;
pub mod open;
pub mod other_size;
pub mod sectors;
