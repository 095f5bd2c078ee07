// What reading a certificate needs to know of a model and its blocks.
ghost use Rattle.std.specs.Prelude.{length, ◌+◌, ◌≤◌, ◌<◌, ◌^◌};

use bp_theory::{Items, Limits};

/// What reading a certificate needs to know of a model and its blocks.
#[derive(Drop)]
pub struct Frame {
    /// How many variables there are.
    pub variables: u32,
    /// For each row of the model in order, whether it is a master row, which proofs may name.
    pub masters: Items<bool>,
    /// How many link rows there are. Proofs name them by the numbers behind the model's rows.
    pub links: u32,
    /// How many blocks there are.
    pub blocks: u32,
    /// The limits that the model keeps.
    pub limits: Limits,
    // All rows but cuts are at most 2^31.
    ghost few_rows: { length masters + links ≤ 2 ^ 31 },
    // A number of 32 bits counts the variables.
    ghost few_variables: { variables < 2 ^ 32 },
    // A number of 32 bits counts the blocks.
    ghost few_blocks: { blocks < 2 ^ 32 },
}
