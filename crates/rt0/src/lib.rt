// RT0 itself has no code: it is defined in specs/ and proved in proofs/. What stands here are the sizes of the longest slip, for those who
// write one and those who check it: its lines, 32 for each of 240 credentials, and its bytes, 8 for each line.
#![tactic(auto)]

#[derive(Drop)]
pub struct Slip;

impl Slip {
    pub const LINES: usize = 7680;

    pub const BYTES: usize = 8 * Slip::LINES;
}
