// Checkpoints as plain images of a board: its blocks as loads give them, beside its registers.
use checks::numbers::accepted;
use lending::Arrays;
use rules::{Controller, Recovery, Registers};

#[derive(Clone, Copy)]
pub struct Checkpoint {
    pub image: [u8; 4096],
    // A format's own checkpoint has none.
    pub registers: Option<[u8; 64]>,
}

// What loads give of all blocks. A load beyond the board's blocks is refused and leaves zeros.
pub fn image_of(arrays: &Arrays, controller: Controller) -> [u8; 4096] {
    let mut image = [0u8; 4096];
    for block in 0..64 {
        let start = 64 * block;
        arrays.load(controller, block, 0, &mut image[start..start + 64]);
    }
    image
}

pub fn registers_of(recovery: Recovery) -> Option<[u8; 64]> {
    match recovery.registers {
        Registers::Saved => Some(recovery.answer.controller.registers),
        Registers::Absent => None,
    }
}

// By loads: a board has no bytes of all blocks to compare at once.
fn same_blocks(arrays: &Arrays, controller: Controller, image: &[u8; 4096]) -> bool {
    for block in 0..controller.geometry.blocks as usize {
        if 64 <= block {
            return false;
        }
        let start = 64 * block;
        let mut bytes = [0u8; 64];
        let number = arrays.load(controller, block, 0, &mut bytes);
        // a load answers a number, as document 01 has it
        if !accepted(number) {
            return false;
        }
        if &bytes[..] != &image[start..start + 64] {
            return false;
        }
    }
    true
}

// The answer says whether there are registers, and the record has them, or zeros.
fn same_registers(recovery: Recovery, wanted: Option<[u8; 64]>) -> bool {
    let held = recovery.answer.controller.registers;
    registers_of(recovery) == wanted && held == wanted.unwrap_or([0u8; 64])
}

// Whether the recovered board reads as the checkpoint.
pub fn reads_as(arrays: &Arrays, recovery: Recovery, checkpoint: &Checkpoint) -> bool {
    same_registers(recovery, checkpoint.registers)
        && same_blocks(arrays, recovery.answer.controller, &checkpoint.image)
}
