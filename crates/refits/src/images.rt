// Images of a board: its blocks as loads give them, and its registers or their absence.
use crate::panel::Panel;
use rules::{Recovery, Registers};

#[derive(Clone, Copy)]
pub struct Image {
    pub blocks: [[u8; 64]; 3],
    pub registers: Option<[u8; 64]>,
}

// The image that a begin with these registers takes of a panel.
pub fn image_of(panel: &Panel, register: u8) -> Image {
    Image {
        blocks: panel.blocks().unwrap_or([[0u8; 64]; 3]),
        registers: Some([register; 64]),
    }
}

pub fn formatted_image(fill: u8) -> Image {
    Image {
        blocks: [[fill; 64]; 3],
        registers: None,
    }
}

// Whether the recovered board reads as the image. Where there are no registers, its record has zeros.
pub fn reads_as(panel: &Panel, recovery: Recovery, image: &Image) -> bool {
    (recovery.registers == Registers::Saved) == image.registers.is_some()
        && panel.controller.registers == image.registers.unwrap_or([0u8; 64])
        && panel.blocks() == Some(image.blocks)
}
