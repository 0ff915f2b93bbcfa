// The lines of the case file: a line's name and its decimal numbers, each after one blank.
use rules::Geometry;

#[derive(Clone, Copy)]
pub struct Line<'a>(pub &'a [u8]);

// A number with one more digit. There is none where it may have no room, and where the byte is no digit.
fn longer(value: u64, byte: u8) -> Option<u64> {
    let digit = char::from(byte).to_digit(10)?;
    if u64::MAX / 10 <= value {
        return None;
    }
    Some(10 * value + u64::from(digit))
}

impl<'a> Line<'a> {
    // An empty line or a comment.
    pub fn is_note(self) -> bool {
        self.0.is_empty() || self.0.starts_with(b"#")
    }

    fn field(self, which: usize) -> Option<&'a [u8]> {
        self.0.split(|byte| *byte == b' ').nth(which)
    }

    // The line's first word.
    pub fn name(self) -> &'a [u8] {
        self.field(0).unwrap_or(b"")
    }

    // 0 where there is none, and the largest of 64 bits where a digit has no room or a byte is no digit.
    pub fn number(self, which: usize) -> u64 {
        let Some(digits) = self.field(which) else {
            return 0;
        };
        digits
            .iter()
            .try_fold(0, |value, byte| longer(value, *byte))
            .unwrap_or(u64::MAX)
    }

    // A number that is a place, a length or an allowance.
    pub fn size(self, which: usize) -> usize {
        self.number(which) as usize
    }

    pub fn byte(self, which: usize) -> u8 {
        (self.number(which) % 256) as u8
    }

    // A two-byte number; a larger one is taken as the largest.
    pub fn short(self, which: usize) -> u16 {
        u16::try_from(self.number(which)).unwrap_or(u16::MAX)
    }

    // The sizes of a board, which are a line's first two numbers.
    pub fn sizes(self) -> Geometry {
        Geometry {
            blocks: self.short(1),
            slots: self.short(2),
        }
    }
}
