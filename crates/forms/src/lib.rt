// The two stored forms of a board as rules and promises (document 02, No. 6). The calls are in the crate header.
#![tactic(auto)]

// What the two words after the mark say: three cases, as document 02 has them.
#[derive(Clone, Copy)]
pub enum Header {
    // the first word is zero: the old form
    Missing,
    // the header of the sizes given
    Fits,
    // anything else
    Other,
}
