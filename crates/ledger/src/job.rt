// One job of a stay.

/// One move of ballast: it may be pumped from the release slot on, and nothing of it may be left at the due slot.
#[derive(Clone, Copy, PartialEq, Eq, Debug)]
pub struct Job {
    pub number: u32,
    pub release: u8,
    pub due: u8,
    /// The units not yet pumped.
    pub left: u16,
}
