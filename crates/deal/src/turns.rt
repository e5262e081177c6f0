// Lines that share out: records of the share-out.
use share::Claim;

// A line's place number in line, and its contracts.
#[derive(Clone, Copy, Default)]
pub(crate) struct Turn {
    pub place: u32,
    pub size: u32,
}

impl Claim for Turn {
    ghost wanted = { λ t. t.size };

    ghost standing = { λ t. t.place };

    fn size(&self) -> u32 {
        self.size
    }

    fn place(&self) -> u32 {
        self.place
    }
}
