/// Where a hidden table or a variable has its bits: `width` present ones from `first` on, and then as many next ones.
#[derive(Clone, Copy, PartialEq, Eq)]
pub struct Slot {
    pub first: u32,
    pub width: u32,
}
