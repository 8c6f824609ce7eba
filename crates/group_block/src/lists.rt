// A group's list and the numbers of its blocks as one value.
// A list, eight words and seven floats a block, and what is lent block after block besides the levels.
#[derive(Clone, Copy)]
pub struct Lists<'a> {
    pub words: &'a [u32],
    pub reals: &'a [f32],
    pub scans: &'a [u32],
    pub sources: &'a [f32],
    pub inv_qms: &'a [f32],
}

// Block `index` of a list, whose n numbers of each kind start at `at`.
#[derive(Clone, Copy)]
pub struct Part {
    pub index: usize,
    pub at: usize,
    pub n: usize,
}
