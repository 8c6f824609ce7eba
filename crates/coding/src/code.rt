// A code that passed its checks.
ghost use Rattle.coding.specs.Coding.{Codes, coding_of};

// The number of clusters, the cluster of each context, and of each cluster three bytes of configuration.
#[derive(Clone, Copy)]
pub struct Code<'a> {
    pub clusters: u32,
    pub map: &'a [u8],
    pub configs: &'a [u8],
    ghost codes: { Codes (coding_of clusters map.now configs.now) },
}
