// What a search is given besides the price book, and what it answers.
#![tactic(auto)]

use bias::DequantBias;
use refusals::Refusal;
use weights::Settings;

// A block's place in the format: its sides in 8-sample units, strategy code, channel (X = 0, Y = 1, B = 2), quant class
// and predicted nonzero count.
#[derive(Clone, Copy)]
pub struct Shape {
    pub cx: u32,
    pub cy: u32,
    pub strategy: u8,
    pub channel: u8,
    pub qf_hi: bool,
    pub predicted: u8,
}

// A block besides its levels: its shape, what a search weighs by, the bias and the scale of its channel, the scan order, the coefficients and the inverse weights.
#[derive(Clone, Copy)]
pub struct BlockData<'a> {
    pub shape: Shape,
    pub settings: Settings,
    pub bias: DequantBias,
    pub scale: f32,
    pub scan: &'a [u32],
    pub source: &'a [f32],
    pub inv_qm: &'a [f32],
}

// What a search picked: what the levels cost, where the search adds that up, and how many of them are nonzero from scan position c on.
#[derive(Clone, Copy)]
pub struct Picked {
    pub cost: Option<f32>,
    pub count: u32,
}

// What a search answers.
pub type Answer = Result<Picked, Refusal>;
