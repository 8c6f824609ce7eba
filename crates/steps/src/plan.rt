// What is worked out once for a block. In a file of its own: the struct's ghost field may use only what does not speak of a plan.
ghost use Rattle.steps.specs.Coded.{Coded};

use bias::DequantBias;
use weights::Window;

// What a block's shape, settings, bias and scale give; `far_weight` is the weight of each position past the base length.
#[derive(Clone, Copy)]
pub struct Plan {
    pub covered: usize,
    pub log2: u32,
    pub window: Window,
    pub base: usize,
    pub offset: usize,
    pub count_context: usize,
    pub channel_scale: f32,
    pub distance: f32,
    pub far_weight: f32,
    pub bias: DequantBias,
    pub lambda: f32,
    pub restore_rate: f32,
    pub scale: f32,
    ghost coded: { Coded covered log2 offset count_context },
}

// The parts of a plan by themselves, whether their contexts exist or not: what a position offers, and what prices a level there, ask for no more.
#[derive(Clone, Copy)]
pub struct PlanParts {
    pub covered: usize,
    pub log2: u32,
    pub window: Window,
    pub base: usize,
    pub offset: usize,
    pub count_context: usize,
    pub channel_scale: f32,
    pub distance: f32,
    pub far_weight: f32,
    pub bias: DequantBias,
    pub lambda: f32,
    pub restore_rate: f32,
    pub scale: f32,
}
