// Lambda, the distortion's weights and the lengths of a search's window.
#![tactic(auto)]

ghost use Rattle.std.specs.Prelude.{◌≡◌, ◌≤◌, max, min};
ghost use Rattle.weights.specs.Window.{window_for, window_of, base_len};
ghost use Rattle.weights.specs.Weights.{clamp, lambda_of, chroma_weight, distortion_weight};
ghost use Rattle.weights.specs.Settings.{within, valid_settings, is_distance, channel_scale, scaled_weight, restore_rate};

// How many positions a search covers, and how many of them it may restore.
#[derive(Clone, Copy)]
pub struct Window {
    pub length: usize,
    pub restoring: usize,
}

// What a search weighs distortion and bits by.
#[derive(Clone, Copy)]
pub struct Settings {
    pub channel_weight: f32,
    pub lambda: f32,
    pub penalty: f32,
    pub distance: f32,
}

// The half-width to begin with: document 01's, and the Rust's.
pub const HALF_WIDTH: u32 = 6;

// A cap that leaves document 01's window whole.
pub const WINDOW_CAP: usize = 1024;

pub fn rdoq_lambda(rd: f32, tuning: f32, ratio: f32) -> f32
    ensures { result ≡ lambda_of rd tuning ratio }
{
    rd * 0.25 * tuning * ratio.clamp(0.5, 2.0)
}

// The multiplier of chroma distortion at a distance.
pub fn chroma_rdoq_weight(distance: f32) -> f32
    ensures { result ≡ chroma_weight distance }
{
    let t = ((distance - 2.25) / (4.0 - 2.25)).clamp(0.0, 1.0);
    2.0 + t * (1.0 - 2.0)
}

// The weight of a position in a window.
pub fn rdoq_distortion_weight(window_index: usize, window_len: usize, distance: f32) -> f32
    requires in_window { window_index ≤ window_len }
    requires window_bound { window_len ≤ 1024 }
    ensures { result ≡ distortion_weight window_index window_len distance }
{
    let len = window_len.max(1);
    let behind = 1.0 - window_index as f32 / len as f32;
    let strength = (distance - 2.0).clamp(0.0, 1.0);
    1.0 + strength * (behind * behind)
}

// The lengths for a number of covered blocks.
#[tactic(auto, unfolding(crate::specs::Window::window_of))]
pub fn rdoq_window_len(covered_blocks: usize) -> Window
    requires { covered_blocks ≤ 1024 }
    ensures { result ≡ window_of covered_blocks }
{
    if covered_blocks == 1 {
        return Window {
            length: 63,
            restoring: 20,
        };
    }
    Window {
        length: (64 * covered_blocks).min(1024).min(63 * covered_blocks),
        restoring: (24 * covered_blocks).min(256),
    }
}

// The lengths under a cap on the positions.
#[tactic(auto, unfolding(crate::specs::Window::window_for, crate::specs::Window::window_of))]
pub fn window_under(cap: usize, covered_blocks: usize) -> Window
    requires { covered_blocks ≤ 1024 }
    ensures { result ≡ window_for cap covered_blocks }
{
    let whole = rdoq_window_len(covered_blocks);
    let length = cap.min(whole.length);
    Window {
        length,
        restoring: whole.restoring.min(length),
    }
}

// Past this many positions the weight stays the same.
pub fn base_len(covered_blocks: usize) -> usize
    requires { covered_blocks ≤ 1024 }
    ensures { result ≡ base_len covered_blocks }
{
    (24 * covered_blocks).min(64).min(63 * covered_blocks)
}

fn between(lo: f32, hi: f32, x: f32) -> bool
    ensures { result ≡ within lo hi x }
{
    lo <= x && x <= hi
}

// A distance from 0 to 25.
pub fn is_distance(distance: f32) -> bool
    ensures { result ≡ is_distance distance }
{
    between(0.0, 25.0, distance)
}

impl Settings {
    // Check 10 of this record.
    pub fn valid(self) -> bool
        ensures { result ≡ valid_settings self }
    {
        between(0.00000095367431640625, 1048576.0, self.lambda)
            && between(0.0009765625, 1024.0, self.penalty)
            && between(0.0009765625, 1024.0, self.channel_weight)
            && is_distance(self.distance)
    }

    // The part of a weight that all window positions share.
    pub fn channel_scale(self, channel: u8) -> f32
        ensures { result ≡ channel_scale self channel }
    {
        if channel == 1 {
            return self.channel_weight * 1.0;
        }
        self.channel_weight * chroma_rdoq_weight(self.distance)
    }

    // The rate of a nonzero level where the input has 0.
    pub fn restore_rate(self) -> f32
        ensures { result ≡ restore_rate self }
    {
        self.lambda * self.penalty
    }
}

// The weight of a window position, its channel's scale at hand.
pub fn position_weight(scale: f32, window_index: usize, base: usize, distance: f32) -> f32
    requires { base ≤ 1024 }
    ensures { result ≡ scaled_weight scale window_index base distance }
{
    scale * rdoq_distortion_weight(window_index.min(base), base, distance)
}
