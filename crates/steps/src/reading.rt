// What is worked out once for a block, and what a search reads of it at one window position.
ghost use Rattle.std.specs.Prelude.{◌≡◌, true, cond, List, ℤ, T, eqb, length, ◌+◌, ◌*◌, ◌<◌, ◌≤◌};
ghost use Rattle.least_cost.specs.Position.{nz};
ghost use Rattle.ac_context.specs.Contexts.{is_power_below};
ghost use Rattle.block.specs.Block.{Block, input_at, ideal as idealOf, covered as covered_by};
ghost use Rattle.block.specs.Data.{block_with};
ghost use Rattle.candidates.specs.Candidates.{in_array, is_current};
ghost use Rattle.scan.specs.Scan.{level_at};
ghost use Rattle.weights.specs.Settings.{scaled_weight};
ghost use Rattle.weights.specs.Window.{window_for};
ghost use Rattle.steps.specs.Place.{distortion_at, place_of};
ghost use Rattle.steps.specs.Plan.{Planned, PlannedParts, parts_of, Lists, Readable, Offered, Usable, Pickable, Each};

use crate::Place;
use crate::plan::{Plan, PlanParts};
use block::BlockData;

// What a window position offers beside its candidates, which stand in a lent array, so that no search copies them: the ideal, how many candidates there are, and the level that is there.
#[derive(Clone, Copy)]
pub struct Offer {
    pub ideal: f32,
    pub count: usize,
    pub level: i32,
}

// The candidates of one window position, in trial order.
#[derive(Clone, Copy)]
pub struct CandidateList<'a> {
    pub levels: &'a [i32],
    ghost pickable: { Pickable levels.now },
}

// The window has at most `cap` positions.
pub fn plan_of(block: &BlockData, cap: usize) -> Plan
    requires cx_value { (is_power_below 6 block.now.shape.cx ≡ true) × (is_power_below 6 block.now.shape.cy ≡ true) }
    requires strategy_bound { (block.now.shape.strategy ≤ 26) × (block.now.shape.channel ≤ 2) }
    ensures planned { (levels : List ℤ) → Planned (block_with block.now levels) result }
    ensures window_value { result.window ≡ window_for cap (block.now.shape.cx * block.now.shape.cy) }
{
    let shape = block.shape;
    let settings = block.settings;
    let covered = shape.cx as usize * shape.cy as usize;
    let context = ac_context::fine_block_context(
        usize::from(shape.channel),
        usize::from(shape.strategy),
        shape.qf_hi,
    );
    let base = weights::base_len(covered);
    let channel_scale = settings.channel_scale(shape.channel);
    let far_weight = weights::position_weight(channel_scale, base, base, settings.distance);
    Plan {
        covered,
        log2: ac_context::log2_covered(covered),
        window: weights::window_under(cap, covered),
        base,
        offset: ac_context::fine_zero_density_contexts_offset(context) as usize,
        count_context: ac_context::fine_non_zero_context(
            u32::from(shape.predicted),
            context,
        ) as usize,
        channel_scale,
        distance: settings.distance,
        far_weight,
        bias: block.bias,
        lambda: settings.lambda,
        restore_rate: settings.restore_rate(),
        scale: block.scale,
    }
}

impl Plan {
    // What window position i offers, its candidates listed in `offered`; the walk back asks for no more.
    pub fn offer(self, block: &BlockData, levels: &[i32], i: usize, offered: &mut [i32; 5]) -> Offer
        requires readable { Readable block.now.scan.now block.now.source.now block.now.inv_qm.now levels.now self.scale (self.covered + i) }
        requires i_bound { self.covered + i < 65536 }
        ensures offered { (b : Block) → Lists b block.now.scan.now block.now.source.now block.now.inv_qm.now levels.now → Planned b self → Offered self.window b i result offered.new }
        ensures usable { (Usable (in_array result.count offered.new)) × (result.level ≡ level_at block.now.scan.now levels.now (self.covered + i)) }
    {
        self.parts().offer(block, levels, i, offered)
    }

    // What prices a level at window position i.
    pub fn place(self, i: usize, ideal: f32, level: i32) -> Place
        requires { (self.base ≤ 1024) × ((self.covered + i < 65536) × T (is_current level)) }
        ensures { (b : Block) → Planned b self → ideal ≡ idealOf b i → level ≡ input_at b (covered_by b + i) → result ≡ place_of b self.log2 i }
    {
        self.parts().place(i, ideal, level)
    }

    pub fn parts(self) -> PlanParts
        ensures { result ≡ parts_of self }
    {
        PlanParts {
            covered: self.covered,
            log2: self.log2,
            window: self.window,
            base: self.base,
            offset: self.offset,
            count_context: self.count_context,
            channel_scale: self.channel_scale,
            distance: self.distance,
            far_weight: self.far_weight,
            bias: self.bias,
            lambda: self.lambda,
            restore_rate: self.restore_rate,
            scale: self.scale,
        }
    }
}

impl PlanParts {
    // What window position i offers. `Plan::offer` is this of a plan's parts.
    pub fn offer(self, block: &BlockData, levels: &[i32], i: usize, offered: &mut [i32; 5]) -> Offer
        requires readable { Readable block.now.scan.now block.now.source.now block.now.inv_qm.now levels.now self.scale (self.covered + i) }
        requires i_bound { self.covered + i < 65536 }
        ensures offered { (b : Block) → Lists b block.now.scan.now block.now.source.now block.now.inv_qm.now levels.now → PlannedParts b self → Offered self.window b i result offered.new }
        ensures usable { (Usable (in_array result.count offered.new)) × (result.level ≡ level_at block.now.scan.now levels.now (self.covered + i)) }
    {
        let k = self.covered + i;
        let ideal = crate::ideal_at(block, self.scale, k);
        let level = crate::level_at(block.scan, levels, k);
        let window = self.window;
        Offer {
            ideal,
            count: candidates::list_candidates(ideal, level, i < window.restoring, offered),
            level,
        }
    }

    // What prices a level at window position i. `Plan::place` is this of a plan's parts.
    pub fn place(self, i: usize, ideal: f32, level: i32) -> Place
        requires { (self.base ≤ 1024) × ((self.covered + i < 65536) × T (is_current level)) }
        ensures { (b : Block) → PlannedParts b self → ideal ≡ idealOf b i → level ≡ input_at b (covered_by b + i) → result ≡ place_of b self.log2 i }
    {
        let bias = self.bias;
        Place {
            k: self.covered + i,
            covered: self.covered,
            log2: self.log2,
            offset: self.offset,
            weight: self.weight(i),
            ideal,
            bias,
            lambda: self.lambda,
            nonzero_rate: self.nonzero_rate(level),
        }
    }

    // The weight of window position i, without a division past the base length.
    fn weight(self, i: usize) -> f32
        requires { self.base ≤ 1024 }
        ensures { self.far_weight ≡ scaled_weight self.channel_scale self.base self.base self.distance → result ≡ scaled_weight self.channel_scale i self.base self.distance }
    {
        if i < self.base {
            return weights::position_weight(self.channel_scale, i, self.base, self.distance);
        }
        self.far_weight
    }

    fn nonzero_rate(self, level: i32) -> f32
        ensures { result ≡ cond (eqb (nz level) 0) self.restore_rate self.lambda }
    {
        if level == 0 {
            self.restore_rate
        } else {
            self.lambda
        }
    }
}

// The distortion of each candidate.
pub fn distortions(place: Place, candidates: &CandidateList, distortion: &mut [f32; 5])
    requires { length distortion.old ≡ 5 }
    ensures { Each (distortion_at place) candidates.now.levels.now distortion.new }
{
    for (j, &level) in candidates.levels.iter().enumerate() {
        distortion[j] = place.distortion(level);
    }
}
