// The tables of ISO/IEC 18181-1 that contexts are read from.
ghost use Rattle.std.specs.Prelude.{◌≡◌, ◌<◌, ◌≤◌, get_or};
ghost use Rattle.ac_context.specs.Contexts.{strategy_order, block_context_map, channel_row, coeff_freq_context, coeff_num_nonzero_context, Alike};

// Rows Y, X and B.
const K_COMPACT_BLOCK_CONTEXT_MAP: [u8; 39] = [
    0, 1, 2, 2, 3, 3, 4, 5, 6, 6, 6, 6, 6, 7, 8, 9, 9, 10, 11, 12, 13, 14, 14, 14, 14, 14, 7, 8, 9,
    9, 10, 11, 12, 13, 14, 14, 14, 14, 14,
];

const K_STRATEGY_ORDER: [u8; 27] = [
    0, 1, 1, 1, 2, 3, 4, 4, 5, 5, 6, 6, 1, 1, 1, 1, 1, 1, 7, 8, 8, 9, 10, 10, 11, 12, 12,
];

const CHANNEL_ROW: [usize; 3] = [1, 0, 2];

pub(crate) fn strategy_order(code: usize) -> usize
    requires { code < 27 }
    ensures { (result ≡ get_or strategy_order code 0) × (result < 13) }
{
    usize::from(K_STRATEGY_ORDER[code])
}

pub(crate) fn channel_row(c: usize) -> usize
    requires { c < 3 }
    ensures { (result ≡ get_or channel_row c 0) × (result < 3) }
{
    CHANNEL_ROW[c]
}

pub(crate) fn compact_block_context(at: usize) -> usize
    requires { at < 39 }
    ensures { (result ≡ get_or block_context_map at 0) × (result < 15) }
{
    usize::from(K_COMPACT_BLOCK_CONTEXT_MAP[at])
}

// The two tables below are read in the searches' inner loops. A constant array is built anew at each use, so their entries are worked
// out. This one is `frequency_by_rule`; index 0 is never asked for.
pub(crate) fn coeff_freq_context(at: usize) -> usize
    requires { (1 ≤ at) × (at < 64) }
    ensures { (result ≡ get_or coeff_freq_context at 0) × (result < 31) }
{
    if at < 16 {
        return at - 1;
    }
    if at < 32 {
        return 7 + at / 2;
    }
    15 + at / 4
}

// The entries stay the same from 3, 5, 9, 13, 21 and 33 on.
pub(crate) fn coeff_num_nonzero_context(at: usize) -> usize
    requires { at < 64 }
    ensures { (result ≡ get_or coeff_num_nonzero_context at 0) × (result < 207) }
{
    if at < 9 {
        if at < 3 {
            return 31 * (at / 2);
        }
        if at < 5 {
            return 62;
        }
        return 93;
    }
    if at < 21 {
        if at < 13 {
            return 123;
        }
        return 152;
    }
    if at < 33 {
        return 180;
    }
    206
}

// Up to which index the entries stay the one at `at`.
pub(crate) fn last_alike(at: usize) -> usize
    requires { at < 64 }
    ensures { Alike at result }
{
    if at < 9 {
        if at < 3 {
            return at;
        }
        if at < 5 {
            return 4;
        }
        return 8;
    }
    if at < 21 {
        if at < 13 {
            return 12;
        }
        return 20;
    }
    if at < 33 {
        return 32;
    }
    63
}
